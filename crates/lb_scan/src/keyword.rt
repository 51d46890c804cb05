//! Turns of a scan of a keyword.
ghost use Rattle.std.specs.Prelude.{◌≡◌, ◌∷◌, ◌<◌, List, length, false};
ghost use Rattle.lb_model_grammar.specs.declared.given.Given.{Given as AGiven};
ghost use Rattle.lb_scan.specs.Stages.{stage_after, turned, within};
ghost use Rattle.lb_model_grammar.specs.declared.given.Scanned.{Scanned};

use crate::class::is_space;
use crate::stage::{Keeps, Stage};
use crate::word::{Progress, next_letter};
use lb_model_grammar::{Given, Scanned};

/// Letters of the word were read.
pub(crate) fn letters(word: &[u8], count: usize, given: &Given, stage: &mut Stage) -> Keeps
    requires { count < length word.now }
    ensures next { (all more : List AGiven) →
        turned word.now stage.new result all given.now more ≡ stage_after word.now (Stage.Letters count) all (given.now ∷ more) }
    ensures within { within word.now stage.new }
{
    match next_letter(word, count, given) {
        Progress::Letters(count) => {
            *stage = Stage::Letters(count);
            Keeps::All
        }
        Progress::Found => {
            *stage = Stage::Over(Scanned::Found(true));
            Keeps::Nothing
        }
        Progress::Missing => missing(stage),
    }
}

fn missing(stage: &mut Stage) -> Keeps
    ensures stage { stage.new ≡ Stage.Over (Scanned.Found false) }
    ensures keeps { result ≡ Keeps.All }
{
    *stage = Stage::Over(Scanned::Found(false));
    Keeps::All
}

/// Spaces may come before the word.
#[inline(never)]
pub(crate) fn spaces(word: &[u8], given: &Given, stage: &mut Stage) -> Keeps
    ensures next { (all more : List AGiven) →
        turned word.now stage.new result all given.now more ≡ stage_after word.now Stage.Spaces all (given.now ∷ more) }
    ensures within { within word.now stage.new }
{
    match given {
        Given::Tok(tok) => {
            if is_space(tok) {
                *stage = Stage::Spaces;
                return Keeps::All;
            }
            if word.is_empty() {
                *stage = Stage::Over(Scanned::Found(true));
                return Keeps::Last;
            }
            letters(word, 0, given, stage)
        }
        Given::Quantity(_) => missing(stage),
        Given::End => missing(stage),
    }
}
