//! The letters of a word, one behind another.
ghost use Rattle.std.specs.Prelude.{◌≡◌, ◌∷◌, ◌<◌, List, drop, length};
ghost use Rattle.lb_model_grammar.specs.declared.given.Given.{Given as AGiven};
ghost use Rattle.lb_model_grammar.specs.declared.given.Scanned.{Scanned as AScanned};
ghost use Rattle.lb_model_grammar.specs.Scans.{Meant};
ghost use Rattle.lb_scan.specs.Words.{letters_before, word_after};

use crate::class::is_letter;
use lb_base::Tok;
use lb_model_grammar::Given;

/// How far a word has come: so many letters came, it is found, or it does not come.
#[derive(Clone, Copy)]
pub(crate) enum Progress {
    Letters(usize),
    Found,
    Missing,
}

// A token in place of the next letter.
fn letter(word: &[u8], count: usize, tok: &Tok) -> Progress
    requires { count < length word.now }
    ensures next { (f : List AGiven → Meant AScanned) (m : Meant AScanned) (more : List AGiven) →
        word_after word.now f m result more ≡ word_after word.now f m (Progress.Letters count) (AGiven.Tok tok.now ∷ more) }
    ensures within { letters_before result < length word.now }
{
    if !is_letter(word[count], tok) {
        return Progress::Missing;
    }
    if count + 1 == word.len() {
        return Progress::Found;
    }
    Progress::Letters(count + 1)
}

/// What was given in place of the next letter.
pub(crate) fn next_letter(word: &[u8], count: usize, given: &Given) -> Progress
    requires { count < length word.now }
    ensures next { (f : List AGiven → Meant AScanned) (m : Meant AScanned) (more : List AGiven) →
        word_after word.now f m result more ≡ word_after word.now f m (Progress.Letters count) (given.now ∷ more) }
    ensures within { letters_before result < length word.now }
{
    match given {
        Given::Tok(tok) => letter(word, count, tok),
        Given::Quantity(_) => Progress::Missing,
        Given::End => Progress::Missing,
    }
}
