//! The parameter texts of macros.
ghost use Rattle.std.specs.Prelude.{◌≡◌, ◌≤◌, ◌∷◌, List, [], true, false, IfOk, length, nat_lt, if◌then◌else◌};
ghost use Rattle.lb_base.specs.declared.fault.Kind.TheVariants.{DepthLimit};
ghost use Rattle.lb_base.specs.declared.token.Tok.{Tok as AToken};
ghost use Rattle.lb_model.specs.Configs.{in_file, looks_in_file};
ghost use Rattle.lb_model.specs.Fed.{Reads};
ghost use Rattle.lb_model.specs.Readings.{looks_taken, taken};
ghost use Rattle.lb_model_grammar.specs.declared.given.Given.{Given as AGiven};
ghost use Rattle.lb_model_grammar.specs.declared.given.Given.TheVariants.{Tok as GivenTok};
ghost use Rattle.lb_model_engine.specs.Definitions.{parameter_text};
ghost use Rattle.lb_engine.specs.Parameters.{counted, listed, turned};
ghost use Rattle.lb_engine.specs.declared.parameters.Turn.TheVariants as turns;

use crate::seen::{closes, is_other, is_parameter, opens};
use lb_base::{Kind, NoMemory, Stop, Tok, TokList};
use lb_model::Feed;
use std::alloc::Global;
use std::marker::Model;

/// The most tokens that a parameter text may have.
const MOST_TOKENS: usize = 1_000_000;

/// The most parameters.
const MOST_PARAMETERS: u8 = 9;

/// The tokens before the opening brace of a body, with their parameters; and that brace, where it stands behind a parameter character: then it
/// ends the text as its last token, and stands behind the body as well (TeXbook, chapter 20).
#[derive(Drop)]
pub struct ParameterText {
    tokens: TokList,
    brace: Option<Tok>,
}

impl Model for ParameterText {
    ghost use Rattle.lb_model_engine.specs.Definitions.{ParameterText as AText};
    ghost use Rattle.lb_engine.specs.Parameters.{listed};

    ghost Value = { AText };

    ghost view = { λ t. record { tokens = t.tokens; brace = listed t.brace } };
}

impl ParameterText {
    /// The tokens, and the brace.
    pub fn into_parts(self) -> (TokList, Option<Tok>)
        ensures tokens { result.0 ≡ self.tokens }
        ensures brace { listed result.1 ≡ self.brace }
    {
        (self.tokens, self.brace)
    }
}

// What a token does to a parameter text: it is a parameter character, one more token, or the number of the next parameter; or the brace that
// ends the text, behind a parameter character or not; or it is at fault.
#[derive(Clone, Copy)]
pub(crate) enum Turn {
    Marks,
    Adds,
    Counts(u8),
    Ends,
    EndsMarked,
    Fails(Kind),
}

fn copy(tok: &Tok) -> Result<Tok, NoMemory>
    ensures { IfOk result (λ copy. copy ≡ tok.now) }
{
    tok.clone()
}

// The turn, where there is room for one more token.
fn with_room(turn: Turn, count: usize) -> Turn
    ensures turn { result ≡ (if nat_lt count 1000000 then turn else turns.Fails DepthLimit) }
    ensures few { counted result ≤ counted turn }
{
    if count < MOST_TOKENS {
        return turn;
    }
    Turn::Fails(Kind::DepthLimit)
}

// What a token does behind a parameter character, where a text has so many parameters and tokens.
fn marked_turn(parameters: u8, count: usize, tok: &Tok) -> Turn
    requires { parameters ≤ 9 }
    ensures few { counted result ≤ 9 }
    ensures turn { (toks : List AToken) (given : List AGiven) → length toks ≡ count
        → parameter_text true parameters toks (GivenTok tok.now ∷ given) ≡ turned result parameters toks tok.now given }
{
    if opens(tok) {
        return with_room(Turn::EndsMarked, count);
    }
    if is_other(b'1' + parameters, tok) && parameters < MOST_PARAMETERS {
        return with_room(Turn::Counts(parameters + 1), count);
    }
    Turn::Fails(Kind::TokenMisplaced)
}

// What any other token does.
fn plain_turn(parameters: u8, count: usize, tok: &Tok) -> Turn
    ensures few { counted result ≤ 9 }
    ensures turn { (toks : List AToken) (given : List AGiven) → length toks ≡ count
        → parameter_text false parameters toks (GivenTok tok.now ∷ given) ≡ turned result parameters toks tok.now given }
{
    if opens(tok) {
        return Turn::Ends;
    }
    if closes(tok) {
        return Turn::Fails(Kind::TokenMisplaced);
    }
    if is_parameter(tok) {
        return Turn::Marks;
    }
    with_room(Turn::Adds, count)
}

// What a token does, behind a parameter character or not.
fn turn_of(marked: bool, parameters: u8, count: usize, tok: &Tok) -> Turn
    requires { parameters ≤ 9 }
    ensures turn { (toks : List AToken) (given : List AGiven) → length toks ≡ count
        → parameter_text marked parameters toks (GivenTok tok.now ∷ given) ≡ turned result parameters toks tok.now given }
    ensures few { counted result ≤ 9 }
{
    match marked {
        true => marked_turn(parameters, count, tok),
        false => plain_turn(parameters, count, tok),
    }
}

/// The parameter text of a macro, up to the opening brace of its body, which is taken (TeXbook, chapter 20; tex.web, sections 473 to 476). The
/// faults are those of the feed; `TokenMisplaced` at a closing brace, and where neither the brace nor the next number stands behind a parameter
/// character; `Runaway` where the text or the piece ends before; and `DepthLimit` above a million tokens.
pub(crate) fn read_parameters<F: Feed>(alloc: Global, feed: &mut F) -> Result<ParameterText, Stop>
    ensures reads { Reads F.Feed (taken in_file (parameter_text false 0 []))
        (looks_taken in_file looks_in_file (parameter_text false 0 [])) result feed.new feed.old }
{
    let mut tokens = TokList::new(alloc);
    let mut parameters = 0u8;
    let mut marked = false;
    'tokens: for _turn in 0..u64::MAX {
        match feed.in_file() {
            Err(stop) => return Err(stop),
            Ok(None) => return Err(Stop::Fault(Kind::Runaway)),
            Ok(Some(tok)) => match turn_of(marked, parameters, tokens.len(), &tok) {
                Turn::Marks => marked = true,
                Turn::Adds => {
                    marked = false;
                    tokens.push(tok)?;
                }
                Turn::Counts(next) => {
                    parameters = next;
                    marked = false;
                    tokens.push(Tok::Param(next))?;
                }
                Turn::Ends => return Ok(ParameterText {
                    tokens,
                    brace: None,
                }),
                Turn::EndsMarked => {
                    let brace = copy(&tok)?;
                    tokens.push(tok)?;
                    return Ok(ParameterText {
                        tokens,
                        brace: Some(brace),
                    });
                }
                Turn::Fails(kind) => return Err(Stop::Fault(kind)),
            },
        }
    }
    Err(Stop::Memory)
}
