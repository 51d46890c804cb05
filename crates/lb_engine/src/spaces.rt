//! Tokens behind spaces, with expansion (TeXbook, chapter 24; tex.web, sections 404 to 406).
ghost use Rattle.std.specs.Prelude.{◌≡◌, ◌∷◌, [], Option};
ghost use Rattle.lb_base.specs.declared.fault.Kind.TheVariants.{Runaway};
ghost use Rattle.lb_base.specs.declared.token.Tok.{Tok as AToken};
ghost use Rattle.lb_values.specs.declared.meaning.Meaning.{Meaning as AMeaning};
ghost use Rattle.lb_model_engine.specs.Reads.{closing, equals, next, past_spaces, past_spaces_or};
ghost use Rattle.lb_model_nest.specs.Wholes.{Executed, Whole, and_then, executed, put, stop};
ghost use Rattle.lb_engine.specs.Leads.{Holds, Leads};
ghost use Rattle.lb_engine.specs.Reads.{behind_next, behind_reading};

use crate::engine::Engine;
use crate::groups::put_list;
use crate::reading::{Next, Reading, next_or_end};
use crate::seen::{closes, is_other, is_space};
use lb_base::{Kind, NoMemory, Tok, TokList};
use lb_model::Cells;
use lb_model_nest::Went;
use lb_values::Meaning;
use std::alloc::AllocError;

/// The next token that is not expanded and is no space, or the end.
pub fn past_spaces_or_end<C: Cells>(cells: &mut C, engine: &mut Engine) -> Result<Next, NoMemory>
    requires holds { Holds C.Cells cells.old engine.old }
    ensures leads { (at_end : Whole → Executed) (row : AToken → Option AMeaning → Whole → Executed) → Leads C.Cells (past_spaces_or at_end row)
        (behind_next at_end row) result cells.new engine.new cells.old engine.old }
{
    'tokens: for _turn in 0..u64::MAX {
        match next_or_end(cells, engine)? {
            Next::Tok(tok, meaning) => {
                if is_space(&tok) {
                    continue;
                }
                return Ok(Next::Tok(tok, meaning));
            }
            Next::End => return Ok(Next::End),
            Next::Stops(went) => return Ok(Next::Stops(went)),
        }
    }
    Err(AllocError)
}

// What was read, where the piece may not end.
fn within_piece(next: Next) -> Reading<(Tok, Option<Meaning>)>
    ensures { (row : AToken → Option AMeaning → Whole → Executed) (w : Whole) →
        behind_next (stop Runaway) row next w ≡ behind_reading (λ t. row t.0 t.1) result w }
{
    match next {
        Next::Tok(tok, meaning) => Reading::Of((tok, meaning)),
        Next::End => Reading::Stops(Went::Stopped(Kind::Runaway)),
        Next::Stops(went) => Reading::Stops(went),
    }
}

/// The next token that is not expanded, with its meaning; the piece may not end before one.
pub fn next_token<C: Cells>(
    cells: &mut C,
    engine: &mut Engine,
) -> Result<Reading<(Tok, Option<Meaning>)>, NoMemory>
    requires holds { Holds C.Cells cells.old engine.old }
    ensures leads { (row : AToken → Option AMeaning → Whole → Executed) → Leads C.Cells (next row) (behind_reading (λ t. row t.0 t.1)) result
        cells.new engine.new cells.old engine.old }
{
    let next = next_or_end(cells, engine)?;
    Ok(within_piece(next))
}

/// The next token that is not expanded and is no space, with its meaning; the piece may not end before one.
pub fn past_spaces<C: Cells>(
    cells: &mut C,
    engine: &mut Engine,
) -> Result<Reading<(Tok, Option<Meaning>)>, NoMemory>
    requires holds { Holds C.Cells cells.old engine.old }
    ensures leads { (row : AToken → Option AMeaning → Whole → Executed) → Leads C.Cells (past_spaces row) (behind_reading (λ t. row t.0 t.1)) result
        cells.new engine.new cells.old engine.old }
{
    let next = past_spaces_or_end(cells, engine)?;
    Ok(within_piece(next))
}

// More is done where a row went on.
pub(crate) fn going(went: Went) -> Reading<()>
    ensures { (more : Whole → Executed) (w : Whole) → and_then (executed went w) more ≡ behind_reading (λ u. more) result w }
{
    match went {
        Went::On => Reading::Of(()),
        Went::Over => Reading::Stops(Went::Over),
        Went::Stopped(kind) => Reading::Stops(Went::Stopped(kind)),
        Went::StoppedAt(fault) => Reading::Stops(Went::StoppedAt(fault)),
    }
}

/// Puts tokens before the rest, and more is done behind that.
pub fn put_tokens<C: Cells>(
    cells: &C,
    engine: &mut Engine,
    toks: TokList,
) -> Result<Reading<()>, NoMemory>
    requires holds { Holds C.Cells cells.now engine.old }
    ensures leads { (more : Whole → Executed) → Leads C.Cells (λ w. and_then (put toks w) more) (behind_reading (λ u. more)) result
        cells.now engine.new cells.now engine.old }
{
    let went = put_list(cells, engine, toks)?;
    Ok(going(went))
}

// Puts a token before the rest, and more is done behind that.
fn put_token<C: Cells>(cells: &C, engine: &mut Engine, tok: Tok) -> Result<Reading<()>, NoMemory>
    requires holds { Holds C.Cells cells.now engine.old }
    ensures leads { (more : Whole → Executed) → Leads C.Cells (λ w. and_then (put (tok ∷ []) w) more) (behind_reading (λ u. more)) result
        cells.now engine.new cells.now engine.old }
{
    let mut toks = TokList::new(engine.desk.alloc);
    toks.push(tok)?;
    put_tokens(cells, engine, toks)
}

/// `=` behind spaces, which may be left out.
pub fn equals<C: Cells>(cells: &mut C, engine: &mut Engine) -> Result<Reading<()>, NoMemory>
    requires holds { Holds C.Cells cells.old engine.old }
    ensures leads { (row : Whole → Executed) → Leads C.Cells (equals row) (behind_reading (λ u. row)) result cells.new engine.new cells.old engine.old }
{
    match past_spaces_or_end(cells, engine)? {
        Next::Tok(tok, _meaning) => {
            if is_other(b'=', &tok) {
                return Ok(Reading::Of(()));
            }
            put_token(cells, engine, tok)
        }
        Next::End => Ok(Reading::Of(())),
        Next::Stops(went) => Ok(Reading::Stops(went)),
    }
}

/// A closing brace behind spaces, where nothing else may stand.
pub fn closing<C: Cells>(cells: &mut C, engine: &mut Engine) -> Result<Reading<()>, NoMemory>
    requires holds { Holds C.Cells cells.old engine.old }
    ensures leads { (row : Whole → Executed) → Leads C.Cells (closing row) (behind_reading (λ u. row)) result cells.new engine.new cells.old engine.old }
{
    match past_spaces(cells, engine)? {
        Reading::Of((tok, _meaning)) => {
            if closes(&tok) {
                return Ok(Reading::Of(()));
            }
            Ok(Reading::Stops(Went::Stopped(Kind::TokenMisplaced)))
        }
        Reading::Stops(went) => Ok(Reading::Stops(went)),
    }
}
