//! Numbers of registers and codes, and quantities in arguments (TeXbook, chapter 24; tex.web, sections 433 to 436).
ghost use Rattle.std.specs.Prelude.{◌≡◌, ◌++◌, ℕ, ℤ};
ghost use Rattle.lb_base.specs.declared.glue.Glue.{Glue as AGlue};
ghost use Rattle.lb_model_grammar.specs.declared.given.Scanned.{Scanned as AScanned};
ghost use Rattle.lb_model_expansion.specs.Expansion.{picks};
ghost use Rattle.lb_model_engine.specs.Reads.{closing, code, code_to, dimension_in, glue_in, number_in, put_closed, scanning};
ghost use Rattle.lb_model_nest.specs.Wholes.{Executed, Whole, and_then};
ghost use Rattle.lb_engine.specs.Leads.{Holds, Leads};
ghost use Rattle.lb_engine.specs.Reads.{behind_reading};

use crate::engine::Engine;
use crate::reading::{Reading, glue_found, number, number_found, scan};
use crate::spaces::{closing, put_tokens};
use lb_base::{Category, Glue, Kind, NoMemory, Tok, TokList};
use lb_expand::{ScanKind, Scanned};
use lb_model::Cells;
use lb_model_nest::Went;

// One of 0 to 255.
fn code_of(number: i32) -> Reading<u8>
    ensures code { (row : ℕ → Whole → Executed) (w : Whole) → code_to (picks number) row w ≡ behind_reading row result w }
{
    match u8::try_from(number) {
        Ok(code) => Reading::Of(code),
        Err(_) => Reading::Stops(Went::Stopped(Kind::BadCode)),
    }
}

/// The number of a register or a code, from 0 to 255.
pub fn code<C: Cells>(cells: &mut C, engine: &mut Engine) -> Result<Reading<u8>, NoMemory>
    requires holds { Holds C.Cells cells.old engine.old }
    ensures leads { (row : ℕ → Whole → Executed) → Leads C.Cells (code row) (behind_reading row) result cells.new engine.new cells.old engine.old }
{
    match number(cells, engine)? {
        Reading::Of(number) => Ok(code_of(number)),
        Reading::Stops(went) => Ok(Reading::Stops(went)),
    }
}

// Puts tokens before the rest, with a brace behind them.
fn put_closed<C: Cells>(
    cells: &C,
    engine: &mut Engine,
    toks: TokList,
) -> Result<Reading<()>, NoMemory>
    requires holds { Holds C.Cells cells.now engine.old }
    ensures leads { (more : Whole → Executed) → Leads C.Cells (λ w. and_then (put_closed toks w) more) (behind_reading (λ u. more)) result
        cells.now engine.new cells.now engine.old }
{
    let mut toks = toks;
    toks.push(Tok::Char(Category::EndGroup, b'}'))?;
    put_tokens(cells, engine, toks)
}

// A quantity, behind which only spaces stand before a closing brace.
fn scan_closed<C: Cells>(
    cells: &mut C,
    engine: &mut Engine,
    kind: ScanKind,
) -> Result<Reading<Scanned>, NoMemory>
    requires holds { Holds C.Cells cells.old engine.old }
    ensures leads { (row : AScanned → Whole → Executed) → Leads C.Cells (scanning kind (λ found v. closing (row found) v)) (behind_reading row) result
        cells.new engine.new cells.old engine.old }
{
    match scan(cells, engine, kind)? {
        Reading::Of(found) => match closing(cells, engine)? {
            Reading::Of(()) => Ok(Reading::Of(found)),
            Reading::Stops(went) => Ok(Reading::Stops(went)),
        },
        Reading::Stops(went) => Ok(Reading::Stops(went)),
    }
}

// The quantity that tokens are, with spaces behind it.
fn scan_in<C: Cells>(
    cells: &mut C,
    engine: &mut Engine,
    toks: TokList,
    kind: ScanKind,
) -> Result<Reading<Scanned>, NoMemory>
    requires holds { Holds C.Cells cells.old engine.old }
    ensures leads { (row : AScanned → Whole → Executed) → Leads C.Cells
        (λ w. and_then (put_closed toks w) (scanning kind (λ found v. closing (row found) v))) (behind_reading row) result
        cells.new engine.new cells.old engine.old }
{
    match put_closed(cells, engine, toks)? {
        Reading::Of(()) => scan_closed(cells, engine, kind),
        Reading::Stops(went) => Ok(Reading::Stops(went)),
    }
}

/// The number that an argument is.
pub fn number_in<C: Cells>(
    cells: &mut C,
    engine: &mut Engine,
    toks: TokList,
) -> Result<Reading<i32>, NoMemory>
    requires holds { Holds C.Cells cells.old engine.old }
    ensures leads { (row : ℤ → Whole → Executed) → Leads C.Cells (number_in toks row) (behind_reading row) result cells.new engine.new cells.old engine.old }
{
    match scan_in(cells, engine, toks, ScanKind::Number)? {
        Reading::Of(found) => Ok(Reading::Of(number_found(found))),
        Reading::Stops(went) => Ok(Reading::Stops(went)),
    }
}

/// The dimension that an argument is, in scaled points.
pub fn dimension_in<C: Cells>(
    cells: &mut C,
    engine: &mut Engine,
    toks: TokList,
) -> Result<Reading<i32>, NoMemory>
    requires holds { Holds C.Cells cells.old engine.old }
    ensures leads { (row : ℤ → Whole → Executed) → Leads C.Cells (dimension_in toks row) (behind_reading row) result cells.new engine.new cells.old engine.old }
{
    match scan_in(cells, engine, toks, ScanKind::Dimen)? {
        Reading::Of(found) => Ok(Reading::Of(number_found(found))),
        Reading::Stops(went) => Ok(Reading::Stops(went)),
    }
}

/// The glue that an argument is.
pub fn glue_in<C: Cells>(
    cells: &mut C,
    engine: &mut Engine,
    toks: TokList,
) -> Result<Reading<Glue>, NoMemory>
    requires holds { Holds C.Cells cells.old engine.old }
    ensures leads { (row : AGlue → Whole → Executed) → Leads C.Cells (glue_in toks row) (behind_reading row) result cells.new engine.new cells.old engine.old }
{
    match scan_in(cells, engine, toks, ScanKind::Glue)? {
        Reading::Of(found) => Ok(Reading::Of(glue_found(found))),
        Reading::Stops(went) => Ok(Reading::Stops(went)),
    }
}
