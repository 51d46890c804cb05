//! What rows read: the next token, numbers, dimensions, glue, keywords, and texts in braces (TeXbook, chapter 24; tex.web, part 26).
ghost use Rattle.std.specs.Prelude.{◌≡◌, List, Option, ℤ, ℕ, Bool};
ghost use Rattle.lb_base.specs.declared.glue.Glue.{Glue as AGlue};
ghost use Rattle.lb_base.specs.declared.token.Tok.{Tok as AToken};
ghost use Rattle.lb_values.specs.declared.meaning.Meaning.{Meaning as AMeaning};
ghost use Rattle.lb_model_grammar.specs.declared.given.Scanned.{Scanned as AScanned};
ghost use Rattle.lb_model_engine.specs.Reads.{characters, dimension, expanded_rest, glue, glue_found, is_found, keyword, next_or, number, scanning};
ghost use Rattle.lb_model_expansion.specs.Expansion.{number_found};
ghost use Rattle.lb_model_nest.specs.Wholes.{Executed, Whole};
ghost use Rattle.lb_engine.specs.Leads.{Holds, Leads};
ghost use Rattle.lb_engine.specs.Reads.{behind_next, behind_reading};

use crate::engine::Engine;
use crate::journal::make_ready;
use lb_base::{Bytes, Glue, NoMemory, Order, Stop, Tok, TokList};
use lb_expand::{Feeder, ScanKind, Scanned, sense_of};
use lb_model::Cells;
use lb_model_nest::Went;
use lb_values::Meaning;
use std::alloc::AllocError;

/// Glue that gives nothing.
const NO_GLUE: Glue = Glue {
    width: 0,
    stretch: 0,
    stretch_order: Order::Finite,
    shrink: 0,
    shrink_order: Order::Finite,
};

/// What was read, or how the row ends where nothing was.
#[derive(Drop)]
pub enum Reading<T> {
    Of(T),
    Stops(Went),
}

/// The next token that is not expanded, with its meaning; or the end of the piece, or how the row ends.
#[derive(Drop)]
pub enum Next {
    Tok(Tok, Option<Meaning>),
    End,
    Stops(Went),
}

/// The next token that is not expanded, or the end.
pub fn next_or_end<C: Cells>(cells: &mut C, engine: &mut Engine) -> Result<Next, NoMemory>
    requires holds { Holds C.Cells cells.old engine.old }
    ensures leads { (at_end : Whole → Executed) (row : AToken → Option AMeaning → Whole → Executed) → Leads C.Cells (next_or at_end row) (behind_next at_end row) result
        cells.new engine.new cells.old engine.old }
{
    make_ready(engine)?;
    let mut feeder = Feeder::over(cells, &mut engine.desk);
    match feeder.next() {
        Ok(Some(tok)) => {
            let meaning = sense_of(cells, &tok)?;
            Ok(Next::Tok(tok, meaning))
        }
        Ok(None) => Ok(Next::End),
        Err(Stop::Fault(kind)) => Ok(Next::Stops(Went::Stopped(kind))),
        Err(Stop::At(fault)) => Ok(Next::Stops(Went::StoppedAt(fault))),
        Err(Stop::Memory) => Err(AllocError),
    }
}

/// A number, a dimension, glue or a keyword; what is not of it is put back.
pub fn scan<C: Cells>(
    cells: &mut C,
    engine: &mut Engine,
    kind: ScanKind,
) -> Result<Reading<Scanned>, NoMemory>
    requires holds { Holds C.Cells cells.old engine.old }
    ensures leads { (row : AScanned → Whole → Executed) → Leads C.Cells (scanning kind row) (behind_reading row) result cells.new engine.new cells.old engine.old }
{
    make_ready(engine)?;
    let mut feeder = Feeder::over(cells, &mut engine.desk);
    match feeder.scan(kind) {
        Ok(found) => Ok(Reading::Of(found)),
        Err(Stop::Fault(kind)) => Ok(Reading::Stops(Went::Stopped(kind))),
        Err(Stop::At(fault)) => Ok(Reading::Stops(Went::StoppedAt(fault))),
        Err(Stop::Memory) => Err(AllocError),
    }
}

// The number of what was found, 0 where it has none.
pub(crate) fn number_found(found: Scanned) -> i32
    ensures { result ≡ number_found found }
{
    match found {
        Scanned::Number(number) => number,
        Scanned::Dimen(length) => length,
        Scanned::Skip(_) | Scanned::Found(_) => 0,
    }
}

// The glue that was found, and else none.
pub(crate) fn glue_found(found: Scanned) -> Glue
    ensures { result ≡ glue_found found }
{
    match found {
        Scanned::Skip(glue) => glue,
        Scanned::Number(_) | Scanned::Dimen(_) | Scanned::Found(_) => NO_GLUE,
    }
}

// Whether a keyword was found.
fn is_found(found: Scanned) -> bool
    ensures { result ≡ is_found found }
{
    matches!(found, Scanned::Found(true))
}

/// A number.
pub fn number<C: Cells>(cells: &mut C, engine: &mut Engine) -> Result<Reading<i32>, NoMemory>
    requires holds { Holds C.Cells cells.old engine.old }
    ensures leads { (row : ℤ → Whole → Executed) → Leads C.Cells (number row) (behind_reading row) result cells.new engine.new cells.old engine.old }
{
    match scan(cells, engine, ScanKind::Number)? {
        Reading::Of(found) => Ok(Reading::Of(number_found(found))),
        Reading::Stops(went) => Ok(Reading::Stops(went)),
    }
}

/// A dimension, in scaled points.
pub fn dimension<C: Cells>(cells: &mut C, engine: &mut Engine) -> Result<Reading<i32>, NoMemory>
    requires holds { Holds C.Cells cells.old engine.old }
    ensures leads { (row : ℤ → Whole → Executed) → Leads C.Cells (dimension row) (behind_reading row) result cells.new engine.new cells.old engine.old }
{
    match scan(cells, engine, ScanKind::Dimen)? {
        Reading::Of(found) => Ok(Reading::Of(number_found(found))),
        Reading::Stops(went) => Ok(Reading::Stops(went)),
    }
}

/// Glue.
pub fn glue<C: Cells>(cells: &mut C, engine: &mut Engine) -> Result<Reading<Glue>, NoMemory>
    requires holds { Holds C.Cells cells.old engine.old }
    ensures leads { (row : AGlue → Whole → Executed) → Leads C.Cells (glue row) (behind_reading row) result cells.new engine.new cells.old engine.old }
{
    match scan(cells, engine, ScanKind::Glue)? {
        Reading::Of(found) => Ok(Reading::Of(glue_found(found))),
        Reading::Stops(went) => Ok(Reading::Stops(went)),
    }
}

/// Whether a keyword comes, which is taken then.
pub fn keyword<C: Cells>(
    cells: &mut C,
    engine: &mut Engine,
    text: &[u8],
) -> Result<Reading<bool>, NoMemory>
    requires holds { Holds C.Cells cells.old engine.old }
    ensures leads { (row : Bool → Whole → Executed) → Leads C.Cells (keyword text.now row) (behind_reading row) result cells.new engine.new cells.old engine.old }
{
    let keyword = Bytes::from_slice(engine.desk.alloc, text)?;
    match scan(cells, engine, ScanKind::Keyword(keyword))? {
        Reading::Of(found) => Ok(Reading::Of(is_found(found))),
        Reading::Stops(went) => Ok(Reading::Stops(went)),
    }
}

/// The characters of a text in braces, or of one token, expanded.
pub fn characters<C: Cells>(cells: &mut C, engine: &mut Engine) -> Result<Reading<Bytes>, NoMemory>
    requires holds { Holds C.Cells cells.old engine.old }
    ensures leads { (row : List ℕ → Whole → Executed) → Leads C.Cells (characters row) (behind_reading row) result cells.new engine.new cells.old engine.old }
{
    make_ready(engine)?;
    let mut feeder = Feeder::over(cells, &mut engine.desk);
    match feeder.word() {
        Ok(text) => Ok(Reading::Of(text)),
        Err(Stop::Fault(kind)) => Ok(Reading::Stops(Went::Stopped(kind))),
        Err(Stop::At(fault)) => Ok(Reading::Stops(Went::StoppedAt(fault))),
        Err(Stop::Memory) => Err(AllocError),
    }
}

/// The tokens up to the brace that closes a text whose opening brace was taken, expanded.
pub fn expanded_rest<C: Cells>(
    cells: &mut C,
    engine: &mut Engine,
) -> Result<Reading<TokList>, NoMemory>
    requires holds { Holds C.Cells cells.old engine.old }
    ensures leads { (row : List AToken → Whole → Executed) → Leads C.Cells (expanded_rest row) (behind_reading row) result cells.new engine.new cells.old engine.old }
{
    make_ready(engine)?;
    let mut feeder = Feeder::over(cells, &mut engine.desk);
    match feeder.body() {
        Ok(toks) => Ok(Reading::Of(toks)),
        Err(Stop::Fault(kind)) => Ok(Reading::Stops(Went::Stopped(kind))),
        Err(Stop::At(fault)) => Ok(Reading::Stops(Went::StoppedAt(fault))),
        Err(Stop::Memory) => Err(AllocError),
    }
}
