//! The characters of texts that were taken (source2e, files ltcounts and ltclass).
ghost use Rattle.std.specs.Prelude.{List, Option, Some, ℕ};
ghost use Rattle.lb_model_engine.specs.Counting.{characters_in, within_to};
ghost use Rattle.lb_model_nest.specs.Wholes.{Executed, Whole};
ghost use Rattle.lb_engine.specs.Leads.{Holds, Leads};
ghost use Rattle.lb_engine.specs.Reads.{behind_reading};

use crate::engine::Engine;
use crate::journal::make_ready;
use crate::reading::Reading;
use lb_base::{Bytes, NoMemory, Stop, TokList};
use lb_expand::Feeder;
use lb_model::Cells;
use lb_model_nest::Went;
use std::alloc::AllocError;

/// The characters of tokens, expanded.
pub fn characters_in<C: Cells>(
    cells: &mut C,
    engine: &mut Engine,
    toks: TokList,
) -> Result<Reading<Bytes>, NoMemory>
    requires holds { Holds C.Cells cells.old engine.old }
    ensures leads { (row : List ℕ → Whole → Executed) → Leads C.Cells (characters_in toks row) (behind_reading row) result cells.new engine.new
        cells.old engine.old }
{
    make_ready(engine)?;
    let mut feeder = Feeder::over(cells, &mut engine.desk);
    match feeder.word_of(toks) {
        Ok(text) => Ok(Reading::Of(text)),
        Err(Stop::Fault(kind)) => Ok(Reading::Stops(Went::Stopped(kind))),
        Err(Stop::At(fault)) => Ok(Reading::Stops(Went::StoppedAt(fault))),
        Err(Stop::Memory) => Err(AllocError),
    }
}

// The characters of tokens that are there.
fn some_characters<C: Cells>(
    cells: &mut C,
    engine: &mut Engine,
    toks: TokList,
) -> Result<Reading<Option<Bytes>>, NoMemory>
    requires holds { Holds C.Cells cells.old engine.old }
    ensures leads { (row : Option (List ℕ) → Whole → Executed) → Leads C.Cells (characters_in toks (λ text v. row (Some text) v)) (behind_reading row)
        result cells.new engine.new cells.old engine.old }
{
    match characters_in(cells, engine, toks)? {
        Reading::Of(text) => Ok(Reading::Of(Some(text))),
        Reading::Stops(went) => Ok(Reading::Stops(went)),
    }
}

/// The characters of the text in brackets, if there was one.
pub fn characters_if_any<C: Cells>(
    cells: &mut C,
    engine: &mut Engine,
    toks: Option<TokList>,
) -> Result<Reading<Option<Bytes>>, NoMemory>
    requires holds { Holds C.Cells cells.old engine.old }
    ensures leads { (row : Option (List ℕ) → Whole → Executed) → Leads C.Cells (within_to toks row) (behind_reading row) result cells.new engine.new
        cells.old engine.old }
{
    match toks {
        Some(toks) => some_characters(cells, engine, toks),
        None => Ok(Reading::Of(None)),
    }
}
