//! Discretionaries (TeXbook, chapters 14 and 24; tex.web, sections 1117 to 1121).
ghost use Rattle.lb_model_engine.specs.Material.{discretionary, parts_begun, three_arguments, three_put};
ghost use Rattle.lb_model_engine.specs.Reads.{argument};
ghost use Rattle.lb_engine.specs.Leads.{Goes, Holds};

use crate::engine::Engine;
use crate::expanded_texts::put_closed;
use crate::materials::put_two;
use crate::paragraphs::{begin_in_vertical, open_parts};
use crate::reading::Reading;
use crate::unexpanded::argument;
use lb_base::{NoMemory, TokList};
use lb_model::Cells;
use lb_model_nest::Went;

// Three texts come next, with a brace behind each.
fn put_three<C: Cells>(
    cells: &C,
    engine: &mut Engine,
    first: TokList,
    second: TokList,
    third: TokList,
) -> Result<Went, NoMemory>
    requires holds { Holds C.Cells cells.now engine.old }
    ensures goes { Goes C.Cells (three_put first second third) result cells.now engine.new cells.now engine.old }
{
    match put_two(cells, engine, second, third)? {
        Went::On => put_closed(cells, engine, first),
        went => Ok(went),
    }
}

// A discretionary of three texts.
fn begin_parts<C: Cells>(
    cells: &C,
    engine: &mut Engine,
    first: TokList,
    second: TokList,
    third: TokList,
) -> Result<Went, NoMemory>
    requires holds { Holds C.Cells cells.now engine.old }
    ensures goes { Goes C.Cells (parts_begun first second third) result cells.now engine.new cells.now engine.old }
{
    match put_three(cells, engine, first, second, third)? {
        Went::On => open_parts(cells, engine),
        went => Ok(went),
    }
}

// A discretionary with these first parts.
fn with_two<C: Cells>(
    cells: &mut C,
    engine: &mut Engine,
    first: TokList,
    second: TokList,
) -> Result<Went, NoMemory>
    requires holds { Holds C.Cells cells.old engine.old }
    ensures goes { Goes C.Cells (argument (λ third x. parts_begun first second third x)) result cells.new engine.new cells.old engine.old }
{
    match argument(cells, engine)? {
        Reading::Of(third) => begin_parts(cells, engine, first, second, third),
        Reading::Stops(went) => Ok(went),
    }
}

// A discretionary with this first part.
fn with_one<C: Cells>(cells: &mut C, engine: &mut Engine, first: TokList) -> Result<Went, NoMemory>
    requires holds { Holds C.Cells cells.old engine.old }
    ensures goes { Goes C.Cells (argument (λ second u. argument (λ third x. parts_begun first second third x) u)) result cells.new engine.new
        cells.old engine.old }
{
    match argument(cells, engine)? {
        Reading::Of(second) => with_two(cells, engine, first, second),
        Reading::Stops(went) => Ok(went),
    }
}

// A discretionary of three arguments.
fn with_parts<C: Cells>(cells: &mut C, engine: &mut Engine) -> Result<Went, NoMemory>
    requires holds { Holds C.Cells cells.old engine.old }
    ensures goes { Goes C.Cells (three_arguments parts_begun) result cells.new engine.new cells.old engine.old }
{
    match argument(cells, engine)? {
        Reading::Of(first) => with_one(cells, engine, first),
        Reading::Stops(went) => Ok(went),
    }
}

/// `\discretionary`: it begins a paragraph in a vertical list.
pub fn discretionary<C: Cells>(cells: &mut C, engine: &mut Engine) -> Result<Went, NoMemory>
    requires holds { Holds C.Cells cells.old engine.old }
    ensures goes { Goes C.Cells discretionary result cells.new engine.new cells.old engine.old }
{
    match begin_in_vertical(cells, engine, true)? {
        Went::On => with_parts(cells, engine),
        went => Ok(went),
    }
}
