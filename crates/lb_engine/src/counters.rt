//! Counters (source2e, file ltcounts).
ghost use Rattle.std.specs.Prelude.{List, false, true, ℕ, ℤ};
ghost use Rattle.lb_model.specs.Ranges.{is_number};
ghost use Rattle.lb_values.specs.declared.cell.Cell.TheVariants as cells_of;
ghost use Rattle.lb_values.specs.declared.reach.Reach.TheVariants.{Local as ALocal};
ghost use Rattle.lb_model_counters.specs.Counters.{printer, printer_name, set_counter, step_counter};
ghost use Rattle.lb_model_engine.specs.Counting.{addtocounter, counter_and_number, counter_made, effected_alone, newcounter, setcounter, stepcounter, within_to};
ghost use Rattle.lb_model_engine.specs.Definitions.{macro_value};
ghost use Rattle.lb_model_engine.specs.Reads.{argument, bracket, number_in, reading};
ghost use Rattle.lb_model_nest.specs.Wholes.{Executed, Whole, change};
ghost use Rattle.lb_engine.specs.Leads.{Goes, Holds, Leads};
ghost use Rattle.lb_engine.specs.Reads.{behind_reading};

use crate::effects;
use crate::engine::Engine;
use crate::groups::change;
use crate::named::name;
use crate::quantities::number_in;
use crate::reading::Reading;
use crate::unexpanded::argument;
use lb_base::{Name, NoMemory};
use lb_counters::{printer, printer_name};
use lb_model::{Cells, within};
use lb_model_nest::Went;
use lb_values::{Cell, Meaning, Reach, Shared, Value};
use std::alloc::AllocError;

// A number in an argument.
fn number_argument<C: Cells>(cells: &mut C, engine: &mut Engine) -> Result<Reading<i32>, NoMemory>
    requires holds { Holds C.Cells cells.old engine.old }
    ensures leads { (row : ℤ → Whole → Executed) → Leads C.Cells (argument (λ toks u. number_in toks row u)) (behind_reading row) result
        cells.new engine.new cells.old engine.old }
{
    match argument(cells, engine)? {
        Reading::Of(toks) => number_in(cells, engine, toks),
        Reading::Stops(went) => Ok(Reading::Stops(went)),
    }
}

// A counter is set.
fn set<C: Cells>(
    cells: &mut C,
    engine: &mut Engine,
    name: &Name,
    number: i32,
) -> Result<Went, NoMemory>
    requires holds { Holds C.Cells cells.old engine.old }
    ensures goes { Goes C.Cells (effected_alone (set_counter name.now number)) result cells.new engine.new cells.old engine.old }
{
    if !within::is_number(number) {
        return Err(AllocError);
    }
    match effects::set_counter(cells, engine, name, number)? {
        Reading::Of(_done) => Ok(Went::On),
        Reading::Stops(went) => Ok(went),
    }
}

// A number is added to a counter.
fn step<C: Cells>(
    cells: &mut C,
    engine: &mut Engine,
    name: &Name,
    by: i32,
    resets: bool,
) -> Result<Went, NoMemory>
    requires holds { Holds C.Cells cells.old engine.old }
    ensures goes { Goes C.Cells (effected_alone (step_counter name.now by resets)) result cells.new engine.new cells.old engine.old }
{
    match effects::step_counter(cells, engine, name, by, resets)? {
        Reading::Of(_done) => Ok(Went::On),
        Reading::Stops(went) => Ok(went),
    }
}

/// `\setcounter`.
pub fn setcounter<C: Cells>(cells: &mut C, engine: &mut Engine) -> Result<Went, NoMemory>
    requires holds { Holds C.Cells cells.old engine.old }
    ensures goes { Goes C.Cells setcounter result cells.new engine.new cells.old engine.old }
{
    match name(cells, engine)? {
        Reading::Of(name) => set_to(cells, engine, &name),
        Reading::Stops(went) => Ok(went),
    }
}

// A counter is set to a number in an argument.
fn set_to<C: Cells>(cells: &mut C, engine: &mut Engine, name: &Name) -> Result<Went, NoMemory>
    requires holds { Holds C.Cells cells.old engine.old }
    ensures goes { Goes C.Cells (argument (λ toks u. number_in toks (λ n v. effected_alone (set_counter name.now n) v) u)) result
        cells.new engine.new cells.old engine.old }
{
    match number_argument(cells, engine)? {
        Reading::Of(number) => set(cells, engine, name, number),
        Reading::Stops(went) => Ok(went),
    }
}

/// `\addtocounter`.
pub fn addtocounter<C: Cells>(cells: &mut C, engine: &mut Engine) -> Result<Went, NoMemory>
    requires holds { Holds C.Cells cells.old engine.old }
    ensures goes { Goes C.Cells addtocounter result cells.new engine.new cells.old engine.old }
{
    match name(cells, engine)? {
        Reading::Of(name) => add_to(cells, engine, &name),
        Reading::Stops(went) => Ok(went),
    }
}

// A number in an argument is added to a counter.
fn add_to<C: Cells>(cells: &mut C, engine: &mut Engine, name: &Name) -> Result<Went, NoMemory>
    requires holds { Holds C.Cells cells.old engine.old }
    ensures goes { Goes C.Cells (argument (λ toks u. number_in toks (λ n v. effected_alone (step_counter name.now n false) v) u)) result
        cells.new engine.new cells.old engine.old }
{
    match number_argument(cells, engine)? {
        Reading::Of(number) => step(cells, engine, name, number, false),
        Reading::Stops(went) => Ok(went),
    }
}

/// `\stepcounter`.
pub fn stepcounter<C: Cells>(cells: &mut C, engine: &mut Engine) -> Result<Went, NoMemory>
    requires holds { Holds C.Cells cells.old engine.old }
    ensures goes { Goes C.Cells stepcounter result cells.new engine.new cells.old engine.old }
{
    match name(cells, engine)? {
        Reading::Of(name) => step(cells, engine, &name, 1, true),
        Reading::Stops(went) => Ok(went),
    }
}
