//! What commands on counters and labels do to cells, as rows go on behind it (source2e, files ltcounts and ltxref).
ghost use Rattle.std.specs.Prelude.{◌≡◌, IfOk, List, Option, Some, true, ℕ};
ghost use Rattle.std.specs.Option.{option_copied};
ghost use Rattle.lb_base.specs.declared.node.Node.{Node as ANode};
ghost use Rattle.lb_values.specs.declared.value.LabelPair.{LabelPair as APair};
ghost use Rattle.lb_model.specs.Ranges.{is_number};
ghost use Rattle.lb_model_counters.specs.Counters.{new_counter, set_counter, step_counter};
ghost use Rattle.lb_model_counters.specs.Labels.{label_now, label_stored};
ghost use Rattle.lb_model_engine.specs.Counting.{effected};
ghost use Rattle.lb_model_nest.specs.Wholes.{Executed, Whole};
ghost use Rattle.lb_engine.specs.Effects.{settled};
ghost use Rattle.lb_engine.specs.Leads.{Holds, Leads};
ghost use Rattle.lb_engine.specs.Reads.{behind_reading};

use crate::engine::Engine;
use crate::reading::Reading;
use lb_base::{Name, NoMemory, Node, Stop};
use lb_model::Cells;
use lb_model_nest::Went;
use lb_values::LabelPair;
use std::alloc::AllocError;

// How a row goes on by what was answered.
fn settled<T>(answer: Result<T, Stop>) -> Result<Reading<T>, NoMemory>
    ensures { IfOk result (λ going. settled answer ≡ Some going) }
{
    match answer {
        Ok(value) => Ok(Reading::Of(value)),
        Err(Stop::Fault(kind)) => Ok(Reading::Stops(Went::Stopped(kind))),
        Err(Stop::At(fault)) => Ok(Reading::Stops(Went::StoppedAt(fault))),
        Err(Stop::Memory) => Err(AllocError),
    }
}

/// Makes a counter, which steps of another one reset where that is given.
pub fn new_counter<C: Cells>(
    cells: &mut C,
    engine: &Engine,
    name: &Name,
    within: Option<&Name>,
) -> Result<Reading<()>, NoMemory>
    requires holds { Holds C.Cells cells.old engine.now }
    ensures leads { (row : Unit → Whole → Executed) → Leads C.Cells (effected (new_counter name.now (option_copied within.entry)) row) (behind_reading row)
        result cells.new engine.now cells.old engine.now }
{
    let done = lb_counters::new_counter(engine.desk.alloc, cells, name, within);
    settled(done)
}

/// Sets a counter to a number.
pub fn set_counter<C: Cells>(
    cells: &mut C,
    engine: &Engine,
    name: &Name,
    number: i32,
) -> Result<Reading<()>, NoMemory>
    requires number { is_number number ≡ true }
    requires holds { Holds C.Cells cells.old engine.now }
    ensures leads { (row : Unit → Whole → Executed) → Leads C.Cells (effected (set_counter name.now number) row) (behind_reading row) result
        cells.new engine.now cells.old engine.now }
{
    let _ = engine;
    let done = lb_counters::set(cells, name, number);
    settled(done)
}

/// Adds a number to a counter, and sets those that its steps reset to 0 where that is wanted.
pub fn step_counter<C: Cells>(
    cells: &mut C,
    engine: &Engine,
    name: &Name,
    by: i32,
    resets: bool,
) -> Result<Reading<()>, NoMemory>
    requires holds { Holds C.Cells cells.old engine.now }
    ensures leads { (row : Unit → Whole → Executed) → Leads C.Cells (effected (step_counter name.now by resets) row) (behind_reading row) result
        cells.new engine.now cells.old engine.now }
{
    let _ = engine;
    let done = lb_counters::step(cells, name, by, resets);
    settled(done)
}

/// The note of a label with the text of the present one.
pub fn label_note<C: Cells>(cells: &mut C, engine: &Engine, key: &Name) -> Result<Node, NoMemory>
    requires holds { Holds C.Cells cells.old engine.now }
    ensures leads { (row : ANode → Whole → Executed) → Leads C.Cells (effected (label_now key.now) row) row result cells.new engine.now cells.old engine.now }
{
    lb_counters::label(engine.desk.alloc, cells, key)
}

/// What the label of a key stood for in the last run, if there was one.
pub fn stored_label<C: Cells>(
    cells: &mut C,
    engine: &Engine,
    key: &Name,
) -> Result<Option<LabelPair>, NoMemory>
    requires holds { Holds C.Cells cells.old engine.now }
    ensures leads { (row : Option APair → Whole → Executed) → Leads C.Cells (effected (label_stored key.now) row) row result
        cells.new engine.now cells.old engine.now }
{
    lb_counters::reference(engine.desk.alloc, cells, key)
}
