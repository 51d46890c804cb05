//! Counters and lists of names that are set globally.
ghost use Rattle.std.specs.Prelude.{◌≡◌, [], ◌∷◌, IfOk, OnErr, true, unwrap_or};
ghost use Rattle.lb_values.specs.declared.cell.Cell.TheVariants as cells_of;
ghost use Rattle.lb_model.specs.Ranges.{is_number};
ghost use Rattle.lb_model.specs.Settings.{Setting};
ghost use Rattle.lb_model_counters.specs.Counters.{listed, numbered, zeros};
ghost use Rattle.lb_counters.specs.Sets.{Sets};

use crate::lists::with_name;
use lb_base::{Name, NameList, NoMemory};
use lb_model::Cells;
use lb_values::{Cell, Reach, Shared, Value};
use std::alloc::Global;

/// Sets a counter to a number. After an error all is as it was.
pub fn set_number<C: Cells>(cells: &mut C, name: &Name, number: i32) -> Result<(), NoMemory>
    requires number { is_number number ≡ true }
    ensures sets { Sets C.Cells (numbered name.now number ∷ []) result cells.new cells.old }
    ensures same { OnErr result ((p : Setting) → C.agrees cells.new p → C.meaning cells.new p ≡ C.meaning cells.old p) }
{
    let cell = Cell::Counter(name.clone()?);
    cells.set(&cell, Value::Number(number), Reach::Global)?;
    Ok(())
}

// Sets counters to 0, one after another.
fn reset_all<C: Cells>(cells: &mut C, names: &[Name]) -> Result<(), NoMemory>
    ensures sets { Sets C.Cells (zeros names.now) result cells.new cells.old }
{
    for name in names {
        set_number(cells, name, 0)?;
    }
    Ok(())
}

// Sets the counters of a list, which may be missing, to 0.
fn reset_list<C: Cells>(cells: &mut C, list: Option<Shared<NameList>>) -> Result<(), NoMemory>
    ensures sets { Sets C.Cells (zeros (unwrap_or list [])) result cells.new cells.old }
{
    match list {
        None => Ok(()),
        Some(list) => reset_all(cells, list.get().as_slice()),
    }
}

/// Sets a counter to a number, and the counters of a list, which may be missing, to 0.
pub fn set_and_reset<C: Cells>(
    cells: &mut C,
    name: &Name,
    number: i32,
    list: Option<Shared<NameList>>,
) -> Result<(), NoMemory>
    requires number { is_number number ≡ true }
    ensures sets { Sets C.Cells (numbered name.now number ∷ zeros (unwrap_or list [])) result cells.new cells.old }
{
    set_number(cells, name, number)?;
    reset_list(cells, list)?;
    Ok(())
}

/// Puts a name behind the list of the checkpoint's counters.
pub fn push_counter<C: Cells>(
    alloc: Global,
    cells: &mut C,
    names: Option<Shared<NameList>>,
    name: &Name,
) -> Result<(), NoMemory>
    ensures sets { Sets C.Cells (listed cells_of.Counters (unwrap_or names []) name.now ∷ []) result cells.new cells.old }
{
    let names = with_name(alloc, names, name)?;
    cells.set(&Cell::Counters, Value::Names(names), Reach::Global)?;
    Ok(())
}

/// Puts a name behind the list of the counters that a step of another one resets.
pub fn push_reset<C: Cells>(
    alloc: Global,
    cells: &mut C,
    within: &Name,
    names: Option<Shared<NameList>>,
    name: &Name,
) -> Result<(), NoMemory>
    ensures sets { Sets C.Cells (listed (cells_of.Resets within.now) (unwrap_or names []) name.now ∷ []) result cells.new cells.old }
{
    let cell = Cell::Resets(within.clone()?);
    let names = with_name(alloc, names, name)?;
    cells.set(&cell, Value::Names(names), Reach::Global)?;
    Ok(())
}
