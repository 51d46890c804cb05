//! Cells that rows set to a value, where there is one in the cell's range.
ghost use Rattle.std.specs.Prelude.{◌≡◌, IfSome, true};
ghost use Rattle.lb_base.specs.declared.fault.Kind.TheVariants.{BadCode};
ghost use Rattle.lb_values.specs.declared.value.Value.{Value as AValue};
ghost use Rattle.lb_model.specs.HeldNumbers.{held_of};
ghost use Rattle.lb_model.specs.Ranges.{fits, is_settable};
ghost use Rattle.lb_model_nest.specs.Wholes.{change_or};
ghost use Rattle.lb_engine.specs.Leads.{Goes, Holds};

use crate::engine::Engine;
use crate::groups::change;
use lb_base::{Kind, NoMemory};
use lb_model::laws::numbers_are_held;
use lb_model::{Cells, held};
use lb_model_nest::Went;
use lb_values::{Cell, Reach, Value};

/// Sets a cell to a value. `BadCode` where there is none.
pub fn change_or<C: Cells>(
    cells: &mut C,
    engine: &mut Engine,
    cell: &Cell,
    value: Option<Value>,
    reach: Reach,
) -> Result<Went, NoMemory>
    requires settable { IfSome value (λ v. is_settable cell.now v ≡ true) }
    requires fits { IfSome value (λ v. fits cell.now v ≡ true) }
    requires holds { Holds C.Cells cells.old engine.old }
    ensures goes { Goes C.Cells (change_or BadCode reach cell.now value) result cells.new engine.new cells.old engine.old }
{
    match value {
        Some(value) => change(cells, engine, cell, value, reach),
        None => Ok(Went::Stopped(Kind::BadCode)),
    }
}

// What a cell holds once it is set to a number, which it may hold.
fn held_there(cell: &Cell, number: i32) -> Option<Value>
    requires settable { (v : AValue) → is_settable cell.now v ≡ true }
    ensures value { result ≡ held_of cell.now number }
    ensures settable { IfSome result (λ v. is_settable cell.now v ≡ true) }
    ensures fits { IfSome result (λ v. fits cell.now v ≡ true) }
{
    numbers_are_held();
    held(cell, number)
}

/// Sets a cell to a number. `BadCode` where that is out of the cell's range.
pub fn set_number<C: Cells>(
    cells: &mut C,
    engine: &mut Engine,
    cell: &Cell,
    number: i32,
    reach: Reach,
) -> Result<Went, NoMemory>
    requires settable { (v : AValue) → is_settable cell.now v ≡ true }
    requires holds { Holds C.Cells cells.old engine.old }
    ensures goes { Goes C.Cells (change_or BadCode reach cell.now (held_of cell.now number)) result cells.new engine.new cells.old engine.old }
{
    let value = held_there(cell, number);
    change_or(cells, engine, cell, value, reach)
}
