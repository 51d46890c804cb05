//! Registers, parameters and codes.
ghost use Rattle.std.specs.Prelude.{◌≡◌, [], true, IfSome};
ghost use Rattle.lb_base.specs.declared.fault.Kind.TheVariants.{BadCode};
ghost use Rattle.lb_groups.specs.Changes.{Assigns};
ghost use Rattle.lb_assign.specs.Changes.{MaySet};
ghost use Rattle.lb_model.specs.Assignments.{registered, takes};

use lb_base::{Kind, Stop};
use lb_groups::{Groups, assign};
use lb_model::laws::numbers_are_held;
use lb_model::{Cells, held, within};
use lb_values::{Cell, Reach, Value};

/// Sets a register, a parameter or a code to a value of its kind; the code of a category or of a character is a number (TeXbook, chapter 24;
/// tex.web, sections 1228 to 1235). `BadCode` where the value is out of the cell's range.
pub fn register<C: Cells>(
    cells: &mut C,
    groups: &mut Groups,
    cell: &Cell,
    value: Value,
    reach: Reach,
) -> Result<(), Stop>
    requires takes { takes cell.now value ≡ true }
    ensures assigns { Assigns C.Cells [] reach cell.now (λ w s. registered cell.now value) BadCode result cells.new groups.new cells.old groups.old }
{
    match registered(cell, value) {
        None => Err(Stop::Fault(Kind::BadCode)),
        Some(value) => {
            assign(cells, groups, cell, value, reach)?;
            Ok(())
        }
    }
}

// What a cell holds once it is set to a value of its kind; none where that is out of its range.
fn registered(cell: &Cell, value: Value) -> Option<Value>
    requires takes { takes cell.now value ≡ true }
    ensures value { result ≡ registered cell.now value }
    ensures may { IfSome result (λ w. MaySet cell.now w) }
{
    numbers_are_held();
    match value {
        Value::Number(number) => held(cell, number),
        Value::Dimen(number) => held(cell, number),
        Value::Glue(glue) => {
            if within::is_glue(glue) {
                Some(Value::Glue(glue))
            } else {
                None
            }
        }
        value => Some(value),
    }
}
