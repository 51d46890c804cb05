//! Arithmetic on registers and parameters (TeXbook, chapter 24; tex.web, sections 1236 to 1240).
ghost use Rattle.std.specs.Prelude.{◌≡◌, ◌∷◌, [], true, IfSome};
ghost use Rattle.lb_base.specs.declared.fault.Kind.TheVariants.{Overflow as TheOverflow};
ghost use Rattle.lb_groups.specs.Changes.{Assigns};
ghost use Rattle.lb_assign.specs.Changes.{MaySet};
ghost use Rattle.lb_model.specs.Assignments.{arithmetic_at, arithmetic_kind, is_operand_at};
ghost use Rattle.lb_model.specs.Settings.{look};

use crate::sums::arithmetic;
use lb_base::{Kind, Stop};
use lb_groups::{Groups, assign, looks};
use lb_model::{Arith, Cells};
use lb_model_grammar::Quantity;
use lb_rows::ParameterKind;
use lb_values::{Cell, Reach, Value};

// The kind of a register or a parameter on which there is arithmetic.
fn arithmetic_kind(cell: &Cell) -> Option<ParameterKind>
    ensures { result ≡ arithmetic_kind cell.now }
{
    match cell {
        Cell::Count(_) => Some(ParameterKind::Number),
        Cell::Dimen(_) => Some(ParameterKind::Dimension),
        Cell::Skip(_) => Some(ParameterKind::Glue),
        Cell::Par(parameter) => Some(parameter.kind()),
        _ => None,
    }
}

// What a cell holds then, where it holds this.
fn arithmetic_at(op: Arith, cell: &Cell, now: &Value, by: Quantity) -> Option<Value>
    ensures value { result ≡ arithmetic_at op cell.now now.now by }
    ensures may { IfSome result (λ w. MaySet cell.now w) }
{
    match arithmetic_kind(cell) {
        None => None,
        Some(kind) => arithmetic(op, kind, now, by),
    }
}

/// Advances, multiplies or divides a register or a parameter of this kind. `Overflow` where the result leaves its range, or the divisor is 0.
pub fn arith<C: Cells>(
    cells: &mut C,
    groups: &mut Groups,
    cell: &Cell,
    op: Arith,
    by: Quantity,
    reach: Reach,
) -> Result<(), Stop>
    requires operand { is_operand_at op cell.now by ≡ true }
    ensures assigns { Assigns C.Cells (cell.now ∷ []) reach cell.now (λ w s. arithmetic_at op cell.now (look w s cell.now) by) TheOverflow result cells.new groups.new cells.old groups.old }
{
    let now = looks::value(cells, groups, cell)?;
    match arithmetic_at(op, cell, &now, by) {
        None => Err(Stop::Fault(Kind::Overflow)),
        Some(value) => {
            assign(cells, groups, cell, value, reach)?;
            Ok(())
        }
    }
}
