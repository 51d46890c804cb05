//! Registers, parameters and codes that are set, and arithmetic on them (TeXbook, chapter 24; tex.web, part 49, sections 1226 to 1240).
ghost use Rattle.std.specs.Prelude.{◌≡◌, true};
ghost use Rattle.lb_base.specs.declared.fault.Kind.TheVariants.{BadCode as TheBadCode};
ghost use Rattle.lb_model.specs.Assignments.{is_operand_at, registered, takes};
ghost use Rattle.lb_model_engine.specs.Registers.{worked_out};
ghost use Rattle.lb_model_nest.specs.Wholes.{change_or};
ghost use Rattle.lb_engine.specs.Leads.{Goes, Holds};

use crate::engine::Engine;
use lb_assign::{arith, register};
use lb_base::{NoMemory, Stop};
use lb_model::{Arith, Cells};
use lb_model_grammar::Quantity;
use lb_model_nest::Went;
use lb_values::{Cell, Reach, Value};
use std::alloc::AllocError;

/// Sets a register, a parameter or a code to a value of its kind. `BadCode` where that is out of its range.
pub(crate) fn set_variable<C: Cells>(
    cells: &mut C,
    engine: &mut Engine,
    cell: &Cell,
    value: Value,
    reach: Reach,
) -> Result<Went, NoMemory>
    requires takes { takes cell.now value ≡ true }
    requires holds { Holds C.Cells cells.old engine.old }
    ensures goes { Goes C.Cells (change_or TheBadCode reach cell.now (registered cell.now value)) result cells.new engine.new cells.old engine.old }
{
    match register(cells, &mut engine.desk.groups, cell, value, reach) {
        Ok(()) => Ok(Went::On),
        Err(Stop::Fault(kind)) => Ok(Went::Stopped(kind)),
        Err(_) => Err(AllocError),
    }
}

/// Advances, multiplies or divides a register or a parameter. `Overflow` where the result leaves its range, or the divisor is 0.
pub(crate) fn work_out<C: Cells>(
    cells: &mut C,
    engine: &mut Engine,
    op: Arith,
    cell: &Cell,
    by: Quantity,
    reach: Reach,
) -> Result<Went, NoMemory>
    requires operand { is_operand_at op cell.now by ≡ true }
    requires holds { Holds C.Cells cells.old engine.old }
    ensures goes { Goes C.Cells (worked_out op reach cell.now by) result cells.new engine.new cells.old engine.old }
{
    match arith(cells, &mut engine.desk.groups, cell, op, by, reach) {
        Ok(()) => Ok(Went::On),
        Err(Stop::Fault(kind)) => Ok(Went::Stopped(kind)),
        Err(_) => Err(AllocError),
    }
}
