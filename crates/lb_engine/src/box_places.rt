//! Boxes of registers, and where they go (tex.web, sections 1075 to 1079 and 1110).
ghost use Rattle.std.specs.Prelude.{◌≡◌, IfOk, Option};
ghost use Rattle.lb_base.specs.declared.node.Boxed.{Boxed as ABox};
ghost use Rattle.lb_values.specs.declared.cell.Cell.TheVariants as cells_of;
ghost use Rattle.lb_model.specs.Kinds.{boxed_of};
ghost use Rattle.lb_model_nest.specs.Boxes.{box_placed, placed};
ghost use Rattle.lb_model_nest.specs.Wholes.{Executed, Whole};
ghost use Rattle.lb_engine.specs.Leads.{Goes, Holds, Leads};
ghost use Rattle.lb_engine.specs.Looks.{look_at};

use crate::engine::Engine;
use crate::groups::change;
use crate::material::{place_box, place_void};
use lb_base::{Boxed, NoMemory};
use lb_groups::looks;
use lb_model::Cells;
use lb_model_nest::{BoxContext, Went};
use lb_values::{Cell, Shared, Value};
use std::alloc::Global;

/// What a register holds.
pub(crate) fn held<C: Cells>(
    cells: &mut C,
    engine: &Engine,
    number: u8,
) -> Result<Option<Shared<Boxed>>, NoMemory>
    requires holds { Holds C.Cells cells.old engine.now }
    ensures leads { (row : Option ABox → Whole → Executed) → Leads C.Cells (look_at (cells_of.Boxed number) boxed_of row) row result
        cells.new engine.now cells.old engine.now }
{
    looks::boxed(cells, &engine.desk.groups, Cell::Boxed(number))
}

/// The box itself where nobody else holds it, and else a copy.
pub(crate) fn own(alloc: Global, boxed: Shared<Boxed>) -> Result<Boxed, NoMemory>
    ensures { IfOk result (λ own. own ≡ boxed) }
{
    match boxed.into_value() {
        Ok(own) => Ok(own),
        Err(shared) => shared.get().copy(alloc),
    }
}

// A box that goes to its place as one of its own.
fn place_own<C: Cells>(
    cells: &mut C,
    engine: &mut Engine,
    context: BoxContext,
    boxed: Shared<Boxed>,
) -> Result<Went, NoMemory>
    requires holds { Holds C.Cells cells.old engine.old }
    ensures goes { Goes C.Cells (box_placed context boxed) result cells.new engine.new cells.old engine.old }
{
    let own = own(engine.desk.alloc, boxed)?;
    place_box(cells, engine, context, own)
}

// A box goes where it is to go: a register holds what others hold too.
#[tactic(auto, unfolding(lb_model_nest::specs::Boxes::box_placed))]
fn place_shared<C: Cells>(
    cells: &mut C,
    engine: &mut Engine,
    context: BoxContext,
    boxed: Shared<Boxed>,
) -> Result<Went, NoMemory>
    requires holds { Holds C.Cells cells.old engine.old }
    ensures goes { Goes C.Cells (box_placed context boxed) result cells.new engine.new cells.old engine.old }
{
    match context {
        BoxContext::Shifted(_) => place_own(cells, engine, context, boxed),
        BoxContext::Register(reach, number) => {
            let cell = Cell::Boxed(number);
            change(cells, engine, &cell, Value::Boxed(boxed), reach)
        }
    }
}

/// What a register held goes where it is to go.
pub(crate) fn place<C: Cells>(
    cells: &mut C,
    engine: &mut Engine,
    context: BoxContext,
    held: Option<Shared<Boxed>>,
) -> Result<Went, NoMemory>
    requires holds { Holds C.Cells cells.old engine.old }
    ensures goes { Goes C.Cells (placed context held) result cells.new engine.new cells.old engine.old }
{
    match held {
        Some(boxed) => place_shared(cells, engine, context, boxed),
        None => place_void(cells, engine, context),
    }
}
