//! Sizes of boxes in registers (TeXbook, chapter 24; tex.web, section 1247).
ghost use Rattle.std.specs.Prelude.{◌≡◌};
ghost use Rattle.lb_values.specs.declared.cell.Cell.TheVariants as cells_of;
ghost use Rattle.lb_values.specs.declared.value.Value.TheVariants as values;
ghost use Rattle.lb_model.specs.Kinds.{boxed_of};
ghost use Rattle.lb_model_engine.specs.Boxes.{box_size, size_changed};
ghost use Rattle.lb_model_engine.specs.Reads.{dimension as dimension_read, equals as equals_read};
ghost use Rattle.lb_model_nest.specs.Wholes.{change};
ghost use Rattle.lb_engine.specs.BoxSizes.{sized};
ghost use Rattle.lb_engine.specs.Leads.{Goes, Holds};
ghost use Rattle.lb_engine.specs.Looks.{look_at};

use crate::box_places::{held, own};
use crate::engine::Engine;
use crate::groups::change;
use crate::quantities::code;
use crate::reading::{Reading, dimension};
use crate::spaces::equals;
use lb_base::{Boxed, NoMemory};
use lb_model::Cells;
use lb_model_nest::Went;
use lb_values::{Cell, Reach, Shared, Value};

/// The sizes of a box that are set: `\wd`, `\ht`, `\dp`.
#[derive(Clone, Copy)]
pub enum Size {
    Width,
    Height,
    Depth,
}

// A box with another size, in scaled points.
fn with_size(boxed: Boxed, size: Size, length: i32) -> Boxed
    ensures { result ≡ sized size length boxed }
{
    let mut boxed = boxed;
    match size {
        Size::Width => boxed.width = length,
        Size::Height => boxed.height = length,
        Size::Depth => boxed.depth = length,
    }
    boxed
}

// A box of a register with another size.
fn resize<C: Cells>(
    cells: &mut C,
    engine: &mut Engine,
    number: u8,
    boxed: Boxed,
    reach: Reach,
) -> Result<Went, NoMemory>
    requires holds { Holds C.Cells cells.old engine.old }
    ensures goes { Goes C.Cells (change reach (cells_of.Boxed number) (values.Boxed boxed)) result cells.new engine.new cells.old engine.old }
{
    let value = Value::Boxed(Shared::new(engine.desk.alloc, boxed)?);
    change(cells, engine, &Cell::Boxed(number), value, reach)
}

// What a register holds gets another size; a void one stays.
fn change_held<C: Cells>(
    cells: &mut C,
    engine: &mut Engine,
    number: u8,
    held: Option<Shared<Boxed>>,
    size: Size,
    length: i32,
    reach: Reach,
) -> Result<Went, NoMemory>
    requires holds { Holds C.Cells cells.old engine.old }
    ensures goes { Goes C.Cells (size_changed reach number held (sized size length)) result cells.new engine.new cells.old engine.old }
{
    match held {
        Some(boxed) => {
            let boxed = own(engine.desk.alloc, boxed)?;
            resize(cells, engine, number, with_size(boxed, size, length), reach)
        }
        None => Ok(Went::On),
    }
}

// The box of a register gets another size.
fn change_size<C: Cells>(
    cells: &mut C,
    engine: &mut Engine,
    number: u8,
    size: Size,
    length: i32,
    reach: Reach,
) -> Result<Went, NoMemory>
    requires holds { Holds C.Cells cells.old engine.old }
    ensures goes { Goes C.Cells (look_at (cells_of.Boxed number) boxed_of (λ box x. size_changed reach number box (sized size length) x)) result
        cells.new engine.new cells.old engine.old }
{
    let box_held = held(cells, engine, number)?;
    change_held(cells, engine, number, box_held, size, length, reach)
}

// The size of the box of a register that a dimension tells.
fn set_to<C: Cells>(
    cells: &mut C,
    engine: &mut Engine,
    number: u8,
    size: Size,
    reach: Reach,
) -> Result<Went, NoMemory>
    requires holds { Holds C.Cells cells.old engine.old }
    ensures goes { Goes C.Cells
        (dimension_read (λ d x. look_at (cells_of.Boxed number) boxed_of (λ box y. size_changed reach number box (sized size d) y) x)) result
        cells.new engine.new cells.old engine.old }
{
    match dimension(cells, engine)? {
        Reading::Of(length) => change_size(cells, engine, number, size, length, reach),
        Reading::Stops(went) => Ok(went),
    }
}

// The size of the box of a register.
fn set<C: Cells>(
    cells: &mut C,
    engine: &mut Engine,
    number: u8,
    size: Size,
    reach: Reach,
) -> Result<Went, NoMemory>
    requires holds { Holds C.Cells cells.old engine.old }
    ensures goes { Goes C.Cells
        (equals_read (λ u. dimension_read (λ d x. look_at (cells_of.Boxed number) boxed_of (λ box y. size_changed reach number box (sized size d) y) x) u))
        result cells.new engine.new cells.old engine.old }
{
    match equals(cells, engine)? {
        Reading::Of(()) => set_to(cells, engine, number, size, reach),
        Reading::Stops(went) => Ok(went),
    }
}

/// `\wd`, `\ht`, `\dp`: a size of the box that a register holds.
pub fn set_size<C: Cells>(
    cells: &mut C,
    engine: &mut Engine,
    size: Size,
    reach: Reach,
) -> Result<Went, NoMemory>
    requires holds { Holds C.Cells cells.old engine.old }
    ensures goes { Goes C.Cells (box_size (sized size) reach) result cells.new engine.new cells.old engine.old }
{
    match code(cells, engine)? {
        Reading::Of(number) => set(cells, engine, number, size, reach),
        Reading::Stops(went) => Ok(went),
    }
}
