//! Boxes that are made, and boxes of registers that are asked for (TeXbook, chapter 24; tex.web, sections 1071 to 1083).
ghost use Rattle.std.specs.Prelude.{◌≡◌};
ghost use Rattle.lb_values.specs.declared.cell.Cell.TheVariants as cells_of;
ghost use Rattle.lb_values.specs.declared.reach.Reach.TheVariants.{Local as ALocal};
ghost use Rattle.lb_values.specs.declared.value.Value.TheVariants as values;
ghost use Rattle.lb_model.specs.Kinds.{boxed_of};
ghost use Rattle.lb_model_engine.specs.Boxes.{box_begun, box_copied, box_taken, brace_taken, opened_by};
ghost use Rattle.lb_model_nest.specs.declared.nest.ListKind.{ListKind as AList};
ghost use Rattle.lb_model_nest.specs.Boxes.{placed};
ghost use Rattle.lb_model_nest.specs.Wholes.{Whole, and_then, change};
ghost use Rattle.lb_engine.specs.Boxes.{opened_if};
ghost use Rattle.lb_engine.specs.Leads.{Goes, Holds};
ghost use Rattle.lb_engine.specs.Looks.{look_at};

use crate::box_places::{held, place};
use crate::box_targets::target;
use crate::engine::Engine;
use crate::groups::change;
use crate::paragraphs::open_list;
use crate::quantities::code;
use crate::reading::Reading;
use crate::spaces::past_spaces;
use lb_base::{Axis, Boxed, Category, Kind, NoMemory};
use lb_model::Cells;
use lb_model_nest::{BoxContext, ListKind, Went};
use lb_values::{Cell, Meaning, Reach, Shared, Value};

// Whether a token of this meaning opens a list.
fn opens_list(meaning: &Option<Meaning>) -> bool
    ensures opens { (kind : AList) (w : Whole) → opened_by meaning.now kind w ≡ opened_if result kind w }
{
    matches!(meaning, Some(Meaning::Char(Category::BeginGroup, _)))
}

// A list is opened where a brace was found.
fn open_if<C: Cells>(
    cells: &mut C,
    engine: &mut Engine,
    opens: bool,
    kind: ListKind,
) -> Result<Went, NoMemory>
    requires holds { Holds C.Cells cells.old engine.old }
    ensures goes { Goes C.Cells (opened_if opens kind) result cells.new engine.new cells.old engine.old }
{
    if opens {
        return open_list(cells, engine, kind);
    }
    Ok(Went::Stopped(Kind::TokenMisplaced))
}

// A list is opened behind a brace.
fn open_behind<C: Cells>(
    cells: &mut C,
    engine: &mut Engine,
    kind: ListKind,
) -> Result<Went, NoMemory>
    requires holds { Holds C.Cells cells.old engine.old }
    ensures goes { Goes C.Cells (brace_taken kind) result cells.new engine.new cells.old engine.old }
{
    match past_spaces(cells, engine)? {
        Reading::Of((_tok, meaning)) => {
            let opens = opens_list(&meaning);
            open_if(cells, engine, opens, kind)
        }
        Reading::Stops(went) => Ok(went),
    }
}

/// `\hbox` and `\vbox`: the list of the box begins, behind the size that it is to have.
pub fn begin_box<C: Cells>(
    cells: &mut C,
    engine: &mut Engine,
    axis: Axis,
    context: BoxContext,
) -> Result<Went, NoMemory>
    requires holds { Holds C.Cells cells.old engine.old }
    ensures goes { Goes C.Cells (box_begun axis context) result cells.new engine.new cells.old engine.old }
{
    match target(cells, engine)? {
        Reading::Of(size) => open_behind(cells, engine, ListKind::Box(axis, size, context)),
        Reading::Stops(went) => Ok(went),
    }
}

// A register is void, and what it held goes where it is to go.
fn take_held<C: Cells>(
    cells: &mut C,
    engine: &mut Engine,
    number: u8,
    context: BoxContext,
    held: Option<Shared<Boxed>>,
) -> Result<Went, NoMemory>
    requires holds { Holds C.Cells cells.old engine.old }
    ensures goes { Goes C.Cells (λ v. and_then (change ALocal (cells_of.Boxed number) values.Absent v) (placed context held)) result
        cells.new engine.new cells.old engine.old }
{
    match change(
        cells,
        engine,
        &Cell::Boxed(number),
        Value::Absent,
        Reach::Local,
    )? {
        Went::On => place(cells, engine, context, held),
        went => Ok(went),
    }
}

// The box of a register leaves it.
fn take<C: Cells>(
    cells: &mut C,
    engine: &mut Engine,
    number: u8,
    context: BoxContext,
) -> Result<Went, NoMemory>
    requires holds { Holds C.Cells cells.old engine.old }
    ensures goes { Goes C.Cells
        (look_at (cells_of.Boxed number) boxed_of (λ box v. and_then (change ALocal (cells_of.Boxed number) values.Absent v) (placed context box))) result
        cells.new engine.new cells.old engine.old }
{
    let box_held = held(cells, engine, number)?;
    take_held(cells, engine, number, context, box_held)
}

/// `\box`, which leaves the register void.
pub fn take_box<C: Cells>(
    cells: &mut C,
    engine: &mut Engine,
    context: BoxContext,
) -> Result<Went, NoMemory>
    requires holds { Holds C.Cells cells.old engine.old }
    ensures goes { Goes C.Cells (box_taken context) result cells.new engine.new cells.old engine.old }
{
    match code(cells, engine)? {
        Reading::Of(number) => take(cells, engine, number, context),
        Reading::Stops(went) => Ok(went),
    }
}

// The box of a register stays there too.
fn copy<C: Cells>(
    cells: &mut C,
    engine: &mut Engine,
    number: u8,
    context: BoxContext,
) -> Result<Went, NoMemory>
    requires holds { Holds C.Cells cells.old engine.old }
    ensures goes { Goes C.Cells (look_at (cells_of.Boxed number) boxed_of (placed context)) result cells.new engine.new cells.old engine.old }
{
    let box_held = held(cells, engine, number)?;
    place(cells, engine, context, box_held)
}

/// `\copy`, which leaves the register as it is.
pub fn copy_box<C: Cells>(
    cells: &mut C,
    engine: &mut Engine,
    context: BoxContext,
) -> Result<Went, NoMemory>
    requires holds { Holds C.Cells cells.old engine.old }
    ensures goes { Goes C.Cells (box_copied context) result cells.new engine.new cells.old engine.old }
{
    match code(cells, engine)? {
        Reading::Of(number) => copy(cells, engine, number, context),
        Reading::Stops(went) => Ok(went),
    }
}
