//! Boxes and the lists in which they are made (TeXbook, chapters 12, 21 and 24; tex.web, sections 1071 to 1120). Lengths are in scaled points, 65536 to the point.
ghost use Rattle.std.specs.Prelude.{◌≡◌, ℕ, IfOk};
ghost use Rattle.lb_model.specs.Settings.{Setting};
ghost use Rattle.lb_model_nest.specs.Boxes.{box_in_list, box_placed, empty_parts, list_opened, mark_box_opened, mark_opened, parts_opened, void_placed, with_shift};
ghost use Rattle.lb_nest.specs.Boxes.{small_box_opened};
ghost use Rattle.lb_nest.specs.Leads.{Goes};
ghost use Rattle.lb_nest.specs.Views.{Keeps};

use crate::adding::add_box;
use crate::groups::{change, open_group};
use crate::level::is_vertical;
use crate::nest::{Nest, enter};
use lb_base::{Boxed, Discretionary, NoMemory, Node};
use lb_groups::Groups;
use lb_model::{Cells, GroupKind};
use lb_model_nest::{BoxContext, DiscPart, ListKind, Went};
use lb_values::{Cell, Reach, Shared, Value};
use sqlite_items::{Boxed as Held, Items};
use std::alloc::Global;

/// The style roman.
const ROMAN: i32 = 0;

/// The normal size.
const NORMAL: i32 = 4;

// A box shifted down by so much, or to the right in a vertical list.
fn shifted(boxed: Boxed, shift: i32) -> Boxed
    ensures { result ≡ with_shift shift boxed }
{
    let mut boxed = boxed;
    boxed.shift = shift;
    boxed
}

// Adds a box to the innermost list, in a vertical one behind the glue between lines.
fn put_box<C: Cells>(
    cells: &mut C,
    groups: &mut Groups,
    left: &mut u64,
    nest: &mut Nest,
    boxed: Boxed,
) -> Result<Went, NoMemory>
    requires keeps { (p : Setting) → C.agrees cells.old p → Keeps p (C.meaning cells.old p) groups.old nest.old }
    ensures goes { Goes C.Cells (box_in_list boxed) result cells.new groups.new left.new nest.new cells.old groups.old left.old nest.old }
{
    if is_vertical(nest.level.kind) {
        return add_box(cells, groups, left, nest, boxed);
    }
    nest.push(Node::Boxed(Held::new(nest.alloc, boxed)?))?;
    Ok(Went::On)
}

/// Puts a box where it goes: into the innermost list, or into a register.
#[tactic(auto, unfolding(lb_model_nest::specs::Boxes::box_placed))]
pub fn place_box<C: Cells>(
    cells: &mut C,
    groups: &mut Groups,
    left: &mut u64,
    nest: &mut Nest,
    context: BoxContext,
    boxed: Boxed,
) -> Result<Went, NoMemory>
    requires keeps { (p : Setting) → C.agrees cells.old p → Keeps p (C.meaning cells.old p) groups.old nest.old }
    ensures goes { Goes C.Cells (box_placed context boxed) result cells.new groups.new left.new nest.new cells.old groups.old left.old nest.old }
{
    match context {
        BoxContext::Shifted(shift) => put_box(cells, groups, left, nest, shifted(boxed, shift)),
        BoxContext::Register(reach, n) => {
            let value = Value::Boxed(Shared::new(nest.alloc, boxed)?);
            change(cells, groups, nest, &Cell::Boxed(n), value, reach)
        }
    }
}

/// Where there is no box: nothing is added to a list, and a register is void.
pub fn place_void<C: Cells>(
    cells: &mut C,
    groups: &mut Groups,
    nest: &Nest,
    context: BoxContext,
) -> Result<Went, NoMemory>
    requires keeps { (p : Setting) → C.agrees cells.old p → Keeps p (C.meaning cells.old p) groups.old nest.now }
    ensures goes { (left : ℕ) → Goes C.Cells (void_placed context) result cells.new groups.new left nest.now cells.old groups.old left nest.now }
{
    match context {
        BoxContext::Shifted(_) => Ok(Went::On),
        BoxContext::Register(reach, n) => {
            change(cells, groups, nest, &Cell::Boxed(n), Value::Absent, reach)
        }
    }
}

/// Opens a list inside the innermost one, in a group of its own.
#[tactic(auto, unfolding(lb_model_nest::specs::Boxes::list_opened))]
pub fn open_list<C: Cells>(
    cells: &C,
    groups: &mut Groups,
    nest: &mut Nest,
    kind: ListKind,
) -> Result<Went, NoMemory>
    requires keeps { (p : Setting) → C.agrees cells.now p → Keeps p (C.meaning cells.now p) groups.old nest.old }
    ensures goes { (left : ℕ) → Goes C.Cells (list_opened kind) result cells.now groups.new left nest.new cells.now groups.old left nest.old }
{
    match open_group(cells, groups, nest, GroupKind::Material)? {
        Went::On => enter(nest, kind),
        went => Ok(went),
    }
}

// A discretionary whose parts are not made yet.
fn empty_parts(alloc: Global) -> Result<Node, NoMemory>
    ensures { IfOk result (λ node. node ≡ empty_parts) }
{
    let parts = Discretionary {
        pre_break: Items::new(alloc),
        post_break: Items::new(alloc),
        no_break: Items::new(alloc),
    };
    Ok(Node::Disc(Held::new(alloc, parts)?))
}

/// Adds a discretionary, and opens the list of its first part.
#[tactic(auto, unfolding(lb_model_nest::specs::Boxes::parts_opened))]
pub fn open_parts<C: Cells>(
    cells: &C,
    groups: &mut Groups,
    nest: &mut Nest,
) -> Result<Went, NoMemory>
    requires keeps { (p : Setting) → C.agrees cells.now p → Keeps p (C.meaning cells.now p) groups.old nest.old }
    ensures goes { (left : ℕ) → Goes C.Cells parts_opened result cells.now groups.new left nest.new cells.now groups.old left nest.old }
{
    let node = empty_parts(nest.alloc)?;
    nest.push(node)?;
    open_list(
        cells,
        groups,
        nest,
        ListKind::Discretionary(DiscPart::PreBreak),
    )
}

// Opens the list of a box of a mark, in the normal size.
fn open_small_box<C: Cells>(
    cells: &mut C,
    groups: &mut Groups,
    nest: &mut Nest,
    is_last: bool,
) -> Result<Went, NoMemory>
    requires keeps { (p : Setting) → C.agrees cells.old p → Keeps p (C.meaning cells.old p) groups.old nest.old }
    ensures goes { (left : ℕ) → Goes C.Cells (small_box_opened is_last) result cells.new groups.new left nest.new cells.old groups.old left nest.old }
{
    match open_list(cells, groups, nest, ListKind::MarkBox { is_last })? {
        Went::On => change(
            cells,
            groups,
            nest,
            &Cell::Size,
            Value::Number(NORMAL),
            Reach::Local,
        ),
        went => Ok(went),
    }
}

/// Opens the list of a box of a mark, in roman of the normal size.
pub(crate) fn open_mark_box<C: Cells>(
    cells: &mut C,
    groups: &mut Groups,
    nest: &mut Nest,
    is_last: bool,
) -> Result<Went, NoMemory>
    requires keeps { (p : Setting) → C.agrees cells.old p → Keeps p (C.meaning cells.old p) groups.old nest.old }
    ensures goes { (left : ℕ) → Goes C.Cells (mark_box_opened is_last) result cells.new groups.new left nest.new cells.old groups.old left nest.old }
{
    match open_small_box(cells, groups, nest, is_last)? {
        Went::On => change(
            cells,
            groups,
            nest,
            &Cell::Style,
            Value::Number(ROMAN),
            Reach::Local,
        ),
        went => Ok(went),
    }
}

/// Opens the list of a mark, and that of its first box.
#[tactic(auto, unfolding(lb_model_nest::specs::Boxes::mark_opened))]
pub fn open_mark<C: Cells>(
    cells: &mut C,
    groups: &mut Groups,
    nest: &mut Nest,
    is_last: bool,
) -> Result<Went, NoMemory>
    requires keeps { (p : Setting) → C.agrees cells.old p → Keeps p (C.meaning cells.old p) groups.old nest.old }
    ensures goes { (left : ℕ) → Goes C.Cells (mark_opened is_last) result cells.new groups.new left nest.new cells.old groups.old left nest.old }
{
    enter(nest, ListKind::Mark)?;
    open_mark_box(cells, groups, nest, is_last)
}
