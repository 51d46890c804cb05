//! Pages that are shipped (TeXbook, chapter 23; tex.web, part 32; source2e, files ltoutput and ltpage).
ghost use Rattle.std.specs.Prelude.{◌≡◌, ℕ};
ghost use Rattle.lb_values.specs.declared.cell.Cell.TheVariants.{LeftMark, RightMark};
ghost use Rattle.lb_model.specs.Settings.{Setting};
ghost use Rattle.lb_model_nest.specs.Pages.{mark_carried, ship};
ghost use Rattle.lb_model_paper.specs.Marks.{page_code_or_fault};
ghost use Rattle.lb_nest.specs.Leads.{Goes};
ghost use Rattle.lb_nest.specs.Pages.{code_put, counted, logged, look_of, look_put, marks_left, next_begun, notes_put, page_behind, shipped_with};
ghost use Rattle.lb_nest.specs.Views.{Keeps};

use crate::digits::{Digits, number_nodes};
use crate::entries::Entry;
use crate::groups::change;
use crate::nest::Nest;
use crate::notes::write_notes;
use crate::numbering::{
    HeadParts, LastMarks, Numbering, head_parts, last_marks, numbering_now, page_counter,
    page_lengths,
};
use crate::stops::stopped;
use lb_base::{Boxed, Kind, NoMemory, Node, NodeList};
use lb_groups::Groups;
use lb_marks::page_code;
use lb_model::laws::numbers_are_held;
use lb_model::{Cells, held};
use lb_model_journal::Event;
use lb_model_nest::Went;
use lb_output::{PageLengths, PageLook, page_box};
use lb_page::PagePart;
use lb_print::in_form;
use lb_values::{Cell, Reach, Shared, Value};
use sqlite_items::Items;
use std::alloc::Global;

// Gives the next page the number behind this one.
fn count<C: Cells>(
    cells: &mut C,
    groups: &mut Groups,
    nest: &Nest,
    numbering: Numbering,
) -> Result<Went, NoMemory>
    requires keeps { (p : Setting) → C.agrees cells.old p → Keeps p (C.meaning cells.old p) groups.old nest.now }
    ensures goes { (left : ℕ) → Goes C.Cells (counted numbering.number) result cells.new groups.new left nest.now cells.old groups.old left nest.now }
{
    if numbering.number == i32::MAX {
        return Ok(Went::Stopped(Kind::Overflow));
    }
    let cell = page_counter(nest.alloc)?;
    match held(&cell, numbering.number + 1) {
        Some(value) => {
            numbers_are_held();
            change(cells, groups, nest, &cell, value, Reach::Global)
        }
        None => Ok(Went::Stopped(Kind::Overflow)),
    }
}

// Begins the next page, which has no style of its own.
fn begin_next<C: Cells>(
    cells: &mut C,
    groups: &mut Groups,
    nest: &Nest,
    numbering: Numbering,
) -> Result<Went, NoMemory>
    requires keeps { (p : Setting) → C.agrees cells.old p → Keeps p (C.meaning cells.old p) groups.old nest.now }
    ensures goes { (left : ℕ) → Goes C.Cells (next_begun numbering.number) result cells.new groups.new left nest.now cells.old groups.old left nest.now }
{
    let went = count(cells, groups, nest, numbering)?;
    match went {
        Went::On => change(
            cells,
            groups,
            nest,
            &Cell::ThisStyle,
            Value::Absent,
            Reach::Global,
        ),
        went => Ok(went),
    }
}

// Leaves the left mark of a page to later pages, if it has one.
fn carry_left<C: Cells>(
    cells: &mut C,
    groups: &mut Groups,
    nest: &Nest,
    mark: Option<Shared<Boxed>>,
) -> Result<Went, NoMemory>
    requires keeps { (p : Setting) → C.agrees cells.old p → Keeps p (C.meaning cells.old p) groups.old nest.now }
    ensures goes { (left : ℕ) → Goes C.Cells (mark_carried LeftMark mark) result cells.new groups.new left nest.now cells.old groups.old left nest.now }
{
    match mark {
        Some(boxed) => change(
            cells,
            groups,
            nest,
            &Cell::LeftMark,
            Value::Boxed(boxed),
            Reach::Global,
        ),
        None => Ok(Went::On),
    }
}

// Leaves the right mark of a page to later pages, if it has one.
fn carry_right<C: Cells>(
    cells: &mut C,
    groups: &mut Groups,
    nest: &Nest,
    mark: Option<Shared<Boxed>>,
) -> Result<Went, NoMemory>
    requires keeps { (p : Setting) → C.agrees cells.old p → Keeps p (C.meaning cells.old p) groups.old nest.now }
    ensures goes { (left : ℕ) → Goes C.Cells (mark_carried RightMark mark) result cells.new groups.new left nest.now cells.old groups.old left nest.now }
{
    match mark {
        Some(boxed) => change(
            cells,
            groups,
            nest,
            &Cell::RightMark,
            Value::Boxed(boxed),
            Reach::Global,
        ),
        None => Ok(Went::On),
    }
}

// Leaves the last marks of a page to later pages.
fn carry_marks<C: Cells>(
    cells: &mut C,
    groups: &mut Groups,
    nest: &Nest,
    marks: LastMarks,
) -> Result<Went, NoMemory>
    requires keeps { (p : Setting) → C.agrees cells.old p → Keeps p (C.meaning cells.old p) groups.old nest.now }
    ensures goes { (left : ℕ) → Goes C.Cells (marks_left marks) result cells.new groups.new left nest.now cells.old groups.old left nest.now }
{
    let LastMarks { left, right } = marks;
    let went = carry_left(cells, groups, nest, left)?;
    match went {
        Went::On => carry_right(cells, groups, nest, right),
        went => Ok(went),
    }
}

// Leaves what a page of this number leaves to later pages.
fn leave_page<C: Cells>(
    cells: &mut C,
    groups: &mut Groups,
    nest: &Nest,
    numbering: Numbering,
    marks: LastMarks,
) -> Result<Went, NoMemory>
    requires keeps { (p : Setting) → C.agrees cells.old p → Keeps p (C.meaning cells.old p) groups.old nest.now }
    ensures goes { (left : ℕ) → Goes C.Cells (page_behind numbering.number marks) result cells.new groups.new left nest.now cells.old groups.old left nest.now }
{
    let went = begin_next(cells, groups, nest, numbering)?;
    match went {
        Went::On => carry_marks(cells, groups, nest, marks),
        went => Ok(went),
    }
}

// Logs a page, and leaves it.
fn log_page<C: Cells>(
    cells: &mut C,
    groups: &mut Groups,
    nest: &mut Nest,
    numbering: Numbering,
    marks: LastMarks,
) -> Result<Went, NoMemory>
    requires keeps { (p : Setting) → C.agrees cells.old p → Keeps p (C.meaning cells.old p) groups.old nest.old }
    ensures goes { (left : ℕ) → Goes C.Cells (logged numbering.number marks) result cells.new groups.new left nest.new cells.old groups.old left nest.old }
    ensures page { nest.new.page ≡ nest.old.page }
{
    nest.entries
        .push(Entry::Event(Event::Page(numbering.number)))?;
    leave_page(cells, groups, nest, numbering, marks)
}

// Writes the notes of a page with these nodes and logs the page.
fn put_notes<C: Cells>(
    cells: &mut C,
    groups: &mut Groups,
    nest: &mut Nest,
    numbering: Numbering,
    marks: LastMarks,
    nodes: &[Node],
) -> Result<Went, NoMemory>
    requires keeps { (p : Setting) → C.agrees cells.old p → Keeps p (C.meaning cells.old p) groups.old nest.old }
    ensures goes { (left : ℕ) → Goes C.Cells (notes_put numbering marks nodes.now) result cells.new groups.new left nest.new
        cells.old groups.old left nest.old }
    ensures page { nest.new.page ≡ nest.old.page }
{
    let text = in_form(nest.alloc, numbering.form, numbering.number)?;
    let went = write_notes(nest, text, nodes)?;
    match went {
        Went::On => log_page(cells, groups, nest, numbering, marks),
        went => Ok(went),
    }
}

// Puts the code of a page into the journal, if there is one, its notes and its line in the log.
fn put_code<C: Cells>(
    cells: &mut C,
    groups: &mut Groups,
    nest: &mut Nest,
    numbering: Numbering,
    marks: LastMarks,
    boxed: &Boxed,
) -> Result<Went, NoMemory>
    requires keeps { (p : Setting) → C.agrees cells.old p → Keeps p (C.meaning cells.old p) groups.old nest.old }
    ensures goes { (left : ℕ) → Goes C.Cells (code_put numbering marks boxed.now.items (page_code_or_fault numbering.number boxed.now)) result
        cells.new groups.new left nest.new cells.old groups.old left nest.old }
    ensures page { nest.new.page ≡ nest.old.page }
{
    match page_code(nest.alloc, numbering.number, boxed) {
        Ok(code) => {
            nest.entries.push(Entry::Page(code))?;
            put_notes(
                cells,
                groups,
                nest,
                numbering,
                marks,
                boxed.items.as_slice(),
            )
        }
        Err(stop) => stopped(stop),
    }
}

// Ships a page of a look.
fn put_page<C: Cells>(
    cells: &mut C,
    groups: &mut Groups,
    nest: &mut Nest,
    numbering: Numbering,
    part: PagePart,
    look: PageLook,
) -> Result<Went, NoMemory>
    requires keeps { (p : Setting) → C.agrees cells.old p → Keeps p (C.meaning cells.old p) groups.old nest.old }
    ensures goes { (left : ℕ) → Goes C.Cells (look_put numbering part look) result cells.new groups.new left nest.new cells.old groups.old left nest.old }
    ensures page { nest.new.page ≡ nest.old.page }
{
    let marks = last_marks(nest.alloc, part.items.as_slice())?;
    match page_box(nest.alloc, part, look) {
        Ok(boxed) => put_code(cells, groups, nest, numbering, marks, &boxed),
        Err(stop) => stopped(stop),
    }
}

fn with_digits(look: PageLook, digits: NodeList) -> PageLook
    ensures { result ≡ record look { digits = digits } }
{
    PageLook { digits, ..look }
}

// Ships a page of a look that lacks the nodes of the number.
fn ship_with<C: Cells>(
    cells: &mut C,
    groups: &mut Groups,
    left: &mut u64,
    nest: &mut Nest,
    numbering: Numbering,
    look: PageLook,
    part: PagePart,
) -> Result<Went, NoMemory>
    requires keeps { (p : Setting) → C.agrees cells.old p → Keeps p (C.meaning cells.old p) groups.old nest.old }
    ensures goes { Goes C.Cells (shipped_with numbering look part) result cells.new groups.new left.new nest.new cells.old groups.old left.old nest.old }
    ensures page { nest.new.page ≡ nest.old.page }
{
    let text = in_form(nest.alloc, numbering.form, numbering.number)?;
    match number_nodes(cells, groups, left, nest, look.style, &text)? {
        Digits::Made(digits) => {
            let look = with_digits(look, digits);
            put_page(cells, groups, nest, numbering, part, look)
        }
        Digits::Stops(went) => Ok(went),
    }
}

// How a page looks, but for the nodes of its number.
fn look_of(alloc: Global, numbering: Numbering, lengths: PageLengths, head: HeadParts) -> PageLook
    ensures { result ≡ look_of numbering lengths head }
{
    PageLook {
        number: numbering.number,
        digits: Items::new(alloc),
        style: numbering.style,
        left: head.left,
        right: head.right,
        lengths,
    }
}

/// Ships a page: its code, the lines of its notes and its line in the log come into the journal. The next page has the next number, no style
/// of its own, and the last marks of this one.
pub(crate) fn ship<C: Cells>(
    cells: &mut C,
    groups: &mut Groups,
    left: &mut u64,
    nest: &mut Nest,
    part: PagePart,
) -> Result<Went, NoMemory>
    requires keeps { (p : Setting) → C.agrees cells.old p → Keeps p (C.meaning cells.old p) groups.old nest.old }
    ensures goes { Goes C.Cells (ship part) result cells.new groups.new left.new nest.new cells.old groups.old left.old nest.old }
    ensures page { nest.new.page ≡ nest.old.page }
{
    let numbering = numbering_now(nest.alloc, cells, groups)?;
    let lengths = page_lengths(cells, groups)?;
    let head = head_parts(
        nest.alloc,
        cells,
        groups,
        numbering.style,
        part.items.as_slice(),
    )?;
    let look = look_of(nest.alloc, numbering, lengths, head);
    ship_with(cells, groups, left, nest, numbering, look, part)
}
