//! The end of paragraphs (TeXbook, chapter 14; tex.web, sections 815 and 1096).
ghost use Rattle.std.specs.Prelude.{◌≡◌, ◌++◌, OnOk};
ghost use Rattle.lb_model.specs.Settings.{Setting};
ghost use Rattle.lb_model_nest.specs.Paragraphs.{broken_into_lines, paragraph_broken, paragraph_ended};
ghost use Rattle.lb_nest.specs.Leads.{GoesAt};
ghost use Rattle.lb_nest.specs.Views.{Keeps};

use crate::breaking::break_list;
use crate::entries::EntryList;
use crate::finishing::{finish, leave};
use crate::lines::add_lines;
use crate::nest::Nest;
use crate::shape::{read_ending, read_line_rules};
use lb_base::{NoMemory, NodeList, Stop};
use lb_groups::Groups;
use lb_model::{Cells, Place};
use lb_model_nest::{ListKind, Went};
use lb_model_paper::paragraph::Shape;
use std::alloc::AllocError;

// Puts entries behind others.
fn append_entries(list: &mut EntryList, entries: EntryList) -> Result<(), NoMemory>
    ensures { OnOk result (list.new ≡ list.old ++ entries) }
{
    let mut rest = entries;
    while let Some(entry) = rest.pop() {
        list.push(entry)?;
    }
    Ok(())
}

// Breaks a list into lines, which are added to the innermost list once the bad ones are logged.
fn add_broken<C: Cells>(
    cells: &mut C,
    groups: &mut Groups,
    left: &mut u64,
    nest: &mut Nest,
    list: NodeList,
    shape: &Shape,
    place: &Option<Place>,
) -> Result<Went, NoMemory>
    requires keeps { (p : Setting) → C.agrees cells.old p → Keeps p (C.meaning cells.old p) groups.old nest.old }
    ensures goes { GoesAt C.Cells place.now (broken_into_lines shape.now list) result cells.new groups.new left.new nest.new cells.old groups.old left.old nest.old }
{
    match break_list(nest.alloc, list, shape, place) {
        Ok(broken) => {
            append_entries(&mut nest.entries, broken.bad)?;
            add_lines(cells, groups, left, nest, broken.lines)
        }
        Err(Stop::Fault(kind)) => Ok(Went::Stopped(kind)),
        Err(_) => Err(AllocError),
    }
}

// Leaves the innermost list, and adds the lines of it to the list around.
fn break_open<C: Cells>(
    cells: &mut C,
    groups: &mut Groups,
    left: &mut u64,
    nest: &mut Nest,
    place: &Option<Place>,
) -> Result<Went, NoMemory>
    requires keeps { (p : Setting) → C.agrees cells.old p → Keeps p (C.meaning cells.old p) groups.old nest.old }
    ensures goes { GoesAt C.Cells place.now paragraph_broken result cells.new groups.new left.new nest.new cells.old groups.old left.old nest.old }
{
    let ending = read_ending(cells, groups)?;
    let _rules = read_line_rules(cells, groups)?;
    let paragraph = leave(nest);
    let list = finish(paragraph.nodes, ending.fill)?;
    add_broken(cells, groups, left, nest, list, &ending.shape, place)
}

/// Ends a paragraph, where one is open: its list is left, and its lines come into the list around. A bad line is logged, at the place of the
/// last token that was taken from a text.
#[tactic(auto, unfolding(lb_model_nest::specs::Paragraphs::paragraph_ended))]
pub fn end_paragraph<C: Cells>(
    cells: &mut C,
    groups: &mut Groups,
    left: &mut u64,
    nest: &mut Nest,
    place: &Option<Place>,
) -> Result<Went, NoMemory>
    requires keeps { (p : Setting) → C.agrees cells.old p → Keeps p (C.meaning cells.old p) groups.old nest.old }
    ensures goes { GoesAt C.Cells place.now paragraph_ended result cells.new groups.new left.new nest.new cells.old groups.old left.old nest.old }
{
    match nest.level.kind {
        ListKind::Paragraph => break_open(cells, groups, left, nest, place),
        _ => Ok(Went::On),
    }
}
