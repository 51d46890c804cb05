//! The end of lists that have a group of their own (tex.web, sections 1085 to 1121).
ghost use Rattle.std.specs.Prelude.{◌≡◌, ℕ, []};
ghost use Rattle.lb_base.specs.Answers.{Answers};
ghost use Rattle.lb_model.specs.Settings.{Setting};
ghost use Rattle.lb_model_paper.specs.Boxes.{packs};
ghost use Rattle.lb_model_paper.specs.Nodes.{shown};
ghost use Rattle.lb_model_nest.specs.Boxes.{list_ended, list_ended_as, list_ended_in, list_left, packing};
ghost use Rattle.lb_nest.specs.Groups.{behind_group};
ghost use Rattle.lb_nest.specs.Leads.{Leads};
ghost use Rattle.lb_nest.specs.Lists.{behind_list, behind_taken, packed_placed};
ghost use Rattle.lb_nest.specs.Views.{Keeps, anywhere, at_place};
ghost use Rattle.lb_nest.specs.Works.{Works};

use crate::finishing::leave;
use crate::groups::{Closed, close_group};
use crate::nest::Nest;
use crate::paragraph_end::end_paragraph;
use lb_base::{Axis, Boxed, Kind, NoMemory, NodeList, Stop, Target, TokList};
use lb_groups::Groups;
use lb_model::{Cells, GroupKind, Place};
use lb_model_nest::{BoxContext, DiscPart, ListKind, Went};
use lb_nodes::{hpack, shown, vpack};
use sqlite_items::Items;
use std::alloc::{AllocError, Global};
use std::mem;

/// What becomes of the box of a list.
#[derive(Clone, Copy)]
pub enum Packing {
    Box(BoxContext),
    Footnote,
    MarkBox { is_last: bool },
}

/// What a list is made into: a box, vertical material, or a part of a discretionary.
#[derive(Drop)]
pub enum Material {
    Packed(Packing, Boxed),
    Adjust(NodeList),
    Part(DiscPart, NodeList),
}

/// The material of the innermost list, or there is a fault.
#[derive(Drop)]
pub(crate) enum Taken {
    Material(Material),
    Stops(Kind),
}

/// How a list ended: the tokens behind its group come next, and then its material is to be placed; or the row ends.
#[derive(Drop)]
pub enum EndedList {
    Later(TokList, Material),
    Ends(Went),
}

// The box of a list.
fn pack(alloc: Global, axis: Axis, list: NodeList, size: Target) -> Result<Boxed, Stop>
    ensures { Answers (packs axis (shown list) size) result }
{
    match axis {
        Axis::Horizontal => hpack(alloc, list, size),
        Axis::Vertical => vpack(alloc, list, size),
    }
}

// The nodes of the innermost list, which has none left.
fn take_nodes(nest: &mut Nest) -> NodeList
    ensures nest { nest.new ≡ record nest.old { level = record nest.old.level { nodes = [] } } }
    ensures nodes { result ≡ nest.old.level.nodes }
{
    mem::replace(&mut nest.level.nodes, Items::new(nest.alloc))
}

// Packs the innermost list, whose nodes are taken out of it.
fn take_packed(nest: &mut Nest, axis: Axis, size: Target, what: Packing) -> Result<Taken, NoMemory>
    ensures works { (left : ℕ) → Works (packing axis size (packed_placed what)) behind_taken result left nest.new left nest.old }
{
    let nodes = take_nodes(nest);
    match pack(nest.alloc, axis, nodes, size) {
        Ok(boxed) => Ok(Taken::Material(Material::Packed(what, boxed))),
        Err(Stop::Fault(kind)) => Ok(Taken::Stops(kind)),
        Err(_) => Err(AllocError),
    }
}

// Takes the material of the innermost list out of it, which is of this kind.
fn take_as(nest: &mut Nest, kind: ListKind) -> Result<Taken, NoMemory>
    ensures works { (left : ℕ) → Works (list_ended_as kind) behind_taken result left nest.new left nest.old }
{
    match kind {
        ListKind::Box(axis, size, context) => take_packed(nest, axis, size, Packing::Box(context)),
        ListKind::Adjust => {
            let nodes = take_nodes(nest);
            Ok(Taken::Material(Material::Adjust(nodes)))
        }
        ListKind::Footnote => {
            take_packed(nest, Axis::Vertical, Target::Natural, Packing::Footnote)
        }
        ListKind::Discretionary(part) => {
            let nodes = take_nodes(nest);
            let nodes = shown(nest.alloc, nodes)?;
            Ok(Taken::Material(Material::Part(part, nodes)))
        }
        ListKind::MarkBox { is_last } => take_packed(
            nest,
            Axis::Horizontal,
            Target::Natural,
            Packing::MarkBox { is_last },
        ),
        ListKind::Page | ListKind::Paragraph | ListKind::Mark => {
            Ok(Taken::Stops(Kind::GroupExtra))
        }
    }
}

// Takes the material of the innermost list out of it.
fn take_material(nest: &mut Nest) -> Result<Taken, NoMemory>
    ensures works { (left : ℕ) → Works list_ended_in behind_taken result left nest.new left nest.old }
{
    let kind = nest.kind();
    take_as(nest, kind)
}

// Leaves the innermost list with its group.
fn leave_list<C: Cells>(
    cells: &mut C,
    groups: &mut Groups,
    nest: &mut Nest,
) -> Result<Closed, NoMemory>
    requires keeps { (p : Setting) → C.agrees cells.old p → Keeps p (C.meaning cells.old p) groups.old nest.old }
    ensures leads { (left : ℕ) → Leads C.Cells anywhere list_left behind_group result cells.new groups.new left nest.new
        cells.old groups.old left nest.old }
{
    let _level = leave(nest);
    close_group(cells, groups, nest, GroupKind::Material)
}

// Ends the innermost list.
fn end_innermost<C: Cells>(
    cells: &mut C,
    groups: &mut Groups,
    nest: &mut Nest,
) -> Result<EndedList, NoMemory>
    requires keeps { (p : Setting) → C.agrees cells.old p → Keeps p (C.meaning cells.old p) groups.old nest.old }
    ensures leads { (left : ℕ) → Leads C.Cells anywhere list_ended_in behind_list result cells.new groups.new left nest.new
        cells.old groups.old left nest.old }
{
    let material = match take_material(nest)? {
        Taken::Material(material) => material,
        Taken::Stops(kind) => return Ok(EndedList::Ends(Went::Stopped(kind))),
    };
    match leave_list(cells, groups, nest)? {
        Closed::Later(later) => Ok(EndedList::Later(later, material)),
        Closed::Stops(kind) => Ok(EndedList::Ends(Went::Stopped(kind))),
    }
}

/// Ends a list that has a group of its own, up to the tokens that come behind that group; an open paragraph ends before. What is left to do
/// is `place_material`.
#[tactic(auto, unfolding(lb_model_nest::specs::Boxes::list_ended))]
pub fn end_list<C: Cells>(
    cells: &mut C,
    groups: &mut Groups,
    left: &mut u64,
    nest: &mut Nest,
    place: &Option<Place>,
) -> Result<EndedList, NoMemory>
    requires keeps { (p : Setting) → C.agrees cells.old p → Keeps p (C.meaning cells.old p) groups.old nest.old }
    ensures leads { Leads C.Cells (at_place place.now) list_ended behind_list result cells.new groups.new left.new nest.new
        cells.old groups.old left.old nest.old }
{
    match end_paragraph(cells, groups, left, nest, place)? {
        Went::On => end_innermost(cells, groups, nest),
        went => Ok(EndedList::Ends(went)),
    }
}
