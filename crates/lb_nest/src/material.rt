//! What lists are made into, put where it goes (tex.web, sections 1086 and 1117 to 1121).
ghost use Rattle.std.specs.Prelude.{◌≡◌, ℕ, IfOk, OnOk};
ghost use Rattle.lb_base.specs.declared.node.Node.{out-Node};
ghost use Rattle.lb_model.specs.Settings.{Setting};
ghost use Rattle.lb_model_nest.specs.Boxes.{footnote_placed, mark_box_placed, mark_of, part_behind, part_in, part_last, with_part};
ghost use Rattle.lb_model_nest.specs.Wholes.{executed};
ghost use Rattle.lb_nest.specs.Leads.{Goes};
ghost use Rattle.lb_nest.specs.Lists.{material_placed, packed_placed, part_placed};
ghost use Rattle.lb_nest.specs.Views.{Keeps};
ghost use Rattle.lb_nest.specs.Works.{Works};

use crate::adding::add_node;
use crate::boxes::{open_list, open_mark_box, place_box};
use crate::finishing::leave;
use crate::list_end::{Material, Packing};
use crate::nest::Nest;
use lb_base::{Boxed, Discretionary, HeadMark, NoMemory, Node, NodeList};
use lb_groups::Groups;
use lb_model::Cells;
use lb_model_nest::{DiscPart, ListKind, Went};
use sqlite_items::Boxed as Held;
use std::alloc::Global;

// A discretionary with this part.
fn with_part(part: DiscPart, nodes: NodeList, parts: Discretionary) -> Discretionary
    ensures { result ≡ with_part part nodes parts }
{
    let mut parts = parts;
    match part {
        DiscPart::PreBreak => parts.pre_break = nodes,
        DiscPart::PostBreak => parts.post_break = nodes,
        DiscPart::NoBreak => parts.no_break = nodes,
    }
    parts
}

// A node with this part, if it is a discretionary.
fn part_in(alloc: Global, part: DiscPart, nodes: NodeList, node: Node) -> Result<Node, NoMemory>
    ensures { IfOk result (λ made. made ≡ part_in part nodes node (out-Node node)) }
{
    match node {
        Node::Disc(parts) => {
            let parts = with_part(part, nodes, parts.into_inner());
            Ok(Node::Disc(Held::new(alloc, parts)?))
        }
        node => Ok(node),
    }
}

// Fills a part of the discretionary that stands last in a list.
fn fill_in(
    alloc: Global,
    part: DiscPart,
    nodes: NodeList,
    list: &mut NodeList,
) -> Result<(), NoMemory>
    ensures { OnOk result (list.new ≡ part_last part nodes list.old) }
{
    let Some(last) = list.pop() else {
        return Ok(());
    };
    let node = part_in(alloc, part, nodes, last)?;
    list.push(node)?;
    Ok(())
}

// Fills a part of the discretionary that stands last in the innermost list.
fn fill_part(nest: &mut Nest, part: DiscPart, nodes: NodeList) -> Result<(), NoMemory>
    ensures filled { OnOk result (nest.new ≡ record nest.old { level = record nest.old.level { nodes = part_last part nodes nest.old.level.nodes } }) }
    ensures shelf { nest.new.shelf ≡ nest.old.shelf }
{
    fill_in(nest.alloc, part, nodes, &mut nest.level.nodes)?;
    Ok(())
}

// Opens the list of the part behind a part, if there is one.
fn open_next_part<C: Cells>(
    cells: &C,
    groups: &mut Groups,
    nest: &mut Nest,
    part: DiscPart,
) -> Result<Went, NoMemory>
    requires keeps { (p : Setting) → C.agrees cells.now p → Keeps p (C.meaning cells.now p) groups.old nest.old }
    ensures goes { (left : ℕ) → Goes C.Cells (part_behind part) result cells.now groups.new left nest.new cells.now groups.old left nest.old }
{
    match part {
        DiscPart::PreBreak => open_list(
            cells,
            groups,
            nest,
            ListKind::Discretionary(DiscPart::PostBreak),
        ),
        DiscPart::PostBreak => open_list(
            cells,
            groups,
            nest,
            ListKind::Discretionary(DiscPart::NoBreak),
        ),
        DiscPart::NoBreak => Ok(Went::On),
    }
}

// Fills a part of a discretionary, and goes on to the next one.
fn place_part<C: Cells>(
    cells: &C,
    groups: &mut Groups,
    nest: &mut Nest,
    part: DiscPart,
    nodes: NodeList,
) -> Result<Went, NoMemory>
    requires keeps { (p : Setting) → C.agrees cells.now p → Keeps p (C.meaning cells.now p) groups.old nest.old }
    ensures goes { (left : ℕ) → Goes C.Cells (part_placed part nodes) result cells.now groups.new left nest.new cells.now groups.old left nest.old }
{
    fill_part(nest, part, nodes)?;
    open_next_part(cells, groups, nest, part)
}

// The mark of the boxes that were made: a left and a right one, or a right one.
fn mark_of(alloc: Global, nodes: NodeList, right: Boxed) -> Result<HeadMark, NoMemory>
    ensures { IfOk result (λ mark. mark ≡ mark_of nodes right) }
{
    let mut nodes = nodes;
    let right = Held::new(alloc, right)?;
    if nodes.is_empty() {
        return Ok(HeadMark::Right(right));
    }
    match nodes.remove(0) {
        Node::Boxed(left) => Ok(HeadMark::Both { left, right }),
        _ => Ok(HeadMark::Right(right)),
    }
}

// Adds a mark with its last box, or opens the next box behind this one.
fn place_mark_box<C: Cells>(
    cells: &mut C,
    groups: &mut Groups,
    left: &mut u64,
    nest: &mut Nest,
    is_last: bool,
    boxed: Boxed,
) -> Result<Went, NoMemory>
    requires keeps { (p : Setting) → C.agrees cells.old p → Keeps p (C.meaning cells.old p) groups.old nest.old }
    ensures goes { Goes C.Cells (mark_box_placed is_last boxed) result cells.new groups.new left.new nest.new cells.old groups.old left.old nest.old }
{
    if is_last {
        let level = leave(nest);
        let mark = mark_of(nest.alloc, level.nodes, boxed)?;
        let node = Node::Mark(Held::new(nest.alloc, mark)?);
        return add_node(cells, groups, left, nest, node);
    }
    let node = Node::Boxed(Held::new(nest.alloc, boxed)?);
    nest.push(node)?;
    open_mark_box(cells, groups, nest, true)
}

// Puts a footnote behind the innermost list.
fn place_footnote(nest: &mut Nest, boxed: Boxed) -> Result<Went, NoMemory>
    ensures works { (left : ℕ) → Works (footnote_placed boxed) executed result left nest.new left nest.old }
{
    let node = Node::Ins(Held::new(nest.alloc, boxed)?);
    nest.push(node)?;
    Ok(Went::On)
}

// Puts the box of a list where it goes.
fn place_packed<C: Cells>(
    cells: &mut C,
    groups: &mut Groups,
    left: &mut u64,
    nest: &mut Nest,
    packing: Packing,
    boxed: Boxed,
) -> Result<Went, NoMemory>
    requires keeps { (p : Setting) → C.agrees cells.old p → Keeps p (C.meaning cells.old p) groups.old nest.old }
    ensures goes { Goes C.Cells (packed_placed packing boxed) result cells.new groups.new left.new nest.new cells.old groups.old left.old nest.old }
{
    match packing {
        Packing::Box(context) => place_box(cells, groups, left, nest, context, boxed),
        Packing::Footnote => place_footnote(nest, boxed),
        Packing::MarkBox { is_last } => place_mark_box(cells, groups, left, nest, is_last, boxed),
    }
}

/// Puts what a list was made into where it goes.
pub fn place_material<C: Cells>(
    cells: &mut C,
    groups: &mut Groups,
    left: &mut u64,
    nest: &mut Nest,
    material: Material,
) -> Result<Went, NoMemory>
    requires keeps { (p : Setting) → C.agrees cells.old p → Keeps p (C.meaning cells.old p) groups.old nest.old }
    ensures goes { Goes C.Cells (material_placed material) result cells.new groups.new left.new nest.new cells.old groups.old left.old nest.old }
{
    match material {
        Material::Packed(packing, boxed) => {
            place_packed(cells, groups, left, nest, packing, boxed)
        }
        Material::Adjust(nodes) => {
            nest.push(Node::Adjust(nodes))?;
            Ok(Went::On)
        }
        Material::Part(part, nodes) => place_part(cells, groups, nest, part, nodes),
    }
}
