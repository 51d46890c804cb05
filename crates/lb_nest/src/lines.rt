//! The lines of a paragraph in the list around it (tex.web, section 888).
ghost use Rattle.std.specs.Prelude.{Ok};
ghost use Rattle.lb_base.specs.declared.node.Node.{out-Node};
ghost use Rattle.lb_model.specs.Settings.{Setting};
ghost use Rattle.lb_model_nest.specs.Paragraphs.{line_added, line_box_added};
ghost use Rattle.lb_nest.specs.Endings.{made_added};
ghost use Rattle.lb_nest.specs.Leads.{Goes};
ghost use Rattle.lb_nest.specs.Views.{Keeps};

use crate::adding::{add_all, add_box, add_node};
use crate::nest::Nest;
use lb_base::{Listed, NoMemory, Node, NodeList};
use lb_groups::Groups;
use lb_model::Cells;
use lb_model_nest::Went;

// Adds the first node of a line: a box behind the glue between lines.
fn add_first<C: Cells>(
    cells: &mut C,
    groups: &mut Groups,
    left: &mut u64,
    nest: &mut Nest,
    node: Node,
) -> Result<Went, NoMemory>
    requires keeps { (p : Setting) → C.agrees cells.old p → Keeps p (C.meaning cells.old p) groups.old nest.old }
    ensures goes { Goes C.Cells (line_box_added node (out-Node node)) result cells.new groups.new left.new nest.new cells.old groups.old left.old nest.old }
{
    match node {
        Node::Boxed(boxed) => add_box(cells, groups, left, nest, boxed.into_inner()),
        node => add_node(cells, groups, left, nest, node),
    }
}

// Adds a line: its box, and behind it what moves out of it and the penalty.
fn add_line<C: Cells>(
    cells: &mut C,
    groups: &mut Groups,
    left: &mut u64,
    nest: &mut Nest,
    line: NodeList,
) -> Result<Went, NoMemory>
    requires keeps { (p : Setting) → C.agrees cells.old p → Keeps p (C.meaning cells.old p) groups.old nest.old }
    ensures goes { Goes C.Cells (line_added (Ok line)) result cells.new groups.new left.new nest.new cells.old groups.old left.old nest.old }
{
    let mut behind = line;
    if behind.is_empty() {
        return Ok(Went::On);
    }
    let first = behind.remove(0);
    match add_first(cells, groups, left, nest, first)? {
        Went::On => add_all(cells, groups, left, nest, behind),
        went => Ok(went),
    }
}

/// Adds lines, one after another.
pub(crate) fn add_lines<C: Cells>(
    cells: &mut C,
    groups: &mut Groups,
    left: &mut u64,
    nest: &mut Nest,
    lines: Listed<NodeList>,
) -> Result<Went, NoMemory>
    requires keeps { (p : Setting) → C.agrees cells.old p → Keeps p (C.meaning cells.old p) groups.old nest.old }
    ensures goes { Goes C.Cells (made_added lines) result cells.new groups.new left.new nest.new cells.old groups.old left.old nest.old }
{
    let mut rest = lines.into_vec();
    rest.reverse();
    while let Some(line) = rest.pop() {
        match add_line(cells, groups, left, nest, line)? {
            Went::On => {}
            went => return Ok(went),
        }
    }
    Ok(Went::On)
}
