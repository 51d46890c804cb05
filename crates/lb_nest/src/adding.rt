//! Nodes and boxes that are added to lists (TeXbook, chapters 12 and 15; tex.web, sections 679 and 1076). Lengths are in scaled points.
ghost use Rattle.std.specs.Prelude.{◌≡◌, ◌++◌, ◌∷◌, [], IfOk, IfErr, OnOk, OnErr, Ok, Err};
ghost use Rattle.lb_base.specs.Answers.{Answers};
ghost use Rattle.lb_base.specs.declared.node.Boxed.{out-Boxed};
ghost use Rattle.lb_model_paper.specs.Lines.{appended, new_depth};
ghost use Rattle.lb_model.specs.Settings.{Setting};
ghost use Rattle.lb_model_nest.specs.Pages.{added, all_added};
ghost use Rattle.lb_model_nest.specs.Paragraphs.{box_added};
ghost use Rattle.lb_nest.specs.Leads.{Goes};
ghost use Rattle.lb_nest.specs.Pages.{box_with};
ghost use Rattle.lb_nest.specs.Views.{Keeps};

use crate::level::{OpenList, is_page};
use crate::nest::Nest;
use crate::pages::add_to_page;
use crate::shape::read_line_rules;
use crate::stack::Stack;
use crate::stops::stopped;
use lb_base::{Boxed, NoMemory, Node, NodeList, Stop};
use lb_groups::Groups;
use lb_lines::{LineRules, append_line};
use lb_model::Cells;
use lb_model_nest::Went;
use sqlite_items::Items;
use std::alloc::Global;

// Puts a node behind a list.
fn push(level: &mut OpenList, node: Node) -> Result<(), NoMemory>
    ensures ok { OnOk result (level.new ≡ record level.old { nodes = level.old.nodes ++ node ∷ [] }) }
{
    level.nodes.push(node)?;
    Ok(())
}

// Puts nodes behind a list.
fn append(level: &mut OpenList, nodes: NodeList) -> Result<(), NoMemory>
    ensures ok { OnOk result (level.new ≡ record level.old { nodes = level.old.nodes ++ nodes }) }
{
    level.nodes.append(nodes)?;
    Ok(())
}

/// Adds a node to the innermost list.
#[tactic(auto, unfolding(lb_model_nest::specs::Pages::added))]
pub fn add_node<C: Cells>(
    cells: &mut C,
    groups: &mut Groups,
    left: &mut u64,
    nest: &mut Nest,
    node: Node,
) -> Result<Went, NoMemory>
    requires keeps { (p : Setting) → C.agrees cells.old p → Keeps p (C.meaning cells.old p) groups.old nest.old }
    ensures goes { Goes C.Cells (added node) result cells.new groups.new left.new nest.new cells.old groups.old left.old nest.old }
{
    if is_page(nest.level.kind) {
        return add_to_page(cells, groups, left, nest, node);
    }
    push(&mut nest.level, node)?;
    Ok(Went::On)
}

// The nodes of a list, of which the first is taken first.
fn first_to_last(alloc: Global, nodes: NodeList) -> Result<Stack<Node>, NoMemory>
    ensures { IfOk result (λ stack. stack ≡ nodes) }
{
    let mut nodes = nodes;
    let mut stack = Stack::new(alloc);
    'nodes: while let Some(node) = nodes.pop() {
        stack.push(node)?;
    }
    Ok(stack)
}

// Adds nodes to the innermost list, one after another.
fn add_each<C: Cells>(
    cells: &mut C,
    groups: &mut Groups,
    left: &mut u64,
    nest: &mut Nest,
    nodes: Stack<Node>,
) -> Result<Went, NoMemory>
    requires keeps { (p : Setting) → C.agrees cells.old p → Keeps p (C.meaning cells.old p) groups.old nest.old }
    ensures goes { Goes C.Cells (all_added nodes) result cells.new groups.new left.new nest.new cells.old groups.old left.old nest.old }
{
    let mut nodes = nodes;
    'nodes: while let Some(node) = nodes.pop() {
        let went = add_node(cells, groups, left, nest, node)?;
        match went {
            Went::On => {}
            went => return Ok(went),
        }
    }
    Ok(Went::On)
}

/// Adds nodes to the innermost list. To one that is not the list of pages they are moved at once.
pub fn add_all<C: Cells>(
    cells: &mut C,
    groups: &mut Groups,
    left: &mut u64,
    nest: &mut Nest,
    nodes: NodeList,
) -> Result<Went, NoMemory>
    requires keeps { (p : Setting) → C.agrees cells.old p → Keeps p (C.meaning cells.old p) groups.old nest.old }
    ensures goes { Goes C.Cells (all_added nodes) result cells.new groups.new left.new nest.new cells.old groups.old left.old nest.old }
{
    if is_page(nest.level.kind) {
        let nodes = first_to_last(nest.alloc, nodes)?;
        return add_each(cells, groups, left, nest, nodes);
    }
    append(&mut nest.level, nodes)?;
    Ok(Went::On)
}

// A box behind the glue that comes before it in a list, whose last box it then is.
fn line_of(
    alloc: Global,
    level: &mut OpenList,
    rules: &LineRules,
    boxed: Boxed,
) -> Result<NodeList, Stop>
    ensures nodes { IfOk result (λ nodes. appended rules.now [] boxed level.old.prev_depth ≡ Ok nodes) }
    ensures depth { OnOk result (level.new ≡ record level.old { prev_depth = (out-Boxed boxed).depth }) }
    ensures stop { IfErr result (λ stop. Answers (new_depth rules.now boxed level.old.prev_depth) (Err stop)) }
    ensures same { OnErr result (level.new ≡ level.old) }
{
    let depth = boxed.depth;
    let mut nodes = Items::new(alloc);
    let before = level.prev_depth;
    append_line(alloc, &mut nodes, boxed, rules, before)?;
    level.prev_depth = depth;
    Ok(nodes)
}

// Adds a box to a vertical list by these rules.
fn add_by<C: Cells>(
    cells: &mut C,
    groups: &mut Groups,
    left: &mut u64,
    nest: &mut Nest,
    rules: &LineRules,
    boxed: Boxed,
) -> Result<Went, NoMemory>
    requires keeps { (p : Setting) → C.agrees cells.old p → Keeps p (C.meaning cells.old p) groups.old nest.old }
    ensures goes { Goes C.Cells (box_with rules.now boxed) result cells.new groups.new left.new nest.new cells.old groups.old left.old nest.old }
{
    match line_of(nest.alloc, &mut nest.level, rules, boxed) {
        Ok(nodes) => add_all(cells, groups, left, nest, nodes),
        Err(stop) => stopped(stop),
    }
}

/// Adds a box to a vertical list, behind the glue between lines. `DimenTooLarge` where that is 2^30 scaled points or more wide.
pub fn add_box<C: Cells>(
    cells: &mut C,
    groups: &mut Groups,
    left: &mut u64,
    nest: &mut Nest,
    boxed: Boxed,
) -> Result<Went, NoMemory>
    requires keeps { (p : Setting) → C.agrees cells.old p → Keeps p (C.meaning cells.old p) groups.old nest.old }
    ensures goes { Goes C.Cells (box_added boxed) result cells.new groups.new left.new nest.new cells.old groups.old left.old nest.old }
{
    let rules = read_line_rules(cells, groups)?;
    add_by(cells, groups, left, nest, &rules, boxed)
}
