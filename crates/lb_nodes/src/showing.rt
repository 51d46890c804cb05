//! What a list shows where no line is broken: each discretionary gives way to its third part.
ghost use Rattle.std.specs.Prelude.{◌≡◌, ◌++◌, IfOk, OnOk, reverse};
ghost use Rattle.std.specs.Bool.{OnTrue};
ghost use Rattle.lb_base.specs.declared.node.Discretionary.{out-Discretionary};
ghost use Rattle.lb_model_paper.specs.Nodes.{shown};

use lb_base::{Discretionary, Node, NodeList};
use sqlite_items::Items;
use std::alloc::{AllocError, Global};

/// The list with each discretionary replaced by its third part, in which others may stand.
pub fn shown(alloc: Global, list: NodeList) -> Result<NodeList, AllocError>
    ensures { IfOk result (λ nodes. nodes ≡ shown list) }
{
    if is_shown(list.as_slice()) {
        return Ok(list);
    }
    let mut pending = Items::new(alloc);
    push_reversed(&mut pending, list)?;
    let mut nodes = Items::new(alloc);
    while let Some(node) = pending.pop() {
        match node {
            Node::Disc(parts) => push_third(&mut pending, parts.into_inner())?,
            node => nodes.push(node)?,
        }
    }
    Ok(nodes)
}

/// Whether there is no discretionary in a list.
fn is_shown(nodes: &[Node]) -> bool
    ensures { OnTrue result (shown nodes.now ≡ nodes.now) }
{
    for node in nodes {
        if let Node::Disc(_) = node {
            return false;
        }
    }
    true
}

fn push_third(pending: &mut NodeList, parts: Discretionary) -> Result<(), AllocError>
    ensures { OnOk result (pending.new ≡ pending.old ++ reverse (out-Discretionary parts).no_break) }
{
    let Discretionary {
        pre_break: _pre_break,
        post_break: _post_break,
        no_break,
    } = parts;
    push_reversed(pending, no_break)
}

/// Moves a list to the end of another, its last node first.
fn push_reversed(pending: &mut NodeList, mut list: NodeList) -> Result<(), AllocError>
    ensures { OnOk result (pending.new ≡ pending.old ++ reverse list) }
{
    while let Some(node) = list.pop() {
        pending.push(node)?;
    }
    Ok(())
}
