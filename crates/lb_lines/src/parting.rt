//! What moves out of a line, and what stays in it.
ghost use Rattle.std.specs.Prelude.{◌≡◌, ◌++◌, ◌∷◌, [], reverse, IfOk, OnOk};
ghost use Rattle.std.specs.Bool.{OnTrue};
ghost use Rattle.lb_base.specs.declared.node.Discretionary.{out-Discretionary};
ghost use Rattle.lb_model_paper.specs.Lines.{moving, staying};
ghost use Rattle.lb_model_paper.specs.Nodes.{shown};

use lb_base::{Discretionary, Node, NodeList};
use sqlite_items::Items;
use std::alloc::{AllocError, Global};

/// The items of a line that stay in its box, and those that move out behind it.
#[derive(Drop)]
pub struct Parted {
    pub stay: NodeList,
    pub moved: NodeList,
}

/// Parts the items of a line, of which each discretionary shows its third part.
pub fn part(alloc: Global, line: NodeList) -> Result<Parted, AllocError>
    ensures stay { IfOk result (λ parted. parted.stay ≡ staying (shown line)) }
    ensures moved { IfOk result (λ parted. parted.moved ≡ moving (shown line)) }
{
    let mut parted = Parted {
        stay: Items::new(alloc),
        moved: Items::new(alloc),
    };
    if all_stay(line.as_slice()) {
        parted.stay = line;
        return Ok(parted);
    }
    let mut pending = turned(alloc, line)?;
    while let Some(node) = pending.pop() {
        match node {
            Node::Disc(parts) => push_third(&mut pending, parts.into_inner())?,
            Node::Ins(footnote) => parted.moved.push(Node::Ins(footnote))?,
            Node::Adjust(material) => parted.moved.append(material)?,
            node => parted.stay.push(node)?,
        }
    }
    Ok(parted)
}

/// Whether each node stays as it is.
fn all_stay(nodes: &[Node]) -> bool
    ensures stay { OnTrue result (staying (shown nodes.now) ≡ nodes.now) }
    ensures moved { OnTrue result (moving (shown nodes.now) ≡ []) }
{
    for node in nodes {
        match node {
            Node::Disc(_) => return false,
            Node::Ins(_) => return false,
            Node::Adjust(_) => return false,
            _ => {}
        }
    }
    true
}

/// A list turned round.
pub fn turned(alloc: Global, list: NodeList) -> Result<NodeList, AllocError>
    ensures { IfOk result (λ turned. turned ≡ reverse list) }
{
    let mut turned = Items::new(alloc);
    push_reversed(&mut turned, list)?;
    Ok(turned)
}

fn push_third(pending: &mut NodeList, parts: Discretionary) -> Result<(), AllocError>
    ensures { OnOk result (pending.new ≡ pending.old ++ reverse (out-Discretionary parts).no_break) }
{
    let Discretionary {
        pre_break: _pre_break,
        post_break: _post_break,
        no_break,
    } = parts;
    push_reversed(pending, no_break)
}

/// Moves a list to the end of another, its last node first.
fn push_reversed(pending: &mut NodeList, mut list: NodeList) -> Result<(), AllocError>
    ensures { OnOk result (pending.new ≡ pending.old ++ reverse list) }
{
    while let Some(node) = list.pop() {
        pending.push(node)?;
    }
    Ok(())
}
