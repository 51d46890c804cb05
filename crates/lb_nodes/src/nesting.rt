//! How deep boxes stand inside one another.
ghost use Rattle.std.specs.Prelude.{◌≤◌, ◌↔◌, IsTrue, map};
ghost use Rattle.lb_model_paper.specs.Nodes.{most, nesting_of, nesting_of_box};
ghost use Rattle.lb_nodes.specs.Nesting.{nesting_of_mark, nesting_of_parts};

use lb_base::{Boxed, Discretionary, HeadMark, Node};

/// Whether at most so many boxes stand inside one another in each of these nodes. The search goes
/// no deeper into boxes than that.
#[cycle(nesting)]
pub fn nests_within(nodes: &[Node], limit: u16) -> bool
    ensures { IsTrue result ↔ (most (map nesting_of nodes.now) ≤ limit) }
{
    for node in nodes {
        if !node_nests_within(node, limit) {
            return false;
        }
    }
    true
}

#[cycle(nesting)]
fn node_nests_within(node: &Node, limit: u16) -> bool
    ensures { IsTrue result ↔ (nesting_of node.now ≤ limit) }
{
    match node {
        Node::Boxed(boxed) => box_nests_within(boxed.get(), limit),
        Node::Ins(footnote) => box_nests_within(footnote.get(), limit),
        Node::Disc(parts) => parts_nest_within(parts.get(), limit),
        Node::Mark(mark) => mark_nests_within(mark.get(), limit),
        Node::Adjust(material) => nests_within(material.as_slice(), limit),
        _ => true,
    }
}

#[cycle(nesting)]
fn box_nests_within(boxed: &Boxed, limit: u16) -> bool
    ensures { IsTrue result ↔ (nesting_of_box boxed.now ≤ limit) }
{
    limit > 0 && nests_within(boxed.items.as_slice(), limit - 1)
}

#[cycle(nesting)]
fn parts_nest_within(parts: &Discretionary, limit: u16) -> bool
    ensures { IsTrue result ↔ (nesting_of_parts parts.now ≤ limit) }
{
    nests_within(parts.pre_break.as_slice(), limit)
        && nests_within(parts.post_break.as_slice(), limit)
        && nests_within(parts.no_break.as_slice(), limit)
}

#[cycle(nesting)]
fn mark_nests_within(mark: &HeadMark, limit: u16) -> bool
    ensures { IsTrue result ↔ (nesting_of_mark mark.now ≤ limit) }
{
    match mark {
        HeadMark::Both { left, right } => {
            box_nests_within(left.get(), limit) && box_nests_within(right.get(), limit)
        }
        HeadMark::Right(right) => box_nests_within(right.get(), limit),
    }
}
