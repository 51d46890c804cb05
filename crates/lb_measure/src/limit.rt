//! How many items a list has.
ghost use Rattle.std.specs.Prelude.{◌≡◌, ◌↔◌, IsTrue, ◌+◌, ◌<◌, ◌≤◌, IfSome, IfNone};
ghost use Rattle.lb_model_paper.specs.Breaks.{count_of, items_in};
ghost use Rattle.lb_measure.specs.Counts.{count_of_disc};

use lb_base::{Discretionary, Node};

/// The most items that a paragraph has, those in the parts of its discretionaries counted.
const MOST: usize = 65_536;

/// Whether a list has at most 65,536 items, those in the parts of its discretionaries counted.
pub fn has_few_items(list: &[Node]) -> bool
    ensures { IsTrue result ↔ (items_in list.now ≤ 65536) }
{
    left_behind(MOST, list).is_some()
}

/// What is left of a number where each item takes one, or nothing where they want more.
#[cycle(counting)]
fn left_behind(number: usize, nodes: &[Node]) -> Option<usize>
    ensures enough { IfSome result (λ left. left + items_in nodes.now ≡ number) }
    ensures short { IfNone result (number < items_in nodes.now) }
{
    let mut left = number;
    for node in nodes {
        left = left_behind_one(left, node)?;
    }
    Some(left)
}

#[cycle(counting)]
fn left_behind_one(number: usize, node: &Node) -> Option<usize>
    ensures enough { IfSome result (λ left. left + count_of node.now ≡ number) }
    ensures short { IfNone result (number < count_of node.now) }
{
    if number == 0 {
        return None;
    }
    match node {
        Node::Disc(parts) => left_behind_parts(number - 1, parts.get()),
        _ => Some(number - 1),
    }
}

#[cycle(counting)]
fn left_behind_parts(number: usize, parts: &Discretionary) -> Option<usize>
    ensures enough { IfSome result (λ left. left + count_of_disc parts.now ≡ number) }
    ensures short { IfNone result (number < count_of_disc parts.now) }
{
    let left = left_behind(number, parts.pre_break.as_slice())?;
    let left = left_behind(left, parts.post_break.as_slice())?;
    left_behind(left, parts.no_break.as_slice())
}
