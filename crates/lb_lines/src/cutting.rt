//! A list cut into the items of its lines.
ghost use Rattle.std.specs.Prelude.{◌≡◌, ◌+◌, ◌<◌, ◌≤◌, ◌++◌, Option, List, length, take, drop, reverse, [], true, false, IfOk, OnOk};
ghost use Rattle.lb_base.specs.declared.node.Discretionary.{out-Discretionary};
ghost use Rattle.lb_base.specs.declared.node.Node.{Node};
ghost use Rattle.lb_model_paper.specs.Breaks.{is_there, parts_at_item, parts_of, post_at, post_in, pre_in, trimmed};
ghost use Rattle.lb_lines.specs.Cuts.{IsSkipped, IsTaken};

use lb_base::{Discretionary, Node, NodeList};
use lb_measure::is_discardable;
use lb_model_paper::paragraph::Shape;
use sqlite_items::Items;
use std::alloc::{AllocError, Global};

/// The items of a line, what stands at the beginning of the next one, and whether this one ends in a
/// discretionary.
#[derive(Drop)]
pub struct Taken {
    pub line: NodeList,
    pub post: NodeList,
    pub is_broken: bool,
}

/// What the item at a break leaves before and behind the break.
#[derive(Drop)]
struct End {
    pre: NodeList,
    post: NodeList,
    is_broken: bool,
}

/// Takes a line from a list that is turned round, of whose items so many are taken already, to an item
/// by its number. `post` stands at the beginning of the line.
pub fn take_line(
    alloc: Global,
    shape: &Shape,
    pending: &mut NodeList,
    post: NodeList,
    taken: usize,
    item: usize,
) -> Result<Taken, AllocError>
    requires { taken ≤ item }
    ensures { (nodes : List Node) → reverse pending.old ≡ drop taken nodes → post ≡ post_at nodes taken → item < length nodes → IfOk result (IsTaken shape.now nodes taken item pending.new) }
{
    let mut line = Items::new(alloc);
    line.push(Node::Glue(shape.left))?;
    line.append(post)?;
    let count = item - taken;
    let count = items_left(pending, taken, count)?;
    move_items(pending, &mut line, count)?;
    let end = end_of(alloc, pending.pop());
    line.append(end.pre)?;
    line.push(Node::Glue(shape.right))?;
    Ok(Taken {
        line,
        post: end.post,
        is_broken: end.is_broken,
    })
}

/// Takes the discardables from the start of a line of so many items, unless it is the first one, and
/// answers how many items are left.
fn items_left(pending: &mut NodeList, taken: usize, count: usize) -> Result<usize, AllocError>
    ensures { IfOk result (λ left. IsSkipped taken count (reverse pending.old) left (reverse pending.new)) }
{
    if taken == 0 {
        return Ok(count);
    }
    skip_discardables(pending, count)
}

/// Takes the discardables from the start of so many items of a list that is turned round, and answers
/// how many items are left.
fn skip_discardables(pending: &mut NodeList, count: usize) -> Result<usize, AllocError>
    ensures line { IfOk result (λ left. take left (reverse pending.new) ≡ trimmed (take count (reverse pending.old))) }
    ensures rest { IfOk result (λ left. drop left (reverse pending.new) ≡ drop count (reverse pending.old)) }
{
    let mut left = count;
    while left > 0 {
        let Some(node) = pending.pop() else {
            return Ok(0);
        };
        if !is_discardable(&node) {
            pending.push(node)?;
            return Ok(left);
        }
        left -= 1;
    }
    Ok(0)
}

/// Moves so many items of a list that is turned round to the end of a line.
fn move_items(pending: &mut NodeList, line: &mut NodeList, count: usize) -> Result<(), AllocError>
    ensures line { OnOk result (line.new ≡ line.old ++ take count (reverse pending.old)) }
    ensures rest { OnOk result (reverse pending.new ≡ drop count (reverse pending.old)) }
{
    let mut left = count;
    while left > 0 {
        let Some(node) = pending.pop() else {
            return Ok(());
        };
        line.push(node)?;
        left -= 1;
    }
    Ok(())
}

/// What the item at a break leaves.
fn end_of(alloc: Global, item: Option<Node>) -> End
    ensures pre { result.pre ≡ pre_in (parts_at_item item) }
    ensures post { result.post ≡ post_in (parts_at_item item) }
    ensures broken { result.is_broken ≡ is_there (parts_at_item item) }
{
    match item {
        Some(node) => end_of_node(alloc, node),
        None => no_end(alloc),
    }
}

fn end_of_node(alloc: Global, node: Node) -> End
    ensures pre { result.pre ≡ pre_in (parts_of node) }
    ensures post { result.post ≡ post_in (parts_of node) }
    ensures broken { result.is_broken ≡ is_there (parts_of node) }
{
    match node {
        Node::Disc(parts) => end_of_disc(parts.into_inner()),
        _ => no_end(alloc),
    }
}

/// Nothing.
fn no_end(alloc: Global) -> End
    ensures pre { result.pre ≡ [] }
    ensures post { result.post ≡ [] }
    ensures broken { result.is_broken ≡ false }
{
    End {
        pre: Items::new(alloc),
        post: Items::new(alloc),
        is_broken: false,
    }
}

fn end_of_disc(parts: Discretionary) -> End
    ensures pre { result.pre ≡ (out-Discretionary parts).pre_break }
    ensures post { result.post ≡ (out-Discretionary parts).post_break }
    ensures broken { result.is_broken ≡ true }
{
    let Discretionary {
        pre_break,
        post_break,
        no_break: _no_break,
    } = parts;
    End {
        pre: pre_break,
        post: post_break,
        is_broken: true,
    }
}
