//! Where the page ends that begins at some node of a queue.
ghost use Rattle.std.specs.Prelude.{◌≡◌, ◌≤◌, ◌<◌, ◌+◌, ◌^◌, ◌++◌, List, Some, drop, length, slice_get, IfSome, IfNone, IsTrue, ◌↔◌, true};
ghost use Rattle.lb_base.specs.declared.node.Node.{Node as TheNode};
ghost use Rattle.lb_model_paper.specs.Pages.{are_small_on_page};
ghost use Rattle.lb_page.specs.Ends.{IsEnd};
ghost use Rattle.lb_page.specs.Searches.{IsDone, IsGoing, IsLast, IsNext, IsReady, IsRight};
ghost use Rattle.lb_page.specs.declared.search.State.{State};

use crate::best::Cut;
use crate::places::{is_glue, waits};
use crate::search::{Search, State};
use lb_base::{Kind, Node, Stop};
use std::collections::VecDeque;

/// A node of a queue.
pub fn node_at(nodes: &VecDeque<Node>, at: usize) -> Option<&Node>
    ensures item { IfSome result (λ node. slice_get nodes.now.items at ≡ Some node.now) }
    ensures none { IfNone result (length nodes.now.items ≤ at) }
{
    nodes.get(at)
}

/// An item of the page and whether glue stands behind it. None where there is no such item, or where
/// that is not known yet and the item waits for it.
fn next_of(nodes: &VecDeque<Node>, start: usize, at: usize) -> Option<(&Node, bool)>
    requires room { start + at + 1 < 2 ^ 64 }
    ensures next { IfSome result (λ pair. (more : List TheNode)
        → IsNext (drop start nodes.now.items ++ more) at pair.0.now pair.1) }
    ensures last { IfNone result (IsLast (drop start nodes.now.items) at) }
{
    let Some(node) = node_at(nodes, start + at) else {
        return None;
    };
    let Some(next) = node_at(nodes, start + at + 1) else {
        return if waits(node) {
            None
        } else {
            Some((node, false))
        };
    };
    Some((node, is_glue(next)))
}

fn is_going(state: State) -> bool
    ensures { IsTrue result ↔ (state ≡ State.Going) }
{
    match state {
        State::Going => true,
        State::Ended => false,
        State::TooLarge => false,
    }
}

/// Judges all items that can be judged.
pub fn advance(search: &mut Search, nodes: &VecDeque<Node>, start: usize)
    requires start { start ≤ length nodes.now.items }
    requires ready { IsReady search.old }
    requires right { IsRight (drop start nodes.now.items) search.old }
    ensures ready { IsReady search.new }
    ensures right { IsRight (drop start nodes.now.items) search.new }
    ensures rules { search.new.rules ≡ search.old.rules }
    ensures done { IsDone (drop start nodes.now.items) search.new }
{
    'items: while is_going(search.state) {
        let Some((node, before_glue)) = next_of(nodes, start, search.at) else {
            return;
        };
        search.step(node, before_glue);
    }
}

/// Where the page ends, by a search that has come as far as it can.
pub fn end_by(search: &Search, nodes: &VecDeque<Node>, start: usize) -> Result<Option<Cut>, Stop>
    requires start { start ≤ length nodes.now.items }
    requires ready { IsReady search.now }
    requires right { IsRight (drop start nodes.now.items) search.now }
    requires done { IsDone (drop start nodes.now.items) search.now }
    ensures { IsEnd search.now.rules (drop start nodes.now.items) result }
{
    match search.state {
        State::TooLarge => Err(Stop::Fault(Kind::DimenTooLarge)),
        State::Ended => Ok(search.best),
        State::Going => {
            if !is_small_in_all(search, nodes, start) {
                return Err(Stop::Fault(Kind::DimenTooLarge));
            }
            Ok(None)
        }
    }
}

/// Whether the sums of all items are small, where no place has ended the search.
fn is_small_in_all(search: &Search, nodes: &VecDeque<Node>, start: usize) -> bool
    requires start { start ≤ length nodes.now.items }
    requires ready { IsReady search.now }
    requires going { search.now.state ≡ State.Going }
    requires right { IsRight (drop start nodes.now.items) search.now }
    requires last { IsLast (drop start nodes.now.items) search.now.at }
    ensures { result ≡ are_small_on_page search.now.rules (drop start nodes.now.items) }
{
    let Some(node) = node_at(nodes, start + search.at) else {
        return true;
    };
    let mut so_far = search.so_far;
    so_far.add(&search.rules, node)
}
