//! The totals of a list in one pass over it.
ghost use Rattle.std.specs.Prelude.{IfSome, OnSome, IfNone};
ghost use Rattle.lb_model_paper.specs.Boxes.{AreSmallSums};
ghost use Rattle.lb_nodes.specs.Totals.{AreSmallTotals, AreTotals};

use crate::totals::Totals;
use lb_base::{Axis, Node};

/// The totals of a list. None exactly where, over its first items for some number of them, the
/// natural size or the stretch or shrink of an order is 2^30 scaled points or more in size.
pub fn measure(axis: Axis, nodes: &[Node]) -> Option<Totals>
    ensures totals { IfSome result (AreTotals axis nodes.now) }
    ensures small { IfSome result (AreSmallTotals axis) }
    ensures sums { OnSome result (AreSmallSums axis nodes.now) }
    ensures large { IfNone result (AreSmallSums axis nodes.now → ⊥) }
{
    let mut totals = Totals::of_nothing();
    for node in nodes {
        totals.add(axis, node);
        if !totals.are_small(axis) {
            return None;
        }
    }
    Some(totals)
}
