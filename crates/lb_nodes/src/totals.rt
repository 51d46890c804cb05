//! The totals of a list, summed up node by node. Lengths are in scaled points.
ghost use Rattle.lb_nodes.specs.Bounds.{IsSumOfFive};

use crate::by_order::ByOrder;
use crate::sizes::{along, depth_past, glue_of, reach_down, reach_right, reach_up};
use crate::small::is_small;
use lb_base::{Axis, Node};

/// The room that all nodes take along the list, what hangs below a vertical one, the largest
/// reaches, and the stretch and the shrink by their orders.
#[derive(Clone, Copy)]
pub struct Totals {
    pub room: i64,
    pub hanging: i32,
    pub up: i64,
    pub down: i64,
    pub right: i64,
    pub stretch: ByOrder,
    pub shrink: ByOrder,
    ghost near: { IsSumOfFive room },
}

impl Totals {
    ghost use Rattle.std.specs.Prelude.{◌≡◌, ◌↔◌, IsTrue, List, [], ◌∷◌, ◌++◌};
    ghost use Rattle.lb_nodes.specs.Totals.{AreSmallTotals, AreTotals, natural_in};

    /// The totals of an empty list.
    pub fn of_nothing() -> Totals
        ensures { (axis : Axis) → AreTotals axis [] result × AreSmallTotals axis result }
    {
        Totals {
            room: 0,
            hanging: 0,
            up: 0,
            down: 0,
            right: 0,
            stretch: ByOrder::nothing(),
            shrink: ByOrder::nothing(),
        }
    }

    /// The totals with one node more behind the list.
    pub fn add(&mut self, axis: Axis, node: &Node)
        requires { AreSmallTotals axis self.old }
        ensures { (before : List Node) → AreTotals axis before self.old
            → AreTotals axis (before ++ node.now ∷ []) self.new }
    {
        self.room += along(axis, node);
        self.hanging = depth_past(self.hanging, node);
        self.up = self.up.max(reach_up(node));
        self.down = self.down.max(reach_down(node));
        self.right = self.right.max(reach_right(node));
        let glue = glue_of(node);
        self.stretch.add(glue.stretch_order, glue.stretch);
        self.shrink.add(glue.shrink_order, glue.shrink);
    }

    /// The natural size of the list. What hangs below a vertical one is left out.
    pub fn natural(&self, axis: Axis) -> i64
        ensures { result ≡ natural_in axis self.now }
    {
        match axis {
            Axis::Horizontal => self.room,
            Axis::Vertical => self.room - i64::from(self.hanging),
        }
    }

    /// Whether the natural size and each stretch and shrink are below 2^30 in size.
    pub fn are_small(&self, axis: Axis) -> bool
        ensures { IsTrue result ↔ AreSmallTotals axis self.now }
    {
        is_small(self.natural(axis)) && self.stretch.are_small() && self.shrink.are_small()
    }
}
