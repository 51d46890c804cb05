//! The size of the box of a list, and how its glue is set. Lengths are in scaled points.
ghost use Rattle.std.specs.Prelude.{◌≡◌, ◌↔◌, IsTrue, List, ◌-ℤ◌, IfSome, OnSome, IfNone};
ghost use Rattle.lb_model_paper.specs.Boxes.{asked, asked_size, box_size, give_of, IsSmallBox, used_order};
ghost use Rattle.lb_model_paper.specs.Dvi.{IsSmall};
ghost use Rattle.lb_model_paper.specs.Nodes.{total};
ghost use Rattle.lb_nodes.specs.Bounds.{IsSumOfThree};
ghost use Rattle.lb_nodes.specs.Totals.{AreSmallAmounts, AreSmallLengths, AreSmallReaches, AreSmallTotals, AreTotals, natural_in};
ghost use Rattle.lb_nodes.specs.Packing.{IsPlan, IsSizeOf};

use crate::measure::measure;
use crate::setting::are_small_shifts;
use crate::sizes::Size;
use crate::small::{are_both_small, is_small};
use crate::totals::Totals;
use lb_base::{Axis, GlueSet, Node, Order, Target};

#[derive(Clone, Copy)]
pub struct Plan {
    pub size: Size,
    pub glue_set: GlueSet,
}

/// The size of a box along its list, and the excess that its glue has to take up.
#[derive(Clone, Copy)]
struct Lengths {
    along: i32,
    excess: i32,
}

/// The size that a box is to have along its list, whose natural size is given.
fn asked(target: Target, natural: i64) -> i64
    requires { IsSmall natural }
    ensures asked { result ≡ asked target natural }
    ensures bounded { IsSumOfThree result }
{
    match target {
        Target::Natural => natural,
        Target::To(size) => i64::from(size),
        Target::Spread(more) => natural + i64::from(more),
    }
}

/// How the glue is set: the order used is the highest whose total is not 0.
fn glue_set(totals: &Totals, excess: i32) -> GlueSet
    ensures { (axis : Axis) (nodes : List Node) → AreTotals axis nodes totals.now
        → result ≡ record { excess = excess; order = used_order excess nodes } }
{
    let order = used_order(totals, excess);
    GlueSet { excess, order }
}

fn used_order(totals: &Totals, excess: i32) -> Order
    ensures { (axis : Axis) (nodes : List Node) → AreTotals axis nodes totals.now
        → result ≡ used_order excess nodes }
{
    if excess == 0 {
        Order::Finite
    } else if excess < 0 {
        totals.shrink.highest()
    } else {
        totals.stretch.highest()
    }
}

/// What all nodes have to give.
fn whole(totals: &Totals, set: GlueSet) -> i32
    requires stretch { AreSmallAmounts totals.now.stretch }
    requires shrink { AreSmallAmounts totals.now.shrink }
    ensures { (axis : Axis) (nodes : List Node) → AreTotals axis nodes totals.now
        → result ≡ total (give_of set) nodes }
{
    if set.excess < 0 {
        totals.shrink.amount(set.order) as i32
    } else {
        totals.stretch.amount(set.order) as i32
    }
}

/// Whether the size across the list is below 2^30 in size.
fn is_small_across(totals: &Totals, axis: Axis) -> bool
    ensures { IsTrue result ↔ AreSmallReaches axis totals.now }
{
    match axis {
        Axis::Horizontal => are_both_small(totals.up, totals.down),
        Axis::Vertical => is_small(totals.right),
    }
}

/// The size of the box along its list and the excess. None exactly where one of them, or a reach
/// across the list, is 2^30 scaled points or more in size.
fn lengths_of(totals: &Totals, axis: Axis, target: Target) -> Option<Lengths>
    requires { AreSmallTotals axis totals.now }
    ensures along { IfSome result (λ l. l.along ≡ asked target (natural_in axis totals.now)) }
    ensures excess { IfSome result (λ l. l.excess ≡ asked target (natural_in axis totals.now) -ℤ natural_in axis totals.now) }
    ensures small { OnSome result (AreSmallLengths axis totals.now target) }
    ensures large { IfNone result (AreSmallLengths axis totals.now target → ⊥) }
{
    let natural = totals.natural(axis);
    let along = asked(target, natural);
    let excess = along - natural;
    if !are_both_small(along, excess) {
        return None;
    }
    if !is_small_across(totals, axis) {
        return None;
    }
    Some(Lengths {
        along: along as i32,
        excess: excess as i32,
    })
}

/// The plan for the box of a list. None exactly where a sum of the list or a length of the box is
/// 2^30 scaled points or more in size.
pub fn plan_of(axis: Axis, nodes: &[Node], target: Target) -> Option<Plan>
    ensures plan { IfSome result (IsPlan axis nodes.now target) }
    ensures small { OnSome result (IsSmallBox axis nodes.now target) }
    ensures large { IfNone result (IsSmallBox axis nodes.now target → ⊥) }
{
    let totals = measure(axis, nodes)?;
    let lengths = lengths_of(&totals, axis, target)?;
    let glue_set = glue_set(&totals, lengths.excess);
    let whole = whole(&totals, glue_set);
    if !are_small_shifts(glue_set, nodes, whole) {
        return None;
    }
    let size = box_size(&totals, axis, lengths.along);
    Some(Plan { size, glue_set })
}

/// The size of a box that has this one along its list.
fn box_size(totals: &Totals, axis: Axis, along: i32) -> Size
    requires { AreSmallReaches axis totals.now }
    ensures { (nodes : List Node) (target : Target) → AreTotals axis nodes totals.now
        → along ≡ asked_size axis nodes target → IsSizeOf result (box_size axis nodes target) }
{
    match axis {
        Axis::Horizontal => Size {
            width: along,
            height: totals.up as i32,
            depth: totals.down as i32,
        },
        Axis::Vertical => Size {
            width: totals.right as i32,
            height: along,
            depth: totals.hanging,
        },
    }
}
