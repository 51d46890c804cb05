//! What it costs to end a page at a place.
ghost use Rattle.std.specs.Prelude.{◌≡◌, ◌<ℤ◌, ◌≤ℤ◌, int_lt, if◌then◌else◌, pos, None, Some, IfSome};
ghost use Rattle.lb_base.specs.Badness.{badness_of};
ghost use Rattle.lb_model_paper.specs.Pages.{badness_to, cost_by, costs_at_most, is_ending};
ghost use Rattle.lb_page.specs.Bounds.{IsBadness, IsFar};
ghost use Rattle.lb_page.specs.Sums.{amount_in, AreSmallAmounts};

use crate::amounts::Amounts;
use lb_base::badness;
use lb_model_paper::pages::Cost;

/// A penalty of this or less forces a page to end.
const FORCED: i32 = -10_000;

/// What a page as bad as can be costs.
const DEPLORABLE: i32 = 100_000;

/// How badly a page fits that has to take up an excess. None where it is overfull: it has to shrink
/// by more than it can.
pub fn badness_to(excess: i64, stretch: &Amounts, shrink: &Amounts) -> Option<i32>
    requires near { IsFar excess }
    requires shrink { AreSmallAmounts shrink.now }
    ensures badness { result ≡ badness_to excess (amount_in stretch.now) (amount_in shrink.now) }
    ensures bounded { IfSome result IsBadness }
{
    if excess < 0 {
        return badness_of_shrinking(-excess, shrink.in_all());
    }
    if stretch.is_infinite() {
        return Some(0);
    }
    Some(badness(excess, stretch.finite))
}

/// How badly a page fits that has to shrink by so much and can by so much. None where it is overfull.
fn badness_of_shrinking(by: i64, shrink: i64) -> Option<i32>
    requires { pos 0 ≤ℤ by }
    ensures badness { result ≡ (if int_lt shrink by then None else Some (pos (badness_of by shrink))) }
    ensures bounded { IfSome result IsBadness }
{
    if shrink < by {
        return None;
    }
    Some(badness(by, shrink))
}

/// What it costs to end a page that fits so badly at a place with this penalty. A page without a
/// badness is overfull.
#[tactic(auto, unfolding(lb_model_paper::specs::Pages::cost_by))]
pub fn cost_by(penalty: i32, badness: Option<i32>) -> Cost
    requires penalty { penalty <ℤ pos 10000 }
    requires badness { IfSome badness IsBadness }
    ensures { result ≡ cost_by penalty badness }
{
    let Some(badness) = badness else {
        return Cost::Awful;
    };
    if penalty <= FORCED {
        return Cost::Number(penalty);
    }
    if badness < 10_000 {
        return Cost::Number(badness + penalty);
    }
    Cost::Number(DEPLORABLE)
}

/// Whether one cost is at most another.
pub fn costs_at_most(cost: Cost, other: Cost) -> bool
    ensures { result ≡ costs_at_most cost other }
{
    match (cost, other) {
        (_, Cost::Awful) => true,
        (Cost::Awful, Cost::Number(_)) => false,
        (Cost::Number(cost), Cost::Number(other)) => cost <= other,
    }
}

/// Whether a place of this cost ends the search: an awful one or a forced one.
pub fn is_ending(cost: Cost) -> bool
    ensures { result ≡ is_ending cost }
{
    match cost {
        Cost::Awful => true,
        Cost::Number(cost) => cost <= FORCED,
    }
}
