//! How far the glue of a list shifts what stands behind it. Lengths are in scaled points.
ghost use Rattle.std.specs.Prelude.{◌≡◌, ◌==◌, ◌↔◌, IsTrue};
ghost use Rattle.lb_model_paper.specs.Boxes.{give_of, is_overfull, shift_behind};
ghost use Rattle.lb_model_paper.specs.Dvi.{IsSmall};
ghost use Rattle.lb_model_paper.specs.Nodes.{place_of_order, total};
ghost use Rattle.lb_nodes.specs.Bounds.{IsLength, IsLongSum};
ghost use Rattle.lb_nodes.specs.Setting.{AreSmallShifts};

use crate::give::{give_of, plus};
use crate::rounding::share;
use lb_base::{GlueSet, Node, Order};

fn is_finite(order: Order) -> bool
    ensures { result ≡ (place_of_order order == 0) }
{
    matches!(order, Order::Finite)
}

/// Whether a box has to shrink by more than its finite shrink.
fn is_overfull(set: GlueSet, whole: i128) -> bool
    requires { IsLongSum whole }
    ensures { result ≡ is_overfull set whole }
{
    set.excess < 0 && (is_finite(set.order) && whole < -i128::from(set.excess))
}

/// How far the glue shifts what stands behind a part of it, where the whole gives so much: by the
/// excess in the ratio of the part to the whole, rounded once, halves away from 0. What is overfull
/// shrinks by all its shrink, and where there is nothing to give nothing is shifted (TeXbook,
/// chapter 12).
#[tactic(auto, unfolding(lb_model_paper::specs::Boxes::shift_behind))]
pub fn shift_behind(set: GlueSet, part: i128, whole: i128) -> i128
    requires part { IsLongSum part }
    requires whole { IsLongSum whole }
    ensures { result ≡ shift_behind set part whole }
{
    if whole == 0 {
        return 0;
    }
    if is_overfull(set, whole) {
        return -part;
    }
    share(part, set.excess, whole)
}

/// A length as 32 bits hold it, or the nearest that they hold.
pub fn held(length: i128) -> i32
    ensures { IsLength length → result ≡ length }
{
    length.clamp(-2_147_483_648, 2_147_483_647) as i32
}

fn is_small_shift(set: GlueSet, part: i128, whole: i128) -> bool
    requires part { IsLongSum part }
    requires whole { IsLongSum whole }
    ensures { IsTrue result ↔ IsSmall (shift_behind set part whole) }
{
    let shift = shift_behind(set, part, whole);
    -1_073_741_823 <= shift && shift <= 1_073_741_823
}

/// Whether the shifts behind the first nodes of a list, for each number of them, are below 2^30
/// scaled points in size.
pub fn are_small_shifts(set: GlueSet, nodes: &[Node], whole: i32) -> bool
    requires { whole ≡ total (give_of set) nodes.now }
    ensures { IsTrue result ↔ AreSmallShifts set nodes.now }
{
    if set.excess == 0 {
        return true;
    }
    if whole == 0 {
        return true;
    }
    let whole = i128::from(whole);
    let mut part = 0i128;
    for node in nodes {
        part = plus(part, give_of(set, node));
        if !is_small_shift(set, part, whole) {
            return false;
        }
    }
    true
}
