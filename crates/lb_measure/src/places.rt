//! The breaks of a list, and the sums up to each of them.
ghost use Rattle.std.specs.Prelude.{◌≡◌, ◌+◌, ◌<◌, ◌≤◌, length, take, IfOk, slice_get, true};
ghost use Rattle.lb_base.specs.declared.node.Discretionary.{out-Discretionary};
ghost use Rattle.lb_model_paper.specs.Breaks.{is_disc_at, is_solid_before, is_some_glue, items_in, penalty_at, post_at, pre_at, sums_of};
ghost use Rattle.lb_model_paper.specs.Nodes.{shown};
ghost use Rattle.lb_measure.specs.Amounts.{AreNear};
ghost use Rattle.lb_measure.specs.Measures.{ArePlaces, IsPlace, blank};

use crate::amounts::nothing;
use crate::breaks::{break_penalty, is_discardable, is_glue};
use crate::summing::{Summing, shown_sums};
use lb_base::{Discretionary, Node};
use lb_model_paper::paragraph::{BreakRules, LineSums};
use std::alloc::{AllocError, Global};

/// A break: the sums of the items before and at it, of what stands at the end of a line to it and at
/// the beginning of a line from it, and its penalty where it is a legal one.
#[derive(Clone, Copy)]
pub struct Place {
    pub sums: LineSums,
    pub pre: LineSums,
    pub post: LineSums,
    pub penalty: Option<i32>,
    pub is_disc: bool,
}

/// The start of a paragraph.
fn start() -> Place
    ensures { result ≡ blank }
{
    Place {
        sums: nothing(),
        pre: nothing(),
        post: nothing(),
        penalty: None,
        is_disc: false,
    }
}

/// Each break of a list by its number.
pub fn places(alloc: Global, rules: &BreakRules, list: &[Node]) -> Result<Vec<Place>, AllocError>
    requires { items_in list.now ≤ 65536 }
    ensures long { IfOk result (λ places. length places.items ≡ length list.now + 1) }
    ensures places { IfOk result (λ places. ArePlaces rules.now list.now places.items (length list.now + 1)) }
{
    let mut places = Vec::with_capacity(alloc, list.len() + 1)?;
    places.push(start())?;
    let mut summing = Summing::of_nothing();
    for k in 0..list.len() {
        summing.add(&list[k]);
        places.push(place_of(rules, list, k, &summing.sums))?;
    }
    Ok(places)
}

/// The break at an item, where these are the sums up to it.
fn place_of(rules: &BreakRules, list: &[Node], k: usize, sums: &LineSums) -> Place
    requires within { k < length list.now }
    requires few { items_in list.now ≤ 65536 }
    requires sums { sums.now ≡ sums_of (shown (take (k + 1) list.now)) }
    requires near { AreNear 65536 sums.now }
    ensures { IsPlace rules.now list.now (k + 1) result }
{
    let penalty = penalty_at(rules, list, k);
    match &list[k] {
        Node::Disc(parts) => disc_place(parts.get(), *sums, penalty),
        _ => Place {
            sums: *sums,
            pre: nothing(),
            post: nothing(),
            penalty,
            is_disc: false,
        },
    }
}

/// The break at a discretionary.
fn disc_place(parts: &Discretionary, sums: LineSums, penalty: Option<i32>) -> Place
    requires pre { items_in (out-Discretionary parts.now).pre_break ≤ 65536 }
    requires post { items_in (out-Discretionary parts.now).post_break ≤ 65536 }
    ensures sums { result.sums ≡ sums }
    ensures pre { result.pre ≡ sums_of (shown (out-Discretionary parts.now).pre_break) }
    ensures post { result.post ≡ sums_of (shown (out-Discretionary parts.now).post_break) }
    ensures penalty { result.penalty ≡ penalty }
    ensures disc { result.is_disc ≡ true }
    ensures near_pre { AreNear 65536 result.pre }
    ensures near_post { AreNear 65536 result.post }
{
    Place {
        sums,
        pre: shown_sums(parts.pre_break.as_slice()),
        post: shown_sums(parts.post_break.as_slice()),
        penalty,
        is_disc: true,
    }
}

/// The penalty of the break at an item, or nothing where it is no legal one.
fn penalty_at(rules: &BreakRules, list: &[Node], k: usize) -> Option<i32>
    requires { k < length list.now }
    ensures { result ≡ penalty_at rules.now list.now (k + 1) }
{
    let solid = is_solid_before(list, k);
    let glue = is_glue_at(list, k + 1);
    break_penalty(rules, solid, glue, &list[k])
}

/// Whether an item stands before another and is no discardable.
fn is_solid_before(list: &[Node], k: usize) -> bool
    requires { k ≤ length list.now }
    ensures { result ≡ is_solid_before list.now k }
{
    k > 0 && !is_discardable(&list[k - 1])
}

fn is_glue_at(list: &[Node], k: usize) -> bool
    ensures { result ≡ is_some_glue (slice_get list.now k) }
{
    match list.get(k) {
        Some(node) => is_glue(node),
        None => false,
    }
}
