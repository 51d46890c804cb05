//! The best place of a page so far.
ghost use Rattle.std.specs.Prelude.{◌≡◌, ℕ, suc, List, option_map};
ghost use Rattle.lb_base.specs.declared.node.Node.{Node as TheNode};
ghost use Rattle.lb_model_paper.specs.Pages.{ends_in};
ghost use Rattle.lb_page.specs.Places.{IsBest, IsPlace, cost_of_cut};

use crate::costs::{costs_at_most, is_ending};
use lb_model_paper::pages::{Cost, PageRules};

/// A place, what it costs to end the page there, and what the page before it has: how wide the glue
/// before its first box or rule is, the kern that closes it, and its goal.
#[derive(Clone, Copy)]
pub struct Cut {
    pub at: usize,
    pub cost: Cost,
    pub top: Option<i32>,
    pub closing: Option<i32>,
    pub goal: i64,
}

/// Whether a place ends the search, if it is one.
pub fn ends_in(place: Option<Cut>) -> bool
    ensures { result ≡ ends_in (option_map cost_of_cut place) }
{
    match place {
        Some(cut) => is_ending(cut.cost),
        None => false,
    }
}

/// The better of the best place so far and a later one, which is taken where it costs no more.
pub fn better(best: Option<Cut>, place: Option<Cut>) -> Option<Cut>
    ensures { (rules : PageRules) (nodes : List TheNode) (n : ℕ) → IsBest rules nodes n best
        → IsPlace rules nodes n place → IsBest rules nodes (suc n) result }
{
    let Some(here) = place else {
        return best;
    };
    let Some(there) = best else {
        return place;
    };
    if costs_at_most(here.cost, there.cost) {
        return place;
    }
    best
}
