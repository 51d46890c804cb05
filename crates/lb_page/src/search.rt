//! The search for the place at which a page ends.
ghost use Rattle.std.specs.Prelude.{◌≡◌, option_map};
ghost use Rattle.lb_model_paper.specs.Dvi.{IsSmall};
ghost use Rattle.lb_model_paper.specs.Pages.{hangs};
ghost use Rattle.lb_page.specs.Places.{closing_width};
ghost use Rattle.lb_page.specs.Searches.{state_of};

use crate::best::{Cut, better, ends_in};
use crate::places::penalty_of;
use crate::so_far::SoFar;
use crate::sums::Sums;
use lb_base::Node;
use lb_model_paper::pages::PageRules;

/// Whether the search goes on, has met the place that ends it, or a sum that is too large.
#[derive(Clone, Copy)]
pub enum State {
    Going,
    Ended,
    TooLarge,
}

/// A search by some rules that has judged so many items, what stands on the page before the next one,
/// and the best place so far.
#[derive(Clone, Copy)]
pub struct Search {
    pub rules: PageRules,
    pub at: usize,
    pub so_far: SoFar,
    pub best: Option<Cut>,
    pub state: State,
}

impl Search {
    ghost use Rattle.std.specs.Prelude.{◌+◌, ◌<◌, ◌^◌, ℕ, List, Option, None, Some, slice_get, take, length};
    ghost use Rattle.lb_base.specs.declared.node.Node.{Node as TheNode};
    ghost use Rattle.lb_model_paper.specs.Pages.{is_glue, penalty_at, penalty_of as the_penalty_of};
    ghost use Rattle.lb_page.specs.Places.{IsPlace};
    ghost use Rattle.lb_page.specs.Searches.{IsGoing, IsJudged, IsNext, IsReady};

    /// A search that has judged nothing.
    pub fn by(rules: PageRules) -> Search
        ensures search { (nodes : List TheNode) → IsJudged nodes result }
        ensures ready { IsReady result }
        ensures at { result.at ≡ 0 }
        ensures rules { result.rules ≡ rules }
    {
        Search {
            rules,
            at: 0,
            so_far: SoFar::nothing(),
            best: None,
            state: State::Going,
        }
    }

    /// Judges the next item.
    pub fn step(&mut self, node: &Node, before_glue: bool)
        requires ready { IsReady self.old }
        requires going { self.old.state ≡ State.Going }
        requires room { self.old.at + 1 < 2 ^ 64 }
        ensures search { (nodes : List TheNode) → IsGoing nodes self.old
            → IsNext nodes self.old.at node.now before_glue → IsJudged nodes self.new }
        ensures ready { IsReady self.new }
        ensures rules { self.new.rules ≡ self.old.rules }
        ensures at { self.new.at ≡ self.old.at + 1 }
    {
        let place = self.place(node, before_glue);
        self.best = better(self.best, place);
        let is_small = self.so_far.add(&self.rules, node);
        self.at += 1;
        self.state = state_of(is_small, ends_in(place));
    }

    /// The place at the next item, if it is one.
    fn place(&self, node: &Node, before_glue: bool) -> Option<Cut>
        requires ready { IsReady self.now }
        requires going { self.now.state ≡ State.Going }
        ensures { (nodes : List TheNode) → IsGoing nodes self.now
            → IsNext nodes self.now.at node.now before_glue → IsPlace self.now.rules nodes self.now.at result }
    {
        let (begun, firm) = (self.so_far.begun, self.so_far.firm);
        let Some(penalty) = penalty_of(begun, firm, node, before_glue) else {
            return None;
        };
        Some(Cut {
            at: self.at,
            cost: self.so_far.sums.cost(&self.rules, penalty),
            top: self.so_far.top,
            closing: closing_of(&self.so_far.sums, &self.rules),
            goal: self.so_far.sums.goal(&self.rules),
        })
    }
}

/// The width of the kern that takes back what hangs below a page.
fn closing_of(sums: &Sums, rules: &PageRules) -> Option<i32>
    requires { IsSmall (hangs rules.now sums.now.hanging) }
    ensures { result ≡ option_map (closing_width rules.now) sums.now.hanging }
{
    match sums.hanging {
        Some(depth) => Some(-depth.min(rules.maxdepth)),
        None => None,
    }
}

/// A sum that is too large comes first.
fn state_of(is_small: bool, ends: bool) -> State
    ensures { result ≡ state_of is_small ends }
{
    if !is_small {
        State::TooLarge
    } else if ends {
        State::Ended
    } else {
        State::Going
    }
}
