//! What stands on a page so far. Lengths are in scaled points.
ghost use Rattle.std.specs.Prelude.{◌≡◌, ◌||◌, not};
ghost use Rattle.lb_model_paper.specs.Pages.{top_width};
ghost use Rattle.lb_page.specs.Bounds.{IsWidth};

use crate::kinds::{is_box_or_rule, is_discardable};
use crate::sums::Sums;
use lb_base::Node;
use lb_model_paper::pages::PageRules;
use lb_nodes::sizes::size_of;

/// Whether something stands on the page, whether the last item is no discardable, how wide the glue
/// before the first box or rule is, once there is one, and the sums.
#[derive(Clone, Copy)]
pub struct SoFar {
    pub begun: bool,
    pub firm: bool,
    pub top: Option<i32>,
    pub sums: Sums,
}

impl SoFar {
    ghost use Rattle.std.specs.Prelude.{List, [], ◌∷◌, ◌++◌, true};
    ghost use Rattle.std.specs.Bool.{OnTrue};
    ghost use Rattle.lb_base.specs.declared.node.Node.{Node as TheNode};
    ghost use Rattle.lb_model_paper.specs.Boxes.{fronts_pass};
    ghost use Rattle.lb_model_paper.specs.Pages.{are_small_on_page, are_small_totals, with_top_glue};
    ghost use Rattle.lb_page.specs.Sums.{AreReadyBy, AreSums};
    ghost use Rattle.lb_page.specs.SoFar.{IsOpened, IsSoFar, first_width, opened};

    /// An empty page.
    pub fn nothing() -> SoFar
        ensures so_far { (rules : PageRules) → IsSoFar rules [] result }
        ensures ready { (rules : PageRules) → AreReadyBy rules result.sums }
    {
        SoFar {
            begun: false,
            firm: false,
            top: None,
            sums: Sums::of_nothing(),
        }
    }

    /// Puts a node on the page, and answers whether all sums are small up to there. A discardable at
    /// the top goes, and before the first box or rule stands glue.
    pub fn add(&mut self, rules: &PageRules, node: &Node) -> bool
        requires { AreReadyBy rules.now self.old.sums }
        ensures so_far { OnTrue result ((front : List TheNode) → IsSoFar rules.now front self.old
            → IsSoFar rules.now (front ++ node.now ∷ []) self.new) }
        ensures small { (front : List TheNode) → IsSoFar rules.now front self.old
            → are_small_on_page rules.now front ≡ true
            → result ≡ are_small_on_page rules.now (front ++ node.now ∷ []) }
        ensures ready { OnTrue result (AreReadyBy rules.now self.new.sums) }
    {
        let discardable = is_discardable(node);
        self.firm = !discardable;
        if goes_at_top(self.begun, discardable) {
            return true;
        }
        self.begun = true;
        if !self.open(rules, node) {
            return false;
        }
        self.sums.put(node);
        self.sums.are_small(rules)
    }

    /// Puts the glue before the first box or rule on the page, where a node is that, and answers whether
    /// all sums are small.
    fn open(&mut self, rules: &PageRules, node: &Node) -> bool
        requires { AreReadyBy rules.now self.old.sums }
        ensures begun { self.new.begun ≡ self.old.begun }
        ensures firm { self.new.firm ≡ self.old.firm }
        ensures opened { OnTrue result ((nodes : List TheNode) → self.old.top ≡ first_width rules.now nodes
            → AreSums (with_top_glue rules.now nodes) self.old.sums → IsOpened rules.now nodes node.now self.new) }
        ensures small { (nodes : List TheNode) → self.old.top ≡ first_width rules.now nodes
            → AreSums (with_top_glue rules.now nodes) self.old.sums
            → fronts_pass (are_small_totals rules.now) (with_top_glue rules.now nodes) ≡ true
            → result ≡ fronts_pass (are_small_totals rules.now) (opened rules.now nodes node.now) }
        ensures ready { OnTrue result (AreReadyBy rules.now self.new.sums) }
    {
        if self.top.is_some() {
            return true;
        }
        if !is_box_or_rule(node) {
            return true;
        }
        let width = top_width(rules, node);
        self.sums.put_top(width, rules.topskip);
        if !self.sums.are_small(rules) {
            return false;
        }
        self.top = Some(width as i32);
        true
    }
}

/// Whether a node goes: nothing stands on the page before it, and it is a discardable.
pub fn goes_at_top(begun: bool, discardable: bool) -> bool
    ensures { result ≡ not (begun || not discardable) }
{
    !begun && discardable
}

/// How wide the glue before the first box or rule is.
fn top_width(rules: &PageRules, node: &Node) -> i64
    ensures width { result ≡ top_width rules.now node.now }
    ensures bounded { IsWidth result }
{
    (i64::from(rules.topskip.width) - i64::from(size_of(node).height)).max(0)
}
