//! The sums of what stands on a page, summed up node by node. Lengths are in scaled points.
ghost use Rattle.std.specs.Prelude.{◌≡◌, ◌&&◌, if◌then◌else◌, pos, Some, IfSome};
ghost use Rattle.std.specs.Bool.{OnTrue};
ghost use Rattle.lb_model_paper.specs.Dvi.{IsSmall, is_small};
ghost use Rattle.lb_model_paper.specs.Nodes.{size_of};
ghost use Rattle.lb_model_paper.specs.Pages.{is_block};
ghost use Rattle.lb_page.specs.Bounds.{IsBadness, IsNear, IsWidth};

use crate::amounts::{Amounts, is_small};
use crate::costs::{badness_to, cost_by};
use crate::kinds::{foot_size, is_box_or_rule, is_footnote};
use lb_base::{Axis, Glue, Node};
use lb_model_paper::pages::{Cost, PageRules};
use lb_nodes::sizes::{along, glue_of, reach_right, size_of};

/// What stands between a page and its footnotes: 9pt.
const FEET_SKIP: i64 = 589_824;

/// The room of all items, the depth of the last box or rule, the largest reach to the right, the
/// stretch and the shrink by their orders, and whether there are footnotes, with their heights and
/// depths.
#[derive(Clone, Copy)]
pub struct Sums {
    pub room: i64,
    pub hanging: Option<i32>,
    pub right: i64,
    pub stretch: Amounts,
    pub shrink: Amounts,
    pub has_foot: bool,
    pub feet_size: i64,
    ghost near: { IsNear room },
}

impl Sums {
    ghost use Rattle.std.specs.Prelude.{List, [], ◌∷◌, ◌++◌, ◌<ℤ◌, ◌+ℤ◌, ◌-ℤ◌};
    ghost use Rattle.lb_model_paper.specs.Pages.{hangs, top_glue, top_width};
    ghost use Rattle.lb_page.specs.Sums.{AreReady, AreReadyBy, AreReadyLengths, AreSums, badness_in, cost_in, goal_in, small_lengths, small_sums};

    /// The sums of an empty page.
    pub fn of_nothing() -> Sums
        ensures sums { AreSums [] result }
        ensures ready { AreReady result }
    {
        Sums {
            room: 0,
            hanging: None,
            right: 0,
            stretch: Amounts::nothing(),
            shrink: Amounts::nothing(),
            has_foot: false,
            feet_size: 0,
        }
    }

    /// The sums with one node more on the page.
    pub fn put(&mut self, node: &Node)
        requires { AreReady self.old }
        ensures { (page : List Node) → AreSums page self.old → AreSums (page ++ node.now ∷ []) self.new }
    {
        self.room += along(Axis::Vertical, node);
        self.hanging = depth_after(self.hanging, node);
        self.right = self.right.max(reach_right(node));
        let glue = glue_of(node);
        self.stretch.add(glue.stretch_order, glue.stretch);
        self.shrink.add(glue.shrink_order, glue.shrink);
        self.has_foot = self.has_foot || is_footnote(node);
        self.feet_size += foot_size(node);
    }

    /// The sums with the glue before the first box or rule, which is so wide.
    pub fn put_top(&mut self, width: i64, topskip: Glue)
        requires ready { AreReady self.old }
        requires wide { IsWidth width }
        ensures room { self.new.room ≡ self.old.room +ℤ width }
        ensures hanging { self.new.hanging ≡ self.old.hanging }
        ensures sums { (page : List Node) (rules : PageRules) (node : Node) → AreSums page self.old
            → topskip ≡ rules.topskip → width ≡ top_width rules node
            → AreSums (page ++ top_glue rules node ∷ []) self.new }
    {
        self.room += width;
        self.stretch.add(topskip.stretch_order, topskip.stretch);
        self.shrink.add(topskip.shrink_order, topskip.shrink);
    }

    /// How far the last box or rule hangs below the bottom of the page.
    pub fn hangs(&self, rules: &PageRules) -> i32
        ensures { result ≡ hangs rules.now self.now.hanging }
    {
        match self.hanging {
            Some(depth) => depth.min(rules.maxdepth),
            None => 0,
        }
    }

    /// The height that the page is to be set to: `\textheight`, less the footnotes and 9pt where there
    /// are any.
    pub fn goal(&self, rules: &PageRules) -> i64
        requires { AreReadyLengths self.now }
        ensures goal { result ≡ goal_in rules.now self.now }
        ensures bounded { IsNear result }
    {
        if self.has_foot {
            return i64::from(rules.textheight) - (FEET_SKIP + self.feet_size);
        }
        i64::from(rules.textheight)
    }

    /// What it costs to end the page at a place with this penalty.
    pub fn cost(&self, rules: &PageRules, penalty: i32) -> Cost
        requires ready { AreReady self.now }
        requires penalty { penalty <ℤ pos 10000 }
        ensures { result ≡ cost_in rules.now self.now penalty }
    {
        cost_by(penalty, self.badness(rules))
    }

    /// How badly the page fits. None where it is overfull.
    fn badness(&self, rules: &PageRules) -> Option<i32>
        requires { AreReady self.now }
        ensures badness { result ≡ badness_in rules.now self.now }
        ensures bounded { IfSome result IsBadness }
    {
        let total = self.room - i64::from(self.hangs(rules));
        badness_to(self.goal(rules) - total, &self.stretch, &self.shrink)
    }

    /// Whether all sums are below 2^30 scaled points in size.
    pub fn are_small(&self, rules: &PageRules) -> bool
        ensures value { result ≡ small_sums rules.now self.now }
        ensures ready { OnTrue result (AreReadyBy rules.now self.now) }
    {
        self.are_small_lengths(rules) && self.stretch.are_small() && self.shrink.are_small()
    }

    fn are_small_lengths(&self, rules: &PageRules) -> bool
        ensures value { result ≡ small_lengths rules.now self.now }
        ensures ready { OnTrue result (AreReadyLengths self.now) }
        ensures total { OnTrue result (IsSmall (self.now.room -ℤ hangs rules.now self.now.hanging)) }
        ensures hanging { OnTrue result (IsSmall (hangs rules.now self.now.hanging)) }
    {
        let hangs = i64::from(self.hangs(rules));
        are_all_small(self.room - hangs, hangs, self.right, self.feet_size)
    }
}

/// Whether four lengths are below 2^30 scaled points in size.
fn are_all_small(first: i64, second: i64, third: i64, fourth: i64) -> bool
    ensures value { result ≡ (is_small first && (is_small second && (is_small third && is_small fourth))) }
    ensures first { OnTrue result (IsSmall first) }
    ensures second { OnTrue result (IsSmall second) }
    ensures fourth { OnTrue result (IsSmall fourth) }
{
    is_small(first) && is_small(second) && is_small(third) && is_small(fourth)
}

/// The depth of the last box or rule, where that was `depth` before a node.
fn depth_after(depth: Option<i32>, node: &Node) -> Option<i32>
    ensures { result ≡ (if is_block node.now then Some (size_of node.now).depth else depth) }
{
    if is_box_or_rule(node) {
        return Some(size_of(node).depth);
    }
    depth
}
