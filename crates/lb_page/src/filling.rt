//! A page while its nodes are moved to it.
ghost use Rattle.std.specs.Option.{is_some};
ghost use Rattle.std.specs.Prelude.{◌≡◌, ◌<◌, ◌≤◌, ◌+◌, ◌++◌, ◌∷◌, [], true, false, IfOk, List, None, Some, filter, vec_len, vec_capacity};
ghost use Rattle.lb_base.specs.declared.node.Node.{Node as TheNode};
ghost use Rattle.lb_model_paper.specs.Pages.{is_block, is_foot, top_glue, top_width, with_top_glue, without_top};
ghost use Rattle.lb_page.specs.Fillings.{IsFilling, kern_of, spare, stays};
ghost use Rattle.lb_page.specs.SoFar.{first_width, opened};

use crate::kinds::{is_box_or_rule, is_discardable, is_footnote};
use crate::so_far::goes_at_top;
use lb_base::{Glue, KernOrigin, Node};
use lb_model_paper::pages::PageRules;
use std::alloc::{AllocError, Global};

/// The items and the footnotes of a page, whether something stands on it, and whether a box or rule
/// does.
#[derive(Drop)]
pub struct Filling {
    pub items: Vec<Node>,
    pub feet: Vec<Node>,
    pub begun: bool,
    pub topped: bool,
}

impl Filling {
    /// An empty page with room for so many nodes, a glue and a kern.
    pub fn with_room(alloc: Global, nodes: usize) -> Result<Filling, AllocError>
        requires { nodes + 2 < 18446744073709551616 }
        ensures empty { IfOk result (λ filling. (rules : PageRules) → IsFilling rules [] filling) }
        ensures items { IfOk result (λ filling. vec_len filling.items ≡ 0) }
        ensures feet { IfOk result (λ filling. vec_len filling.feet ≡ 0) }
        ensures topped { IfOk result (λ filling. filling.topped ≡ false) }
        ensures item_room { IfOk result (λ filling. nodes + 2 ≤ vec_capacity filling.items) }
        ensures foot_room { IfOk result (λ filling. nodes ≤ vec_capacity filling.feet) }
    {
        Ok(Filling {
            items: Vec::with_capacity(alloc, nodes + 2)?,
            feet: Vec::with_capacity(alloc, nodes)?,
            begun: false,
            topped: false,
        })
    }

    /// Moves a node to the page. A discardable at the top goes, and before the first box or rule
    /// stands glue that is so wide.
    pub fn put(&mut self, rules: &PageRules, top: Option<i32>, node: Node)
        requires items { vec_len self.old.items + spare self.old.topped < vec_capacity self.old.items }
        requires feet { vec_len self.old.feet < vec_capacity self.old.feet }
        ensures filling { (front : List TheNode) → IsFilling rules.now front self.old
            → (first_width rules.now (without_top front) ≡ None → is_block node ≡ true
            → top ≡ Some (top_width rules.now node))
            → IsFilling rules.now (front ++ node ∷ []) self.new }
        ensures items { vec_len self.new.items + spare self.new.topped ≤ vec_len self.old.items + spare self.old.topped + 1 }
        ensures feet { vec_len self.new.feet ≤ vec_len self.old.feet + 1 }
        ensures item_room { vec_capacity self.new.items ≡ vec_capacity self.old.items }
        ensures foot_room { vec_capacity self.new.feet ≡ vec_capacity self.old.feet }
    {
        if goes_at_top(self.begun, is_discardable(&node)) {
            return;
        }
        self.begun = true;
        self.open(rules, top, &node);
        self.push(node);
    }

    /// Puts the glue before the first box or rule on the page, where a node is that.
    fn open(&mut self, rules: &PageRules, top: Option<i32>, node: &Node)
        requires { vec_len self.old.items + spare self.old.topped < vec_capacity self.old.items }
        ensures items { (nodes : List TheNode) → self.old.topped ≡ is_some (first_width rules.now nodes)
            → self.old.items.items ≡ filter stays (with_top_glue rules.now nodes)
            → (first_width rules.now nodes ≡ None → is_block node.now ≡ true → top ≡ Some (top_width rules.now node.now))
            → (self.new.items.items ≡ filter stays (opened rules.now nodes node.now))
            × (self.new.topped ≡ is_some (first_width rules.now (nodes ++ node.now ∷ []))) }
        ensures feet { self.new.feet ≡ self.old.feet }
        ensures begun { self.new.begun ≡ self.old.begun }
        ensures room { vec_len self.new.items + spare self.new.topped ≡ vec_len self.old.items + spare self.old.topped }
        ensures item_room { vec_capacity self.new.items ≡ vec_capacity self.old.items }
    {
        if self.topped {
            return;
        }
        if !is_box_or_rule(node) {
            return;
        }
        self.topped = true;
        self.items.push_reserved(top_glue(rules.topskip, top));
    }

    /// Puts a node on the page, or at its foot.
    fn push(&mut self, node: Node)
        requires items { vec_len self.old.items < vec_capacity self.old.items }
        requires feet { vec_len self.old.feet < vec_capacity self.old.feet }
        ensures items { self.new.items.items ≡ self.old.items.items ++ filter stays (node ∷ []) }
        ensures feet { self.new.feet.items ≡ self.old.feet.items ++ filter is_foot (node ∷ []) }
        ensures begun { self.new.begun ≡ self.old.begun }
        ensures topped { self.new.topped ≡ self.old.topped }
        ensures item_count { vec_len self.new.items ≤ vec_len self.old.items + 1 }
        ensures foot_count { vec_len self.new.feet ≤ vec_len self.old.feet + 1 }
        ensures item_room { vec_capacity self.new.items ≡ vec_capacity self.old.items }
        ensures foot_room { vec_capacity self.new.feet ≡ vec_capacity self.old.feet }
    {
        if is_footnote(&node) {
            self.feet.push_reserved(node);
        } else {
            self.items.push_reserved(node);
        }
    }
}

/// The glue before the first box or rule, which is so wide.
fn top_glue(topskip: Glue, width: Option<i32>) -> Node
    ensures { (rules : PageRules) (node : TheNode) → topskip ≡ rules.topskip
        → width ≡ Some (top_width rules node) → result ≡ top_glue rules node }
{
    let width = width.unwrap_or(0);
    Node::Glue(Glue {
        width,
        stretch: topskip.stretch,
        stretch_order: topskip.stretch_order,
        shrink: topskip.shrink,
        shrink_order: topskip.shrink_order,
    })
}

/// Puts a kern behind a page, if it has a width.
pub fn close(items: &mut Vec<Node>, closing: Option<i32>)
    requires { vec_len items.old < vec_capacity items.old }
    ensures { items.new.items ≡ items.old.items ++ kern_of closing }
{
    if let Some(width) = closing {
        items.push_reserved(Node::Kern {
            width,
            origin: KernOrigin::Explicit,
        });
    }
}
