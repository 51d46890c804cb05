//! Legal breaks of a list (TeXbook, chapter 14).
ghost use Rattle.std.specs.Prelude.{◌≡◌};
ghost use Rattle.lb_model_paper.specs.Breaks.{break_penalty, disc_penalty, free_where, is_discardable, is_empty_list, is_explicit, is_glue, unbarred};

use lb_base::{Discretionary, KernOrigin, Node};
use lb_model_paper::paragraph::BreakRules;

/// From this penalty on, a line never breaks.
const BARRED: i32 = 10_000;

/// Whether a node goes at the start of a line.
#[tactic(auto, unfolding(lb_model_paper::specs::Breaks::is_discardable))]
pub fn is_discardable(node: &Node) -> bool
    ensures { result ≡ is_discardable node.now }
{
    match node {
        Node::Glue(_) => true,
        Node::Penalty(_) => true,
        Node::Kern { origin, .. } => is_explicit(*origin),
        _ => false,
    }
}

fn is_explicit(origin: KernOrigin) -> bool
    ensures { result ≡ is_explicit origin }
{
    match origin {
        KernOrigin::Explicit => true,
        KernOrigin::Font => false,
    }
}

#[tactic(auto, unfolding(lb_model_paper::specs::Breaks::is_glue))]
pub fn is_glue(node: &Node) -> bool
    ensures { result ≡ is_glue node.now }
{
    match node {
        Node::Glue(_) => true,
        _ => false,
    }
}

/// The penalty of a break at a discretionary.
fn disc_penalty(rules: &BreakRules, parts: &Discretionary) -> i32
    ensures { result ≡ disc_penalty rules.now parts.now }
{
    if is_empty(parts.pre_break.as_slice()) {
        rules.ex_hyphen_penalty
    } else {
        rules.hyphen_penalty
    }
}

fn is_empty(nodes: &[Node]) -> bool
    ensures { result ≡ is_empty_list nodes.now }
{
    nodes.is_empty()
}

/// The penalty, if it does not bar the break.
fn unbarred(penalty: i32) -> Option<i32>
    ensures { result ≡ unbarred penalty }
{
    if penalty < BARRED {
        Some(penalty)
    } else {
        None
    }
}

/// The penalty of a break at a node, or nothing where it is no legal break. `solid` tells whether a
/// node that is no discardable stands before it, and `glue` whether glue stands behind it.
#[tactic(auto, unfolding(lb_model_paper::specs::Breaks::break_penalty))]
pub fn break_penalty(rules: &BreakRules, solid: bool, glue: bool, node: &Node) -> Option<i32>
    ensures { result ≡ break_penalty rules.now solid glue node.now }
{
    match node {
        Node::Glue(_) => free_where(solid),
        Node::Kern { origin, .. } => free_where(is_explicit(*origin) && glue),
        Node::Penalty(penalty) => unbarred(*penalty),
        Node::Disc(parts) => unbarred(disc_penalty(rules, parts.get())),
        _ => None,
    }
}

/// The penalty 0 of a break that is legal under a condition.
fn free_where(legal: bool) -> Option<i32>
    ensures { result ≡ free_where legal }
{
    if legal { Some(0) } else { None }
}
