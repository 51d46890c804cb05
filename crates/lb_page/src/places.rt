//! The places at which a page can end.
ghost use Rattle.std.specs.Prelude.{◌≡◌, ◌<ℤ◌, pos, IfSome, List, Option, None, Some, if◌then◌else◌};
ghost use Rattle.lb_base.specs.declared.node.Node.{Node as TheNode};
ghost use Rattle.lb_model_paper.specs.Pages.{is_begun, is_explicit, is_firm, is_glue, penalty_of};
ghost use Rattle.lb_page.specs.Waits.{waits};

use lb_base::{KernOrigin, Node};

/// A penalty of this or more forbids a page to end.
const FORBIDDEN: i32 = 10_000;

/// The penalty of the place at a node, where `begun` says whether something stands on the page before
/// it, `firm` whether the node just before it is no discardable, and `before_glue` whether glue stands
/// behind it. None where the page cannot end there.
pub fn penalty_of(begun: bool, firm: bool, node: &Node, before_glue: bool) -> Option<i32>
    ensures place { (before : List TheNode) (next : Option TheNode) → begun ≡ is_begun before
        → firm ≡ is_firm before → before_glue ≡ is_glue next
        → result ≡ penalty_of before (Some node.now) next }
    ensures small { IfSome result (λ penalty. penalty <ℤ pos 10000) }
{
    match node {
        Node::Glue(_) => place_where(firm, 0),
        Node::Kern { origin, .. } => place_where(is_explicit(*origin) && begun && before_glue, 0),
        Node::Penalty(penalty) => place_where(begun && *penalty < FORBIDDEN, *penalty),
        _ => None,
    }
}

fn place_where(there: bool, penalty: i32) -> Option<i32>
    ensures { result ≡ (if there then Some penalty else None) }
{
    if there { Some(penalty) } else { None }
}

fn is_explicit(origin: KernOrigin) -> bool
    ensures { result ≡ is_explicit origin }
{
    match origin {
        KernOrigin::Explicit => true,
        KernOrigin::Font => false,
    }
}

/// Whether a node is glue.
pub fn is_glue(node: &Node) -> bool
    ensures { result ≡ is_glue (Some node.now) }
{
    match node {
        Node::Glue(_) => true,
        _ => false,
    }
}

/// Whether it must be known what stands behind a node: it is a kern, and a place only before glue.
#[tactic(auto, unfolding(crate::specs::Waits::waits))]
pub fn waits(node: &Node) -> bool
    ensures { result ≡ waits node.now }
{
    match node {
        Node::Kern { origin, .. } => is_explicit(*origin),
        _ => false,
    }
}
