//! Kinds of nodes of a page.
ghost use Rattle.std.specs.Prelude.{◌≡◌};
ghost use Rattle.lb_page.specs.Bounds.{IsNear};
ghost use Rattle.lb_model_paper.specs.Pages.{foot_size, is_block, is_discardable, is_foot};

use lb_base::{KernOrigin, Node};

/// Whether a node goes at the top of a page: glue, a penalty, or a kern that is none of a font.
#[tactic(auto, unfolding(lb_model_paper::specs::Pages::is_discardable))]
pub fn is_discardable(node: &Node) -> bool
    ensures { result ≡ is_discardable node.now }
{
    match node {
        Node::Glue(_) => true,
        Node::Penalty(_) => true,
        Node::Kern { origin, .. } => match origin {
            KernOrigin::Explicit => true,
            KernOrigin::Font => false,
        },
        _ => false,
    }
}

#[tactic(auto, unfolding(lb_model_paper::specs::Pages::is_block))]
pub fn is_box_or_rule(node: &Node) -> bool
    ensures { result ≡ is_block node.now }
{
    match node {
        Node::Rule(_) => true,
        Node::Boxed(_) => true,
        _ => false,
    }
}

#[tactic(auto, unfolding(lb_model_paper::specs::Pages::is_foot))]
pub fn is_footnote(node: &Node) -> bool
    ensures { result ≡ is_foot node.now }
{
    match node {
        Node::Ins(_) => true,
        _ => false,
    }
}

/// The height and depth of a footnote. Nothing else has room at the foot of a page.
#[tactic(auto, unfolding(lb_model_paper::specs::Pages::foot_size))]
pub fn foot_size(node: &Node) -> i64
    ensures value { result ≡ foot_size node.now }
    ensures bounded { IsNear result }
{
    match node {
        Node::Ins(footnote) => {
            let footnote = footnote.get();
            i64::from(footnote.height) + i64::from(footnote.depth)
        }
        _ => 0,
    }
}
