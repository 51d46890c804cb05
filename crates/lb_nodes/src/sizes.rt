//! What an item of a list takes up: its size, its space along the list, how far it is moved, and
//! what it can stretch and shrink. Lengths are in scaled points, 65536 to the point.
ghost use Rattle.std.specs.Prelude.{◌≡◌, pos, if◌then◌else◌};
ghost use Rattle.lb_model_paper.specs.Nodes.{along, depth_past, given, reach_down, reach_right, reach_up, same_order, shift_of, shrink_of, size_of, space_of, stretch_of};
ghost use Rattle.lb_nodes.specs.Bounds.{IsLength, IsSumOfThree};

use lb_base::{Axis, Glue, Node, Order};

/// The size of an item of a list.
#[derive(Clone, Copy, PartialEq, Eq)]
pub struct Size {
    pub width: i32,
    pub height: i32,
    pub depth: i32,
}

/// The glue of a node that is none.
const NO_GLUE: Glue = Glue {
    width: 0,
    stretch: 0,
    stretch_order: Order::Finite,
    shrink: 0,
    shrink_order: Order::Finite,
};

/// The size of a letter, a ligature, a rule or a box, where what a rule leaves open counts as 0.
/// Anything else takes no room, nor does a discretionary, in whose place its parts are to be shown.
#[tactic(auto, unfolding(lb_model_paper::specs::Nodes::size_of))]
pub fn size_of(node: &Node) -> Size
    ensures width { result.width ≡ (size_of node.now).width }
    ensures height { result.height ≡ (size_of node.now).height }
    ensures depth { result.depth ≡ (size_of node.now).depth }
{
    match node {
        Node::Char { metrics, .. } => Size {
            width: metrics.width,
            height: metrics.height,
            depth: metrics.depth,
        },
        Node::Lig(ligature) => {
            let metrics = ligature.get().metrics;
            Size {
                width: metrics.width,
                height: metrics.height,
                depth: metrics.depth,
            }
        }
        Node::Rule(size) => Size {
            width: size.width.unwrap_or(0),
            height: size.height.unwrap_or(0),
            depth: size.depth.unwrap_or(0),
        },
        Node::Boxed(boxed) => {
            let boxed = boxed.get();
            Size {
                width: boxed.width,
                height: boxed.height,
                depth: boxed.depth,
            }
        }
        _ => Size {
            width: 0,
            height: 0,
            depth: 0,
        },
    }
}

/// The width of a kern or of glue, which are spaces along the list. Nothing else is one.
#[tactic(auto, unfolding(lb_model_paper::specs::Nodes::space_of))]
pub fn space_of(node: &Node) -> Option<i32>
    ensures { result ≡ space_of node.now }
{
    match node {
        Node::Kern { width, .. } => Some(*width),
        Node::Glue(glue) => Some(glue.width),
        _ => None,
    }
}

/// How far a box is moved down in a horizontal list, or to the right in a vertical one. Nothing
/// else is moved.
#[tactic(auto, unfolding(lb_model_paper::specs::Nodes::shift_of))]
pub fn shift_of(node: &Node) -> i32
    ensures { result ≡ shift_of node.now }
{
    match node {
        Node::Boxed(boxed) => boxed.get().shift,
        _ => 0,
    }
}

/// The width of a space along the list, and 0 where a node is none.
#[tactic(auto, unfolding(lb_model_paper::specs::Nodes::space_of))]
fn space_along(node: &Node) -> i64
    ensures space { result ≡ given (space_of node.now) }
    ensures bounded { IsLength result }
{
    match node {
        Node::Kern { width, .. } => i64::from(*width),
        Node::Glue(glue) => i64::from(glue.width),
        _ => 0,
    }
}

/// The room that a node takes along its list.
#[tactic(auto, unfolding(lb_model_paper::specs::Nodes::along))]
pub fn along(axis: Axis, node: &Node) -> i64
    ensures room { result ≡ along axis node.now }
    ensures bounded { IsSumOfThree result }
{
    let size = size_of(node);
    match axis {
        Axis::Horizontal => space_along(node) + i64::from(size.width),
        Axis::Vertical => space_along(node) + (i64::from(size.height) + i64::from(size.depth)),
    }
}

/// The glue of a node, and where it is none a glue that gives nothing.
#[tactic(auto, unfolding(lb_model_paper::specs::Nodes::stretch_of, lb_model_paper::specs::Nodes::shrink_of))]
pub fn glue_of(node: &Node) -> Glue
    ensures stretch { (order : Order) → stretch_of order node.now
        ≡ (if same_order result.stretch_order order then result.stretch else pos 0) }
    ensures shrink { (order : Order) → shrink_of order node.now
        ≡ (if same_order result.shrink_order order then result.shrink else pos 0) }
{
    match node {
        Node::Glue(glue) => *glue,
        _ => NO_GLUE,
    }
}

/// How much of an order a node can stretch.
pub fn stretch_of(order: Order, node: &Node) -> i32
    ensures { result ≡ stretch_of order node.now }
{
    let glue = glue_of(node);
    if glue.stretch_order == order {
        glue.stretch
    } else {
        0
    }
}

/// How much of an order a node can shrink.
pub fn shrink_of(order: Order, node: &Node) -> i32
    ensures { result ≡ shrink_of order node.now }
{
    let glue = glue_of(node);
    if glue.shrink_order == order {
        glue.shrink
    } else {
        0
    }
}

/// What hangs below a vertical list, where so much hung below it before its last node: the depth
/// of the last letter, ligature, rule or box, unless a space stands behind that.
#[tactic(auto, unfolding(lb_model_paper::specs::Nodes::depth_past))]
pub fn depth_past(depth: i32, node: &Node) -> i32
    ensures { result ≡ depth_past depth node.now }
{
    match node {
        Node::Char { metrics, .. } => metrics.depth,
        Node::Lig(ligature) => ligature.get().metrics.depth,
        Node::Rule(size) => size.depth.unwrap_or(0),
        Node::Boxed(boxed) => boxed.get().depth,
        Node::Kern { .. } => 0,
        Node::Glue(_) => 0,
        _ => depth,
    }
}

/// How far a node reaches above the baseline of a horizontal list.
pub fn reach_up(node: &Node) -> i64
    ensures { result ≡ reach_up node.now }
{
    i64::from(size_of(node).height) - i64::from(shift_of(node))
}

/// How far a node reaches below the baseline of a horizontal list.
pub fn reach_down(node: &Node) -> i64
    ensures { result ≡ reach_down node.now }
{
    i64::from(size_of(node).depth) + i64::from(shift_of(node))
}

/// How far a node of a vertical list reaches to the right.
pub fn reach_right(node: &Node) -> i64
    ensures { result ≡ reach_right node.now }
{
    i64::from(size_of(node).width) + i64::from(shift_of(node))
}
