//! Sums over lists of nodes. Lengths are in scaled points.
ghost use Rattle.std.specs.Prelude.{◌≡◌, ◌∷◌, [], ◌+◌, ◌+ℤ◌, ◌-ℤ◌, ℕ, pos, if◌then◌else◌};
ghost use Rattle.lb_model_paper.specs.Breaks.{sums_of};
ghost use Rattle.lb_base.specs.declared.node.Axis.TheVariants.{Horizontal};
ghost use Rattle.lb_model_paper.specs.Nodes.{along, same_order};
ghost use Rattle.lb_measure.specs.Amounts.{added, AreNear, AreOfGlue, IsNear, less, nothing};

use lb_base::{Glue, Node, Order};
use lb_model_paper::paragraph::LineSums;

/// The sums of an empty list.
pub fn nothing() -> LineSums
    ensures value { result ≡ nothing }
    ensures near { AreNear 0 result }
{
    LineSums {
        width: 0,
        finite: 0,
        fil: 0,
        fill: 0,
        filll: 0,
        shrink: 0,
    }
}

/// An amount where it is of an order, and else 0.
fn amount_of(order: Order, glue_order: Order, amount: i32) -> i64
    ensures value { result ≡ (if same_order glue_order order then amount else pos 0) }
    ensures near { IsNear 1 result }
{
    if glue_order == order {
        i64::from(amount)
    } else {
        0
    }
}

/// The sums of a list of this glue alone.
pub fn glue_sums(glue: &Glue) -> LineSums
    ensures near { AreNear 1 result }
    ensures of_glue { AreOfGlue glue.now result }
{
    let (order, stretch) = (glue.stretch_order, glue.stretch);
    LineSums {
        width: i64::from(glue.width),
        finite: amount_of(Order::Finite, order, stretch),
        fil: amount_of(Order::Fil, order, stretch),
        fill: amount_of(Order::Fill, order, stretch),
        filll: amount_of(Order::Filll, order, stretch),
        shrink: i64::from(glue.shrink),
    }
}

/// The room that a node takes along a line.
#[tactic(auto, unfolding(lb_model_paper::specs::Nodes::along, lb_model_paper::specs::Nodes::size_of, lb_model_paper::specs::Nodes::space_of))]
fn along(node: &Node) -> i64
    ensures room { result ≡ along Horizontal node.now }
    ensures near { IsNear 1 result }
{
    match node {
        Node::Char { metrics, .. } => i64::from(metrics.width),
        Node::Lig(ligature) => i64::from(ligature.get().metrics.width),
        Node::Rule(size) => i64::from(size.width.unwrap_or(0)),
        Node::Boxed(boxed) => i64::from(boxed.get().width),
        Node::Kern { width, .. } => i64::from(*width),
        Node::Glue(glue) => i64::from(glue.width),
        _ => 0,
    }
}

/// The sums of a list of a node alone, which is no discretionary.
pub fn node_sums(node: &Node) -> LineSums
    ensures value { result ≡ sums_of (node.now ∷ []) }
    ensures near { AreNear 1 result }
{
    match node {
        Node::Glue(glue) => glue_sums(glue),
        _ => LineSums {
            width: along(node),
            finite: 0,
            fil: 0,
            fill: 0,
            filll: 0,
            shrink: 0,
        },
    }
}

fn sum(a: i64, b: i64) -> i64
    requires a { IsNear 1048576 a }
    requires b { IsNear 1048576 b }
    ensures { result ≡ a +ℤ b }
{
    a + b
}

fn difference(a: i64, b: i64) -> i64
    requires a { IsNear 1048576 a }
    requires b { IsNear 1048576 b }
    ensures { result ≡ a -ℤ b }
{
    a - b
}

/// The sums of two lists together.
pub fn added(a: &LineSums, b: &LineSums) -> LineSums
    requires a { AreNear 1048576 a.now }
    requires b { AreNear 1048576 b.now }
    ensures value { result ≡ added a.now b.now }
    ensures near { (m : ℕ) (n : ℕ) → AreNear m a.now → AreNear n b.now → AreNear (m + n) result }
{
    LineSums {
        width: sum(a.width, b.width),
        finite: sum(a.finite, b.finite),
        fil: sum(a.fil, b.fil),
        fill: sum(a.fill, b.fill),
        filll: sum(a.filll, b.filll),
        shrink: sum(a.shrink, b.shrink),
    }
}

/// The sums of a list without those of its beginning.
pub fn less(a: &LineSums, b: &LineSums) -> LineSums
    requires a { AreNear 1048576 a.now }
    requires b { AreNear 1048576 b.now }
    ensures value { result ≡ less a.now b.now }
    ensures near { (m : ℕ) (n : ℕ) → AreNear m a.now → AreNear n b.now → AreNear (m + n) result }
{
    LineSums {
        width: difference(a.width, b.width),
        finite: difference(a.finite, b.finite),
        fil: difference(a.fil, b.fil),
        fill: difference(a.fill, b.fill),
        filll: difference(a.filll, b.filll),
        shrink: difference(a.shrink, b.shrink),
    }
}
