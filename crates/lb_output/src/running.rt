//! Heads and feet.
ghost use Rattle.std.specs.Prelude.{◌≡◌, ◌∷◌, ◌++◌, [], IfOk, OnOk};
ghost use Rattle.lb_base.specs.Answers.{Answers};
ghost use Rattle.lb_base.specs.declared.glue.Target.TheVariants.{To};
ghost use Rattle.lb_base.specs.declared.node.Axis.TheVariants.{Horizontal};
ghost use Rattle.lb_model_paper.specs.Boxes.{packs};
ghost use Rattle.lb_model_paper.specs.Nodes.{shown};
ghost use Rattle.lb_model_paper.specs.Pages.{fil_glue};
ghost use Rattle.lb_model_paper.specs.PageBoxes.{is_odd, mark_nodes, some_box};
ghost use Rattle.lb_output.specs.Building.{IsNegatableBox};
ghost use Rattle.lb_output.specs.Running.{head_by, running_by};

use lb_base::{Boxed, Glue, Node, NodeList, Order, Stop, Target};
use lb_model_paper::pages::HeadFoot;
use lb_nodes::hpack;
use lb_nodes::laws::packing;
use sqlite_items::{Boxed as Held, Items};
use std::alloc::{AllocError, Global};

/// Glue that stretches without end.
const FIL: Glue = Glue {
    width: 0,
    stretch: 65_536,
    stretch_order: Order::Fil,
    shrink: 0,
    shrink_order: Order::Finite,
};

pub fn is_odd(number: i32) -> bool
    ensures { result ≡ is_odd number }
{
    number.unsigned_abs() % 2 == 1
}

/// The number in the middle.
fn foot_nodes(alloc: Global, digits: NodeList) -> Result<NodeList, AllocError>
    ensures { IfOk result (λ nodes. nodes ≡ fil_glue ∷ (digits ++ fil_glue ∷ [])) }
{
    let mut nodes = Items::new(alloc);
    nodes.push(Node::Glue(FIL))?;
    nodes.append(digits)?;
    nodes.push(Node::Glue(FIL))?;
    Ok(nodes)
}

/// On odd pages the mark and then the number, on even ones the number and then the mark, at the two
/// ends.
fn head_nodes(
    alloc: Global,
    is_odd: bool,
    digits: NodeList,
    mark: Option<Boxed>,
) -> Result<NodeList, AllocError>
    ensures { IfOk result (λ nodes. nodes ≡ head_by is_odd digits mark) }
{
    let mut nodes = Items::new(alloc);
    if is_odd {
        push_mark(alloc, &mut nodes, mark)?;
        nodes.push(Node::Glue(FIL))?;
        nodes.append(digits)?;
        return Ok(nodes);
    }
    nodes.append(digits)?;
    nodes.push(Node::Glue(FIL))?;
    push_mark(alloc, &mut nodes, mark)?;
    Ok(nodes)
}

fn push_mark(alloc: Global, nodes: &mut NodeList, mark: Option<Boxed>) -> Result<(), AllocError>
    ensures { OnOk result (nodes.new ≡ nodes.old ++ mark_nodes mark) }
{
    let Some(boxed) = mark else {
        return Ok(());
    };
    nodes.push(Node::Boxed(Held::new(alloc, boxed)?))
}

/// A list packed to a width.
fn packed(alloc: Global, nodes: NodeList, width: i32) -> Result<Option<Boxed>, Stop>
    ensures answer { Answers (some_box (packs Horizontal (shown nodes) (To width))) result }
    ensures small { IfOk result IsNegatableBox }
{
    packing();
    match hpack(alloc, nodes, Target::To(width)) {
        Ok(boxed) => Ok(Some(boxed)),
        Err(stop) => Err(stop),
    }
}

/// The head or the foot of a page, if it has one, as wide as its text. Only the mark of the page's
/// side is taken.
pub fn running_box(
    alloc: Global,
    style: HeadFoot,
    is_odd: bool,
    digits: NodeList,
    mark: Option<Boxed>,
    width: i32,
) -> Result<Option<Boxed>, Stop>
    ensures answer { Answers (running_by style is_odd digits mark width) result }
    ensures small { IfOk result IsNegatableBox }
{
    match style {
        HeadFoot::Neither => Ok(None),
        HeadFoot::Foot => packed(alloc, foot_nodes(alloc, digits)?, width),
        HeadFoot::Head => packed(alloc, head_nodes(alloc, is_odd, digits, mark)?, width),
    }
}
