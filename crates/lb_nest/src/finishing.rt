//! The end of lists that are made into lines (tex.web, section 816). Lengths are in scaled points, 65536 to the point.
ghost use Rattle.std.specs.Prelude.{◌≡◌, IfOk, OnOk};
ghost use Rattle.lb_model_paper.specs.Breaks.{is_glue};
ghost use Rattle.lb_model_nest.specs.Paragraphs.{finished, without_last_glue};
ghost use Rattle.lb_model_nest.specs.Wholes.{level_around, levels_around};

use crate::level::OpenList;
use crate::nest::Nest;
use lb_base::{Glue, NoMemory, Node, NodeList};
use lb_model_nest::ListKind;
use std::mem;

/// No line ends at a penalty of this size, and at one below 0 each does.
const INFINITE: i32 = 10_000;

/// Whether a node is glue.
#[tactic(auto, unfolding(lb_model_paper::specs::Breaks::is_glue))]
pub(crate) fn is_glue(node: &Node) -> bool
    ensures { result ≡ is_glue node.now }
{
    matches!(node, Node::Glue(_))
}

/// Takes a glue away that stands last.
pub(crate) fn drop_last_glue(list: &mut NodeList) -> Result<(), NoMemory>
    ensures { OnOk result (list.new ≡ without_last_glue list.old) }
{
    let Some(last) = list.pop() else {
        return Ok(());
    };
    if is_glue(&last) {
        return Ok(());
    }
    list.push(last)?;
    Ok(())
}

/// The list of a paragraph at its end: without a glue that stands last, and with a penalty that bars a break, the glue that fills the last
/// line, and a forced break.
pub(crate) fn finish(list: NodeList, fill: Glue) -> Result<NodeList, NoMemory>
    ensures { IfOk result (λ nodes. nodes ≡ finished fill list) }
{
    let mut nodes = list;
    drop_last_glue(&mut nodes)?;
    nodes.push(Node::Penalty(INFINITE))?;
    nodes.push(Node::Glue(fill))?;
    nodes.push(Node::Penalty(-INFINITE))?;
    Ok(nodes)
}

/// Leaves the innermost list. The outermost one is that of pages.
pub(crate) fn leave(nest: &mut Nest) -> OpenList
    ensures nest { nest.new ≡ record nest.old { level = level_around nest.old.around; around = levels_around nest.old.around } }
    ensures level { result ≡ nest.old.level }
{
    let around = match nest.around.pop() {
        Some(around) => around,
        None => OpenList::new(nest.alloc, ListKind::Page),
    };
    mem::replace(&mut nest.level, around)
}
