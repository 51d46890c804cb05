//! Lists packed into boxes.
ghost use Rattle.lb_base.specs.Answers.{Answers};
ghost use Rattle.lb_base.specs.declared.node.Axis.TheVariants.{Horizontal, Vertical};
ghost use Rattle.lb_model_paper.specs.Boxes.{packs};
ghost use Rattle.lb_model_paper.specs.Nodes.{shown};

use crate::nesting::nests_within;
use crate::plan::plan_of;
use crate::showing::shown;
use lb_base::{Axis, Boxed, Kind, NodeList, Stop, Target};
use std::alloc::Global;

/// The most boxes that stand inside one another.
const DEEPEST: u16 = 500;

fn pack(alloc: Global, axis: Axis, list: NodeList, target: Target) -> Result<Boxed, Stop>
    ensures { Answers (packs axis (shown list) target) result }
{
    let items = shown(alloc, list)?;
    let Some(plan) = plan_of(axis, items.as_slice(), target) else {
        return Err(Stop::Fault(Kind::DimenTooLarge));
    };
    if !nests_within(items.as_slice(), DEEPEST - 1) {
        return Err(Stop::Fault(Kind::DepthLimit));
    }
    Ok(Boxed {
        axis,
        items,
        width: plan.size.width,
        height: plan.size.height,
        depth: plan.size.depth,
        shift: 0,
        glue_set: plan.glue_set,
    })
}

/// The horizontal box of a list, with its natural width or the one that is asked for (TeXbook,
/// chapter 12). Each discretionary gives way to its third part.
///
/// `DimenTooLarge` comes exactly where a sum of the list, or a length of the box, is 2^30 scaled
/// points or more in size, and `DepthLimit` exactly where none is and more than 500 boxes would
/// stand inside one another. After an error the list is gone.
pub fn hpack(alloc: Global, list: NodeList, target: Target) -> Result<Boxed, Stop>
    ensures { Answers (packs Horizontal (shown list) target) result }
{
    pack(alloc, Axis::Horizontal, list, target)
}

/// The vertical box of a list, with its natural height or the one that is asked for. The depth of
/// its last letter, ligature, rule or box is its own, unless a space stands behind that. The errors
/// are those of [`hpack`].
pub fn vpack(alloc: Global, list: NodeList, target: Target) -> Result<Boxed, Stop>
    ensures { Answers (packs Vertical (shown list) target) result }
{
    pack(alloc, Axis::Vertical, list, target)
}
