//! The box of a page.
ghost use Rattle.std.specs.Prelude.{◌≡◌, if◌then◌else◌, Option, Result, Err, IfOk};
ghost use Rattle.lb_base.specs.Answers.{Answers};
ghost use Rattle.lb_base.specs.declared.fault.Kind.{Kind as AKind};
ghost use Rattle.lb_model_paper.specs.PageBoxes.{both, page_box_of};
ghost use Rattle.lb_output.specs.Building.{IsNegatableBox};
ghost use Rattle.lb_output.specs.Layouts.{nested_by};
ghost use Rattle.lb_base.specs.declared.node.Boxed.{Boxed as ABox};

use crate::building::{Layout, page_items};
use crate::heights::{Heights, heights_of};
use crate::running::{is_odd, running_box};
use lb_base::{Axis, Boxed, GlueSet, Kind, NodeList, Order, Stop, Target};
use lb_model_paper::pages::{PageLengths, PageLook, PagePart};
use lb_nodes::{nests_within, vpack};
use std::alloc::Global;

/// The most boxes that stand inside one another in a page's box.
const DEEPEST: u16 = 499;

/// The box of a page, as wide as its text and as high as its lengths say, with a head or a foot, the
/// items set to their goal, and the footnotes. The marks and the nodes of the number are moved to it,
/// so no tree is copied.
///
/// `DimenTooLarge` comes exactly where a sum of its head, its body or its foot, a sum of the lengths
/// down the page or its height is 2^30 scaled points or more in size, and `DepthLimit` exactly where
/// none is and more than 500 boxes would stand inside one another.
pub fn page_box(alloc: Global, part: PagePart, look: PageLook) -> Result<Boxed, Stop>
    ensures { Answers (page_box_of part look) result }
{
    let PagePart { items, feet, goal } = part;
    let PageLook {
        number,
        digits,
        style,
        left,
        right,
        lengths,
    } = look;
    let Some(heights) = heights_of(&lengths, goal, feet.as_slice()) else {
        return Err(Stop::Fault(Kind::DimenTooLarge));
    };
    let odd = is_odd(number);
    let body = vpack(alloc, items, Target::To(heights.goal));
    let mark = mark_of(odd, left, right);
    let running = running_box(alloc, style, odd, digits, mark, lengths.textwidth);
    let layout = Layout {
        lengths,
        style,
        margin: margin_of(odd, &lengths),
    };
    match both(body, running) {
        Ok((body, running)) => {
            let items = page_items(alloc, &layout, heights, feet, body, running)?;
            nested(&layout, heights, items)
        }
        Err(stop) => Err(stop),
    }
}

/// The box of a page with these items, if at most 500 boxes stand inside one another.
fn nested(look: &Layout, heights: Heights, items: NodeList) -> Result<Boxed, Stop>
    ensures { Answers (nested_by look.now heights items) result }
{
    if nests_within(items.as_slice(), DEEPEST) {
        return Ok(Boxed {
            axis: Axis::Vertical,
            items,
            width: look.lengths.textwidth,
            height: heights.page,
            depth: 0,
            shift: 0,
            glue_set: GlueSet {
                excess: 0,
                order: Order::Finite,
            },
        });
    }
    Err(Stop::Fault(Kind::DepthLimit))
}

fn mark_of(odd: bool, left: Option<Boxed>, right: Option<Boxed>) -> Option<Boxed>
    ensures { result ≡ (if odd then right else left) }
{
    if odd { right } else { left }
}

/// What stands at the left of a page.
fn margin_of(odd: bool, lengths: &PageLengths) -> i32
    ensures { result ≡ (if odd then lengths.now.oddsidemargin else lengths.now.evensidemargin) }
{
    if odd {
        lengths.oddsidemargin
    } else {
        lengths.evensidemargin
    }
}

/// The body and the head or foot of a page, or the fault of one of them. Of two faults `DimenTooLarge`
/// comes first.
fn both(
    body: Result<Boxed, Stop>,
    running: Result<Option<Boxed>, Stop>,
) -> Result<(Boxed, Option<Boxed>), Stop>
    ensures boxes { (b : Result ABox AKind) (r : Result (Option ABox) AKind) → Answers b body → Answers r running
        → Answers (both b r) result }
    ensures small { IfOk running IsNegatableBox → IfOk result (λ boxes. IsNegatableBox boxes.1) }
{
    match (body, running) {
        (Ok(body), Ok(running)) => Ok((body, running)),
        (Ok(_), Err(stop)) => Err(stop),
        (Err(stop), Ok(_)) => Err(stop),
        (Err(stop), Err(other)) => Err(worse_stop(stop, other)),
    }
}

fn worse_stop(stop: Stop, other: Stop) -> Stop
    ensures { (b : Result ABox AKind) (r : Result (Option ABox) AKind) → Answers b (Err stop) → Answers r (Err other)
        → Answers (both b r) (Err result) }
{
    match (stop, other) {
        (Stop::Memory, _) => Stop::Memory,
        (_, Stop::Memory) => Stop::Memory,
        (_, Stop::Fault(Kind::DimenTooLarge)) => Stop::Fault(Kind::DimenTooLarge),
        (stop, _) => stop,
    }
}
