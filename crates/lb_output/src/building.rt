//! The items of a page's box.
ghost use Rattle.std.specs.Prelude.{◌≡◌, ◌++◌, ◌∷◌, [], ◌≤ℤ◌, neg_ℤ, pos, IfOk, OnOk, reverse, map};
ghost use Rattle.lb_model_paper.specs.PageBoxes.{box_at, feet_items, feet_rule, foot_at, foot_items, foot_of, head_items, head_of, kern};
ghost use Rattle.lb_output.specs.Building.{IsNegatableBox};
ghost use Rattle.lb_output.specs.Layouts.{items_by};

use crate::heights::Heights;
use lb_base::{Axis, Boxed, GlueSet, KernOrigin, Node, NodeList, Order, RuleSize};
use lb_model_paper::pages::{HeadFoot, PageLengths};
use sqlite_items::{Boxed as Held, Items};
use std::alloc::{AllocError, Global};

/// The 9pt before the footnotes of a page, but for the rule in them: 6pt, and 2.6pt behind it.
const ABOVE_RULE: i32 = 393_216;

const BELOW_RULE: i32 = 170_394;

/// The rule is 138pt wide and 0.4pt high.
const RULE_WIDTH: i32 = 9_043_968;

const RULE_HEIGHT: i32 = 26_214;

/// The lengths of a page, which of head and foot it has, and what stands at its left.
#[derive(Clone, Copy)]
pub struct Layout {
    pub lengths: PageLengths,
    pub style: HeadFoot,
    pub margin: i32,
}

/// Puts a kern behind a list.
pub fn push_kern(items: &mut NodeList, width: i32) -> Result<(), AllocError>
    ensures { OnOk result (items.new ≡ items.old ++ kern width ∷ []) }
{
    items.push(Node::Kern {
        width,
        origin: KernOrigin::Explicit,
    })
}

/// Puts a box behind a list, so far to the right.
pub fn push_box(
    alloc: Global,
    items: &mut NodeList,
    shift: i32,
    boxed: Boxed,
) -> Result<(), AllocError>
    ensures { OnOk result (items.new ≡ items.old ++ box_at shift boxed ∷ []) }
{
    let mut boxed = boxed;
    boxed.shift = shift;
    items.push(Node::Boxed(Held::new(alloc, boxed)?))
}

/// Puts the head of a page behind a list, with its baseline where the page is then.
pub fn push_head(
    alloc: Global,
    items: &mut NodeList,
    margin: i32,
    head: Option<Boxed>,
) -> Result<(), AllocError>
    requires { IsNegatableBox head }
    ensures { OnOk result (items.new ≡ items.old ++ head_items margin head) }
{
    let Some(head) = head else {
        return Ok(());
    };
    let (height, depth) = (head.height, head.depth);
    push_kern(items, -height)?;
    push_box(alloc, items, margin, head)?;
    push_kern(items, -depth)?;
    Ok(())
}

/// Puts the foot of a page behind a list, with its baseline below the page's text, of which so much
/// lies behind.
pub fn push_foot(
    alloc: Global,
    items: &mut NodeList,
    lengths: &PageLengths,
    margin: i32,
    used: i32,
    foot: Option<Boxed>,
) -> Result<(), AllocError>
    requires foot { IsNegatableBox foot }
    requires used { neg_ℤ (pos 2147483647) ≤ℤ used }
    ensures { OnOk result (items.new ≡ items.old ++ foot_items lengths.now margin used foot) }
{
    let Some(foot) = foot else {
        return Ok(());
    };
    let height = foot.height;
    push_kern(items, -used)?;
    push_kern(items, lengths.textheight)?;
    push_kern(items, lengths.footskip)?;
    push_kern(items, -height)?;
    push_box(alloc, items, margin, foot)?;
    Ok(())
}

/// The rule above footnotes.
fn feet_rule(alloc: Global) -> Result<Boxed, AllocError>
    ensures { IfOk result (λ rule. rule ≡ feet_rule) }
{
    let mut items = Items::new(alloc);
    items.push(Node::Rule(RuleSize {
        width: Some(RULE_WIDTH),
        height: Some(RULE_HEIGHT),
        depth: Some(0),
    }))?;
    Ok(Boxed {
        axis: Axis::Horizontal,
        items,
        width: RULE_WIDTH,
        height: RULE_HEIGHT,
        depth: 0,
        shift: 0,
        glue_set: GlueSet {
            excess: 0,
            order: Order::Finite,
        },
    })
}

/// Puts the footnotes of a page behind a list, if it has any, and the rule before them.
pub fn push_feet(
    alloc: Global,
    items: &mut NodeList,
    margin: i32,
    feet: NodeList,
) -> Result<(), AllocError>
    ensures { OnOk result (items.new ≡ items.old ++ feet_items margin feet) }
{
    if feet.is_empty() {
        return Ok(());
    }
    push_kern(items, ABOVE_RULE)?;
    push_box(alloc, items, margin, feet_rule(alloc)?)?;
    push_kern(items, BELOW_RULE)?;
    push_notes(alloc, items, margin, feet)?;
    Ok(())
}

/// Puts footnotes behind a list.
fn push_notes(
    alloc: Global,
    items: &mut NodeList,
    margin: i32,
    feet: NodeList,
) -> Result<(), AllocError>
    ensures { OnOk result (items.new ≡ items.old ++ map (foot_at margin) feet) }
{
    let mut turned = turned(alloc, feet)?;
    while let Some(node) = turned.pop() {
        push_note(alloc, items, margin, node)?;
    }
    Ok(())
}

/// Puts the box of a footnote behind a list.
#[tactic(auto, unfolding(lb_model_paper::specs::PageBoxes::foot_at))]
fn push_note(alloc: Global, items: &mut NodeList, margin: i32, node: Node) -> Result<(), AllocError>
    ensures { OnOk result (items.new ≡ items.old ++ foot_at margin node ∷ []) }
{
    match node {
        Node::Ins(footnote) => push_box(alloc, items, margin, footnote.into_inner()),
        node => items.push(node),
    }
}

/// A list, its last node first.
fn turned(alloc: Global, list: NodeList) -> Result<NodeList, AllocError>
    ensures { IfOk result (λ nodes. nodes ≡ reverse list) }
{
    let mut list = list;
    let mut nodes = Items::new(alloc);
    while let Some(node) = list.pop() {
        nodes.push(node)?;
    }
    Ok(nodes)
}

/// The items of a page's box, whose body is set to its goal, and whose head or foot this is.
pub fn page_items(
    alloc: Global,
    look: &Layout,
    heights: Heights,
    feet: NodeList,
    body: Boxed,
    running: Option<Boxed>,
) -> Result<NodeList, AllocError>
    requires running { IsNegatableBox running }
    requires used { neg_ℤ (pos 2147483647) ≤ℤ heights.used }
    ensures { IfOk result (λ items. items ≡ items_by look.now heights.used feet body running) }
{
    let mut items = Items::new(alloc);
    push_kern(&mut items, look.lengths.topmargin)?;
    push_kern(&mut items, look.lengths.headheight)?;
    let (head, foot) = placed(look.style, running);
    push_head(alloc, &mut items, look.margin, head)?;
    push_kern(&mut items, look.lengths.headsep)?;
    push_box(alloc, &mut items, look.margin, body)?;
    push_feet(alloc, &mut items, look.margin, feet)?;
    push_foot(
        alloc,
        &mut items,
        &look.lengths,
        look.margin,
        heights.used,
        foot,
    )?;
    Ok(items)
}

/// The head and the foot of a page, of which it has one at most.
fn placed(style: HeadFoot, running: Option<Boxed>) -> (Option<Boxed>, Option<Boxed>)
    requires { IsNegatableBox running }
    ensures head { result.0 ≡ head_of style running }
    ensures foot { result.1 ≡ foot_of style running }
    ensures small_head { IsNegatableBox result.0 }
    ensures small_foot { IsNegatableBox result.1 }
{
    match style {
        HeadFoot::Neither => (None, None),
        HeadFoot::Foot => (None, running),
        HeadFoot::Head => (running, None),
    }
}
