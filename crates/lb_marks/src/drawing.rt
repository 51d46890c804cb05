//! The marks of a box and of the boxes in it.
ghost use Rattle.std.specs.Prelude.{◌≡◌, ◌++◌, ◌∷◌, [], true, ◌&&◌, ◌+ℤ◌, IfSome, OnSome, OnOk, IfOk, IfErr};
ghost use Rattle.lb_base.specs.declared.fault.Stop.TheVariants.{Memory};
ghost use Rattle.lb_base.specs.declared.node.Axis.TheVariants.{Horizontal};
ghost use Rattle.lb_base.specs.declared.page.Mark.TheVariants.{Char, Rule};
ghost use Rattle.std.specs.List.{list_all};
ghost use Rattle.lb_model_paper.specs.Dvi.{is_small};
ghost use Rattle.lb_model_paper.specs.Marks.{is_length, is_small_mark, marks_at, node_marks, rule_in, rule_mark};
ghost use Rattle.lb_model_paper.specs.Nodes.{along};
ghost use Rattle.lb_marks.specs.Spots.{IsMarkStop, IsStand, baseline_of_char, mark_of_char, room_of_char, size_of_rule, spot_of};

use crate::place::{Spot, baseline_of, baseline_of_char, moved, spot_along};
use lb_base::{Axis, Boxed, FontId, Kind, Mark, MarkList, Metrics, Node, RuleSize, Stop};
use lb_nodes::Shifts;
use lb_nodes::sizes::{Size, along};
use std::alloc::AllocError;

/// Whether a length is below 2^30 in size.
fn is_small(length: i128) -> bool
    ensures { result ≡ is_small length }
{
    -1_073_741_823 <= length && length <= 1_073_741_823
}

/// Whether the right end of a character is small that begins at a small place.
fn is_small_end(h: i128, width: i32) -> bool
    requires { is_small h ≡ true }
    ensures { result ≡ is_small (h +ℤ width) }
{
    is_small(h + i128::from(width))
}

fn is_small_char(spot: Spot, width: i32) -> bool
    ensures { result ≡ (is_small spot.h && (is_small spot.v && is_small (spot.h +ℤ width))) }
{
    is_small(spot.h) && (is_small(spot.v) && is_small_end(spot.h, width))
}

/// Whether 32 bits hold a length.
fn is_length(length: i64) -> bool
    ensures { result ≡ is_length length }
{
    -2_147_483_648 <= length && length <= 2_147_483_647
}

fn is_small_rule(h: i128, v: i128, height: i64) -> bool
    ensures { result ≡ (is_small h && (is_small v && is_length height)) }
{
    is_small(h) && (is_small(v) && is_length(height))
}

/// A small length in 32 bits.
fn held(length: i128) -> i32
    requires { is_small length ≡ true }
    ensures { result ≡ length }
{
    length as i32
}

/// A length in 32 bits that they hold.
fn held_height(length: i64) -> i32
    requires { is_length length ≡ true }
    ensures { result ≡ length }
{
    length as i32
}

/// The room that a character takes along its list.
fn room_of_char(axis: Axis, metrics: Metrics) -> i64
    ensures { result ≡ room_of_char axis metrics }
{
    match axis {
        Axis::Horizontal => i64::from(metrics.width),
        Axis::Vertical => i64::from(metrics.height) + i64::from(metrics.depth),
    }
}

/// Puts a character with this place behind some marks.
fn put_char(
    marks: &mut MarkList,
    h: i32,
    v: i32,
    font: &FontId,
    code: u8,
    width: i32,
) -> Result<(), AllocError>
    ensures { OnOk result (marks.new ≡ marks.old ++ Char h v font.now code width ∷ []) }
{
    marks.push(Mark::Char {
        h,
        v,
        font: font.clone()?,
        code,
        width,
    })
}

/// Where an item of a horizontal box stands, if that is small.
#[derive(Clone, Copy)]
pub struct Stand {
    pub h: i32,
    pub v: i32,
}

/// Where an item of a box stands, which begins so far along it, if the box is horizontal and the place
/// is small. Behind a character it is known already.
fn stand_of(
    known: Option<Stand>,
    boxed: &Boxed,
    spot: Spot,
    room: i128,
    shift: i128,
) -> Result<Option<Stand>, Stop>
    requires { IfSome known (IsStand boxed.now.axis boxed.now.height (spot_of spot) (room +ℤ shift)) }
    ensures ok { IfOk result (λ found. IfSome found (IsStand boxed.now.axis boxed.now.height (spot_of spot) (room +ℤ shift))) }
    ensures err { IfErr result (λ stop. stop ≡ Memory) }
{
    if let Some(known) = known {
        return Ok(Some(known));
    }
    let along = moved(room, shift)?;
    let h = moved(spot.h, along)?;
    Ok(small_stand(boxed.axis, h, spot.v))
}

fn small_stand(axis: Axis, h: i128, v: i128) -> Option<Stand>
    ensures axis { OnSome result (axis ≡ Horizontal) }
    ensures h { IfSome result (λ at. at.h ≡ h) }
    ensures v { IfSome result (λ at. at.v ≡ v) }
    ensures left { OnSome result (is_small h ≡ true) }
    ensures baseline { OnSome result (is_small v ≡ true) }
{
    match axis {
        Axis::Horizontal => {
            if is_small(h) && is_small(v) {
                Some(Stand {
                    h: held(h),
                    v: held(v),
                })
            } else {
                None
            }
        }
        Axis::Vertical => None,
    }
}

/// The right end of a character.
fn end_of(h: i32, width: i32) -> i64
    ensures { result ≡ h +ℤ width }
{
    i64::from(h) + i64::from(width)
}

/// Whether the right end of a character is small.
fn ends_small(end: i64) -> bool
    ensures { result ≡ is_small end }
{
    -1_073_741_823 <= end && end <= 1_073_741_823
}

/// A small right end in 32 bits.
fn held_end(end: i64) -> i32
    requires { is_small end ≡ true }
    ensures { result ≡ end }
{
    end as i32
}

/// Puts a character behind some marks whose place is small, if its right end is, and answers that end.
fn push_standing(
    marks: &mut MarkList,
    at: Stand,
    font: &FontId,
    code: u8,
    width: i32,
) -> Result<i32, Stop>
    requires left { is_small at.h ≡ true }
    requires baseline { is_small at.v ≡ true }
    ensures ok { OnOk result (marks.new ≡ marks.old ++ Char at.h at.v font.now code width ∷ []) }
    ensures small { OnOk result (is_small_mark (Char at.h at.v font.now code width) ≡ true) }
    ensures end { IfOk result (λ end. end ≡ at.h +ℤ width) }
    ensures right { OnOk result (is_small (at.h +ℤ width) ≡ true) }
    ensures stop { IfErr result (IsMarkStop (Char at.h at.v font.now code width ∷ [])) }
{
    let end = end_of(at.h, width);
    if !ends_small(end) {
        return Err(Stop::Fault(Kind::DimenTooLarge));
    }
    put_char(marks, at.h, at.v, font, code, width)?;
    Ok(held_end(end))
}

/// Puts a character behind some marks, if its place and its right end are small.
fn push_char(
    marks: &mut MarkList,
    spot: Spot,
    font: &FontId,
    code: u8,
    width: i32,
) -> Result<(), Stop>
    ensures ok { OnOk result (marks.new ≡ marks.old ++ Char spot.h spot.v font.now code width ∷ []) }
    ensures small { OnOk result (is_small_mark (Char spot.h spot.v font.now code width) ≡ true) }
    ensures stop { IfErr result (IsMarkStop (Char spot.h spot.v font.now code width ∷ [])) }
{
    if !is_small_char(spot, width) {
        return Err(Stop::Fault(Kind::DimenTooLarge));
    }
    put_char(marks, held(spot.h), held(spot.v), font, code, width)?;
    Ok(())
}

/// The same of an item that is a character, which begins at a spot. It answers the room that the item
/// takes along the list.
fn push_item(
    marks: &mut MarkList,
    axis: Axis,
    begin: Spot,
    metrics: Metrics,
    font: &FontId,
    code: u8,
) -> Result<i64, Stop>
    ensures ok { OnOk result (marks.new ≡ marks.old ++ mark_of_char (baseline_of_char axis (spot_of begin) metrics.height) font.now code metrics.width ∷ []) }
    ensures small { OnOk result (is_small_mark (mark_of_char (baseline_of_char axis (spot_of begin) metrics.height) font.now code metrics.width) ≡ true) }
    ensures room { IfOk result (λ room. room ≡ room_of_char axis metrics) }
    ensures stop { IfErr result (IsMarkStop (mark_of_char (baseline_of_char axis (spot_of begin) metrics.height) font.now code metrics.width ∷ [])) }
{
    let spot = baseline_of_char(axis, begin, metrics.height)?;
    push_char(marks, spot, font, code, metrics.width)?;
    Ok(room_of_char(axis, metrics))
}

/// The size of a rule in a box, to which it runs across the list where its size is open.
fn rule_in(boxed: &Boxed, rule: RuleSize) -> Size
    ensures { size_of_rule result ≡ rule_in boxed.now.axis boxed.now rule }
{
    match boxed.axis {
        Axis::Horizontal => Size {
            width: rule.width.unwrap_or(0),
            height: rule.height.unwrap_or(boxed.height),
            depth: rule.depth.unwrap_or(boxed.depth),
        },
        Axis::Vertical => Size {
            width: rule.width.unwrap_or(boxed.width),
            height: rule.height.unwrap_or(0),
            depth: rule.depth.unwrap_or(0),
        },
    }
}

/// Puts a rule with this lower left corner behind some marks, if its place is small.
fn push_rule_at(marks: &mut MarkList, h: i128, v: i128, height: i64, width: i32) -> Result<(), Stop>
    ensures ok { OnOk result (marks.new ≡ marks.old ++ Rule h v height width ∷ []) }
    ensures small { OnOk result (is_small_mark (Rule h v height width) ≡ true) }
    ensures stop { IfErr result (IsMarkStop (Rule h v height width ∷ [])) }
{
    if !is_small_rule(h, v, height) {
        return Err(Stop::Fault(Kind::DimenTooLarge));
    }
    marks.push(Mark::Rule {
        h: held(h),
        v: held(v),
        height: held_height(height),
        width,
    })?;
    Ok(())
}

/// The height and the depth of a rule together.
fn height_of(size: Size) -> i64
    ensures { result ≡ size.height +ℤ size.depth }
{
    i64::from(size.height) + i64::from(size.depth)
}

/// Puts a rule behind some marks, whose baseline begins at a spot, if its place is small.
fn push_rule(marks: &mut MarkList, spot: Spot, size: Size) -> Result<(), Stop>
    ensures ok { OnOk result (marks.new ≡ marks.old ++ rule_mark (spot_of spot) (size_of_rule size) ∷ []) }
    ensures small { OnOk result (is_small_mark (rule_mark (spot_of spot) (size_of_rule size)) ≡ true) }
    ensures stop { IfErr result (IsMarkStop (rule_mark (spot_of spot) (size_of_rule size) ∷ [])) }
{
    let v = moved(spot.v, i128::from(size.depth))?;
    push_rule_at(marks, spot.h, v, height_of(size), size.width)
}

/// Puts the marks of an item of a box, which begins at a spot, behind others, and answers the room
/// that the item takes along the list.
#[cycle(drawing)]
fn push_node(node: &Node, boxed: &Boxed, begin: Spot, marks: &mut MarkList) -> Result<i64, Stop>
    ensures ok { OnOk result (marks.new ≡ marks.old ++ node_marks marks_at boxed.now (spot_of begin) node.now) }
    ensures small { OnOk result (list_all is_small_mark (node_marks marks_at boxed.now (spot_of begin) node.now) ≡ true) }
    ensures room { IfOk result (λ room. room ≡ along boxed.now.axis node.now) }
    ensures stop { IfErr result (IsMarkStop (node_marks marks_at boxed.now (spot_of begin) node.now)) }
{
    match node {
        Node::Char {
            code,
            metrics,
            font,
        } => push_item(marks, boxed.axis, begin, *metrics, font, *code),
        _ => {
            push_rare(node, boxed, begin, marks)?;
            Ok(along(boxed.axis, node))
        }
    }
}

/// Puts the marks of an item of a box, which begins at a spot, behind others.
#[cycle(drawing)]
#[tactic(auto, unfolding(lb_model_paper::specs::Marks::node_marks))]
fn push_rare(node: &Node, boxed: &Boxed, begin: Spot, marks: &mut MarkList) -> Result<(), Stop>
    ensures ok { OnOk result (marks.new ≡ marks.old ++ node_marks marks_at boxed.now (spot_of begin) node.now) }
    ensures small { OnOk result (list_all is_small_mark (node_marks marks_at boxed.now (spot_of begin) node.now) ≡ true) }
    ensures stop { IfErr result (IsMarkStop (node_marks marks_at boxed.now (spot_of begin) node.now)) }
{
    let spot = baseline_of(boxed.axis, begin, node)?;
    match node {
        Node::Char {
            code,
            metrics,
            font,
        } => push_char(marks, spot, font, *code, metrics.width),
        Node::Lig(ligature) => {
            let ligature = ligature.get();
            push_char(
                marks,
                spot,
                &ligature.font,
                ligature.code,
                ligature.metrics.width,
            )
        }
        Node::Rule(size) => push_rule(marks, spot, rule_in(boxed, *size)),
        Node::Boxed(inner) => push_box(inner.get(), spot, marks),
        _ => Ok(()),
    }
}

/// Puts the marks of a box whose baseline begins at a spot behind others.
#[cycle(drawing)]
pub fn push_box(boxed: &Boxed, spot: Spot, marks: &mut MarkList) -> Result<(), Stop>
    ensures ok { OnOk result (marks.new ≡ marks.old ++ marks_at boxed.now (spot_of spot)) }
    ensures small { OnOk result (list_all is_small_mark (marks_at boxed.now (spot_of spot)) ≡ true) }
    ensures stop { IfErr result (IsMarkStop (marks_at boxed.now (spot_of spot))) }
{
    let mut shifts = Shifts::over(boxed);
    let mut room = 0i128;
    let mut shift = 0i128;
    let mut known: Option<Stand> = None;
    for node in boxed.items.as_slice() {
        if let Node::Char {
            code,
            metrics,
            font,
        } = node
        {
            if let Some(at) = stand_of(known, boxed, spot, room, shift)? {
                let end = match push_standing(marks, at, font, *code, metrics.width) {
                    Ok(end) => end,
                    Err(stop) => return Err(stop),
                };
                room = moved(room, i128::from(metrics.width))?;
                known = Some(Stand { h: end, v: at.v });
                continue;
            }
        }
        known = None;
        let along = moved(room, shift)?;
        let begin = spot_along(boxed.axis, boxed.height, spot, along)?;
        let taken = match push_node(node, boxed, begin, marks) {
            Ok(taken) => taken,
            Err(stop) => return Err(stop),
        };
        room = moved(room, i128::from(taken))?;
        shift = shifts.through(node);
    }
    Ok(())
}
