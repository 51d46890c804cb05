//! The log lines of bad lines (TeXbook, chapter 14; tex.web, sections 660 to 668). Lengths are in scaled points, 65536 to the point.
ghost use Rattle.std.specs.Prelude.{◌≡◌, ◌≤◌, ◌++◌, ◌<◌, ◌-ℤ◌, IfOk, OnOk, length, neg_ℤ, pos, true};
ghost use Rattle.std.specs.Int.{int_min};
ghost use Rattle.lb_measure.specs.Amounts.{AreNear, IsNear};
ghost use Rattle.lb_measure.specs.Measures.{IsMeasured};
ghost use Rattle.lb_model_paper.specs.Breaks.{excess_in, is_overfull_by, items_in};
ghost use Rattle.lb_model_paper.specs.Lines.{AreEnds};
ghost use Rattle.lb_model_nest.specs.Paragraphs.{bad_event};
ghost use Rattle.lb_nest.specs.Endings.{bad_line, bad_lines, has_bad};

use crate::entries::{Entry, EntryList};
use lb_base::{NoMemory, NodeList};
use lb_measure::{Measured, measure};
use lb_model::Place;
use lb_model_journal::Event;
use lb_model_paper::paragraph::{BreakEnd, BreakList, LineSums, Shape};
use std::alloc::Global;

/// What a length is at most, within 32 bits.
const MOST: i64 = 2_147_483_647;

// What a line has to stretch by, and below 0 to shrink by.
fn excess_in(shape: &Shape, sums: &LineSums) -> i64
    requires near { IsNear 1048576 sums.now.width }
    ensures value { result ≡ excess_in shape.now sums.now }
    ensures near { IsNear 1048577 result }
{
    i64::from(shape.width) - sums.width
}

// Whether a line has to shrink by more than its shrink.
fn is_overfull(excess: i64, shrink: i64) -> bool
    requires near { IsNear 1048577 excess }
    ensures { result ≡ is_overfull_by excess shrink }
{
    excess < 0 && shrink < -excess
}

// How much is missing of the shrink of an overfull line, held within 32 bits.
fn missing_of(excess: i64, shrink: i64) -> i32
    requires excess { IsNear 1048577 excess }
    requires shrink { IsNear 1048576 shrink }
    requires overfull { is_overfull_by excess shrink ≡ true }
    ensures { result ≡ int_min (neg_ℤ excess -ℤ shrink) (pos 2147483647) }
{
    let missing = -excess - shrink;
    if missing > MOST {
        return i32::MAX;
    }
    missing as i32
}

// The event of a bad line with these sums: it has to shrink by more than it can, or stretches too far.
fn bad_event(shape: &Shape, sums: &LineSums, place: &Place) -> Result<Event, NoMemory>
    requires near { AreNear 1048576 sums.now }
    ensures { IfOk result (λ event. event ≡ bad_event shape.now sums.now place.now) }
{
    let file = place.file.clone()?;
    let line = place.line;
    let excess = excess_in(shape, sums);
    if is_overfull(excess, sums.shrink) {
        let missing = missing_of(excess, sums.shrink);
        return Ok(Event::Overfull {
            missing,
            file,
            line,
        });
    }
    Ok(Event::Underfull { file, line })
}

// Puts the log line of a line from break `from` behind others, if it is bad.
fn push_line(
    entries: &mut EntryList,
    measured: &Measured,
    from: usize,
    end: &BreakEnd,
    place: &Place,
) -> Result<(), NoMemory>
    requires measured { IsMeasured measured.now }
    requires from { from ≤ end.now.item }
    requires within { end.now.item < length measured.now.list.now }
    ensures { OnOk result (entries.new ≡ entries.old ++ bad_line place.now measured.now.shape measured.now.list.now from end.now) }
{
    if !end.is_bad {
        return Ok(());
    }
    let sums = measured.sums(from, end.item + 1);
    entries.push(Entry::Event(bad_event(&measured.shape, &sums, place)?))
}

// Whether one of these lines is bad.
fn has_bad(ends: &[BreakEnd]) -> bool
    ensures { result ≡ has_bad ends.now }
{
    for end in ends {
        if end.is_bad {
            return true;
        }
    }
    false
}

/// The log lines of the bad lines of a list that ends at these breaks, at the place of its end.
pub(crate) fn bad_lines(
    alloc: Global,
    list: &NodeList,
    shape: &Shape,
    breaks: &BreakList,
    place: &Place,
) -> Result<EntryList, NoMemory>
    requires few { items_in list.now ≤ 65536 }
    requires ends { AreEnds list.now 0 breaks.now.ends }
    ensures { IfOk result (λ entries. entries ≡ bad_lines place.now shape.now list.now 0 breaks.now.ends) }
{
    let mut entries = EntryList::new(alloc);
    let ends = breaks.ends.as_slice();
    if !has_bad(ends) {
        return Ok(entries);
    }
    let measured = measure(alloc, list.as_slice(), shape)?;
    let mut from = 0;
    for k in 0..ends.len() {
        push_line(&mut entries, &measured, from, &ends[k], place)?;
        from = ends[k].item + 1;
    }
    Ok(entries)
}
