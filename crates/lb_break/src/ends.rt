//! The least breakpoint at the end, and the breaks that lead to it.
ghost use Rattle.std.specs.Prelude.{◌≡◌, ◌+◌, ◌<◌, ℕ, List, length, IfOk, IfSome};
ghost use Rattle.lb_model_paper.specs.declared.paragraph.BreakEnd.{BreakEnd};
ghost use Rattle.lb_measure.specs.Measures.{paragraph_in};
ghost use Rattle.lb_break.specs.Points.{EndBelow, IsLinked, IsTrail, end_at};
ghost use Rattle.lb_break.specs.Progress.{end_of};

use crate::point::{Breakpoint, is_cheaper};
use lb_measure::Measured;
use lb_model_paper::paragraph::BreakEnd;
use std::alloc::{AllocError, Global};

/// The best breakpoint at the last break.
pub fn choose(measured: &Measured, points: &[Breakpoint]) -> Option<usize>
    ensures { EndBelow (paragraph_in measured.now) points.now (length points.now) result }
{
    let mut best: Option<usize> = None;
    for index in 0..points.len() {
        best = consider_end(measured, points, best, index);
    }
    best
}

/// The index where its breakpoint is at the last break and costs less, else the best one so far.
fn consider_end(
    measured: &Measured,
    points: &[Breakpoint],
    best: Option<usize>,
    index: usize,
) -> Option<usize>
    requires best { EndBelow (paragraph_in measured.now) points.now index best }
    requires index { index < length points.now }
    ensures { EndBelow (paragraph_in measured.now) points.now (index + 1) result }
{
    if points[index].at != measured.count() {
        return best;
    }
    Some(earlier(points, best, index))
}

/// The index where its breakpoint costs less, else the best one so far.
fn earlier(points: &[Breakpoint], best: Option<usize>, index: usize) -> usize
    requires best { IfSome best (λ q. q < length points.now) }
    requires index { index < length points.now }
    ensures { result ≡ end_of points.now best index }
{
    let Some(first) = best else {
        return index;
    };
    if is_cheaper(points[first], points[index]) {
        return first;
    }
    index
}

/// The ends of the lines that lead to a breakpoint, the last one first.
pub fn trail(
    alloc: Global,
    points: &[Breakpoint],
    index: usize,
) -> Result<Vec<BreakEnd>, AllocError>
    requires linked { IsLinked points.now }
    requires index { index < length points.now }
    ensures { IfOk result (λ ends. (x : ℕ → List BreakEnd) → IsTrail points.now x → ends.items ≡ x index) }
{
    let mut ends: Vec<BreakEnd> = Vec::new(alloc);
    let mut q = index;
    while q > 0 {
        ends.push(end_at(points, q))?;
        q = points[q].from;
    }
    Ok(ends)
}

/// The end of the last line to a breakpoint.
fn end_at(points: &[Breakpoint], q: usize) -> BreakEnd
    requires linked { IsLinked points.now }
    requires some { 0 < q }
    requires index { q < length points.now }
    ensures { result ≡ end_at points.now q }
{
    let point = points[q];
    BreakEnd {
        item: point.at - 1,
        is_bad: points[point.from].bad < point.bad,
    }
}
