//! The breakpoints at one break.
ghost use Rattle.std.specs.Prelude.{◌≡◌, ◌+◌, ◌*◌, ◌<◌, ◌≤◌, length, cond, not, min, get_or, false, Some, pos, negsuc, ◌^◌, ◌+ℤ◌, ◌≤ℤ◌, OnOk, IfOk, IfSome};
ghost use Rattle.std.specs.List.{All};
ghost use Rattle.lb_model_paper.specs.BestBreaks.{extra_of, is_stopped, place_of_fitness};
ghost use Rattle.lb_measure.specs.Measures.{IsLine, IsMeasured, paragraph_in};
ghost use Rattle.lb_break.specs.Points.{AreSmall, IsFresh, IsOpen, IsSmall, extended, extended_by, point_at};
ghost use Rattle.lb_break.specs.Progress.{IsGathered, Put};

use crate::point::{Breakpoint, is_cheaper};
use lb_measure::Measured;
use lb_model_paper::paragraph::{Fitness, Judged};
use std::alloc::{AllocError, Global};

fn place_of_fitness(fitness: Fitness) -> usize
    ensures { result ≡ place_of_fitness fitness }
{
    match fitness {
        Fitness::VeryLoose => 0,
        Fitness::Loose => 1,
        Fitness::Decent => 2,
        Fitness::Tight => 3,
    }
}

/// What a line of one fitness adds after one of another.
fn extra(measured: &Measured, last: Fitness, next: Fitness) -> i64
    ensures value { result ≡ extra_of (paragraph_in measured.now) last next }
    ensures low { negsuc 999999999999 ≤ℤ result }
    ensures high { result ≤ℤ pos 1000000000000 }
{
    let adjacent = measured.adjacent();
    let (last, next) = (place_of_fitness(last), place_of_fitness(next));
    if last + 1 < next || next + 1 < last {
        adjacent
    } else {
        0
    }
}

/// 1 for a bad line.
fn marks(line: Judged) -> usize
    ensures value { result ≡ cond line.is_bad 1 0 }
    ensures most { result ≤ 1 }
{
    if line.is_bad { 1 } else { 0 }
}

/// The breakpoint that a line to break `j` makes of the one at `index`, from which lines still go on.
fn extend(measured: &Measured, points: &[Breakpoint], j: usize, index: usize) -> Option<Breakpoint>
    requires measured { IsMeasured measured.now }
    requires small { AreSmall points.now j }
    requires j { j ≤ length measured.now.list.now }
    requires index { index < length points.now }
    requires live { is_stopped (paragraph_in measured.now) (point_at points.now index).class (point_at points.now index).at j ≡ false }
    ensures value { result ≡ extended (paragraph_in measured.now) points.now j index }
    ensures small { IfSome result IsSmall }
{
    let point = points[index];
    match measured.line(point.at, j) {
        Some(line) => Some(step(measured, point, line, j, index)),
        None => None,
    }
}

/// The breakpoint that a line makes of another.
fn step(measured: &Measured, point: Breakpoint, line: Judged, j: usize, index: usize) -> Breakpoint
    requires small { IsSmall point }
    requires line { IsLine line }
    requires at { point.at < j }
    requires j { j ≤ 65536 }
    ensures value { Some result ≡ extended_by (paragraph_in measured.now) index point j (Some line) }
    ensures small { IsSmall result }
{
    let extra = extra(measured, point.fitness, line.fitness);
    Breakpoint {
        at: j,
        fitness: line.fitness,
        class: measured.class_behind(point.class),
        bad: marks(line) + point.bad,
        demerits: total(line.demerits, extra, point.demerits),
        from: index,
    }
}

fn total(line: i64, extra: i64, before: i64) -> i64
    requires line { (negsuc 999999999999 ≤ℤ line) × (line ≤ℤ pos 1000000000000) }
    requires extra { (negsuc 999999999999 ≤ℤ extra) × (extra ≤ℤ pos 1000000000000) }
    requires before { (negsuc (2 ^ 58) ≤ℤ before) × (before ≤ℤ pos (2 ^ 58)) }
    ensures { result ≡ (line +ℤ extra) +ℤ before }
{
    line + extra + before
}

/// Puts in what a line to break `j` makes of the breakpoint at `index`.
fn consider(
    measured: &Measured,
    fresh: &mut Vec<Breakpoint>,
    points: &[Breakpoint],
    live: &[bool],
    j: usize,
    index: usize,
) -> Result<(), AllocError>
    requires measured { IsMeasured measured.now }
    requires small { AreSmall points.now j }
    requires j { j ≤ length measured.now.list.now }
    requires index { index < length points.now }
    requires long { length live.now ≡ length points.now }
    requires live { get_or live.now index false ≡ not (is_stopped (paragraph_in measured.now) (point_at points.now index).class (point_at points.now index).at j) }
    requires fresh { IsGathered (paragraph_in measured.now) points.now j index fresh.old.items }
    ensures { OnOk result (IsGathered (paragraph_in measured.now) points.now j (index + 1) fresh.new.items) }
{
    if !live[index] {
        return Ok(());
    }
    let Some(point) = extend(measured, points, j, index) else {
        return Ok(());
    };
    put(fresh, point)
}

/// The best breakpoints at break `j`, in the order of their lists.
pub fn gather(
    alloc: Global,
    measured: &Measured,
    points: &[Breakpoint],
    live: &[bool],
    begin: usize,
    j: usize,
) -> Result<Vec<Breakpoint>, AllocError>
    requires measured { IsMeasured measured.now }
    requires small { AreSmall points.now j }
    requires j { j ≤ length measured.now.list.now }
    requires live { IsOpen (paragraph_in measured.now) points.now j begin live.now }
    requires begin { begin ≤ length points.now }
    ensures fresh { IfOk result (λ fresh. IsFresh (paragraph_in measured.now) points.now j fresh.items) }
    ensures small { IfOk result (λ fresh. All IsSmall fresh.items) }
    ensures at { IfOk result (λ fresh. All (λ point. point.at ≡ j) fresh.items) }
{
    let mut fresh: Vec<Breakpoint> = Vec::new(alloc);
    let mut index = begin;
    while index < points.len() {
        consider(measured, &mut fresh, points, live, j, index)?;
        index += 1;
    }
    fresh.sort_by_key(|point| point.from)?;
    Ok(fresh)
}

/// Puts a breakpoint in among the best of each fitness and class.
fn put(fresh: &mut Vec<Breakpoint>, point: Breakpoint) -> Result<(), AllocError>
    ensures { OnOk result (Put fresh.old.items point fresh.new.items) }
{
    for k in 0..fresh.len() {
        let old = fresh[k];
        if old.fitness == point.fitness && old.class == point.class {
            if !is_cheaper(old, point) {
                fresh[k] = point;
            }
            return Ok(());
        }
    }
    fresh.push(point)?;
    Ok(())
}
