//! The table of the best breakpoints at all breaks, by those from which lines still go on.
ghost use Rattle.std.specs.Prelude.{◌≡◌, ◌+◌, ◌<◌, ◌≤◌, ◌++◌, ℕ, true, false, length, not, get_or, replicate, OnOk, IfOk};
ghost use Rattle.lb_model_paper.specs.BestBreaks.{is_stopped};
ghost use Rattle.lb_measure.specs.Measures.{IsMeasured, paragraph_in};
ghost use Rattle.lb_break.specs.Points.{AreSmall, HasChart, IsOpen, point_at};
ghost use Rattle.lb_break.specs.Progress.{IsVisited};

use crate::gathering::gather;
use crate::point::{Breakpoint, start};
use lb_measure::Measured;
use std::alloc::{AllocError, Global};

/// The best breakpoints at each break.
pub fn table(alloc: Global, measured: &Measured) -> Result<Vec<Breakpoint>, AllocError>
    requires measured { IsMeasured measured.now }
    ensures chart { IfOk result (λ points. HasChart (paragraph_in measured.now) points.items ((paragraph_in measured.now).count + 1)) }
{
    let mut points: Vec<Breakpoint> = Vec::new(alloc);
    points.push(start())?;
    let mut live: Vec<bool> = Vec::new(alloc);
    live.push(true)?;
    let mut begin = 0;
    for j in 1..measured.count() + 1 {
        begin = visit(alloc, measured, &mut points, &mut live, begin, j)?;
    }
    Ok(points)
}

/// Adds the best breakpoints at break `j`, and answers where those begin from which lines still go on.
fn visit(
    alloc: Global,
    measured: &Measured,
    points: &mut Vec<Breakpoint>,
    live: &mut Vec<bool>,
    begin: usize,
    j: usize,
) -> Result<usize, AllocError>
    requires measured { IsMeasured measured.now }
    requires some { 0 < j }
    requires j { j ≤ length measured.now.list.now }
    requires visited { IsVisited (paragraph_in measured.now) points.old.items live.old.items begin j }
    ensures { IfOk result (λ begin. IsVisited (paragraph_in measured.now) points.new.items live.new.items begin (j + 1)) }
{
    if !measured.is_break(j) {
        return Ok(begin);
    }
    let mut fresh = gather(alloc, measured, points, live, begin, j)?;
    close(measured, points, live, begin, j);
    let begin = first_live(live, begin);
    grow(live, fresh.len())?;
    points.append(&mut fresh)?;
    Ok(begin)
}

/// Takes the mark from each breakpoint whose lines end at break `j`.
fn close(measured: &Measured, points: &[Breakpoint], live: &mut [bool], begin: usize, j: usize)
    requires measured { IsMeasured measured.now }
    requires small { AreSmall points.now j }
    requires j { j ≤ length measured.now.list.now }
    requires live { IsOpen (paragraph_in measured.now) points.now j begin live.old }
    requires begin { begin ≤ length points.now }
    ensures { (q : ℕ) → begin ≤ q → q < length points.now → get_or live.new q false ≡ not (is_stopped (paragraph_in measured.now) (point_at points.now q).class (point_at points.now q).at (j + 1)) }
{
    let mut index = begin;
    while index < points.len() {
        let at = points[index].at;
        live[index] = live[index] && !measured.stops(at, j);
        index += 1;
    }
}

/// The first index from `begin` on that is marked, or the length.
fn first_live(live: &[bool], begin: usize) -> usize
    requires { begin ≤ length live.now }
    ensures low { begin ≤ result }
    ensures high { result ≤ length live.now }
    ensures passed { (q : ℕ) → begin ≤ q → q < result → get_or live.now q false ≡ false }
{
    let mut index = begin;
    while index < live.len() {
        if live[index] {
            return index;
        }
        index += 1;
    }
    index
}

/// Adds marks.
fn grow(live: &mut Vec<bool>, count: usize) -> Result<(), AllocError>
    ensures { OnOk result (live.new.items ≡ live.old.items ++ replicate count true) }
{
    for _done in 0..count {
        live.push(true)?;
    }
    Ok(())
}
