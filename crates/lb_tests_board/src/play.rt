//! The steps of a command, made on a board.
ghost use Rattle.std.specs.Prelude.{IfSome, OnOk};
ghost use Rattle.std.specs.List.{All};
ghost use Rattle.lb_tests_board.specs.Workers.{IsWorkerOf};

use crate::steps::Step;
use crate::stop::Stop;
use crate::values::FromOwn;
use crate::worker::{Answer, Worker};
use lb_board::Board;
use std::alloc::Global;
use std::fmt::Write;

/// Makes a board and the steps on it, and shows what comes of each.
pub(crate) fn show(
    alloc: Global,
    count: u32,
    steps: &[&str],
    out: &mut String,
) -> Result<(), Stop> {
    let (board, seat) = Board::<u64, FromOwn>::new(alloc, count, FromOwn)?;
    let mut workers = Vec::new(alloc);
    workers.push(Worker::first(&board, seat))?;
    for (place, word) in steps.iter().enumerate() {
        if place > 0 {
            out.push(' ')?;
        }
        let step = Step::of(alloc, word)?;
        show_answer(make(&board, &mut workers, step)?, out)?;
    }
    Ok(())
}

/// Makes a step.
fn make(board: &Board<u64, FromOwn>, workers: &mut Vec<Worker>, step: Step) -> Result<Answer, Stop>
    requires { All (IsWorkerOf board.now) workers.old.items }
    ensures { OnOk result (All (IsWorkerOf board.now) workers.new.items) }
{
    match step {
        Step::Call(seat, call) => match workers.get_mut(seat) {
            Some(worker) => Ok(worker.call(board, call)),
            None => Ok(Answer::Unmet),
        },
        Step::Split(seat) => split(board, workers, seat),
        Step::Join(seat, other) => join(board, workers, seat, other),
    }
}

/// Splits a worker, and shows the number of the new one.
fn split(
    board: &Board<u64, FromOwn>,
    workers: &mut Vec<Worker>,
    seat: usize,
) -> Result<Answer, Stop>
    requires { All (IsWorkerOf board.now) workers.old.items }
    ensures { OnOk result (All (IsWorkerOf board.now) workers.new.items) }
{
    let Some(worker) = workers.get_mut(seat) else {
        return Ok(Answer::Unmet);
    };
    let Some(other) = worker.split(board) else {
        return Ok(Answer::Unmet);
    };
    let number = workers.len() as u64;
    workers.push(other)?;
    Ok(Answer::Number(number))
}

/// Joins another worker to this one.
fn join(
    board: &Board<u64, FromOwn>,
    workers: &mut Vec<Worker>,
    seat: usize,
    other: usize,
) -> Result<Answer, Stop>
    requires { All (IsWorkerOf board.now) workers.old.items }
    ensures { OnOk result (All (IsWorkerOf board.now) workers.new.items) }
{
    if seat == other || !is_idle(workers.as_slice(), seat) || !is_idle(workers.as_slice(), other) {
        return Ok(Answer::Unmet);
    }
    let Some(gone) = take_out(board, workers, other) else {
        return Ok(Answer::Unmet);
    };
    let place = if other < seat { seat - 1 } else { seat };
    let Some(worker) = workers.get_mut(place) else {
        return Err(Stop::Command);
    };
    worker.join(board, gone)?;
    Ok(Answer::Done)
}

/// Whether a worker is there and holds no chapter.
fn is_idle(workers: &[Worker], seat: usize) -> bool {
    match workers.get(seat) {
        Some(worker) => worker.is_idle(),
        None => false,
    }
}

/// Takes a worker out, and those behind it move up.
fn take_out(board: &Board<u64, FromOwn>, workers: &mut Vec<Worker>, seat: usize) -> Option<Worker>
    requires { All (IsWorkerOf board.now) workers.old.items }
    ensures left { All (IsWorkerOf board.now) workers.new.items }
    ensures out { IfSome result (IsWorkerOf board.now) }
{
    let _ = board;
    if seat >= workers.len() {
        return None;
    }
    Some(workers.remove(seat))
}

fn show_answer(answer: Answer, out: &mut String) -> Result<(), Stop> {
    match answer {
        Answer::Unmet => out.push('!')?,
        Answer::Done => out.push_str("ok")?,
        Answer::Number(number) => write!(out, "{number}")?,
        Answer::Nothing => out.push('-')?,
        Answer::NoMore => out.push_str("none")?,
        Answer::Halted => out.push_str("halted")?,
    }
    Ok(())
}
