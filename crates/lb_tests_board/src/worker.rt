//! A seat, and what the program keeps of it to meet the conditions of the calls.
ghost use Rattle.std.specs.Prelude.{◌≡◌, IfSome, OnOk};
ghost use Rattle.lb_board.specs.Seats.{IsSeatOf, board_chapters, seat_view};
ghost use Rattle.lb_board.specs.Views.{first_view};

use crate::steps::Call;
use crate::stop::Stop;
use crate::values::FromOwn;
use lb_board::{Board, BoardSeat, Drawn};

/// A seat with the chapter that it holds, whether it may draw, and its allowance.
#[derive(Drop)]
pub(crate) struct Worker {
    seat: BoardSeat<u64, FromOwn>,
    held: Option<u32>,
    draws: bool,
    allowance: u64,
}

/// What comes of a step.
#[derive(Clone, Copy)]
pub(crate) enum Answer {
    /// A condition of the call is not met.
    Unmet,
    Done,
    Number(u64),
    /// There is nothing to take.
    Nothing,
    NoMore,
    Halted,
}

impl Worker {
    ghost use Rattle.lb_tests_board.specs.Workers.{IsWorkerOf};

    /// The first worker of a board.
    pub(crate) fn first(board: &Board<u64, FromOwn>, seat: BoardSeat<u64, FromOwn>) -> Worker
        requires seat { IsSeatOf board.now seat }
        requires first { seat_view seat ≡ first_view (record {}) }
        ensures { IsWorkerOf board.now result }
    {
        let _ = board;
        Worker {
            seat,
            held: None,
            draws: true,
            allowance: 65_536,
        }
    }

    /// Whether it holds no chapter.
    pub(crate) fn is_idle(&self) -> bool {
        self.held.is_none()
    }

    /// Makes a call.
    pub(crate) fn call(&mut self, board: &Board<u64, FromOwn>, call: Call) -> Answer
        requires { IsWorkerOf board.now self.old }
        ensures { IsWorkerOf board.now self.new }
    {
        match call {
            Call::Draw => self.draw(board),
            Call::Post(more) => self.post(board, more),
            Call::Take(chapter) => self.take(board, chapter),
            Call::Halt => {
                board.halt(&mut self.seat);
                Answer::Done
            }
        }
    }

    fn draw(&mut self, board: &Board<u64, FromOwn>) -> Answer
        requires { IsWorkerOf board.now self.old }
        ensures { IsWorkerOf board.now self.new }
    {
        if self.held.is_some() || !self.draws {
            return Answer::Unmet;
        }
        match board.draw(&mut self.seat) {
            Drawn::Chapter(chapter, ticket) => {
                self.held = Some(chapter);
                Answer::Number(ticket.piece() as u64)
            }
            Drawn::NoMore => {
                self.draws = false;
                Answer::NoMore
            }
            Drawn::Halted => {
                self.draws = false;
                Answer::Halted
            }
        }
    }

    fn post(&mut self, board: &Board<u64, FromOwn>, more: u32) -> Answer
        requires { IsWorkerOf board.now self.old }
        ensures { IsWorkerOf board.now self.new }
    {
        let Some(chapter) = self.held else {
            return Answer::Unmet;
        };
        board.post(&mut self.seat, chapter, chapter as u64 + more as u64);
        self.held = None;
        Answer::Done
    }

    fn take(&mut self, board: &Board<u64, FromOwn>, chapter: u32) -> Answer
        requires { IsWorkerOf board.now self.old }
        ensures { IsWorkerOf board.now self.new }
    {
        if chapter >= board.chapters() {
            return Answer::Unmet;
        }
        match board.take(&mut self.seat, chapter) {
            Some(value) => Answer::Number(value - chapter as u64),
            None => Answer::Nothing,
        }
    }

    /// A new worker, where this one holds no chapter and its allowance can be split.
    pub(crate) fn split(&mut self, board: &Board<u64, FromOwn>) -> Option<Worker>
        requires { IsWorkerOf board.now self.old }
        ensures old { IsWorkerOf board.now self.new }
        ensures new { IfSome result (IsWorkerOf board.now) }
    {
        if self.held.is_some() || self.allowance < 2 {
            return None;
        }
        let seat = board.split_seat(&mut self.seat);
        let half = self.allowance / 2;
        self.allowance -= half;
        Some(Worker {
            seat,
            held: None,
            draws: self.draws,
            allowance: half,
        })
    }

    /// Joins another worker to this one, where neither holds a chapter.
    pub(crate) fn join(&mut self, board: &Board<u64, FromOwn>, other: Worker) -> Result<(), Stop>
        requires { IsWorkerOf board.now self.old × IsWorkerOf board.now other }
        ensures { OnOk result (IsWorkerOf board.now self.new) }
    {
        let Worker {
            seat,
            held,
            draws,
            allowance,
        } = other;
        if self.held.is_some() || held.is_some() {
            return Err(Stop::Command);
        }
        board.join_seat(&mut self.seat, seat);
        self.draws = self.draws && draws;
        self.allowance += allowance;
        Ok(())
    }
}
