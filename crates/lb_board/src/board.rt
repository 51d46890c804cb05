//! The board and its calls.
ghost use Rattle.std.specs.Prelude.{◌≡◌, ℕ, ◌+◌, ◌≤◌, ◌<◌, true, false, None, Some, IfOk, IfSome, IfNone, IsSome, IsNone};
ghost use Rattle.lb_board.specs.Totals.{times};
ghost use Rattle.lb_board.specs.Views.{both, first_view, left_half, right_half, with_called, with_missed, with_posted, with_taken, IsLast};

use crate::drawn::Drawn;
use crate::plan::{Fits, Planned};
use crate::rule::BoardRule;
use crate::steps::{
    AddDraw, Both, ExchangePosted, Halves, LoadHalt, LoadJoined, OrHalt, SwapPosted, SwapTaken,
};
use crate::view::View;
use crate::words::{DRAWS, HALT, MARKS, POSTED, TAKEN, TAKING};
use atomic_table::{Seat, Table};
use lb_base::NoMemory;
use lb_values::Ticket;
use std::alloc::Global;

/// What one thread draws, posts and takes with. It has no bytes.
#[derive(Drop)]
pub struct BoardSeat<T, P> {
    seat: Seat<Option<T>, View<P>>,
}

/// A board of chapters over a plan. Any number of threads share it, each with a seat of its own.
#[derive(Drop)]
pub struct Board<T: Fits<P>, P: Planned> {
    table: Table<Option<T>, View<P>, u32, BoardRule, Global>,
    chapters: u32,
    ghost sized: { (table.shared.table_id.words ≡ chapters + 2) × (table.shared.table_id.slots ≡ chapters) × (table.shared.key ≡ chapters) },
}

impl<T: Fits<P>, P: Planned + Drop> Board<T, P> {
    ghost use Rattle.lb_board.specs.Seats.{seat_view, Draws, IsSeatOf, board_chapters};

    /// A board of so many chapters, none of them drawn, and its first seat. The plan is for clauses alone, and is let go.
    pub fn new(
        alloc: Global,
        chapters: u32,
        plan: P,
    ) -> Result<(Board<T, P>, BoardSeat<T, P>), NoMemory>
        requires plan { plan ≡ P.plan }
        ensures board { IfOk result (λ b. (board_chapters b.0 ≡ chapters) × IsSeatOf b.0 b.1) }
        ensures view { IfOk result (λ b. seat_view b.1 ≡ first_view P.plan) }
    {
        let _plan = plan;
        let words = Vec::from_elem(alloc, 0u64, chapters as usize + MARKS)?;
        let (table, seat) = Table::vacant(alloc, words.as_slice(), chapters as usize, &chapters)?;
        Ok((Board { table, chapters }, BoardSeat { seat }))
    }

    /// The number of its chapters.
    pub fn chapters(&self) -> u32
        ensures { result ≡ board_chapters self.now }
    {
        self.chapters
    }

    /// Draws the next chapter: no other draw, of any seat, gives its number. `Halted` comes only where the halt word was loaded and found set,
    /// and always to a seat that halted the board; `NoMore` comes exactly where it was not and the draw word was at least the number of
    /// chapters. The seat must hold no chapter, and have had neither of the two. Takes no memory.
    pub fn draw(&self, seat: &mut BoardSeat<T, P>) -> Drawn
        requires board { IsSeatOf self.now seat.old }
        requires idle { (seat_view seat.old).held ≡ None }
        requires going { ((seat_view seat.old).no_more ≡ false) × ((seat_view seat.old).halted ≡ false) }
        ensures board { IsSeatOf self.now seat.new }
        ensures view { Draws (board_chapters self.now) (seat_view seat.old) result (seat_view seat.new) }
    {
        let words = &self.table.shared;
        let chapters = self.chapters;
        if words.load::<LoadHalt>(&mut seat.seat, HALT) == 1 {
            return Drawn::Halted;
        }
        let found = words.fetch_add::<AddDraw>(&mut seat.seat, DRAWS, 1);
        if found < chapters as u64 {
            let chapter = found as u32;
            Drawn::Chapter(chapter, Ticket::of(chapter))
        } else {
            Drawn::NoMore
        }
    }

    /// Posts the chapter that this seat drew and holds, with a value that fits it. Takes no memory.
    pub fn post(&self, seat: &mut BoardSeat<T, P>, chapter: u32, value: T)
        requires board { IsSeatOf self.now seat.old }
        requires held { (seat_view seat.old).held ≡ Some chapter }
        requires fits { T.fits P.plan chapter value }
        ensures board { IsSeatOf self.now seat.new }
        ensures view { seat_view seat.new ≡ with_posted (seat_view seat.old) }
    {
        let words = &self.table.shared;
        let at = chapter as usize;
        match words.exchange(&mut seat.seat, at, Some(value)) {
            None => {}
            Some(_) => unreachable!(),
        }
        let _ = words.swap::<SwapPosted>(&mut seat.seat, at + MARKS, POSTED);
    }

    /// Takes what was posted for a chapter, which fits it: no other take, of any seat, gives it. `None` comes exactly where the chapter's mark
    /// was not that of a posted one as it was compared and exchanged, once in this call; never where no other seat is left, this one has had
    /// `NoMore`, and it did not take the chapter. Takes no memory.
    pub fn take(&self, seat: &mut BoardSeat<T, P>, chapter: u32) -> Option<T>
        requires board { IsSeatOf self.now seat.old }
        requires within { chapter < (board_chapters self.now) }
        ensures board { IsSeatOf self.now seat.new }
        ensures some { IfSome result (λ x. T.fits P.plan chapter x × (seat_view seat.new ≡ with_taken chapter (seat_view seat.old))) }
        ensures none { IfNone result (seat_view seat.new ≡ with_missed chapter (seat_view seat.old)) }
        ensures once { 0 < times chapter (seat_view seat.old).taken → IsNone result }
        ensures last { IsLast (seat_view seat.old) → times chapter (seat_view seat.old).taken ≡ 0 → IsSome result }
    {
        let words = &self.table.shared;
        let at = chapter as usize;
        if words.compare_exchange::<ExchangePosted>(&mut seat.seat, at + MARKS, POSTED, TAKING)
            != POSTED
        {
            return None;
        }
        let posted = words.exchange(&mut seat.seat, at, None);
        let _ = words.swap::<SwapTaken>(&mut seat.seat, at + MARKS, TAKEN);
        match posted {
            Some(value) => Some(value),
            None => unreachable!(),
        }
    }

    /// Halts the board: each later draw of this seat gives `Halted`, and so does one of another seat that finds the halt word set. Takes no
    /// memory.
    pub fn halt(&self, seat: &mut BoardSeat<T, P>)
        requires board { IsSeatOf self.now seat.old }
        ensures board { IsSeatOf self.now seat.new }
        ensures view { seat_view seat.new ≡ with_called (seat_view seat.old) }
    {
        let words = &self.table.shared;
        let _ = words.fetch_or::<OrHalt>(&mut seat.seat, HALT, 1);
    }

    /// A new seat, with half of the old one's allowance, rounded down. The old one holds no chapter and keeps the rest. Takes no memory.
    pub fn split_seat(&self, seat: &mut BoardSeat<T, P>) -> BoardSeat<T, P>
        requires board { IsSeatOf self.now seat.old }
        requires idle { (seat_view seat.old).held ≡ None }
        requires room { 2 ≤ (seat_view seat.old).allowance }
        ensures board { IsSeatOf self.now seat.new × IsSeatOf self.now result }
        ensures old { seat_view seat.new ≡ left_half (seat_view seat.old) }
        ensures new { seat_view result ≡ right_half (seat_view seat.old) }
    {
        let words = &self.table.shared;
        let other = words.split_seat::<Halves>(&mut seat.seat);
        BoardSeat { seat: other }
    }

    /// Joins another seat to this one, which then has and knows what both did. Neither holds a chapter. No number stands twice in what was
    /// drawn, nor in what was taken; and where no other seat is left, the seat has had `Halted` only where it halted the board. Takes no memory.
    pub fn join_seat(&self, seat: &mut BoardSeat<T, P>, other: BoardSeat<T, P>)
        requires board { IsSeatOf self.now seat.old × IsSeatOf self.now other }
        requires idle { ((seat_view seat.old).held ≡ None) × ((seat_view other).held ≡ None) }
        ensures board { IsSeatOf self.now seat.new }
        ensures view { seat_view seat.new ≡ both (seat_view seat.old) (seat_view other) }
        ensures drawn_once { (c : ℕ) → times c (seat_view seat.new).drawn ≤ 1 }
        ensures taken_once { (c : ℕ) → times c (seat_view seat.new).taken ≤ 1 }
        ensures part { (seat_view seat.new).allowance ≤ 65536 }
        ensures halted { (seat_view seat.new).allowance ≡ 65536 → (seat_view seat.new).halted ≡ true → (seat_view seat.new).called ≡ true }
    {
        let words = &self.table.shared;
        let BoardSeat { seat: other } = other;
        words.join_seat::<Both>(&mut seat.seat, other);
        let _ = words.load::<LoadJoined>(&mut seat.seat, DRAWS);
    }
}
