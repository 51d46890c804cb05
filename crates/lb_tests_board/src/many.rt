//! Many chapters on one thread.
use crate::stop::Stop;
use crate::values::FromOwn;
use lb_board::{Board, Drawn};
use std::alloc::Global;
use std::fmt::Write;

/// Draws, posts and takes each chapter of a board, and shows the number behind the last, how many it took, and the total of what it took.
pub(crate) fn show(alloc: Global, count: u32, out: &mut String) -> Result<(), Stop> {
    let (board, mut seat) = Board::<u64, FromOwn>::new(alloc, count, FromOwn)?;
    let mut drawn = 0u64;
    let mut taken = 0u64;
    let mut total = 0u64;
    for _ in 0..=count {
        let Drawn::Chapter(chapter, _ticket) = board.draw(&mut seat) else {
            break;
        };
        drawn = chapter as u64 + 1;
        board.post(&mut seat, chapter, chapter as u64);
        if let Some(value) = board.take(&mut seat, chapter) {
            taken = taken.wrapping_add(1);
            total = total.wrapping_add(value);
        }
    }
    write!(out, "{drawn} {taken} {total}")?;
    Ok(())
}
