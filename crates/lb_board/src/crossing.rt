//! Threads share a board, and each is sent a seat.
use crate::board::{Board, BoardSeat};
use crate::plan::{Fits, Planned};

/// Takes only what may be shared by threads.
fn shared<T: Sync>(_held: &T) {}

/// Takes only what may be sent to another thread.
fn sent<T: Send>(_held: &T) {}

/// A board may be shared by threads, where what is posted may be sent.
pub fn board_is_shared<T: Fits<P> + Send, P: Planned>(board: &Board<T, P>) {
    shared(board);
}

/// A seat may be sent to another thread there.
pub fn seat_is_sent<T: Send, P>(seat: &BoardSeat<T, P>) {
    sent(seat);
}
