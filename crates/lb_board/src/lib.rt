//! A board of chapters that threads share without a lock: each number is drawn by one thread, and what is posted for it is taken once.
#![tactic(auto)]

mod board;
pub mod crossing;
mod drawn;
mod plan;
mod rule;
mod steps;
mod view;
mod words;

pub use board::{Board, BoardSeat};
pub use drawn::Drawn;
pub use lb_values::Ticket;
pub use plan::{Fits, Planned};
pub use view::View;
