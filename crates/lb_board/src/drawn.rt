//! What a draw gives.
use lb_values::Ticket;

/// What a draw gives.
#[derive(Drop)]
pub enum Drawn {
    /// The number of a chapter, and the right to set it.
    Chapter(u32, Ticket),
    /// All chapters were drawn.
    NoMore,
    /// The board was halted.
    Halted,
}
