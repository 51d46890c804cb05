//! The right to set a piece.
ghost use Rattle.std.specs.Prelude.{◌≡◌};

/// The right to set one piece of a book once. It cannot be copied.
#[derive(Drop)]
pub struct Ticket {
    piece: u32,
}

impl Ticket {
    /// The ticket of a piece, by its number. Takes no memory.
    pub fn of(piece: u32) -> Ticket
        ensures { result.piece ≡ piece }
    {
        Ticket { piece }
    }

    /// The number of the piece.
    pub fn piece(&self) -> u32
        ensures { result ≡ self.now.piece }
    {
        self.piece
    }
}
