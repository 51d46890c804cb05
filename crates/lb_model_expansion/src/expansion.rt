//! How a step of expansion goes.
use lb_base::{Bytes, Fault, Kind, Tok, TokList};
use lb_model_grammar::{Quantity, Scanned};

/// What the caller is answered who asked for a reading.
#[derive(Drop)]
pub enum Answer {
    Scanned(Scanned),
    Quantity(Quantity),
    /// A text in braces, expanded to characters.
    Word(Bytes),
    /// A text in braces, expanded.
    Body(TokList),
}

/// How a step went.
#[derive(Drop)]
pub enum Went {
    /// There is more to do.
    On,
    /// A token that is not expanded came, and no reading is open.
    Gave(Tok),
    /// The reading that was asked for is done.
    Answered(Answer),
    /// The piece ended, and no reading is open.
    Over,
    /// A fault, at the place of the last token that was taken from a text.
    Stopped(Kind),
    /// A fault with a place of its own.
    StoppedAt(Fault),
}
