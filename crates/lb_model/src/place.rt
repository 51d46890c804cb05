//! Where tokens come from, and how the text stands.
use lb_base::{Kind, Name, Tok};

/// A file and a line of it, from 1.
#[derive(Drop)]
pub struct Place {
    pub file: Name,
    pub line: u64,
}

/// What stands next: a token, nothing, or a fault in its place.
#[derive(Drop)]
pub enum Got {
    Tok(Tok),
    End,
    Fault(Kind),
}

/// Vertical, in a paragraph, or inside a horizontal box (TeXbook, chapter 13).
#[derive(Clone, Copy, PartialEq, Eq)]
pub enum Mode {
    Vertical,
    Paragraph,
    Restricted,
}
