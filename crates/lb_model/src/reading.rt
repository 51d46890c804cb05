//! Where the reading of a line stands, and what is read of it (TeXbook, chapter 8; tex.web, part 22).
use lb_base::Tok;

/// The state of a reader of lines.
#[derive(Clone, Copy, PartialEq, Eq)]
pub enum ReaderState {
    /// At the beginning of a line.
    NewLine,
    MidLine,
    /// Spaces are skipped.
    SkipBlanks,
}

/// What is read of a line: its next token, or its end.
#[derive(Drop)]
pub enum Read {
    Tok(Tok),
    EndOfLine,
}
