//! What single tokens are to what reads them.

/// What a token is where a number, a dimension or glue begins (TeXbook, chapter 24).
#[derive(Clone, Copy, PartialEq, Eq)]
pub enum Class {
    Space,
    Plus,
    Minus,
    /// A decimal digit, from 0 to 9.
    Digit(u8),
    Octal,
    Hexadecimal,
    /// A backquote, behind which a character stands for its code.
    Quote,
    Point,
    /// A control sequence or an active character.
    Command,
    Other,
}

/// What a token is in an argument (TeXbook, chapter 20): a brace, the end of a paragraph where the argument may have none, or any other.
#[derive(Clone, Copy, PartialEq, Eq)]
pub enum Brace {
    Opening,
    Closing,
    Paragraph,
    Plain,
}
