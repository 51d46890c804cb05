//! The readings and the conditionals that can be open, and what becomes of what is read.
use lb_base::Tok;
use lb_model_grammar::{Rel, ScanKind};
use lb_values::Form;

/// What a test compares by a relation: `\ifnum`, `\ifdim`.
#[derive(Clone, Copy, PartialEq, Eq)]
pub enum Compared {
    Numbers,
    Dimensions,
}

/// What a test compares of two tokens: `\if`, `\ifcat`.
#[derive(Clone, Copy, PartialEq, Eq)]
pub enum Pairing {
    Codes,
    Categories,
}

/// Quantities that a number from 0 to 255 picks: registers, the sizes of boxes, and codes.
#[derive(Clone, Copy, PartialEq, Eq)]
pub enum Indexed {
    Count,
    Dimen,
    Skip,
    Toks,
    Width,
    Height,
    Depth,
    Category,
    LowerCase,
    UpperCase,
    SpaceFactor,
}

/// What becomes of a number, of a dimension, or of a text in braces.
#[derive(Clone, Copy, PartialEq, Eq)]
pub enum Purpose {
    /// The caller is answered.
    Asked,
    /// It is written in digits.
    Digits,
    /// It is written in Roman numerals.
    Roman,
    /// It is the left side of a comparison.
    Left(Compared),
    /// It is the right side of a comparison with this left side.
    Right(Compared, i32, Rel),
    /// It is tested.
    Odd,
    /// It chooses a part.
    Case,
    /// It picks a quantity.
    Index(Indexed),
    /// It names a counter that is printed.
    Print(Form),
    /// It names a counter whose value is the quantity that is asked for.
    CounterValue,
    /// It names a file that is read next.
    Input,
}

/// What an open reading reads.
#[derive(Drop)]
pub enum ReadingKind {
    Scan(ScanKind, Purpose),
    /// A text in braces, expanded to characters, whose opening brace is taken.
    Word(Purpose),
    /// The characters from `\csname` to `\endcsname`.
    Name,
    /// The name of a file without braces.
    File,
    /// A text in braces, expanded, whose opening brace is taken.
    Body,
    /// The codes or the categories of two tokens, of which the first may be read.
    Codes(Pairing, Option<u16>),
    /// The relation behind the left side of a comparison.
    Relation(Compared, i32),
    /// The quantity of a token that the caller asks for.
    Quantity,
    /// What `\expandafter` has still to take, where it holds this token.
    After(Tok),
    /// The expansion of the token behind the one that `\expandafter` holds.
    Held(Tok),
    /// What `\the` has still to take.
    The,
}

/// The state of an open conditional: its condition is still read, or which of its parts is read.
#[derive(Clone, Copy, PartialEq, Eq)]
pub enum Conditional {
    Deciding,
    Then,
    Case,
    Otherwise,
}
