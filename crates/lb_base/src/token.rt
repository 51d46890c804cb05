//! Tokens.
use crate::listed::Listed;
use crate::name::Name;

/// The category of a character (TeXbook, chapter 7). Its code is its place here, from 0.
#[derive(Clone, Copy, PartialEq, Eq)]
pub enum Category {
    Escape,
    BeginGroup,
    EndGroup,
    MathShift,
    AlignmentTab,
    EndOfLine,
    Parameter,
    Superscript,
    Subscript,
    Ignored,
    Space,
    Letter,
    Other,
    Active,
    Comment,
    Invalid,
}

/// A token: a character with the category that it had when it was read, a control sequence, an
/// active character, or a parameter of a macro by its number from 1.
#[derive(Clone, Drop, PartialEq, Eq)]
pub enum Tok {
    Char(Category, u8),
    Word(Name),
    Active(u8),
    Param(u8),
}

pub type TokList = Listed<Tok>;
