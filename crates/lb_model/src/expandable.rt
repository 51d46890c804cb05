//! The commands that are expanded (TeXbook, chapter 20).
use crate::open::{Compared, Pairing};
use lb_model_grammar::Stopper;
use lb_values::Form;

/// What begins a conditional.
#[derive(Clone, Copy, PartialEq, Eq)]
pub enum TestKind {
    Codes(Pairing),
    Meanings,
    Compare(Compared),
    Odd,
    Case,
    Vertical,
    Horizontal,
    True,
    False,
}

/// A command that is expanded.
#[derive(Clone, Copy, PartialEq, Eq)]
pub enum Expandable {
    ExpandAfter,
    NoExpand,
    CsName,
    String,
    Number,
    RomanNumeral,
    The,
    JobName,
    Test(TestKind),
    Part(Stopper),
    Input,
    EndInput,
    Print(Form),
    ThePage,
}
