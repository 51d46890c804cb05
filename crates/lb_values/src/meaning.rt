//! What control sequences and active characters mean.
ghost use Rattle.std.specs.Prelude.{◌≡◌, ◌↔◌, IsTrue};
ghost use Rattle.lb_values.specs.Registers.{register_cell};

use crate::cell::Cell;
use crate::shared::Shared;
use lb_base::{Category, TokList, equal_tokens};
use lb_rows::{Command, Parameter};
use std::alloc::AllocError;

/// What a control sequence or an active character means.
#[derive(Drop)]
pub enum Meaning {
    /// A command that is built in.
    Row(Command),
    Macro(Shared<MacroDef>),
    /// A character with its category, as `\let` gives one.
    Char(Category, u8),
    /// A character number, as `\chardef` gives one.
    Number(u8),
    Register(Register),
}

/// A register or a parameter that has a name.
#[derive(Clone, Copy, PartialEq, Eq)]
pub enum Register {
    Count(u8),
    Dimen(u8),
    Skip(u8),
    Toks(u8),
    Par(Parameter),
}

/// A macro: what its arguments look like, and what it stands for.
#[derive(Drop)]
pub struct MacroDef {
    pub pattern: Pattern,
    pub body: TokList,
}

/// The parameter text of a macro. A `long` one may take `\par` in its arguments. `first` is the default of the first
/// argument, where that is optional; `tokens` has the other parameters and what delimits them.
#[derive(Drop)]
pub struct Pattern {
    pub long: bool,
    pub first: Option<TokList>,
    pub tokens: TokList,
}

impl Register {
    /// The cell that holds its value.
    pub fn cell(self) -> Cell
        ensures { result ≡ register_cell self }
    {
        match self {
            Register::Count(number) => Cell::Count(number),
            Register::Dimen(number) => Cell::Dimen(number),
            Register::Skip(number) => Cell::Skip(number),
            Register::Toks(number) => Cell::Toks(number),
            Register::Par(parameter) => Cell::Par(parameter),
        }
    }
}

impl Clone for Meaning {
    ghost is_clone = { λ meaning copy. copy ≡ meaning };

    fn clone(&self) -> Result<Meaning, AllocError> {
        match self {
            Meaning::Row(command) => Ok(Meaning::Row(*command)),
            Meaning::Macro(definition) => Ok(Meaning::Macro(definition.clone()?)),
            Meaning::Char(category, code) => Ok(Meaning::Char(*category, *code)),
            Meaning::Number(code) => Ok(Meaning::Number(*code)),
            Meaning::Register(register) => Ok(Meaning::Register(*register)),
        }
    }
}

impl Meaning {
    /// Whether two meanings are the same.
    pub fn equals(&self, other: &Meaning) -> bool
        ensures { IsTrue result ↔ (self.now ≡ other.now) }
    {
        match (self, other) {
            (Meaning::Row(command), Meaning::Row(other)) => command == other,
            (Meaning::Macro(definition), Meaning::Macro(other)) => {
                definition.get().equals(other.get())
            }
            (Meaning::Char(category, code), Meaning::Char(other_category, other_code)) => {
                category == other_category && code == other_code
            }
            (Meaning::Number(code), Meaning::Number(other)) => code == other,
            (Meaning::Register(register), Meaning::Register(other)) => register == other,
            _ => false,
        }
    }
}

impl MacroDef {
    /// Whether two macros are the same.
    pub fn equals(&self, other: &MacroDef) -> bool
        ensures { IsTrue result ↔ (self.now ≡ other.now) }
    {
        self.pattern.equals(&other.pattern)
            && equal_tokens(self.body.as_slice(), other.body.as_slice())
    }
}

impl Pattern {
    /// Whether two parameter texts are the same.
    pub fn equals(&self, other: &Pattern) -> bool
        ensures { IsTrue result ↔ (self.now ≡ other.now) }
    {
        self.long == other.long
            && equal_defaults(&self.first, &other.first)
            && equal_tokens(self.tokens.as_slice(), other.tokens.as_slice())
    }
}

fn equal_defaults(first: &Option<TokList>, other: &Option<TokList>) -> bool
    ensures { IsTrue result ↔ (first.now ≡ other.now) }
{
    match (first, other) {
        (Some(tokens), Some(other)) => equal_tokens(tokens.as_slice(), other.as_slice()),
        (None, None) => true,
        _ => false,
    }
}
