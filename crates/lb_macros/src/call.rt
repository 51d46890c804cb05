//! Macros whose bodies are read (TeXbook, chapter 20; tex.web, part 25).
ghost use Rattle.std.specs.Prelude.{◌≡◌, ◌++◌, ◌<◌, [], List, IfOk, OnErr, true, false, length, min};
ghost use Rattle.lb_base.specs.declared.token.Tok.{Tok as AToken};
ghost use Rattle.lb_model_grammar.specs.Arguments.{filled, substituted};
ghost use Rattle.lb_macros.specs.Pieces.{is_end, piece_before};

use crate::arguments::Arguments;
use crate::rest::Rest;
use lb_base::{NoMemory, Tok};
use lb_values::{MacroDef, Shared};
use std::marker::Model;

/// A macro with its arguments, from a place of its body on.
#[derive(Drop)]
pub struct Call {
    definition: Shared<MacroDef>,
    arguments: Arguments,
    at: usize,
}

impl Model for Call {
    ghost use Rattle.std.specs.Prelude.{◌≤◌, drop, length};
    ghost use Rattle.lb_macros.specs.Calls.{CallLeft};

    ghost Value = { CallLeft };

    ghost view = { λ c. record { arguments = c.arguments; body = drop c.at c.definition.body } };

    ghost invariant = { λ c. c.at ≤ length c.definition.body };
}

/// What comes next of a macro that is under way: a token of its body, an argument, nothing in the place of a parameter that has no
/// argument, or its end.
#[derive(Drop)]
pub enum Piece {
    Tok(Tok),
    Argument(Rest),
    Nothing,
    End,
}

// The argument of a parameter.
fn argument(arguments: &Arguments, number: u8) -> Result<Piece, NoMemory>
    ensures piece { IfOk result (λ piece. (toks : List AToken) → filled arguments.now (AToken.Param number) ++ toks ≡ piece_before piece toks) }
    ensures not_end { IfOk result (λ piece. is_end piece ≡ false) }
{
    match arguments.get(usize::from(number.saturating_sub(1))) {
        Some(list) => Ok(Piece::Argument(Rest::of(list.clone()?))),
        None => Ok(Piece::Nothing),
    }
}

impl Call {
    /// A macro with its arguments, from the beginning. Takes no memory.
    pub fn of(definition: Shared<MacroDef>, arguments: Arguments) -> Call
        ensures { result ≡ record { arguments = arguments; body = definition.body } }
    {
        Call {
            definition,
            arguments,
            at: 0,
        }
    }

    /// What comes next, which is taken. Takes no memory.
    pub fn next(&mut self) -> Result<Piece, NoMemory>
        ensures piece { IfOk result (λ piece.
            substituted self.old.arguments self.old.body ≡ piece_before piece (substituted self.new.arguments self.new.body)) }
        ensures end { IfOk result (λ piece. is_end piece ≡ true → substituted self.old.arguments self.old.body ≡ []) }
        ensures falls { IfOk result (λ piece. is_end piece ≡ false → length self.new.body < length self.old.body) }
        ensures err { OnErr result (self.new ≡ self.old) }
    {
        let body = self.definition.get().body.as_slice();
        if self.at >= body.len() {
            return Ok(Piece::End);
        }
        let piece = piece_of(&self.arguments, &body[self.at])?;
        self.at += 1;
        Ok(piece)
    }
}

// What a token of a body stands for.
fn piece_of(arguments: &Arguments, tok: &Tok) -> Result<Piece, NoMemory>
    ensures piece { IfOk result (λ piece. (toks : List AToken) → filled arguments.now tok.now ++ toks ≡ piece_before piece toks) }
    ensures not_end { IfOk result (λ piece. is_end piece ≡ false) }
{
    match tok {
        Tok::Param(number) => argument(arguments, *number),
        _ => Ok(Piece::Tok(tok.clone()?)),
    }
}

// How many tokens a token of a body stands for.
fn count_of(arguments: &Arguments, tok: &Tok) -> usize
    ensures { result ≡ length (filled arguments.now tok.now) }
{
    match tok {
        Tok::Param(number) => match arguments.get(usize::from(number.saturating_sub(1))) {
            Some(list) => list.get().len(),
            None => 0,
        },
        _ => 1,
    }
}

/// One token more than may be pending.
const TOO_MANY: u64 = 1_000_001;

/// How many tokens a body stands for with its arguments, where over a million are all alike. Takes no memory.
pub fn count_filled(arguments: &Arguments, body: &[Tok]) -> u64
    ensures { result ≡ min (length (substituted arguments.now body.now)) 1000001 }
{
    let mut count = 0u64;
    for tok in body {
        count = count
            .saturating_add(count_of(arguments, tok) as u64)
            .min(TOO_MANY);
    }
    count
}
