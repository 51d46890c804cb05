//! Turns of a scan of a number.
ghost use Rattle.std.specs.Prelude.{◌≡◌, ◌∷◌, List, ℕ, true, false};
ghost use Rattle.lb_model_grammar.specs.declared.given.Given.{Given as AGiven};
ghost use Rattle.lb_model_grammar.specs.declared.given.Scanned.{Scanned as AScanned};
ghost use Rattle.lb_model_grammar.specs.Numbers.{closed, ended};
ghost use Rattle.lb_model_grammar.specs.Scans.{Meant, digits};
ghost use Rattle.lb_scan.specs.Numbers.{number_after, turned_number};

use crate::arith::{LIMIT, grow, signed_value};
use crate::class::{classify, digit_of, is_space};
use lb_base::{Kind, Tok};
use lb_model_grammar::{Class, Given, Quantity};

/// How far the scan of a number has come, with whether it has a minus.
#[derive(Clone, Copy)]
pub(crate) enum Number {
    Signs(bool),
    /// The first digit in a base comes next.
    First(bool, u8),
    /// Digits in a base were read.
    Digits(bool, u8, u32),
    /// A character comes next.
    Character(bool),
    /// A space may come behind a character.
    Space(bool, u32),
    /// The quantity of the token that was given last comes next.
    Internal(bool),
}

/// What is done where more was given: a stage goes on, or the number ends with what was given or before it, or there is a fault.
#[derive(Clone, Copy)]
pub(crate) enum NumberTurn {
    Goes(Number),
    Ends(i32),
    EndsBefore(i32),
    Fails(Kind),
}

// A number is read, and a space behind it.
fn end(negative: bool, value: u32) -> NumberTurn
    ensures { (g : AGiven) (more : List AGiven) → turned_number result g more ≡ ended negative value more }
{
    if value < LIMIT {
        NumberTurn::Ends(signed_value(negative, value as i32))
    } else {
        NumberTurn::Fails(Kind::NumberTooBig)
    }
}

// A number is read, and something that is not of it.
fn end_before(negative: bool, value: u32) -> NumberTurn
    ensures { (g : AGiven) (more : List AGiven) → turned_number result g more ≡ ended negative value (g ∷ more) }
{
    if value < LIMIT {
        NumberTurn::EndsBefore(signed_value(negative, value as i32))
    } else {
        NumberTurn::Fails(Kind::NumberTooBig)
    }
}

// What stands behind a number, which is taken where it is a space.
fn close(negative: bool, value: u32, given: &Given) -> NumberTurn
    ensures { (more : List AGiven) → turned_number result given.now more ≡ closed negative value (given.now ∷ more) }
{
    match given {
        Given::Tok(tok) => {
            if is_space(tok) {
                return end(negative, value);
            }
            end_before(negative, value)
        }
        Given::Quantity(_) => end_before(negative, value),
        Given::End => end_before(negative, value),
    }
}

fn sign(negative: bool, tok: &Tok) -> NumberTurn
    ensures { (more : List AGiven) →
        turned_number result (AGiven.Tok tok.now) more ≡ number_after (Number.Signs negative) (AGiven.Tok tok.now ∷ more) }
{
    match classify(tok) {
        Class::Space | Class::Plus => NumberTurn::Goes(Number::Signs(negative)),
        Class::Minus => NumberTurn::Goes(Number::Signs(!negative)),
        Class::Digit(digit) => NumberTurn::Goes(Number::Digits(negative, 10, u32::from(digit))),
        Class::Octal => NumberTurn::Goes(Number::First(negative, 8)),
        Class::Hexadecimal => NumberTurn::Goes(Number::First(negative, 16)),
        Class::Quote => NumberTurn::Goes(Number::Character(negative)),
        Class::Command => NumberTurn::Goes(Number::Internal(negative)),
        Class::Point | Class::Other => NumberTurn::Fails(Kind::NumberMissing),
    }
}

fn signs(negative: bool, given: &Given) -> NumberTurn
    ensures { (more : List AGiven) → turned_number result given.now more ≡ number_after (Number.Signs negative) (given.now ∷ more) }
{
    match given {
        Given::Tok(tok) => sign(negative, tok),
        _ => NumberTurn::Fails(Kind::NumberMissing),
    }
}

fn first(negative: bool, base: u8, given: &Given) -> NumberTurn
    ensures { (more : List AGiven) → turned_number result given.now more ≡ number_after (Number.First negative base) (given.now ∷ more) }
{
    match given {
        Given::Tok(tok) => match digit_of(base, tok) {
            Some(digit) => NumberTurn::Goes(Number::Digits(negative, base, u32::from(digit))),
            None => NumberTurn::Fails(Kind::NumberMissing),
        },
        _ => NumberTurn::Fails(Kind::NumberMissing),
    }
}

fn digits(negative: bool, base: u8, value: u32, given: &Given) -> NumberTurn
    ensures { (more : List AGiven) → turned_number result given.now more ≡ number_after (Number.Digits negative base value) (given.now ∷ more) }
{
    match given {
        Given::Tok(tok) => match digit_of(base, tok) {
            Some(digit) => {
                NumberTurn::Goes(Number::Digits(negative, base, grow(base, value, digit)))
            }
            None => close(negative, value, given),
        },
        _ => close(negative, value, given),
    }
}

fn character(negative: bool, given: &Given) -> NumberTurn
    ensures { (more : List AGiven) → turned_number result given.now more ≡ number_after (Number.Character negative) (given.now ∷ more) }
{
    match given {
        Given::Tok(Tok::Char(_, code)) | Given::Tok(Tok::Active(code)) => {
            NumberTurn::Goes(Number::Space(negative, u32::from(*code)))
        }
        Given::Tok(Tok::Word(name)) => match name.as_slice() {
            [code] => NumberTurn::Goes(Number::Space(negative, u32::from(*code))),
            _ => NumberTurn::Fails(Kind::NumberMissing),
        },
        _ => NumberTurn::Fails(Kind::NumberMissing),
    }
}

fn internal(negative: bool, given: &Given) -> NumberTurn
    ensures { (more : List AGiven) → turned_number result given.now more ≡ number_after (Number.Internal negative) (given.now ∷ more) }
{
    match given {
        Given::Quantity(Quantity::Number(value)) => {
            NumberTurn::Ends(signed_value(negative, *value))
        }
        _ => NumberTurn::Fails(Kind::NumberMissing),
    }
}

/// What is done where a number is scanned and more was given.
#[inline(never)]
pub(crate) fn number_turn(stage: Number, given: &Given) -> NumberTurn
    ensures { (more : List AGiven) → turned_number result given.now more ≡ number_after stage (given.now ∷ more) }
{
    match stage {
        Number::Signs(negative) => signs(negative, given),
        Number::First(negative, base) => first(negative, base, given),
        Number::Digits(negative, base, value) => digits(negative, base, value, given),
        Number::Character(negative) => character(negative, given),
        Number::Space(negative, value) => close(negative, value, given),
        Number::Internal(negative) => internal(negative, given),
    }
}

/// Takes a digit behind digits. Whether it was one; else all is as before.
#[inline]
pub(crate) fn digit_of_number(base: u8, value: &mut u32, given: &Given) -> bool
    ensures next { result ≡ true → (f : ℕ → List AGiven → Meant AScanned) (more : List AGiven) →
        digits base value.new f more ≡ digits base value.old f (given.now ∷ more) }
    ensures same { result ≡ false → value.new ≡ value.old }
{
    match given {
        Given::Tok(tok) => match digit_of(base, tok) {
            Some(digit) => {
                *value = grow(base, *value, digit);
                true
            }
            None => false,
        },
        Given::Quantity(_) => false,
        Given::End => false,
    }
}

/// The same within a number.
#[inline]
pub(crate) fn number_digit(stage: &mut Number, given: &Given) -> bool
    ensures next { result ≡ true → (more : List AGiven) → number_after stage.new more ≡ number_after stage.old (given.now ∷ more) }
    ensures same { result ≡ false → stage.new ≡ stage.old }
{
    match stage {
        Number::Digits(_, base, value) => digit_of_number(*base, value, given),
        _ => false,
    }
}
