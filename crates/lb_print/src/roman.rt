//! Roman numerals.
ghost use Rattle.std.specs.Prelude.{◌≡◌, ◌++◌, ◌∷◌, ◌<◌, IfOk, OnOk, List, map, ℕ};
ghost use Rattle.lb_model_grammar.specs.Printed.{raised, roman, roman_by, roman_form};

use lb_base::{Bytes, NoMemory};
use std::alloc::Global;

// Writes letters as often as their value goes into what is left.
fn write_numeral(
    value: u32,
    letters: &[u8],
    left: &mut u32,
    text: &mut Bytes,
) -> Result<(), NoMemory>
    requires { 0 < value }
    ensures { OnOk result ((rows : List (ℕ × List ℕ)) →
        text.new ++ roman_by rows left.new ≡ text.old ++ roman_by ((value, letters.now) ∷ rows) left.old) }
{
    for time in 0..*left / value {
        text.extend_from_slice(letters)?;
    }
    *left %= value;
    Ok(())
}

// A number in Roman numerals.
fn roman(alloc: Global, number: u32) -> Result<Bytes, NoMemory>
    ensures { IfOk result (λ text. text ≡ roman number) }
{
    let mut text = Bytes::new(alloc);
    let mut left = number;
    write_numeral(1000, b"m", &mut left, &mut text)?;
    write_numeral(900, b"cm", &mut left, &mut text)?;
    write_numeral(500, b"d", &mut left, &mut text)?;
    write_numeral(400, b"cd", &mut left, &mut text)?;
    write_numeral(100, b"c", &mut left, &mut text)?;
    write_numeral(90, b"xc", &mut left, &mut text)?;
    write_numeral(50, b"l", &mut left, &mut text)?;
    write_numeral(40, b"xl", &mut left, &mut text)?;
    write_numeral(10, b"x", &mut left, &mut text)?;
    write_numeral(9, b"ix", &mut left, &mut text)?;
    write_numeral(5, b"v", &mut left, &mut text)?;
    write_numeral(4, b"iv", &mut left, &mut text)?;
    write_numeral(1, b"i", &mut left, &mut text)?;
    Ok(text)
}

// Lower-case letters in upper case.
fn raised(alloc: Global, letters: &[u8]) -> Result<Bytes, NoMemory>
    ensures { IfOk result (λ text. text ≡ map raised letters.now) }
{
    let raise = |letter: &u8| letter.saturating_sub(b'a' - b'A');
    let raised: Vec<u8> = letters.iter().map(raise).collect(alloc)?;
    Ok(Bytes::from_vec(raised))
}

/// The greatest number that is written in Roman numerals.
const LIMIT: i32 = 100_000;

/// A number in lower-case Roman numerals: nothing below 1, and None over 100,000.
pub(crate) fn lower_roman(alloc: Global, number: i32) -> Result<Option<Bytes>, NoMemory>
    ensures { IfOk result (λ text. text ≡ roman_form (λ c. c) number) }
{
    if number < 0 {
        return Ok(Some(Bytes::new(alloc)));
    }
    if number > LIMIT {
        return Ok(None);
    }
    Ok(Some(roman(alloc, number as u32)?))
}

/// The same in upper case.
pub(crate) fn upper_roman(alloc: Global, number: i32) -> Result<Option<Bytes>, NoMemory>
    ensures { IfOk result (λ text. text ≡ roman_form raised number) }
{
    match lower_roman(alloc, number)? {
        Some(text) => Ok(Some(raised(alloc, text.as_slice())?)),
        None => Ok(None),
    }
}
