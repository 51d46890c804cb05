//! Numbers in the forms of counters.
ghost use Rattle.std.specs.Prelude.{◌≡◌, ◌≤◌, IfOk};
ghost use Rattle.lb_model.specs.Forms.{in_form};
ghost use Rattle.lb_model_grammar.specs.Printed.{alph_form};

use crate::number::decimal;
use crate::roman::{lower_roman, upper_roman};
use lb_base::{Bytes, NoMemory};
use lb_values::Form;
use std::alloc::Global;

// A number as a letter behind this character.
fn alph(alloc: Global, before: u8, number: i32) -> Result<Option<Bytes>, NoMemory>
    requires { before ≤ 96 }
    ensures { IfOk result (λ text. text ≡ alph_form before number) }
{
    match number {
        0 => Ok(Some(Bytes::new(alloc))),
        1..=26 => Ok(Some(Bytes::from_slice(alloc, &[before + number as u8])?)),
        _ => Ok(None),
    }
}

/// A number in the form of a counter: in decimal, in Roman numerals, or as a letter from `a` to `z`. Roman numerals print nothing below 1,
/// and letters nothing for 0. None where the form has no such number: Roman numerals over 100,000, letters below 0 and over 26.
pub fn in_form(alloc: Global, form: Form, number: i32) -> Result<Option<Bytes>, NoMemory>
    ensures { IfOk result (λ text. text ≡ in_form form number) }
{
    match form {
        Form::Arabic => Ok(Some(decimal(alloc, number)?)),
        Form::LowerRoman => lower_roman(alloc, number),
        Form::UpperRoman => upper_roman(alloc, number),
        Form::LowerAlph => alph(alloc, b'a' - 1, number),
        Form::UpperAlph => alph(alloc, b'A' - 1, number),
    }
}
