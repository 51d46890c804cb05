//! The values of cells that are given as numbers (TeXbook, chapter 24).
ghost use Rattle.std.specs.Prelude.{◌≡◌};
ghost use Rattle.lb_values.specs.declared.value.Value.TheVariants as value;
ghost use Rattle.lb_model.specs.HeldNumbers.{code_value, held_as, held_of, parameter_value};
ghost use Rattle.lb_model.specs.Ranges.{is_between, is_dimension, is_number};

use crate::within::{is_dimension, is_number};
use lb_rows::ParameterKind;
use lb_values::{Cell, Value, category_at};

/// What a cell holds once it is set to a number; none where that is out of the cell's range, or the cell holds no number.
#[tactic(auto, unfolding(crate::specs::HeldNumbers::held_of))]
pub fn held(cell: &Cell, number: i32) -> Option<Value>
    ensures { result ≡ held_of cell.now number }
{
    match cell {
        Cell::Cat(_) => Some(Value::Category(category_at(number)?)),
        Cell::Lc(_) | Cell::Uc(_) => code_value(number),
        Cell::Sf(_) => number_between(0, 32767, number),
        Cell::Count(_) | Cell::Counter(_) => number_value(number),
        Cell::Dimen(_) => dimension_value(number),
        Cell::Par(parameter) => parameter_value(parameter.kind(), number),
        Cell::Fresh(_) => number_between(30, 256, number),
        Cell::Body | Cell::Toc => number_between(0, 1, number),
        Cell::Matter => number_between(0, 2, number),
        Cell::Style => number_between(0, 5, number),
        Cell::Size => number_between(0, 9, number),
        _ => None,
    }
}

// A code of a character, from 0 to 255.
fn code_value(number: i32) -> Option<Value>
    ensures { result ≡ code_value number }
{
    Some(Value::Code(u8::try_from(number).ok()?))
}

fn number_value(number: i32) -> Option<Value>
    ensures { result ≡ held_as value.Number is_number number }
{
    if is_number(number) {
        Some(Value::Number(number))
    } else {
        None
    }
}

fn dimension_value(number: i32) -> Option<Value>
    ensures { result ≡ held_as value.Dimen is_dimension number }
{
    if is_dimension(number) {
        Some(Value::Dimen(number))
    } else {
        None
    }
}

// A number that is neither below nor above these two.
fn number_between(least: i32, most: i32, number: i32) -> Option<Value>
    ensures { result ≡ held_as value.Number (is_between least most) number }
{
    if least <= number && number <= most {
        Some(Value::Number(number))
    } else {
        None
    }
}

fn parameter_value(kind: ParameterKind, number: i32) -> Option<Value>
    ensures { result ≡ parameter_value kind number }
{
    match kind {
        ParameterKind::Number => number_value(number),
        ParameterKind::Dimension => dimension_value(number),
        ParameterKind::Glue => None,
    }
}
