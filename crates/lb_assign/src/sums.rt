//! Sums, products and quotients of numbers, dimensions and glue. Lengths are in scaled points.
ghost use Rattle.std.specs.Prelude.{◌≡◌, ◌==◌, ◌+ℤ◌, ◌*ℤ◌, int_div, nat_abs, None, Some, cond, false};
ghost use Rattle.lb_assign.specs.Sums.{sums_of};
ghost use Rattle.lb_model.specs.Assignments.{arithmetic, dimension_worked, glue_added, glue_by, glue_from, glue_value, glue_worked, is_higher, number_worked, part_added, worked};
ghost use Rattle.lb_model.specs.HeldNumbers.{held_as};
ghost use Rattle.lb_model.specs.Kinds.{dimension_of, glue_of, number_of};
ghost use Rattle.lb_model.specs.Ranges.{is_dimension, is_number};
ghost use Rattle.lb_model.specs.declared.arith.Part.{Part as APart};
ghost use Rattle.lb_values.specs.declared.value.Value.TheVariants as value_of;

use lb_base::{Glue, Order};
use lb_model::within::{NO_GLUE, dimension_within, glue_within, number_within};
use lb_model::{Arith, Part};
use lb_model_grammar::Quantity;
use lb_rows::ParameterKind;
use lb_values::Value;

/// The size at which numbers, and at which lengths are too large.
const NUMBER_LIMIT: u64 = 1 << 31;

const LENGTH_LIMIT: u64 = 1 << 30;

/// What a cell of this kind holds once it is advanced, multiplied or divided, where it holds `now`; none where that is out of its range, the
/// divisor is 0, or it cannot be done by this.
pub fn arithmetic(op: Arith, kind: ParameterKind, now: &Value, by: Quantity) -> Option<Value>
    ensures { result ≡ arithmetic op kind now.now by }
{
    match kind {
        ParameterKind::Number => number_value(number_worked(op, number_of(now), by)?),
        ParameterKind::Dimension => length_value(dimension_worked(op, dimension_of(now), by)?),
        ParameterKind::Glue => glue_worked(op, glue_of(now), by),
    }
}

fn number_of(value: &Value) -> i32
    ensures { result ≡ number_of value.now }
{
    match value {
        Value::Number(number) => number_within(*number),
        _ => 0,
    }
}

fn dimension_of(value: &Value) -> i32
    ensures { result ≡ dimension_of value.now }
{
    match value {
        Value::Dimen(length) => dimension_within(*length),
        _ => 0,
    }
}

fn glue_of(value: &Value) -> Glue
    ensures { result ≡ glue_of value.now }
{
    match value {
        Value::Glue(glue) => glue_within(*glue),
        _ => NO_GLUE,
    }
}

fn number_value(number: i64) -> Option<Value>
    ensures { result ≡ held_as value_of.Number is_number number }
{
    if number.unsigned_abs() < NUMBER_LIMIT {
        Some(Value::Number(number as i32))
    } else {
        None
    }
}

fn length_value(length: i64) -> Option<Value>
    ensures { result ≡ held_as value_of.Dimen is_dimension length }
{
    if length.unsigned_abs() < LENGTH_LIMIT {
        Some(Value::Dimen(length as i32))
    } else {
        None
    }
}

fn length_within(length: i64) -> Option<i32>
    ensures { result ≡ cond (is_dimension length) (Some length) None }
{
    if length.unsigned_abs() < LENGTH_LIMIT {
        Some(length as i32)
    } else {
        None
    }
}

// A number by another one. A quotient is cut toward zero.
fn worked(op: Arith, number: i32, by: i32) -> Option<i64>
    ensures { result ≡ worked op number by }
{
    match op {
        Arith::Advance => Some(number as i64 + by as i64),
        Arith::Multiply => Some(number as i64 * by as i64),
        Arith::Divide => {
            if by == 0 {
                None
            } else {
                Some(number as i64 / by as i64)
            }
        }
    }
}

fn number_worked(op: Arith, number: i32, by: Quantity) -> Option<i64>
    ensures { result ≡ number_worked op number by }
{
    match by {
        Quantity::Number(by) => worked(op, number, by),
        Quantity::Dimen(_) => None,
        Quantity::Skip(_) => None,
        Quantity::NotOne => None,
    }
}

fn dimension_worked(op: Arith, length: i32, by: Quantity) -> Option<i64>
    ensures { result ≡ dimension_worked op length by }
{
    match (op, by) {
        (Arith::Advance, Quantity::Dimen(by)) => worked(op, length, by),
        (Arith::Multiply, Quantity::Number(by)) => worked(op, length, by),
        (Arith::Divide, Quantity::Number(by)) => worked(op, length, by),
        _ => None,
    }
}

/// The numbers of a glue, which may be out of range.
#[derive(Clone, Copy)]
struct Sums {
    width: i64,
    stretch: Part,
    shrink: Part,
}

// Glue of these numbers, where each is within its range.
#[tactic(auto, unfolding(lb_model::specs::Assignments::glue_value))]
fn glue_value(sums: Sums) -> Option<Value>
    ensures { result ≡ glue_value (glue_from sums.width sums.stretch sums.shrink) }
{
    Some(Value::Glue(Glue {
        width: length_within(sums.width)?,
        stretch: length_within(sums.stretch.size)?,
        stretch_order: sums.stretch.order,
        shrink: length_within(sums.shrink.size)?,
        shrink_order: sums.shrink.order,
    }))
}

// Whether the first order is the higher one.
fn is_higher(order: Order, other: Order) -> bool
    ensures { result ≡ is_higher order other }
{
    match (order, other) {
        (Order::Filll, Order::Filll) => false,
        (Order::Filll, _) => true,
        (Order::Fill, Order::Fill | Order::Filll) => false,
        (Order::Fill, _) => true,
        (Order::Fil, Order::Finite) => true,
        _ => false,
    }
}

// The sum of two parts of one order, and of two orders the part of the higher one where that is not 0.
#[tactic(auto, unfolding(lb_model::specs::Assignments::part_added))]
fn part_added(size: i32, order: Order, by: i32, by_order: Order) -> Part
    ensures { result ≡ part_added (record { size = size; order = order }) (record { size = by; order = by_order }) }
{
    let part = Part {
        size: size as i64,
        order,
    };
    let other = Part {
        size: by as i64,
        order: by_order,
    };
    if is_higher(order, by_order) {
        return if size == 0 { other } else { part };
    }
    if is_higher(by_order, order) {
        return if by == 0 { part } else { other };
    }
    Part {
        size: size as i64 + by as i64,
        order,
    }
}

fn sum(number: i32, by: i32) -> i64
    ensures { result ≡ number +ℤ by }
{
    number as i64 + by as i64
}

fn product(number: i32, by: i32) -> i64
    ensures { result ≡ number *ℤ by }
{
    number as i64 * by as i64
}

fn quotient(number: i32, by: i32) -> i64
    requires { (nat_abs by == 0) ≡ false }
    ensures { result ≡ int_div number by }
{
    number as i64 / by as i64
}

fn sums_added(glue: Glue, by: Glue) -> Sums
    ensures { result ≡ sums_of (glue_added glue by) }
{
    Sums {
        width: sum(glue.width, by.width),
        stretch: part_added(
            glue.stretch,
            glue.stretch_order,
            by.stretch,
            by.stretch_order,
        ),
        shrink: part_added(glue.shrink, glue.shrink_order, by.shrink, by.shrink_order),
    }
}

fn sums_multiplied(glue: Glue, by: i32) -> Sums
    ensures { result ≡ sums_of (glue_by (λ n. n *ℤ by) glue) }
{
    Sums {
        width: product(glue.width, by),
        stretch: Part {
            size: product(glue.stretch, by),
            order: glue.stretch_order,
        },
        shrink: Part {
            size: product(glue.shrink, by),
            order: glue.shrink_order,
        },
    }
}

fn sums_divided(glue: Glue, by: i32) -> Sums
    requires { (nat_abs by == 0) ≡ false }
    ensures { result ≡ sums_of (glue_by (λ n. int_div n by) glue) }
{
    Sums {
        width: quotient(glue.width, by),
        stretch: Part {
            size: quotient(glue.stretch, by),
            order: glue.stretch_order,
        },
        shrink: Part {
            size: quotient(glue.shrink, by),
            order: glue.shrink_order,
        },
    }
}

fn glue_divided(glue: Glue, by: i32) -> Option<Value>
    ensures { result ≡ glue_worked Arith.Divide glue (Quantity.Number by) }
{
    if by.unsigned_abs() == 0 {
        None
    } else {
        glue_value(sums_divided(glue, by))
    }
}

fn glue_worked(op: Arith, glue: Glue, by: Quantity) -> Option<Value>
    ensures { result ≡ glue_worked op glue by }
{
    match (op, by) {
        (Arith::Advance, Quantity::Skip(by)) => glue_value(sums_added(glue, by)),
        (Arith::Multiply, Quantity::Number(by)) => glue_value(sums_multiplied(glue, by)),
        (Arith::Divide, Quantity::Number(by)) => glue_divided(glue, by),
        _ => None,
    }
}
