//! Numbers, dimensions and glue that are kept within their ranges (TeXbook, chapters 20 and 24). Lengths are in scaled points.
ghost use Rattle.std.specs.Prelude.{◌≡◌, pos, true, ◌≤ℤ◌};
ghost use Rattle.lb_model.specs.Kinds.{no_glue, number_if};
ghost use Rattle.lb_model.specs.Ranges.{is_between, is_dimension, is_glue, is_number};
ghost use Rattle.std.specs.Prelude.{cond};

use lb_base::{Glue, Order};

/// Glue of no width that neither stretches nor shrinks.
pub const NO_GLUE: Glue = Glue {
    width: 0,
    stretch: 0,
    stretch_order: Order::Finite,
    shrink: 0,
    shrink_order: Order::Finite,
};

/// The size at which lengths are too large.
const TOO_LARGE: u32 = 1 << 30;

/// The number, or 0 where it is the least that 32 bits hold.
pub fn number_within(number: i32) -> i32
    ensures value { result ≡ number_if is_number (pos 0) number }
    ensures range { is_number result ≡ true }
{
    if number == i32::MIN { 0 } else { number }
}

/// The length, or 0 where it is too large.
pub fn dimension_within(length: i32) -> i32
    ensures value { result ≡ number_if is_dimension (pos 0) length }
    ensures range { is_dimension result ≡ true }
{
    if is_dimension(length) { length } else { 0 }
}

/// The glue, or none where a part of it is too large.
pub fn glue_within(glue: Glue) -> Glue
    ensures value { result ≡ cond (is_glue glue) glue no_glue }
    ensures range { is_glue result ≡ true }
{
    if is_glue(glue) { glue } else { NO_GLUE }
}

/// The number where it is neither below nor above these two, which another one has to be, and else that.
pub fn between(least: i32, most: i32, number: i32, other: i32) -> i32
    requires { is_between least most other ≡ true }
    ensures value { result ≡ number_if (is_between least most) other number }
    ensures range { is_between least most result ≡ true }
{
    if least <= number && number <= most {
        number
    } else {
        other
    }
}

/// Whether a number is above the least that 32 bits hold.
pub fn is_number(number: i32) -> bool
    ensures { result ≡ is_number number }
{
    number != i32::MIN
}

/// Whether a length is below 2^30 scaled points in size.
pub fn is_dimension(length: i32) -> bool
    ensures { result ≡ is_dimension length }
{
    length.unsigned_abs() < TOO_LARGE
}

/// Whether each part of a glue is below 2^30 scaled points in size.
pub fn is_glue(glue: Glue) -> bool
    ensures { result ≡ is_glue glue }
{
    is_dimension(glue.width) && is_dimension(glue.stretch) && is_dimension(glue.shrink)
}
