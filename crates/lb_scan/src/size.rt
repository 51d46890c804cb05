//! Decimals, and the dimensions that they make with a unit.
ghost use Rattle.std.specs.Prelude.{◌≡◌, ◌+◌, ◌*◌, ◌/◌, ◌^◌, ◌<◌, nat_abs};
ghost use Rattle.lb_base.specs.declared.glue.Order.{Order as AnOrder};
ghost use Rattle.lb_model_grammar.specs.Dimensions.{is_negative, times, xor};

use lb_base::Order;

/// A decimal, whose part behind the point is in 65536ths.
#[derive(Clone, Copy)]
pub(crate) struct Decimal {
    pub negative: bool,
    pub whole: u32,
    pub part: u32,
}

/// A dimension that may be too large.
#[derive(Clone, Copy)]
pub(crate) struct Size {
    pub negative: bool,
    pub order: Order,
    pub size: u64,
}

/// A decimal in units of so many points, as a fraction.
pub(crate) fn physical(decimal: Decimal, numerator: u64, denominator: u64) -> Size
    requires numerator { numerator < 2 ^ 14 }
    requires denominator { 0 < denominator }
    ensures { result ≡ record {
      negative = decimal.negative;
      order = AnOrder.Finite;
      size = numerator * (65536 * decimal.whole + decimal.part) / denominator;
    } }
{
    let value = 65_536 * u64::from(decimal.whole) + u64::from(decimal.part);
    Size {
        negative: decimal.negative,
        order: Order::Finite,
        size: numerator * value / denominator,
    }
}

/// The whole part in scaled points.
pub(crate) fn scaled(decimal: Decimal) -> Size
    ensures { result ≡ record { negative = decimal.negative; order = AnOrder.Finite; size = decimal.whole } }
{
    Size {
        negative: decimal.negative,
        order: Order::Finite,
        size: u64::from(decimal.whole),
    }
}

/// A decimal in units of infinite glue.
pub(crate) fn infinite(decimal: Decimal, order: Order) -> Size
    ensures { result ≡ record { negative = decimal.negative; order = order; size = 65536 * decimal.whole + decimal.part } }
{
    Size {
        negative: decimal.negative,
        order,
        size: 65_536 * u64::from(decimal.whole) + u64::from(decimal.part),
    }
}

/// A decimal times a dimension, cut toward 0.
pub(crate) fn multiply(decimal: Decimal, dimen: i32) -> Size
    ensures { result ≡ record {
      negative = xor decimal.negative (is_negative dimen);
      order = AnOrder.Finite;
      size = times decimal.whole decimal.part (nat_abs dimen);
    } }
{
    let size = u64::from(dimen.unsigned_abs());
    Size {
        negative: decimal.negative != (dimen < 0),
        order: Order::Finite,
        size: u64::from(decimal.whole) * size + u64::from(decimal.part) * size / 65_536,
    }
}
