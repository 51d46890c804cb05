//! Arithmetic of values that are read.
ghost use Rattle.std.specs.Prelude.{◌≡◌, ◌≤◌, ◌<◌};
ghost use Rattle.lb_model_grammar.specs.Scans.{grown, signed};

/// The first number that is too big.
pub(crate) const LIMIT: u32 = 2_147_483_648;

/// One more digit.
pub(crate) fn grow(base: u8, value: u32, digit: u8) -> u32
    ensures { result ≡ grown base value digit }
{
    let grown = u64::from(base) * u64::from(value) + u64::from(digit);
    grown.min(u64::from(LIMIT)) as u32
}

pub(crate) fn signed_value(negative: bool, value: i32) -> i32
    ensures { result ≡ signed negative value }
{
    if negative {
        value.wrapping_neg()
    } else {
        value
    }
}
