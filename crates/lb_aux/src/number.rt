//! Numbers of counters.
ghost use Rattle.std.specs.Prelude.{◌≡◌, pos};
ghost use Rattle.std.specs.Option.{option_map};
ghost use Rattle.lb_model_aux.specs.Forms.{magnitude_of, number_of};

/// No number of a counter is as large.
const LIMIT: u64 = 2_147_483_648;

// Decimal digits, at least one, below 2^31.
fn magnitude_of(digits: &[u8]) -> Option<i32>
    ensures { result ≡ option_map pos (magnitude_of digits.now) }
{
    if digits.is_empty() {
        return None;
    }
    let mut value: u64 = 0;
    for digit in digits {
        if !digit.is_ascii_digit() {
            return None;
        }
        value = 10 * value + u64::from(*digit - b'0');
        if value >= LIMIT {
            return None;
        }
    }
    Some(value as i32)
}

/// A number of decimal digits below 2^31, behind a minus or none.
pub fn number_of(text: &[u8]) -> Option<i32>
    ensures { result ≡ number_of text.now }
{
    match text {
        [b'-', digits @ ..] => Some(-magnitude_of(digits)?),
        _ => magnitude_of(text),
    }
}
