//! The digits behind the point of a decimal.
ghost use Rattle.std.specs.Prelude.{◌≡◌, ◌≤◌, ◌<◌, ◌+◌, ◌*◌, ◌/◌, ◌^◌, nat_le, if◌then◌else◌};

/// Where so many parts are counted no more digits count, which is so behind the first 17.
const FULL: u64 = 100_000_000_000_000_000;

/// Digits as a number, and how many parts it counts in: a power of 10.
#[derive(Clone, Copy)]
pub(crate) struct Fraction {
    scale: u64,
    value: u64,
    ghost below: { value < scale },
    ghost bounded: { scale ≤ 10 ^ 18 },
}

impl Fraction {
    pub(crate) fn new() -> Fraction
        ensures scale { result.scale ≡ 1 }
        ensures value { result.value ≡ 0 }
    {
        Fraction { scale: 1, value: 0 }
    }

    /// One digit more.
    pub(crate) fn and(self, digit: u8) -> Fraction
        requires { digit ≤ 9 }
        ensures scale { result.scale ≡ (if nat_le (10 ^ 17) self.scale then self.scale else 10 * self.scale) }
        ensures value { result.value ≡ (if nat_le (10 ^ 17) self.scale then self.value else 10 * self.value + digit) }
    {
        if self.scale >= FULL {
            return self;
        }
        Fraction {
            scale: 10 * self.scale,
            value: 10 * self.value + u64::from(digit),
        }
    }

    /// The nearest number of 65536ths, halves up.
    pub(crate) fn nearest(self) -> u32
        ensures { result ≡ (131072 * self.value + self.scale) / (2 * self.scale) }
    {
        let scale = u128::from(self.scale);
        let twice = 131_072 * u128::from(self.value) + scale;
        (twice / (2 * scale)) as u32
    }
}
