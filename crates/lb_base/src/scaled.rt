//! Dimensions in decimal. A scaled point is 1/65536 of a point.
ghost use Rattle.std.specs.Prelude.{◌≡◌, ℕ, ◌+◌, ◌-◌, ◌*◌, ◌/◌, ◌%◌, ◌<◌, ◌≤◌, ◌++◌, length, decimal, pos, negsuc, ◌≤ℤ◌, All, take, drop, nat_lt, if◌then◌else◌};
ghost use Rattle.lb_base.specs.Decimals.{fraction_from_digits, fraction_digits, ascii_digits, magnitude_text, scaled_text};

/// The scaled points, 0 to 65536, nearest to the decimal fraction of a point with these digits,
/// halves up (tex.web, section 102). The first 17 digits count.
pub fn round_decimals(digits: &[u8]) -> i32
    requires { All (λ d. d ≤ 9) digits.now }
    ensures value { result ≡ pos (fraction_from_digits (take 17 digits.now)) }
    ensures not_negative { pos 0 ≤ℤ result }
    ensures at_most_a_point { result ≤ℤ pos 65536 }
{
    let counted = &digits[..digits.len().min(17)];
    let mut twice: u32 = 0;
    let mut left = counted.len();
    while left > 0 {
        left -= 1;
        twice = (twice + 131_072 * u32::from(counted[left])) / 10;
    }
    ((twice + 1) / 2) as i32
}

/// The next digit of a fraction, in ASCII, and ten times what is left behind it. The fifth digit
/// is the last, and is rounded to the nearest: 17232 is 50000 less 2^15.
fn next_digit(rest: u32, delta: u32) -> (u8, u32)
    requires small { rest < 655360 }
    requires enough { 65536 < delta → 17232 ≤ rest }
    ensures { let rounded : ℕ = if nat_lt 65536 delta then rest - 17232 else rest in
        result ≡ (48 + rounded / 65536, 10 * (rounded % 65536)) }
{
    let rounded = if delta > 65_536 { rest - 17_232 } else { rest };
    (b'0' + (rounded / 65_536) as u8, 10 * (rounded % 65_536))
}

/// Writes the digits of a fraction behind the point to `out` from `at` on, and returns where they
/// end.
fn write_fraction(fraction: u32, out: &mut [u8; 16], at: usize) -> usize
    requires small { fraction < 65536 }
    requires room { at + 5 ≤ 16 }
    ensures end { result ≡ at + length (fraction_digits fraction) }
    ensures text { take result out.new ≡ take at out.old ++ ascii_digits (fraction_digits fraction) }
    ensures rest { drop result out.new ≡ drop result out.old }
{
    let mut rest = 10 * fraction + 5;
    let mut delta = 10;
    let mut next = at;
    'places: loop {
        let (digit, left) = next_digit(rest, delta);
        out[next] = digit;
        next += 1;
        rest = left;
        delta *= 10;
        if rest <= delta {
            return next;
        }
    }
}

/// Writes `n` in decimal to `out` from `at` on, and returns where it ends.
fn write_decimal(n: u32, out: &mut [u8; 16], at: usize) -> usize
    requires room { at + length (decimal n) ≤ 16 }
    ensures end { result ≡ at + length (decimal n) }
    ensures text { take result out.new ≡ take at out.old ++ decimal n }
    ensures rest { drop result out.new ≡ drop result out.old }
{
    let last = if n >= 10 {
        write_decimal(n / 10, out, at)
    } else {
        at
    };
    out[last] = b'0' + (n % 10) as u8;
    last + 1
}

/// Writes `size` scaled points in points to `out` from `at` on, and returns where they end.
fn write_magnitude(size: u32, out: &mut [u8; 16], at: usize) -> usize
    requires small { size < 2147483648 }
    requires front { at ≤ 1 }
    ensures end { result ≡ at + length (magnitude_text size) }
    ensures short { result ≤ at + 11 }
    ensures text { take result out.new ≡ take at out.old ++ magnitude_text size }
    ensures rest { drop result out.new ≡ drop result out.old }
{
    let point = write_decimal(size / 65_536, out, at);
    out[point] = b'.';
    write_fraction(size % 65_536, out, point + 1)
}

/// Writes `s` scaled points in points, without a unit, to the front of `out`, and returns the
/// length of the text, at most 12 (tex.web, section 103). Behind the text `out` stays as it was.
pub fn print_scaled(s: i32, out: &mut [u8; 16]) -> usize
    requires { negsuc 2147483646 ≤ℤ s }
    ensures end { result ≡ length (scaled_text s) }
    ensures short { result ≤ 12 }
    ensures text { take result out.new ≡ scaled_text s }
    ensures rest { drop result out.new ≡ drop result out.old }
{
    if s < 0 {
        out[0] = b'-';
        return write_magnitude(s.unsigned_abs(), out, 1);
    }
    write_magnitude(s as u32, out, 0)
}
