//! How badly glue fits that has to stretch or shrink.
ghost use Rattle.std.specs.Prelude.{◌≡◌, ◌≤ℤ◌, pos};
ghost use Rattle.lb_base.specs.Badness.{badness_of};

/// The badness, 0 to 10000, of glue that has to stretch or shrink by `t` scaled points and can do
/// so by `s` (tex.web, section 108).
pub fn badness(t: i64, s: i64) -> i32
    requires { pos 0 ≤ℤ t }
    ensures value { result ≡ pos (badness_of t s) }
    ensures not_negative { pos 0 ≤ℤ result }
    ensures at_most { result ≤ℤ pos 10000 }
{
    if t == 0 {
        return 0;
    }
    if s <= 0 {
        return 10_000;
    }
    let (t, s) = (t as u64, s as u64);
    let ratio = if t <= 7_230_584 {
        297 * t / s
    } else if s >= 1_663_497 {
        t / (s / 297)
    } else {
        t
    };
    if ratio > 1290 {
        return 10_000;
    }
    ((ratio * ratio * ratio + 131_072) / 262_144) as i32
}
