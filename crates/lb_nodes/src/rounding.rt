//! Whole numbers nearest to quotients.
ghost use Rattle.std.specs.Prelude.{◌≡◌, ◌≢◌, ◌≤◌, unsigned_abs, pos, ◌*ℤ◌};
ghost use Rattle.std.specs.Bool.{OnTrue};
ghost use Rattle.lb_model_paper.specs.Boxes.{nearest};
ghost use Rattle.lb_nodes.specs.Bounds.{IsLongSum};

/// Below this size a dividend is divided in 64 bits.
const SHORT: i128 = 4_611_686_018_427_387_904;

/// The largest length that 32 bits hold.
const LONGEST: i128 = 2_147_483_647;

/// The whole number nearest to `dividend / divisor`, halves away from 0.
#[tactic(auto, unfolding(lb_model_paper::specs::Boxes::nearest))]
fn short_nearest(dividend: i64, divisor: i32) -> i64
    requires dividend { unsigned_abs dividend ≤ 4611686018427387904 }
    requires divisor { divisor ≢ pos 0 }
    ensures { result ≡ nearest dividend divisor }
{
    let half = u64::from(divisor.unsigned_abs());
    let size = ((2 * dividend.unsigned_abs() + half) / (2 * half)) as i64;
    if (dividend < 0) == (divisor < 0) {
        size
    } else {
        -size
    }
}

/// The same in 128 bits.
#[tactic(auto, unfolding(lb_model_paper::specs::Boxes::nearest))]
fn long_nearest(dividend: i128, divisor: i128) -> i128
    requires dividend { unsigned_abs dividend ≤ 85070591730234615865843651857942052864 }
    requires divisor { IsLongSum divisor }
    requires some { divisor ≢ pos 0 }
    ensures { result ≡ nearest dividend divisor }
{
    let half = divisor.unsigned_abs();
    let size = ((2 * dividend.unsigned_abs() + half) / (2 * half)) as i128;
    if (dividend < 0) == (divisor < 0) {
        size
    } else {
        -size
    }
}

fn product(part: i128, excess: i32) -> i128
    requires { IsLongSum part }
    ensures product { result ≡ part *ℤ excess }
    ensures bounded { unsigned_abs result ≤ 85070591730234615865843651857942052864 }
{
    part * i128::from(excess)
}

/// Whether a quotient can be taken in 64 bits.
fn is_short(dividend: i128, divisor: i128) -> bool
    ensures dividend { OnTrue result (unsigned_abs dividend ≤ 4611686018427387904) }
    ensures divisor { OnTrue result (unsigned_abs divisor ≤ 2147483647) }
{
    -SHORT <= dividend && dividend <= SHORT && -LONGEST <= divisor && divisor <= LONGEST
}

/// The whole number nearest to `dividend / divisor`, halves away from 0, in as few bits as serve.
fn nearest(dividend: i128, divisor: i128) -> i128
    requires dividend { unsigned_abs dividend ≤ 85070591730234615865843651857942052864 }
    requires divisor { IsLongSum divisor }
    requires some { divisor ≢ pos 0 }
    ensures { result ≡ nearest dividend divisor }
{
    if is_short(dividend, divisor) {
        return i128::from(short_nearest(dividend as i64, divisor as i32));
    }
    long_nearest(dividend, divisor)
}

/// The whole number nearest to `part * excess / whole`, halves away from 0.
pub fn share(part: i128, excess: i32, whole: i128) -> i128
    requires part { IsLongSum part }
    requires whole { IsLongSum whole }
    requires some { whole ≢ pos 0 }
    ensures { result ≡ nearest (part *ℤ excess) whole }
{
    nearest(product(part, excess), whole)
}
