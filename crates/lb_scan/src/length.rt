//! How far the scan of a dimension has come, and its end.
ghost use Rattle.std.specs.Prelude.{◌≡◌, ◌∷◌, List, None};
ghost use Rattle.lb_model_grammar.specs.declared.given.Given.{Given as AGiven};
ghost use Rattle.lb_model_grammar.specs.Dimensions.{Uses, sized};
ghost use Rattle.lb_scan.specs.Lengths.{ended_length, length_after};

use crate::arith::signed_value;
use crate::class::is_space;
use crate::fraction::Fraction;
use crate::size::{Decimal, Size};
use crate::spelling::Prefix;
use lb_base::{Kind, Order};
use lb_model_grammar::{Given, Want};

/// How far the scan of a dimension has come; the flag tells whether it has a minus.
#[derive(Clone, Copy)]
pub(crate) enum Length {
    Signs(bool),
    /// Digits were read.
    Whole(bool, u32),
    /// A point was read behind a whole number, and digits.
    Fraction(bool, u32, Fraction),
    /// A unit comes next.
    Unit_(Decimal),
    /// Letters of a unit were read.
    Letters(Decimal, Prefix),
    /// The internal dimension that stands for a unit comes next.
    InternalUnit(Decimal),
    /// The size of a unit of the present font comes next.
    FontUnit(Decimal, Want),
    /// The quantity of the token that was given last comes next.
    Internal(bool),
    /// A space may come behind the unit.
    Space(Size),
}

/// What is done where no stage goes on: the internal quantity that was given stands alone, something is missing, there is a fault, or the dimension ends
/// with what was given or before it.
#[derive(Clone, Copy)]
pub(crate) enum Ending {
    Alone(bool),
    Missing(Kind),
    Fails(Kind),
    Found(Order, i32),
    FoundBefore(Order, i32),
}

/// The size at which lengths are too large.
const TOO_LARGE: u64 = 1_073_741_824;

/// The next stage, and no end.
#[inline(always)]
pub(crate) fn goes(next: Length, stage: &mut Length) -> Option<Ending>
    ensures stage { stage.new ≡ next }
    ensures goes { result ≡ None }
{
    *stage = next;
    None
}

/// The dimension ends with what was given.
pub(crate) fn end(size: Size) -> Ending
    ensures { (u : Uses) (g : AGiven) (more : List AGiven) → ended_length u result g more ≡ sized u size.negative size.order size.size more }
{
    if size.size < TOO_LARGE {
        Ending::Found(size.order, signed_value(size.negative, size.size as i32))
    } else {
        Ending::Fails(Kind::DimenTooLarge)
    }
}

// It ends before what was given.
fn end_before(size: Size) -> Ending
    ensures { (u : Uses) (g : AGiven) (more : List AGiven) →
        ended_length u result g more ≡ sized u size.negative size.order size.size (g ∷ more) }
{
    if size.size < TOO_LARGE {
        Ending::FoundBefore(size.order, signed_value(size.negative, size.size as i32))
    } else {
        Ending::Fails(Kind::DimenTooLarge)
    }
}

/// What stands behind a unit, which is taken where it is a space.
pub(crate) fn close(size: Size, given: &Given) -> Ending
    ensures { (u : Uses) (more : List AGiven) → ended_length u result given.now more ≡ length_after u (Length.Space size) (given.now ∷ more) }
{
    match given {
        Given::Tok(tok) => {
            if is_space(tok) {
                return end(size);
            }
            end_before(size)
        }
        Given::Quantity(_) => end_before(size),
        Given::End => end_before(size),
    }
}
