//! Places on a page.
ghost use Rattle.std.specs.Prelude.{◌≡◌, ◌+ℤ◌, ◌-ℤ◌, IfOk, IfErr};
ghost use Rattle.lb_base.specs.declared.fault.Stop.TheVariants.{Memory};
ghost use Rattle.lb_model_paper.specs.Marks.{baseline_of, spot_along};
ghost use Rattle.lb_marks.specs.Spots.{baseline_of_char, spot_of};

use lb_base::{Axis, Node, Stop};
use lb_nodes::sizes::{shift_of, size_of};

/// How far to the right of the page's upper left corner, and how far below it.
#[derive(Clone, Copy)]
pub struct Spot {
    pub h: i128,
    pub v: i128,
}

/// A place moved by a distance. Past 128 bits it takes more nodes than any memory holds to come to.
pub fn moved(at: i128, by: i128) -> Result<i128, Stop>
    ensures ok { IfOk result (λ place. place ≡ at +ℤ by) }
    ensures err { IfErr result (λ stop. stop ≡ Memory) }
{
    match at.checked_add(by) {
        Some(place) => Ok(place),
        None => Err(Stop::Memory),
    }
}

/// A place moved back by a length.
fn moved_back(at: i128, by: i32) -> Result<i128, Stop>
    ensures ok { IfOk result (λ place. place ≡ at -ℤ by) }
    ensures err { IfErr result (λ stop. stop ≡ Memory) }
{
    match at.checked_sub(i128::from(by)) {
        Some(place) => Ok(place),
        None => Err(Stop::Memory),
    }
}

/// Where, so far along its list, an item of a box begins whose baseline begins at a spot.
pub fn spot_along(axis: Axis, height: i32, spot: Spot, along: i128) -> Result<Spot, Stop>
    ensures ok { IfOk result (λ item. spot_of item ≡ spot_along axis height (spot_of spot) along) }
    ensures err { IfErr result (λ stop. stop ≡ Memory) }
{
    match axis {
        Axis::Horizontal => {
            let h = moved(spot.h, along)?;
            Ok(Spot { h, v: spot.v })
        }
        Axis::Vertical => {
            let top = moved_back(spot.v, height)?;
            let v = moved(top, along)?;
            Ok(Spot { h: spot.h, v })
        }
    }
}

/// Where the baseline of an item begins that begins at a spot.
pub fn baseline_of(axis: Axis, spot: Spot, node: &Node) -> Result<Spot, Stop>
    ensures ok { IfOk result (λ item. spot_of item ≡ baseline_of axis (spot_of spot) node.now) }
    ensures err { IfErr result (λ stop. stop ≡ Memory) }
{
    match axis {
        Axis::Horizontal => {
            let v = moved(spot.v, i128::from(shift_of(node)))?;
            Ok(Spot { h: spot.h, v })
        }
        Axis::Vertical => {
            let h = moved(spot.h, i128::from(shift_of(node)))?;
            let v = moved(spot.v, i128::from(size_of(node).height))?;
            Ok(Spot { h, v })
        }
    }
}

/// Where the baseline of a character begins that begins at a spot.
pub fn baseline_of_char(axis: Axis, spot: Spot, height: i32) -> Result<Spot, Stop>
    ensures ok { IfOk result (λ item. spot_of item ≡ baseline_of_char axis (spot_of spot) height) }
    ensures err { IfErr result (λ stop. stop ≡ Memory) }
{
    match axis {
        Axis::Horizontal => Ok(spot),
        Axis::Vertical => {
            let v = moved(spot.v, i128::from(height))?;
            Ok(Spot { h: spot.h, v })
        }
    }
}
