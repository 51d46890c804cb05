//! The best list of breaks of a pass.
ghost use Rattle.std.specs.Prelude.{◌≡◌, IfOk};
ghost use Rattle.lb_model_paper.specs.BestBreaks.{found_in};
ghost use Rattle.lb_measure.specs.Measures.{IsMeasured, paragraph_in};

use crate::ends::{choose, trail};
use crate::table::table;
use lb_base::Listed;
use lb_measure::Measured;
use lb_model_paper::paragraph::BreakList;
use std::alloc::{AllocError, Global};

/// The best breaks of a pass, or nothing where no list of breaks is admitted.
pub fn found_in(
    alloc: Global,
    measured: &Measured,
    pass: u8,
) -> Result<Option<BreakList>, AllocError>
    requires { IsMeasured measured.now }
    ensures { IfOk result (λ found. found_in pass (paragraph_in measured.now) ≡ found) }
{
    let points = table(alloc, measured)?;
    let Some(index) = choose(measured, &points) else {
        return Ok(None);
    };
    let mut ends = trail(alloc, &points, index)?;
    ends.reverse();
    Ok(Some(BreakList {
        pass,
        ends: Listed::from_vec(ends),
    }))
}
