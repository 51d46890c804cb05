//! What a number from 0 to 255 picks: registers, the sizes of boxes, and codes (TeXbook, chapter 24).
ghost use Rattle.std.specs.Prelude.{[], ◌∷◌};
ghost use Rattle.lb_model.specs.Quantities.{indexed_cell, picked};
ghost use Rattle.lb_quantities.specs.Finds.{Finds};

use crate::boxes::{depth, height, width};
use crate::codes::{category, lower_case, space_factor, upper_case};
use crate::found::Found;
use crate::registers::{count, dimen, skip, toks};
use lb_base::NoMemory;
use lb_model::{Cells, Indexed};

/// What a number from 0 to 255 picks. Sizes are in scaled points.
pub fn picked<C: Cells>(cells: &mut C, indexed: Indexed, number: u8) -> Result<Found, NoMemory>
    ensures finds { Finds C.Cells (λ w s. picked w s indexed number) (indexed_cell indexed number ∷ []) result cells.new cells.old }
{
    match indexed {
        Indexed::Count => count(cells, number),
        Indexed::Dimen => dimen(cells, number),
        Indexed::Skip => skip(cells, number),
        Indexed::Toks => toks(cells, number),
        Indexed::Width => width(cells, number),
        Indexed::Height => height(cells, number),
        Indexed::Depth => depth(cells, number),
        Indexed::Category => category(cells, number),
        Indexed::LowerCase => lower_case(cells, number),
        Indexed::UpperCase => upper_case(cells, number),
        Indexed::SpaceFactor => space_factor(cells, number),
    }
}
