//! The sizes of boxes (TeXbook, chapter 12), 0pt where there is no box.
ghost use Rattle.std.specs.Prelude.{[], ◌∷◌};
ghost use Rattle.lb_values.specs.declared.cell.Cell.TheVariants as cells_of;
ghost use Rattle.lb_model.specs.Quantities.Internal.{Known};
ghost use Rattle.lb_model.specs.Quantities.{size_in};
ghost use Rattle.lb_quantities.specs.Finds.{Finds};

use crate::found::Found;
use lb_base::NoMemory;
use lb_model::{Cells, reads};
use lb_model_grammar::Quantity;
use lb_values::Cell;

/// The width of a box.
pub fn width<C: Cells>(cells: &mut C, number: u8) -> Result<Found, NoMemory>
    ensures finds { Finds C.Cells (λ w s. Known (size_in w s (λ b. b.width) number)) (cells_of.Boxed number ∷ []) result cells.new cells.old }
{
    let width = match reads::boxed(cells, Cell::Boxed(number))? {
        Some(boxed) => boxed.get().width,
        None => 0,
    };
    Ok(Found::Known(Quantity::Dimen(width)))
}

/// The height of a box.
pub fn height<C: Cells>(cells: &mut C, number: u8) -> Result<Found, NoMemory>
    ensures finds { Finds C.Cells (λ w s. Known (size_in w s (λ b. b.height) number)) (cells_of.Boxed number ∷ []) result cells.new cells.old }
{
    let height = match reads::boxed(cells, Cell::Boxed(number))? {
        Some(boxed) => boxed.get().height,
        None => 0,
    };
    Ok(Found::Known(Quantity::Dimen(height)))
}

/// The depth of a box.
pub fn depth<C: Cells>(cells: &mut C, number: u8) -> Result<Found, NoMemory>
    ensures finds { Finds C.Cells (λ w s. Known (size_in w s (λ b. b.depth) number)) (cells_of.Boxed number ∷ []) result cells.new cells.old }
{
    let depth = match reads::boxed(cells, Cell::Boxed(number))? {
        Some(boxed) => boxed.get().depth,
        None => 0,
    };
    Ok(Found::Known(Quantity::Dimen(depth)))
}
