//! The codes of characters, as numbers (TeXbook, chapters 7 and 12).
ghost use Rattle.std.specs.Prelude.{[], ◌∷◌, pos};
ghost use Rattle.lb_values.specs.Categories.{category_code};
ghost use Rattle.lb_values.specs.declared.cell.Cell.TheVariants as cells_of;
ghost use Rattle.lb_model.specs.Kinds.{category_of, code_of, space_factor_of};
ghost use Rattle.lb_model.specs.Quantities.Internal.{Known};
ghost use Rattle.lb_model.specs.Settings.{look};
ghost use Rattle.lb_model_grammar.specs.declared.given.Quantity.TheVariants.{Number};
ghost use Rattle.lb_quantities.specs.Finds.{Finds};

use crate::found::Found;
use lb_base::NoMemory;
use lb_model::{Cells, reads};
use lb_model_grammar::Quantity;
use lb_values::{Cell, category_code};

/// The category of a character.
pub fn category<C: Cells>(cells: &mut C, number: u8) -> Result<Found, NoMemory>
    ensures finds { Finds C.Cells (λ w s. Known (Number (pos (category_code (category_of (look w s (cells_of.Cat number))))))) (cells_of.Cat number ∷ []) result cells.new cells.old }
{
    let code = category_code(reads::category(cells, number)?);
    Ok(Found::Known(Quantity::Number(i32::from(code))))
}

/// The lower-case form of a character.
pub fn lower_case<C: Cells>(cells: &mut C, number: u8) -> Result<Found, NoMemory>
    ensures finds { Finds C.Cells (λ w s. Known (Number (pos (code_of (look w s (cells_of.Lc number)))))) (cells_of.Lc number ∷ []) result cells.new cells.old }
{
    let code = reads::code(cells, Cell::Lc(number))?;
    Ok(Found::Known(Quantity::Number(i32::from(code))))
}

/// The upper-case form of a character.
pub fn upper_case<C: Cells>(cells: &mut C, number: u8) -> Result<Found, NoMemory>
    ensures finds { Finds C.Cells (λ w s. Known (Number (pos (code_of (look w s (cells_of.Uc number)))))) (cells_of.Uc number ∷ []) result cells.new cells.old }
{
    let code = reads::code(cells, Cell::Uc(number))?;
    Ok(Found::Known(Quantity::Number(i32::from(code))))
}

/// The space factor of a character.
pub fn space_factor<C: Cells>(cells: &mut C, number: u8) -> Result<Found, NoMemory>
    ensures finds { Finds C.Cells (λ w s. Known (Number (space_factor_of (look w s (cells_of.Sf number))))) (cells_of.Sf number ∷ []) result cells.new cells.old }
{
    let factor = reads::space_factor(cells, number)?;
    Ok(Found::Known(Quantity::Number(factor)))
}
