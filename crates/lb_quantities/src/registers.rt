//! What registers and parameters hold (TeXbook, chapter 24; tex.web, part 17).
ghost use Rattle.std.specs.Prelude.{[], ◌∷◌};
ghost use Rattle.lb_rows.specs.Parameters.{parameter_kind};
ghost use Rattle.lb_values.specs.Registers.{register_cell};
ghost use Rattle.lb_values.specs.declared.cell.Cell.TheVariants as cells_of;
ghost use Rattle.lb_values.specs.declared.meaning.Register.TheVariants as registers_of;
ghost use Rattle.lb_model.specs.Quantities.Internal.{Known};
ghost use Rattle.lb_model.specs.Quantities.{parameter_in, register_in};
ghost use Rattle.lb_quantities.specs.Finds.{Finds};

use crate::found::Found;
use lb_base::NoMemory;
use lb_model::{Cells, reads};
use lb_model_grammar::Quantity;
use lb_rows::{Parameter, ParameterKind};
use lb_values::{Cell, Register};

/// What a parameter holds.
fn of_parameter<C: Cells>(cells: &mut C, parameter: Parameter) -> Result<Found, NoMemory>
    ensures finds { Finds C.Cells (λ w s. Known (parameter_in w s parameter (parameter_kind parameter))) (cells_of.Par parameter ∷ []) result cells.new cells.old }
{
    let cell = Cell::Par(parameter);
    let quantity = match parameter.kind() {
        ParameterKind::Number => Quantity::Number(reads::number(cells, cell)?),
        ParameterKind::Dimension => Quantity::Dimen(reads::dimension(cells, cell)?),
        ParameterKind::Glue => Quantity::Skip(reads::glue(cells, cell)?),
    };
    Ok(Found::Known(quantity))
}

/// The number that a register holds.
pub fn count<C: Cells>(cells: &mut C, number: u8) -> Result<Found, NoMemory>
    ensures finds { Finds C.Cells (λ w s. register_in w s (registers_of.Count number)) (cells_of.Count number ∷ []) result cells.new cells.old }
{
    let held = reads::number(cells, Cell::Count(number))?;
    Ok(Found::Known(Quantity::Number(held)))
}

/// The dimension that a register holds.
pub fn dimen<C: Cells>(cells: &mut C, number: u8) -> Result<Found, NoMemory>
    ensures finds { Finds C.Cells (λ w s. register_in w s (registers_of.Dimen number)) (cells_of.Dimen number ∷ []) result cells.new cells.old }
{
    let length = reads::dimension(cells, Cell::Dimen(number))?;
    Ok(Found::Known(Quantity::Dimen(length)))
}

/// The glue that a register holds.
pub fn skip<C: Cells>(cells: &mut C, number: u8) -> Result<Found, NoMemory>
    ensures finds { Finds C.Cells (λ w s. register_in w s (registers_of.Skip number)) (cells_of.Skip number ∷ []) result cells.new cells.old }
{
    let glue = reads::glue(cells, Cell::Skip(number))?;
    Ok(Found::Known(Quantity::Skip(glue)))
}

/// The tokens that a register holds.
pub fn toks<C: Cells>(cells: &mut C, number: u8) -> Result<Found, NoMemory>
    ensures finds { Finds C.Cells (λ w s. register_in w s (registers_of.Toks number)) (cells_of.Toks number ∷ []) result cells.new cells.old }
{
    let tokens = reads::tokens(cells, Cell::Toks(number))?;
    Ok(Found::Tokens(tokens))
}

/// What a register or a parameter holds.
pub fn of_register<C: Cells>(cells: &mut C, register: Register) -> Result<Found, NoMemory>
    ensures finds { Finds C.Cells (λ w s. register_in w s register) (register_cell register ∷ []) result cells.new cells.old }
{
    match register {
        Register::Count(number) => count(cells, number),
        Register::Dimen(number) => dimen(cells, number),
        Register::Skip(number) => skip(cells, number),
        Register::Toks(number) => toks(cells, number),
        Register::Par(parameter) => of_parameter(cells, parameter),
    }
}
