//! What begins with a token of a meaning (TeXbook, chapter 24; tex.web, part 26).
ghost use Rattle.std.specs.Prelude.{◌≡◌};
ghost use Rattle.lb_model.specs.Quantities.{internal_in, looks_internal, row_quantity};
ghost use Rattle.lb_quantities.specs.Finds.{Finds, internal_of};

use crate::found::Found;
use crate::registers::of_register;
use lb_base::NoMemory;
use lb_model::{Cells, Indexed};
use lb_model_grammar::Quantity;
use lb_rows::Command;
use lb_values::Meaning;

/// What begins with a token of a meaning, a quantity that is not one where nothing does. Dimensions are in scaled points.
pub fn internal<C: Cells>(cells: &mut C, meaning: &Option<Meaning>) -> Result<Found, NoMemory>
    ensures finds { Finds C.Cells (λ w s. internal_in w s meaning.now) (looks_internal meaning.now) result cells.new cells.old }
{
    match meaning {
        Some(Meaning::Register(register)) => of_register(cells, *register),
        Some(Meaning::Number(code)) => Ok(Found::Known(Quantity::Number(i32::from(*code)))),
        Some(Meaning::Row(command)) => Ok(of_row(*command)),
        _ => Ok(Found::Known(Quantity::NotOne)),
    }
}

/// What begins with a command that is built in.
fn of_row(command: Command) -> Found
    ensures { internal_of result ≡ row_quantity command }
{
    match command {
        Command::Count => Found::Picked(Indexed::Count),
        Command::Dimen => Found::Picked(Indexed::Dimen),
        Command::Skip => Found::Picked(Indexed::Skip),
        Command::Toks => Found::Picked(Indexed::Toks),
        Command::Wd => Found::Picked(Indexed::Width),
        Command::Ht => Found::Picked(Indexed::Height),
        Command::Dp => Found::Picked(Indexed::Depth),
        Command::CatCode => Found::Picked(Indexed::Category),
        Command::LcCode => Found::Picked(Indexed::LowerCase),
        Command::UcCode => Found::Picked(Indexed::UpperCase),
        Command::SfCode => Found::Picked(Indexed::SpaceFactor),
        Command::Value => Found::OfCounter,
        _ => Found::Known(Quantity::NotOne),
    }
}
