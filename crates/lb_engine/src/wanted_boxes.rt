//! The box that a row wants (TeXbook, chapter 24; tex.web, sections 1079 and 1084).
ghost use Rattle.std.specs.Prelude.{◌≡◌};
ghost use Rattle.lb_model_engine.specs.Boxes.{box_of, box_wanted};
ghost use Rattle.lb_model_nest.specs.declared.nest.BoxContext.{BoxContext as AContext};
ghost use Rattle.lb_model_nest.specs.Wholes.{Whole};
ghost use Rattle.lb_engine.specs.Boxes.{wanted_to};
ghost use Rattle.lb_engine.specs.Leads.{Goes, Holds};

use crate::boxes::{begin_box, copy_box, take_box};
use crate::engine::Engine;
use crate::reading::Reading;
use crate::spaces::past_spaces;
use lb_base::{Axis, Kind, NoMemory};
use lb_model::Cells;
use lb_model_nest::{BoxContext, Went};
use lb_rows::Command;
use lb_values::Meaning;

// The box that a row asks for, by the meaning of the next token: one that is made, the one of a register, or a copy of that.
#[derive(Clone, Copy)]
enum Wanted {
    Begun(Axis),
    Taken,
    Copied,
    Nothing,
}

fn wanted_by(meaning: &Option<Meaning>) -> Wanted
    ensures wanted { (context : AContext) (w : Whole) → box_of meaning.now context w ≡ wanted_to result context w }
{
    match meaning {
        Some(Meaning::Row(Command::HBox)) => Wanted::Begun(Axis::Horizontal),
        Some(Meaning::Row(Command::VBox)) => Wanted::Begun(Axis::Vertical),
        Some(Meaning::Row(Command::Box)) => Wanted::Taken,
        Some(Meaning::Row(Command::Copy)) => Wanted::Copied,
        _ => Wanted::Nothing,
    }
}

// The box that is asked for.
fn bring<C: Cells>(
    cells: &mut C,
    engine: &mut Engine,
    wanted: Wanted,
    context: BoxContext,
) -> Result<Went, NoMemory>
    requires holds { Holds C.Cells cells.old engine.old }
    ensures goes { Goes C.Cells (wanted_to wanted context) result cells.new engine.new cells.old engine.old }
{
    match wanted {
        Wanted::Begun(axis) => begin_box(cells, engine, axis, context),
        Wanted::Taken => take_box(cells, engine, context),
        Wanted::Copied => copy_box(cells, engine, context),
        Wanted::Nothing => Ok(Went::Stopped(Kind::TokenMisplaced)),
    }
}

/// A box that comes next; spaces before it are skipped.
pub fn want_box<C: Cells>(
    cells: &mut C,
    engine: &mut Engine,
    context: BoxContext,
) -> Result<Went, NoMemory>
    requires holds { Holds C.Cells cells.old engine.old }
    ensures goes { Goes C.Cells (box_wanted context) result cells.new engine.new cells.old engine.old }
{
    match past_spaces(cells, engine)? {
        Reading::Of((_tok, meaning)) => {
            let wanted = wanted_by(&meaning);
            bring(cells, engine, wanted, context)
        }
        Reading::Stops(went) => Ok(went),
    }
}
