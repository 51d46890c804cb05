//! A small client of cells, as it runs over any of them, and over a guess: it copies the number of a count register into another.
ghost use Rattle.std.specs.Prelude.{◌≡◌, IfOk, OnOk};
ghost use Rattle.lb_model.specs.Settings.{Setting};
ghost use Rattle.lb_model.specs.Told.{Traced};
ghost use Rattle.lb_record.specs.Copies.{copied, copying};
ghost use Rattle.lb_record.specs.Recorded.{AgreesWith, IsSound, setting_of};

use crate::recorder::{Reads, Recorder};
use lb_base::NoMemory;
use lb_cells::{State, Writes};
use lb_model::reads::number;
use lb_model::{Cells, World};
use lb_values::{Cell, Reach, Value};
use std::alloc::Global;

/// Copies the number of a register into another.
pub fn copy<C: Cells>(cells: &mut C, from: u8, to: u8) -> Result<(), NoMemory>
    ensures traced { Traced C.Cells cells.new cells.old }
    ensures ok { OnOk result ((p : Setting) → C.agrees cells.new p → (C.meaning cells.new p).now ≡ copied from to (C.meaning cells.old p).now) }
{
    let number = number(cells, Cell::Count(from))?;
    cells.set(&Cell::Count(to), Value::Number(number), Reach::Local)?;
    Ok(())
}

/// Copies it over a guess. What is noted and written then speaks for the copying in each world and state that agree with what is noted.
pub fn copy_over(
    alloc: Global,
    world: &World,
    guess: &State,
    from: u8,
    to: u8,
) -> Result<(Reads, Writes), NoMemory>
    ensures sound { IfOk result (λ r. IsSound (copying from to) r.0 r.1 tt) }
    ensures hold { IfOk result (λ r. AgreesWith r.0 (setting_of world.now guess.now)) }
{
    let mut recorder = Recorder::over(alloc, world, guess)?;
    copy(&mut recorder, from, to)?;
    Ok(recorder.finish())
}
