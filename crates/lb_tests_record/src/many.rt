//! Commands that do one thing many times, to be timed: `record COUNT` asks a recorder so many categories, and `direct COUNT` the cells of a
//! state.
use crate::numbers::count;
use crate::stop::Stop;
use crate::worlds::world;
use lb_base::Category;
use lb_cells::{Direct, State};
use lb_model::Cells;
use lb_model::reads::category;
use lb_record::Recorder;
use std::alloc::Global;
use std::fmt::Write;

/// Asks a recorder.
pub(crate) fn show_recorded(alloc: Global, words: &[&str], out: &mut String) -> Result<(), Stop> {
    let world = world(alloc)?;
    let guess = State::start(alloc)?;
    let mut cells = Recorder::over(alloc, &world, &guess)?;
    show_letters(&mut cells, words, out)
}

/// Asks the cells of a state.
pub(crate) fn show_direct(alloc: Global, words: &[&str], out: &mut String) -> Result<(), Stop> {
    let world = world(alloc)?;
    let mut state = State::start(alloc)?;
    let mut cells = Direct::over(&world, &mut state);
    show_letters(&mut cells, words, out)
}

/// Shows how many of the codes from 0 on, in a round of 256, are letters.
fn show_letters<C: Cells>(cells: &mut C, words: &[&str], out: &mut String) -> Result<(), Stop> {
    let [times] = *words else {
        return Err(Stop::Command);
    };
    let mut letters = 0u64;
    for time in 0..count(times)? {
        if category(cells, (time % 256) as u8)? == Category::Letter {
            letters = letters.saturating_add(1);
        }
    }
    write!(out, "{letters} letters")?;
    Ok(())
}
