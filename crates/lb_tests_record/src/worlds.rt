//! The world and the states of the commands.
use crate::cells::{cell, value};
use crate::steps::halves;
use crate::stop::Stop;
use lb_base::{Bytes, Moment, Name};
use lb_cells::State;
use lb_model::{FileMap, STEPS_AT_START, World};
use lb_values::{Reach, Shared};
use std::alloc::Global;

/// A world with one file, `a.tex`, of two bytes.
pub(crate) fn world(alloc: Global) -> Result<World, Stop> {
    let moment = Moment {
        year: 1776,
        month: 7,
        day: 4,
        minutes: 720,
    };
    let mut files = FileMap::new(alloc);
    files.insert(
        Name::from_slice(alloc, b"a.tex")?,
        Shared::new(alloc, Bytes::from_slice(alloc, b"Hi")?)?,
    )?;
    Ok(World {
        files,
        main: Name::from_slice(alloc, b"main")?,
        prefix: Name::from_slice(alloc, b"p/")?,
        steps: STEPS_AT_START,
        moment,
    })
}

/// The state at the start with changes, each `CELL=VALUE`, and later ones.
pub(crate) fn state(alloc: Global, changes: &[&str], later: &[&str]) -> Result<State, Stop> {
    let mut state = State::start(alloc)?;
    change_all(alloc, &mut state, changes)?;
    change_all(alloc, &mut state, later)?;
    Ok(state)
}

fn change_all(alloc: Global, state: &mut State, changes: &[&str]) -> Result<(), Stop> {
    for change in changes {
        let (target, word) = halves(change)?;
        let cell = cell(alloc, target)?;
        let value = value(&cell, word)?;
        state.change(&cell, value, Reach::Local)?;
    }
    Ok(())
}
