//! Checkpoints of states.
use crate::shown::show_bytes;
use crate::stop::Stop;
use crate::words::{name, value};
use crate::worlds::world;
use lb_aux::checkpoint_text;
use lb_base::Name;
use lb_cells::{Direct, State};
use lb_model::Cells;
use lb_values::{Cell, Reach, Value};
use std::alloc::Global;

/// `checkpoint CHAPTER COUNTER=NUMBER..`: the checkpoint of the state at the start, with some counters changed.
pub(crate) fn show(alloc: Global, words: &[&str], out: &mut String) -> Result<(), Stop> {
    let Some((chapter, changes)) = words.split_first() else {
        return Err(Stop::Command);
    };
    let world = world(alloc)?;
    let mut state = State::start(alloc)?;
    let mut cells = Direct::over(&world, &mut state);
    for change in changes {
        set_counter(alloc, &mut cells, change)?;
    }
    show_checkpoint(alloc, &mut cells, chapter, out)
}

/// Shows the checkpoint of a chapter.
pub(crate) fn show_checkpoint<C: Cells>(
    alloc: Global,
    cells: &mut C,
    chapter: &str,
    out: &mut String,
) -> Result<(), Stop> {
    let chapter = name(alloc, chapter)?;
    let text = checkpoint_text(alloc, cells, &chapter)?;
    show_bytes(text.as_slice(), out)
}

fn set_counter<C: Cells>(alloc: Global, cells: &mut C, change: &str) -> Result<(), Stop> {
    let Some((counter, word)) = change.split_once('=') else {
        return Err(Stop::Command);
    };
    let number = value(word)?;
    let cell = Cell::Counter(Name::from_slice(alloc, counter.as_bytes())?);
    cells.set(&cell, Value::Number(number), Reach::Global)?;
    Ok(())
}
