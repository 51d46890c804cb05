//! Sequences: `seq CHANGE.. / STEP.. / CHANGE..` makes the steps over a recorder, whose guess is the state at the start with the first changes.
//! It shows, with `/` between: what the steps tell; the pairs that were noted; what is written on the cells that the steps set; what the steps
//! tell in another state, the guess with the last changes; what the cells that they set then hold there; and the place of the first pair that
//! does not hold there, or else `agrees`, and what those cells hold once the writes are laid over it instead.
ghost use Rattle.std.specs.Prelude.{◌≡◌, ◌≤◌, IfOk, OnOk, length};
ghost use Rattle.lb_model.specs.Ranges.{is_of_state};
ghost use Rattle.lb_model.specs.Settings.{Setting};

use crate::cells::value;
use crate::shown::{show_cell, show_value};
use crate::steps::Step;
use crate::stop::Stop;
use crate::worlds::{state, world};
use lb_cells::{Direct, State, Writes, overlay, tell};
use lb_model::{Cells, World};
use lb_record::{Reads, Recorder};
use lb_values::{Cell, Reach, Value};
use std::alloc::Global;
use std::fmt::Write;

/// Shows what comes of the steps.
pub(crate) fn show(alloc: Global, words: &[&str], out: &mut String) -> Result<(), Stop> {
    let parts: Vec<&[&str]> = words.split(|word| *word == "/").collect(alloc)?;
    let [before, steps, later] = *parts.as_slice() else {
        return Err(Stop::Command);
    };
    let world = world(alloc)?;
    let (reads, writes) = record(alloc, &world, before, steps, out)?;
    show_noted(alloc, reads.as_slice(), &writes, steps, out)?;
    show_direct(alloc, &world, state(alloc, before, later)?, steps, out)?;
    let other = state(alloc, before, later)?;
    show_overlaid(alloc, &world, other, reads.as_slice(), writes, steps, out)
}

/// Shows what the steps tell over a guess, and answers what is noted and written.
fn record(
    alloc: Global,
    world: &World,
    before: &[&str],
    steps: &[&str],
    out: &mut String,
) -> Result<(Reads, Writes), Stop> {
    let guess = state(alloc, before, &[])?;
    let mut recorder = Recorder::over(alloc, world, &guess)?;
    run_all(alloc, &mut recorder, steps, out)?;
    Ok(recorder.finish())
}

/// Shows what is noted and written.
fn show_noted(
    alloc: Global,
    reads: &[(Cell, Value)],
    writes: &Writes,
    steps: &[&str],
    out: &mut String,
) -> Result<(), Stop> {
    out.push_str(" /")?;
    show_reads(alloc, reads, out)?;
    out.push_str(" /")?;
    show_writes(alloc, writes, steps, out)?;
    out.push_str(" /")?;
    Ok(())
}

/// Shows what the steps tell in a state, and what the cells that they set then hold.
fn show_direct(
    alloc: Global,
    world: &World,
    mut state: State,
    steps: &[&str],
    out: &mut String,
) -> Result<(), Stop> {
    let mut cells = Direct::over(world, &mut state);
    run_all(alloc, &mut cells, steps, out)?;
    out.push_str(" /")?;
    show_held(alloc, world, &state, steps, out)
}

/// Shows which pair differs first in a state, or else what the cells that the steps set hold once the writes are laid over it.
fn show_overlaid(
    alloc: Global,
    world: &World,
    mut state: State,
    reads: &[(Cell, Value)],
    writes: Writes,
    steps: &[&str],
    out: &mut String,
) -> Result<(), Stop> {
    if let Some(place) = first_that_differs(world, &state, reads)? {
        write!(out, " / differs {place}")?;
        return Ok(());
    }
    overlay(&mut state, writes)?;
    out.push_str(" / agrees")?;
    show_held(alloc, world, &state, steps, out)
}

/// The place of the first pair that does not hold, if there is one.
fn first_that_differs(
    world: &World,
    state: &State,
    reads: &[(Cell, Value)],
) -> Result<Option<usize>, Stop> {
    for (place, pair) in reads.iter().enumerate() {
        if !tell(world, &pair.0, state.stored(&pair.0))?.equals(&pair.1) {
            return Ok(Some(place));
        }
    }
    Ok(None)
}

/// Makes the steps, and shows what they tell.
fn run_all<C: Cells>(
    alloc: Global,
    cells: &mut C,
    steps: &[&str],
    out: &mut String,
) -> Result<(), Stop> {
    let mut saves = 0;
    for step in steps {
        saves = run(cells, saves, Step::of(alloc, step)?, out)?;
    }
    Ok(())
}

/// Makes a step where so many saves stand at least, and answers how many then do.
fn run<C: Cells>(
    cells: &mut C,
    saves: usize,
    step: Step<'_>,
    out: &mut String,
) -> Result<usize, Stop>
    requires standing { (p : Setting) → C.agrees cells.old p → saves ≤ length (C.meaning cells.old p).saves }
    ensures standing { IfOk result (λ left. (p : Setting) → C.agrees cells.new p → left ≤ length (C.meaning cells.new p).saves) }
{
    match step {
        Step::Tell(cell) => {
            show_told(cells, &cell, out)?;
            Ok(saves)
        }
        Step::Set(cell, word, reach) => {
            set(cells, &cell, word, reach)?;
            Ok(saves)
        }
        Step::Save(cell) => save(cells, saves, &cell),
        Step::PutBack => put_back(cells, saves),
    }
}

/// Shows what a cell tells.
fn show_told<C: Cells>(cells: &mut C, cell: &Cell, out: &mut String) -> Result<(), Stop>
    ensures narrows { OnOk result ((p : Setting) → C.agrees cells.new p → C.agrees cells.old p) }
    ensures stays { OnOk result ((p : Setting) → C.agrees cells.new p → C.meaning cells.new p ≡ C.meaning cells.old p) }
{
    let value = cells.get(cell)?;
    out.push(' ')?;
    show_value(&value, out)
}

fn set<C: Cells>(cells: &mut C, cell: &Cell, word: &str, reach: Reach) -> Result<(), Stop>
    ensures narrows { OnOk result ((p : Setting) → C.agrees cells.new p → C.agrees cells.old p) }
    ensures saves { OnOk result ((p : Setting) → C.agrees cells.new p → length (C.meaning cells.new p).saves ≡ length (C.meaning cells.old p).saves) }
{
    let value = value(cell, word)?;
    cells.set(cell, value, reach)?;
    Ok(())
}

fn save<C: Cells>(cells: &mut C, saves: usize, cell: &Cell) -> Result<usize, Stop>
    requires standing { (p : Setting) → C.agrees cells.old p → saves ≤ length (C.meaning cells.old p).saves }
    ensures standing { IfOk result (λ left. (p : Setting) → C.agrees cells.new p → left ≤ length (C.meaning cells.new p).saves) }
{
    let more = saves.checked_add(1).ok_or(Stop::Command)?;
    if !is_of_state(cell) {
        return Err(Stop::Command);
    }
    cells.save(cell)?;
    Ok(more)
}

/// Whether a cell is none of the world.
fn is_of_state(cell: &Cell) -> bool
    ensures { result ≡ is_of_state cell.now }
{
    !matches!(cell, Cell::Job | Cell::Prefix | Cell::Steps | Cell::File(_))
}

fn put_back<C: Cells>(cells: &mut C, saves: usize) -> Result<usize, Stop>
    requires standing { (p : Setting) → C.agrees cells.old p → saves ≤ length (C.meaning cells.old p).saves }
    ensures standing { IfOk result (λ left. (p : Setting) → C.agrees cells.new p → left ≤ length (C.meaning cells.new p).saves) }
{
    if saves == 0 {
        return Err(Stop::Command);
    }
    cells.put_back();
    Ok(saves - 1)
}

/// Shows pairs of cells and values.
fn show_reads(alloc: Global, reads: &[(Cell, Value)], out: &mut String) -> Result<(), Stop> {
    for pair in reads {
        show_pair(alloc, &pair.0, &pair.1, out)?;
    }
    Ok(())
}

/// Shows what is written on the cells that steps set, and `none` where nothing is.
fn show_writes(
    alloc: Global,
    writes: &Writes,
    steps: &[&str],
    out: &mut String,
) -> Result<(), Stop> {
    for step in steps {
        if let Step::Set(cell, _, _) = Step::of(alloc, step)? {
            match writes.get(&cell) {
                Some(Some(value)) => show_pair(alloc, &cell, value, out)?,
                _ => out.push_str(" none")?,
            }
        }
    }
    Ok(())
}

/// Shows what the cells that steps set hold.
fn show_held(
    alloc: Global,
    world: &World,
    state: &State,
    steps: &[&str],
    out: &mut String,
) -> Result<(), Stop> {
    for step in steps {
        if let Step::Set(cell, _, _) = Step::of(alloc, step)? {
            show_pair(alloc, &cell, &tell(world, &cell, state.stored(&cell))?, out)?;
        }
    }
    Ok(())
}

fn show_pair(alloc: Global, cell: &Cell, value: &Value, out: &mut String) -> Result<(), Stop> {
    out.push(' ')?;
    show_cell(alloc, cell, out)?;
    out.push('=')?;
    show_value(value, out)
}
