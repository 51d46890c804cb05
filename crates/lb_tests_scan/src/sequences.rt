//! Sequences: `seq STEP..` makes the steps over a state as it is at the start, and shows what comes of each: `ok` or the fault, or what was
//! asked.
ghost use Rattle.std.specs.Prelude.{◌≡◌, OnOk};
ghost use Rattle.lb_model.specs.Settings.{Setting};
ghost use Rattle.lb_model.specs.Stacked.{Standing};

use crate::cells::show_value;
use crate::changes::{define_letter, mean, set, work};
use crate::groups::{close, open, open_many, show_kinds};
use crate::steps::Step;
use crate::stop::Stop;
use lb_base::{Kind, Moment, Name};
use lb_cells::{Direct, State};
use lb_groups::{Groups, looks};
use lb_model::{Cells, FileMap, GroupKind, STEPS_AT_START, World};
use lb_values::Cell;
use std::alloc::Global;

/// Shows what comes of the steps.
pub(crate) fn show(alloc: Global, words: &[&str], out: &mut String) -> Result<(), Stop> {
    let world = world(alloc)?;
    let mut state = State::start(alloc)?;
    let mut cells = Direct::over(&world, &mut state);
    let mut groups = Groups::new(alloc);
    run_all(alloc, &mut cells, &mut groups, words, out)
}

/// A world without files.
fn world(alloc: Global) -> Result<World, Stop> {
    let moment = Moment {
        year: 1776,
        month: 7,
        day: 4,
        minutes: 720,
    };
    Ok(World {
        files: FileMap::new(alloc),
        main: Name::from_slice(alloc, b"main")?,
        prefix: Name::from_slice(alloc, b"")?,
        steps: STEPS_AT_START,
        moment,
    })
}

fn run_all<C: Cells>(
    alloc: Global,
    cells: &mut C,
    groups: &mut Groups,
    words: &[&str],
    out: &mut String,
) -> Result<(), Stop>
    requires standing { (p : Setting) → C.agrees cells.old p → Standing groups.old (C.meaning cells.old p) }
{
    let mut kinds = Vec::new(alloc);
    for (place, word) in words.iter().enumerate() {
        if place > 0 {
            out.push(' ')?;
        }
        run(
            alloc,
            cells,
            groups,
            &mut kinds,
            Step::of(alloc, word)?,
            out,
        )?;
    }
    Ok(())
}

/// Makes a step.
fn run<C: Cells>(
    alloc: Global,
    cells: &mut C,
    groups: &mut Groups,
    kinds: &mut Vec<GroupKind>,
    step: Step,
    out: &mut String,
) -> Result<(), Stop>
    requires standing { (p : Setting) → C.agrees cells.old p → Standing groups.old (C.meaning cells.old p) }
    ensures standing { OnOk result ((p : Setting) → C.agrees cells.new p → Standing groups.new (C.meaning cells.new p)) }
{
    match step {
        Step::Open(kind) => answer(open(groups, kinds, kind)?, out),
        Step::OpenMany(count) => answer(open_many(groups, kinds, count)?, out),
        Step::Close(kind) => answer(close(cells, groups, kinds, kind)?, out),
        Step::Set(cell, value, reach) => answer(set(cells, groups, &cell, value, reach)?, out),
        Step::Arith(op, cell, by, reach) => {
            answer(work(cells, groups, &cell, op, by, reach)?, out)
        }
        Step::Let(name, meaning, reach) => {
            answer(mean(cells, groups, name, meaning, reach)?, out)
        }
        Step::Define(name, code, reach) => {
            answer(define_letter(alloc, cells, groups, name, code, reach)?, out)
        }
        Step::Tell(cell) => tell(cells, groups, &cell, out),
        Step::Kinds => show_kinds(groups, kinds.as_slice(), out),
    }
}

/// Shows that a step was made, or its fault.
fn answer(fault: Option<Kind>, out: &mut String) -> Result<(), Stop> {
    out.push_str(match fault {
        None => "ok",
        Some(kind) => kind.name(),
    })?;
    Ok(())
}

/// Shows what a cell tells.
fn tell<C: Cells>(cells: &mut C, groups: &Groups, cell: &Cell, out: &mut String) -> Result<(), Stop>
    ensures narrows { OnOk result ((p : Setting) → C.agrees cells.new p → C.agrees cells.old p) }
    ensures stays { OnOk result ((p : Setting) → C.agrees cells.new p → C.meaning cells.new p ≡ C.meaning cells.old p) }
{
    let value = looks::value(cells, groups, cell)?;
    show_value(&value, out)
}
