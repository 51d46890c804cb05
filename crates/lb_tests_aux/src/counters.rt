//! Counters: `counter STEP..` makes the steps on the state at the start, and shows what comes of each, `ok` where it tells nothing, or the fault.
//! `new:W` makes a counter, and `new:W:V` one within another; `set:W:N` sets one, `add:W:N` adds to it, and `step:W:N` also resets the
//! counters within it; `arabic:W`, `roman:W`, `Roman:W`, `alph:W` and `Alph:W` print it; `the:W` shows the name and the text of the macro that
//! prints a new one; `checkpoint:CHAPTER` shows a checkpoint. The other steps are those of labels.
use crate::labels;
use crate::shown::{show_bytes, show_done};
use crate::states::show_checkpoint;
use crate::stop::Stop;
use crate::words::{name, number, value};
use crate::worlds::world;
use lb_aux::written;
use lb_base::Stop as Cause;
use lb_cells::{Direct, State};
use lb_counters::{new_counter, print, printer, printer_name, set, step};
use lb_model::Cells;
use lb_values::Form;
use std::alloc::Global;

/// Makes the steps.
pub(crate) fn show(alloc: Global, words: &[&str], out: &mut String) -> Result<(), Stop> {
    let world = world(alloc)?;
    let mut state = State::start(alloc)?;
    let mut cells = Direct::over(&world, &mut state);
    for (place, word) in words.iter().enumerate() {
        if place > 0 {
            out.push(' ')?;
        }
        let parts: Vec<&str> = word.split(':').collect(alloc)?;
        make(alloc, &mut cells, &parts, out)?;
    }
    Ok(())
}

fn make<C: Cells>(
    alloc: Global,
    cells: &mut C,
    parts: &[&str],
    out: &mut String,
) -> Result<(), Stop> {
    match *parts {
        ["new", ..] | ["set", ..] | ["add", ..] | ["step", ..] => {
            show_change(change(alloc, cells, parts)?, out)
        }
        ["arabic", counter] => show_text(alloc, cells, counter, Form::Arabic, out),
        ["roman", counter] => show_text(alloc, cells, counter, Form::LowerRoman, out),
        ["Roman", counter] => show_text(alloc, cells, counter, Form::UpperRoman, out),
        ["alph", counter] => show_text(alloc, cells, counter, Form::LowerAlph, out),
        ["Alph", counter] => show_text(alloc, cells, counter, Form::UpperAlph, out),
        ["the", counter] => show_printer(alloc, counter, out),
        ["checkpoint", chapter] => show_checkpoint(alloc, cells, chapter, out),
        _ => labels::make(alloc, cells, parts, out),
    }
}

/// Changes a counter.
fn change<C: Cells>(
    alloc: Global,
    cells: &mut C,
    parts: &[&str],
) -> Result<Result<(), Cause>, Stop> {
    match *parts {
        ["new", counter] => {
            let counter = name(alloc, counter)?;
            Ok(new_counter(alloc, cells, &counter, None))
        }
        ["new", counter, within] => {
            let counter = name(alloc, counter)?;
            let within = name(alloc, within)?;
            Ok(new_counter(alloc, cells, &counter, Some(&within)))
        }
        ["set", counter, by] => Ok(set(cells, &name(alloc, counter)?, value(by)?)),
        ["add", counter, by] => Ok(step(cells, &name(alloc, counter)?, number(by)?, false)),
        ["step", counter, by] => Ok(step(cells, &name(alloc, counter)?, number(by)?, true)),
        _ => Err(Stop::Command),
    }
}

fn show_change(done: Result<(), Cause>, out: &mut String) -> Result<(), Stop> {
    match done {
        Ok(()) => show_done(out),
        Err(cause) => show_fault(cause, out),
    }
}

fn show_text<C: Cells>(
    alloc: Global,
    cells: &mut C,
    counter: &str,
    form: Form,
    out: &mut String,
) -> Result<(), Stop> {
    let counter = name(alloc, counter)?;
    match print(alloc, cells, &counter, form) {
        Ok(text) => show_bytes(text.as_slice(), out),
        Err(cause) => show_fault(cause, out),
    }
}

/// Shows the macro that prints a new counter.
fn show_printer(alloc: Global, counter: &str, out: &mut String) -> Result<(), Stop> {
    let counter = name(alloc, counter)?;
    let command = printer_name(alloc, &counter)?;
    show_bytes(command.as_slice(), out)?;
    let definition = printer(alloc, &counter)?;
    let text = written(alloc, definition.body.as_slice())?;
    show_bytes(text.as_slice(), out)
}

fn show_fault(cause: Cause, out: &mut String) -> Result<(), Stop> {
    match cause {
        Cause::Fault(kind) => {
            out.push_str(kind.name())?;
            Ok(())
        }
        Cause::Memory => Err(Stop::Memory),
        Cause::At(_) => Err(Stop::Command),
    }
}
