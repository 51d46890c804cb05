//! Cases: calls over one feeder, each with its answer, and behind them the lines of the log.
ghost use Rattle.lb_tests_expand.specs.Standings.{Stands};

use crate::calls::call;
use crate::settings::Setting;
use crate::shown::{show_hex, show_line, show_place, start_answer};
use crate::stop::{End, Stop};
use lb_cells::{Direct, State};
use lb_expand::{Desk, Feeder};
use lb_model::{Append, Cells};
use std::alloc::Global;
use std::fmt::Write;

/// Shows the answers of a case.
pub(crate) fn show(
    alloc: Global,
    start: &State,
    words: &[&str],
    out: &mut String,
) -> Result<(), Stop> {
    let Setting {
        world,
        mut state,
        piece,
    } = Setting::of(alloc, start, words)?;
    let mut desk = piece.desk(alloc)?;
    let mut cells = Direct::over(&world, &mut state);
    let ended = run(&mut Feeder::over(&mut cells, &mut desk), words, out);
    show_end(ended, &desk, out)?;
    show_log(desk.appends.as_slice(), out)
}

/// Makes the calls, up to a fault.
fn run<C: Cells>(feeder: &mut Feeder<'_, C>, words: &[&str], out: &mut String) -> Result<(), End>
    requires { Stands C.Cells feeder.old }
{
    for word in words {
        if !word.contains('=') {
            call(feeder, word, out)?;
        }
    }
    Ok(())
}

/// Shows the fault at which the calls ended, if there is one.
fn show_end(ended: Result<(), End>, desk: &Desk, out: &mut String) -> Result<(), Stop> {
    match ended {
        Ok(()) => Ok(()),
        Err(End::Stop(stop)) => Err(stop),
        Err(End::Fault(kind)) => {
            start_answer(out)?;
            let name = kind.name();
            write!(out, "!{name}")?;
            show_place(desk.place.as_ref(), desk.left, out)
        }
        Err(End::At(fault)) => {
            start_answer(out)?;
            let name = fault.kind.name();
            write!(out, "!{name}")?;
            show_line(&fault.file, fault.line, desk.left, out)
        }
    }
}

/// Shows the lines that were added to the log.
fn show_log(appends: &[Append], out: &mut String) -> Result<(), Stop> {
    for append in appends {
        if let Append::Log(line) = append {
            start_answer(out)?;
            out.push_str("log:")?;
            show_hex(line.as_slice(), out)?;
        }
    }
    Ok(())
}
