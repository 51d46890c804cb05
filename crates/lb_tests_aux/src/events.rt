//! Lines of the log.
use crate::shown::show_bytes;
use crate::stop::Stop;
use crate::tokens::tokens;
use crate::words::{byte, bytes, line, name, number, pages};
use lb_aux::log_line;
use lb_base::{Fault, Kind};
use lb_model_journal::Event;
use std::alloc::Global;

/// `log EVENT WORD..`.
pub(crate) fn show(alloc: Global, words: &[&str], out: &mut String) -> Result<(), Stop> {
    let event = event(alloc, words)?;
    let line = log_line(alloc, &event)?;
    show_bytes(line.as_slice(), out)
}

fn event(alloc: Global, words: &[&str]) -> Result<Event, Stop> {
    match *words {
        [kind, what] => with_one(alloc, kind, what),
        [kind, first, second] => with_two(alloc, kind, first, second),
        ["overfull", missing, file, at] => {
            Ok(Event::Overfull {
                missing: number(missing)?,
                file: name(alloc, file)?,
                line: line(at)?,
            })
        }
        ["output", main, count, length] => Ok(Event::Output {
            main: name(alloc, main)?,
            pages: pages(count)?,
            bytes: line(length)?,
        }),
        _ => Err(Stop::Command),
    }
}

fn with_one(alloc: Global, kind: &str, what: &str) -> Result<Event, Stop> {
    match kind {
        "start" => Ok(Event::Start(name(alloc, what)?)),
        "options" => Ok(Event::Options(bytes(alloc, what)?)),
        "file" => Ok(Event::File(name(alloc, what)?)),
        "page" => Ok(Event::Page(number(what)?)),
        "reference" => Ok(Event::UndefinedReference(name(alloc, what)?)),
        "label" => Ok(Event::MultipleLabel(name(alloc, what)?)),
        "typeout" => Ok(Event::Typeout(tokens(alloc, what)?)),
        _ => Err(Stop::Command),
    }
}

fn with_two(alloc: Global, kind: &str, first: &str, second: &str) -> Result<Event, Stop> {
    match kind {
        "underfull" => Ok(Event::Underfull {
            file: name(alloc, first)?,
            line: line(second)?,
        }),
        "missing" => Ok(Event::MissingCharacter(byte(first)?, name(alloc, second)?)),
        "fault" => Ok(Event::Fault(Fault {
            kind: Kind::Undefined,
            file: name(alloc, first)?,
            line: line(second)?,
        })),
        _ => Err(Stop::Command),
    }
}
