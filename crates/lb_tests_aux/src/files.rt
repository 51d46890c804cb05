//! Old aux files: `read BYTES` shows what a file says.
use crate::shown::show_part;
use crate::stop::Stop;
use crate::words::bytes;
use lb_aux::read_aux;
use lb_model_aux::Line;
use std::alloc::Global;
use std::fmt::Write;

pub(crate) fn show(alloc: Global, words: &[&str], out: &mut String) -> Result<(), Stop> {
    let [file] = *words else {
        return Err(Stop::Command);
    };
    let text = bytes(alloc, file)?;
    let aux = read_aux(alloc, text.as_slice())?;
    for (index, line) in aux.as_slice().iter().enumerate() {
        if index > 0 {
            out.push_str("; ")?;
        }
        show_line(line, out)?;
    }
    Ok(())
}

fn show_line(line: &Line, out: &mut String) -> Result<(), Stop> {
    match line {
        Line::Label(key, pair) => {
            show_part("label", key.as_slice(), out)?;
            show_part("", pair.text.as_slice(), out)?;
            show_part("", pair.page.as_slice(), out)
        }
        Line::Input(file) => show_part("input", file.as_slice(), out),
        Line::Entry(ending, text) => {
            show_part("entry", ending.as_slice(), out)?;
            show_part("", text.as_slice(), out)
        }
        Line::Checkpoint(chapter, counters) => {
            show_part("checkpoint", chapter.as_slice(), out)?;
            for counter in counters.as_slice() {
                show_part("", counter.0.as_slice(), out)?;
                let number = counter.1;
                write!(out, "={number}")?;
            }
            Ok(())
        }
    }
}
