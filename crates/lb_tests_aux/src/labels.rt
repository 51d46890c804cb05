//! Labels among the steps of a command: `here:TEXT` sets the text of the present label, `label:KEY` shows the note of a label, `old:KEY:TEXT:PAGE`
//! says what a label of an old file stands for, and `ref:KEY` shows what it stands for, `-` for nothing.
use crate::shown::{show_bytes, show_done};
use crate::stop::Stop;
use crate::words::{bytes, name};
use lb_base::{Node, Note};
use lb_counters::{label, reference};
use lb_model::Cells;
use lb_values::{Cell, LabelPair, Reach, Shared, Value};
use std::alloc::Global;

/// Makes a step.
pub(crate) fn make<C: Cells>(
    alloc: Global,
    cells: &mut C,
    parts: &[&str],
    out: &mut String,
) -> Result<(), Stop> {
    match *parts {
        ["here", text] => {
            set_text(alloc, cells, text)?;
            show_done(out)
        }
        ["old", key, text, page] => {
            set_pair(alloc, cells, key, [text, page])?;
            show_done(out)
        }
        ["label", key] => show_label(alloc, cells, key, out),
        ["ref", key] => show_reference(alloc, cells, key, out),
        _ => Err(Stop::Command),
    }
}

fn set_text<C: Cells>(alloc: Global, cells: &mut C, text: &str) -> Result<(), Stop> {
    let text = Shared::new(alloc, bytes(alloc, text)?)?;
    cells.set(&Cell::CurrentLabel, Value::Text(text), Reach::Local)?;
    Ok(())
}

fn set_pair<C: Cells>(
    alloc: Global,
    cells: &mut C,
    key: &str,
    values: [&str; 2],
) -> Result<(), Stop> {
    let pair = LabelPair {
        text: bytes(alloc, values[0])?,
        page: bytes(alloc, values[1])?,
    };
    let cell = Cell::Label(name(alloc, key)?);
    let pair = Shared::new(alloc, pair)?;
    cells.set(&cell, Value::Label(pair), Reach::Global)?;
    Ok(())
}

fn show_label<C: Cells>(
    alloc: Global,
    cells: &mut C,
    key: &str,
    out: &mut String,
) -> Result<(), Stop> {
    let key = name(alloc, key)?;
    let Node::Note(note) = label(alloc, cells, &key)? else {
        return Err(Stop::Command);
    };
    match note.get() {
        Note::Label { key, text } => {
            show_bytes(key.as_slice(), out)?;
            show_bytes(text.as_slice(), out)
        }
        _ => Err(Stop::Command),
    }
}

fn show_reference<C: Cells>(
    alloc: Global,
    cells: &mut C,
    key: &str,
    out: &mut String,
) -> Result<(), Stop> {
    let key = name(alloc, key)?;
    match reference(alloc, cells, &key)? {
        Some(pair) => {
            show_bytes(pair.text.as_slice(), out)?;
            show_bytes(pair.page.as_slice(), out)
        }
        None => {
            out.push('-')?;
            Ok(())
        }
    }
}
