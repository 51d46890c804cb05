//! Commands on a state alone: `value CELL` shows what it holds, `text CELL` the text of the cell, and
//! `over CELL = VALUE ; ..` lays writes over it.
use crate::keys::cell;
use crate::numbers::{byte, number};
use crate::parts::part_end;
use crate::shown::{show_bytes, show_value};
use crate::stop::Stop;
use lb_cells::{State, Writes, overlay};
use lb_values::Value;
use std::alloc::Global;
use std::fmt::Write;

/// Shows what comes of a command, or answers false if it is none of these.
pub fn show(
    alloc: Global,
    words: &[&str],
    state: &mut State,
    out: &mut String,
) -> Result<bool, Stop> {
    match words.split_first() {
        Some((&"value", key)) => match state.value(&cell(alloc, key)?) {
            Some(value) => show_value(value, out)?,
            None => writeln!(out, "none")?,
        },
        Some((&"text", key)) => {
            show_bytes(cell(alloc, key)?.text(alloc)?.as_slice(), out)?;
            writeln!(out)?;
        }
        Some((&"over", parts)) => overlay(state, writes(alloc, parts)?)?,
        _ => return Ok(false),
    }
    Ok(true)
}

/// The writes of a command.
fn writes(alloc: Global, parts: &[&str]) -> Result<Writes, Stop> {
    let mut writes = Writes::new(alloc);
    let mut from = 0;
    while from < parts.len() {
        let end = part_end(parts, from);
        add_write(alloc, &parts[from..end], &mut writes)?;
        from = end.saturating_add(1);
    }
    Ok(writes)
}

/// Adds a write, `CELL = VALUE`.
fn add_write(alloc: Global, part: &[&str], writes: &mut Writes) -> Result<(), Stop> {
    let Some(at) = part.iter().position(|word| *word == "=") else {
        return Err(Stop::Command);
    };
    let value = value(&part[at + 1..])?;
    writes.insert(cell(alloc, &part[..at])?, Some(value))?;
    Ok(())
}

fn value(words: &[&str]) -> Result<Value, Stop> {
    match *words {
        ["absent"] => Ok(Value::Absent),
        ["number", word] => Ok(Value::Number(number(word)?)),
        ["dimension", word] => Ok(Value::Dimen(number(word)?)),
        ["code", word] => Ok(Value::Code(byte(word)?)),
        _ => Err(Stop::Command),
    }
}
