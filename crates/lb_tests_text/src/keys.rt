//! Cells as commands name them: the kind, and the key where there is one. In a name `_` stands for a space.
use crate::numbers::byte;
use crate::stop::Stop;
use lb_base::{Bytes, Name};
use lb_rows::Parameter;
use lb_values::{Cell, RegisterKind};
use std::alloc::Global;

/// The cell that a command names.
pub fn cell(alloc: Global, words: &[&str]) -> Result<Cell, Stop> {
    match *words {
        [kind] => bare(kind),
        [kind, key] => match code_cell(kind, key)? {
            Some(cell) => Ok(cell),
            None => name_cell(alloc, kind, key),
        },
        _ => Err(Stop::Command),
    }
}

/// A cell without a key.
fn bare(kind: &str) -> Result<Cell, Stop> {
    match kind {
        "counters" => Ok(Cell::Counters),
        "only" => Ok(Cell::Only),
        "body" => Ok(Cell::Body),
        "toc" => Ok(Cell::Toc),
        "matter" => Ok(Cell::Matter),
        "pageform" => Ok(Cell::PageForm),
        "pagestyle" => Ok(Cell::PageStyle),
        "thisstyle" => Ok(Cell::ThisStyle),
        "leftmark" => Ok(Cell::LeftMark),
        "rightmark" => Ok(Cell::RightMark),
        "currentlabel" => Ok(Cell::CurrentLabel),
        "env" => Ok(Cell::Env),
        "style" => Ok(Cell::Style),
        "size" => Ok(Cell::Size),
        "job" => Ok(Cell::Job),
        "prefix" => Ok(Cell::Prefix),
        "steps" => Ok(Cell::Steps),
        _ => Err(Stop::Command),
    }
}

/// A cell whose key is a code or a register.
fn code_cell(kind: &str, key: &str) -> Result<Option<Cell>, Stop> {
    let cell: fn(u8) -> Cell = match kind {
        "active" => Cell::Active,
        "cat" => Cell::Cat,
        "lc" => Cell::Lc,
        "uc" => Cell::Uc,
        "sf" => Cell::Sf,
        "count" => Cell::Count,
        "dimen" => Cell::Dimen,
        "skip" => Cell::Skip,
        "toks" => Cell::Toks,
        "boxed" => Cell::Boxed,
        _ => return Ok(None),
    };
    Ok(Some(cell(byte(key)?)))
}

/// A cell whose key is a name, a parameter or a kind of register.
fn name_cell(alloc: Global, kind: &str, key: &str) -> Result<Cell, Stop> {
    let name = name(alloc, key)?;
    match kind {
        "word" => Ok(Cell::Word(name)),
        "counter" => Ok(Cell::Counter(name)),
        "resets" => Ok(Cell::Resets(name)),
        "label" => Ok(Cell::Label(name)),
        "checkpoint" => Ok(Cell::Checkpoint(name)),
        "file" => Ok(Cell::File(name)),
        "par" => match Parameter::named(name.as_slice()) {
            Some(parameter) => Ok(Cell::Par(parameter)),
            None => Err(Stop::Command),
        },
        "fresh" => Ok(Cell::Fresh(register_kind(key)?)),
        _ => Err(Stop::Command),
    }
}

fn register_kind(key: &str) -> Result<RegisterKind, Stop> {
    match key {
        "count" => Ok(RegisterKind::Count),
        "dimen" => Ok(RegisterKind::Dimen),
        "skip" => Ok(RegisterKind::Skip),
        "toks" => Ok(RegisterKind::Toks),
        "boxed" => Ok(RegisterKind::Boxed),
        _ => Err(Stop::Command),
    }
}

/// A name in which `_` stands for a space.
pub fn name(alloc: Global, word: &str) -> Result<Name, Stop> {
    let mut bytes = Bytes::new(alloc);
    for byte in word.bytes() {
        bytes.push(if byte == b'_' { b' ' } else { byte })?;
    }
    Ok(Name::from_slice(alloc, bytes.as_slice())?)
}
