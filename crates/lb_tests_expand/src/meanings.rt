//! Meanings of control sequences and active characters: `row=HEX`, `char=CATEGORY.CODE`, `number=CODE`, `reg=CELL`, or
//! `macro=FLAGS;PATTERN;BODY`, where the flags are `l` for a long one and `-` else, and behind them `o` and the default of an optional first
//! argument, where there is one.
use crate::cells::register;
use crate::numbers::{byte, bytes, category};
use crate::stop::Stop;
use crate::token_lists::tokens;
use lb_base::TokList;
use lb_model::Cells;
use lb_rows::Command;
use lb_values::{MacroDef, Meaning, Pattern, Shared};
use std::alloc::Global;

/// The meaning of a word.
pub(crate) fn meaning<C: Cells>(alloc: Global, cells: &mut C, word: &str) -> Result<Meaning, Stop> {
    let (kind, value) = word.split_once('=').ok_or(Stop::Command)?;
    match kind {
        "row" => row(alloc, value),
        "macro" => {
            let definition = definition(alloc, cells, value)?;
            Ok(Meaning::Macro(Shared::new(alloc, definition)?))
        }
        "char" => character(value),
        "number" => Ok(Meaning::Number(byte(value)?)),
        "reg" => {
            let (kind, key) = value.split_once('.').ok_or(Stop::Command)?;
            Ok(Meaning::Register(register(kind, key)?))
        }
        _ => Err(Stop::Command),
    }
}

fn row(alloc: Global, name: &str) -> Result<Meaning, Stop> {
    match Command::named(bytes(alloc, name)?.as_slice()) {
        Some(command) => Ok(Meaning::Row(command)),
        None => Err(Stop::Command),
    }
}

fn character(word: &str) -> Result<Meaning, Stop> {
    let (of, code) = word.split_once('.').ok_or(Stop::Command)?;
    Ok(Meaning::Char(category(of)?, byte(code)?))
}

fn definition<C: Cells>(alloc: Global, cells: &mut C, word: &str) -> Result<MacroDef, Stop> {
    let (flags, word) = word.split_once(';').ok_or(Stop::Command)?;
    let (pattern, body) = word.split_once(';').ok_or(Stop::Command)?;
    let pattern = Pattern {
        long: flags.starts_with('l'),
        first: first(alloc, cells, flags)?,
        tokens: tokens(alloc, cells, pattern)?,
    };
    Ok(MacroDef {
        pattern,
        body: tokens(alloc, cells, body)?,
    })
}

/// The default of an optional first argument.
fn first<C: Cells>(alloc: Global, cells: &mut C, flags: &str) -> Result<Option<TokList>, Stop> {
    match flags.split_once('o') {
        Some((_, default)) => Ok(Some(tokens(alloc, cells, default)?)),
        None => Ok(None),
    }
}
