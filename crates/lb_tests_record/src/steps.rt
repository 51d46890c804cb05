//! The steps of a sequence, as commands write them: `?CELL` asks a cell, `s:CELL=VALUE` sets it, `g:CELL=VALUE` sets it globally, `k:CELL`
//! saves it, and `b` puts the last save back.
use crate::cells::cell;
use crate::stop::Stop;
use lb_values::{Cell, Reach};
use std::alloc::Global;

/// A step. A value is still a word.
#[derive(Drop)]
pub(crate) enum Step<'a> {
    Tell(Cell),
    Set(Cell, &'a str, Reach),
    Save(Cell),
    PutBack,
}

impl<'a> Step<'a> {
    /// The step of a word.
    pub(crate) fn of(alloc: Global, word: &'a str) -> Result<Step<'a>, Stop> {
        if word == "b" {
            return Ok(Step::PutBack);
        }
        if let Some(asked) = word.strip_prefix('?') {
            return Ok(Step::Tell(cell(alloc, asked)?));
        }
        match word.split_once(':') {
            Some(("k", saved)) => Ok(Step::Save(cell(alloc, saved)?)),
            Some(("s", change)) => set(alloc, change, Reach::Local),
            Some(("g", change)) => set(alloc, change, Reach::Global),
            _ => Err(Stop::Command),
        }
    }
}

fn set<'a>(alloc: Global, change: &'a str, reach: Reach) -> Result<Step<'a>, Stop> {
    let (target, value) = halves(change)?;
    Ok(Step::Set(cell(alloc, target)?, value, reach))
}

/// What stands before `=` and behind it.
pub(crate) fn halves(change: &str) -> Result<(&str, &str), Stop> {
    change.split_once('=').ok_or(Stop::Command)
}
