//! The steps of a sequence, as commands write them: `o:KIND` and `c:KIND` open and close a group, `O:COUNT` opens so many simple ones;
//! `s:CELL=VALUE:REACH` sets a cell, `a:OPERATION:CELL=VALUE:REACH` advances, multiplies or divides it, `l:HEX=MEANING:REACH` lets a control
//! sequence have a meaning, `d:HEX=CODE:REACH` defines it as a macro of one letter; `?CELL` asks a cell, and `k` the kinds of the open groups.
//! The reach is `l` or `g`.
use crate::cells::{cell, halves, meaning, quantity};
use crate::numbers::{byte, count, name};
use crate::stop::Stop;
use lb_base::Name;
use lb_model::{Arith, GroupKind};
use lb_model_grammar::Quantity;
use lb_values::{Cell, Meaning, Reach};
use std::alloc::Global;

/// A step.
#[derive(Drop)]
pub(crate) enum Step {
    Open(GroupKind),
    OpenMany(usize),
    Close(GroupKind),
    Set(Cell, Quantity, Reach),
    Arith(Arith, Cell, Quantity, Reach),
    Let(Name, Meaning, Reach),
    Define(Name, u8, Reach),
    Tell(Cell),
    Kinds,
}

impl Step {
    /// The step of a word.
    pub(crate) fn of(alloc: Global, word: &str) -> Result<Step, Stop> {
        if word == "k" {
            return Ok(Step::Kinds);
        }
        if let Some(key) = word.strip_prefix('?') {
            return Ok(Step::Tell(cell(alloc, key)?));
        }
        match word.split_once('=') {
            None => group_step(word),
            Some((target, behind)) => {
                let (kind, target) = halves(target)?;
                let (value, reach) = value_and_reach(behind)?;
                change(alloc, kind, target, value, reach)
            }
        }
    }
}

fn group_step(word: &str) -> Result<Step, Stop> {
    let (kind, key) = halves(word)?;
    match kind {
        "o" => Ok(Step::Open(group_kind(key)?)),
        "c" => Ok(Step::Close(group_kind(key)?)),
        "O" => Ok(Step::OpenMany(count(key)?)),
        _ => Err(Stop::Command),
    }
}

fn change(
    alloc: Global,
    kind: &str,
    target: &str,
    value: &str,
    reach: Reach,
) -> Result<Step, Stop> {
    match kind {
        "s" => Ok(Step::Set(cell(alloc, target)?, quantity(alloc, value)?, reach)),
        "a" => {
            let (op, target) = halves(target)?;
            let op = operation(op)?;
            Ok(Step::Arith(op, cell(alloc, target)?, quantity(alloc, value)?, reach))
        }
        "l" => Ok(Step::Let(name(alloc, target)?, meaning(alloc, value)?, reach)),
        "d" => Ok(Step::Define(name(alloc, target)?, byte(value)?, reach)),
        _ => Err(Stop::Command),
    }
}

fn value_and_reach(word: &str) -> Result<(&str, Reach), Stop> {
    let Some((value, reach)) = word.rsplit_once(':') else {
        return Err(Stop::Command);
    };
    match reach {
        "l" => Ok((value, Reach::Local)),
        "g" => Ok((value, Reach::Global)),
        _ => Err(Stop::Command),
    }
}

fn operation(word: &str) -> Result<Arith, Stop> {
    match word {
        "advance" => Ok(Arith::Advance),
        "multiply" => Ok(Arith::Multiply),
        "divide" => Ok(Arith::Divide),
        _ => Err(Stop::Command),
    }
}

fn group_kind(word: &str) -> Result<GroupKind, Stop> {
    match word {
        "simple" => Ok(GroupKind::Simple),
        "semi" => Ok(GroupKind::Semi),
        "material" => Ok(GroupKind::Material),
        _ => Err(Stop::Command),
    }
}
