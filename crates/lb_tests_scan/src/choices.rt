//! Tests of conditionals: `test KIND LEFT RIGHT` shows the part that is chosen.
use crate::numbers::long;
use crate::stop::Stop;
use lb_cond::test;
use lb_model_grammar::{Branch, CondKind, Rel};
use std::fmt::Write;

/// Shows the part that a test of two numbers chooses.
pub(crate) fn show(words: &[&str], out: &mut String) -> Result<(), Stop> {
    match *words {
        [kind, left, right] => {
            let branch = test(kind_of(kind)?, long(left)?, long(right)?);
            show_branch(branch, out)
        }
        _ => Err(Stop::Command),
    }
}

fn kind_of(word: &str) -> Result<CondKind, Stop> {
    match word {
        "if" => Ok(CondKind::If),
        "ifcat" => Ok(CondKind::IfCat),
        "ifnum<" => Ok(CondKind::IfNum(Rel::Less)),
        "ifnum=" => Ok(CondKind::IfNum(Rel::Equal)),
        "ifnum>" => Ok(CondKind::IfNum(Rel::Greater)),
        "ifdim<" => Ok(CondKind::IfDim(Rel::Less)),
        "ifdim=" => Ok(CondKind::IfDim(Rel::Equal)),
        "ifdim>" => Ok(CondKind::IfDim(Rel::Greater)),
        "ifodd" => Ok(CondKind::IfOdd),
        "ifcase" => Ok(CondKind::IfCase),
        _ => Err(Stop::Command),
    }
}

fn show_branch(branch: Branch, out: &mut String) -> Result<(), Stop> {
    match branch {
        Branch::Then => write!(out, "then")?,
        Branch::Otherwise => write!(out, "else")?,
        Branch::Part(part) => write!(out, "part {part}")?,
    }
    Ok(())
}
