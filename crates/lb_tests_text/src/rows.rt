//! The tables of names: `row HEX` shows what a name is, which is given by its bytes in hexadecimal digits.
use crate::numbers::bytes;
use crate::stop::Stop;
use lb_rows::{Command, Parameter, Refusal};
use std::alloc::Global;
use std::fmt::Write;

/// Shows what comes of a command, or answers false if it is none of these.
pub fn show(alloc: Global, words: &[&str], out: &mut String) -> Result<bool, Stop> {
    match *words {
        ["row", name] => show_row(bytes(alloc, name)?.as_slice(), out)?,
        ["row"] => show_row(&[], out)?,
        _ => return Ok(false),
    }
    Ok(true)
}

fn show_row(name: &[u8], out: &mut String) -> Result<(), Stop> {
    if let Some(command) = Command::named(name) {
        let name = command.name();
        writeln!(out, "command {name}")?;
    } else if let Some(parameter) = Parameter::named(name) {
        let name = parameter.name();
        writeln!(out, "parameter {name}")?;
    } else if let Some(refusal) = Refusal::of(name) {
        let kind = refusal_text(refusal);
        writeln!(out, "refused {kind}")?;
    } else {
        writeln!(out, "no row")?;
    }
    Ok(())
}

fn refusal_text(refusal: Refusal) -> &'static str {
    match refusal {
        Refusal::Math => "Math",
        Refusal::Align => "Align",
        Refusal::Package => "Package",
        Refusal::Command => "Command",
    }
}
