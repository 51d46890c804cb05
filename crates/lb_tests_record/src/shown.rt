//! Cells and values as they are shown. A cell is shown by its text, with `:` for the space; a value as `n:NUMBER`, `d:LENGTH`, `cat:CODE`,
//! `code:CODE`, `steps:NUMBER`, `name:HEX`, `text:HEX`, `char:CODE` for the meaning of a character number, `absent`, or else `other`.
use crate::stop::Stop;
use lb_values::{Cell, Meaning, Value, category_code};
use std::alloc::Global;
use std::fmt::Write;

/// Shows a cell.
pub(crate) fn show_cell(alloc: Global, cell: &Cell, out: &mut String) -> Result<(), Stop> {
    let text = cell.text(alloc)?;
    for byte in text.as_slice() {
        match *byte {
            b' ' => out.push(':')?,
            code => out.push(char::from(code))?,
        }
    }
    Ok(())
}

/// Shows what a cell holds.
pub(crate) fn show_value(value: &Value, out: &mut String) -> Result<(), Stop> {
    match value {
        Value::Absent => write!(out, "absent")?,
        Value::Number(number) => write!(out, "n:{number}")?,
        Value::Dimen(length) => write!(out, "d:{length}")?,
        Value::Category(category) => {
            let code = category_code(*category);
            write!(out, "cat:{code}")?;
        }
        Value::Code(code) => write!(out, "code:{code}")?,
        Value::Steps(steps) => write!(out, "steps:{steps}")?,
        Value::Meaning(Meaning::Number(code)) => write!(out, "char:{code}")?,
        Value::Name(name) => {
            write!(out, "name:")?;
            show_hex(name.as_slice(), out)?;
        }
        Value::Text(text) => {
            write!(out, "text:")?;
            show_hex(text.get().as_slice(), out)?;
        }
        _ => write!(out, "other")?,
    }
    Ok(())
}

/// Shows bytes in hexadecimal digits.
fn show_hex(bytes: &[u8], out: &mut String) -> Result<(), Stop> {
    for byte in bytes {
        write!(out, "{byte:02x}")?;
    }
    Ok(())
}
