//! Answers of calls as they are shown.
use crate::shown::{show_glue, show_hex};
use crate::stop::Stop;
use lb_model_grammar::{Quantity, Scanned};
use std::fmt::Write;

/// Shows what a scan found.
pub(crate) fn show_scanned(found: Scanned, out: &mut String) -> Result<(), Stop> {
    match found {
        Scanned::Number(number) => show_quantity(Quantity::Number(number), out),
        Scanned::Dimen(length) => show_quantity(Quantity::Dimen(length), out),
        Scanned::Skip(glue) => show_quantity(Quantity::Skip(glue), out),
        Scanned::Found(found) => {
            let found = u8::from(found);
            write!(out, "found{found}")?;
            Ok(())
        }
    }
}

/// Shows a quantity, or that there is none.
pub(crate) fn show_quantity(quantity: Quantity, out: &mut String) -> Result<(), Stop> {
    match quantity {
        Quantity::Number(number) => write!(out, "number:{number}")?,
        Quantity::Dimen(length) => write!(out, "dimen:{length}")?,
        Quantity::Skip(glue) => {
            out.push_str("skip:")?;
            show_glue(glue, out)?;
        }
        Quantity::NotOne => out.push_str("notone")?,
    }
    Ok(())
}

/// Shows the bytes of a word, or `_` where there is none.
pub(crate) fn show_word(bytes: &[u8], out: &mut String) -> Result<(), Stop> {
    out.push_str("word:")?;
    if bytes.is_empty() {
        out.push('_')?;
    }
    show_hex(bytes, out)
}
