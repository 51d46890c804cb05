//! Answers and their places as they are shown.
use crate::stop::Stop;
use lb_base::{Glue, Name, Order, Tok};
use lb_model::Place;
use lb_values::category_code;
use std::fmt::Write;

/// Shows what stands between two answers.
pub(crate) fn start_answer(out: &mut String) -> Result<(), Stop> {
    if !out.is_empty() {
        out.push(' ')?;
    }
    Ok(())
}

/// Shows a place, with the steps that are left.
pub(crate) fn show_place(place: Option<&Place>, left: u64, out: &mut String) -> Result<(), Stop> {
    match place {
        Some(place) => show_line(&place.file, place.line, left, out),
        None => Err(Stop::Command),
    }
}

/// Shows a line of a file, with the steps that are left.
pub(crate) fn show_line(file: &Name, line: u64, left: u64, out: &mut String) -> Result<(), Stop> {
    out.push('@')?;
    show_hex(file.as_slice(), out)?;
    write!(out, ":{line}/{left}")?;
    Ok(())
}

/// Shows a token, or that there is none.
pub(crate) fn show_token_or_end(token: Option<&Tok>, out: &mut String) -> Result<(), Stop> {
    match token {
        Some(token) => show_token(token, out),
        None => {
            out.push_str("end")?;
            Ok(())
        }
    }
}

fn show_token(token: &Tok, out: &mut String) -> Result<(), Stop> {
    match token {
        Tok::Char(category, code) => {
            let category = category_code(*category);
            write!(out, "c{category}:{code}")?;
        }
        Tok::Word(name) => {
            out.push('w')?;
            show_hex(name.as_slice(), out)?;
        }
        Tok::Active(code) => write!(out, "a{code}")?,
        Tok::Param(number) => write!(out, "#{number}")?,
    }
    Ok(())
}

/// Shows tokens with `,` between, or `_` where there is none.
pub(crate) fn show_tokens(tokens: &[Tok], out: &mut String) -> Result<(), Stop> {
    if tokens.is_empty() {
        out.push('_')?;
    }
    for (place, token) in tokens.iter().enumerate() {
        if place > 0 {
            out.push(',')?;
        }
        show_token(token, out)?;
    }
    Ok(())
}

/// Shows glue.
pub(crate) fn show_glue(glue: Glue, out: &mut String) -> Result<(), Stop> {
    let width = glue.width;
    let stretch = glue.stretch;
    let stretch_order = order_code(glue.stretch_order);
    let shrink = glue.shrink;
    let shrink_order = order_code(glue.shrink_order);
    write!(
        out,
        "{width},{stretch},{stretch_order},{shrink},{shrink_order}"
    )?;
    Ok(())
}

fn order_code(order: Order) -> u8 {
    match order {
        Order::Finite => 0,
        Order::Fil => 1,
        Order::Fill => 2,
        Order::Filll => 3,
    }
}

/// Shows bytes in hexadecimal digits.
pub(crate) fn show_hex(bytes: &[u8], out: &mut String) -> Result<(), Stop> {
    for byte in bytes {
        write!(out, "{byte:02x}")?;
    }
    Ok(())
}
