//! Tokens, glue and bytes as they are shown.
use crate::stop::Stop;
use lb_base::{Glue, Order, Tok};
use lb_values::category_code;
use std::fmt::Write;

/// Shows a token as commands write one.
pub(crate) fn show_token(token: &Tok, out: &mut String) -> Result<(), Stop> {
    match token {
        Tok::Char(category, code) => {
            let category = category_code(*category);
            write!(out, "c{category}:{code}")?;
        }
        Tok::Word(name) => {
            out.push('w')?;
            show_hex(name.as_slice(), out)?;
        }
        Tok::Active(code) => write!(out, "a{code}")?,
        Tok::Param(number) => write!(out, "#{number}")?,
    }
    Ok(())
}

/// Shows glue as commands write it.
pub(crate) fn show_glue(glue: Glue, out: &mut String) -> Result<(), Stop> {
    let width = glue.width;
    let stretch = glue.stretch;
    let stretch_order = order_code(glue.stretch_order);
    let shrink = glue.shrink;
    let shrink_order = order_code(glue.shrink_order);
    write!(
        out,
        "{width},{stretch},{stretch_order},{shrink},{shrink_order}"
    )?;
    Ok(())
}

fn order_code(order: Order) -> u8 {
    match order {
        Order::Finite => 0,
        Order::Fil => 1,
        Order::Fill => 2,
        Order::Filll => 3,
    }
}

/// Shows bytes in hexadecimal digits.
pub(crate) fn show_hex(bytes: &[u8], out: &mut String) -> Result<(), Stop> {
    for byte in bytes {
        write!(out, "{byte:02x}")?;
    }
    Ok(())
}
