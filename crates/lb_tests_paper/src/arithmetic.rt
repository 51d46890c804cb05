//! Commands on numbers: `badness T S`, `scaled S` and `decimals DIGITS`.
use lb_base::{badness, print_scaled, round_decimals};
use lb_tests_lists::number::{length, sum};
use lb_tests_lists::stop::Stop;
use std::alloc::Global;
use std::fmt::Write;
use std::str;

/// Shows what comes of a command, or answers false if it is none of these.
pub fn show(alloc: Global, words: &[&str], out: &mut String) -> Result<bool, Stop> {
    match *words {
        ["badness", give, total] => show_badness(sum(give)?, sum(total)?, out)?,
        ["scaled", size] => show_scaled(length(size)?, out)?,
        ["decimals"] => show_decimals(alloc, "", out)?,
        ["decimals", digits] => show_decimals(alloc, digits, out)?,
        _ => return Ok(false),
    }
    Ok(true)
}

fn show_badness(give: i64, total: i64, out: &mut String) -> Result<(), Stop> {
    if give < 0 {
        return Err(Stop::Command);
    }
    let bad = badness(give, total);
    writeln!(out, "badness of {give} by {total}: {bad}")?;
    Ok(())
}

fn show_scaled(size: i32, out: &mut String) -> Result<(), Stop> {
    if size == i32::MIN {
        return Err(Stop::Command);
    }
    let mut text = [0u8; 16];
    let end = print_scaled(size, &mut text);
    let Ok(text) = str::from_utf8(&text[..end]) else {
        return Err(Stop::Command);
    };
    writeln!(out, "{size}sp is {text}pt")?;
    Ok(())
}

fn show_decimals(alloc: Global, text: &str, out: &mut String) -> Result<(), Stop> {
    let mut digits = Vec::new(alloc);
    for byte in text.as_bytes() {
        digits.push(byte.wrapping_sub(b'0'))?;
    }
    if !digits.iter().all(|digit| *digit <= 9) {
        return Err(Stop::Command);
    }
    let fraction = round_decimals(&digits);
    writeln!(out, "0.{text}pt is {fraction}sp")?;
    Ok(())
}
