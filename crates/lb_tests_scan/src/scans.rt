//! Scans: `scan KIND ITEM..` gives a new scan the items one by one, where the kind is `number`, `dimen`, `glue` or `word:HEX`. It shows what
//! the scan wants behind each (`x` an expanded token, `p` a plain one, `q` a quantity, `m` the quad, `s` the x-height, `.` nothing more),
//! what it finds with the tokens that it gives back, or the fault, and how many items are left. `scans COUNT KIND HEX`, for a bench, makes a
//! scan of the characters of a text so many times, and shows how many were done.
use crate::items::{items, token_at_start};
use crate::numbers::{bytes, count as count_of};
use crate::shown::{show_glue, show_token};
use crate::stop::Stop;
use lb_base::Kind;
use lb_model_grammar::{Given, ScanKind, Scanned, Want};
use lb_scan::Scan;
use std::alloc::Global;
use std::fmt::Write;

/// How a scan ends: it is done, there is a fault, or it wants more than there is.
enum End {
    Done,
    Fault(Kind),
    Open,
}

/// Shows what comes of a scan.
pub(crate) fn show(alloc: Global, words: &[&str], out: &mut String) -> Result<(), Stop> {
    let Some((kind, words)) = words.split_first() else {
        return Err(Stop::Command);
    };
    let items = items(alloc, words)?;
    if items.is_empty() {
        out.push('-')?;
    }
    let mut scan = Scan::new(alloc, kind_of(alloc, kind)?);
    let (end, left) = give(&mut scan, items, out)?;
    match end {
        End::Done => show_found(scan, out)?,
        End::Fault(kind) => {
            let name = kind.name();
            write!(out, " fault {name}")?;
        }
        End::Open => write!(out, " open")?,
    }
    write!(out, " left {left}")?;
    Ok(())
}

fn kind_of(alloc: Global, word: &str) -> Result<ScanKind, Stop> {
    match word {
        "number" => Ok(ScanKind::Number),
        "dimen" => Ok(ScanKind::Dimen),
        "glue" => Ok(ScanKind::Glue),
        _ => match word.strip_prefix("word:") {
            Some(letters) => Ok(ScanKind::Keyword(bytes(alloc, letters)?)),
            None => Err(Stop::Command),
        },
    }
}

/// Makes a scan of the characters of a text many times.
pub(crate) fn show_many(alloc: Global, words: &[&str], out: &mut String) -> Result<(), Stop> {
    let [count, kind, text] = words else {
        return Err(Stop::Command);
    };
    let text = bytes(alloc, text)?;
    let mut done = 0u64;
    for _turn in 0..count_of(count)? {
        if is_done(alloc, kind, text.as_slice())? {
            done = done.saturating_add(1);
        }
    }
    write!(out, "{done}")?;
    Ok(())
}

fn is_done(alloc: Global, kind: &str, text: &[u8]) -> Result<bool, Stop> {
    let mut scan = Scan::new(alloc, kind_of(alloc, kind)?);
    for code in text {
        match scan.take(Given::Tok(token_at_start(*code))) {
            Ok(Want::Done) => return Ok(scan.value().is_some()),
            Ok(_) => {}
            Err(lb_base::Stop::Fault(_)) => return Ok(false),
            Err(_) => return Err(Stop::Memory),
        }
    }
    Ok(false)
}

/// Gives the items until the scan ends, and shows what it wants behind each. How it ends, and how many items are left.
fn give(scan: &mut Scan, items: Vec<Given>, out: &mut String) -> Result<(End, usize), Stop> {
    let mut left = items.len();
    for item in items {
        left = left.saturating_sub(1);
        match scan.take(item) {
            Ok(Want::Done) => {
                out.push('.')?;
                return Ok((End::Done, left));
            }
            Ok(want) => out.push(want_letter(want))?,
            Err(lb_base::Stop::Fault(kind)) => return Ok((End::Fault(kind), left)),
            Err(_) => return Err(Stop::Memory),
        }
    }
    Ok((End::Open, left))
}

fn want_letter(want: Want) -> char {
    match want {
        Want::Expanded => 'x',
        Want::Plain => 'p',
        Want::Quantity => 'q',
        Want::Em => 'm',
        Want::Ex => 's',
        Want::Done => '.',
    }
}

/// Shows what a scan found, and the tokens that it gives back.
fn show_found(scan: Scan, out: &mut String) -> Result<(), Stop> {
    match scan.value() {
        Some(Scanned::Number(number)) => write!(out, " number {number}")?,
        Some(Scanned::Dimen(length)) => write!(out, " dimen {length}")?,
        Some(Scanned::Skip(glue)) => {
            write!(out, " skip ")?;
            show_glue(glue, out)?;
        }
        Some(Scanned::Found(found)) => {
            let found = u8::from(found);
            write!(out, " found {found}")?;
        }
        None => write!(out, " nothing")?,
    }
    write!(out, " back")?;
    for token in scan.give_back().as_slice() {
        out.push(' ')?;
        show_token(token, out)?;
    }
    Ok(())
}
