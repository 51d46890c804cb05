//! Commands on the last node of the current list, which has to be a box: `marks` shows its marks,
//! `code NUMBER` its page code, `page NUMBER` the bytes of its page behind the pages before it, and
//! `pages NUMBER COUNT` writes it so many times. `finish` ends the file of these pages.
use lb_base::{Boxed, Node};
use lb_dvi::{DviStop, Mark, PageCode, Writer, is_drawable, marks, page_code};
use lb_tests_lists::fault::show_fault;
use lb_tests_lists::number::{count, length};
use lb_tests_lists::stop::Stop;
use std::alloc::Global;
use std::fmt::Write;

/// Of so many marks each is shown, and of more a sum.
const FEW_MARKS: usize = 64;

/// So many bytes are shown, and of more a sum.
const FEW_BYTES: usize = 400;

/// Shows what comes of a command, or answers false if it is none of these.
pub fn show(
    alloc: Global,
    words: &[&str],
    list: &[Node],
    writer: &mut Writer,
    out: &mut String,
) -> Result<bool, Stop> {
    match *words {
        ["marks"] => show_marks(alloc, last_box(list)?, out)?,
        ["code", number] => show_code(alloc, length(number)?, last_box(list)?, out)?,
        ["page", number] => show_page(alloc, length(number)?, last_box(list)?, writer, out)?,
        ["pages", number, times] => {
            let code = page_code(alloc, length(number)?, last_box(list)?);
            show_pages(alloc, code, count(times)?, writer, out)?;
        }
        ["finish"] => show_finish(alloc, writer, out)?,
        _ => return Ok(false),
    }
    Ok(true)
}

fn last_box(list: &[Node]) -> Result<&Boxed, Stop> {
    match list.last() {
        Some(Node::Boxed(boxed)) => Ok(boxed.get()),
        _ => Err(Stop::Command),
    }
}

fn show_marks(alloc: Global, boxed: &Boxed, out: &mut String) -> Result<(), Stop> {
    let marks = match marks(alloc, boxed) {
        Ok(marks) => marks,
        Err(stop) => return show_fault(&stop, out),
    };
    let number = marks.len();
    writeln!(out, "marks {number}")?;
    if number <= FEW_MARKS {
        for mark in marks.as_slice() {
            show_mark(mark, out)?;
        }
    } else {
        let sum = sum_of_marks(marks.as_slice());
        writeln!(out, "sum {sum}")?;
    }
    Ok(())
}

fn show_mark(mark: &Mark, out: &mut String) -> Result<(), Stop> {
    match mark {
        Mark::Char {
            h,
            v,
            font,
            code,
            width,
        } => {
            write!(out, "char {h} {v} {code} {width} ")?;
            for byte in font.name.as_slice() {
                out.push(char::from(*byte))?;
            }
            writeln!(out, "")?;
        }
        Mark::Rule {
            h,
            v,
            height,
            width,
        } => writeln!(out, "rule {h} {v} {height} {width}")?,
    }
    Ok(())
}

/// A number that tells of all marks and of their order, modulo 2^32.
fn sum_of_marks(marks: &[Mark]) -> u32 {
    let mut sum = 0u32;
    let mut place = 0u32;
    for mark in marks {
        let (h, v, width, last) = match mark {
            Mark::Char {
                h,
                v,
                font: _,
                code,
                width,
            } => (*h, *v, *width, i32::from(*code)),
            Mark::Rule {
                h,
                v,
                height,
                width,
            } => (*h, *v, *width, *height),
        };
        place = place.wrapping_add(1);
        let number = h
            .wrapping_add(v.wrapping_mul(3))
            .wrapping_add(width.wrapping_mul(5))
            .wrapping_add(last.wrapping_mul(7));
        sum = sum.wrapping_add(place.wrapping_mul(number.cast_unsigned()));
    }
    sum
}

fn show_code(alloc: Global, number: i32, boxed: &Boxed, out: &mut String) -> Result<(), Stop> {
    match page_code(alloc, number, boxed) {
        Ok(code) => {
            let (height, width) = (code.height, code.width);
            let marks = code.marks.len();
            writeln!(
                out,
                "code {number} height {height} width {width} marks {marks}"
            )?;
            Ok(())
        }
        Err(stop) => show_fault(&stop, out),
    }
}

fn show_page(
    alloc: Global,
    number: i32,
    boxed: &Boxed,
    writer: &mut Writer,
    out: &mut String,
) -> Result<(), Stop> {
    let code = match page_code(alloc, number, boxed) {
        Ok(code) => code,
        Err(stop) => return show_fault(&stop, out),
    };
    if !is_drawable(&code) {
        return Err(Stop::Command);
    }
    match writer.page(alloc, &code) {
        Ok(bytes) => {
            write!(out, "page {number} ")?;
            show_bytes(bytes.as_slice(), out)
        }
        Err(stop) => show_refusal(stop, out),
    }
}

fn show_pages(
    alloc: Global,
    code: Result<PageCode, lb_base::Stop>,
    times: usize,
    writer: &mut Writer,
    out: &mut String,
) -> Result<(), Stop> {
    let code = match code {
        Ok(code) => code,
        Err(stop) => {
            writeln!(out, "pages 0")?;
            return show_fault(&stop, out);
        }
    };
    if !is_drawable(&code) {
        return Err(Stop::Command);
    }
    for written in 0..times {
        if let Err(stop) = writer.page(alloc, &code) {
            writeln!(out, "pages {written}")?;
            return show_refusal(stop, out);
        }
    }
    writeln!(out, "pages {times}")?;
    Ok(())
}

fn show_refusal(stop: DviStop, out: &mut String) -> Result<(), Stop> {
    match stop {
        DviStop::Memory => Err(Stop::Memory),
        DviStop::PageLimit => {
            writeln!(out, "fault PageLimit")?;
            Ok(())
        }
    }
}

/// Ends the file, and begins a new one.
fn show_finish(alloc: Global, writer: &mut Writer, out: &mut String) -> Result<(), Stop> {
    let ended = std::mem::replace(writer, Writer::new(alloc));
    let bytes = ended.finish(alloc)?;
    write!(out, "finish ")?;
    show_bytes(bytes.as_slice(), out)
}

fn show_bytes(bytes: &[u8], out: &mut String) -> Result<(), Stop> {
    let number = bytes.len();
    writeln!(out, "bytes {number}")?;
    if number <= FEW_BYTES {
        for byte in bytes {
            write!(out, "{byte:02x}")?;
        }
        writeln!(out, "")?;
    } else {
        let sum = sum_of_bytes(bytes);
        writeln!(out, "sum {sum}")?;
    }
    Ok(())
}

fn sum_of_bytes(bytes: &[u8]) -> u32 {
    let mut sum = 0u32;
    let mut place = 0u32;
    for byte in bytes {
        place = place.wrapping_add(1);
        sum = sum.wrapping_add(place.wrapping_mul(u32::from(*byte)));
    }
    sum
}
