//! Commands on a font file: `open FILE` takes its bytes, `read SIZE` makes it the font of the commands
//! that follow, `cut WORDS SIZE` reads its first words alone, `flip BYTE MASK SIZE` reads it with some
//! bits of a byte turned, and `spoil BYTE MASK` turns them for good. `metrics CODE` and `pairs` show
//! the font.
use crate::digest::{EDGE, characters_of, metrics_of, pairs_of, side};
use lb_tests_lists::number::{byte, count, length};
use lb_tests_lists::stop::Stop;
use lb_tfm::{Font, LigStep, TfmStop, read};
use std::alloc::Global;
use std::fmt::Write;
use std::fs;
use std::rt::Files;

/// The bytes of a file, and the font that was read.
#[derive(Drop)]
pub struct Shelf {
    pub bytes: Vec<u8>,
    pub font: Option<Font>,
}

/// Shows what comes of a command, or answers false if it is none of these.
pub fn show<R>(rt: &R, words: &[&str], shelf: &mut Shelf, out: &mut String) -> Result<bool, Stop>
where
    R: Files + AllocGlobal,
{
    let alloc = rt.alloc();
    match *words {
        ["open", file] => {
            shelf.bytes = fs::read(rt, file)?;
            let count = shelf.bytes.len();
            writeln!(out, "{file}: {count} bytes")?;
        }
        ["read", size] => shelf.font = show_read(alloc, &shelf.bytes, length(size)?, out)?,
        ["cut", words, size] => {
            let kept = count(words)?.saturating_mul(4).min(shelf.bytes.len());
            let _font = show_read(alloc, &shelf.bytes[..kept], length(size)?, out)?;
        }
        ["flip", place, mask, size] => {
            let mut bytes = shelf.bytes.clone()?;
            turn(&mut bytes, count(place)?, byte(mask)?);
            let _font = show_read(alloc, &bytes, length(size)?, out)?;
        }
        ["spoil", place, mask] => turn(&mut shelf.bytes, count(place)?, byte(mask)?),
        ["metrics", code] => show_metrics(&shelf.font, byte(code)?, out)?,
        ["pairs"] => show_pairs(&shelf.font, out)?,
        _ => return Ok(false),
    }
    Ok(true)
}

/// Turns the bits of a mask, if there is such a byte.
fn turn(bytes: &mut Vec<u8>, place: usize, mask: u8) {
    if let Some(byte) = bytes.get_mut(place) {
        *byte ^= mask;
    }
}

/// The font of these bytes, which is shown, or nothing with the rule that they break.
fn show_read(
    alloc: Global,
    bytes: &[u8],
    size: i32,
    out: &mut String,
) -> Result<Option<Font>, Stop> {
    if size <= 0 || size >= 134_217_728 {
        return Err(Stop::Command);
    }
    match read(alloc, bytes, size) {
        Ok(font) => {
            show_font(&font, out)?;
            Ok(Some(font))
        }
        Err(TfmStop::Memory) => Err(Stop::Memory),
        Err(TfmStop::Bad { rule, word }) => {
            writeln!(out, "rule {rule} is broken at word {word}")?;
            Ok(None)
        }
    }
}

fn show_font(font: &Font, out: &mut String) -> Result<(), Stop> {
    let (size, check, design) = (font.id().size, font.id().check, font.id().design);
    let p = font.parameters();
    let (slant, space, stretch, shrink) = (p.slant, p.space, p.stretch, p.shrink);
    let (x_height, quad, extra) = (p.x_height, p.quad, p.extra_space);
    write!(
        out,
        "font at {size} check {check} design {design} parameters "
    )?;
    write!(
        out,
        "{slant} {space} {stretch} {shrink} {x_height} {quad} {extra} "
    )?;
    let (count, metrics, pairs) = (characters_of(font), metrics_of(font), pairs_of(font));
    writeln!(out, "characters {count} metrics {metrics} pairs {pairs}")?;
    Ok(())
}

fn show_metrics(font: &Option<Font>, code: u8, out: &mut String) -> Result<(), Stop> {
    let Some(font) = font else {
        return Err(Stop::Command);
    };
    match font.metrics(code) {
        Some(m) => {
            let (width, height, depth, italic) = (m.width, m.height, m.depth, m.italic);
            writeln!(
                out,
                "{code} is {width} wide, {height} high, {depth} deep, with {italic}"
            )?;
        }
        None => writeln!(out, "{code} is missing")?,
    }
    Ok(())
}

/// Each pair of sides between which the font does something. The edge is number 256.
fn show_pairs(font: &Option<Font>, out: &mut String) -> Result<(), Stop> {
    let Some(font) = font else {
        return Err(Stop::Command);
    };
    for left in 0..=EDGE {
        for right in 0..=EDGE {
            show_step(left, right, font.step(side(left), side(right)), out)?;
        }
    }
    writeln!(out, "no more pairs")?;
    Ok(())
}

fn show_step(left: u16, right: u16, step: LigStep, out: &mut String) -> Result<(), Stop> {
    match step {
        LigStep::Nothing => {}
        LigStep::Kern(width) => writeln!(out, "{left} {right} kern {width}")?,
        LigStep::Lig {
            code,
            keep_left,
            keep_right,
            pass,
        } => writeln!(
            out,
            "{left} {right} lig {code} {keep_left} {keep_right} {pass}"
        )?,
    }
    Ok(())
}
