//! Commands on fonts: `file NAME PATH` puts a file into the world, `select STYLE SIZE` shows the font of a style at a size,
//! `skip SIZE` the distance of its lines, and `load NAME SIZE` a font of the world.
use crate::keys::name;
use crate::numbers::number;
use crate::shown::show_bytes;
use crate::stop::Stop;
use lb_base::Bytes;
use lb_cells::{Direct, State};
use lb_fonts::{FontName, baselineskip, load, select};
use lb_model::{FileMap, World};
use lb_tfm::Font;
use lb_values::Shared;
use std::alloc::Global;
use std::fmt::Write;
use std::fs;
use std::rt::Files;

/// Puts a file into the map by a command, or answers false if it is another one.
pub fn take_file<R>(rt: &R, words: &[&str], files: &mut FileMap) -> Result<bool, Stop>
where
    R: Files + AllocGlobal,
{
    let alloc = rt.alloc();
    let ["file", file, path] = *words else {
        return Ok(false);
    };
    let bytes = Bytes::from_vec(fs::read(rt, path)?);
    files.insert(name(alloc, file)?, Shared::new(alloc, bytes)?)?;
    Ok(true)
}

/// Shows what comes of a command, or answers false if it is none of these.
pub fn show(
    alloc: Global,
    words: &[&str],
    world: &World,
    state: &mut State,
    out: &mut String,
) -> Result<bool, Stop> {
    match *words {
        ["select", style, size] => show_selected(alloc, number(style)?, number(size)?, out)?,
        ["skip", size] => match baselineskip(number(size)?) {
            Some(skip) => writeln!(out, "skip {skip}")?,
            None => writeln!(out, "no size")?,
        },
        ["load", font, size] => {
            let font = FontName {
                name: name(alloc, font)?,
                size: number(size)?,
            };
            show_loaded(alloc, world, state, &font, out)?;
        }
        _ => return Ok(false),
    }
    Ok(true)
}

fn show_selected(alloc: Global, style: i32, size: i32, out: &mut String) -> Result<(), Stop> {
    match select(alloc, style, size) {
        Ok(font) => {
            show_bytes(font.name.as_slice(), out)?;
            let size = font.size;
            writeln!(out, " at {size}")?;
            Ok(())
        }
        Err(stop) => show_fault(&stop, out),
    }
}

fn show_loaded(
    alloc: Global,
    world: &World,
    state: &mut State,
    name: &FontName,
    out: &mut String,
) -> Result<(), Stop> {
    if name.size < 1 || name.size >= 1 << 27 || name.name.len() > 255 {
        return Err(Stop::Command);
    }
    let mut cells = Direct::over(world, state);
    match load(alloc, &mut cells, name) {
        Ok(font) => show_font(&font, out),
        Err(stop) => show_fault(&stop, out),
    }
}

fn show_font(font: &Font, out: &mut String) -> Result<(), Stop> {
    let mut count = 0u32;
    for code in 0..=255 {
        if font.metrics(code).is_some() {
            count = count.saturating_add(1);
        }
    }
    show_bytes(font.id().name.as_slice(), out)?;
    let size = font.id().size;
    let space = font.parameters().space;
    writeln!(out, " at {size}: space {space}, characters {count}")?;
    Ok(())
}

/// Shows a fault, with its place if it has one.
fn show_fault(stop: &lb_base::Stop, out: &mut String) -> Result<(), Stop> {
    match stop {
        lb_base::Stop::Memory => Err(Stop::Memory),
        lb_base::Stop::Fault(kind) => {
            let name = kind.name();
            writeln!(out, "fault {name}")?;
            Ok(())
        }
        lb_base::Stop::At(fault) => {
            let name = fault.kind.name();
            write!(out, "fault {name} ")?;
            show_bytes(fault.file.as_slice(), out)?;
            let line = fault.line;
            writeln!(out, ":{line}")?;
            Ok(())
        }
    }
}
