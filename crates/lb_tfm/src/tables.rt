//! The tables of a font, read from a file that keeps the rules. Lengths are in scaled points.
ghost use Rattle.std.specs.Prelude.{◌≡◌, ◌<◌, ◌≤◌, map, length, pos, ◌<ℤ◌, IfOk};
ghost use Rattle.lb_model_paper.specs.FontFiles as file;
ghost use Rattle.lb_tfm.specs.Wholes.{AreWithin, IsSound, IsWhole};

use crate::bytes::{byte, word};
use crate::character::{exists, info_of};
use crate::font::Font;
use crate::length::{scaled_at, slant};
use crate::sections::{
    first_depth, first_height, first_italic, first_kern, first_parameter, first_step, first_width,
};
use crate::step::{edge_code, edge_start, restarted, step_at};
use lb_base::font::{Counts, Step};
use lb_base::{FontId, Metrics, Name, Parameters};
use std::alloc::{AllocError, Global};

/// The font at a size in scaled points. It has no name yet.
pub fn font_with(alloc: Global, bytes: &[u8], counts: Counts, size: i32) -> Result<Font, AllocError>
    requires sound { IsSound bytes.now counts }
    requires low { pos 0 <ℤ size }
    requires high { size <ℤ pos 134217728 }
    ensures { IfOk result (λ font. font ≡ file.font_with bytes.now counts size) }
{
    let z = size as u32;
    Ok(Font {
        id: id(alloc, bytes, size)?,
        parameters: parameters(bytes, counts, z),
        metrics: metrics(alloc, bytes, counts, z)?,
        steps: steps(alloc, bytes, counts, z)?,
        starts: starts(alloc, bytes, counts)?,
        edge_start: edge_start(bytes, counts),
        edge_code: edge_code(bytes, counts),
    })
}

/// The check and the design size are the first words of the header.
fn id(alloc: Global, bytes: &[u8], size: i32) -> Result<FontId, AllocError>
    requires { 32 ≤ length bytes.now }
    ensures { IfOk result (λ id. id ≡ file.id_in bytes.now size) }
{
    Ok(FontId {
        name: Name::from_slice(alloc, &[])?,
        size,
        check: word(bytes, 6),
        design: word(bytes, 7) / 16,
    })
}

fn parameters(bytes: &[u8], counts: Counts, size: u32) -> Parameters
    requires whole { IsWhole bytes.now counts }
    requires small { size < 134217728 }
    ensures { result ≡ file.parameters_in bytes.now counts size }
{
    let slant = if counts.np > 0 {
        slant(word(bytes, first_parameter(counts)))
    } else {
        0
    };
    Parameters {
        slant,
        space: parameter(bytes, counts, size, 1),
        stretch: parameter(bytes, counts, size, 2),
        shrink: parameter(bytes, counts, size, 3),
        x_height: parameter(bytes, counts, size, 4),
        quad: parameter(bytes, counts, size, 5),
        extra_space: parameter(bytes, counts, size, 6),
    }
}

/// A parameter by its place from 0. One that is missing is 0.
fn parameter(bytes: &[u8], counts: Counts, size: u32, place: u16) -> i32
    requires whole { IsWhole bytes.now counts }
    requires small { size < 134217728 }
    ensures { result ≡ file.parameter bytes.now counts size place }
{
    if place < counts.np {
        scaled_at(bytes, size, first_parameter(counts) + u32::from(place))
    } else {
        0
    }
}

fn metrics(
    alloc: Global,
    bytes: &[u8],
    counts: Counts,
    size: u32,
) -> Result<Vec<Option<Metrics>>, AllocError>
    requires sound { IsSound bytes.now counts }
    requires small { size < 134217728 }
    ensures { IfOk result (λ list. list.items ≡ map (file.metrics_for bytes.now counts size) (file.codes_from 0)) }
{
    let mut list = Vec::with_capacity(alloc, 256)?;
    for code in 0..=255 {
        list.push(metrics_for(bytes, counts, size, code))?;
    }
    Ok(list)
}

fn metrics_for(bytes: &[u8], counts: Counts, size: u32, code: u8) -> Option<Metrics>
    requires sound { IsSound bytes.now counts }
    requires small { size < 134217728 }
    ensures { result ≡ file.metrics_for bytes.now counts size code }
{
    if exists(bytes, counts, code) {
        Some(metrics_in(bytes, counts, size, info_of(counts, u16::from(code))))
    } else {
        None
    }
}

/// The metrics in the word of a character.
fn metrics_in(bytes: &[u8], counts: Counts, size: u32, info: u32) -> Metrics
    requires whole { IsWhole bytes.now counts }
    requires small { size < 134217728 }
    requires right { AreWithin bytes.now counts info }
    ensures { result ≡ file.metrics_in bytes.now counts size info }
{
    let sizes = byte(bytes, info, 1);
    let width = first_width(counts) + u32::from(byte(bytes, info, 0));
    let height = first_height(counts) + u32::from(sizes / 16);
    let depth = first_depth(counts) + u32::from(sizes % 16);
    let italic = first_italic(counts) + u32::from(byte(bytes, info, 2) / 4);
    Metrics {
        width: scaled_at(bytes, size, width),
        height: scaled_at(bytes, size, height),
        depth: scaled_at(bytes, size, depth),
        italic: scaled_at(bytes, size, italic),
    }
}

fn steps(alloc: Global, bytes: &[u8], counts: Counts, size: u32) -> Result<Vec<Step>, AllocError>
    requires sound { IsSound bytes.now counts }
    requires small { size < 134217728 }
    ensures { IfOk result (λ list. list.items ≡ map (file.step_at bytes.now counts size) (file.words (file.first_step counts) (file.first_kern counts))) }
{
    let mut list = Vec::with_capacity(alloc, usize::from(counts.nl))?;
    for word in first_step(counts)..first_kern(counts) {
        list.push(step_at(bytes, counts, size, word))?;
    }
    Ok(list)
}

fn starts(alloc: Global, bytes: &[u8], counts: Counts) -> Result<Vec<Option<u16>>, AllocError>
    requires sound { IsSound bytes.now counts }
    ensures { IfOk result (λ list. list.items ≡ map (file.start_for bytes.now counts) (file.codes_from 0)) }
{
    let mut list = Vec::with_capacity(alloc, 256)?;
    for code in 0..=255 {
        list.push(start_for(bytes, counts, code))?;
    }
    Ok(list)
}

fn start_for(bytes: &[u8], counts: Counts, code: u8) -> Option<u16>
    requires sound { IsSound bytes.now counts }
    ensures { result ≡ file.start_for bytes.now counts code }
{
    if !exists(bytes, counts, code) {
        return None;
    }
    let info = info_of(counts, u16::from(code));
    if byte(bytes, info, 2) % 4 == 1 {
        Some(restarted(bytes, counts, byte(bytes, info, 3)))
    } else {
        None
    }
}
