//! Commands that make a font, which then is the file of the other commands: `make` the test font, and
//! `make COUNT WIDTHS LEFT RIGHT OP REM ..` a font of so many characters from 0 on, with at most so
//! many distinct widths, and with steps.
use lb_base::{Bytes, Listed};
use lb_tests_lists::number::{byte, count, length};
use lb_tests_lists::stop::Stop;
use lb_tfm_make::{CharWidth, FixParameters, FontSpec, MakeStop, PairStep, make, test_font};
use std::alloc::Global;
use std::fmt::Write;

/// Shows what comes of a command, or answers false if it is none of these.
pub fn show(
    alloc: Global,
    words: &[&str],
    bytes: &mut Vec<u8>,
    out: &mut String,
) -> Result<bool, Stop> {
    match words {
        ["make"] => show_made(alloc, &test_font(alloc)?, bytes, out)?,
        ["make", characters, widths, steps @ ..] => {
            let spec = spec_of(alloc, count(characters)?, length(widths)?, steps)?;
            show_made(alloc, &spec, bytes, out)?;
        }
        _ => return Ok(false),
    }
    Ok(true)
}

/// A font of so many characters, of whose widths one is negative and one 0.
fn spec_of(
    alloc: Global,
    characters: usize,
    widths: i32,
    steps: &[&str],
) -> Result<FontSpec, Stop> {
    let mut rows = Vec::new(alloc);
    for code in (0..=255u8).take(characters) {
        let place = i32::from(code).checked_rem(widths).ok_or(Stop::Command)?;
        rows.push(CharWidth {
            code,
            width: (place - 1) * 4099,
        })?;
    }
    let mut pairs = Vec::new(alloc);
    for step in steps.chunks_exact(4) {
        pairs.push(PairStep {
            left: byte(step[0])?,
            right: byte(step[1])?,
            op: byte(step[2])?,
            rem: byte(step[3])?,
        })?;
    }
    Ok(FontSpec {
        check: 3_000_000_000,
        design: 10_485_760,
        height: 786_432,
        depth: -262_144,
        params: parameters(),
        widths: Listed::from_vec(rows),
        steps: Listed::from_vec(pairs),
    })
}

fn parameters() -> FixParameters {
    FixParameters {
        slant: -5,
        space: 314_573,
        stretch: 104_858,
        shrink: -104_858,
        x_height: 16_777_215,
        quad: -16_777_215,
        extra_space: 0,
    }
}

/// Makes the font, if its description keeps the conditions.
fn show_made(
    alloc: Global,
    spec: &FontSpec,
    bytes: &mut Vec<u8>,
    out: &mut String,
) -> Result<(), Stop> {
    if !spec.is_valid() {
        writeln!(out, "such a font is not to be made")?;
        return Ok(());
    }
    match make(alloc, spec) {
        Ok(made) => keep(made, bytes, out),
        Err(MakeStop::Memory) => Err(Stop::Memory),
        Err(MakeStop::TooManyWidths) => {
            writeln!(out, "fault TooManyWidths")?;
            Ok(())
        }
    }
}

fn keep(made: Bytes, bytes: &mut Vec<u8>, out: &mut String) -> Result<(), Stop> {
    *bytes = made.into_vec();
    let mut digest = 0u64;
    for byte in bytes.iter() {
        digest = digest.wrapping_mul(31).wrapping_add(u64::from(*byte));
    }
    let count = bytes.len();
    writeln!(out, "made {count} bytes of {digest}")?;
    Ok(())
}
