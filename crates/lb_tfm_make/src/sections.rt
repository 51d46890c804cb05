//! The sections of a file.
ghost use Rattle.std.specs.Prelude.{◌≡◌, ◌+◌, ◌≤◌, ◌<◌, ◌++◌, [], ◌∷◌, length, map, true, IfOk, OnOk};
ghost use Rattle.std.specs.List.{concat};
ghost use Rattle.lb_tfm_make.specs.FontBytes as bytes;

use crate::codes::{first_code, last_code, row_of};
use crate::number::{Word, counts, fix_word, word};
use crate::programs::place_among;
use crate::spec::{CharWidth, FixParameters, FontSpec};
use crate::widths::width_index;
use std::alloc::{AllocError, Global};

/// The one height and the one depth of all characters, by their indices.
const SIZES: u8 = 0x11;

/// The tag of a character that has a program.
const LIG_TAG: u8 = 1;

/// The sections behind the counts, of a description with these distinct widths, these codes that
/// have steps, and these words of steps.
pub fn body(
    alloc: Global,
    spec: &FontSpec,
    widths: &[i32],
    starts: &[u8],
    steps: &[Word],
) -> Result<Vec<Word>, AllocError>
    requires some { 0 < length spec.now.widths }
    requires few { length widths.now ≤ 255 }
    requires short { length starts.now ≤ 256 }
    requires widths { widths.now ≡ bytes.distinct_widths spec.now.widths }
    requires starts { starts.now ≡ bytes.lefts_of spec.now }
    requires steps { steps.now ≡ bytes.step_section spec.now }
    ensures words { IfOk result (λ words. words.items ≡ bytes.joined (bytes.sections spec.now)) }
    ensures check { OnOk result (spec.now.check < 4294967296) }
{
    let mut words = Vec::new(alloc);
    push_header(&mut words, spec.check, spec.design)?;
    push_infos(&mut words, spec.widths.as_slice(), widths, starts)?;
    push_widths(&mut words, widths)?;
    push_size(&mut words, spec.height)?;
    push_size(&mut words, spec.depth)?;
    words.push(word(0))?;
    words.extend_from_slice(steps)?;
    push_parameters(&mut words, spec.params)?;
    Ok(words)
}

fn push_header(words: &mut Vec<Word>, check: u32, design: u32) -> Result<(), AllocError>
    ensures words { OnOk result (words.new.items ≡ words.old.items ++ bytes.number_word check ∷ bytes.number_word design ∷ []) }
    ensures check { check < 4294967296 }
{
    words.push(word(check))?;
    words.push(word(design))?;
    Ok(())
}

/// Adds the words of the characters from the first code to the last.
fn push_infos(
    words: &mut Vec<Word>,
    rows: &[CharWidth],
    widths: &[i32],
    starts: &[u8],
) -> Result<(), AllocError>
    requires some { 0 < length rows.now }
    requires few { length widths.now ≤ 255 }
    requires short { length starts.now ≤ 256 }
    requires widths { widths.now ≡ bytes.distinct_widths rows.now }
    ensures { OnOk result (words.new.items ≡ words.old.items ++ map (bytes.info_word rows.now widths.now starts.now) (bytes.codes_of rows.now)) }
{
    for code in u16::from(first_code(rows))..u16::from(last_code(rows)) + 1 {
        words.push(info_word(rows, widths, starts, code as u8))?;
    }
    Ok(())
}

/// The word of a code: its indices, or zeros where no character has it.
fn info_word(rows: &[CharWidth], widths: &[i32], starts: &[u8], code: u8) -> Word
    requires few { length widths.now ≤ 255 }
    requires short { length starts.now ≤ 256 }
    requires widths { widths.now ≡ bytes.distinct_widths rows.now }
    ensures { result ≡ bytes.info_word rows.now widths.now starts.now code }
{
    let Some(row) = row_of(rows, code) else {
        return [0; 4];
    };
    let index = width_index(widths, row.width);
    match place_among(starts, code) {
        Some(place) => [index, SIZES, LIG_TAG, place],
        None => [index, SIZES, 0, 0],
    }
}

/// Adds a width of 0 and then the distinct widths.
fn push_widths(words: &mut Vec<Word>, widths: &[i32]) -> Result<(), AllocError>
    ensures { OnOk result (words.new.items ≡ words.old.items ++ bytes.number_word 0 ∷ map bytes.fix_word widths.now) }
{
    words.push(word(0))?;
    for width in widths {
        words.push(fix_word(*width))?;
    }
    Ok(())
}

/// Adds a height of 0 and the height of all characters, or depths.
fn push_size(words: &mut Vec<Word>, size: i32) -> Result<(), AllocError>
    ensures { OnOk result (words.new.items ≡ words.old.items ++ bytes.number_word 0 ∷ bytes.fix_word size ∷ []) }
{
    words.push(word(0))?;
    words.push(fix_word(size))?;
    Ok(())
}

fn push_parameters(words: &mut Vec<Word>, params: FixParameters) -> Result<(), AllocError>
    ensures { OnOk result (words.new.items ≡ words.old.items ++ bytes.parameter_words params) }
{
    words.push(fix_word(params.slant))?;
    words.push(fix_word(params.space))?;
    words.push(fix_word(params.stretch))?;
    words.push(fix_word(params.shrink))?;
    words.push(fix_word(params.x_height))?;
    words.push(fix_word(params.quad))?;
    words.push(fix_word(params.extra_space))?;
    Ok(())
}
