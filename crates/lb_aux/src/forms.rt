//! The forms of the lines of aux files.
ghost use Rattle.std.specs.Prelude.{◌≡◌, ◌++◌, ◌∷◌, [], IfOk, Some, codes};
ghost use Rattle.std.specs.Option.{option_and_then, option_copied, option_map};
ghost use Rattle.lb_model_aux.specs.declared.line.Line.TheVariants.{Label};
ghost use Rattle.lb_model_aux.specs.Forms.{argument_of, arguments_of, behind_word, chapter_of, counter_of, entry_of, input_of, is_close, label_of, line_of, pair_of, two_groups, without_percent};
ghost use Rattle.lb_aux.specs.Parts.{both, pair_in};

use crate::groups::{are_groups, group_of};
use crate::lines::without_ending;
use crate::number::number_of;
use lb_base::{Bytes, Name, NoMemory};
use lb_model_aux::Line;
use lb_values::LabelPair;
use std::alloc::Global;

// What stands behind a word at the front of a text.
fn behind_word<'a>(word: &[u8], text: &'a [u8]) -> Option<&'a [u8]>
    ensures { option_copied result ≡ behind_word word.now text.now }
{
    if !text.starts_with(word) {
        return None;
    }
    Some(&text[word.len()..])
}

// The one group behind a command, where nothing else is on the line.
fn argument_of<'a>(word: &[u8], text: &'a [u8]) -> Option<&'a [u8]>
    ensures { option_copied result ≡ argument_of word.now text.now }
{
    let (argument, rest) = group_of(behind_word(word, text)?)?;
    if rest.is_empty() {
        Some(argument)
    } else {
        None
    }
}

// Two groups, where nothing stands behind them.
fn two_groups(text: &[u8]) -> Option<(&[u8], &[u8])>
    ensures { both result ≡ two_groups text.now }
{
    let (first, behind) = group_of(text)?;
    let (second, rest) = group_of(behind)?;
    if rest.is_empty() {
        Some((first, second))
    } else {
        None
    }
}

// The two groups behind a command, where nothing else is on the line.
fn arguments_of<'a>(word: &[u8], text: &'a [u8]) -> Option<(&'a [u8], &'a [u8])>
    ensures { both result ≡ arguments_of word.now text.now }
{
    two_groups(behind_word(word, text)?)
}

/// The text and the page of a label.
#[derive(Clone, Copy)]
pub struct LabelParts<'a> {
    pub text: &'a [u8],
    pub page: &'a [u8],
}

// The first two of some groups.
fn pair_of(value: &[u8]) -> Option<LabelParts<'_>>
    ensures { option_map pair_in result ≡ pair_of value.now }
{
    let (text, behind) = group_of(value)?;
    let (page, more) = group_of(behind)?;
    if are_groups(more) {
        Some(LabelParts { text, page })
    } else {
        None
    }
}

// A label with its key.
fn made_label(alloc: Global, key: &[u8], parts: LabelParts<'_>) -> Result<Line, NoMemory>
    ensures { IfOk result (λ line. line ≡ Label key.now (pair_in parts.entry)) }
{
    let pair = LabelPair {
        text: Bytes::from_slice(alloc, parts.text)?,
        page: Bytes::from_slice(alloc, parts.page)?,
    };
    Ok(Line::Label(Name::from_slice(alloc, key)?, pair))
}

// What a line says that is a label or none.
fn label_of(alloc: Global, text: &[u8]) -> Result<Option<Line>, NoMemory>
    ensures { IfOk result (λ line. line ≡ label_of text.now) }
{
    let Some((key, value)) = arguments_of(b"\\newlabel", text) else {
        return Ok(None);
    };
    match pair_of(value) {
        Some(parts) => Ok(Some(made_label(alloc, key, parts)?)),
        None => Ok(None),
    }
}

// The same of the name of another aux file.
fn input_of(alloc: Global, text: &[u8]) -> Result<Option<Line>, NoMemory>
    ensures { IfOk result (λ line. line ≡ input_of text.now) }
{
    match argument_of(b"\\@input", text) {
        Some(file) => Ok(Some(Line::Input(Name::from_slice(alloc, file)?))),
        None => Ok(None),
    }
}

// An entry less the command for a comment character that LaTeX writes behind it.
fn without_percent(text: &[u8]) -> &[u8]
    ensures { result.now ≡ without_percent text.now }
{
    if text.ends_with(b"\\protected@file@percent ") {
        without_ending(b"\\protected@file@percent ", text)
    } else {
        without_ending(b"\\protected@file@percent", text)
    }
}

// And of an entry.
fn entry_of(alloc: Global, text: &[u8]) -> Result<Option<Line>, NoMemory>
    ensures { IfOk result (λ line. line ≡ entry_of text.now) }
{
    match arguments_of(b"\\@writefile", text) {
        Some((ext, entry)) => {
            let entry = Bytes::from_slice(alloc, without_percent(entry))?;
            Ok(Some(Line::Entry(Name::from_slice(alloc, ext)?, entry)))
        }
        None => Ok(None),
    }
}

/// What a line says by itself, if it says anything.
pub fn line_of(alloc: Global, text: &[u8]) -> Result<Option<Line>, NoMemory>
    ensures { IfOk result (λ line. line ≡ line_of text.now) }
{
    if let Some(label) = label_of(alloc, text)? {
        return Ok(Some(label));
    }
    if let Some(input) = input_of(alloc, text)? {
        return Ok(Some(input));
    }
    entry_of(alloc, text)
}

/// The chapter of the line that opens a checkpoint.
pub fn chapter_of(text: &[u8]) -> Option<&[u8]>
    ensures { option_copied result ≡ chapter_of text.now }
{
    let (chapter, rest) = group_of(behind_word(b"\\@setckpt", text)?)?;
    if rest == b"{".as_slice() {
        Some(chapter)
    } else {
        None
    }
}

/// Whether a line closes a checkpoint.
pub fn is_close(text: &[u8]) -> bool
    ensures { result ≡ is_close text.now }
{
    text == b"}".as_slice()
}

/// The counter of a line of a checkpoint, and its number.
pub fn counter_of(alloc: Global, text: &[u8]) -> Result<Option<(Name, i32)>, NoMemory>
    ensures { IfOk result (λ counter. counter ≡ counter_of text.now) }
{
    let Some((name, digits)) = arguments_of(b"\\setcounter", text) else {
        return Ok(None);
    };
    match number_of(digits) {
        Some(number) => Ok(Some((Name::from_slice(alloc, name)?, number))),
        None => Ok(None),
    }
}
