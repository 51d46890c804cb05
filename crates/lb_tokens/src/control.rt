//! Control sequences (TeXbook, chapter 8; tex.web, part 24, sections 354 to 356).
ghost use Rattle.std.specs.Prelude.{◌≡◌, ◌≤◌, ◌-◌, ◌∷◌, ◌++◌, [], Some, drop, take, length, IfOk, OnOk};
ghost use Rattle.std.specs.Option.{option_map};
ghost use Rattle.lb_base.specs.declared.token.Tok.TheVariants.{Word};
ghost use Rattle.lb_model.specs.declared.reading.Read.TheVariants as read;
ghost use Rattle.lb_model.specs.declared.reading.ReaderState.TheVariants.{SkipBlanks};
ghost use Rattle.lb_model.specs.Settings.{Setting};
ghost use Rattle.lb_model.specs.Told.{Told};
ghost use Rattle.lb_model.specs.Tokens.{after_letters, after_symbol, categories, characters, control_sequence, is_letter, letters, letters_examined, noted_codes};

use crate::examined::{Examined, examine};
use crate::step::Step;
use lb_base::{Category, Name, NoMemory, Tok};
use lb_model::{Cells, Read, ReaderState};
use std::alloc::Global;

/// The control sequence of an escape behind which the line goes on at a place. The name is copied from the line, or where two marks stand
/// for a letter of it, from a buffer.
#[inline(never)]
pub fn control_sequence<C: Cells>(
    alloc: Global,
    line: &[u8],
    at: usize,
    cats: &mut C,
) -> Result<Step, NoMemory>
    requires { at ≤ length line.now }
    ensures told { Told C.Cells cats.new cats.old }
    ensures read { IfOk result (λ s. (p : Setting) → C.agrees cats.new p → (control_sequence (characters (categories p (C.meaning cats.old p)) (drop at line.now))).read ≡ Some s.read) }
    ensures state { IfOk result (λ s. (p : Setting) → C.agrees cats.new p → (control_sequence (characters (categories p (C.meaning cats.old p)) (drop at line.now))).state ≡ s.state) }
    ensures rest { IfOk result (λ s. (p : Setting) → C.agrees cats.new p → (control_sequence (characters (categories p (C.meaning cats.old p)) (drop at line.now))).rest ≡ drop s.at line.now) }
    ensures notes { OnOk result ((p : Setting) → C.agrees cats.new p → C.notes cats.new ≡ option_map (noted_codes (control_sequence (characters (categories p (C.meaning cats.old p)) (drop at line.now))).examined) (C.notes cats.old)) }
    ensures goes_on { IfOk result (λ s. at ≤ s.at) }
    ensures within { IfOk result (λ s. s.at ≤ length line.now) }
{
    if at == line.len() {
        return word(alloc, &[], at);
    }
    let first = examine(line, at, cats)?;
    if !is_letter(first.category) {
        return symbol(alloc, first);
    }
    if first.after == at + 1 {
        return word_of_line(alloc, line, at, first.after, cats);
    }
    let name = Vec::from_slice(alloc, &[first.code])?;
    word_of_letters(alloc, line, name, first.after, cats)
}

// The control word that begins in the line at `start`, where the letters before `from` are examined and stand for themselves.
fn word_of_line<C: Cells>(
    alloc: Global,
    line: &[u8],
    start: usize,
    from: usize,
    cats: &mut C,
) -> Result<Step, NoMemory>
    requires order { start ≤ from }
    requires within { from ≤ length line.now }
    ensures told { Told C.Cells cats.new cats.old }
    ensures read { IfOk result (λ s. (p : Setting) → C.agrees cats.new p → read.Tok (Word (take (from - start) (drop start line.now) ++ letters (characters (categories p (C.meaning cats.old p)) (drop from line.now)))) ≡ s.read) }
    ensures state { IfOk result (λ s. s.state ≡ SkipBlanks) }
    ensures rest { IfOk result (λ s. (p : Setting) → C.agrees cats.new p → after_letters (drop from line.now) (characters (categories p (C.meaning cats.old p)) (drop from line.now)) ≡ drop s.at line.now) }
    ensures notes { OnOk result ((p : Setting) → C.agrees cats.new p → C.notes cats.new ≡ option_map (noted_codes (letters_examined (characters (categories p (C.meaning cats.old p)) (drop from line.now)))) (C.notes cats.old)) }
    ensures goes_on { IfOk result (λ s. from ≤ s.at) }
    ensures within { IfOk result (λ s. s.at ≤ length line.now) }
{
    let mut end = from;
    while end < line.len() {
        let next = examine(line, end, cats)?;
        if !is_letter(next.category) {
            return word(alloc, &line[start..end], end);
        }
        if next.after != end + 1 {
            let mut name = Vec::from_slice(alloc, &line[start..end])?;
            name.push(next.code)?;
            return word_of_letters(alloc, line, name, next.after, cats);
        }
        end = next.after;
    }
    word(alloc, &line[start..end], end)
}

// The control word that begins with some letters and goes on in the line at `from`.
fn word_of_letters<C: Cells>(
    alloc: Global,
    line: &[u8],
    mut name: Vec<u8>,
    from: usize,
    cats: &mut C,
) -> Result<Step, NoMemory>
    requires { from ≤ length line.now }
    ensures told { Told C.Cells cats.new cats.old }
    ensures read { IfOk result (λ s. (p : Setting) → C.agrees cats.new p → read.Tok (Word (name.items ++ letters (characters (categories p (C.meaning cats.old p)) (drop from line.now)))) ≡ s.read) }
    ensures state { IfOk result (λ s. s.state ≡ SkipBlanks) }
    ensures rest { IfOk result (λ s. (p : Setting) → C.agrees cats.new p → after_letters (drop from line.now) (characters (categories p (C.meaning cats.old p)) (drop from line.now)) ≡ drop s.at line.now) }
    ensures notes { OnOk result ((p : Setting) → C.agrees cats.new p → C.notes cats.new ≡ option_map (noted_codes (letters_examined (characters (categories p (C.meaning cats.old p)) (drop from line.now)))) (C.notes cats.old)) }
    ensures goes_on { IfOk result (λ s. from ≤ s.at) }
    ensures within { IfOk result (λ s. s.at ≤ length line.now) }
{
    let mut at = from;
    while at < line.len() {
        let next = examine(line, at, cats)?;
        if !is_letter(next.category) {
            return word(alloc, name.as_slice(), at);
        }
        name.push(next.code)?;
        at = next.after;
    }
    word(alloc, name.as_slice(), at)
}

// The control word of some letters, behind which spaces are skipped.
fn word(alloc: Global, letters: &[u8], at: usize) -> Result<Step, NoMemory>
    ensures read { IfOk result (λ s. s.read ≡ read.Tok (Word letters.now)) }
    ensures state { IfOk result (λ s. s.state ≡ SkipBlanks) }
    ensures at { IfOk result (λ s. s.at ≡ at) }
{
    let name = Name::from_slice(alloc, letters)?;
    Ok(Step {
        read: Read::Tok(Tok::Word(name)),
        at,
        state: ReaderState::SkipBlanks,
    })
}

// The control symbol of one character.
fn symbol(alloc: Global, character: Examined) -> Result<Step, NoMemory>
    ensures read { IfOk result (λ s. s.read ≡ read.Tok (Word (character.code ∷ []))) }
    ensures state { IfOk result (λ s. s.state ≡ after_symbol character.category) }
    ensures at { IfOk result (λ s. s.at ≡ character.after) }
{
    let name = Name::from_slice(alloc, &[character.code])?;
    Ok(Step {
        read: Read::Tok(Tok::Word(name)),
        at: character.after,
        state: after_symbol(character.category),
    })
}

fn after_symbol(category: Category) -> ReaderState
    ensures { result ≡ after_symbol category }
{
    match category {
        Category::Space => ReaderState::SkipBlanks,
        _ => ReaderState::MidLine,
    }
}

#[inline(always)]
fn is_letter(category: Category) -> bool
    ensures { result ≡ is_letter category }
{
    matches!(category, Category::Letter)
}
