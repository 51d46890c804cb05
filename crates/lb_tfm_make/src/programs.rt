//! Ligature programs: for each character that has steps one that says where its program begins, and
//! then the programs.
ghost use Rattle.std.specs.Prelude.{◌≡◌, ◌+◌, ◌≤◌, ◌<◌, ◌++◌, [], ◌∷◌, length, if◌then◌else◌, ◌==◌, IfOk, OnOk};
ghost use Rattle.std.specs.List.{list_any};
ghost use Rattle.lb_tfm_make.specs.FontBytes as bytes;

use crate::codes::{first_code, last_code};
use crate::number::Word;
use crate::spec::{CharWidth, PairStep};
use std::alloc::{AllocError, Global};

/// The skip of a step that says where a program begins.
const RESTART: u8 = 254;

/// The skip of the last step of a program.
const STOP: u8 = 128;

/// The codes that have steps, in order.
pub fn lefts(alloc: Global, rows: &[CharWidth], steps: &[PairStep]) -> Result<Vec<u8>, AllocError>
    requires { 0 < length rows.now }
    ensures codes { IfOk result (λ codes. codes.items ≡ bytes.lefts steps.now (bytes.codes_of rows.now)) }
    ensures last { OnOk result (bytes.last_code 0 rows.now < 256) }
{
    let mut codes = Vec::new(alloc);
    for code in u16::from(first_code(rows))..u16::from(last_code(rows)) + 1 {
        push_left(&mut codes, steps, code as u8)?;
    }
    Ok(codes)
}

/// Adds a code that has steps.
fn push_left(codes: &mut Vec<u8>, steps: &[PairStep], code: u8) -> Result<(), AllocError>
    ensures { OnOk result (codes.new.items ≡ codes.old.items ++ (if list_any (bytes.is_left code) steps.now then code ∷ [] else [])) }
{
    if !has_steps(steps, code) {
        return Ok(());
    }
    codes.push(code)?;
    Ok(())
}

fn has_steps(steps: &[PairStep], code: u8) -> bool
    ensures { result ≡ list_any (bytes.is_left code) steps.now }
{
    for step in steps {
        if step.left == code {
            return true;
        }
    }
    false
}

/// How many steps are behind a character.
fn count_behind(steps: &[PairStep], code: u8) -> usize
    ensures { result ≡ length (bytes.steps_behind steps.now code) }
{
    steps.iter().filter(|step| step.left == code).count()
}

/// The place among the codes that have steps.
pub fn place_among(codes: &[u8], code: u8) -> Option<u8>
    requires { length codes.now ≤ 256 }
    ensures { result ≡ bytes.place_among codes.now code }
{
    for (place, other) in codes.iter().enumerate() {
        if *other == code {
            return Some(place as u8);
        }
    }
    None
}

/// The steps of the file, where these codes have steps.
pub fn step_words(alloc: Global, steps: &[PairStep], codes: &[u8]) -> Result<Vec<Word>, AllocError>
    requires { length codes.now + length (bytes.programs steps.now codes.now) ≤ 4352 }
    ensures { IfOk result (λ words. words.items ≡ bytes.step_words steps.now codes.now) }
{
    let mut words = Vec::new(alloc);
    push_restarts(&mut words, steps, codes)?;
    for code in codes {
        push_program(&mut words, steps, *code)?;
    }
    Ok(words)
}

/// Adds the steps that say where the programs begin.
fn push_restarts(words: &mut Vec<Word>, steps: &[PairStep], codes: &[u8]) -> Result<(), AllocError>
    requires { length codes.now + length (bytes.programs steps.now codes.now) ≤ 4352 }
    ensures { OnOk result (words.new.items ≡ words.old.items ++ bytes.restarts steps.now (length codes.now) codes.now) }
{
    let mut place = codes.len();
    for code in codes {
        words.push([RESTART, 0, (place / 256) as u8, (place % 256) as u8])?;
        place += count_behind(steps, *code);
    }
    Ok(())
}

/// Adds the program of a character.
fn push_program(words: &mut Vec<Word>, steps: &[PairStep], code: u8) -> Result<(), AllocError>
    ensures { OnOk result (words.new.items ≡ words.old.items ++ bytes.program_words (bytes.steps_behind steps.now code)) }
{
    let mut left = count_behind(steps, code);
    for step in steps {
        if step.left != code {
            continue;
        }
        left -= 1;
        push_step(words, *step, left)?;
    }
    Ok(())
}

/// Adds a step of a program that has so many later ones.
fn push_step(words: &mut Vec<Word>, step: PairStep, later: usize) -> Result<(), AllocError>
    ensures { OnOk result (words.new.items ≡ words.old.items ++ ((if later == 0 then 128 else 0) ∷ step.right ∷ step.op ∷ step.rem ∷ []) ∷ []) }
{
    let skip = if later == 0 { STOP } else { 0 };
    words.push([skip, step.right, step.op, step.rem])?;
    Ok(())
}
