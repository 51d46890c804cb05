//! The steps of ligature and kerning programs, as a file has them.
ghost use Rattle.std.specs.Prelude.{◌≡◌, ◌+◌, ◌*◌, ◌<◌, ◌≤◌, length, false};
ghost use Rattle.lb_model_paper.specs.FontFiles as file;
ghost use Rattle.lb_model_paper.specs.FontRules.{is_wrong_action};
ghost use Rattle.lb_tfm.specs.Wholes.{IsSound, IsWhole};

use crate::bytes::byte;
use crate::length::scaled_at;
use crate::sections::{first_kern, first_step};
use lb_base::LigStep;
use lb_base::font::{Counts, Step};

/// A step that skips more than this ends a program before it, and names a place.
pub const STOP: u8 = 128;

/// A step with an operation of this or more is a kern.
pub const KERN: u8 = 128;

/// The skip of a first or a last step that tells of an edge.
const EDGE: u8 = 255;

/// A step of a file that keeps the rules, at a size.
pub fn step_at(bytes: &[u8], counts: Counts, size: u32, word: u32) -> Step
    requires sound { IsSound bytes.now counts }
    requires small { size < 134217728 }
    requires low { file.first_step counts ≤ word }
    requires high { word < file.first_kern counts }
    ensures { result ≡ file.step_at bytes.now counts size word }
{
    let skip = byte(bytes, word, 0);
    let action = if skip > STOP {
        LigStep::Nothing
    } else {
        action_at(
            bytes,
            counts,
            size,
            byte(bytes, word, 2),
            byte(bytes, word, 3),
        )
    };
    Step {
        skip,
        next: byte(bytes, word, 1),
        action,
    }
}

fn action_at(bytes: &[u8], counts: Counts, size: u32, op: u8, rest: u8) -> LigStep
    requires whole { IsWhole bytes.now counts }
    requires small { size < 134217728 }
    requires right { is_wrong_action bytes.now counts op rest ≡ false }
    ensures { result ≡ file.action_at bytes.now counts size op rest }
{
    if op < KERN {
        ligature(op, rest)
    } else {
        let kern = 256 * u32::from(op - KERN) + u32::from(rest);
        LigStep::Kern(scaled_at(bytes, size, first_kern(counts) + kern))
    }
}

/// An operation `4 a + 2 b + c` keeps the left character where b is 1 and the right one where c is
/// 1, and passes over a; where a is above b + c it counts as 0.
fn ligature(op: u8, code: u8) -> LigStep
    ensures { result ≡ file.ligature op code }
{
    let left = op / 2 % 2;
    let right = op % 2;
    let pass = op / 4;
    if pass <= left + right {
        LigStep::Lig {
            code,
            keep_left: left == 1,
            keep_right: right == 1,
            pass,
        }
    } else {
        LigStep::Lig {
            code,
            keep_left: false,
            keep_right: false,
            pass: 0,
        }
    }
}

/// The place that a step names by its last two bytes.
pub fn named_place(bytes: &[u8], word: u32) -> u16
    requires { 4 * word + 3 < length bytes.now }
    ensures { result ≡ file.named_place bytes.now word }
{
    256 * u16::from(byte(bytes, word, 2)) + u16::from(byte(bytes, word, 3))
}

/// Where a program begins that a character says to begin at `place`.
pub fn restarted(bytes: &[u8], counts: Counts, place: u8) -> u16
    requires whole { IsWhole bytes.now counts }
    requires within { place < counts.nl }
    ensures { result ≡ file.restarted bytes.now counts place }
{
    let word = first_step(counts) + u32::from(place);
    if byte(bytes, word, 0) > STOP {
        named_place(bytes, word)
    } else {
        u16::from(place)
    }
}

/// The code of the right edge, by the first step of the table.
pub fn edge_code(bytes: &[u8], counts: Counts) -> Option<u8>
    requires { IsWhole bytes.now counts }
    ensures { result ≡ file.edge_code_in bytes.now counts }
{
    let word = first_step(counts);
    if counts.nl > 0 && byte(bytes, word, 0) == EDGE {
        Some(byte(bytes, word, 1))
    } else {
        None
    }
}

/// Where the program of the left edge begins, by the last step of the table.
pub fn edge_start(bytes: &[u8], counts: Counts) -> Option<u16>
    requires { IsWhole bytes.now counts }
    ensures { result ≡ file.edge_start_in bytes.now counts }
{
    let word = first_kern(counts) - 1;
    if counts.nl > 0 && byte(bytes, word, 0) == EDGE {
        Some(named_place(bytes, word))
    } else {
        None
    }
}
