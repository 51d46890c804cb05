//! The nine rules that a file has to keep. Each function names the first word that breaks a rule.
ghost use Rattle.std.specs.Prelude.{◌≡◌, ◌+◌, ◌*◌, ◌<◌, ◌≤◌, find, length};
ghost use Rattle.lb_model_paper.specs.FontFiles as file;
ghost use Rattle.lb_model_paper.specs.FontRules as rule;
ghost use Rattle.lb_tfm.specs.Wholes.{IsWhole};

use crate::bytes::{byte, half, word};
use crate::character::exists;
use crate::sections::{
    counts, end, first_depth, first_extensible, first_height, first_info, first_italic, first_kern,
    first_parameter, first_step, first_width,
};
use crate::step::{KERN, STOP, named_place};
use lb_base::font::Counts;

/// A count is below this.
const COUNT_LIMIT: u16 = 32_768;

/// The first rule that a file breaks, and the first word that breaks it.
pub fn first_broken(bytes: &[u8]) -> Option<(u8, u32)>
    ensures { result ≡ rule.first_broken bytes.now }
{
    if let Some(word) = missing_counts(bytes) {
        return Some((1, word));
    }
    if let Some(word) = large_count(bytes) {
        return Some((2, word));
    }
    let counts = counts(bytes);
    if let Some(word) = wrong_count(counts) {
        return Some((3, word));
    }
    if let Some(word) = missing_words(bytes, counts) {
        return Some((4, word));
    }
    broken_section(bytes, counts)
}

fn broken_section(bytes: &[u8], counts: Counts) -> Option<(u8, u32)>
    requires { IsWhole bytes.now counts }
    ensures { result ≡ rule.broken_section bytes.now counts }
{
    if let Some(word) = wrong_design(bytes) {
        return Some((5, word));
    }
    if let Some(word) = wrong_info(bytes, counts) {
        return Some((6, word));
    }
    if let Some(word) = wrong_dimension(bytes, counts) {
        return Some((7, word));
    }
    if let Some(word) = wrong_step(bytes, counts) {
        return Some((8, word));
    }
    if let Some(word) = wrong_length(bytes, counts) {
        return Some((9, word));
    }
    None
}

fn missing_counts(bytes: &[u8]) -> Option<u32>
    ensures { result ≡ rule.missing_counts bytes.now }
{
    let words = bytes.len() / 4;
    if words < 6 { Some(words as u32) } else { None }
}

fn large_count(bytes: &[u8]) -> Option<u32>
    requires { 24 ≤ length bytes.now }
    ensures { result ≡ rule.large_count bytes.now }
{
    for word in 0..6 {
        if has_large_count(bytes, word) {
            return Some(word);
        }
    }
    None
}

fn has_large_count(bytes: &[u8], word: u32) -> bool
    requires { 4 * word + 3 < length bytes.now }
    ensures { result ≡ rule.has_large_count bytes.now word }
{
    let k = 2 * word as usize;
    half(bytes, k) >= COUNT_LIMIT || half(bytes, k + 1) >= COUNT_LIMIT
}

fn wrong_count(c: Counts) -> Option<u32>
    ensures { result ≡ rule.wrong_count c }
{
    if c.lh < 2 {
        Some(0)
    } else if u32::from(c.bc) > u32::from(c.ec) + 1 || c.ec > 255 {
        Some(1)
    } else if c.nw == 0 || c.nh == 0 {
        Some(2)
    } else if c.nd == 0 || c.ni == 0 {
        Some(3)
    } else if u32::from(c.lf) == end(c) {
        None
    } else {
        Some(0)
    }
}

fn missing_words(bytes: &[u8], counts: Counts) -> Option<u32>
    ensures { result ≡ rule.missing_words bytes.now counts }
{
    let words = bytes.len() / 4;
    if words < usize::from(counts.lf) {
        Some(words as u32)
    } else {
        None
    }
}

/// The design size is the second word of the header.
fn wrong_design(bytes: &[u8]) -> Option<u32>
    requires { 32 ≤ length bytes.now }
    ensures { result ≡ rule.wrong_design bytes.now }
{
    let design = word(bytes, 7);
    if design < 1 << 31 && design / 16 >= 65_536 {
        None
    } else {
        Some(7)
    }
}

fn wrong_info(bytes: &[u8], counts: Counts) -> Option<u32>
    requires { IsWhole bytes.now counts }
    ensures { result ≡ rule.wrong_info bytes.now counts }
{
    for word in first_info(counts)..first_width(counts) {
        if is_wrong_info(bytes, counts, word) {
            return Some(word);
        }
    }
    None
}

fn is_wrong_info(bytes: &[u8], counts: Counts, word: u32) -> bool
    requires { 4 * word + 3 < length bytes.now }
    ensures { result ≡ rule.is_wrong_info bytes.now counts word }
{
    let sizes = byte(bytes, word, 1);
    let italic_and_tag = byte(bytes, word, 2);
    u16::from(byte(bytes, word, 0)) >= counts.nw
        || u16::from(sizes / 16) >= counts.nh
        || u16::from(sizes % 16) >= counts.nd
        || u16::from(italic_and_tag / 4) >= counts.ni
        || italic_and_tag % 4 == 1 && u16::from(byte(bytes, word, 3)) >= counts.nl
}

fn wrong_dimension(bytes: &[u8], counts: Counts) -> Option<u32>
    requires { IsWhole bytes.now counts }
    ensures { result ≡ rule.wrong_dimension bytes.now counts }
{
    for word in first_width(counts)..first_step(counts) {
        if is_wrong_dimension(bytes, counts, word) {
            return Some(word);
        }
    }
    None
}

fn is_wrong_dimension(bytes: &[u8], counts: Counts, place: u32) -> bool
    requires { 4 * place + 3 < length bytes.now }
    ensures { result ≡ rule.is_wrong_dimension bytes.now counts place }
{
    is_large(bytes, place) || is_first_of_its_kind(counts, place) && word(bytes, place) != 0
}

/// Whether a fix-word is 16 or more in size.
fn is_large(bytes: &[u8], word: u32) -> bool
    requires { 4 * word + 3 < length bytes.now }
    ensures { result ≡ rule.is_large bytes.now word }
{
    let sign = byte(bytes, word, 0);
    !(sign == 0 || sign == 255)
}

fn is_first_of_its_kind(counts: Counts, word: u32) -> bool
    ensures { result ≡ rule.is_first_of_its_kind counts word }
{
    word == first_width(counts)
        || word == first_height(counts)
        || word == first_depth(counts)
        || word == first_italic(counts)
}

fn wrong_step(bytes: &[u8], counts: Counts) -> Option<u32>
    requires { IsWhole bytes.now counts }
    ensures { result ≡ rule.wrong_step bytes.now counts }
{
    for word in first_step(counts)..first_kern(counts) {
        if is_wrong_step(bytes, counts, word) {
            return Some(word);
        }
    }
    None
}

fn is_wrong_step(bytes: &[u8], counts: Counts, word: u32) -> bool
    requires whole { IsWhole bytes.now counts }
    requires low { file.first_step counts ≤ word }
    requires high { word < file.first_kern counts }
    ensures { result ≡ rule.is_wrong_step bytes.now counts word }
{
    let skip = byte(bytes, word, 0);
    if skip > STOP {
        return named_place(bytes, word) >= counts.nl;
    }
    let place = word - first_step(counts);
    is_wrong_action(bytes, counts, byte(bytes, word, 2), byte(bytes, word, 3))
        || skip < STOP && place + u32::from(skip) + 1 >= u32::from(counts.nl)
}

fn is_wrong_action(bytes: &[u8], counts: Counts, op: u8, rest: u8) -> bool
    requires { IsWhole bytes.now counts }
    ensures { result ≡ rule.is_wrong_action bytes.now counts op rest }
{
    if op < KERN {
        !exists(bytes, counts, rest)
    } else {
        256 * u16::from(op - KERN) + u16::from(rest) >= counts.nk
    }
}

fn wrong_length(bytes: &[u8], counts: Counts) -> Option<u32>
    requires { IsWhole bytes.now counts }
    ensures { result ≡ rule.wrong_length bytes.now counts }
{
    if let Some(word) = first_large(bytes, first_kern(counts), first_extensible(counts)) {
        return Some(word);
    }
    first_large(bytes, first_parameter(counts) + 1, end(counts))
}

/// The first fix-word that is 16 or more in size.
fn first_large(bytes: &[u8], start: u32, end: u32) -> Option<u32>
    requires { 4 * end ≤ length bytes.now }
    ensures { result ≡ find (rule.is_large bytes.now) (file.words start end) }
{
    for word in start..end {
        if is_large(bytes, word) {
            return Some(word);
        }
    }
    None
}
