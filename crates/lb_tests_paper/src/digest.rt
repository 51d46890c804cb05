//! Numbers that tell of all the metrics of a font, and of all its pairs of characters.
use lb_tfm::{Font, LigStep, Side};

/// The number behind the codes stands for the edge of a word.
pub const EDGE: u16 = 256;

pub fn characters_of(font: &Font) -> usize {
    (0..=255)
        .filter(|code| font.metrics(*code).is_some())
        .count()
}

/// The metrics of all characters.
pub fn metrics_of(font: &Font) -> u64 {
    let mut digest = 0u64;
    for code in 0..=255 {
        if let Some(m) = font.metrics(code) {
            for length in [m.width, m.height, m.depth, m.italic] {
                digest = mixed(digest, length);
            }
        }
    }
    digest
}

/// A number that tells of the numbers that went into it and of their order, modulo 2^64.
fn mixed(digest: u64, number: i32) -> u64 {
    digest
        .wrapping_mul(31)
        .wrapping_add(i64::from(number).cast_unsigned())
}

/// A character by its code, or the edge of a word.
pub fn side(number: u16) -> Side {
    match u8::try_from(number) {
        Ok(code) => Side::Char(code),
        Err(_) => Side::Edge,
    }
}

fn is_there(font: &Font, number: u16) -> bool {
    match side(number) {
        Side::Char(code) => font.metrics(code).is_some(),
        Side::Edge => true,
    }
}

/// What the font does between all its characters, and at the edges.
pub fn pairs_of(font: &Font) -> u64 {
    let mut digest = 0u64;
    for left in 0..=EDGE {
        if is_there(font, left) {
            digest = pairs_behind(font, left, digest);
        }
    }
    digest
}

fn pairs_behind(font: &Font, left: u16, before: u64) -> u64 {
    let mut digest = before;
    for right in 0..=EDGE {
        if is_there(font, right) {
            digest = mixed_step(digest, font.step(side(left), side(right)));
        }
    }
    digest
}

fn mixed_step(digest: u64, step: LigStep) -> u64 {
    match step {
        LigStep::Nothing => mixed(digest, 1),
        LigStep::Kern(width) => mixed(mixed(digest, 2), width),
        LigStep::Lig {
            code,
            keep_left,
            keep_right,
            pass,
        } => {
            let kept = mixed(mixed(digest, i32::from(keep_left)), i32::from(keep_right));
            mixed(mixed(kept, i32::from(code)), i32::from(pass))
        }
    }
}
