//! What a font says of its characters and of pairs of them (the TFM format, tex.web, part 30).
//! Lengths are in scaled points, 65536 to the point.
use crate::listed::Bytes;

/// The size of a character, and the italic correction behind it.
#[derive(Clone, Copy)]
pub struct Metrics {
    pub width: i32,
    pub height: i32,
    pub depth: i32,
    pub italic: i32,
}

/// One side of a place between two characters: a character's code, or the edge of a word.
#[derive(Clone, Copy)]
pub enum Side {
    Char(u8),
    Edge,
}

/// What a font does between two characters. A ligature puts `code` between the two, keeps the left
/// one and the right one or not, and then passes over so many characters.
#[derive(Clone, Copy)]
pub enum LigStep {
    Nothing,
    Kern(i32),
    Lig {
        code: u8,
        keep_left: bool,
        keep_right: bool,
        pass: u8,
    },
}

/// The first seven parameters of a font. The slant is in 1/65536 of a point to the point, at every
/// size.
#[derive(Clone, Copy)]
pub struct Parameters {
    pub slant: i32,
    pub space: i32,
    pub stretch: i32,
    pub shrink: i32,
    pub x_height: i32,
    pub quad: i32,
    pub extra_space: i32,
}

/// A step of the ligature and kerning programs: what is done where the right character has the code
/// `next`. Otherwise the program goes on behind as many steps as `skip` says, up to 127. A `skip`
/// of 128 ends the program with this step, and a larger one before it.
#[derive(Clone, Copy)]
pub struct Step {
    pub skip: u8,
    pub next: u8,
    pub action: LigStep,
}

/// The twelve counts that a TFM file begins with, by their names there: the words of the file and
/// of its header, the first and the last code, and the widths, heights, depths, italic
/// corrections, steps, kerns, extensible characters and parameters.
#[derive(Clone, Copy)]
pub struct Counts {
    pub lf: u16,
    pub lh: u16,
    pub bc: u16,
    pub ec: u16,
    pub nw: u16,
    pub nh: u16,
    pub nd: u16,
    pub ni: u16,
    pub nl: u16,
    pub nk: u16,
    pub ne: u16,
    pub np: u16,
}

/// A part of a word: an edge of it, a character, or a ligature with the codes of the characters
/// that it stands for.
#[derive(Drop)]
pub enum WordPart {
    Edge,
    Letter(u8),
    Ligature { code: u8, letters: Bytes },
}
