//! Short descriptions of fonts. Fix-words have 20 binary places: 1048576 is the design size, or 1pt
//! in the design size itself.
ghost use Rattle.std.specs.Prelude.{◌↔◌, IsTrue};

use crate::valid::{are_fix, are_fix_widths, are_right_steps, is_fix, rise};
use lb_base::listed::Listed;

/// The width of a character, as a fix-word.
#[derive(Clone, Copy)]
pub struct CharWidth {
    pub code: u8,
    pub width: i32,
}

/// What stands between two characters by their codes: a ligature of the operation `op` and the
/// character `rem` (section 545 of tex.web).
#[derive(Clone, Copy)]
pub struct PairStep {
    pub left: u8,
    pub right: u8,
    pub op: u8,
    pub rem: u8,
}

/// The first seven parameters of a font, as fix-words.
#[derive(Clone, Copy)]
pub struct FixParameters {
    pub slant: i32,
    pub space: i32,
    pub stretch: i32,
    pub shrink: i32,
    pub x_height: i32,
    pub quad: i32,
    pub extra_space: i32,
}

/// A font whose characters have all one height and one depth, and no italic correction.
#[derive(Drop)]
pub struct FontSpec {
    pub check: u32,
    /// In points.
    pub design: u32,
    pub height: i32,
    pub depth: i32,
    pub params: FixParameters,
    pub widths: Listed<CharWidth>,
    pub steps: Listed<PairStep>,
}

/// The most steps.
const MOST_STEPS: usize = 4096;

impl FontSpec {
    ghost use Rattle.lb_tfm_make.specs.FontSpecs.{HasRightSizes, IsValid};

    /// Whether a font can be made, unless there are too many distinct widths: there are codes, and
    /// they rise; there are at most 4096 steps, each with a left character and a ligature of the
    /// rows and with an operation below 128; the design size is 1pt or more and below 2048pt; and
    /// every other fix-word is below 16 in size.
    pub fn is_valid(&self) -> bool
        ensures { IsTrue result ↔ IsValid self.now }
    {
        let rows = self.widths.as_slice();
        let steps = self.steps.as_slice();
        self.has_right_sizes()
            && !rows.is_empty()
            && rise(rows)
            && are_fix_widths(rows)
            && steps.len() <= MOST_STEPS
            && are_right_steps(rows, steps)
    }

    fn has_right_sizes(&self) -> bool
        ensures { IsTrue result ↔ HasRightSizes self.now }
    {
        1 << 20 <= self.design
            && self.design < 1 << 31
            && is_fix(self.height)
            && is_fix(self.depth)
            && are_fix(self.params)
    }
}
