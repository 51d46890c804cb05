//! The test of a description.
ghost use Rattle.std.specs.Prelude.{◌≡◌, ◌&&◌};
ghost use Rattle.lb_tfm_make.specs.FontSpecs as spec;

use crate::codes::row_of;
use crate::spec::{CharWidth, FixParameters, PairStep};

/// Whether a fix-word is below 16 in size.
pub fn is_fix(fix: i32) -> bool
    ensures { result ≡ spec.is_fix fix }
{
    -0x100_0000 < fix && fix < 0x100_0000
}

pub fn are_fix(params: FixParameters) -> bool
    ensures { result ≡ spec.are_fix params }
{
    is_fix(params.slant)
        && are_fix_spaces(params.space, params.stretch, params.shrink)
        && are_fix_spaces(params.x_height, params.quad, params.extra_space)
}

fn are_fix_spaces(first: i32, second: i32, third: i32) -> bool
    ensures { result ≡ (spec.is_fix first && (spec.is_fix second && spec.is_fix third)) }
{
    is_fix(first) && is_fix(second) && is_fix(third)
}

/// Whether the codes rise.
#[tactic(auto, unfolding(crate::specs::FontSpecs::rise_from))]
pub fn rise(rows: &[CharWidth]) -> bool
    ensures { result ≡ spec.rise_from 0 rows.now }
{
    let mut low: u16 = 0;
    for row in rows {
        if u16::from(row.code) < low {
            return false;
        }
        low = u16::from(row.code) + 1;
    }
    true
}

#[tactic(auto, unfolding(crate::specs::FontSpecs::are_fix_widths))]
pub fn are_fix_widths(rows: &[CharWidth]) -> bool
    ensures { result ≡ spec.are_fix_widths rows.now }
{
    for row in rows {
        if !is_fix(row.width) {
            return false;
        }
    }
    true
}

/// Whether each step is between a character of the rows and any, and puts one of the rows there.
#[tactic(auto, unfolding(crate::specs::FontSpecs::are_right_steps))]
pub fn are_right_steps(rows: &[CharWidth], steps: &[PairStep]) -> bool
    ensures { result ≡ spec.are_right_steps rows.now steps.now }
{
    for step in steps {
        if !is_right_step(rows, *step) {
            return false;
        }
    }
    true
}

fn is_right_step(rows: &[CharWidth], step: PairStep) -> bool
    ensures { result ≡ spec.is_right_step rows.now step }
{
    row_of(rows, step.left).is_some() && row_of(rows, step.rem).is_some() && step.op < 128
}
