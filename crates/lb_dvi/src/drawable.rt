//! Whether a page can be drawn.
ghost use Rattle.std.specs.Prelude.{◌≡◌, ◌↔◌, ◌≤◌, IsTrue, length, ◌+ℤ◌};
ghost use Rattle.lb_model_paper.specs.Dvi.{IsDrawable, IsSmall, IsSmallChar, IsSmallMark, IsSmallRule};

use lb_base::{FontId, Mark, PageCode};

/// The most bytes that the name of a font has.
const LONGEST_NAME: usize = 255;

/// Whether a length is below 2^30 in size.
fn is_small(length: i64) -> bool
    ensures { IsTrue result ↔ IsSmall length }
{
    -1_073_741_823 <= length && length <= 1_073_741_823
}

fn is_small_place(h: i32, v: i32) -> bool
    ensures { IsTrue result ↔ (IsSmall h × IsSmall v) }
{
    is_small(i64::from(h)) && is_small(i64::from(v))
}

/// The right end of a character.
fn right_end(h: i32, width: i32) -> i64
    ensures { result ≡ h +ℤ width }
{
    i64::from(h) + i64::from(width)
}

fn has_short_name(font: &FontId) -> bool
    ensures { IsTrue result ↔ (length font.now.name ≤ 255) }
{
    font.name.len() <= LONGEST_NAME
}

fn is_small_end(h: i32, width: i32, font: &FontId) -> bool
    ensures { IsTrue result ↔ (IsSmall (h +ℤ width) × (length font.now.name ≤ 255)) }
{
    is_small(right_end(h, width)) && has_short_name(font)
}

fn is_small_char(h: i32, v: i32, width: i32, font: &FontId) -> bool
    ensures { IsTrue result ↔ IsSmallChar h v width font.now }
{
    is_small_place(h, v) && is_small_end(h, width, font)
}

fn is_small_rule(h: i32, v: i32) -> bool
    ensures { IsTrue result ↔ IsSmallRule h v }
{
    is_small_place(h, v)
}

fn is_small_mark(mark: &Mark) -> bool
    ensures { IsTrue result ↔ IsSmallMark mark.now }
{
    match mark {
        Mark::Char {
            h,
            v,
            font,
            code: _,
            width,
        } => is_small_char(*h, *v, *width, font),
        Mark::Rule {
            h,
            v,
            height: _,
            width: _,
        } => is_small_rule(*h, *v),
    }
}

/// Whether a page can be written: the place of each mark and the right end of each character are below
/// 2^30 scaled points in size, and the names of fonts have at most 255 bytes.
pub fn is_drawable(code: &PageCode) -> bool
    ensures { IsTrue result ↔ IsDrawable code.now }
{
    for mark in code.marks.as_slice() {
        if !is_small_mark(mark) {
            return false;
        }
    }
    true
}
