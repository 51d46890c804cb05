//! The distinct widths of a description.
ghost use Rattle.std.specs.Prelude.{◌≡◌, ◌≤◌, length, true, IfOk, OnOk};
ghost use Rattle.std.specs.List.{list_any};
ghost use Rattle.lb_model_paper.specs.Dvi.{int_eq};
ghost use Rattle.lb_tfm_make.specs.FontBytes as bytes;

use crate::spec::CharWidth;
use std::alloc::{AllocError, Global};

/// The distinct widths in the order of their first use.
pub fn distinct_widths(alloc: Global, rows: &[CharWidth]) -> Result<Vec<i32>, AllocError>
    ensures { IfOk result (λ widths. widths.items ≡ bytes.distinct_widths rows.now) }
{
    let mut widths = Vec::new(alloc);
    for row in rows {
        push_new(&mut widths, row.width)?;
    }
    Ok(widths)
}

/// Adds a width that is not there yet.
fn push_new(widths: &mut Vec<i32>, width: i32) -> Result<(), AllocError>
    ensures { OnOk result (widths.new.items ≡ bytes.with_width widths.old.items width) }
{
    if is_among(widths, width) {
        return Ok(());
    }
    widths.push(width)?;
    Ok(())
}

fn is_among(widths: &[i32], width: i32) -> bool
    ensures { result ≡ list_any (int_eq width) widths.now }
{
    for other in widths {
        if *other == width {
            return true;
        }
    }
    false
}

/// The index of a width, behind the first width of the file, which is 0.
pub fn width_index(widths: &[i32], width: i32) -> u8
    requires few { length widths.now ≤ 255 }
    requires among { list_any (int_eq width) widths.now ≡ true }
    ensures { result ≡ bytes.width_index widths.now width }
{
    let mut index = 0;
    for other in widths {
        index += 1;
        if *other == width {
            return index;
        }
    }
    unreachable!()
}
