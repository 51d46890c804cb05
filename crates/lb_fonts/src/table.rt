//! The fonts of a text, each by a style and a size (Computer Modern: TeXbook, chapter 4 and appendix E), and what lies between
//! baselines at a size (LaTeX, the size commands; classes, file size10.clo).
ghost use Rattle.std.specs.Prelude.{◌≡◌, ◌≤◌, Some, length, IfOk, IfErr, IfSome};
ghost use Rattle.std.specs.Option.{option_copied};
ghost use Rattle.lb_model.specs.FontTable.{baselineskip_of, font_name, row, sizes, style_names};
ghost use Rattle.lb_fonts.specs.Loads.{IsFontSize, IsOutside};

use crate::name::FontName;
use lb_base::{Kind, Name, Stop};
use std::alloc::Global;

// Each size with its baselineskip, in scaled points: 5, 7, 8, 9, 10, 12, 14.4, 17.28, 20.74 and 24.88 points, with 6, 8, 9.5, 11,
// 12, 14, 18, 22, 25 and 30.
const SIZES: [(i32, i32); 10] = [
    (327680, 393216),
    (458752, 524288),
    (524288, 622592),
    (589824, 720896),
    (655360, 786432),
    (786432, 917504),
    (943718, 1179648),
    (1132462, 1441792),
    (1359217, 1638400),
    (1630536, 1966080),
];

/// The font of a style, from 0 to 5, and a size, from 0 to 9, or else the fault `BadCode`.
pub fn select(alloc: Global, style: i32, size: i32) -> Result<FontName, Stop>
    ensures font { IfOk result (λ font. font_name style size ≡ Some (font.name, font.size)) }
    ensures size { IfOk result (λ font. IsFontSize font.size) }
    ensures short { IfOk result (λ font. length font.name ≤ 255) }
    ensures outside { IfErr result (IsOutside style size) }
{
    let Some(name) = style_name(style) else {
        return Err(Stop::Fault(Kind::BadCode));
    };
    let Some((size, _)) = size_row(size) else {
        return Err(Stop::Fault(Kind::BadCode));
    };
    let name = Name::from_slice(alloc, name.as_bytes())?;
    Ok(FontName { name, size })
}

/// What lies between baselines at a size, from 0 to 9, in scaled points.
pub fn baselineskip(size: i32) -> Option<i32>
    ensures { result ≡ baselineskip_of size }
{
    Some(size_row(size)?.1)
}

// Roman, bold extended, italic, slanted, typewriter and sans serif.
fn style_name(style: i32) -> Option<&'static str>
    ensures name { option_copied result ≡ row style_names style }
    ensures short { IfSome result (λ name. length name.now ≤ 255) }
{
    match style {
        0 => Some("cmr10"),
        1 => Some("cmbx10"),
        2 => Some("cmti10"),
        3 => Some("cmsl10"),
        4 => Some("cmtt10"),
        5 => Some("cmss10"),
        _ => None,
    }
}

// A size and its baselineskip.
fn size_row(size: i32) -> Option<(i32, i32)>
    ensures row { result ≡ row sizes size }
    ensures size { IfSome result (λ s. IsFontSize s.0) }
{
    SIZES.get(usize::try_from(size).ok()?).copied()
}
