//! A font for tests.
ghost use Rattle.std.specs.Prelude.{◌≡◌, IfOk};
ghost use Rattle.lb_tfm_make.specs.FontSpecs.{IsValid};
ghost use Rattle.lb_tfm_make.specs.TestFont as test;

use crate::spec::{CharWidth, FixParameters, FontSpec};
use lb_base::NoMemory;
use lb_base::listed::Listed;
use std::alloc::{AllocError, Global};

/// Half of the design size.
const WIDTH: i32 = 524_288;

/// The test font: the characters 33 to 126 are each 5pt wide, 7.5pt high and 2.5pt deep at its
/// design size of 10pt, and a space is 3pt wide.
pub fn test_font(alloc: Global) -> Result<FontSpec, NoMemory>
    ensures font { IfOk result (λ font. font ≡ test.test_font) }
    ensures valid { IfOk result (λ font. IsValid font) }
{
    Ok(FontSpec {
        check: 0,
        design: 10_485_760,
        height: 786_432,
        depth: 262_144,
        params: FixParameters {
            slant: 0,
            space: 314_573,
            stretch: 104_858,
            shrink: 104_858,
            x_height: 524_288,
            quad: 1_048_576,
            extra_space: 104_858,
        },
        widths: Listed::from_vec(test_widths(alloc)?),
        steps: Listed::new(alloc),
    })
}

fn test_widths(alloc: Global) -> Result<Vec<CharWidth>, AllocError>
    ensures { IfOk result (λ widths. widths.items ≡ test.test_widths) }
{
    let mut widths = Vec::new(alloc);
    for code in 33..127 {
        widths.push(CharWidth { code, width: WIDTH })?;
    }
    Ok(widths)
}
