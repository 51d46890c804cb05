//! Files that are read.
ghost use Rattle.std.specs.Prelude.{◌≡◌, ◌<ℤ◌, pos, IfOk, IfErr};
ghost use Rattle.lb_model_paper.specs.FontRules.{IsFont};
ghost use Rattle.lb_tfm.specs.Refusals.{IsRefusal};

use crate::font::Font;
use crate::rules::first_broken;
use crate::sections::counts;
use crate::stop::TfmStop;
use crate::tables::font_with;
use std::alloc::Global;

/// The font of a TFM file at a size in scaled points. Every file is either a font or refused for
/// the first rule of the format that it breaks; the rules are looked at before any memory is taken.
pub fn read(alloc: Global, bytes: &[u8], size: i32) -> Result<Font, TfmStop>
    requires low { pos 0 <ℤ size }
    requires high { size <ℤ pos 134217728 }
    ensures font { IfOk result (λ font. IsFont bytes.now size font) }
    ensures refused { IfErr result (λ stop. IsRefusal bytes.now stop) }
{
    if let Some((rule, word)) = first_broken(bytes) {
        return Err(TfmStop::Bad { rule, word });
    }
    let font = font_with(alloc, bytes, counts(bytes), size)?;
    Ok(font)
}
