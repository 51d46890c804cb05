//! Fonts in the order of their first use. A font's number is its place there.
ghost use Rattle.std.specs.Prelude.{◌≡◌, ◌≤◌, ◌<◌, ◌++◌, [], Some, length, take, IfOk, OnOk, IsErrOf, if◌then◌else◌};
ghost use Rattle.lb_model_paper.specs.Dvi.{definitions_from, font_change, font_definition, font_number, is_defined, is_present, same_font, with_font};
ghost use Rattle.lb_dvi.specs.Fonts.{AreUsable, Extends, IsKnown};

use crate::number::{push_signed, push_word};
use crate::writer::DviStop;
use lb_base::FontId;
use std::alloc::AllocError;

const FNT_NUM_0: u8 = 171;

const FNT_DEF1: u8 = 243;

/// The most fonts that a file has.
const MOST_FONTS: usize = 60;

/// Whether two fonts are the same. Their numbers mostly tell them apart, so the names come last.
fn is_same(font: &FontId, other: &FontId) -> bool
    ensures { result ≡ same_font font.now other.now }
{
    font.size == other.size
        && font.check == other.check
        && font.design == other.design
        && font.name == other.name
}

fn is_present(present: &Option<FontId>, font: &FontId) -> bool
    ensures { result ≡ is_present present.now font.now }
{
    match present {
        None => false,
        Some(present) => is_same(font, present),
    }
}

/// The number of a font, or how many fonts there are where it is none of them.
fn number_of(fonts: &[FontId], font: &FontId) -> usize
    ensures { result ≡ font_number fonts.now font.now }
{
    for (number, known) in fonts.iter().enumerate() {
        if is_same(font, known) {
            return number;
        }
    }
    fonts.len()
}

fn push_font_definition(out: &mut Vec<u8>, number: u8, font: &FontId) -> Result<(), AllocError>
    requires { length font.now.name ≤ 255 }
    ensures { OnOk result (out.new.items ≡ out.old.items ++ font_definition number font.now) }
{
    out.push(FNT_DEF1)?;
    out.push(number)?;
    push_word(out, font.check)?;
    push_signed(out, font.size)?;
    push_word(out, font.design)?;
    out.push(0)?;
    out.push(font.name.len() as u8)?;
    out.extend_from_slice(font.name.as_slice())?;
    Ok(())
}

/// The number of a font, after its definition where this is its first use.
fn define_font(out: &mut Vec<u8>, fonts: &mut Vec<FontId>, font: &FontId) -> Result<u8, DviStop>
    requires usable { AreUsable fonts.old.items }
    requires named { length font.now.name ≤ 255 }
    ensures number { IfOk result (λ n. (n ≡ font_number fonts.old.items font.now) × (n < 60)) }
    ensures bytes { OnOk result (out.new.items ≡ out.old.items ++ (if is_defined fonts.old.items font.now then [] else font_definition (length fonts.old.items) font.now)) }
    ensures fonts { OnOk result (fonts.new.items ≡ with_font fonts.old.items font.now) }
    ensures usable { AreUsable fonts.new.items }
    ensures extends { Extends fonts.old.items fonts.new.items }
    ensures limit { IsErrOf result DviStop.PageLimit → 60 < length (with_font fonts.old.items font.now) }
{
    let number = number_of(fonts, font);
    if number < fonts.len() {
        return Ok(number as u8);
    }
    if number >= MOST_FONTS {
        return Err(DviStop::PageLimit);
    }
    push_font_definition(out, number as u8, font)?;
    let font = font.clone()?;
    fonts.push(font)?;
    Ok(number as u8)
}

/// Makes a font the present one, if it is not.
pub fn select_font(
    out: &mut Vec<u8>,
    fonts: &mut Vec<FontId>,
    present: &mut Option<FontId>,
    font: &FontId,
) -> Result<(), DviStop>
    requires usable { AreUsable fonts.old.items }
    requires named { length font.now.name ≤ 255 }
    requires known { IsKnown fonts.old.items present.old }
    ensures bytes { OnOk result (out.new.items ≡ out.old.items ++ font_change fonts.old.items present.old font.now) }
    ensures fonts { OnOk result (fonts.new.items ≡ with_font fonts.old.items font.now) }
    ensures present { OnOk result (present.new ≡ Some font.now) }
    ensures known { OnOk result (IsKnown fonts.new.items present.new) }
    ensures usable { AreUsable fonts.new.items }
    ensures extends { Extends fonts.old.items fonts.new.items }
    ensures limit { IsErrOf result DviStop.PageLimit → 60 < length (with_font fonts.old.items font.now) }
{
    if is_present(present, font) {
        return Ok(());
    }
    let number = define_font(out, fonts, font)?;
    out.push(FNT_NUM_0 + number)?;
    *present = Some(font.clone()?);
    Ok(())
}

/// The definitions of all fonts, in order.
pub fn push_definitions(out: &mut Vec<u8>, fonts: &[FontId]) -> Result<(), AllocError>
    requires usable { AreUsable fonts.now }
    ensures { OnOk result (out.new.items ≡ out.old.items ++ definitions_from 0 fonts.now) }
{
    for (number, font) in fonts.iter().enumerate() {
        push_font_definition(out, number as u8, font)?;
    }
    Ok(())
}
