//! The marks of a page. Lengths are in scaled points, 65536 to the point.
ghost use Rattle.std.specs.Prelude.{◌≡◌, ◌<◌, ◌≤◌, ◌++◌, ◌∷◌, [], length, replicate, IfOk, OnOk, IsErrOf, if◌then◌else◌};
ghost use Rattle.lb_model_paper.specs.Dvi.{character, signed, fonts_after, fonts_through, IsSmall, IsSmallMark, IsDrawable, is_shown, mark_bytes, marks_bytes, moves, page_bytes, pen_after, pen_at_start};
ghost use Rattle.std.specs.List.{AllByRecursion};
ghost use Rattle.lb_dvi.specs.Fonts.{AreUsable, Extends, IsKnown};
ghost use Rattle.lb_dvi.specs.Pens.{pen_of};

use crate::font::select_font;
use crate::number::{push_move, push_signed};
use crate::pen::Pen;
use crate::writer::DviStop;
use lb_base::{FontId, Mark, PageCode};
use std::alloc::{AllocError, Global};

const SET1: u8 = 128;

const PUT_RULE: u8 = 137;

const BOP: u8 = 139;

const EOP: u8 = 140;

const RIGHT1: u8 = 143;

const DOWN1: u8 = 157;

impl Pen {
    fn at_start() -> Pen
        ensures { pen_of result ≡ pen_at_start }
    {
        Pen {
            h: 0,
            v: 0,
            font: None,
        }
    }

    /// Moves down, and then to the right. Mostly the pen stands there already.
    fn push_moves(&self, out: &mut Vec<u8>, h: i32, v: i32) -> Result<(), AllocError>
        requires left { IsSmall h }
        requires baseline { IsSmall v }
        ensures { OnOk result (out.new.items ≡ out.old.items ++ moves (pen_of self.now) h v) }
    {
        if h == self.h && v == self.v {
            return Ok(());
        }
        self.push_both_moves(out, h, v)
    }

    fn push_both_moves(&self, out: &mut Vec<u8>, h: i32, v: i32) -> Result<(), AllocError>
        requires left { IsSmall h }
        requires baseline { IsSmall v }
        ensures { OnOk result (out.new.items ≡ out.old.items ++ moves (pen_of self.now) h v) }
    {
        push_move(out, DOWN1, v - self.v)?;
        push_move(out, RIGHT1, h - self.h)?;
        Ok(())
    }

    /// Draws a mark, whose first use of a font defines it.
    fn push_mark(
        &mut self,
        out: &mut Vec<u8>,
        fonts: &mut Vec<FontId>,
        mark: &Mark,
    ) -> Result<(), DviStop>
        requires small { IsSmallMark mark.now }
        requires usable { AreUsable fonts.old.items }
        requires known { IsKnown fonts.old.items self.old.font }
        ensures bytes { OnOk result (out.new.items ≡ out.old.items ++ mark_bytes fonts.old.items (pen_of self.old) mark.now) }
        ensures fonts { OnOk result (fonts.new.items ≡ fonts_after fonts.old.items mark.now) }
        ensures pen { OnOk result (pen_of self.new ≡ pen_after (pen_of self.old) mark.now) }
        ensures known { OnOk result (IsKnown fonts.new.items self.new.font) }
        ensures usable { AreUsable fonts.new.items }
        ensures extends { Extends fonts.old.items fonts.new.items }
        ensures limit { IsErrOf result DviStop.PageLimit → 60 < length (fonts_after fonts.old.items mark.now) }
    {
        match mark {
            Mark::Char {
                h,
                v,
                font,
                code,
                width,
            } => {
                self.push_moves(out, *h, *v)?;
                select_font(out, fonts, &mut self.font, font)?;
                push_character(out, *code)?;
                self.h = *h + *width;
                self.v = *v;
                Ok(())
            }
            Mark::Rule {
                h,
                v,
                height,
                width,
            } => {
                self.push_rule(out, *h, *v, *height, *width)?;
                Ok(())
            }
        }
    }

    /// Draws a rule, if it is shown.
    fn push_rule(
        &mut self,
        out: &mut Vec<u8>,
        h: i32,
        v: i32,
        height: i32,
        width: i32,
    ) -> Result<(), AllocError>
        requires left { IsSmall h }
        requires lower { IsSmall v }
        ensures bytes { OnOk result (out.new.items ≡ out.old.items ++ (if is_shown height width then moves (pen_of self.old) h v ++ 137 ∷ signed height ++ signed width else [])) }
        ensures pen { OnOk result (pen_of self.new ≡ (if is_shown height width then record { h = h; v = v; font = self.old.font } else pen_of self.old)) }
    {
        if !is_shown(height, width) {
            return Ok(());
        }
        self.push_both_moves(out, h, v)?;
        out.push(PUT_RULE)?;
        push_signed(out, height)?;
        push_signed(out, width)?;
        self.h = h;
        self.v = v;
        Ok(())
    }
}

/// Whether a rule is shown: both its lengths are above 0.
fn is_shown(height: i32, width: i32) -> bool
    ensures { result ≡ is_shown height width }
{
    height > 0 && width > 0
}

fn push_character(out: &mut Vec<u8>, code: u8) -> Result<(), AllocError>
    ensures { OnOk result (out.new.items ≡ out.old.items ++ character code) }
{
    if code >= SET1 {
        out.push(SET1)?;
    }
    out.push(code)?;
    Ok(())
}

fn push_marks(out: &mut Vec<u8>, fonts: &mut Vec<FontId>, marks: &[Mark]) -> Result<(), DviStop>
    requires small { AllByRecursion IsSmallMark marks.now }
    requires usable { AreUsable fonts.old.items }
    ensures bytes { OnOk result (out.new.items ≡ out.old.items ++ marks_bytes fonts.old.items pen_at_start marks.now) }
    ensures fonts { OnOk result (fonts.new.items ≡ fonts_through fonts.old.items marks.now) }
    ensures usable { AreUsable fonts.new.items }
    ensures extends { Extends fonts.old.items fonts.new.items }
    ensures limit { IsErrOf result DviStop.PageLimit → 60 < length (fonts_through fonts.old.items marks.now) }
{
    let mut pen = Pen::at_start();
    for mark in marks {
        pen.push_mark(out, fonts, mark)?;
    }
    Ok(())
}

/// The number of a page, nine more that are 0, and the place of the page before it or -1.
fn push_page_start(out: &mut Vec<u8>, number: i32, last: i32) -> Result<(), AllocError>
    ensures { OnOk result (out.new.items ≡ out.old.items ++ 139 ∷ signed number ++ replicate 36 0 ++ signed last) }
{
    out.push(BOP)?;
    push_signed(out, number)?;
    out.extend_from_slice(&[0; 36])?;
    push_signed(out, last)
}

/// The bytes of a page, where `last` is the place of the page before it or -1. The fonts of the
/// file grow by those that the page defines, and those stay after an error, too.
pub fn draw_page(
    alloc: Global,
    last: i32,
    fonts: &mut Vec<FontId>,
    code: &PageCode,
) -> Result<Vec<u8>, DviStop>
    requires drawable { IsDrawable code.now }
    requires usable { AreUsable fonts.old.items }
    ensures bytes { IfOk result (λ out. out.items ≡ page_bytes last fonts.old.items code.now) }
    ensures fonts { OnOk result (fonts.new.items ≡ fonts_through fonts.old.items code.now.marks) }
    ensures usable { AreUsable fonts.new.items }
    ensures extends { Extends fonts.old.items fonts.new.items }
    ensures limit { IsErrOf result DviStop.PageLimit → 60 < length (fonts_through fonts.old.items code.now.marks) }
{
    let mut out = Vec::new(alloc);
    push_page_start(&mut out, code.number, last)?;
    push_marks(&mut out, fonts, code.marks.as_slice())?;
    out.push(EOP)?;
    Ok(out)
}
