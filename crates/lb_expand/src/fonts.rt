//! Sizes of the present font.
ghost use Rattle.std.specs.Prelude.{◌≡◌, ◌≤◌, ◌<ℤ◌, pos, length, IfOk, OnOk};
ghost use Rattle.std.specs.Option.{option_map};
ghost use Rattle.lb_model.specs.Settings.{Setting, noted_all};
ghost use Rattle.lb_model.specs.Told.{Told};
ghost use Rattle.lb_model.specs.PresentFont.{font_file_now, looks_of_font};
ghost use Rattle.lb_model_expansion.specs.Expansion.{font_length, present_font};
ghost use Rattle.lb_fonts.specs.Loads.{file_of, font_in, noted_by_load};
ghost use Rattle.lb_expand.specs.declared.desk.Desk.{Desk as ADesk};
ghost use Rattle.lb_expand.specs.Measures.{measured};
ghost use Rattle.lb_expand.specs.Views.{config};

use lb_base::{NoMemory, Stop};
use lb_fonts::{Font, FontName, load, select};
use lb_model::{Cells, reads};
use lb_model_expansion::Went;
use lb_model_grammar::{Quantity, Want};
use std::alloc::{AllocError, Global};

/// A size of the present font, or how the step ends where there is none.
#[derive(Drop)]
pub(crate) enum Measured {
    Size(Quantity),
    Stops(Went),
}

// The quad of a font, or its x-height where that is asked for.
fn length_of(font: &Font, want: Want) -> i32
    ensures { result ≡ font_length want font.now }
{
    match want {
        Want::Ex => font.parameters().x_height,
        Want::Em => font.parameters().quad,
        Want::Expanded => font.parameters().quad,
        Want::Plain => font.parameters().quad,
        Want::Quantity => font.parameters().quad,
        Want::Done => font.parameters().quad,
    }
}

// A size of the font of a name.
fn measure_font<C: Cells>(
    alloc: Global,
    cells: &mut C,
    name: &FontName,
    want: Want,
) -> Result<Measured, NoMemory>
    requires low { pos 0 <ℤ name.now.size }
    requires high { name.now.size <ℤ pos 134217728 }
    requires short { length name.now.name ≤ 255 }
    ensures told { Told C.Cells cells.new cells.old }
    ensures size { IfOk result (λ m. (p : Setting) → C.agrees cells.new p →
        measured (font_in p.world (C.meaning cells.old p).now name.now) (file_of p.world (C.meaning cells.old p).now name.now) want ≡ m) }
    ensures notes { OnOk result ((p : Setting) → C.agrees cells.new p →
        C.notes cells.new ≡ option_map (noted_by_load p.world (C.meaning cells.old p).now name.now) (C.notes cells.old)) }
{
    match load(alloc, cells, name) {
        Ok(font) => Ok(Measured::Size(Quantity::Dimen(length_of(&font, want)))),
        Err(Stop::Fault(kind)) => Ok(Measured::Stops(Went::Stopped(kind))),
        Err(Stop::At(fault)) => Ok(Measured::Stops(Went::StoppedAt(fault))),
        Err(Stop::Memory) => Err(AllocError),
    }
}

/// A size of the present font: the font of the present style and size, whose file is read.
pub(crate) fn measure<C: Cells>(
    alloc: Global,
    cells: &mut C,
    want: Want,
) -> Result<Measured, NoMemory>
    ensures told { Told C.Cells cells.new cells.old }
    ensures size { IfOk result (λ m. (p : Setting) → C.agrees cells.new p → (desk : ADesk) →
        measured (present_font (config p.world (C.meaning cells.old p) desk)) (font_file_now (config p.world (C.meaning cells.old p) desk)) want ≡ m) }
    ensures notes { OnOk result ((p : Setting) → C.agrees cells.new p → (desk : ADesk) →
        C.notes cells.new ≡ option_map (noted_all (looks_of_font (config p.world (C.meaning cells.old p) desk))) (C.notes cells.old)) }
{
    let style = reads::style(cells)?;
    let size = reads::size(cells)?;
    match select(alloc, style, size) {
        Ok(name) => measure_font(alloc, cells, &name, want),
        // Each style and size that a state may hold has a font.
        Err(_) => Err(AllocError),
    }
}
