//! The fonts of characters (TeXbook, chapter 4).
ghost use Rattle.std.specs.Prelude.{◌≡◌, ℕ};
ghost use Rattle.lb_model.specs.Settings.{Setting};
ghost use Rattle.lb_model.specs.Told.{Told};
ghost use Rattle.lb_model_paper.specs.Fonts.{FontData};
ghost use Rattle.lb_model_nest.specs.Fonts.{in_number_font, present};
ghost use Rattle.lb_model_nest.specs.Wholes.{Executed, Whole};
ghost use Rattle.lb_nest.specs.Fonts.{behind_font, style_cells, styled};
ghost use Rattle.lb_nest.specs.Leads.{Leads, Looks};
ghost use Rattle.lb_nest.specs.Views.{Keeps, anywhere};

use crate::nest::Nest;
use lb_base::{NoMemory, Stop};
use lb_fonts::Font;
use lb_fonts::shelf::{FontKey, choose};
use lb_groups::{Groups, looks};
use lb_model::Cells;
use lb_model_nest::Went;
use lb_values::Shared;
use std::alloc::AllocError;

/// The style and the size of the font of the numbers of pages.
const NUMBER_FONT: FontKey = FontKey { style: 0, size: 4 };

/// A font, or how the row ends where there is none.
#[derive(Drop)]
pub(crate) enum Chosen {
    Font(Shared<Font>),
    Stops(Went),
}

// The style and the size of the present font.
fn style_and_size<C: Cells>(cells: &mut C, groups: &Groups) -> Result<FontKey, NoMemory>
    ensures looks { Looks C.Cells groups.now style_cells styled result cells.new cells.old }
{
    let style = looks::style(cells, groups)?;
    let size = looks::size(cells, groups)?;
    Ok(FontKey { style, size })
}

/// The font of the present style and size.
#[tactic(auto, unfolding(crate::specs::Views::HasRight))]
pub(crate) fn present_font<C: Cells>(
    cells: &mut C,
    groups: &Groups,
    nest: &mut Nest,
) -> Result<Chosen, NoMemory>
    requires keeps { (p : Setting) → C.agrees cells.old p → Keeps p (C.meaning cells.old p) groups.now nest.old }
    ensures leads { (row : FontData → Whole → Executed) (left : ℕ) → Leads C.Cells anywhere (present row) (behind_font row) result
        cells.new groups.now left nest.new cells.old groups.now left nest.old }
    ensures told { Told C.Cells cells.new cells.old }
    ensures only_shelf { nest.new ≡ record nest.old { shelf = nest.new.shelf } }
{
    let key = style_and_size(cells, groups)?;
    match choose(nest.alloc, cells, &mut nest.shelf, &key) {
        Ok(font) => Ok(Chosen::Font(font)),
        Err(Stop::Fault(kind)) => Ok(Chosen::Stops(Went::Stopped(kind))),
        Err(Stop::At(fault)) => Ok(Chosen::Stops(Went::StoppedAt(fault))),
        Err(Stop::Memory) => Err(AllocError),
    }
}

/// The font of the numbers of pages.
#[tactic(auto, unfolding(crate::specs::Views::HasRight))]
pub(crate) fn number_font<C: Cells>(
    cells: &mut C,
    groups: &Groups,
    nest: &mut Nest,
) -> Result<Chosen, NoMemory>
    requires keeps { (p : Setting) → C.agrees cells.old p → Keeps p (C.meaning cells.old p) groups.now nest.old }
    ensures leads { (row : FontData → Whole → Executed) (left : ℕ) → Leads C.Cells anywhere (in_number_font row) (behind_font row) result
        cells.new groups.now left nest.new cells.old groups.now left nest.old }
    ensures told { Told C.Cells cells.new cells.old }
    ensures only_shelf { nest.new ≡ record nest.old { shelf = nest.new.shelf } }
{
    let key = NUMBER_FONT;
    match choose(nest.alloc, cells, &mut nest.shelf, &key) {
        Ok(font) => Ok(Chosen::Font(font)),
        Err(Stop::Fault(kind)) => Ok(Chosen::Stops(Went::Stopped(kind))),
        Err(Stop::At(fault)) => Ok(Chosen::Stops(Went::StoppedAt(fault))),
        Err(Stop::Memory) => Err(AllocError),
    }
}
