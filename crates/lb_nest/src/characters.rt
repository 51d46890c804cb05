//! Characters, which begin paragraphs in vertical lists (TeXbook, chapters 13 and 24; tex.web, sections 1029 to 1045 and 1090).
ghost use Rattle.lb_model.specs.Settings.{Setting};
ghost use Rattle.lb_model_nest.specs.Words.{character, control_space};
ghost use Rattle.lb_nest.specs.Leads.{Goes};
ghost use Rattle.lb_nest.specs.Views.{Keeps};

use crate::level::SpaceFactor;
use crate::nest::Nest;
use crate::paragraphs::begin_in_vertical;
use crate::words::{put_character, put_space};
use lb_base::NoMemory;
use lb_groups::Groups;
use lb_model::Cells;
use lb_model_nest::Went;

/// A character: it comes behind the word under construction, and begins a paragraph in a vertical list.
#[tactic(auto, unfolding(lb_model_nest::specs::Words::character))]
pub fn character<C: Cells>(
    cells: &mut C,
    groups: &mut Groups,
    left: &mut u64,
    nest: &mut Nest,
    code: u8,
) -> Result<Went, NoMemory>
    requires keeps { (p : Setting) → C.agrees cells.old p → Keeps p (C.meaning cells.old p) groups.old nest.old }
    ensures goes { Goes C.Cells (character code) result cells.new groups.new left.new nest.new cells.old groups.old left.old nest.old }
{
    match begin_in_vertical(cells, groups, left, nest, true)? {
        Went::On => put_character(cells, groups, nest, code),
        went => Ok(went),
    }
}

/// `\ `: a space of the normal factor, which begins a paragraph in a vertical list.
#[tactic(auto, unfolding(lb_model_nest::specs::Words::control_space))]
pub fn control_space<C: Cells>(
    cells: &mut C,
    groups: &mut Groups,
    left: &mut u64,
    nest: &mut Nest,
) -> Result<Went, NoMemory>
    requires keeps { (p : Setting) → C.agrees cells.old p → Keeps p (C.meaning cells.old p) groups.old nest.old }
    ensures goes { Goes C.Cells control_space result cells.new groups.new left.new nest.new cells.old groups.old left.old nest.old }
{
    match begin_in_vertical(cells, groups, left, nest, true)? {
        Went::On => put_space(cells, groups, left, nest, SpaceFactor::normal()),
        went => Ok(went),
    }
}
