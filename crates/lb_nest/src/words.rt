//! Characters and spaces (TeXbook, chapters 4 and 12; tex.web, part 46).
ghost use Rattle.std.specs.Prelude.{ℕ};
ghost use Rattle.lb_model.specs.Settings.{Setting};
ghost use Rattle.lb_model_nest.specs.Wholes.{executed};
ghost use Rattle.lb_model_nest.specs.Words.{character_put, space, space_behind, space_of, space_put, word_ended};
ghost use Rattle.lb_nest.specs.Fonts.{put_row};
ghost use Rattle.lb_nest.specs.Leads.{Goes};
ghost use Rattle.lb_nest.specs.Views.{Keeps};
ghost use Rattle.lb_nest.specs.Works.{Works};

use crate::entries::Entry;
use crate::fonts::{Chosen, present_font};
use crate::level::{SpaceFactor, is_vertical};
use crate::nest::Nest;
use lb_base::{NoMemory, Stop};
use lb_fonts::Font;
use lb_groups::{Groups, looks};
use lb_model::Cells;
use lb_model_journal::Event;
use lb_model_nest::Went;
use lb_text::{add_char, add_space, finish_word};
use lb_values::Shared;
use std::alloc::AllocError;

/// Ends the word under construction, if there is one: its nodes come into the innermost list.
#[tactic(auto, unfolding(lb_model_nest::specs::Words::word_ended))]
pub fn end_word(left: &mut u64, nest: &mut Nest) -> Result<Went, NoMemory>
    ensures works { Works word_ended executed result left.new nest.new left.old nest.old }
{
    let Some(font) = &nest.font else {
        return Ok(Went::On);
    };
    match finish_word(
        nest.alloc,
        &mut nest.word,
        font.get(),
        &mut nest.level.nodes,
        left,
    ) {
        Ok(()) => {
            nest.font = None;
            Ok(Went::On)
        }
        Err(Stop::Fault(kind)) => {
            *left = 0;
            Ok(Went::Stopped(kind))
        }
        Err(_) => Err(AllocError),
    }
}

// Puts a character of a font behind the word, whose font this is.
fn put_with<C: Cells>(
    cells: &mut C,
    groups: &Groups,
    nest: &mut Nest,
    font: Shared<Font>,
    code: u8,
) -> Result<Went, NoMemory>
    requires keeps { (p : Setting) → C.agrees cells.old p → Keeps p (C.meaning cells.old p) groups.now nest.old }
    ensures goes { (left : ℕ) → Goes C.Cells (put_row code font) result cells.new groups.now left nest.new cells.old groups.now left nest.old }
{
    let is_there = add_char(&mut nest.word, font.get(), code)?;
    if is_there {
        let of_code = looks::space_factor(cells, groups, code)?;
        nest.level.follow(of_code);
        nest.font = Some(font);
        return Ok(Went::On);
    }
    let name = font.get().id().name.clone()?;
    nest.entries
        .push(Entry::Event(Event::MissingCharacter(code, name)))?;
    nest.font = Some(font);
    Ok(Went::On)
}

/// Puts a character behind the word under construction, whose font is that at its first character. One that the font lacks is logged.
pub fn put_character<C: Cells>(
    cells: &mut C,
    groups: &Groups,
    nest: &mut Nest,
    code: u8,
) -> Result<Went, NoMemory>
    requires keeps { (p : Setting) → C.agrees cells.old p → Keeps p (C.meaning cells.old p) groups.now nest.old }
    ensures goes { (left : ℕ) → Goes C.Cells (character_put code) result cells.new groups.now left nest.new cells.old groups.now left nest.old }
{
    if let Some(font) = nest.font.take() {
        return put_with(cells, groups, nest, font, code);
    }
    match present_font(cells, groups, nest)? {
        Chosen::Font(font) => put_with(cells, groups, nest, font, code),
        Chosen::Stops(went) => Ok(went),
    }
}

// Puts a space of a font behind the innermost list.
#[tactic(auto, unfolding(lb_model_paper::specs::Words::spaced))]
fn add_space_of(nest: &mut Nest, font: &Font, factor: SpaceFactor) -> Result<Went, NoMemory>
    ensures works { (left : ℕ) → Works (space_of factor font.now) executed result left nest.new left nest.old }
{
    match add_space(&mut nest.level.nodes, font, factor.thousandths()) {
        Ok(()) => Ok(Went::On),
        Err(Stop::Fault(kind)) => Ok(Went::Stopped(kind)),
        Err(_) => Err(AllocError),
    }
}

// Ends the word, and puts a space of its font behind it.
fn put_behind(
    left: &mut u64,
    nest: &mut Nest,
    font: &Font,
    factor: SpaceFactor,
) -> Result<Went, NoMemory>
    ensures works { Works (space_behind factor font.now) executed result left.new nest.new left.old nest.old }
{
    let went = end_word(left, nest)?;
    match went {
        Went::On => add_space_of(nest, font, factor),
        went => Ok(went),
    }
}

/// Puts a space behind the word, which ends: one of the word's font, or of the present one.
pub fn put_space<C: Cells>(
    cells: &mut C,
    groups: &Groups,
    left: &mut u64,
    nest: &mut Nest,
    factor: SpaceFactor,
) -> Result<Went, NoMemory>
    requires keeps { (p : Setting) → C.agrees cells.old p → Keeps p (C.meaning cells.old p) groups.now nest.old }
    ensures goes { Goes C.Cells (space_put factor) result cells.new groups.now left.new nest.new cells.old groups.now left.old nest.old }
{
    if let Some(font) = &nest.font {
        let font = font.clone()?;
        return put_behind(left, nest, font.get(), factor);
    }
    match present_font(cells, groups, nest)? {
        Chosen::Font(font) => put_behind(left, nest, font.get(), factor),
        Chosen::Stops(went) => Ok(went),
    }
}

/// A space, which does nothing in a vertical list.
#[tactic(auto, unfolding(lb_model_nest::specs::Words::space))]
pub fn space<C: Cells>(
    cells: &mut C,
    groups: &Groups,
    left: &mut u64,
    nest: &mut Nest,
) -> Result<Went, NoMemory>
    requires keeps { (p : Setting) → C.agrees cells.old p → Keeps p (C.meaning cells.old p) groups.now nest.old }
    ensures goes { Goes C.Cells space result cells.new groups.now left.new nest.new cells.old groups.now left.old nest.old }
{
    if is_vertical(nest.level.kind) {
        return Ok(Went::On);
    }
    let factor = nest.level.space_factor;
    put_space(cells, groups, left, nest, factor)
}
