//! The number of a page as nodes.
ghost use Rattle.std.specs.Prelude.{◌≡◌, ◌++◌, ◌∷◌, [], List, IfOk, OnOk, filter};
ghost use Rattle.lb_base.specs.declared.node.Node.{Node as ANode};
ghost use Rattle.lb_model.specs.Settings.{Setting};
ghost use Rattle.lb_model_nest.specs.Pages.{digits_in, digits_of, has_code};
ghost use Rattle.lb_model_nest.specs.Wholes.{Executed, Whole};
ghost use Rattle.lb_nest.specs.Appends.{missing_appends};
ghost use Rattle.lb_nest.specs.Leads.{Leads};
ghost use Rattle.lb_nest.specs.Pages.{behind_digits, digits_with};
ghost use Rattle.lb_nest.specs.Views.{Keeps, anywhere};
ghost use Rattle.lb_nest.specs.Works.{Works};

use crate::entries::{Entry, EntryList};
use crate::fonts::{Chosen, number_font};
use crate::nest::Nest;
use crate::stops::stopped;
use lb_base::{Bytes, Kind, NoMemory, NodeList};
use lb_fonts::Font;
use lb_groups::Groups;
use lb_model::Cells;
use lb_model_journal::Event;
use lb_model_nest::Went;
use lb_output::HeadFoot;
use lb_text::{Word, add_char, finish_word};
use sqlite_items::Items;
use std::alloc::Global;

/// The nodes of a number, or how shipping its page ends where there are none.
#[derive(Drop)]
pub(crate) enum Digits {
    Made(NodeList),
    Stops(Went),
}

// Puts a character behind a word. One that the font lacks is logged.
fn put(entries: &mut EntryList, word: &mut Word, font: &Font, code: u8) -> Result<(), NoMemory>
    ensures word { OnOk result (word.new ≡ word.old ++ filter (has_code font.now) (code ∷ [])) }
    ensures entries { OnOk result (entries.new ≡ entries.old ++ missing_appends font.now (code ∷ [])) }
{
    let is_there = add_char(word, font, code)?;
    if is_there {
        return Ok(());
    }
    let name = font.id().name.clone()?;
    entries.push(Entry::Event(Event::MissingCharacter(code, name)))?;
    Ok(())
}

// The characters of a text that a font has. Those that it lacks are logged.
fn word_of(
    alloc: Global,
    entries: &mut EntryList,
    font: &Font,
    text: &[u8],
) -> Result<Word, NoMemory>
    ensures word { IfOk result (λ word. word ≡ filter (has_code font.now) text.now) }
    ensures entries { OnOk result (entries.new ≡ entries.old ++ missing_appends font.now text.now) }
{
    let mut word = Word::new(alloc);
    for code in text {
        put(entries, &mut word, font, *code)?;
    }
    Ok(word)
}

// A text in a font. `StepLimit` where its ligatures take more steps than are left.
fn digits_in(left: &mut u64, nest: &mut Nest, font: &Font, text: &[u8]) -> Result<Digits, NoMemory>
    ensures works { (row : List ANode → Whole → Executed)
        → Works (digits_in text.now font.now row) (behind_digits row) result left.new nest.new left.old nest.old }
    ensures page { nest.new.page ≡ nest.old.page }
{
    let mut word = word_of(nest.alloc, &mut nest.entries, font, text)?;
    let mut nodes = Items::new(nest.alloc);
    match finish_word(nest.alloc, &mut word, font, &mut nodes, left) {
        Ok(()) => Ok(Digits::Made(nodes)),
        Err(stop) => {
            *left = 0;
            Ok(Digits::Stops(stopped(stop)?))
        }
    }
}

// A text in the font of the numbers of pages. `CounterTooLarge` where there is none.
fn digits_of<C: Cells>(
    cells: &mut C,
    groups: &Groups,
    left: &mut u64,
    nest: &mut Nest,
    text: &Option<Bytes>,
) -> Result<Digits, NoMemory>
    requires keeps { (p : Setting) → C.agrees cells.old p → Keeps p (C.meaning cells.old p) groups.now nest.old }
    ensures leads { (row : List ANode → Whole → Executed) → Leads C.Cells anywhere (digits_of text.now row) (behind_digits row) result
        cells.new groups.now left.new nest.new cells.old groups.now left.old nest.old }
    ensures page { nest.new.page ≡ nest.old.page }
{
    let Some(text) = text else {
        return Ok(Digits::Stops(Went::Stopped(Kind::CounterTooLarge)));
    };
    match number_font(cells, groups, nest)? {
        Chosen::Font(font) => digits_in(left, nest, font.get(), text.as_slice()),
        Chosen::Stops(went) => Ok(Digits::Stops(went)),
    }
}

/// The nodes of the number of a page, none where neither head nor foot shows it.
pub(crate) fn number_nodes<C: Cells>(
    cells: &mut C,
    groups: &Groups,
    left: &mut u64,
    nest: &mut Nest,
    style: HeadFoot,
    text: &Option<Bytes>,
) -> Result<Digits, NoMemory>
    requires keeps { (p : Setting) → C.agrees cells.old p → Keeps p (C.meaning cells.old p) groups.now nest.old }
    ensures leads { (row : List ANode → Whole → Executed) → Leads C.Cells anywhere (digits_with style text.now row) (behind_digits row) result
        cells.new groups.now left.new nest.new cells.old groups.now left.old nest.old }
    ensures page { nest.new.page ≡ nest.old.page }
{
    match style {
        HeadFoot::Neither => Ok(Digits::Made(Items::new(nest.alloc))),
        HeadFoot::Foot => digits_of(cells, groups, left, nest, text),
        HeadFoot::Head => digits_of(cells, groups, left, nest, text),
    }
}
