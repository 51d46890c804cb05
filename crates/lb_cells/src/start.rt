//! The state in which a book begins.
ghost use Rattle.std.specs.Prelude.{◌≡◌, [], Some, IfOk, OnOk};
ghost use Rattle.lb_values.specs.declared.cell.Cell.TheVariants.{Fresh};
ghost use Rattle.lb_values.specs.declared.value.Value.TheVariants as value;
ghost use Rattle.lb_values.specs.Kept.{put};
ghost use Rattle.lb_model.specs.StartState.{start};
ghost use Rattle.lb_maps.specs.CellMap.{at};
ghost use Rattle.lb_cells.specs.StartEntries.{fresh_over, layout_over, start_entries, tables, text_over};
ghost use Rattle.lb_cells.specs.StateCells.{told_state};

mod codes;
mod counters;
mod parameters;
mod words;

use crate::state::State;
use lb_base::{Bytes, Name, NoMemory};
use lb_maps::CellMap;
use lb_values::{Cell, Form, PageStyle, RegisterKind, Shared, Value};
use std::alloc::Global;

// The number of the first register of each kind that is free.
const FIRST_FREE: i32 = 30;

impl State {
    /// The state in which a book begins: the commands and the parameters under their names, and what plain TeX and the book class
    /// set.
    pub fn start(alloc: Global) -> Result<State, NoMemory>
        ensures state { IfOk result (λ s. told_state s ≡ start) }
        ensures saves { IfOk result (λ s. s.saves ≡ []) }
    {
        let entries = entries_at_start(alloc)?;
        State::from_map(alloc, entries)
    }
}

// What is stored for each cell at the start.
fn entries_at_start(alloc: Global) -> Result<CellMap<Value>, NoMemory>
    ensures { IfOk result (λ entries. at entries ≡ start_entries) }
{
    let mut entries = tables_at_start(alloc)?;
    codes::fill_codes(&mut entries)?;
    counters::fill_checkpoint_names(alloc, &mut entries)?;
    fill_fresh(&mut entries)?;
    fill_layout(&mut entries)?;
    fill_text(alloc, &mut entries)?;
    Ok(entries)
}

// Names, parameters and counters.
fn tables_at_start(alloc: Global) -> Result<CellMap<Value>, NoMemory>
    ensures { IfOk result (λ entries. at entries ≡ tables) }
{
    let mut entries = CellMap::new(alloc);
    parameters::fill_parameters(&mut entries)?;
    words::fill_parameter_words(alloc, &mut entries)?;
    words::fill_commands(alloc, &mut entries)?;
    counters::fill_counters(alloc, &mut entries)?;
    counters::fill_resets(alloc, &mut entries)?;
    Ok(entries)
}

// The next free register of each kind.
fn fill_fresh(entries: &mut CellMap<Value>) -> Result<(), NoMemory>
    ensures { OnOk result (at entries.new ≡ fresh_over (at entries.old)) }
{
    fill_kind(entries, RegisterKind::Count)?;
    fill_kind(entries, RegisterKind::Dimen)?;
    fill_kind(entries, RegisterKind::Skip)?;
    fill_kind(entries, RegisterKind::Toks)?;
    fill_kind(entries, RegisterKind::Boxed)?;
    Ok(())
}

fn fill_kind(entries: &mut CellMap<Value>, kind: RegisterKind) -> Result<(), NoMemory>
    ensures { OnOk result (at entries.new ≡ put (Fresh kind) (Some (value.Number FIRST_FREE)) (at entries.old)) }
{
    entries.insert(Cell::Fresh(kind), Value::Number(FIRST_FREE))?;
    Ok(())
}

// What tells where the text stands in the book, and how its pages look.
fn fill_layout(entries: &mut CellMap<Value>) -> Result<(), NoMemory>
    ensures { OnOk result (at entries.new ≡ layout_over (at entries.old)) }
{
    entries.insert(Cell::Body, Value::Number(0))?;
    entries.insert(Cell::Toc, Value::Number(0))?;
    entries.insert(Cell::Matter, Value::Number(1))?;
    entries.insert(Cell::PageForm, Value::Form(Form::Arabic))?;
    entries.insert(Cell::PageStyle, Value::PageStyle(PageStyle::Plain))?;
    Ok(())
}

// The label, the environment and the font of the text, which is upright and of normal size.
fn fill_text(alloc: Global, entries: &mut CellMap<Value>) -> Result<(), NoMemory>
    ensures { OnOk result (at entries.new ≡ text_over (at entries.old)) }
{
    let label = Shared::new(alloc, Bytes::new(alloc))?;
    entries.insert(Cell::CurrentLabel, Value::Text(label))?;
    entries.insert(Cell::Env, Value::Name(Name::from_slice(alloc, b"")?))?;
    entries.insert(Cell::Style, Value::Number(0))?;
    entries.insert(Cell::Size, Value::Number(4))?;
    Ok(())
}
