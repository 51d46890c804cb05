//! The checkpoint behind a chapter.
ghost use Rattle.std.specs.Prelude.{◌≡◌, ◌++◌, OnOk, map};
ghost use Rattle.std.specs.Fmt.{signed_decimal};
ghost use Rattle.std.specs.Option.{option_map};
ghost use Rattle.lb_values.specs.declared.cell.Cell.TheVariants.{Counter};
ghost use Rattle.lb_model.specs.Settings.{Setting, noted, noted_all};
ghost use Rattle.lb_model.specs.Told.{Told};
ghost use Rattle.lb_model_aux.specs.Checkpoints.{checkpoint_in, looks_of_checkpoint};
ghost use Rattle.lb_model_journal.specs.Written.{braced, counter_line};
ghost use Rattle.lb_aux.specs.Texts.{Shows, counter_lines, held_line};

use crate::labels::push_group;
use itoa::Buffer;
use lb_base::{Bytes, Name, NoMemory};
use lb_model::{Cells, reads};
use lb_values::Cell;
use std::alloc::Global;

// Writes a number in decimal behind a text.
fn push_decimal(number: i32, text: &mut Bytes) -> Result<(), NoMemory>
    ensures { OnOk result (text.new ≡ text.old ++ signed_decimal number) }
{
    text.extend_from_slice(Buffer::new().format(number).as_bytes())
}

// Writes a group of a number.
fn push_number_group(number: i32, text: &mut Bytes) -> Result<(), NoMemory>
    ensures { OnOk result (text.new ≡ text.old ++ braced (signed_decimal number)) }
{
    text.push(b'{')?;
    push_decimal(number, text)?;
    text.push(b'}')
}

// Writes the line of a counter behind a text.
#[tactic(auto, using(crate::proofs::Appends::four))]
fn push_counter(name: &[u8], number: i32, text: &mut Bytes) -> Result<(), NoMemory>
    ensures { OnOk result (text.new ≡ text.old ++ counter_line (name.now, number)) }
{
    text.extend_from_slice(b"\\setcounter")?;
    push_group(name, text)?;
    push_number_group(number, text)?;
    text.push(b'\n')?;
    Ok(())
}

// Writes the line of a counter behind a text, with the number that the cells hold, 0 where it has none.
fn push_held<C: Cells>(cells: &mut C, name: &Name, text: &mut Bytes) -> Result<(), NoMemory>
    ensures told { Told C.Cells cells.new cells.old }
    ensures text { OnOk result ((p : Setting) → C.agrees cells.new p → text.new ≡ text.old ++ held_line p.world (C.meaning cells.old p).now name.now) }
    ensures notes { OnOk result (C.notes cells.new ≡ option_map (noted (Counter name.now)) (C.notes cells.old)) }
{
    let number = reads::number(cells, Cell::Counter(name.clone()?))?;
    push_counter(name.as_slice(), number, text)?;
    Ok(())
}

// Writes the lines of counters behind a text.
fn push_counters<C: Cells>(cells: &mut C, names: &[Name], text: &mut Bytes) -> Result<(), NoMemory>
    ensures told { Told C.Cells cells.new cells.old }
    ensures text { OnOk result ((p : Setting) → C.agrees cells.new p → text.new ≡ text.old ++ counter_lines p.world (C.meaning cells.old p).now names.now) }
    ensures notes { OnOk result (C.notes cells.new ≡ option_map (noted_all (map Counter names.now)) (C.notes cells.old)) }
{
    for name in names {
        push_held(cells, name, text)?;
    }
    Ok(())
}

/// The checkpoint behind a chapter: the counters that the cells list for it, each with its number, 0 where it has none. The cells looked at are the
/// list, and then each of its counters. Want of memory leaves the cells as they were, but for what they told.
pub fn checkpoint_text<C: Cells>(
    alloc: Global,
    cells: &mut C,
    name: &Name,
) -> Result<Bytes, NoMemory>
    ensures shows { Shows C.Cells (λ w s. checkpoint_in w s name.now) looks_of_checkpoint result cells.new cells.old }
{
    let mut text = Bytes::from_slice(alloc, b"\\@setckpt")?;
    push_group(name.as_slice(), &mut text)?;
    text.extend_from_slice(b"{\n")?;
    if let Some(names) = reads::names(cells, Cell::Counters)? {
        push_counters(cells, names.get().as_slice(), &mut text)?;
    }
    text.extend_from_slice(b"}\n")?;
    Ok(text)
}
