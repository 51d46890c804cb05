//! Old aux files.
ghost use Rattle.std.specs.Prelude.{◌≡◌, ◌≤◌, length, IfOk, IfSome};
ghost use Rattle.std.specs.Option.{option_map};
ghost use Rattle.lb_model_aux.specs.Reading.{counters_to_close, lines_of, read_of};

use crate::forms::{chapter_of, counter_of, is_close, line_of};
use crate::lines::split_line;
use lb_base::{Name, NoMemory};
use lb_model_aux::{Aux, Line};
use lb_values::CounterList;
use std::alloc::Global;

// The counters up to the line that closes a checkpoint, and the text behind that line; None where no line does.
fn read_checkpoint(alloc: Global, text: &[u8]) -> Result<Option<(CounterList, &[u8])>, NoMemory>
    ensures counters { IfOk result (λ r. option_map (λ c. (c.0, lines_of c.1.now)) r ≡ counters_to_close (lines_of text.now)) }
    ensures shorter { IfOk result (λ r. IfSome r (λ c. length c.1.now ≤ length text.now)) }
{
    let mut counters = CounterList::new(alloc);
    let mut rest = text;
    while !rest.is_empty() {
        let (line, next) = split_line(rest);
        if is_close(line) {
            return Ok(Some((counters, next)));
        }
        if let Some(counter) = counter_of(alloc, line)? {
            counters.push(counter)?;
        }
        rest = next;
    }
    Ok(None)
}

/// What an old aux file says, line by line: labels, the names of other aux files, entries, and checkpoints with their counters. A checkpoint that
/// is cut is dropped, and every line that says nothing is skipped.
pub fn read_aux(alloc: Global, bytes: &[u8]) -> Result<Aux, NoMemory>
    ensures { IfOk result (λ aux. aux ≡ read_of bytes.now) }
{
    let mut aux = Aux::new(alloc);
    let mut rest = bytes;
    while !rest.is_empty() {
        let (line, next) = split_line(rest);
        rest = next;
        if let Some(chapter) = chapter_of(line) {
            let Some((counters, behind)) = read_checkpoint(alloc, rest)? else {
                return Ok(aux);
            };
            aux.push(Line::Checkpoint(Name::from_slice(alloc, chapter)?, counters))?;
            rest = behind;
        } else if let Some(said) = line_of(alloc, line)? {
            aux.push(said)?;
        }
    }
    Ok(aux)
}
