//! Texts that are read to their ends, to be timed.
use crate::numbers::count;
use crate::settings::Setting;
use crate::stop::Stop;
use lb_base::Bytes;
use lb_cells::{Direct, State};
use lb_expand::Feeder;
use lb_model::Cells;
use std::alloc::Global;
use std::fmt::Write;

/// Reads a text so many times as one text, and shows how many tokens are given.
pub(crate) fn show(
    alloc: Global,
    start: &State,
    words: &[&str],
    out: &mut String,
) -> Result<(), Stop> {
    let Some((times, words)) = words.split_first() else {
        return Err(Stop::Command);
    };
    let Setting {
        world,
        mut state,
        mut piece,
    } = Setting::of(alloc, start, words)?;
    piece.text = repeated(alloc, piece.text.as_slice(), count(times)?)?;
    let mut desk = piece.desk(alloc)?;
    let mut cells = Direct::over(&world, &mut state);
    let tokens = tokens_to_end(&mut Feeder::over(&mut cells, &mut desk))?;
    write!(out, "{tokens} tokens")?;
    Ok(())
}

fn repeated(alloc: Global, text: &[u8], times: u64) -> Result<Bytes, Stop> {
    let mut all = Bytes::new(alloc);
    for _ in 0..times {
        all.extend_from_slice(text)?;
    }
    Ok(all)
}

/// How many tokens there are up to the end.
fn tokens_to_end<C: Cells>(feeder: &mut Feeder<'_, C>) -> Result<u64, Stop> {
    for tokens in 0..u64::MAX {
        match feeder.next() {
            Ok(Some(_)) => {}
            Ok(None) => return Ok(tokens),
            Err(lb_base::Stop::Memory) => return Err(Stop::Memory),
            Err(_) => return Err(Stop::Command),
        }
    }
    Err(Stop::Command)
}
