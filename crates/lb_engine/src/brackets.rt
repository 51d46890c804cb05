//! Texts in brackets that may come behind a command.
ghost use Rattle.std.specs.Prelude.{List, Option};
ghost use Rattle.lb_base.specs.declared.token.Tok.{Tok as AToken};
ghost use Rattle.lb_model.specs.Configs.{in_file, looks_in_file};
ghost use Rattle.lb_model.specs.Fed.{Reads};
ghost use Rattle.lb_model.specs.Readings.{looks_taken, taken};
ghost use Rattle.lb_model_engine.specs.Reads.{bracket, reading};
ghost use Rattle.lb_model_nest.specs.Wholes.{Executed, Whole};
ghost use Rattle.lb_engine.specs.Brackets.{bracket_rest, some_of};
ghost use Rattle.lb_engine.specs.Leads.{Holds, Leads};
ghost use Rattle.lb_engine.specs.Reads.{behind_reading};

use crate::engine::Engine;
use crate::journal::make_ready;
use crate::reading::Reading;
use crate::seen::{is_other, is_space};
use crate::unexpanded::settled;
use lb_args::read_delimited;
use lb_base::{Category, NoMemory, Stop, Tok, TokList};
use lb_expand::Feeder;
use lb_model::{Cells, Feed};
use std::alloc::Global;

/// What ends a text in brackets.
const CLOSING: [Tok; 1] = [Tok::Char(Category::Other, b']')];

// The text up to the closing bracket.
fn read_rest<F: Feed>(alloc: Global, feed: &mut F) -> Result<TokList, Stop>
    ensures reads { Reads F.Feed (taken in_file bracket_rest) (looks_taken in_file looks_in_file bracket_rest) result feed.new feed.old }
{
    read_delimited(alloc, feed, true, &CLOSING)
}

// The same, as a text that is there.
fn read_some<F: Feed>(alloc: Global, feed: &mut F) -> Result<Option<TokList>, Stop>
    ensures reads { Reads F.Feed (taken in_file (some_of bracket_rest)) (looks_taken in_file looks_in_file (some_of bracket_rest)) result
        feed.new feed.old }
{
    match read_rest(alloc, feed) {
        Ok(toks) => Ok(Some(toks)),
        Err(stop) => Err(stop),
    }
}

/// The text in brackets that comes behind spaces, if one does (source2e, file ltdefns). The faults are those of the feed and those of a
/// delimited argument that may have `\par`, and `DepthLimit` where a million tokens are pending and one is to be put back.
pub(crate) fn read_bracket<F: Feed>(alloc: Global, feed: &mut F) -> Result<Option<TokList>, Stop>
    ensures reads { Reads F.Feed (taken in_file bracket) (looks_taken in_file looks_in_file bracket) result feed.new feed.old }
{
    'tokens: for _turn in 0..u64::MAX {
        match feed.in_file() {
            Err(stop) => return Err(stop),
            Ok(None) => return Ok(None),
            Ok(Some(tok)) => {
                if is_space(&tok) {
                    continue;
                }
                if is_other(b'[', &tok) {
                    return read_some(alloc, feed);
                }
                match feed.back(tok) {
                    Err(stop) => return Err(stop),
                    Ok(()) => return Ok(None),
                }
            }
        }
    }
    Err(Stop::Memory)
}

/// The text in brackets that comes, if one does.
pub fn bracket<C: Cells>(
    cells: &mut C,
    engine: &mut Engine,
) -> Result<Reading<Option<TokList>>, NoMemory>
    requires holds { Holds C.Cells cells.old engine.old }
    ensures leads { (row : Option (List AToken) → Whole → Executed) → Leads C.Cells (reading bracket row) (behind_reading row) result
        cells.new engine.new cells.old engine.old }
{
    make_ready(engine)?;
    let alloc = engine.desk.alloc;
    let mut feeder = Feeder {
        cells: &mut *cells,
        desk: &mut engine.desk,
    };
    let read = read_bracket(alloc, &mut feeder);
    settled(read)
}
