//! Texts that are expanded to tokens, up to the brace that closes them (TeXbook, chapter 20; tex.web, section 1288; source2e, file ltfiles).
ghost use Rattle.std.specs.Prelude.{◌≡◌, ◌+◌, ◌<◌, ◌^◌, List};
ghost use Rattle.lb_base.specs.declared.token.Tok.{Tok as AToken};
ghost use Rattle.lb_model_engine.specs.Reads.{put_closed};
ghost use Rattle.lb_model_engine.specs.Texts.{expanded_text, text_rest};
ghost use Rattle.lb_model_nest.specs.Wholes.{Executed, Whole};
ghost use Rattle.lb_engine.specs.ExpandedTexts.{level_behind};
ghost use Rattle.lb_engine.specs.Leads.{Goes, Holds, Leads};
ghost use Rattle.lb_engine.specs.Reads.{behind_reading};

use crate::engine::Engine;
use crate::groups::put_list;
use crate::reading::Reading;
use crate::seen::{closes, opens};
use crate::spaces::next_token;
use lb_base::{Category, Kind, NoMemory, Tok, TokList};
use lb_model::Cells;
use lb_model_nest::Went;
use std::alloc::AllocError;

/// The most tokens of a token list.
const MOST_TOKENS: usize = 1_000_000;

// How many braces are open behind a token; none behind the brace that closes the text.
fn level_behind(level: u64, tok: &Tok) -> Option<u64>
    requires { level + 1 < 2 ^ 64 }
    ensures { result ≡ level_behind level tok.now }
{
    if opens(tok) {
        return Some(level + 1);
    }
    if closes(tok) {
        return level.checked_sub(1);
    }
    Some(level)
}

/// The tokens that are not expanded, up to the brace that closes a text; what `\the` gives is expanded too.
pub fn text_rest<C: Cells>(cells: &mut C, engine: &mut Engine) -> Result<Reading<TokList>, NoMemory>
    requires holds { Holds C.Cells cells.old engine.old }
    ensures leads { (row : List AToken → Whole → Executed) → Leads C.Cells (text_rest row) (behind_reading row) result cells.new engine.new cells.old engine.old }
{
    let mut level = 0;
    let mut toks = TokList::new(engine.desk.alloc);
    'tokens: for _turn in 0..u64::MAX {
        match next_token(cells, engine)? {
            Reading::Of((tok, _meaning)) => {
                let Some(behind) = level_behind(level, &tok) else {
                    return Ok(Reading::Of(toks));
                };
                if toks.len() >= MOST_TOKENS {
                    return Ok(Reading::Stops(Went::Stopped(Kind::DepthLimit)));
                }
                toks.push(tok)?;
                level = behind;
            }
            Reading::Stops(went) => return Ok(Reading::Stops(went)),
        }
    }
    Err(AllocError)
}

/// Tokens come next, with a brace behind them.
pub(crate) fn put_closed<C: Cells>(
    cells: &C,
    engine: &mut Engine,
    toks: TokList,
) -> Result<Went, NoMemory>
    requires holds { Holds C.Cells cells.now engine.old }
    ensures goes { Goes C.Cells (put_closed toks) result cells.now engine.new cells.now engine.old }
{
    let mut toks = toks;
    toks.push(Tok::Char(Category::EndGroup, b'}'))?;
    put_list(cells, engine, toks)
}

/// The tokens of a text, expanded.
pub fn expanded_text<C: Cells>(
    cells: &mut C,
    engine: &mut Engine,
    toks: TokList,
) -> Result<Reading<TokList>, NoMemory>
    requires holds { Holds C.Cells cells.old engine.old }
    ensures leads { (row : List AToken → Whole → Executed) → Leads C.Cells (expanded_text toks row) (behind_reading row) result
        cells.new engine.new cells.old engine.old }
{
    match put_closed(cells, engine, toks)? {
        Went::On => text_rest(cells, engine),
        went => Ok(Reading::Stops(went)),
    }
}
