//! An optional first argument.
ghost use Rattle.lb_model.specs.Configs.{in_file, looks_in_file};
ghost use Rattle.lb_model.specs.Fed.{Reads};
ghost use Rattle.lb_model.specs.Readings.{looks_taken, taken};
ghost use Rattle.lb_model_grammar.specs.Arguments.{optional};

use crate::copies::copy_tokens;
use crate::delimited::read_delimited;
use crate::turns::{is_bracket, is_space};
use lb_base::{Category, Stop, Tok, TokList};
use lb_model::Feed;
use std::alloc::Global;

/// What ends an optional argument.
const CLOSING: [Tok; 1] = [Tok::Char(Category::Other, b']')];

// The argument in brackets, behind spaces, and the default where there are none (LaTeX, `\newcommand` with a default). The faults are those of the feed,
// those of a delimited argument, and `DepthLimit` where a million tokens are pending and one is to be put back.
pub(crate) fn read_optional<F: Feed>(
    alloc: Global,
    feed: &mut F,
    long: bool,
    default: &TokList,
) -> Result<TokList, Stop>
    ensures reads { Reads F.Feed (taken in_file (optional long default.now))
        (looks_taken in_file looks_in_file (optional long default.now)) result feed.new feed.old }
{
    'tokens: for _turn in 0..u64::MAX {
        match feed.in_file() {
            Err(stop) => return Err(stop),
            Ok(None) => return Ok(copy_tokens(default)?),
            Ok(Some(tok)) => {
                if is_space(&tok) {
                    continue;
                }
                if is_bracket(&tok) {
                    return read_delimited(alloc, feed, long, &CLOSING);
                }
                match feed.back(tok) {
                    Err(stop) => return Err(stop),
                    Ok(()) => return Ok(copy_tokens(default)?),
                }
            }
        }
    }
    Err(Stop::Memory)
}
