//! A delimited argument.
ghost use Rattle.std.specs.Prelude.{◌<◌, [], length};
ghost use Rattle.lb_model.specs.Configs.{in_file, looks_in_file};
ghost use Rattle.lb_model.specs.Fed.{Reads};
ghost use Rattle.lb_model.specs.Readings.{looks_taken, taken};
ghost use Rattle.lb_model_grammar.specs.Arguments.{delimited};

use crate::bare::without_braces;
use crate::settling::{Settled, settle};
use lb_base::{Kind, Stop, Tok, TokList};
use lb_model::Feed;
use std::alloc::Global;

/// The shortest list with balanced braces that the delimiter follows, without its braces where it is one group (TeXbook, chapter 20). The
/// faults are those of the feed; `UseMismatch` at a closing brace of no group inside; `Runaway` where the text or the piece ends before, and
/// at a `\par` in what is not long; and `DepthLimit` above a million tokens.
pub fn read_delimited<F: Feed>(
    alloc: Global,
    feed: &mut F,
    long: bool,
    delimiter: &[Tok],
) -> Result<TokList, Stop>
    requires { 0 < length delimiter.now }
    ensures reads { Reads F.Feed (taken in_file (delimited long delimiter.now 0 []))
        (looks_taken in_file looks_in_file (delimited long delimiter.now 0 [])) result feed.new feed.old }
{
    let mut toks = TokList::new(alloc);
    let mut count = 0usize;
    let mut level = 0u64;
    'tokens: for _turn in 0..u64::MAX {
        match feed.in_file() {
            Err(stop) => return Err(stop),
            Ok(None) => return Err(Stop::Fault(Kind::Runaway)),
            Ok(Some(tok)) => {
                toks.push(tok)?;
                let settled = settle(long, delimiter, toks.as_slice(), count, level);
                match settled {
                    Settled::Whole(last) => return Ok(without_braces(toks, last)),
                    Settled::Fails(kind) => return Err(Stop::Fault(kind)),
                    Settled::Open(further, depth) => {
                        count = further;
                        level = depth;
                    }
                }
            }
        }
    }
    Err(Stop::Memory)
}
