//! An undelimited argument.
ghost use Rattle.lb_model.specs.Configs.{in_file, looks_in_file};
ghost use Rattle.lb_model.specs.Fed.{Reads};
ghost use Rattle.lb_model.specs.Readings.{looks_taken, taken};
ghost use Rattle.lb_model_grammar.specs.Arguments.{undelimited};

use crate::groups::read_group;
use crate::turns::{First, brace_of, first_of};
use lb_base::{Kind, Stop, TokList};
use lb_model::Feed;
use std::alloc::Global;

/// One token, or one group without its braces, behind spaces (TeXbook, chapter 20). The faults are those of the feed; `UseMismatch` at a
/// closing brace; `Runaway` where the text or the piece ends before, and at a `\par` in what is not long; and `DepthLimit` above a million
/// tokens.
pub fn read_undelimited<F: Feed>(alloc: Global, feed: &mut F, long: bool) -> Result<TokList, Stop>
    ensures reads { Reads F.Feed (taken in_file (undelimited long)) (looks_taken in_file looks_in_file (undelimited long)) result feed.new feed.old }
{
    'tokens: for _turn in 0..u64::MAX {
        match feed.in_file() {
            Err(stop) => return Err(stop),
            Ok(None) => return Err(Stop::Fault(Kind::Runaway)),
            Ok(Some(tok)) => {
                let brace = brace_of(long, &tok);
                let first = first_of(brace, &tok);
                match first {
                    First::Space => {}
                    First::Group => return read_group(alloc, feed, long),
                    First::One => {
                        let mut argument = TokList::new(alloc);
                        argument.push(tok)?;
                        return Ok(argument);
                    }
                    First::Fails(kind) => return Err(Stop::Fault(kind)),
                }
            }
        }
    }
    Err(Stop::Memory)
}
