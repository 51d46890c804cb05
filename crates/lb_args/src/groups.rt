//! The rest of a group.
ghost use Rattle.std.specs.Prelude.{[]};
ghost use Rattle.lb_model.specs.Configs.{in_file, looks_in_file};
ghost use Rattle.lb_model.specs.Fed.{Reads};
ghost use Rattle.lb_model.specs.Readings.{looks_taken, taken};
ghost use Rattle.lb_model_grammar.specs.Arguments.{group};

use crate::turns::{Step, brace_of, group_turn};
use lb_base::{Kind, Stop, TokList};
use lb_model::Feed;
use std::alloc::Global;

/// The tokens up to the closing brace of a group whose opening brace was taken, without that brace. The faults are those of the feed;
/// `Runaway` where the text or the piece ends before, and at a `\par` in what is not long; and `DepthLimit` above a million tokens.
pub fn read_group<F: Feed>(alloc: Global, feed: &mut F, long: bool) -> Result<TokList, Stop>
    ensures reads { Reads F.Feed (taken in_file (group long 0 [])) (looks_taken in_file looks_in_file (group long 0 [])) result feed.new feed.old }
{
    let mut body = TokList::new(alloc);
    let mut level = 0u64;
    'tokens: for _turn in 0..u64::MAX {
        match feed.in_file() {
            Err(stop) => return Err(stop),
            Ok(None) => return Err(Stop::Fault(Kind::Runaway)),
            Ok(Some(tok)) => {
                let brace = brace_of(long, &tok);
                let turn = group_turn(brace, level, body.len());
                match turn {
                    None => return Ok(body),
                    Some(step) => match step {
                        Step::Fails(kind) => return Err(Stop::Fault(kind)),
                        Step::Goes(next) => {
                            level = next;
                            body.push(tok)?;
                        }
                    },
                }
            }
        }
    }
    Err(Stop::Memory)
}
