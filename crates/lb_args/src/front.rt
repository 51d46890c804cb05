//! What stands before the first parameter.
ghost use Rattle.lb_model.specs.Configs.{in_file, looks_in_file};
ghost use Rattle.lb_model.specs.Fed.{Reads};
ghost use Rattle.lb_model.specs.Readings.{looks_taken, taken};
ghost use Rattle.lb_model_grammar.specs.Arguments.{front};

use crate::turns::same_token;
use lb_base::{Kind, Stop, Tok, TokList};
use lb_model::Feed;
use std::alloc::Global;

// Takes the tokens that stand before the first parameter of a macro, and gives an empty list (TeXbook, chapter 20). The faults are those of
// the feed, and `UseMismatch` where others come or none.
pub(crate) fn read_front<F: Feed>(
    alloc: Global,
    feed: &mut F,
    toks: &[Tok],
) -> Result<TokList, Stop>
    ensures reads { Reads F.Feed (taken in_file (front toks.now)) (looks_taken in_file looks_in_file (front toks.now)) result feed.new feed.old }
{
    'tokens: for index in 0..toks.len() {
        match feed.in_file() {
            Err(stop) => return Err(stop),
            Ok(None) => return Err(Stop::Fault(Kind::UseMismatch)),
            Ok(Some(tok)) => {
                if same_token(&toks[index], &tok) {
                    continue;
                }
                return Err(Stop::Fault(Kind::UseMismatch));
            }
        }
    }
    Ok(TokList::new(alloc))
}
