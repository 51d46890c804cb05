//! The token whose meaning a name gets.
ghost use Rattle.lb_model.specs.Configs.{looks_of_plain, plain};
ghost use Rattle.lb_model.specs.Fed.{Reads};
ghost use Rattle.lb_model.specs.Readings.{looks_taken, taken};
ghost use Rattle.lb_model_engine.specs.Definitions.{behind_equals, first_given, let_source};

use crate::seen::{is_other, is_space};
use lb_base::{Kind, Stop, Tok};
use lb_model::Feed;

// The next token.
fn read_first<F: Feed>(feed: &mut F) -> Result<Tok, Stop>
    ensures reads { Reads F.Feed (taken plain first_given) (looks_taken plain looks_of_plain first_given) result feed.new feed.old }
{
    match feed.plain() {
        Err(stop) => Err(stop),
        Ok(None) => Err(Stop::Fault(Kind::Runaway)),
        Ok(Some(tok)) => Ok(tok),
    }
}

// The token behind `=`, and behind one space where one comes.
fn read_behind_equals<F: Feed>(feed: &mut F) -> Result<Tok, Stop>
    ensures reads { Reads F.Feed (taken plain behind_equals) (looks_taken plain looks_of_plain behind_equals) result feed.new feed.old }
{
    match feed.plain() {
        Err(stop) => Err(stop),
        Ok(None) => Err(Stop::Fault(Kind::Runaway)),
        Ok(Some(tok)) => {
            if is_space(&tok) {
                return read_first(feed);
            }
            Ok(tok)
        }
    }
}

/// The token of which a name gets the meaning: spaces before `=` are skipped, and one space behind it; `=` may be left out (TeXbook, chapter
/// 24; tex.web, section 1221). The faults are those of the feed, and `Runaway` where the piece ends before.
pub(crate) fn read_let_source<F: Feed>(feed: &mut F) -> Result<Tok, Stop>
    ensures reads { Reads F.Feed (taken plain let_source) (looks_taken plain looks_of_plain let_source) result feed.new feed.old }
{
    'tokens: for _turn in 0..u64::MAX {
        match feed.plain() {
            Err(stop) => return Err(stop),
            Ok(None) => return Err(Stop::Fault(Kind::Runaway)),
            Ok(Some(tok)) => {
                if is_space(&tok) {
                    continue;
                }
                if is_other(b'=', &tok) {
                    return read_behind_equals(feed);
                }
                return Ok(tok);
            }
        }
    }
    Err(Stop::Memory)
}
