//! The star that may come behind a command.
ghost use Rattle.lb_model.specs.Configs.{in_file, looks_in_file};
ghost use Rattle.lb_model.specs.Fed.{Reads};
ghost use Rattle.lb_model.specs.Readings.{looks_taken, taken};
ghost use Rattle.lb_model_engine.specs.Reads.{star};

use crate::seen::{is_other, is_space};
use lb_base::Stop;
use lb_model::Feed;

/// Whether a star comes behind spaces, which is taken then (source2e, file ltdefns). The faults are those of the feed, and `DepthLimit` where
/// a million tokens are pending and one is to be put back.
pub(crate) fn read_star<F: Feed>(feed: &mut F) -> Result<bool, Stop>
    ensures reads { Reads F.Feed (taken in_file star) (looks_taken in_file looks_in_file star) result feed.new feed.old }
{
    'tokens: for _turn in 0..u64::MAX {
        match feed.in_file() {
            Err(stop) => return Err(stop),
            Ok(None) => return Ok(false),
            Ok(Some(tok)) => {
                if is_space(&tok) {
                    continue;
                }
                if is_other(b'*', &tok) {
                    return Ok(true);
                }
                match feed.back(tok) {
                    Err(stop) => return Err(stop),
                    Ok(()) => return Ok(false),
                }
            }
        }
    }
    Err(Stop::Memory)
}
