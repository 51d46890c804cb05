//! The place of the last token that was taken from a text.
ghost use Rattle.std.specs.Prelude.{◌≡◌, OnOk, OnErr, Some};

use lb_base::{Name, NoMemory};
use lb_model::Place;

/// Notes the place of a token. The name is kept where it is the same, so that a token costs no clone.
#[inline(always)]
pub fn set_place(place: &mut Option<Place>, file: &Name, line: u64) -> Result<(), NoMemory>
    ensures ok { OnOk result (place.new ≡ Some (record { file = file.now; line = line })) }
    ensures err { OnErr result (place.new ≡ place.old) }
{
    if let Some(last) = place {
        if last.file == *file {
            last.line = line;
            return Ok(());
        }
    }
    let file = file.clone()?;
    *place = Some(Place { file, line });
    Ok(())
}
