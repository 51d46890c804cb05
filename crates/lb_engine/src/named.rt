//! Names that rows read: texts in braces, expanded to characters.
ghost use Rattle.std.specs.Prelude.{List, ℕ};
ghost use Rattle.lb_model_engine.specs.Reads.{characters};
ghost use Rattle.lb_model_nest.specs.Wholes.{Executed, Whole};
ghost use Rattle.lb_engine.specs.Leads.{Holds, Leads};
ghost use Rattle.lb_engine.specs.Reads.{behind_reading};

use crate::engine::Engine;
use crate::reading::{Reading, characters};
use lb_base::{Name, NoMemory};
use lb_model::Cells;

/// A name in braces.
pub fn name<C: Cells>(cells: &mut C, engine: &mut Engine) -> Result<Reading<Name>, NoMemory>
    requires holds { Holds C.Cells cells.old engine.old }
    ensures leads { (row : List ℕ → Whole → Executed) → Leads C.Cells (characters row) (behind_reading row) result cells.new engine.new cells.old engine.old }
{
    match characters(cells, engine)? {
        Reading::Of(text) => {
            let name = Name::from_slice(engine.desk.alloc, text.as_slice())?;
            Ok(Reading::Of(name))
        }
        Reading::Stops(went) => Ok(Reading::Stops(went)),
    }
}
