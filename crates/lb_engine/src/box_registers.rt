//! Registers of boxes that are set (TeXbook, chapter 24; tex.web, section 1241).
ghost use Rattle.lb_model_engine.specs.Boxes.{box_wanted, setbox};
ghost use Rattle.lb_model_engine.specs.Reads.{equals as equals_read};
ghost use Rattle.lb_model_nest.specs.declared.nest.BoxContext.TheVariants.{Register};
ghost use Rattle.lb_engine.specs.Leads.{Goes, Holds};

use crate::engine::Engine;
use crate::quantities::code;
use crate::reading::Reading;
use crate::spaces::equals;
use crate::wanted_boxes::want_box;
use lb_base::NoMemory;
use lb_model::Cells;
use lb_model_nest::{BoxContext, Went};
use lb_values::Reach;

// A register is set to the box that comes behind `=`.
fn set<C: Cells>(
    cells: &mut C,
    engine: &mut Engine,
    number: u8,
    reach: Reach,
) -> Result<Went, NoMemory>
    requires holds { Holds C.Cells cells.old engine.old }
    ensures goes { Goes C.Cells (equals_read (λ u. box_wanted (Register reach number) u)) result cells.new engine.new cells.old engine.old }
{
    match equals(cells, engine)? {
        Reading::Of(()) => want_box(cells, engine, BoxContext::Register(reach, number)),
        Reading::Stops(went) => Ok(went),
    }
}

/// `\setbox`.
pub fn setbox<C: Cells>(cells: &mut C, engine: &mut Engine, reach: Reach) -> Result<Went, NoMemory>
    requires holds { Holds C.Cells cells.old engine.old }
    ensures goes { Goes C.Cells (setbox reach) result cells.new engine.new cells.old engine.old }
{
    match code(cells, engine)? {
        Reading::Of(number) => set(cells, engine, number, reach),
        Reading::Stops(went) => Ok(went),
    }
}
