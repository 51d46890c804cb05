//! Boxes that are shifted (TeXbook, chapter 24; tex.web, section 1073). Lengths are in scaled points.
ghost use Rattle.std.specs.Prelude.{neg_ℤ};
ghost use Rattle.lb_model_engine.specs.Boxes.{box_wanted, lower, raise};
ghost use Rattle.lb_model_engine.specs.Reads.{dimension as dimension_read};
ghost use Rattle.lb_model_nest.specs.declared.nest.BoxContext.TheVariants.{Shifted};
ghost use Rattle.lb_engine.specs.Leads.{Goes, Holds};

use crate::engine::Engine;
use crate::reading::{Reading, dimension};
use crate::wanted_boxes::want_box;
use lb_base::{Kind, NoMemory};
use lb_model::Cells;
use lb_model_nest::{BoxContext, Went};
use lb_nest::is_vertical;
use std::alloc::AllocError;

// A box that is raised by so much. No dimension is −2^31.
fn raise_by<C: Cells>(cells: &mut C, engine: &mut Engine, height: i32) -> Result<Went, NoMemory>
    requires holds { Holds C.Cells cells.old engine.old }
    ensures goes { Goes C.Cells (box_wanted (Shifted (neg_ℤ height))) result cells.new engine.new cells.old engine.old }
{
    match height.checked_neg() {
        Some(shift) => want_box(cells, engine, BoxContext::Shifted(shift)),
        None => Err(AllocError),
    }
}

// A box that is raised by a dimension.
fn raise_box<C: Cells>(cells: &mut C, engine: &mut Engine) -> Result<Went, NoMemory>
    requires holds { Holds C.Cells cells.old engine.old }
    ensures goes { Goes C.Cells (dimension_read (λ n v. box_wanted (Shifted (neg_ℤ n)) v)) result cells.new engine.new cells.old engine.old }
{
    match dimension(cells, engine)? {
        Reading::Of(height) => raise_by(cells, engine, height),
        Reading::Stops(went) => Ok(went),
    }
}

/// `\raise`. `WrongMode` in a vertical list.
pub fn raise<C: Cells>(cells: &mut C, engine: &mut Engine) -> Result<Went, NoMemory>
    requires holds { Holds C.Cells cells.old engine.old }
    ensures goes { Goes C.Cells raise result cells.new engine.new cells.old engine.old }
{
    if is_vertical(engine.nest.level.kind) {
        return Ok(Went::Stopped(Kind::WrongMode));
    }
    raise_box(cells, engine)
}

// A box that is lowered by a dimension.
fn lower_box<C: Cells>(cells: &mut C, engine: &mut Engine) -> Result<Went, NoMemory>
    requires holds { Holds C.Cells cells.old engine.old }
    ensures goes { Goes C.Cells (dimension_read (λ n v. box_wanted (Shifted n) v)) result cells.new engine.new cells.old engine.old }
{
    match dimension(cells, engine)? {
        Reading::Of(depth) => want_box(cells, engine, BoxContext::Shifted(depth)),
        Reading::Stops(went) => Ok(went),
    }
}

/// `\lower`. `WrongMode` in a vertical list.
pub fn lower<C: Cells>(cells: &mut C, engine: &mut Engine) -> Result<Went, NoMemory>
    requires holds { Holds C.Cells cells.old engine.old }
    ensures goes { Goes C.Cells lower result cells.new engine.new cells.old engine.old }
{
    if is_vertical(engine.nest.level.kind) {
        return Ok(Went::Stopped(Kind::WrongMode));
    }
    lower_box(cells, engine)
}
