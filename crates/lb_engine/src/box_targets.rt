//! The sizes that boxes are to have, as they are asked for before a brace (TeXbook, chapter 24; tex.web, section 645).
ghost use Rattle.lb_base.specs.declared.glue.Target.{Target as ATarget};
ghost use Rattle.lb_base.specs.declared.glue.Target.TheVariants.{Spread, To};
ghost use Rattle.std.specs.Prelude.{codes};
ghost use Rattle.lb_model_engine.specs.Boxes.{spread_to, target, target_to};
ghost use Rattle.lb_model_engine.specs.Reads.{dimension as dimension_read, keyword as keyword_read};
ghost use Rattle.lb_model_nest.specs.Wholes.{Executed, Whole};
ghost use Rattle.lb_engine.specs.Leads.{Holds, Leads};
ghost use Rattle.lb_engine.specs.Reads.{behind_reading};

use crate::engine::Engine;
use crate::reading::{Reading, dimension, keyword};
use lb_base::{NoMemory, Target};
use lb_model::Cells;

// So much more than the size of the list.
fn spread_by<C: Cells>(cells: &mut C, engine: &mut Engine) -> Result<Reading<Target>, NoMemory>
    requires holds { Holds C.Cells cells.old engine.old }
    ensures leads { (row : ATarget → Whole → Executed) → Leads C.Cells (dimension_read (λ n v. row (Spread n) v)) (behind_reading row) result
        cells.new engine.new cells.old engine.old }
{
    match dimension(cells, engine)? {
        Reading::Of(more) => Ok(Reading::Of(Target::Spread(more))),
        Reading::Stops(went) => Ok(Reading::Stops(went)),
    }
}

// So much more where `spread` was found, and else the size of the list.
fn spread_if<C: Cells>(
    cells: &mut C,
    engine: &mut Engine,
    found: bool,
) -> Result<Reading<Target>, NoMemory>
    requires holds { Holds C.Cells cells.old engine.old }
    ensures leads { (row : ATarget → Whole → Executed) → Leads C.Cells (spread_to found row) (behind_reading row) result
        cells.new engine.new cells.old engine.old }
{
    if found {
        return spread_by(cells, engine);
    }
    Ok(Reading::Of(Target::Natural))
}

// `spread` and so much more, or the size of the list.
fn spread<C: Cells>(cells: &mut C, engine: &mut Engine) -> Result<Reading<Target>, NoMemory>
    requires holds { Holds C.Cells cells.old engine.old }
    ensures leads { (row : ATarget → Whole → Executed) → Leads C.Cells (keyword_read (codes "spread") (λ found v. spread_to found row v))
        (behind_reading row) result cells.new engine.new cells.old engine.old }
{
    match keyword(cells, engine, b"spread")? {
        Reading::Of(found) => spread_if(cells, engine, found),
        Reading::Stops(went) => Ok(Reading::Stops(went)),
    }
}

// This size.
fn size<C: Cells>(cells: &mut C, engine: &mut Engine) -> Result<Reading<Target>, NoMemory>
    requires holds { Holds C.Cells cells.old engine.old }
    ensures leads { (row : ATarget → Whole → Executed) → Leads C.Cells (dimension_read (λ n v. row (To n) v)) (behind_reading row) result
        cells.new engine.new cells.old engine.old }
{
    match dimension(cells, engine)? {
        Reading::Of(size) => Ok(Reading::Of(Target::To(size))),
        Reading::Stops(went) => Ok(Reading::Stops(went)),
    }
}

// This size where `to` was found.
fn size_if<C: Cells>(
    cells: &mut C,
    engine: &mut Engine,
    found: bool,
) -> Result<Reading<Target>, NoMemory>
    requires holds { Holds C.Cells cells.old engine.old }
    ensures leads { (row : ATarget → Whole → Executed) → Leads C.Cells (target_to found row) (behind_reading row) result
        cells.new engine.new cells.old engine.old }
{
    if found {
        return size(cells, engine);
    }
    spread(cells, engine)
}

/// The size that a box is to have: behind `to` or `spread`, or else that of its list.
pub fn target<C: Cells>(cells: &mut C, engine: &mut Engine) -> Result<Reading<Target>, NoMemory>
    requires holds { Holds C.Cells cells.old engine.old }
    ensures leads { (row : ATarget → Whole → Executed) → Leads C.Cells (target row) (behind_reading row) result cells.new engine.new cells.old engine.old }
{
    match keyword(cells, engine, b"to")? {
        Reading::Of(found) => size_if(cells, engine, found),
        Reading::Stops(went) => Ok(Reading::Stops(went)),
    }
}
