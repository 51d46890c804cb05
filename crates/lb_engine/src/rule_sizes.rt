//! Sizes of rules behind their keywords (TeXbook, chapter 24; tex.web, section 463). Lengths are in scaled points.
ghost use Rattle.std.specs.Prelude.{◌≡◌, codes};
ghost use Rattle.lb_base.specs.declared.node.RuleSize.{RuleSize as ASize};
ghost use Rattle.lb_model_engine.specs.Items.{rule_sizes, size_if};
ghost use Rattle.lb_model_engine.specs.Reads.{dimension as dimension_read};
ghost use Rattle.lb_model_nest.specs.Wholes.{Executed, Whole};
ghost use Rattle.lb_engine.specs.Leads.{Holds, Leads};
ghost use Rattle.lb_engine.specs.Reads.{behind_reading};
ghost use Rattle.lb_engine.specs.RuleSizes.{depth_read, height_read, size_read, with_given, with_side};
ghost use Rattle.lb_engine.specs.declared.rule_sizes.Given.{Given as AGiven};
ghost use Rattle.lb_engine.specs.declared.rule_sizes.Given.TheVariants.{Nothing, Size};
ghost use Rattle.lb_engine.specs.declared.rule_sizes.Side.TheVariants.{Depth, Height, Width};

use crate::engine::Engine;
use crate::reading::{Reading, dimension, keyword};
use lb_base::{Kind, NoMemory, RuleSize};
use lb_model::Cells;
use lb_model_nest::Went;
use std::alloc::AllocError;

// What has a size.
#[derive(Clone, Copy)]
enum Side {
    Width,
    Height,
    Depth,
}

// A size that is given, or none.
#[derive(Clone, Copy)]
enum Given {
    Size(Side, i32),
    Nothing,
}

// A size with one side of its own.
fn with_side(side: Side, length: i32, size: RuleSize) -> RuleSize
    ensures { result ≡ with_side side length size }
{
    let mut size = size;
    match side {
        Side::Width => size.width = Some(length),
        Side::Height => size.height = Some(length),
        Side::Depth => size.depth = Some(length),
    }
    size
}

// A size with what is given, if anything is.
fn with_given(given: Given, size: RuleSize) -> Option<RuleSize>
    ensures { result ≡ with_given given size }
{
    match given {
        Given::Size(side, length) => Some(with_side(side, length, size)),
        Given::Nothing => None,
    }
}

// The size of a side.
fn side_size<C: Cells>(
    cells: &mut C,
    engine: &mut Engine,
    side: Side,
) -> Result<Reading<Given>, NoMemory>
    requires holds { Holds C.Cells cells.old engine.old }
    ensures leads { (row : AGiven → Whole → Executed) → Leads C.Cells (dimension_read (λ n x. row (Size side n) x)) (behind_reading row) result
        cells.new engine.new cells.old engine.old }
{
    match dimension(cells, engine)? {
        Reading::Of(length) => Ok(Reading::Of(Given::Size(side, length))),
        Reading::Stops(went) => Ok(Reading::Stops(went)),
    }
}

// The depth where its keyword was found.
fn depth_if<C: Cells>(
    cells: &mut C,
    engine: &mut Engine,
    found: bool,
) -> Result<Reading<Given>, NoMemory>
    requires holds { Holds C.Cells cells.old engine.old }
    ensures leads { (row : AGiven → Whole → Executed) → Leads C.Cells (size_if found (λ n x. row (Size Depth n) x) (row Nothing)) (behind_reading row) result
        cells.new engine.new cells.old engine.old }
{
    if found {
        return side_size(cells, engine, Side::Depth);
    }
    Ok(Reading::Of(Given::Nothing))
}

// The depth, if it is given.
fn depth<C: Cells>(cells: &mut C, engine: &mut Engine) -> Result<Reading<Given>, NoMemory>
    requires holds { Holds C.Cells cells.old engine.old }
    ensures leads { (row : AGiven → Whole → Executed) → Leads C.Cells (depth_read row) (behind_reading row) result cells.new engine.new cells.old engine.old }
{
    match keyword(cells, engine, b"depth")? {
        Reading::Of(found) => depth_if(cells, engine, found),
        Reading::Stops(went) => Ok(Reading::Stops(went)),
    }
}

// The height where its keyword was found, and else the depth, if it is given.
fn height_if<C: Cells>(
    cells: &mut C,
    engine: &mut Engine,
    found: bool,
) -> Result<Reading<Given>, NoMemory>
    requires holds { Holds C.Cells cells.old engine.old }
    ensures leads { (row : AGiven → Whole → Executed) → Leads C.Cells (size_if found (λ n x. row (Size Height n) x) (depth_read row)) (behind_reading row) result
        cells.new engine.new cells.old engine.old }
{
    if found {
        return side_size(cells, engine, Side::Height);
    }
    depth(cells, engine)
}

// The height or the depth, if one is given.
fn height<C: Cells>(cells: &mut C, engine: &mut Engine) -> Result<Reading<Given>, NoMemory>
    requires holds { Holds C.Cells cells.old engine.old }
    ensures leads { (row : AGiven → Whole → Executed) → Leads C.Cells (height_read row) (behind_reading row) result cells.new engine.new cells.old engine.old }
{
    match keyword(cells, engine, b"height")? {
        Reading::Of(found) => height_if(cells, engine, found),
        Reading::Stops(went) => Ok(Reading::Stops(went)),
    }
}

// The width where its keyword was found, and else the height or the depth, if one is given.
fn width_if<C: Cells>(
    cells: &mut C,
    engine: &mut Engine,
    found: bool,
) -> Result<Reading<Given>, NoMemory>
    requires holds { Holds C.Cells cells.old engine.old }
    ensures leads { (row : AGiven → Whole → Executed) → Leads C.Cells (size_if found (λ n x. row (Size Width n) x) (height_read row)) (behind_reading row) result
        cells.new engine.new cells.old engine.old }
{
    if found {
        return side_size(cells, engine, Side::Width);
    }
    height(cells, engine)
}

// One size, if one is given.
fn next<C: Cells>(cells: &mut C, engine: &mut Engine) -> Result<Reading<Given>, NoMemory>
    requires holds { Holds C.Cells cells.old engine.old }
    ensures leads { (row : AGiven → Whole → Executed) → Leads C.Cells (size_read row) (behind_reading row) result cells.new engine.new cells.old engine.old }
{
    match keyword(cells, engine, b"width")? {
        Reading::Of(found) => width_if(cells, engine, found),
        Reading::Stops(went) => Ok(Reading::Stops(went)),
    }
}

/// The size of a rule: this one, but for what is given behind keywords, of which the last of each counts.
pub fn rule_sizes<C: Cells>(
    cells: &mut C,
    engine: &mut Engine,
    size: RuleSize,
) -> Result<Reading<RuleSize>, NoMemory>
    requires holds { Holds C.Cells cells.old engine.old }
    ensures leads { (row : ASize → Whole → Executed) → Leads C.Cells (rule_sizes size row) (behind_reading row) result cells.new engine.new cells.old engine.old }
{
    let mut size = size;
    let mut turns = engine.desk.left;
    'sizes: for _turn in 0..u64::MAX {
        match next(cells, engine)? {
            Reading::Of(given) => {
                let Some(changed) = with_given(given, size) else {
                    return Ok(Reading::Of(size));
                };
                let Some(fewer) = turns.checked_sub(1) else {
                    return Ok(Reading::Stops(Went::Stopped(Kind::StepLimit)));
                };
                size = changed;
                turns = fewer;
            }
            Reading::Stops(went) => return Ok(Reading::Stops(went)),
        }
    }
    Err(AllocError)
}
