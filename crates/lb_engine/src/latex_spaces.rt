//! `\\`, `\hspace` and `\vspace` (source2e, file ltspace).
ghost use Rattle.std.specs.Prelude.{Some};
ghost use Rattle.lb_model_engine.specs.Items.{hspace, hspace_of, line_break, skip_to, starred_argument, vspace, vspace_of};
ghost use Rattle.lb_model_engine.specs.Reads.{argument as argument_read, bracket as bracket_read, dimension_in as dimension_of, glue_in as glue_of, reading, star as star_read};
ghost use Rattle.lb_model_nest.specs.Items.{hspace_put, line_ended};
ghost use Rattle.lb_engine.specs.Leads.{Goes, Holds};

use crate::brackets::bracket;
use crate::engine::Engine;
use crate::material::{end_line, put_hspace, put_vspace};
use crate::paragraphs::begin_in_vertical;
use crate::quantities::{dimension_in, glue_in};
use crate::reading::Reading;
use crate::unexpanded::{argument, star};
use lb_base::{Kind, NoMemory, TokList};
use lb_model::Cells;
use lb_model_nest::Went;
use lb_nest::{is_paragraph, is_restricted};

// ---- `\\`

// The line ends, with the dimension that tokens are behind it.
fn end_with_skip<C: Cells>(
    cells: &mut C,
    engine: &mut Engine,
    starred: bool,
    toks: TokList,
) -> Result<Went, NoMemory>
    requires holds { Holds C.Cells cells.old engine.old }
    ensures goes { Goes C.Cells (dimension_of toks (λ n v. line_ended starred (Some n) v)) result cells.new engine.new cells.old engine.old }
{
    match dimension_in(cells, engine, toks)? {
        Reading::Of(skip) => end_line(cells, engine, starred, Some(skip)),
        Reading::Stops(went) => Ok(went),
    }
}

// The line ends, with a dimension behind it where it is given.
fn end_by<C: Cells>(
    cells: &mut C,
    engine: &mut Engine,
    starred: bool,
    skip: Option<TokList>,
) -> Result<Went, NoMemory>
    requires holds { Holds C.Cells cells.old engine.old }
    ensures goes { Goes C.Cells (skip_to skip (line_ended starred)) result cells.new engine.new cells.old engine.old }
{
    match skip {
        Some(toks) => end_with_skip(cells, engine, starred, toks),
        None => end_line(cells, engine, starred, None),
    }
}

// The line ends behind a star, if there is one.
fn end_behind_star<C: Cells>(
    cells: &mut C,
    engine: &mut Engine,
    starred: bool,
) -> Result<Went, NoMemory>
    requires holds { Holds C.Cells cells.old engine.old }
    ensures goes { Goes C.Cells (reading bracket_read (λ toks u. skip_to toks (line_ended starred) u)) result cells.new engine.new cells.old engine.old }
{
    match bracket(cells, engine)? {
        Reading::Of(skip) => end_by(cells, engine, starred, skip),
        Reading::Stops(went) => Ok(went),
    }
}

// The line ends.
fn read_line_break<C: Cells>(cells: &mut C, engine: &mut Engine) -> Result<Went, NoMemory>
    requires holds { Holds C.Cells cells.old engine.old }
    ensures goes { Goes C.Cells (reading star_read (λ starred v. reading bracket_read (λ toks u. skip_to toks (line_ended starred) u) v)) result
        cells.new engine.new cells.old engine.old }
{
    match star(cells, engine)? {
        Reading::Of(starred) => end_behind_star(cells, engine, starred),
        Reading::Stops(went) => Ok(went),
    }
}

/// `\\`. `WrongMode` outside of paragraphs.
pub fn line_break<C: Cells>(cells: &mut C, engine: &mut Engine) -> Result<Went, NoMemory>
    requires holds { Holds C.Cells cells.old engine.old }
    ensures goes { Goes C.Cells line_break result cells.new engine.new cells.old engine.old }
{
    if is_paragraph(engine.nest.level.kind) {
        return read_line_break(cells, engine);
    }
    Ok(Went::Stopped(Kind::WrongMode))
}

// ---- `\hspace`

// The glue that tokens are is put in a line.
fn put_hspace_of<C: Cells>(
    cells: &mut C,
    engine: &mut Engine,
    starred: bool,
    toks: TokList,
) -> Result<Went, NoMemory>
    requires holds { Holds C.Cells cells.old engine.old }
    ensures goes { Goes C.Cells (glue_of toks (hspace_put starred)) result cells.new engine.new cells.old engine.old }
{
    match glue_in(cells, engine, toks)? {
        Reading::Of(glue) => put_hspace(cells, engine, starred, glue),
        Reading::Stops(went) => Ok(went),
    }
}

// A paragraph begins before the glue is read.
fn hspace_of<C: Cells>(
    cells: &mut C,
    engine: &mut Engine,
    starred: bool,
    toks: TokList,
) -> Result<Went, NoMemory>
    requires holds { Holds C.Cells cells.old engine.old }
    ensures goes { Goes C.Cells (hspace_of starred toks) result cells.new engine.new cells.old engine.old }
{
    match begin_in_vertical(cells, engine, true)? {
        Went::On => put_hspace_of(cells, engine, starred, toks),
        went => Ok(went),
    }
}

// Behind a star, if there is one.
fn hspace_behind_star<C: Cells>(
    cells: &mut C,
    engine: &mut Engine,
    starred: bool,
) -> Result<Went, NoMemory>
    requires holds { Holds C.Cells cells.old engine.old }
    ensures goes { Goes C.Cells (argument_read (hspace_of starred)) result cells.new engine.new cells.old engine.old }
{
    match argument(cells, engine)? {
        Reading::Of(toks) => hspace_of(cells, engine, starred, toks),
        Reading::Stops(went) => Ok(went),
    }
}

/// `\hspace`.
pub fn hspace<C: Cells>(cells: &mut C, engine: &mut Engine) -> Result<Went, NoMemory>
    requires holds { Holds C.Cells cells.old engine.old }
    ensures goes { Goes C.Cells hspace result cells.new engine.new cells.old engine.old }
{
    match star(cells, engine)? {
        Reading::Of(starred) => hspace_behind_star(cells, engine, starred),
        Reading::Stops(went) => Ok(went),
    }
}

// ---- `\vspace`

// The glue that tokens are is put between lines.
fn vspace_of<C: Cells>(
    cells: &mut C,
    engine: &mut Engine,
    starred: bool,
    toks: TokList,
) -> Result<Went, NoMemory>
    requires holds { Holds C.Cells cells.old engine.old }
    ensures goes { Goes C.Cells (vspace_of starred toks) result cells.new engine.new cells.old engine.old }
{
    match glue_in(cells, engine, toks)? {
        Reading::Of(glue) => put_vspace(cells, engine, starred, glue),
        Reading::Stops(went) => Ok(went),
    }
}

// Behind a star, if there is one.
fn vspace_behind_star<C: Cells>(
    cells: &mut C,
    engine: &mut Engine,
    starred: bool,
) -> Result<Went, NoMemory>
    requires holds { Holds C.Cells cells.old engine.old }
    ensures goes { Goes C.Cells (argument_read (vspace_of starred)) result cells.new engine.new cells.old engine.old }
{
    match argument(cells, engine)? {
        Reading::Of(toks) => vspace_of(cells, engine, starred, toks),
        Reading::Stops(went) => Ok(went),
    }
}

// The star, the glue and its place.
fn read_vspace<C: Cells>(cells: &mut C, engine: &mut Engine) -> Result<Went, NoMemory>
    requires holds { Holds C.Cells cells.old engine.old }
    ensures goes { Goes C.Cells (starred_argument vspace_of) result cells.new engine.new cells.old engine.old }
{
    match star(cells, engine)? {
        Reading::Of(starred) => vspace_behind_star(cells, engine, starred),
        Reading::Stops(went) => Ok(went),
    }
}

/// `\vspace`. `WrongMode` in a horizontal box.
pub fn vspace<C: Cells>(cells: &mut C, engine: &mut Engine) -> Result<Went, NoMemory>
    requires holds { Holds C.Cells cells.old engine.old }
    ensures goes { Goes C.Cells vspace result cells.new engine.new cells.old engine.old }
{
    if is_restricted(engine.nest.level.kind) {
        return Ok(Went::Stopped(Kind::WrongMode));
    }
    read_vspace(cells, engine)
}
