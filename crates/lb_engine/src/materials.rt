//! Material from arguments: vertical material and footnotes of paragraphs, and marks (TeXbook, chapters 23 to 25; tex.web, sections 1097 to 1101; source2e, file
//! ltpage).
ghost use Rattle.std.specs.Prelude.{true, false};
ghost use Rattle.lb_model_engine.specs.Material.{footnote, markboth, markright, material_begun, vadjust};
ghost use Rattle.lb_model_engine.specs.Reads.{argument, put_closed};
ghost use Rattle.lb_model_nest.specs.Boxes.{list_opened, mark_opened};
ghost use Rattle.lb_model_nest.specs.Wholes.{and_then};
ghost use Rattle.lb_engine.specs.Leads.{Goes, Holds};

use crate::engine::Engine;
use crate::expanded_texts::put_closed;
use crate::paragraphs::{open_list, open_mark};
use crate::reading::Reading;
use crate::unexpanded::argument;
use lb_base::{Kind, NoMemory, TokList};
use lb_model::Cells;
use lb_model_nest::{ListKind, Went};
use lb_nest::is_paragraph;

// A list of tokens that come next.
fn open_with<C: Cells>(
    cells: &mut C,
    engine: &mut Engine,
    toks: TokList,
    kind: ListKind,
) -> Result<Went, NoMemory>
    requires holds { Holds C.Cells cells.old engine.old }
    ensures goes { Goes C.Cells (λ v. and_then (put_closed toks v) (list_opened kind)) result cells.new engine.new cells.old engine.old }
{
    match put_closed(cells, engine, toks)? {
        Went::On => open_list(cells, engine, kind),
        went => Ok(went),
    }
}

// A list of an argument.
fn begin_material<C: Cells>(
    cells: &mut C,
    engine: &mut Engine,
    kind: ListKind,
) -> Result<Went, NoMemory>
    requires holds { Holds C.Cells cells.old engine.old }
    ensures goes { Goes C.Cells (material_begun kind) result cells.new engine.new cells.old engine.old }
{
    match argument(cells, engine)? {
        Reading::Of(toks) => open_with(cells, engine, toks, kind),
        Reading::Stops(went) => Ok(went),
    }
}

/// `\vadjust`. `WrongMode` where no paragraph is open.
pub fn vadjust<C: Cells>(cells: &mut C, engine: &mut Engine) -> Result<Went, NoMemory>
    requires holds { Holds C.Cells cells.old engine.old }
    ensures goes { Goes C.Cells vadjust result cells.new engine.new cells.old engine.old }
{
    if !is_paragraph(engine.nest.level.kind) {
        return Ok(Went::Stopped(Kind::WrongMode));
    }
    begin_material(cells, engine, ListKind::Adjust)
}

/// `\@ins`: a footnote. `WrongMode` where no paragraph is open.
pub fn footnote<C: Cells>(cells: &mut C, engine: &mut Engine) -> Result<Went, NoMemory>
    requires holds { Holds C.Cells cells.old engine.old }
    ensures goes { Goes C.Cells footnote result cells.new engine.new cells.old engine.old }
{
    if !is_paragraph(engine.nest.level.kind) {
        return Ok(Went::Stopped(Kind::WrongMode));
    }
    begin_material(cells, engine, ListKind::Footnote)
}

/// Two texts come next, with a brace behind each.
pub(crate) fn put_two<C: Cells>(
    cells: &C,
    engine: &mut Engine,
    first: TokList,
    second: TokList,
) -> Result<Went, NoMemory>
    requires holds { Holds C.Cells cells.now engine.old }
    ensures goes { Goes C.Cells (λ w. and_then (put_closed second w) (put_closed first)) result cells.now engine.new cells.now engine.old }
{
    match put_closed(cells, engine, second)? {
        Went::On => put_closed(cells, engine, first),
        went => Ok(went),
    }
}

// The boxes of a mark, of which the left one is made first.
fn begin_both<C: Cells>(
    cells: &mut C,
    engine: &mut Engine,
    left: TokList,
    right: TokList,
) -> Result<Went, NoMemory>
    requires holds { Holds C.Cells cells.old engine.old }
    ensures goes { Goes C.Cells (λ w. and_then (and_then (put_closed right w) (put_closed left)) (mark_opened false)) result
        cells.new engine.new cells.old engine.old }
{
    match put_two(cells, engine, left, right)? {
        Went::On => open_mark(cells, engine, false),
        went => Ok(went),
    }
}

// A mark with this left text.
fn mark_with<C: Cells>(cells: &mut C, engine: &mut Engine, left: TokList) -> Result<Went, NoMemory>
    requires holds { Holds C.Cells cells.old engine.old }
    ensures goes { Goes C.Cells
        (argument (λ right u. and_then (and_then (put_closed right u) (put_closed left)) (mark_opened false))) result cells.new engine.new cells.old engine.old }
{
    match argument(cells, engine)? {
        Reading::Of(right) => begin_both(cells, engine, left, right),
        Reading::Stops(went) => Ok(went),
    }
}

/// `\markboth`.
pub fn markboth<C: Cells>(cells: &mut C, engine: &mut Engine) -> Result<Went, NoMemory>
    requires holds { Holds C.Cells cells.old engine.old }
    ensures goes { Goes C.Cells markboth result cells.new engine.new cells.old engine.old }
{
    match argument(cells, engine)? {
        Reading::Of(left) => mark_with(cells, engine, left),
        Reading::Stops(went) => Ok(went),
    }
}

// The box of a mark.
fn begin_right<C: Cells>(
    cells: &mut C,
    engine: &mut Engine,
    right: TokList,
) -> Result<Went, NoMemory>
    requires holds { Holds C.Cells cells.old engine.old }
    ensures goes { Goes C.Cells (λ v. and_then (put_closed right v) (mark_opened true)) result cells.new engine.new cells.old engine.old }
{
    match put_closed(cells, engine, right)? {
        Went::On => open_mark(cells, engine, true),
        went => Ok(went),
    }
}

/// `\markright`.
pub fn markright<C: Cells>(cells: &mut C, engine: &mut Engine) -> Result<Went, NoMemory>
    requires holds { Holds C.Cells cells.old engine.old }
    ensures goes { Goes C.Cells markright result cells.new engine.new cells.old engine.old }
{
    match argument(cells, engine)? {
        Reading::Of(right) => begin_right(cells, engine, right),
        Reading::Stops(went) => Ok(went),
    }
}
