//! Paragraphs, pages and lists of an engine (TeXbook, chapters 13 to 15).
ghost use Rattle.lb_model_nest.specs.Boxes.{list_opened, mark_opened, parts_opened};
ghost use Rattle.lb_model_nest.specs.Groups.{kept_after};
ghost use Rattle.lb_model_nest.specs.Items.{indent, leavevmode, noindent, par, plainnext, unskip, vertical_glue};
ghost use Rattle.lb_model_nest.specs.Pages.{page_cleared};
ghost use Rattle.lb_model_nest.specs.Paragraphs.{begun_in_vertical, paragraph_ended};
ghost use Rattle.lb_model_nest.specs.Words.{word_ended};
ghost use Rattle.lb_engine.specs.Leads.{Goes, Holds};

use crate::engine::Engine;
use lb_base::{Glue, NoMemory, Tok};
use lb_model::Cells;
use lb_model_nest::{ListKind, Went};

/// A paragraph begins with an indent, or an indent stands in one.
pub fn indent<C: Cells>(cells: &mut C, engine: &mut Engine) -> Result<Went, NoMemory>
    requires holds { Holds C.Cells cells.old engine.old }
    ensures goes { Goes C.Cells indent result cells.new engine.new cells.old engine.old }
{
    lb_nest::indent(
        cells,
        &mut engine.desk.groups,
        &mut engine.desk.left,
        &mut engine.nest,
    )
}

/// A paragraph begins without an indent.
pub fn noindent<C: Cells>(cells: &mut C, engine: &mut Engine) -> Result<Went, NoMemory>
    requires holds { Holds C.Cells cells.old engine.old }
    ensures goes { Goes C.Cells noindent result cells.new engine.new cells.old engine.old }
{
    lb_nest::noindent(
        cells,
        &mut engine.desk.groups,
        &mut engine.desk.left,
        &mut engine.nest,
    )
}

/// A paragraph begins in a vertical list.
pub fn leavevmode<C: Cells>(cells: &mut C, engine: &mut Engine) -> Result<Went, NoMemory>
    requires holds { Holds C.Cells cells.old engine.old }
    ensures goes { Goes C.Cells leavevmode result cells.new engine.new cells.old engine.old }
{
    lb_nest::leavevmode(
        cells,
        &mut engine.desk.groups,
        &mut engine.desk.left,
        &mut engine.nest,
    )
}

/// A paragraph begins in a vertical list.
pub fn begin_in_vertical<C: Cells>(
    cells: &mut C,
    engine: &mut Engine,
    indent: bool,
) -> Result<Went, NoMemory>
    requires holds { Holds C.Cells cells.old engine.old }
    ensures goes { Goes C.Cells (begun_in_vertical indent) result cells.new engine.new cells.old engine.old }
{
    lb_nest::begin_in_vertical(
        cells,
        &mut engine.desk.groups,
        &mut engine.desk.left,
        &mut engine.nest,
        indent,
    )
}

/// All of the list of pages is shipped.
pub fn clear_page<C: Cells>(cells: &mut C, engine: &mut Engine) -> Result<Went, NoMemory>
    requires holds { Holds C.Cells cells.old engine.old }
    ensures goes { Goes C.Cells page_cleared result cells.new engine.new cells.old engine.old }
{
    lb_nest::clear_page(
        cells,
        &mut engine.desk.groups,
        &mut engine.desk.left,
        &mut engine.nest,
    )
}

/// A paragraph ends, as at `\par`.
pub fn par<C: Cells>(cells: &mut C, engine: &mut Engine) -> Result<Went, NoMemory>
    requires holds { Holds C.Cells cells.old engine.old }
    ensures goes { Goes C.Cells par result cells.new engine.new cells.old engine.old }
{
    lb_nest::par(
        cells,
        &mut engine.desk.groups,
        &mut engine.desk.left,
        &mut engine.nest,
        &engine.desk.place,
    )
}

/// A paragraph ends, where one is open.
pub fn end_paragraph<C: Cells>(cells: &mut C, engine: &mut Engine) -> Result<Went, NoMemory>
    requires holds { Holds C.Cells cells.old engine.old }
    ensures goes { Goes C.Cells paragraph_ended result cells.new engine.new cells.old engine.old }
{
    lb_nest::end_paragraph(
        cells,
        &mut engine.desk.groups,
        &mut engine.desk.left,
        &mut engine.nest,
        &engine.desk.place,
    )
}

/// Glue in a vertical list: it ends a paragraph.
pub fn put_vertical_glue<C: Cells>(
    cells: &mut C,
    engine: &mut Engine,
    glue: Glue,
) -> Result<Went, NoMemory>
    requires holds { Holds C.Cells cells.old engine.old }
    ensures goes { Goes C.Cells (vertical_glue glue) result cells.new engine.new cells.old engine.old }
{
    lb_nest::put_vertical_glue(
        cells,
        &mut engine.desk.groups,
        &mut engine.desk.left,
        &mut engine.nest,
        &engine.desk.place,
        glue,
    )
}

/// The word under construction ends.
pub fn end_word<C: Cells>(cells: &C, engine: &mut Engine) -> Result<Went, NoMemory>
    requires holds { Holds C.Cells cells.now engine.old }
    ensures goes { Goes C.Cells word_ended result cells.now engine.new cells.now engine.old }
{
    let _ = cells;
    lb_nest::end_word(&mut engine.desk.left, &mut engine.nest)
}

/// The next paragraph has no indent.
pub fn plainnext<C: Cells>(cells: &C, engine: &mut Engine) -> Result<Went, NoMemory>
    requires holds { Holds C.Cells cells.now engine.old }
    ensures goes { Goes C.Cells plainnext result cells.now engine.new cells.now engine.old }
{
    let _ = cells;
    lb_nest::plainnext(&mut engine.nest)
}

/// A glue that stands last goes.
pub fn unskip<C: Cells>(cells: &C, engine: &mut Engine) -> Result<Went, NoMemory>
    requires holds { Holds C.Cells cells.now engine.old }
    ensures goes { Goes C.Cells unskip result cells.now engine.new cells.now engine.old }
{
    let _ = cells;
    lb_nest::unskip(&mut engine.nest)
}

/// A token is kept for behind the innermost group.
pub fn keep_after<C: Cells>(cells: &C, engine: &mut Engine, tok: Tok) -> Result<Went, NoMemory>
    requires holds { Holds C.Cells cells.now engine.old }
    ensures goes { Goes C.Cells (kept_after tok) result cells.now engine.new cells.now engine.old }
{
    let _ = cells;
    lb_nest::keep_after(&mut engine.nest, tok)
}

/// A list is opened in a group of its own.
pub fn open_list<C: Cells>(cells: &C, engine: &mut Engine, kind: ListKind) -> Result<Went, NoMemory>
    requires holds { Holds C.Cells cells.now engine.old }
    ensures goes { Goes C.Cells (list_opened kind) result cells.now engine.new cells.now engine.old }
{
    lb_nest::open_list(cells, &mut engine.desk.groups, &mut engine.nest, kind)
}

/// A discretionary is added, and its first part opened.
pub fn open_parts<C: Cells>(cells: &C, engine: &mut Engine) -> Result<Went, NoMemory>
    requires holds { Holds C.Cells cells.now engine.old }
    ensures goes { Goes C.Cells parts_opened result cells.now engine.new cells.now engine.old }
{
    lb_nest::open_parts(cells, &mut engine.desk.groups, &mut engine.nest)
}

/// A box of a mark is opened.
pub fn open_mark<C: Cells>(
    cells: &mut C,
    engine: &mut Engine,
    is_last: bool,
) -> Result<Went, NoMemory>
    requires holds { Holds C.Cells cells.old engine.old }
    ensures goes { Goes C.Cells (mark_opened is_last) result cells.new engine.new cells.old engine.old }
{
    lb_nest::open_mark(cells, &mut engine.desk.groups, &mut engine.nest, is_last)
}
