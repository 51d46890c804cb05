//! What is added to the lists of an engine (TeXbook, chapters 12 and 24). Lengths are in scaled points.
ghost use Rattle.lb_base.specs.declared.node.KernOrigin.TheVariants.{Explicit};
ghost use Rattle.lb_base.specs.declared.node.Node as node;
ghost use Rattle.lb_model_nest.specs.Boxes.{box_placed, void_placed};
ghost use Rattle.lb_model_nest.specs.Items.{discretionary_hyphen, glue_added, horizontal_glue, hspace_put, italic_correction, line_ended, rule_added, vspace_put};
ghost use Rattle.lb_model_nest.specs.Pages.{added};
ghost use Rattle.lb_model_nest.specs.Words.{character, character_put, control_space, space};
ghost use Rattle.lb_engine.specs.Leads.{Goes, Holds};

use crate::engine::Engine;
use lb_base::{Boxed, Glue, NoMemory, Node, RuleSize};
use lb_model::Cells;
use lb_model_nest::{BoxContext, Went};

/// A character: it begins a paragraph in a vertical list.
pub fn character<C: Cells>(cells: &mut C, engine: &mut Engine, code: u8) -> Result<Went, NoMemory>
    requires holds { Holds C.Cells cells.old engine.old }
    ensures goes { Goes C.Cells (character code) result cells.new engine.new cells.old engine.old }
{
    lb_nest::character(
        cells,
        &mut engine.desk.groups,
        &mut engine.desk.left,
        &mut engine.nest,
        code,
    )
}

/// A character behind the word under construction.
pub fn put_character<C: Cells>(
    cells: &mut C,
    engine: &mut Engine,
    code: u8,
) -> Result<Went, NoMemory>
    requires holds { Holds C.Cells cells.old engine.old }
    ensures goes { Goes C.Cells (character_put code) result cells.new engine.new cells.old engine.old }
{
    lb_nest::put_character(cells, &engine.desk.groups, &mut engine.nest, code)
}

/// A space, which ends the word.
pub fn space<C: Cells>(cells: &mut C, engine: &mut Engine) -> Result<Went, NoMemory>
    requires holds { Holds C.Cells cells.old engine.old }
    ensures goes { Goes C.Cells space result cells.new engine.new cells.old engine.old }
{
    lb_nest::space(
        cells,
        &engine.desk.groups,
        &mut engine.desk.left,
        &mut engine.nest,
    )
}

/// A space of factor 1000, which begins a paragraph in a vertical list.
pub fn control_space<C: Cells>(cells: &mut C, engine: &mut Engine) -> Result<Went, NoMemory>
    requires holds { Holds C.Cells cells.old engine.old }
    ensures goes { Goes C.Cells control_space result cells.new engine.new cells.old engine.old }
{
    lb_nest::control_space(
        cells,
        &mut engine.desk.groups,
        &mut engine.desk.left,
        &mut engine.nest,
    )
}

/// A node behind those of the innermost list.
pub fn add_node<C: Cells>(cells: &mut C, engine: &mut Engine, node: Node) -> Result<Went, NoMemory>
    requires holds { Holds C.Cells cells.old engine.old }
    ensures goes { Goes C.Cells (added node) result cells.new engine.new cells.old engine.old }
{
    lb_nest::add_node(
        cells,
        &mut engine.desk.groups,
        &mut engine.desk.left,
        &mut engine.nest,
        node,
    )
}

/// A kern of a width in scaled points.
pub fn add_kern<C: Cells>(cells: &mut C, engine: &mut Engine, width: i32) -> Result<Went, NoMemory>
    requires holds { Holds C.Cells cells.old engine.old }
    ensures goes { Goes C.Cells (added (node.Kern width Explicit)) result cells.new engine.new cells.old engine.old }
{
    lb_nest::add_kern(
        cells,
        &mut engine.desk.groups,
        &mut engine.desk.left,
        &mut engine.nest,
        width,
    )
}

/// A penalty.
pub fn add_penalty<C: Cells>(
    cells: &mut C,
    engine: &mut Engine,
    penalty: i32,
) -> Result<Went, NoMemory>
    requires holds { Holds C.Cells cells.old engine.old }
    ensures goes { Goes C.Cells (added (node.Penalty penalty)) result cells.new engine.new cells.old engine.old }
{
    lb_nest::add_penalty(
        cells,
        &mut engine.desk.groups,
        &mut engine.desk.left,
        &mut engine.nest,
        penalty,
    )
}

/// Glue.
pub fn add_glue<C: Cells>(cells: &mut C, engine: &mut Engine, glue: Glue) -> Result<Went, NoMemory>
    requires holds { Holds C.Cells cells.old engine.old }
    ensures goes { Goes C.Cells (glue_added glue) result cells.new engine.new cells.old engine.old }
{
    lb_nest::add_glue(
        cells,
        &mut engine.desk.groups,
        &mut engine.desk.left,
        &mut engine.nest,
        glue,
    )
}

/// A rule in a vertical list.
pub fn add_rule<C: Cells>(
    cells: &mut C,
    engine: &mut Engine,
    size: RuleSize,
) -> Result<Went, NoMemory>
    requires holds { Holds C.Cells cells.old engine.old }
    ensures goes { Goes C.Cells (rule_added size) result cells.new engine.new cells.old engine.old }
{
    lb_nest::add_rule(
        cells,
        &mut engine.desk.groups,
        &mut engine.desk.left,
        &mut engine.nest,
        size,
    )
}

/// Glue in a horizontal list: it begins a paragraph in a vertical one.
pub fn put_horizontal_glue<C: Cells>(
    cells: &mut C,
    engine: &mut Engine,
    glue: Glue,
) -> Result<Went, NoMemory>
    requires holds { Holds C.Cells cells.old engine.old }
    ensures goes { Goes C.Cells (horizontal_glue glue) result cells.new engine.new cells.old engine.old }
{
    lb_nest::put_horizontal_glue(
        cells,
        &mut engine.desk.groups,
        &mut engine.desk.left,
        &mut engine.nest,
        glue,
    )
}

/// The glue of `\hspace`.
pub fn put_hspace<C: Cells>(
    cells: &mut C,
    engine: &mut Engine,
    starred: bool,
    glue: Glue,
) -> Result<Went, NoMemory>
    requires holds { Holds C.Cells cells.old engine.old }
    ensures goes { Goes C.Cells (hspace_put starred glue) result cells.new engine.new cells.old engine.old }
{
    lb_nest::put_hspace(
        cells,
        &mut engine.desk.groups,
        &mut engine.desk.left,
        &mut engine.nest,
        starred,
        glue,
    )
}

/// The glue of `\vspace`.
pub fn put_vspace<C: Cells>(
    cells: &mut C,
    engine: &mut Engine,
    starred: bool,
    glue: Glue,
) -> Result<Went, NoMemory>
    requires holds { Holds C.Cells cells.old engine.old }
    ensures goes { Goes C.Cells (vspace_put starred glue) result cells.new engine.new cells.old engine.old }
{
    lb_nest::put_vspace(
        cells,
        &mut engine.desk.groups,
        &mut engine.desk.left,
        &mut engine.nest,
        starred,
        glue,
    )
}

/// The end of a line as `\\` has it, with a dimension between the lines in scaled points.
pub fn end_line<C: Cells>(
    cells: &mut C,
    engine: &mut Engine,
    starred: bool,
    skip: Option<i32>,
) -> Result<Went, NoMemory>
    requires holds { Holds C.Cells cells.old engine.old }
    ensures goes { Goes C.Cells (line_ended starred skip) result cells.new engine.new cells.old engine.old }
{
    lb_nest::end_line(
        cells,
        &mut engine.desk.groups,
        &mut engine.desk.left,
        &mut engine.nest,
        starred,
        skip,
    )
}

/// The italic correction behind the last character.
pub fn italic_correction<C: Cells>(cells: &mut C, engine: &mut Engine) -> Result<Went, NoMemory>
    requires holds { Holds C.Cells cells.old engine.old }
    ensures goes { Goes C.Cells italic_correction result cells.new engine.new cells.old engine.old }
{
    lb_nest::italic_correction(
        cells,
        &mut engine.desk.groups,
        &mut engine.desk.left,
        &mut engine.nest,
    )
}

/// A place where a word may be broken with a hyphen.
pub fn discretionary_hyphen<C: Cells>(cells: &mut C, engine: &mut Engine) -> Result<Went, NoMemory>
    requires holds { Holds C.Cells cells.old engine.old }
    ensures goes { Goes C.Cells discretionary_hyphen result cells.new engine.new cells.old engine.old }
{
    lb_nest::discretionary_hyphen(
        cells,
        &mut engine.desk.groups,
        &mut engine.desk.left,
        &mut engine.nest,
    )
}

/// A box goes where it is to go.
pub fn place_box<C: Cells>(
    cells: &mut C,
    engine: &mut Engine,
    context: BoxContext,
    boxed: Boxed,
) -> Result<Went, NoMemory>
    requires holds { Holds C.Cells cells.old engine.old }
    ensures goes { Goes C.Cells (box_placed context boxed) result cells.new engine.new cells.old engine.old }
{
    lb_nest::place_box(
        cells,
        &mut engine.desk.groups,
        &mut engine.desk.left,
        &mut engine.nest,
        context,
        boxed,
    )
}

/// No box goes there.
pub fn place_void<C: Cells>(
    cells: &mut C,
    engine: &mut Engine,
    context: BoxContext,
) -> Result<Went, NoMemory>
    requires holds { Holds C.Cells cells.old engine.old }
    ensures goes { Goes C.Cells (void_placed context) result cells.new engine.new cells.old engine.old }
{
    lb_nest::place_void(cells, &mut engine.desk.groups, &engine.nest, context)
}
