//! The beginning of paragraphs (TeXbook, chapter 14; tex.web, part 47). Lengths are in scaled points, 65536 to the point.
ghost use Rattle.std.specs.Prelude.{◌≡◌, ◌&&◌, ℕ, IfOk, not};
ghost use Rattle.lb_model.specs.Settings.{Setting};
ghost use Rattle.lb_model_paper.specs.Breaks.{is_empty_list};
ghost use Rattle.lb_model_nest.specs.Pages.{is_page};
ghost use Rattle.lb_model_nest.specs.Paragraphs.{begin_cells, begun_in_vertical, indent_box, paragraph_begun, skip_added};
ghost use Rattle.lb_model_nest.specs.Wholes.{executed};
ghost use Rattle.lb_nest.specs.Leads.{Goes, Looks};
ghost use Rattle.lb_nest.specs.Paragraphs.{beginning, opening};
ghost use Rattle.lb_nest.specs.Views.{Keeps};
ghost use Rattle.lb_nest.specs.Works.{Works};

use crate::adding::add_node;
use crate::level::{OpenList, is_page, is_vertical};
use crate::nest::{Nest, enter};
use lb_base::{Axis, Boxed, Glue, GlueSet, NoMemory, Node, Order};
use lb_groups::{Groups, looks};
use lb_model::Cells;
use lb_model_nest::{ListKind, Went};
use lb_rows::Parameter;
use lb_values::Cell;
use sqlite_items::{Boxed as Held, Items};
use std::alloc::Global;

/// The glue before a paragraph, and the width of its indent.
#[derive(Clone, Copy)]
pub(crate) struct Beginning {
    pub skip: Glue,
    pub indent: i32,
}

// The parameters of the beginning.
pub(crate) fn read_beginning<C: Cells>(
    cells: &mut C,
    groups: &Groups,
) -> Result<Beginning, NoMemory>
    ensures looks { Looks C.Cells groups.now begin_cells beginning result cells.new cells.old }
{
    let skip = looks::glue(cells, groups, Cell::Par(Parameter::ParSkip))?;
    let indent = looks::dimension(cells, groups, Cell::Par(Parameter::ParIndent))?;
    Ok(Beginning { skip, indent })
}

/// An empty box of a width.
pub(crate) fn indent_box(alloc: Global, width: i32) -> Result<Node, NoMemory>
    ensures { IfOk result (λ node. node ≡ indent_box width) }
{
    let boxed = Boxed {
        axis: Axis::Horizontal,
        items: Items::new(alloc),
        width,
        height: 0,
        depth: 0,
        shift: 0,
        glue_set: GlueSet {
            excess: width,
            order: Order::Finite,
        },
    };
    Ok(Node::Boxed(Held::new(alloc, boxed)?))
}

// Whether a list is an inner one without nodes.
fn is_empty_inner(list: &OpenList) -> bool
    ensures { result ≡ not (is_page list.now.kind) && is_empty_list list.now.nodes }
{
    !is_page(list.kind) && list.nodes.is_empty()
}

// Puts the glue before a paragraph. None goes into an inner list that is empty.
fn add_skip<C: Cells>(
    cells: &mut C,
    groups: &mut Groups,
    left: &mut u64,
    nest: &mut Nest,
    skip: Glue,
) -> Result<Went, NoMemory>
    requires keeps { (p : Setting) → C.agrees cells.old p → Keeps p (C.meaning cells.old p) groups.old nest.old }
    ensures goes { Goes C.Cells (skip_added skip) result cells.new groups.new left.new nest.new cells.old groups.old left.old nest.old }
{
    if is_empty_inner(&nest.level) {
        return Ok(Went::On);
    }
    add_node(cells, groups, left, nest, Node::Glue(skip))
}

// Whether a paragraph has an indent: where one is wanted, and the next paragraph is to have one.
fn is_indented(nest: &Nest, indent: bool) -> bool
    ensures { result ≡ indent && not nest.now.plain_next }
{
    indent && !nest.plain_next
}

// Opens the list of a paragraph, with an indent where one is wanted and the next paragraph is to have one.
fn open_paragraph(nest: &mut Nest, indent: bool, lengths: Beginning) -> Result<Went, NoMemory>
    ensures works { (left : ℕ) → Works (opening indent lengths.indent) executed result left nest.new left nest.old }
{
    let indents = is_indented(nest, indent);
    nest.plain_next = false;
    enter(nest, ListKind::Paragraph)?;
    if !indents {
        return Ok(Went::On);
    }
    let node = indent_box(nest.alloc, lengths.indent)?;
    nest.push(node)?;
    Ok(Went::On)
}

/// Begins a paragraph inside the innermost list, with an indent unless none is to come.
#[tactic(auto, unfolding(lb_model_nest::specs::Paragraphs::paragraph_begun))]
pub fn begin_paragraph<C: Cells>(
    cells: &mut C,
    groups: &mut Groups,
    left: &mut u64,
    nest: &mut Nest,
    indent: bool,
) -> Result<Went, NoMemory>
    requires keeps { (p : Setting) → C.agrees cells.old p → Keeps p (C.meaning cells.old p) groups.old nest.old }
    ensures goes { Goes C.Cells (paragraph_begun indent) result cells.new groups.new left.new nest.new cells.old groups.old left.old nest.old }
{
    let lengths = read_beginning(cells, groups)?;
    match add_skip(cells, groups, left, nest, lengths.skip)? {
        Went::On => open_paragraph(nest, indent, lengths),
        went => Ok(went),
    }
}

/// Begins a paragraph, where the innermost list is a vertical one.
#[tactic(auto, unfolding(lb_model_nest::specs::Paragraphs::begun_in_vertical))]
pub fn begin_in_vertical<C: Cells>(
    cells: &mut C,
    groups: &mut Groups,
    left: &mut u64,
    nest: &mut Nest,
    indent: bool,
) -> Result<Went, NoMemory>
    requires keeps { (p : Setting) → C.agrees cells.old p → Keeps p (C.meaning cells.old p) groups.old nest.old }
    ensures goes { Goes C.Cells (begun_in_vertical indent) result cells.new groups.new left.new nest.new cells.old groups.old left.old nest.old }
{
    if !is_vertical(nest.level.kind) {
        return Ok(Went::On);
    }
    begin_paragraph(cells, groups, left, nest, indent)
}
