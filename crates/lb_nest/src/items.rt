//! What is added to lists, and rows on paragraphs (TeXbook, chapters 24 and 25; tex.web, part 47). Lengths are in scaled points, 65536 to
//! the point.
ghost use Rattle.std.specs.Prelude.{ℕ};
ghost use Rattle.lb_base.specs.declared.node.KernOrigin.TheVariants.{Explicit};
ghost use Rattle.lb_base.specs.declared.node.Node as node;
ghost use Rattle.lb_model.specs.Settings.{Setting};
ghost use Rattle.lb_model_nest.specs.Items.{glue_added, horizontal_glue, indent, indent_added, leavevmode, noindent, par, plainnext, rule_added, vertical_glue};
ghost use Rattle.lb_model_nest.specs.Pages.{added};
ghost use Rattle.lb_model_nest.specs.Wholes.{executed};
ghost use Rattle.lb_nest.specs.Leads.{Goes, GoesAt};
ghost use Rattle.lb_nest.specs.Views.{Keeps};
ghost use Rattle.lb_nest.specs.Works.{Works};

use crate::adding::add_node;
use crate::level::{NO_DEPTH, is_paragraph, is_restricted};
use crate::nest::Nest;
use crate::paragraph_end::end_paragraph;
use crate::paragraphs::{begin_in_vertical, indent_box, read_beginning};
use lb_base::{Glue, KernOrigin, Kind, NoMemory, Node, RuleSize};
use lb_groups::Groups;
use lb_model::{Cells, Place};
use lb_model_nest::Went;

/// Adds a kern, which is no font kern.
pub fn add_kern<C: Cells>(
    cells: &mut C,
    groups: &mut Groups,
    left: &mut u64,
    nest: &mut Nest,
    width: i32,
) -> Result<Went, NoMemory>
    requires keeps { (p : Setting) → C.agrees cells.old p → Keeps p (C.meaning cells.old p) groups.old nest.old }
    ensures goes { Goes C.Cells (added (node.Kern width Explicit)) result cells.new groups.new left.new nest.new cells.old groups.old left.old nest.old }
{
    let origin = KernOrigin::Explicit;
    add_node(cells, groups, left, nest, Node::Kern { width, origin })
}

/// Adds a penalty.
pub fn add_penalty<C: Cells>(
    cells: &mut C,
    groups: &mut Groups,
    left: &mut u64,
    nest: &mut Nest,
    penalty: i32,
) -> Result<Went, NoMemory>
    requires keeps { (p : Setting) → C.agrees cells.old p → Keeps p (C.meaning cells.old p) groups.old nest.old }
    ensures goes { Goes C.Cells (added (node.Penalty penalty)) result cells.new groups.new left.new nest.new cells.old groups.old left.old nest.old }
{
    add_node(cells, groups, left, nest, Node::Penalty(penalty))
}

/// Adds glue.
pub fn add_glue<C: Cells>(
    cells: &mut C,
    groups: &mut Groups,
    left: &mut u64,
    nest: &mut Nest,
    glue: Glue,
) -> Result<Went, NoMemory>
    requires keeps { (p : Setting) → C.agrees cells.old p → Keeps p (C.meaning cells.old p) groups.old nest.old }
    ensures goes { Goes C.Cells (glue_added glue) result cells.new groups.new left.new nest.new cells.old groups.old left.old nest.old }
{
    add_node(cells, groups, left, nest, Node::Glue(glue))
}

/// Adds a rule to a vertical list. No glue comes between it and the next box.
#[tactic(auto, unfolding(lb_model_nest::specs::Items::rule_added))]
pub fn add_rule<C: Cells>(
    cells: &mut C,
    groups: &mut Groups,
    left: &mut u64,
    nest: &mut Nest,
    size: RuleSize,
) -> Result<Went, NoMemory>
    requires keeps { (p : Setting) → C.agrees cells.old p → Keeps p (C.meaning cells.old p) groups.old nest.old }
    ensures goes { Goes C.Cells (rule_added size) result cells.new groups.new left.new nest.new cells.old groups.old left.old nest.old }
{
    nest.level.prev_depth = NO_DEPTH;
    add_node(cells, groups, left, nest, Node::Rule(size))
}

/// Glue in a horizontal list: in a vertical one a paragraph begins before.
#[tactic(auto, unfolding(lb_model_nest::specs::Items::horizontal_glue))]
pub fn put_horizontal_glue<C: Cells>(
    cells: &mut C,
    groups: &mut Groups,
    left: &mut u64,
    nest: &mut Nest,
    glue: Glue,
) -> Result<Went, NoMemory>
    requires keeps { (p : Setting) → C.agrees cells.old p → Keeps p (C.meaning cells.old p) groups.old nest.old }
    ensures goes { Goes C.Cells (horizontal_glue glue) result cells.new groups.new left.new nest.new cells.old groups.old left.old nest.old }
{
    match begin_in_vertical(cells, groups, left, nest, true)? {
        Went::On => add_glue(cells, groups, left, nest, glue),
        went => Ok(went),
    }
}

/// Glue in a vertical list: a paragraph ends before. `WrongMode` inside a horizontal box.
#[tactic(auto, unfolding(lb_model_nest::specs::Items::vertical_glue))]
pub fn put_vertical_glue<C: Cells>(
    cells: &mut C,
    groups: &mut Groups,
    left: &mut u64,
    nest: &mut Nest,
    place: &Option<Place>,
    glue: Glue,
) -> Result<Went, NoMemory>
    requires keeps { (p : Setting) → C.agrees cells.old p → Keeps p (C.meaning cells.old p) groups.old nest.old }
    ensures goes { GoesAt C.Cells place.now (vertical_glue glue) result cells.new groups.new left.new nest.new cells.old groups.old left.old nest.old }
{
    if is_restricted(nest.level.kind) {
        return Ok(Went::Stopped(Kind::WrongMode));
    }
    match end_paragraph(cells, groups, left, nest, place)? {
        Went::On => add_glue(cells, groups, left, nest, glue),
        went => Ok(went),
    }
}

/// `\par`.
#[tactic(auto, unfolding(lb_model_nest::specs::Items::par))]
pub fn par<C: Cells>(
    cells: &mut C,
    groups: &mut Groups,
    left: &mut u64,
    nest: &mut Nest,
    place: &Option<Place>,
) -> Result<Went, NoMemory>
    requires keeps { (p : Setting) → C.agrees cells.old p → Keeps p (C.meaning cells.old p) groups.old nest.old }
    ensures goes { GoesAt C.Cells place.now par result cells.new groups.new left.new nest.new cells.old groups.old left.old nest.old }
{
    end_paragraph(cells, groups, left, nest, place)
}

// The empty box of an indent, in a paragraph.
fn add_indent<C: Cells>(cells: &mut C, groups: &Groups, nest: &mut Nest) -> Result<Went, NoMemory>
    requires keeps { (p : Setting) → C.agrees cells.old p → Keeps p (C.meaning cells.old p) groups.now nest.old }
    ensures goes { (left : ℕ) → Goes C.Cells indent_added result cells.new groups.now left nest.new cells.old groups.now left nest.old }
{
    let lengths = read_beginning(cells, groups)?;
    let node = indent_box(nest.alloc, lengths.indent)?;
    nest.push(node)?;
    Ok(Went::On)
}

/// `\indent`: a paragraph begins with an indent, and in one it is an empty box.
#[tactic(auto, unfolding(lb_model_nest::specs::Items::indent))]
pub fn indent<C: Cells>(
    cells: &mut C,
    groups: &mut Groups,
    left: &mut u64,
    nest: &mut Nest,
) -> Result<Went, NoMemory>
    requires keeps { (p : Setting) → C.agrees cells.old p → Keeps p (C.meaning cells.old p) groups.old nest.old }
    ensures goes { Goes C.Cells indent result cells.new groups.new left.new nest.new cells.old groups.old left.old nest.old }
{
    if is_paragraph(nest.level.kind) {
        return add_indent(cells, groups, nest);
    }
    begin_in_vertical(cells, groups, left, nest, true)
}

/// `\noindent`: a paragraph begins without an indent.
#[tactic(auto, unfolding(lb_model_nest::specs::Items::noindent))]
pub fn noindent<C: Cells>(
    cells: &mut C,
    groups: &mut Groups,
    left: &mut u64,
    nest: &mut Nest,
) -> Result<Went, NoMemory>
    requires keeps { (p : Setting) → C.agrees cells.old p → Keeps p (C.meaning cells.old p) groups.old nest.old }
    ensures goes { Goes C.Cells noindent result cells.new groups.new left.new nest.new cells.old groups.old left.old nest.old }
{
    begin_in_vertical(cells, groups, left, nest, false)
}

/// `\leavevmode`: a paragraph begins.
#[tactic(auto, unfolding(lb_model_nest::specs::Items::leavevmode))]
pub fn leavevmode<C: Cells>(
    cells: &mut C,
    groups: &mut Groups,
    left: &mut u64,
    nest: &mut Nest,
) -> Result<Went, NoMemory>
    requires keeps { (p : Setting) → C.agrees cells.old p → Keeps p (C.meaning cells.old p) groups.old nest.old }
    ensures goes { Goes C.Cells leavevmode result cells.new groups.new left.new nest.new cells.old groups.old left.old nest.old }
{
    begin_in_vertical(cells, groups, left, nest, true)
}

/// `\@plainnext`: the next paragraph has no indent.
#[tactic(auto, unfolding(lb_model_nest::specs::Items::plainnext))]
pub fn plainnext(nest: &mut Nest) -> Result<Went, NoMemory>
    ensures works { (left : ℕ) → Works plainnext executed result left nest.new left nest.old }
{
    nest.plain_next = true;
    Ok(Went::On)
}
