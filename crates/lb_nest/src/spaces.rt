//! Spaces of LaTeX (source2e, files ltspace and ltboxes). Lengths are in scaled points, 65536 to the point.
ghost use Rattle.std.specs.Prelude.{◌≡◌, ℕ, IfOk, OnOk};
ghost use Rattle.lb_model.specs.Settings.{Setting};
ghost use Rattle.lb_model_nest.specs.Items.{hspace_put, line_ended, material_behind, skip_of, unskip, vspace_put};
ghost use Rattle.lb_model_nest.specs.Pages.{all_added};
ghost use Rattle.lb_model_nest.specs.Paragraphs.{without_last_glue};
ghost use Rattle.lb_model_nest.specs.Wholes.{executed};
ghost use Rattle.lb_nest.specs.Leads.{Goes};
ghost use Rattle.lb_nest.specs.Spaces.{line_end, space_nodes};
ghost use Rattle.lb_nest.specs.Views.{Keeps};
ghost use Rattle.lb_nest.specs.Works.{Works};

use crate::adding::add_all;
use crate::finishing::drop_last_glue;
use crate::level::{is_page, is_paragraph};
use crate::nest::Nest;
use lb_base::{Glue, NoMemory, Node, NodeList, Order, RuleSize};
use lb_groups::Groups;
use lb_model::Cells;
use lb_model_nest::Went;
use lb_page::drop_last_glue as drop_last_glue_of_page;
use sqlite_items::Items;
use std::alloc::Global;

/// No page or line ends at a penalty of this size, and at one below 0 each does.
const INFINITE: i32 = 10_000;

/// A point.
const POINT: i32 = 65_536;

// Takes a glue away that stands last on the list of pages.
fn drop_from_page(nest: &mut Nest)
    ensures { nest.new ≡ record nest.old { page = without_last_glue nest.old.page } }
{
    drop_last_glue_of_page(&mut nest.page);
}

// Takes a glue away that stands last in the innermost list.
fn drop_from_list(nest: &mut Nest) -> Result<(), NoMemory>
    ensures dropped { OnOk result (nest.new ≡ record nest.old { level = record nest.old.level { nodes = without_last_glue nest.old.level.nodes } }) }
    ensures shelf { nest.new.shelf ≡ nest.old.shelf }
{
    drop_last_glue(&mut nest.level.nodes)
}

/// `\unskip`: a glue that stands last goes.
#[tactic(auto, unfolding(lb_model_nest::specs::Items::unskip))]
pub fn unskip(nest: &mut Nest) -> Result<Went, NoMemory>
    ensures works { (left : ℕ) → Works unskip executed result left nest.new left nest.old }
{
    if is_page(nest.level.kind) {
        drop_from_page(nest);
        return Ok(Went::On);
    }
    drop_from_list(nest)?;
    Ok(Went::On)
}

// Glue of a width that neither stretches nor shrinks.
fn skip_of(width: i32) -> Glue
    ensures { result ≡ skip_of width }
{
    Glue {
        width,
        stretch: 0,
        stretch_order: Order::Finite,
        shrink: 0,
        shrink_order: Order::Finite,
    }
}

// What comes behind a line: a star bars a page break there, and a dimension comes between the lines.
#[tactic(auto)]
fn add_material(nest: &mut Nest, starred: bool, skip: Option<i32>) -> Result<Went, NoMemory>
    ensures works { (left : ℕ) → Works (material_behind starred skip) executed result left nest.new left nest.old }
{
    if !starred && skip.is_none() {
        return Ok(Went::On);
    }
    let mut nodes = Items::new(nest.alloc);
    if starred {
        nodes.push(Node::Penalty(INFINITE))?;
    }
    if let Some(width) = skip {
        nodes.push(Node::Glue(skip_of(width)))?;
    }
    nest.push(Node::Adjust(nodes))?;
    Ok(Went::On)
}

// The end of a line: no break, glue that fills the line, and a forced break.
fn line_end(alloc: Global) -> Result<NodeList, NoMemory>
    ensures { IfOk result (λ nodes. nodes ≡ line_end) }
{
    let fil = Glue {
        width: 0,
        stretch: POINT,
        stretch_order: Order::Fil,
        shrink: 0,
        shrink_order: Order::Finite,
    };
    let mut nodes = Items::new(alloc);
    nodes.push(Node::Penalty(INFINITE))?;
    nodes.push(Node::Glue(fil))?;
    nodes.push(Node::Penalty(-INFINITE))?;
    Ok(nodes)
}

// Ends a line.
fn add_line_end<C: Cells>(
    cells: &mut C,
    groups: &mut Groups,
    left: &mut u64,
    nest: &mut Nest,
) -> Result<Went, NoMemory>
    requires keeps { (p : Setting) → C.agrees cells.old p → Keeps p (C.meaning cells.old p) groups.old nest.old }
    ensures goes { Goes C.Cells (all_added line_end) result cells.new groups.new left.new nest.new cells.old groups.old left.old nest.old }
{
    let nodes = line_end(nest.alloc)?;
    add_all(cells, groups, left, nest, nodes)
}

/// `\\`: a line ends. A star bars a page break behind it, and a dimension comes between the lines.
#[tactic(auto, unfolding(lb_model_nest::specs::Items::line_ended))]
pub fn end_line<C: Cells>(
    cells: &mut C,
    groups: &mut Groups,
    left: &mut u64,
    nest: &mut Nest,
    starred: bool,
    skip: Option<i32>,
) -> Result<Went, NoMemory>
    requires keeps { (p : Setting) → C.agrees cells.old p → Keeps p (C.meaning cells.old p) groups.old nest.old }
    ensures goes { Goes C.Cells (line_ended starred skip) result cells.new groups.new left.new nest.new cells.old groups.old left.old nest.old }
{
    unskip(nest)?;
    match add_material(nest, starred, skip)? {
        Went::On => add_line_end(cells, groups, left, nest),
        went => Ok(went),
    }
}

// Glue, which with a star stands behind an empty rule and no break, so that it does not vanish at a break.
fn space_nodes(
    alloc: Global,
    starred: bool,
    rule: RuleSize,
    glue: Glue,
) -> Result<NodeList, NoMemory>
    ensures { IfOk result (λ nodes. nodes ≡ space_nodes starred rule glue) }
{
    let mut nodes = Items::new(alloc);
    if !starred {
        nodes.push(Node::Glue(glue))?;
        return Ok(nodes);
    }
    nodes.push(Node::Rule(rule))?;
    nodes.push(Node::Penalty(INFINITE))?;
    nodes.push(Node::Glue(glue))?;
    nodes.push(Node::Glue(skip_of(0)))?;
    Ok(nodes)
}

/// `\hspace`: with a star it stays at the beginning of a line.
#[tactic(auto, unfolding(lb_model_nest::specs::Items::hspace_put))]
pub fn put_hspace<C: Cells>(
    cells: &mut C,
    groups: &mut Groups,
    left: &mut u64,
    nest: &mut Nest,
    starred: bool,
    glue: Glue,
) -> Result<Went, NoMemory>
    requires keeps { (p : Setting) → C.agrees cells.old p → Keeps p (C.meaning cells.old p) groups.old nest.old }
    ensures goes { Goes C.Cells (hspace_put starred glue) result cells.new groups.new left.new nest.new cells.old groups.old left.old nest.old }
{
    let rule = RuleSize {
        width: Some(0),
        height: None,
        depth: None,
    };
    let nodes = space_nodes(nest.alloc, starred, rule, glue)?;
    add_all(cells, groups, left, nest, nodes)
}

/// `\vspace`: with a star it stays at the top of a page; in a paragraph it comes behind the line.
#[tactic(auto, unfolding(lb_model_nest::specs::Items::vspace_put))]
pub fn put_vspace<C: Cells>(
    cells: &mut C,
    groups: &mut Groups,
    left: &mut u64,
    nest: &mut Nest,
    starred: bool,
    glue: Glue,
) -> Result<Went, NoMemory>
    requires keeps { (p : Setting) → C.agrees cells.old p → Keeps p (C.meaning cells.old p) groups.old nest.old }
    ensures goes { Goes C.Cells (vspace_put starred glue) result cells.new groups.new left.new nest.new cells.old groups.old left.old nest.old }
{
    let rule = RuleSize {
        width: None,
        height: Some(0),
        depth: Some(0),
    };
    let nodes = space_nodes(nest.alloc, starred, rule, glue)?;
    if is_paragraph(nest.level.kind) {
        nest.push(Node::Adjust(nodes))?;
        return Ok(Went::On);
    }
    add_all(cells, groups, left, nest, nodes)
}
