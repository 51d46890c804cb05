//! Pages that end, and the list of pages (TeXbook, chapter 15; tex.web, part 45).
ghost use Rattle.std.specs.Prelude.{◌<◌, ℕ, IfOk, length};
ghost use Rattle.lb_model.specs.Settings.{Setting};
ghost use Rattle.lb_model_paper.specs.declared.pages.PagePart.{PagePart as APart};
ghost use Rattle.lb_model_nest.specs.Pages.{page_added, page_cells, page_cleared, page_rules, parts_shipped};
ghost use Rattle.lb_model_nest.specs.Wholes.{Executed, Whole};
ghost use Rattle.lb_nest.specs.Leads.{Goes, Looks};
ghost use Rattle.lb_nest.specs.Pages.{OnPart, behind_part, page_ended, pages_ended, rest_shipped};
ghost use Rattle.lb_nest.specs.Views.{Keeps};
ghost use Rattle.lb_nest.specs.Works.{Works};

use crate::nest::Nest;
use crate::ship::ship;
use crate::stack::Stack;
use crate::stops::stopped;
use lb_base::{Kind, NoMemory, Node, Stop};
use lb_groups::{Groups, looks};
use lb_model::Cells;
use lb_model_nest::Went;
use lb_page::{PagePart, PageRules, contribute, flush, next_page};
use lb_rows::Parameter;
use lb_values::Cell;
use std::alloc::AllocError;

/// A page that ends, none, or why none can be told.
#[derive(Drop)]
enum Taken {
    Part(PagePart),
    Nothing,
    Stops(Kind),
}

// The rules by which the pages end now.
fn page_rules<C: Cells>(cells: &mut C, groups: &Groups) -> Result<PageRules, NoMemory>
    ensures looks { Looks C.Cells groups.now page_cells page_rules result cells.new cells.old }
{
    let textheight = looks::dimension(cells, groups, Cell::Par(Parameter::TextHeight))?;
    let topskip = looks::glue(cells, groups, Cell::Par(Parameter::TopSkip))?;
    let maxdepth = looks::dimension(cells, groups, Cell::Par(Parameter::MaxDepth))?;
    Ok(PageRules {
        textheight,
        topskip,
        maxdepth,
    })
}

// The page that ends, which the list then loses.
fn take_page(nest: &mut Nest, rules: &PageRules) -> Result<Taken, NoMemory>
    ensures works { (row : APart → Whole → Executed) (left : ℕ)
        → Works (page_ended rules.now row) (behind_part row) result left nest.new left nest.old }
    ensures shorter { IfOk result (λ taken. OnPart taken (length nest.new.page < length nest.old.page)) }
{
    match next_page(&mut nest.page, rules) {
        Ok(Some(part)) => Ok(Taken::Part(part)),
        Ok(None) => Ok(Taken::Nothing),
        Err(Stop::Fault(kind)) => Ok(Taken::Stops(kind)),
        Err(_) => Err(AllocError),
    }
}

// Ships the pages that end, each of which takes a node at least.
fn ship_ended<C: Cells>(
    cells: &mut C,
    groups: &mut Groups,
    left: &mut u64,
    nest: &mut Nest,
    rules: &PageRules,
) -> Result<Went, NoMemory>
    requires keeps { (p : Setting) → C.agrees cells.old p → Keeps p (C.meaning cells.old p) groups.old nest.old }
    ensures goes { Goes C.Cells (pages_ended rules.now) result cells.new groups.new left.new nest.new cells.old groups.old left.old nest.old }
{
    'pages: loop {
        match take_page(nest, rules)? {
            Taken::Part(part) => {
                let went = ship(cells, groups, left, nest, part)?;
                match went {
                    Went::On => {}
                    went => return Ok(went),
                }
            }
            Taken::Nothing => return Ok(Went::On),
            Taken::Stops(kind) => return Ok(Went::Stopped(kind)),
        }
    }
}

/// Adds a node to the list of pages, and ships what ends. A node at which no page ends is only put behind the list.
pub fn add_to_page<C: Cells>(
    cells: &mut C,
    groups: &mut Groups,
    left: &mut u64,
    nest: &mut Nest,
    node: Node,
) -> Result<Went, NoMemory>
    requires keeps { (p : Setting) → C.agrees cells.old p → Keeps p (C.meaning cells.old p) groups.old nest.old }
    ensures goes { Goes C.Cells (page_added node) result cells.new groups.new left.new nest.new cells.old groups.old left.old nest.old }
{
    let rules = page_rules(cells, groups)?;
    contribute(&mut nest.page, node)?;
    ship_ended(cells, groups, left, nest, &rules)
}

// Ships pages, one after another.
fn ship_parts<C: Cells>(
    cells: &mut C,
    groups: &mut Groups,
    left: &mut u64,
    nest: &mut Nest,
    parts: Stack<PagePart>,
) -> Result<Went, NoMemory>
    requires keeps { (p : Setting) → C.agrees cells.old p → Keeps p (C.meaning cells.old p) groups.old nest.old }
    ensures goes { Goes C.Cells (parts_shipped parts) result cells.new groups.new left.new nest.new cells.old groups.old left.old nest.old }
{
    let mut parts = parts;
    'parts: while let Some(part) = parts.pop() {
        let went = ship(cells, groups, left, nest, part)?;
        match went {
            Went::On => {}
            went => return Ok(went),
        }
    }
    Ok(Went::On)
}

// Ships all that is left of the list of pages.
fn ship_rest<C: Cells>(
    cells: &mut C,
    groups: &mut Groups,
    left: &mut u64,
    nest: &mut Nest,
    rules: &PageRules,
) -> Result<Went, NoMemory>
    requires keeps { (p : Setting) → C.agrees cells.old p → Keeps p (C.meaning cells.old p) groups.old nest.old }
    ensures goes { Goes C.Cells (rest_shipped rules.now) result cells.new groups.new left.new nest.new cells.old groups.old left.old nest.old }
{
    match flush(&mut nest.page, rules) {
        Ok(parts) => ship_parts(cells, groups, left, nest, Stack::of(parts.into_vec())),
        Err(stop) => stopped(stop),
    }
}

/// Clears the page: all of the list of pages is shipped, as at `\clearpage`.
pub fn clear_page<C: Cells>(
    cells: &mut C,
    groups: &mut Groups,
    left: &mut u64,
    nest: &mut Nest,
) -> Result<Went, NoMemory>
    requires keeps { (p : Setting) → C.agrees cells.old p → Keeps p (C.meaning cells.old p) groups.old nest.old }
    ensures goes { Goes C.Cells page_cleared result cells.new groups.new left.new nest.new cells.old groups.old left.old nest.old }
{
    let rules = page_rules(cells, groups)?;
    ship_rest(cells, groups, left, nest, &rules)
}
