//! What the cells tell of how a page looks: its number, its style, its lengths and its marks (source2e, file ltpage). Lengths are in scaled
//! points, 65536 to the point.
ghost use Rattle.std.specs.Prelude.{◌≡◌, IfOk, option_copied};
ghost use Rattle.std.specs.Option.{option_or};
ghost use Rattle.lb_groups.specs.Open.{TellsIn};
ghost use Rattle.lb_values.specs.declared.cell.Cell.TheVariants.{Par};
ghost use Rattle.lb_model.specs.Kinds.{dimension_of};
ghost use Rattle.lb_model_paper.specs.declared.pages.HeadFoot.TheVariants.{Head};
ghost use Rattle.lb_model_nest.specs.Pages.{head_foot, length_cells, mark_cells, page_counter, page_lengths};
ghost use Rattle.lb_nest.specs.Leads.{Looks};
ghost use Rattle.lb_nest.specs.Pages.{head_parts, last_marks, numbering, numbering_cells};

use lb_base::{Boxed, Name, NoMemory, Node};
use lb_groups::{Groups, looks};
use lb_model::Cells;
use lb_output::{HeadFoot, PageLengths, page_marks};
use lb_rows::Parameter;
use lb_values::{Cell, Form, PageStyle, Shared};
use std::alloc::Global;

/// The number of a page with the form in which it is shown, and which of head and foot the page has.
#[derive(Clone, Copy)]
pub(crate) struct Numbering {
    pub number: i32,
    pub form: Form,
    pub style: HeadFoot,
}

/// The marks that the head of an even page shows at its left, and that of an odd page at its right.
#[derive(Drop)]
pub(crate) struct HeadParts {
    pub left: Option<Boxed>,
    pub right: Option<Boxed>,
}

/// The last marks of a page, which the heads of later pages show where those have none.
#[derive(Drop)]
pub(crate) struct LastMarks {
    pub left: Option<Shared<Boxed>>,
    pub right: Option<Shared<Boxed>>,
}

/// The cell of the counter of pages.
pub(crate) fn page_counter(alloc: Global) -> Result<Cell, NoMemory>
    ensures { IfOk result (λ cell. cell ≡ page_counter) }
{
    Ok(Cell::Counter(Name::from_slice(alloc, b"page")?))
}

fn head_foot(style: PageStyle) -> HeadFoot
    ensures { result ≡ head_foot style }
{
    match style {
        PageStyle::Empty => HeadFoot::Neither,
        PageStyle::Plain => HeadFoot::Foot,
        PageStyle::Headings => HeadFoot::Head,
        PageStyle::MyHeadings => HeadFoot::Head,
    }
}

/// How the present page is numbered.
pub(crate) fn numbering_now<C: Cells>(
    alloc: Global,
    cells: &mut C,
    groups: &Groups,
) -> Result<Numbering, NoMemory>
    ensures looks { Looks C.Cells groups.now numbering_cells numbering result cells.new cells.old }
{
    let number = looks::number(cells, groups, page_counter(alloc)?)?;
    let form = looks::form(cells, groups, Cell::PageForm)?;
    let of_all = looks::page_style(cells, groups, Cell::PageStyle)?;
    let own = looks::page_style(cells, groups, Cell::ThisStyle)?;
    let style = own.or(of_all).unwrap_or(PageStyle::Plain);
    Ok(Numbering {
        number,
        form: form.unwrap_or(Form::Arabic),
        style: head_foot(style),
    })
}

fn length<C: Cells>(cells: &mut C, groups: &Groups, parameter: Parameter) -> Result<i32, NoMemory>
    ensures tells { TellsIn C.Cells groups.now (Par parameter) dimension_of result cells.new cells.old }
{
    looks::dimension(cells, groups, Cell::Par(parameter))
}

/// The lengths of the present page.
pub(crate) fn page_lengths<C: Cells>(
    cells: &mut C,
    groups: &Groups,
) -> Result<PageLengths, NoMemory>
    ensures looks { Looks C.Cells groups.now length_cells page_lengths result cells.new cells.old }
{
    let topmargin = length(cells, groups, Parameter::TopMargin)?;
    let oddsidemargin = length(cells, groups, Parameter::OddSideMargin)?;
    let evensidemargin = length(cells, groups, Parameter::EvenSideMargin)?;
    let textwidth = length(cells, groups, Parameter::TextWidth)?;
    let textheight = length(cells, groups, Parameter::TextHeight)?;
    let headheight = length(cells, groups, Parameter::HeadHeight)?;
    let headsep = length(cells, groups, Parameter::HeadSep)?;
    let footskip = length(cells, groups, Parameter::FootSkip)?;
    Ok(PageLengths {
        textwidth,
        textheight,
        headheight,
        headsep,
        footskip,
        topmargin,
        oddsidemargin,
        evensidemargin,
    })
}

// A mark of the page, or else the one that pages before it have left.
fn mark_or(
    alloc: Global,
    own: Option<&Boxed>,
    carried: Option<Shared<Boxed>>,
) -> Result<Option<Boxed>, NoMemory>
    ensures { IfOk result (λ mark. mark ≡ option_or (option_copied own.entry) carried) }
{
    if let Some(boxed) = own {
        return Ok(Some(boxed.copy(alloc)?));
    }
    match carried {
        Some(boxed) => Ok(Some(boxed.get().copy(alloc)?)),
        None => Ok(None),
    }
}

// The marks of the head of a page with these items.
fn marks_of_head<C: Cells>(
    alloc: Global,
    cells: &mut C,
    groups: &Groups,
    items: &[Node],
) -> Result<HeadParts, NoMemory>
    ensures looks { Looks C.Cells groups.now (mark_cells Head) (head_parts Head items.now) result cells.new cells.old }
{
    let left = looks::boxed(cells, groups, Cell::LeftMark)?;
    let right = looks::boxed(cells, groups, Cell::RightMark)?;
    let own = page_marks(items);
    Ok(HeadParts {
        left: mark_or(alloc, own.last_left, left)?,
        right: mark_or(alloc, own.first_right, right)?,
    })
}

/// The marks that a page with these items shows, none where it has no head.
pub(crate) fn head_parts<C: Cells>(
    alloc: Global,
    cells: &mut C,
    groups: &Groups,
    style: HeadFoot,
    items: &[Node],
) -> Result<HeadParts, NoMemory>
    ensures looks { Looks C.Cells groups.now (mark_cells style) (head_parts style items.now) result cells.new cells.old }
{
    match style {
        HeadFoot::Head => marks_of_head(alloc, cells, groups, items),
        HeadFoot::Neither | HeadFoot::Foot => Ok(HeadParts {
            left: None,
            right: None,
        }),
    }
}

// A mark that later pages can show.
fn kept(alloc: Global, mark: Option<&Boxed>) -> Result<Option<Shared<Boxed>>, NoMemory>
    ensures { IfOk result (λ kept. kept ≡ option_copied mark.entry) }
{
    match mark {
        Some(boxed) => Ok(Some(Shared::new(alloc, boxed.copy(alloc)?)?)),
        None => Ok(None),
    }
}

/// The last marks of a page with these items.
pub(crate) fn last_marks(alloc: Global, items: &[Node]) -> Result<LastMarks, NoMemory>
    ensures { IfOk result (λ marks. marks ≡ last_marks items.now) }
{
    let own = page_marks(items);
    Ok(LastMarks {
        left: kept(alloc, own.last_left)?,
        right: kept(alloc, own.last_right)?,
    })
}
