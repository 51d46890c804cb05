//! Items.
ghost use Rattle.std.specs.Prelude.{None, Some, pos, true};
ghost use Rattle.lb_model_counters.specs.Counters.{step_counter};
ghost use Rattle.lb_counters.specs.Does.{Does};
ghost use Rattle.lb_model_sections.specs.Joined.{seen};
ghost use Rattle.lb_model_sections.specs.Lists.{item, item_counter, item_labelled, label_of, number_label};

use crate::labels::{counter, item_tokens, mark, number};
use crate::lists::Lists;
use lb_base::{Kind, Stop, TokList};
use lb_model::Cells;
use lb_model_sections::Display;
use std::alloc::Global;

// The number of the item, which is stepped.
fn numbered<C: Cells>(alloc: Global, lists: &Lists, cells: &mut C) -> Result<TokList, Stop>
    ensures does { Does C.Cells (λ w s. seen (λ done. number_label lists.now) (step_counter (item_counter lists.now) (pos 1) true w s)) result cells.new cells.old }
{
    let numbered = lists.numbered();
    let counter = counter(alloc, numbered)?;
    lb_counters::step(cells, &counter, 1, true)?;
    let label = number(alloc, numbered)?;
    Ok(label)
}

// The label that an item has without one of its own.
fn label_of<C: Cells>(
    alloc: Global,
    lists: &Lists,
    cells: &mut C,
    kind: Display,
) -> Result<TokList, Stop>
    ensures does { Does C.Cells (label_of kind lists.now) result cells.new cells.old }
{
    match kind {
        Display::Itemize => {
            let label = mark(alloc, lists.marked())?;
            Ok(label)
        }
        Display::Enumerate => numbered(alloc, lists, cells),
        _ => Ok(TokList::new(alloc)),
    }
}

// An item without a label of its own.
fn unlabelled<C: Cells>(
    alloc: Global,
    lists: &Lists,
    cells: &mut C,
    kind: Display,
) -> Result<TokList, Stop>
    ensures does { Does C.Cells (item_labelled kind lists.now None) result cells.new cells.old }
{
    let label = label_of(alloc, lists, cells, kind)?;
    let toks = item_tokens(alloc, kind, lists.depth(), label)?;
    Ok(toks)
}

// An item with a label of its own.
fn labelled<C: Cells>(
    alloc: Global,
    lists: &Lists,
    cells: &mut C,
    kind: Display,
    label: TokList,
) -> Result<TokList, Stop>
    ensures does { Does C.Cells (item_labelled kind lists.now (Some label)) result cells.new cells.old }
{
    let _ = cells;
    let toks = item_tokens(alloc, kind, lists.depth(), label)?;
    Ok(toks)
}

/// What an item of the innermost list puts back (`\item`; source2e, file ltlists), with a label of its own or without one: a number is then stepped
/// for it, with resets. `ItemOutside` exactly where no list is open; `Overflow` and `NoCounter` exactly where a step of its counter has them. After a
/// fault nothing is changed; after want of memory the counter may be stepped.
#[tactic(auto, unfolding(lb_model_sections::specs::Lists::item))]
pub fn item<C: Cells>(
    alloc: Global,
    lists: &Lists,
    cells: &mut C,
    label: Option<TokList>,
) -> Result<TokList, Stop>
    ensures does { Does C.Cells (item lists.now label) result cells.new cells.old }
{
    let Some(kind) = lists.innermost() else {
        return Err(Stop::Fault(Kind::ItemOutside));
    };
    match label {
        Some(label) => labelled(alloc, lists, cells, kind, label),
        None => unlabelled(alloc, lists, cells, kind),
    }
}
