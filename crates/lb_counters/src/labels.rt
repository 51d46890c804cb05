//! Labels, and what old ones stand for.
ghost use Rattle.std.specs.Prelude.{◌≡◌, IfOk, [], unwrap_or};
ghost use Rattle.lb_model.specs.Settings.{Setting};
ghost use Rattle.lb_model_counters.specs.Labels.{label_note, label_now, label_stored};
ghost use Rattle.lb_counters.specs.Does.{Does, or_stop};

use lb_base::{Bytes, Name, NoMemory, Node, Note};
use lb_model::{Cells, reads};
use lb_values::{Cell, LabelPair, Shared};
use sqlite_items::Boxed as Held;
use std::alloc::Global;

// The bytes of a text, none where it is missing.
fn copy_if_any(alloc: Global, text: Option<Shared<Bytes>>) -> Result<Bytes, NoMemory>
    ensures { IfOk result (λ copy. copy ≡ unwrap_or text []) }
{
    match text {
        None => Ok(Bytes::new(alloc)),
        Some(text) => Bytes::from_slice(alloc, text.get().as_slice()),
    }
}

/// A label (`\label`; source2e, file ltxref): a note of this key with the text of the present label. Nothing is changed, and the only error is
/// want of memory.
#[tactic(auto, unfolding(lb_model_counters::specs::Labels::label_now))]
pub fn label<C: Cells>(alloc: Global, cells: &mut C, key: &Name) -> Result<Node, NoMemory>
    ensures does { Does C.Cells (label_now key.now) (or_stop result) cells.new cells.old }
    ensures stays { (p : Setting) → C.agrees cells.new p → C.meaning cells.new p ≡ C.meaning cells.old p }
{
    let text = reads::text(cells, Cell::CurrentLabel)?;
    let note = Note::Label {
        key: key.clone()?,
        text: copy_if_any(alloc, text)?,
    };
    Ok(Node::Note(Held::new(alloc, note)?))
}

fn copy_pair(alloc: Global, pair: &LabelPair) -> Result<LabelPair, NoMemory>
    ensures { IfOk result (λ copy. copy ≡ pair.now) }
{
    Ok(LabelPair {
        text: Bytes::from_slice(alloc, pair.text.as_slice())?,
        page: Bytes::from_slice(alloc, pair.page.as_slice())?,
    })
}

/// What a label stands for (`\ref`, `\pageref`; source2e, file ltxref), None exactly where there is none of this key. Nothing is changed, and
/// the only error is want of memory.
#[tactic(auto, unfolding(lb_model_counters::specs::Labels::label_stored))]
pub fn reference<C: Cells>(
    alloc: Global,
    cells: &mut C,
    key: &Name,
) -> Result<Option<LabelPair>, NoMemory>
    ensures does { Does C.Cells (label_stored key.now) (or_stop result) cells.new cells.old }
    ensures stays { (p : Setting) → C.agrees cells.new p → C.meaning cells.new p ≡ C.meaning cells.old p }
{
    match reads::label(cells, Cell::Label(key.clone()?))? {
        None => Ok(None),
        Some(pair) => Ok(Some(copy_pair(alloc, pair.get())?)),
    }
}
