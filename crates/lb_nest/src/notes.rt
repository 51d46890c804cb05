//! The notes of a page, which are written as it is shipped (TeXbook, chapter 21; source2e, file ltxref).
ghost use Rattle.std.specs.Prelude.{◌≡◌, ◌++◌, ◌∷◌, [], ℕ, None, IfOk, OnOk};
ghost use Rattle.lb_model_nest.specs.Pages.{notes_of, notes_of_node, notes_written};
ghost use Rattle.lb_model_nest.specs.Wholes.{executed};
ghost use Rattle.lb_nest.specs.Appends.{note_appends};
ghost use Rattle.lb_nest.specs.Works.{Works};

use crate::entries::{Entry, EntryList};
use crate::nest::Nest;
use lb_base::{Bytes, Kind, NoMemory, Node, Note};
use lb_model_nest::Went;
use lb_values::Shared;

fn copy_of(note: &Note) -> Result<Note, NoMemory>
    ensures { IfOk result (λ copy. copy ≡ note.now) }
{
    note.clone()
}

// Puts a note on a page whose number is shown so behind the entries.
fn push_note(entries: &mut EntryList, number: &Shared<Bytes>, note: &Note) -> Result<(), NoMemory>
    ensures { OnOk result (entries.new ≡ entries.old ++ note_appends number.now (note.now ∷ [])) }
{
    let number = number.clone()?;
    let note = copy_of(note)?;
    entries.push(Entry::Note { number, note })?;
    Ok(())
}

// Puts the notes of a node behind the entries: those in footnotes, marks and material that no page shows are none.
#[cycle(notes)]
#[tactic(auto, unfolding(lb_model_nest::specs::Pages::notes_of_node))]
fn push_notes_of(
    entries: &mut EntryList,
    number: &Shared<Bytes>,
    node: &Node,
) -> Result<(), NoMemory>
    ensures { OnOk result (entries.new ≡ entries.old ++ note_appends number.now (notes_of_node notes_of node.now)) }
{
    match node {
        Node::Note(note) => push_note(entries, number, note.get()),
        Node::Boxed(boxed) => push_notes(entries, number, boxed.get().items.as_slice()),
        Node::Disc(parts) => push_notes(entries, number, parts.get().no_break.as_slice()),
        _ => Ok(()),
    }
}

// Puts the notes of a list, and of the lists in it, behind the entries.
#[cycle(notes)]
fn push_notes(
    entries: &mut EntryList,
    number: &Shared<Bytes>,
    nodes: &[Node],
) -> Result<(), NoMemory>
    ensures { OnOk result (entries.new ≡ entries.old ++ note_appends number.now (notes_of nodes.now)) }
{
    for node in nodes {
        push_notes_of(entries, number, node)?;
    }
    Ok(())
}

// Where a page's number cannot be shown, no note can be written.
fn refuse_notes(nest: &Nest, nodes: &[Node]) -> Result<Went, NoMemory>
    ensures works { (left : ℕ) → Works (notes_written None (notes_of nodes.now)) executed result left nest.now left nest.now }
{
    let number = Shared::new(nest.alloc, Bytes::new(nest.alloc))?;
    let mut entries = EntryList::new(nest.alloc);
    push_notes(&mut entries, &number, nodes)?;
    if entries.is_empty() {
        return Ok(Went::On);
    }
    Ok(Went::Stopped(Kind::CounterTooLarge))
}

/// Writes the notes among the nodes of a page, whose number is shown so. `CounterTooLarge` where there is one and the number is too large
/// for its form.
pub(crate) fn write_notes(
    nest: &mut Nest,
    number: Option<Bytes>,
    nodes: &[Node],
) -> Result<Went, NoMemory>
    ensures works { (left : ℕ) → Works (notes_written number (notes_of nodes.now)) executed result left nest.new left nest.old }
    ensures page { nest.new.page ≡ nest.old.page }
{
    let Some(number) = number else {
        return refuse_notes(nest, nodes);
    };
    let number = Shared::new(nest.alloc, number)?;
    push_notes(&mut nest.entries, &number, nodes)?;
    Ok(Went::On)
}
