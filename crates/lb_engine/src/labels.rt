//! Labels, and entries of contents (source2e, files ltxref and ltsect).
ghost use Rattle.std.specs.Prelude.{List, ℕ};
ghost use Rattle.lb_model_counters.specs.Labels.{label_now};
ghost use Rattle.lb_model_engine.specs.Counting.{addcontentsline, contents_node, effected, label};
ghost use Rattle.lb_model_engine.specs.Reads.{argument, characters};
ghost use Rattle.lb_model_nest.specs.Pages.{added};
ghost use Rattle.lb_engine.specs.Leads.{Goes, Holds};

use crate::effects::label_note;
use crate::engine::Engine;
use crate::material::add_node;
use crate::named::name;
use crate::reading::Reading;
use crate::unexpanded::argument;
use lb_base::{Name, NoMemory, Node, Note, TokList};
use lb_model::Cells;
use lb_model_nest::Went;
use sqlite_items::Boxed as Held;

/// `\label`.
pub fn label<C: Cells>(cells: &mut C, engine: &mut Engine) -> Result<Went, NoMemory>
    requires holds { Holds C.Cells cells.old engine.old }
    ensures goes { Goes C.Cells label result cells.new engine.new cells.old engine.old }
{
    match name(cells, engine)? {
        Reading::Of(key) => add_label(cells, engine, &key),
        Reading::Stops(went) => Ok(went),
    }
}

// The note of a label, with the text of the present one.
fn add_label<C: Cells>(cells: &mut C, engine: &mut Engine, key: &Name) -> Result<Went, NoMemory>
    requires holds { Holds C.Cells cells.old engine.old }
    ensures goes { Goes C.Cells (effected (label_now key.now) (λ node u. added node u)) result cells.new engine.new cells.old engine.old }
{
    let note = label_note(cells, engine, key)?;
    add_node(cells, engine, note)
}

/// `\addcontentsline`.
pub fn addcontentsline<C: Cells>(cells: &mut C, engine: &mut Engine) -> Result<Went, NoMemory>
    requires holds { Holds C.Cells cells.old engine.old }
    ensures goes { Goes C.Cells addcontentsline result cells.new engine.new cells.old engine.old }
{
    match name(cells, engine)? {
        Reading::Of(extension) => add_entry_to(cells, engine, extension),
        Reading::Stops(went) => Ok(went),
    }
}

// An entry of the contents with this extension.
fn add_entry_to<C: Cells>(
    cells: &mut C,
    engine: &mut Engine,
    extension: Name,
) -> Result<Went, NoMemory>
    requires holds { Holds C.Cells cells.old engine.old }
    ensures goes { Goes C.Cells (characters (λ kind u. argument (λ title x. added (contents_node extension kind title) x) u)) result
        cells.new engine.new cells.old engine.old }
{
    match name(cells, engine)? {
        Reading::Of(kind) => add_entry_of(cells, engine, extension, kind),
        Reading::Stops(went) => Ok(went),
    }
}

// An entry of this kind.
fn add_entry_of<C: Cells>(
    cells: &mut C,
    engine: &mut Engine,
    extension: Name,
    kind: Name,
) -> Result<Went, NoMemory>
    requires holds { Holds C.Cells cells.old engine.old }
    ensures goes { Goes C.Cells (argument (λ title x. added (contents_node extension kind title) x)) result cells.new engine.new cells.old engine.old }
{
    match argument(cells, engine)? {
        Reading::Of(title) => add_entry(cells, engine, extension, kind, title),
        Reading::Stops(went) => Ok(went),
    }
}

// An entry with this title.
fn add_entry<C: Cells>(
    cells: &mut C,
    engine: &mut Engine,
    extension: Name,
    kind: Name,
    title: TokList,
) -> Result<Went, NoMemory>
    requires holds { Holds C.Cells cells.old engine.old }
    ensures goes { Goes C.Cells (added (contents_node extension kind title)) result cells.new engine.new cells.old engine.old }
{
    let note = Note::Contents {
        extension,
        kind,
        title,
    };
    let node = Node::Note(Held::new(engine.desk.alloc, note)?);
    add_node(cells, engine, node)
}
