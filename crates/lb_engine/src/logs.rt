//! Lines of the log (source2e, file ltfiles, on `\typeout`).
ghost use Rattle.lb_base.specs.declared.token.Tok.{Tok as AToken};
ghost use Rattle.lb_model.specs.declared.append.Append.TheVariants as append;
ghost use Rattle.lb_model_journal.specs.LogLines.{log_line};
ghost use Rattle.lb_model_engine.specs.Texts.{expanded_text, typed_out, typeout};
ghost use Rattle.lb_model_nest.specs.Wholes.{appended, on};
ghost use Rattle.lb_engine.specs.Leads.{Goes, Holds};

use crate::engine::Engine;
use crate::expanded_texts::expanded_text;
use crate::reading::Reading;
use crate::unexpanded::argument;
use lb_base::{NoMemory, TokList};
use lb_model::Cells;
use lb_model_journal::Event;
use lb_model_nest::Went;
use lb_nest::Entry;

/// Adds the line of an event to the log.
pub fn log_event<C: Cells>(cells: &C, engine: &mut Engine, event: Event) -> Result<Went, NoMemory>
    requires holds { Holds C.Cells cells.now engine.old }
    ensures goes { Goes C.Cells (λ w. on (appended (append.Log (log_line event)) w)) result cells.now engine.new cells.now engine.old }
{
    let _ = cells;
    engine.nest.entries.push(Entry::Event(event))?;
    Ok(Went::On)
}

/// `\typeout`.
pub fn typeout<C: Cells>(cells: &mut C, engine: &mut Engine) -> Result<Went, NoMemory>
    requires holds { Holds C.Cells cells.old engine.old }
    ensures goes { Goes C.Cells typeout result cells.new engine.new cells.old engine.old }
{
    match argument(cells, engine)? {
        Reading::Of(toks) => type_out(cells, engine, toks),
        Reading::Stops(went) => Ok(went),
    }
}

// A text goes to the log, expanded.
fn type_out<C: Cells>(cells: &mut C, engine: &mut Engine, toks: TokList) -> Result<Went, NoMemory>
    requires holds { Holds C.Cells cells.old engine.old }
    ensures goes { Goes C.Cells (expanded_text toks typed_out) result cells.new engine.new cells.old engine.old }
{
    match expanded_text(cells, engine, toks)? {
        Reading::Of(toks) => log_event(cells, engine, Event::Typeout(toks)),
        Reading::Stops(went) => Ok(went),
    }
}
