//! Counters whose steps set the present label (source2e, file ltxref, on `\refstepcounter`).
ghost use Rattle.std.specs.Prelude.{◌≡◌, ◌∷◌, [], IfOk, pos, true};
ghost use Rattle.lb_base.specs.declared.token.Tok.TheVariants as token;
ghost use Rattle.lb_model_counters.specs.Counters.{printer_name, step_counter};
ghost use Rattle.lb_model_engine.specs.Counting.{effected, label_by, label_set, refstepcounter};
ghost use Rattle.lb_engine.specs.Leads.{Goes, Holds};

use crate::effects::step_counter;
use crate::engine::Engine;
use crate::expanded_texts::expanded_text;
use crate::groups::change;
use crate::named::name;
use crate::reading::Reading;
use lb_aux::written;
use lb_base::{Name, NoMemory, Tok, TokList};
use lb_counters::printer_name;
use lb_model::Cells;
use lb_model_nest::Went;
use lb_values::{Cell, Reach, Shared, Value};

/// `\refstepcounter`.
pub fn refstepcounter<C: Cells>(cells: &mut C, engine: &mut Engine) -> Result<Went, NoMemory>
    requires holds { Holds C.Cells cells.old engine.old }
    ensures goes { Goes C.Cells refstepcounter result cells.new engine.new cells.old engine.old }
{
    match name(cells, engine)? {
        Reading::Of(name) => step_and_label(cells, engine, &name),
        Reading::Stops(went) => Ok(went),
    }
}

// The counter is stepped, and the present label shows it.
fn step_and_label<C: Cells>(
    cells: &mut C,
    engine: &mut Engine,
    name: &Name,
) -> Result<Went, NoMemory>
    requires holds { Holds C.Cells cells.old engine.old }
    ensures goes { Goes C.Cells (effected (step_counter name.now (pos 1) true) (λ done u. label_by name.now u)) result cells.new engine.new
        cells.old engine.old }
{
    match step_counter(cells, engine, name, 1, true)? {
        Reading::Of(_done) => label_by(cells, engine, name),
        Reading::Stops(went) => Ok(went),
    }
}

// The control sequence that prints a counter.
fn printer_token(engine: &Engine, name: &Name) -> Result<TokList, NoMemory>
    ensures { IfOk result (λ toks. toks ≡ token.Word (printer_name name.now) ∷ []) }
{
    let alloc = engine.desk.alloc;
    let mut toks = TokList::new(alloc);
    toks.push(Tok::Word(printer_name(alloc, name)?))?;
    Ok(toks)
}

// The present label is what the macro of a counter expands to.
fn label_by<C: Cells>(cells: &mut C, engine: &mut Engine, name: &Name) -> Result<Went, NoMemory>
    requires holds { Holds C.Cells cells.old engine.old }
    ensures goes { Goes C.Cells (label_by name.now) result cells.new engine.new cells.old engine.old }
{
    let printer = printer_token(engine, name)?;
    match expanded_text(cells, engine, printer)? {
        Reading::Of(toks) => set_label(cells, engine, toks),
        Reading::Stops(went) => Ok(went),
    }
}

// The present label is this text.
fn set_label<C: Cells>(cells: &mut C, engine: &mut Engine, toks: TokList) -> Result<Went, NoMemory>
    requires holds { Holds C.Cells cells.old engine.old }
    ensures goes { Goes C.Cells (label_set toks) result cells.new engine.new cells.old engine.old }
{
    let alloc = engine.desk.alloc;
    let text = Shared::new(alloc, written(alloc, toks.as_slice())?)?;
    change(
        cells,
        engine,
        &Cell::CurrentLabel,
        Value::Text(text),
        Reach::Local,
    )
}
