//! `\newcommand`, `\renewcommand` and `\providecommand` (source2e, file ltdefns).
ghost use Rattle.std.specs.Prelude.{◌≡◌, ◌<◌, IfOk, not, true};
ghost use Rattle.lb_values.specs.declared.cell.Cell.{Cell as ACell};
ghost use Rattle.lb_values.specs.declared.reach.Reach.TheVariants.{Local as ALocal};
ghost use Rattle.lb_model_engine.specs.Definitions.{macro_value};
ghost use Rattle.lb_model_engine.specs.NewNames.{command_defined, command_of, name_argument, named_by, newcommand, newly_named as newly_read};
ghost use Rattle.lb_model_nest.specs.Wholes.{Executed, Whole, change};
ghost use Rattle.lb_engine.specs.Leads.{Goes, Holds, Leads};
ghost use Rattle.lb_engine.specs.Names.{IsName, is_name};
ghost use Rattle.lb_engine.specs.NewMacros.{body_argument, body_made, command_behind};
ghost use Rattle.lb_engine.specs.Reads.{behind_reading};

use crate::bodies::body_of;
use crate::engine::Engine;
use crate::macros::define;
use crate::new_macros::{command_macro, count_of, newly_named, parameters};
use crate::reading::Reading;
use crate::unexpanded::{argument, control_of, star};
use lb_base::{Kind, NoMemory, TokList};
use lb_model::Cells;
use lb_model_engine::NewKind;
use lb_model_nest::Went;
use lb_values::{Cell, MacroDef, Reach};

// The name that an argument is.
fn named_by(toks: &TokList) -> Result<Reading<Cell>, NoMemory>
    ensures control { IfOk result (λ r. (row : ACell → Whole → Executed) (w : Whole) → named_by toks.now row w ≡ behind_reading row r w) }
    ensures name { IfOk result IsName }
{
    match toks.as_slice().split_first() {
        Some((tok, rest)) => {
            if rest.is_empty() {
                return Ok(control_of(tok.clone()?));
            }
            Ok(Reading::Stops(Went::Stopped(Kind::TokenMisplaced)))
        }
        None => Ok(Reading::Stops(Went::Stopped(Kind::TokenMisplaced))),
    }
}

// A name in an argument.
fn name_argument<C: Cells>(cells: &mut C, engine: &mut Engine) -> Result<Reading<Cell>, NoMemory>
    requires holds { Holds C.Cells cells.old engine.old }
    ensures leads { (row : ACell → Whole → Executed) → Leads C.Cells (name_argument row) (behind_reading row) result
        cells.new engine.new cells.old engine.old }
    ensures name { IfOk result IsName }
{
    match argument(cells, engine)? {
        Reading::Of(toks) => named_by(&toks),
        Reading::Stops(went) => Ok(Reading::Stops(went)),
    }
}

/// `\newcommand`, `\renewcommand` and `\providecommand`.
#[tactic(auto, unfolding(lb_model_engine::specs::NewNames::newcommand))]
pub fn newcommand<C: Cells>(
    cells: &mut C,
    engine: &mut Engine,
    kind: NewKind,
) -> Result<Went, NoMemory>
    requires holds { Holds C.Cells cells.old engine.old }
    ensures goes { Goes C.Cells (newcommand kind) result cells.new engine.new cells.old engine.old }
{
    match star(cells, engine)? {
        Reading::Of(starred) => read_name(cells, engine, kind, !starred),
        Reading::Stops(went) => Ok(went),
    }
}

// A command whose name comes.
fn read_name<C: Cells>(
    cells: &mut C,
    engine: &mut Engine,
    kind: NewKind,
    long: bool,
) -> Result<Went, NoMemory>
    requires holds { Holds C.Cells cells.old engine.old }
    ensures goes { Goes C.Cells (name_argument (λ name u. command_behind kind long name u)) result cells.new engine.new cells.old engine.old }
{
    match name_argument(cells, engine)? {
        Reading::Of(name) => read_parameters(cells, engine, kind, long, &name),
        Reading::Stops(went) => Ok(went),
    }
}

// A command of this name, whose parameters come.
fn read_parameters<C: Cells>(
    cells: &mut C,
    engine: &mut Engine,
    kind: NewKind,
    long: bool,
    name: &Cell,
) -> Result<Went, NoMemory>
    requires name { is_name name.now ≡ true }
    requires holds { Holds C.Cells cells.old engine.old }
    ensures goes { Goes C.Cells (command_behind kind long name.now) result cells.new engine.new cells.old engine.old }
{
    match parameters(cells, engine)? {
        Reading::Of((count, default)) => {
            read_body(cells, engine, kind, long, name, count, default)
        }
        Reading::Stops(went) => Ok(went),
    }
}

// A command with these parameters, whose body comes.
fn read_body<C: Cells>(
    cells: &mut C,
    engine: &mut Engine,
    kind: NewKind,
    long: bool,
    name: &Cell,
    count: i32,
    default: Option<TokList>,
) -> Result<Went, NoMemory>
    requires name { is_name name.now ≡ true }
    requires holds { Holds C.Cells cells.old engine.old }
    ensures goes { Goes C.Cells (body_argument kind long name.now count default) result cells.new engine.new cells.old engine.old }
{
    match argument(cells, engine)? {
        Reading::Of(toks) => make(cells, engine, kind, long, name, count, default, toks),
        Reading::Stops(went) => Ok(went),
    }
}

// A command of which all was read; its number of parameters is judged first.
fn make<C: Cells>(
    cells: &mut C,
    engine: &mut Engine,
    kind: NewKind,
    long: bool,
    name: &Cell,
    count: i32,
    default: Option<TokList>,
    toks: TokList,
) -> Result<Went, NoMemory>
    requires name { is_name name.now ≡ true }
    requires holds { Holds C.Cells cells.old engine.old }
    ensures goes { Goes C.Cells (command_of kind long name.now count default toks) result cells.new engine.new cells.old engine.old }
{
    match count_of(count, &default) {
        Some(parameters) => make_body(cells, engine, kind, long, name, parameters, default, toks),
        None => Ok(Went::Stopped(Kind::BadCode)),
    }
}

// Its body is judged next.
fn make_body<C: Cells>(
    cells: &mut C,
    engine: &mut Engine,
    kind: NewKind,
    long: bool,
    name: &Cell,
    parameters: u8,
    default: Option<TokList>,
    toks: TokList,
) -> Result<Went, NoMemory>
    requires name { is_name name.now ≡ true }
    requires few { parameters < 10 }
    requires holds { Holds C.Cells cells.old engine.old }
    ensures goes { Goes C.Cells (body_made kind long name.now parameters default toks) result cells.new engine.new cells.old engine.old }
{
    match body_of(engine.desk.alloc, usize::from(parameters), toks)? {
        Some(body) => make_macro(cells, engine, kind, long, name, parameters, default, body),
        None => Ok(Went::Stopped(Kind::TokenMisplaced)),
    }
}

// A command with this body.
fn make_macro<C: Cells>(
    cells: &mut C,
    engine: &mut Engine,
    kind: NewKind,
    long: bool,
    name: &Cell,
    parameters: u8,
    default: Option<TokList>,
    body: TokList,
) -> Result<Went, NoMemory>
    requires name { is_name name.now ≡ true }
    requires few { parameters < 10 }
    requires holds { Holds C.Cells cells.old engine.old }
    ensures goes { Goes C.Cells (command_defined kind long name.now parameters default body) result cells.new engine.new cells.old engine.old }
{
    let definition = command_macro(engine.desk.alloc, long, default, parameters, body)?;
    define_new(cells, engine, kind, name, definition)
}

// The name is judged last.
fn define_new<C: Cells>(
    cells: &mut C,
    engine: &mut Engine,
    kind: NewKind,
    name: &Cell,
    definition: MacroDef,
) -> Result<Went, NoMemory>
    requires name { is_name name.now ≡ true }
    requires holds { Holds C.Cells cells.old engine.old }
    ensures goes { Goes C.Cells (newly_read kind name.now (change ALocal name.now (macro_value definition))) result cells.new engine.new
        cells.old engine.old }
{
    match newly_named(cells, engine, kind, name)? {
        Reading::Of(()) => define(cells, engine, name, definition, Reach::Local),
        Reading::Stops(went) => Ok(went),
    }
}
