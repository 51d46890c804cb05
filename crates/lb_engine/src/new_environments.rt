//! `\newenvironment` and `\renewenvironment` (source2e, file ltdefns).
ghost use Rattle.std.specs.Prelude.{◌≡◌, ◌<◌, [], IfOk, codes, true};
ghost use Rattle.lb_values.specs.declared.cell.Cell.TheVariants as cells_of;
ghost use Rattle.lb_values.specs.declared.reach.Reach.TheVariants.{Local as ALocal};
ghost use Rattle.lb_model_engine.specs.Definitions.{plain_macro as macro_without};
ghost use Rattle.lb_model_engine.specs.NewNames.{bodies_of, command_macro, end_name, environment_defined, environment_of, environment_set, newenvironment, newly_named as newly_read};
ghost use Rattle.lb_model_nest.specs.Wholes.{change};
ghost use Rattle.lb_engine.specs.Leads.{Goes, Holds};
ghost use Rattle.lb_engine.specs.NewMacros.{begins_argument, ends_argument, ends_made, environment_behind};

use crate::bodies::body_of;
use crate::definitions::plain_macro;
use crate::engine::Engine;
use crate::macros::define;
use crate::named::name;
use crate::new_macros::{command_macro, count_of, newly_named, parameters};
use crate::reading::Reading;
use crate::unexpanded::argument;
use lb_base::{Kind, Name, NoMemory, TokList};
use lb_model::Cells;
use lb_model_engine::NewKind;
use lb_model_nest::Went;
use lb_values::{Cell, MacroDef, Reach};
use std::alloc::Global;

/// `\newenvironment` and `\renewenvironment`.
#[tactic(auto, unfolding(lb_model_engine::specs::NewNames::newenvironment))]
pub fn newenvironment<C: Cells>(
    cells: &mut C,
    engine: &mut Engine,
    kind: NewKind,
) -> Result<Went, NoMemory>
    requires holds { Holds C.Cells cells.old engine.old }
    ensures goes { Goes C.Cells (newenvironment kind) result cells.new engine.new cells.old engine.old }
{
    match name(cells, engine)? {
        Reading::Of(name) => read_parameters(cells, engine, kind, &name),
        Reading::Stops(went) => Ok(went),
    }
}

// An environment of this name, whose parameters come.
fn read_parameters<C: Cells>(
    cells: &mut C,
    engine: &mut Engine,
    kind: NewKind,
    name: &Name,
) -> Result<Went, NoMemory>
    requires holds { Holds C.Cells cells.old engine.old }
    ensures goes { Goes C.Cells (environment_behind kind name.now) result cells.new engine.new cells.old engine.old }
{
    match parameters(cells, engine)? {
        Reading::Of((count, default)) => read_begins(cells, engine, kind, name, count, default),
        Reading::Stops(went) => Ok(went),
    }
}

// Its first body comes.
fn read_begins<C: Cells>(
    cells: &mut C,
    engine: &mut Engine,
    kind: NewKind,
    name: &Name,
    count: i32,
    default: Option<TokList>,
) -> Result<Went, NoMemory>
    requires holds { Holds C.Cells cells.old engine.old }
    ensures goes { Goes C.Cells (begins_argument kind name.now count default) result cells.new engine.new cells.old engine.old }
{
    match argument(cells, engine)? {
        Reading::Of(begins) => read_ends(cells, engine, kind, name, count, default, begins),
        Reading::Stops(went) => Ok(went),
    }
}

// Its last body comes.
fn read_ends<C: Cells>(
    cells: &mut C,
    engine: &mut Engine,
    kind: NewKind,
    name: &Name,
    count: i32,
    default: Option<TokList>,
    begins: TokList,
) -> Result<Went, NoMemory>
    requires holds { Holds C.Cells cells.old engine.old }
    ensures goes { Goes C.Cells (ends_argument kind name.now count default begins) result cells.new engine.new cells.old engine.old }
{
    match argument(cells, engine)? {
        Reading::Of(ends) => make(cells, engine, kind, name, count, default, begins, ends),
        Reading::Stops(went) => Ok(went),
    }
}

// An environment of which all was read; its number of parameters is judged first.
fn make<C: Cells>(
    cells: &mut C,
    engine: &mut Engine,
    kind: NewKind,
    name: &Name,
    count: i32,
    default: Option<TokList>,
    begins: TokList,
    ends: TokList,
) -> Result<Went, NoMemory>
    requires holds { Holds C.Cells cells.old engine.old }
    ensures goes { Goes C.Cells (environment_of kind name.now count default begins ends) result cells.new engine.new cells.old engine.old }
{
    match count_of(count, &default) {
        Some(parameters) => make_begins(
            cells, engine, kind, name, parameters, default, begins, ends,
        ),
        None => Ok(Went::Stopped(Kind::BadCode)),
    }
}

// Its first body is judged next.
fn make_begins<C: Cells>(
    cells: &mut C,
    engine: &mut Engine,
    kind: NewKind,
    name: &Name,
    parameters: u8,
    default: Option<TokList>,
    begins: TokList,
    ends: TokList,
) -> Result<Went, NoMemory>
    requires few { parameters < 10 }
    requires holds { Holds C.Cells cells.old engine.old }
    ensures goes { Goes C.Cells (bodies_of kind name.now parameters default begins ends) result cells.new engine.new cells.old engine.old }
{
    match body_of(engine.desk.alloc, usize::from(parameters), begins)? {
        Some(first) => make_ends(cells, engine, kind, name, parameters, default, first, ends),
        None => Ok(Went::Stopped(Kind::TokenMisplaced)),
    }
}

// Its last body is judged next.
fn make_ends<C: Cells>(
    cells: &mut C,
    engine: &mut Engine,
    kind: NewKind,
    name: &Name,
    parameters: u8,
    default: Option<TokList>,
    first: TokList,
    ends: TokList,
) -> Result<Went, NoMemory>
    requires few { parameters < 10 }
    requires holds { Holds C.Cells cells.old engine.old }
    ensures goes { Goes C.Cells (ends_made kind name.now parameters default first ends) result cells.new engine.new cells.old engine.old }
{
    match body_of(engine.desk.alloc, 0, ends)? {
        Some(last) => make_macro(cells, engine, kind, name, parameters, default, first, last),
        None => Ok(Went::Stopped(Kind::TokenMisplaced)),
    }
}

// An environment with these bodies.
fn make_macro<C: Cells>(
    cells: &mut C,
    engine: &mut Engine,
    kind: NewKind,
    name: &Name,
    parameters: u8,
    default: Option<TokList>,
    first: TokList,
    last: TokList,
) -> Result<Went, NoMemory>
    requires few { parameters < 10 }
    requires holds { Holds C.Cells cells.old engine.old }
    ensures goes { Goes C.Cells (environment_defined kind name.now (command_macro true default parameters first) last) result cells.new engine.new
        cells.old engine.old }
{
    let begins = command_macro(engine.desk.alloc, true, default, parameters, first)?;
    make_new(cells, engine, kind, name, begins, last)
}

// The name is judged last.
fn make_new<C: Cells>(
    cells: &mut C,
    engine: &mut Engine,
    kind: NewKind,
    name: &Name,
    begins: MacroDef,
    ends: TokList,
) -> Result<Went, NoMemory>
    requires holds { Holds C.Cells cells.old engine.old }
    ensures goes { Goes C.Cells (environment_defined kind name.now begins ends) result cells.new engine.new cells.old engine.old }
{
    let cell = Cell::Word(name.clone()?);
    make_named(cells, engine, kind, &cell, name, begins, ends)
}

// The same, where this cell has the meaning of its beginning.
fn make_named<C: Cells>(
    cells: &mut C,
    engine: &mut Engine,
    kind: NewKind,
    cell: &Cell,
    name: &Name,
    begins: MacroDef,
    ends: TokList,
) -> Result<Went, NoMemory>
    requires holds { Holds C.Cells cells.old engine.old }
    ensures goes { Goes C.Cells (newly_read kind cell.now (environment_set name.now begins ends)) result cells.new engine.new cells.old engine.old }
{
    match newly_named(cells, engine, kind, cell)? {
        Reading::Of(()) => set(cells, engine, name, begins, ends),
        Reading::Stops(went) => Ok(went),
    }
}

// The macro of the beginning, and that of the end.
fn set<C: Cells>(
    cells: &mut C,
    engine: &mut Engine,
    name: &Name,
    begins: MacroDef,
    ends: TokList,
) -> Result<Went, NoMemory>
    requires holds { Holds C.Cells cells.old engine.old }
    ensures goes { Goes C.Cells (environment_set name.now begins ends) result cells.new engine.new cells.old engine.old }
{
    let cell = Cell::Word(name.clone()?);
    match define(cells, engine, &cell, begins, Reach::Local)? {
        Went::On => set_end(cells, engine, name, ends),
        went => Ok(went),
    }
}

// The name of the end of an environment.
fn end_name(alloc: Global, name: &Name) -> Result<Name, NoMemory>
    ensures { IfOk result (λ text. text ≡ end_name name.now) }
{
    let front = Name::from_slice(alloc, b"end")?;
    front.with_ending(alloc, name.as_slice())
}

// The macro of the end.
fn set_end<C: Cells>(
    cells: &mut C,
    engine: &mut Engine,
    name: &Name,
    ends: TokList,
) -> Result<Went, NoMemory>
    requires holds { Holds C.Cells cells.old engine.old }
    ensures goes { Goes C.Cells (change ALocal (cells_of.Word (end_name name.now)) (macro_without true [] ends)) result cells.new engine.new
        cells.old engine.old }
{
    let alloc = engine.desk.alloc;
    let cell = Cell::Word(end_name(alloc, name)?);
    let definition = plain_macro(true, TokList::new(alloc), ends);
    define(cells, engine, &cell, definition, Reach::Local)
}
