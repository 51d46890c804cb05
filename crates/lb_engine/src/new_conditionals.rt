//! New conditionals (source2e, file ltplain, on `\newif`).
ghost use Rattle.std.specs.Prelude.{◌≡◌, ◌++◌, IfOk, codes};
ghost use Rattle.std.specs.Option.{option_copied};
ghost use Rattle.lb_rows.specs.declared.command.Command.TheVariants as commands;
ghost use Rattle.lb_values.specs.declared.cell.Cell.TheVariants as cells_of;
ghost use Rattle.lb_values.specs.declared.meaning.Meaning.TheVariants as meanings;
ghost use Rattle.lb_values.specs.declared.reach.Reach.TheVariants.{Local as ALocal};
ghost use Rattle.lb_values.specs.declared.value.Value.TheVariants as values;
ghost use Rattle.lb_model_engine.specs.NewNames.{behind_if, conditional_named, new_conditional, newif, switch, word_of};
ghost use Rattle.lb_model_nest.specs.Wholes.{and_then, change};
ghost use Rattle.lb_engine.specs.Leads.{Goes, Holds};

use crate::engine::Engine;
use crate::groups::change;
use crate::reading::Reading;
use crate::unexpanded::control;
use lb_base::{Kind, Name, NoMemory, Tok, TokList};
use lb_model::Cells;
use lb_model_nest::Went;
use lb_rows::Command;
use lb_values::{Cell, MacroDef, Meaning, Pattern, Reach, Shared, Value};
use std::alloc::Global;

/// `\newif`.
pub fn newif<C: Cells>(cells: &mut C, engine: &mut Engine) -> Result<Went, NoMemory>
    requires holds { Holds C.Cells cells.old engine.old }
    ensures goes { Goes C.Cells newif result cells.new engine.new cells.old engine.old }
{
    match control(cells, engine)? {
        Reading::Of(name) => make(cells, engine, &name),
        Reading::Stops(went) => Ok(went),
    }
}

// The text behind `if` in a name, if there is one.
fn behind_if(name: &Name) -> Option<&[u8]>
    ensures { option_copied result ≡ behind_if name.now }
{
    let text = name.as_slice();
    if text.len() <= 2 {
        return None;
    }
    let (first, rest) = text.split_at(2);
    if first == b"if".as_slice() {
        Some(rest)
    } else {
        None
    }
}

// A conditional of this name, which has to be a control word that begins with `if`.
fn make<C: Cells>(cells: &mut C, engine: &mut Engine, name: &Cell) -> Result<Went, NoMemory>
    requires holds { Holds C.Cells cells.old engine.old }
    ensures goes { Goes C.Cells (new_conditional (word_of name.now) (behind_if (word_of name.now))) result cells.new engine.new cells.old engine.old }
{
    match name {
        Cell::Word(name) => make_of(cells, engine, name),
        _ => Ok(Went::Stopped(Kind::TokenMisplaced)),
    }
}

// A conditional of this name, where something stands behind `if`.
fn make_of<C: Cells>(cells: &mut C, engine: &mut Engine, name: &Name) -> Result<Went, NoMemory>
    requires holds { Holds C.Cells cells.old engine.old }
    ensures goes { Goes C.Cells (new_conditional name.now (behind_if name.now)) result cells.new engine.new cells.old engine.old }
{
    match behind_if(name) {
        Some(switched) => make_named(cells, engine, name, switched),
        None => Ok(Went::Stopped(Kind::TokenMisplaced)),
    }
}

// A conditional, false at first, with the macros that switch it.
fn make_named<C: Cells>(
    cells: &mut C,
    engine: &mut Engine,
    name: &Name,
    switched: &[u8],
) -> Result<Went, NoMemory>
    requires holds { Holds C.Cells cells.old engine.old }
    ensures goes { Goes C.Cells (conditional_named name.now switched.now) result cells.new engine.new cells.old engine.old }
{
    let cell = Cell::Word(name.clone()?);
    let value = Value::Meaning(Meaning::Row(Command::IfFalse));
    match change(cells, engine, &cell, value, Reach::Local)? {
        Went::On => make_switches(cells, engine, name, switched),
        went => Ok(went),
    }
}

// The macros that make a conditional true and false.
fn make_switches<C: Cells>(
    cells: &mut C,
    engine: &mut Engine,
    name: &Name,
    switched: &[u8],
) -> Result<Went, NoMemory>
    requires holds { Holds C.Cells cells.old engine.old }
    ensures goes { Goes C.Cells (λ v. and_then (change ALocal (cells_of.Word (switched.now ++ codes "true")) (switch name.now (codes "iftrue")) v)
        (change ALocal (cells_of.Word (switched.now ++ codes "false")) (switch name.now (codes "iffalse")))) result cells.new engine.new
        cells.old engine.old }
{
    match make_switch(cells, engine, name, switched, b"true", b"iftrue")? {
        Went::On => make_switch(cells, engine, name, switched, b"false", b"iffalse"),
        went => Ok(went),
    }
}

// A macro that lets a conditional be another one.
fn switch(alloc: Global, name: &Name, row: &[u8]) -> Result<Value, NoMemory>
    ensures { IfOk result (λ value. value ≡ switch name.now row.now) }
{
    let mut body = TokList::new(alloc);
    body.push(Tok::Word(Name::from_slice(alloc, b"let")?))?;
    body.push(Tok::Word(name.clone()?))?;
    body.push(Tok::Word(Name::from_slice(alloc, row)?))?;
    let pattern = Pattern {
        long: false,
        first: None,
        tokens: TokList::new(alloc),
    };
    let definition = Shared::new(alloc, MacroDef { pattern, body })?;
    Ok(Value::Meaning(Meaning::Macro(definition)))
}

// The macro that lets a conditional be this one.
fn make_switch<C: Cells>(
    cells: &mut C,
    engine: &mut Engine,
    name: &Name,
    switched: &[u8],
    ending: &[u8],
    row: &[u8],
) -> Result<Went, NoMemory>
    requires holds { Holds C.Cells cells.old engine.old }
    ensures goes { Goes C.Cells (change ALocal (cells_of.Word (switched.now ++ ending.now)) (switch name.now row.now)) result cells.new engine.new
        cells.old engine.old }
{
    let alloc = engine.desk.alloc;
    let start = Name::from_slice(alloc, switched)?;
    let cell = Cell::Word(start.with_ending(alloc, ending)?);
    let value = switch(alloc, name, row)?;
    change(cells, engine, &cell, value, Reach::Local)
}
