//! New registers (source2e, file ltplain, on `\newcount` and its like).
ghost use Rattle.std.specs.Prelude.{◌≡◌, pos, suc, true, ℤ};
ghost use Rattle.lb_values.specs.declared.cell.Cell.TheVariants as cells_of;
ghost use Rattle.lb_values.specs.declared.reach.Reach.TheVariants.{Global as AGlobal, Local as ALocal};
ghost use Rattle.lb_values.specs.declared.value.Value.TheVariants as values;
ghost use Rattle.lb_model.specs.Kinds.{number_of};
ghost use Rattle.lb_model_engine.specs.Definitions.{register_meaning};
ghost use Rattle.lb_model_engine.specs.NewNames.{fresh_named, new_register};
ghost use Rattle.lb_model_nest.specs.Wholes.{Executed, Whole, and_then, change};
ghost use Rattle.lb_engine.specs.Leads.{Goes, Holds, Leads};
ghost use Rattle.lb_engine.specs.Looks.{look_at};
ghost use Rattle.lb_engine.specs.Names.{is_name};

use crate::engine::Engine;
use crate::groups::change;
use crate::reading::Reading;
use crate::shorthands::register_meaning;
use crate::unexpanded::control;
use lb_base::{Kind, NoMemory};
use lb_model::{Cells, reads};
use lb_model_nest::Went;
use lb_values::{Cell, Reach, RegisterKind, Value};
use std::alloc::AllocError;

/// `\newcount`, `\newdimen`, `\newskip` and `\newlength`, `\newtoks`, `\newsavebox`.
pub fn new_register<C: Cells>(
    cells: &mut C,
    engine: &mut Engine,
    kind: RegisterKind,
) -> Result<Went, NoMemory>
    requires holds { Holds C.Cells cells.old engine.old }
    ensures goes { Goes C.Cells (new_register kind) result cells.new engine.new cells.old engine.old }
{
    match control(cells, engine)? {
        Reading::Of(name) => name_fresh(cells, engine, kind, &name),
        Reading::Stops(went) => Ok(went),
    }
}

// The next free register of a kind.
fn fresh<C: Cells>(cells: &mut C, engine: &Engine, kind: RegisterKind) -> Result<i32, NoMemory>
    requires holds { Holds C.Cells cells.old engine.now }
    ensures leads { (row : ℤ → Whole → Executed) → Leads C.Cells (look_at (cells_of.Fresh kind) number_of row) row result
        cells.new engine.now cells.old engine.now }
{
    let _ = engine;
    reads::number(cells, Cell::Fresh(kind))
}

// A name is that of the next free register.
fn name_fresh<C: Cells>(
    cells: &mut C,
    engine: &mut Engine,
    kind: RegisterKind,
    name: &Cell,
) -> Result<Went, NoMemory>
    requires name { is_name name.now ≡ true }
    requires holds { Holds C.Cells cells.old engine.old }
    ensures goes { Goes C.Cells (look_at (cells_of.Fresh kind) number_of (fresh_named kind name.now)) result cells.new engine.new cells.old engine.old }
{
    let number = fresh(cells, engine, kind)?;
    name_at(cells, engine, kind, name, number)
}

// A name is that of the register of this number, of which there are 256.
fn name_at<C: Cells>(
    cells: &mut C,
    engine: &mut Engine,
    kind: RegisterKind,
    name: &Cell,
    number: i32,
) -> Result<Went, NoMemory>
    requires name { is_name name.now ≡ true }
    requires holds { Holds C.Cells cells.old engine.old }
    ensures goes { Goes C.Cells (fresh_named kind name.now number) result cells.new engine.new cells.old engine.old }
{
    match u8::try_from(number) {
        Ok(register) => name_register(cells, engine, kind, name, register),
        Err(_) => Ok(Went::Stopped(Kind::Overflow)),
    }
}

// A name is that of this register, and the next one is free. No state has a free register below 29.
fn name_register<C: Cells>(
    cells: &mut C,
    engine: &mut Engine,
    kind: RegisterKind,
    name: &Cell,
    register: u8,
) -> Result<Went, NoMemory>
    requires name { is_name name.now ≡ true }
    requires holds { Holds C.Cells cells.old engine.old }
    ensures goes { Goes C.Cells (λ w. and_then (change AGlobal (cells_of.Fresh kind) (values.Number (pos (suc register))) w)
        (change ALocal name.now (values.Meaning (register_meaning kind register)))) result cells.new engine.new cells.old engine.old }
{
    if register < 29 {
        return Err(AllocError);
    }
    let next = Value::Number(i32::from(register) + 1);
    match change(cells, engine, &Cell::Fresh(kind), next, Reach::Global)? {
        Went::On => let_name(cells, engine, kind, name, register),
        went => Ok(went),
    }
}

// A name means a register.
fn let_name<C: Cells>(
    cells: &mut C,
    engine: &mut Engine,
    kind: RegisterKind,
    name: &Cell,
    register: u8,
) -> Result<Went, NoMemory>
    requires name { is_name name.now ≡ true }
    requires holds { Holds C.Cells cells.old engine.old }
    ensures goes { Goes C.Cells (change ALocal name.now (values.Meaning (register_meaning kind register))) result cells.new engine.new
        cells.old engine.old }
{
    let value = Value::Meaning(register_meaning(kind, register));
    change(cells, engine, name, value, Reach::Local)
}
