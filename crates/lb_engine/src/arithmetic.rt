//! Arithmetic on registers and parameters (TeXbook, chapter 24; tex.web, part 49, sections 1236 to 1240).
ghost use Rattle.std.specs.Prelude.{◌≡◌, ℤ, Some, codes, true};
ghost use Rattle.lb_rows.specs.declared.parameter.ParameterKind.{ParameterKind as AKind};
ghost use Rattle.lb_rows.specs.declared.parameter.ParameterKind.TheVariants.{Dimension, Glue as OfGlue};
ghost use Rattle.lb_values.specs.Registers.{register_cell};
ghost use Rattle.lb_values.specs.declared.cell.Cell.{Cell as ACell};
ghost use Rattle.lb_model_grammar.specs.declared.given.Quantity.TheVariants as quantities;
ghost use Rattle.lb_model.specs.declared.arith.Arith.TheVariants.{Advance};
ghost use Rattle.lb_model.specs.Assignments.{arithmetic_kind, is_operand_at};
ghost use Rattle.lb_model_engine.specs.Reads.{code as code_read, dimension as dimension_read, glue as glue_read, number as number_read};
ghost use Rattle.lb_model_engine.specs.Registers.{arithmetic_row, operand_at, operand_to, worked_out};
ghost use Rattle.lb_model_nest.specs.Wholes.{Executed, Whole};
ghost use Rattle.lb_engine.specs.Arithmetic.{IsOfKind, from_operand, numbered, worked_behind, worked_by};
ghost use Rattle.lb_engine.specs.Leads.{Goes, Holds};

use crate::engine::Engine;
use crate::quantities::code;
use crate::reading::{Reading, dimension, glue, keyword, number};
use crate::spaces::next_token;
use crate::variables::work_out;
use lb_base::{Kind, NoMemory};
use lb_model::{Arith, Cells};
use lb_model_grammar::Quantity;
use lb_model_nest::Went;
use lb_rows::{Command, ParameterKind};
use lb_values::{Cell, Meaning, Reach, Register};

// What is worked on, by the meaning of what it begins with: a register or a parameter that has a name, or a register that a number picks.
#[derive(Clone, Copy)]
enum Operand {
    Named(ParameterKind, Register),
    Picked(ParameterKind),
    Nowhere,
}

// The same of a name.
fn named(register: Register) -> Operand
    ensures operand { (row : AKind → ACell → Whole → Executed) (w : Whole) →
        operand_at (arithmetic_kind (register_cell register)) (register_cell register) row w ≡ from_operand result row w }
    ensures kind { IsOfKind result }
{
    match register {
        Register::Count(_) => Operand::Named(ParameterKind::Number, register),
        Register::Dimen(_) => Operand::Named(ParameterKind::Dimension, register),
        Register::Skip(_) => Operand::Named(ParameterKind::Glue, register),
        Register::Toks(_) => Operand::Nowhere,
        Register::Par(parameter) => Operand::Named(parameter.kind(), register),
    }
}

fn operand_of(meaning: &Option<Meaning>) -> Operand
    ensures operand { (row : AKind → ACell → Whole → Executed) (w : Whole) → operand_to meaning.now row w ≡ from_operand result row w }
    ensures kind { IsOfKind result }
{
    match meaning {
        Some(Meaning::Register(register)) => named(*register),
        Some(Meaning::Row(Command::Count)) => Operand::Picked(ParameterKind::Number),
        Some(Meaning::Row(Command::Dimen)) => Operand::Picked(ParameterKind::Dimension),
        Some(Meaning::Row(Command::Skip)) => Operand::Picked(ParameterKind::Glue),
        _ => Operand::Nowhere,
    }
}

// The register of a kind.
fn numbered(kind: ParameterKind, number: u8) -> Cell
    ensures cell { result ≡ numbered kind number }
    ensures kind { arithmetic_kind result ≡ Some kind }
{
    match kind {
        ParameterKind::Number => Cell::Count(number),
        ParameterKind::Dimension => Cell::Dimen(number),
        ParameterKind::Glue => Cell::Skip(number),
    }
}

/// `\advance`, `\multiply` and `\divide`.
#[tactic(auto, unfolding(lb_model_engine::specs::Registers::arithmetic_row))]
pub fn work<C: Cells>(
    cells: &mut C,
    engine: &mut Engine,
    op: Arith,
    reach: Reach,
) -> Result<Went, NoMemory>
    requires holds { Holds C.Cells cells.old engine.old }
    ensures goes { Goes C.Cells (arithmetic_row op reach) result cells.new engine.new cells.old engine.old }
{
    match next_token(cells, engine)? {
        Reading::Of((_tok, meaning)) => {
            let operand = operand_of(&meaning);
            work_at(cells, engine, op, operand, reach)
        }
        Reading::Stops(went) => Ok(went),
    }
}

// Works on this.
fn work_at<C: Cells>(
    cells: &mut C,
    engine: &mut Engine,
    op: Arith,
    operand: Operand,
    reach: Reach,
) -> Result<Went, NoMemory>
    requires kind { IsOfKind operand }
    requires holds { Holds C.Cells cells.old engine.old }
    ensures goes { Goes C.Cells (from_operand operand (worked_behind op reach)) result cells.new engine.new cells.old engine.old }
{
    match operand {
        Operand::Named(kind, register) => work_named(cells, engine, op, kind, register, reach),
        Operand::Picked(kind) => work_picked(cells, engine, op, kind, reach),
        Operand::Nowhere => Ok(Went::Stopped(Kind::TokenMisplaced)),
    }
}

// Works on what a name names.
fn work_named<C: Cells>(
    cells: &mut C,
    engine: &mut Engine,
    op: Arith,
    kind: ParameterKind,
    register: Register,
    reach: Reach,
) -> Result<Went, NoMemory>
    requires kind { arithmetic_kind (register_cell register) ≡ Some kind }
    requires holds { Holds C.Cells cells.old engine.old }
    ensures goes { Goes C.Cells (worked_behind op reach kind (register_cell register)) result cells.new engine.new cells.old engine.old }
{
    let cell = register.cell();
    work_on(cells, engine, op, kind, &cell, reach)
}

// Works on the register whose number comes.
fn work_picked<C: Cells>(
    cells: &mut C,
    engine: &mut Engine,
    op: Arith,
    kind: ParameterKind,
    reach: Reach,
) -> Result<Went, NoMemory>
    requires holds { Holds C.Cells cells.old engine.old }
    ensures goes { Goes C.Cells (code_read (λ n v. worked_behind op reach kind (numbered kind n) v)) result cells.new engine.new
        cells.old engine.old }
{
    match code(cells, engine)? {
        Reading::Of(number) => {
            let cell = numbered(kind, number);
            work_on(cells, engine, op, kind, &cell, reach)
        }
        Reading::Stops(went) => Ok(went),
    }
}

// Works on a cell, behind `by`, which may be left out.
fn work_on<C: Cells>(
    cells: &mut C,
    engine: &mut Engine,
    op: Arith,
    kind: ParameterKind,
    cell: &Cell,
    reach: Reach,
) -> Result<Went, NoMemory>
    requires kind { arithmetic_kind cell.now ≡ Some kind }
    requires holds { Holds C.Cells cells.old engine.old }
    ensures goes { Goes C.Cells (worked_behind op reach kind cell.now) result cells.new engine.new cells.old engine.old }
{
    match keyword(cells, engine, b"by")? {
        Reading::Of(_found) => work_by(cells, engine, op, kind, cell, reach),
        Reading::Stops(went) => Ok(went),
    }
}

// By what comes.
fn work_by<C: Cells>(
    cells: &mut C,
    engine: &mut Engine,
    op: Arith,
    kind: ParameterKind,
    cell: &Cell,
    reach: Reach,
) -> Result<Went, NoMemory>
    requires kind { arithmetic_kind cell.now ≡ Some kind }
    requires holds { Holds C.Cells cells.old engine.old }
    ensures goes { Goes C.Cells (worked_by op reach kind cell.now) result cells.new engine.new cells.old engine.old }
{
    match op {
        Arith::Advance => advance(cells, engine, kind, cell, reach),
        Arith::Multiply => work_by_number(cells, engine, Arith::Multiply, cell, reach),
        Arith::Divide => work_by_number(cells, engine, Arith::Divide, cell, reach),
    }
}

// Advances by what is of the same kind.
fn advance<C: Cells>(
    cells: &mut C,
    engine: &mut Engine,
    kind: ParameterKind,
    cell: &Cell,
    reach: Reach,
) -> Result<Went, NoMemory>
    requires kind { arithmetic_kind cell.now ≡ Some kind }
    requires holds { Holds C.Cells cells.old engine.old }
    ensures goes { Goes C.Cells (worked_by Advance reach kind cell.now) result cells.new engine.new cells.old engine.old }
{
    match kind {
        ParameterKind::Number => work_by_number(cells, engine, Arith::Advance, cell, reach),
        ParameterKind::Dimension => advance_by_dimension(cells, engine, cell, reach),
        ParameterKind::Glue => advance_by_glue(cells, engine, cell, reach),
    }
}

// By a number.
fn work_by_number<C: Cells>(
    cells: &mut C,
    engine: &mut Engine,
    op: Arith,
    cell: &Cell,
    reach: Reach,
) -> Result<Went, NoMemory>
    requires operand { (n : ℤ) → is_operand_at op cell.now (quantities.Number n) ≡ true }
    requires holds { Holds C.Cells cells.old engine.old }
    ensures goes { Goes C.Cells (number_read (λ n v. worked_out op reach cell.now (quantities.Number n) v)) result cells.new engine.new
        cells.old engine.old }
{
    match number(cells, engine)? {
        Reading::Of(by) => work_out(cells, engine, op, cell, Quantity::Number(by), reach),
        Reading::Stops(went) => Ok(went),
    }
}

// By a dimension, in scaled points.
fn advance_by_dimension<C: Cells>(
    cells: &mut C,
    engine: &mut Engine,
    cell: &Cell,
    reach: Reach,
) -> Result<Went, NoMemory>
    requires kind { arithmetic_kind cell.now ≡ Some Dimension }
    requires holds { Holds C.Cells cells.old engine.old }
    ensures goes { Goes C.Cells (dimension_read (λ n v. worked_out Advance reach cell.now (quantities.Dimen n) v)) result cells.new engine.new
        cells.old engine.old }
{
    match dimension(cells, engine)? {
        Reading::Of(by) => {
            let by = Quantity::Dimen(by);
            work_out(cells, engine, Arith::Advance, cell, by, reach)
        }
        Reading::Stops(went) => Ok(went),
    }
}

// By glue.
fn advance_by_glue<C: Cells>(
    cells: &mut C,
    engine: &mut Engine,
    cell: &Cell,
    reach: Reach,
) -> Result<Went, NoMemory>
    requires kind { arithmetic_kind cell.now ≡ Some OfGlue }
    requires holds { Holds C.Cells cells.old engine.old }
    ensures goes { Goes C.Cells (glue_read (λ g v. worked_out Advance reach cell.now (quantities.Skip g) v)) result cells.new engine.new
        cells.old engine.old }
{
    match glue(cells, engine)? {
        Reading::Of(by) => {
            let by = Quantity::Skip(by);
            work_out(cells, engine, Arith::Advance, cell, by, reach)
        }
        Reading::Stops(went) => Ok(went),
    }
}
