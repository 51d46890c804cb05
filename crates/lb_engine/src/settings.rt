//! Assignments to registers, parameters and codes (TeXbook, chapter 24; tex.web, part 49, sections 1228 to 1235).
ghost use Rattle.std.specs.Prelude.{◌≡◌, true};
ghost use Rattle.lb_base.specs.declared.fault.Kind.TheVariants.{BadCode as TheBadCode};
ghost use Rattle.lb_values.specs.declared.value.Value.TheVariants as values;
ghost use Rattle.lb_model.specs.Assignments.{registered, takes_dimension, takes_glue, takes_number, takes_tokens};
ghost use Rattle.lb_model_engine.specs.Reads.{dimension as dimension_read, glue as glue_read, number as number_read};
ghost use Rattle.lb_model_engine.specs.Registers.{picked_row, tokens as tokens_read, value_of_kind, variable_row};
ghost use Rattle.lb_model_nest.specs.Wholes.{change_or};
ghost use Rattle.lb_engine.specs.Leads.{Goes, Holds};
ghost use Rattle.lb_engine.specs.Registers.{family_cell, is_variable};

use crate::engine::Engine;
use crate::quantities::code;
use crate::reading::{Reading, dimension, glue, number};
use crate::registers::tokens;
use crate::spaces::equals;
use crate::variables::set_variable;
use lb_base::NoMemory;
use lb_model::Cells;
use lb_model_nest::Went;
use lb_rows::ParameterKind;
use lb_values::{Cell, Reach, Value};

fn takes_number(cell: &Cell) -> bool
    ensures { result ≡ takes_number cell.now }
{
    match cell {
        Cell::Cat(_) | Cell::Lc(_) | Cell::Uc(_) | Cell::Sf(_) | Cell::Count(_) => true,
        Cell::Par(parameter) => matches!(parameter.kind(), ParameterKind::Number),
        _ => false,
    }
}

// Sets a cell to a number that comes.
fn set_number<C: Cells>(
    cells: &mut C,
    engine: &mut Engine,
    cell: &Cell,
    reach: Reach,
) -> Result<Went, NoMemory>
    requires takes { takes_number cell.now ≡ true }
    requires holds { Holds C.Cells cells.old engine.old }
    ensures goes { Goes C.Cells (number_read (λ x v. change_or TheBadCode reach cell.now (registered cell.now (values.Number x)) v)) result
        cells.new engine.new cells.old engine.old }
{
    match number(cells, engine)? {
        Reading::Of(value) => set_variable(cells, engine, cell, Value::Number(value), reach),
        Reading::Stops(went) => Ok(went),
    }
}

fn takes_dimension(cell: &Cell) -> bool
    ensures { result ≡ takes_dimension cell.now }
{
    match cell {
        Cell::Dimen(_) => true,
        Cell::Par(parameter) => matches!(parameter.kind(), ParameterKind::Dimension),
        _ => false,
    }
}

// Sets a cell to a dimension, in scaled points, that comes.
fn set_dimension<C: Cells>(
    cells: &mut C,
    engine: &mut Engine,
    cell: &Cell,
    reach: Reach,
) -> Result<Went, NoMemory>
    requires takes { takes_dimension cell.now ≡ true }
    requires holds { Holds C.Cells cells.old engine.old }
    ensures goes { Goes C.Cells (dimension_read (λ x v. change_or TheBadCode reach cell.now (registered cell.now (values.Dimen x)) v)) result
        cells.new engine.new cells.old engine.old }
{
    match dimension(cells, engine)? {
        Reading::Of(value) => set_variable(cells, engine, cell, Value::Dimen(value), reach),
        Reading::Stops(went) => Ok(went),
    }
}

fn takes_glue(cell: &Cell) -> bool
    ensures { result ≡ takes_glue cell.now }
{
    match cell {
        Cell::Skip(_) => true,
        Cell::Par(parameter) => matches!(parameter.kind(), ParameterKind::Glue),
        _ => false,
    }
}

// Sets a cell to glue that comes.
fn set_glue<C: Cells>(
    cells: &mut C,
    engine: &mut Engine,
    cell: &Cell,
    reach: Reach,
) -> Result<Went, NoMemory>
    requires takes { takes_glue cell.now ≡ true }
    requires holds { Holds C.Cells cells.old engine.old }
    ensures goes { Goes C.Cells (glue_read (λ x v. change_or TheBadCode reach cell.now (registered cell.now (values.Glue x)) v)) result
        cells.new engine.new cells.old engine.old }
{
    match glue(cells, engine)? {
        Reading::Of(value) => set_variable(cells, engine, cell, Value::Glue(value), reach),
        Reading::Stops(went) => Ok(went),
    }
}

// Sets a cell to tokens that come.
fn set_tokens<C: Cells>(
    cells: &mut C,
    engine: &mut Engine,
    cell: &Cell,
    reach: Reach,
) -> Result<Went, NoMemory>
    requires takes { takes_tokens cell.now ≡ true }
    requires holds { Holds C.Cells cells.old engine.old }
    ensures goes { Goes C.Cells (tokens_read (λ x v. change_or TheBadCode reach cell.now (registered cell.now (values.Tokens x)) v)) result
        cells.new engine.new cells.old engine.old }
{
    match tokens(cells, engine)? {
        Reading::Of(value) => set_variable(cells, engine, cell, Value::Tokens(value), reach),
        Reading::Stops(went) => Ok(went),
    }
}

// Sets a cell to a value of its kind that comes.
fn set_by_kind<C: Cells>(
    cells: &mut C,
    engine: &mut Engine,
    cell: &Cell,
    reach: Reach,
) -> Result<Went, NoMemory>
    requires variable { is_variable cell.now ≡ true }
    requires holds { Holds C.Cells cells.old engine.old }
    ensures goes { Goes C.Cells (value_of_kind cell.now (λ x v. change_or TheBadCode reach cell.now (registered cell.now x) v)) result
        cells.new engine.new cells.old engine.old }
{
    if takes_number(cell) {
        return set_number(cells, engine, cell, reach);
    }
    if takes_dimension(cell) {
        return set_dimension(cells, engine, cell, reach);
    }
    if takes_glue(cell) {
        return set_glue(cells, engine, cell, reach);
    }
    set_tokens(cells, engine, cell, reach)
}

/// Sets a register, a parameter or a code that is known to what comes behind `=`.
pub fn set<C: Cells>(
    cells: &mut C,
    engine: &mut Engine,
    cell: &Cell,
    reach: Reach,
) -> Result<Went, NoMemory>
    requires variable { is_variable cell.now ≡ true }
    requires holds { Holds C.Cells cells.old engine.old }
    ensures goes { Goes C.Cells (variable_row cell.now reach) result cells.new engine.new cells.old engine.old }
{
    match equals(cells, engine)? {
        Reading::Of(()) => set_by_kind(cells, engine, cell, reach),
        Reading::Stops(went) => Ok(went),
    }
}

/// Registers and codes of which a number picks one.
#[derive(Clone, Copy)]
pub enum Family {
    Count,
    Dimen,
    Skip,
    Toks,
    Category,
    LowerCase,
    UpperCase,
    SpaceFactor,
}

impl Family {
    /// The cell of a number.
    pub fn cell(self, number: u8) -> Cell
        ensures { result ≡ family_cell self number }
    {
        match self {
            Family::Count => Cell::Count(number),
            Family::Dimen => Cell::Dimen(number),
            Family::Skip => Cell::Skip(number),
            Family::Toks => Cell::Toks(number),
            Family::Category => Cell::Cat(number),
            Family::LowerCase => Cell::Lc(number),
            Family::UpperCase => Cell::Uc(number),
            Family::SpaceFactor => Cell::Sf(number),
        }
    }
}

/// Sets the register or the code whose number comes to what comes behind `=`.
#[tactic(auto, unfolding(lb_model_engine::specs::Registers::picked_row))]
pub fn set_picked<C: Cells>(
    cells: &mut C,
    engine: &mut Engine,
    family: Family,
    reach: Reach,
) -> Result<Went, NoMemory>
    requires holds { Holds C.Cells cells.old engine.old }
    ensures goes { Goes C.Cells (picked_row (family_cell family) reach) result cells.new engine.new cells.old engine.old }
{
    match code(cells, engine)? {
        Reading::Of(number) => {
            let picked = family.cell(number);
            set(cells, engine, &picked, reach)
        }
        Reading::Stops(went) => Ok(went),
    }
}
