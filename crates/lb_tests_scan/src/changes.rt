//! Assignments over any cells, as far as their values suit the cells.
ghost use Rattle.std.specs.Prelude.{◌≡◌, IfOk, OnOk, true};
ghost use Rattle.lb_model.specs.Assignments.{is_operand, is_operand_at, takes, takes_dimension, takes_glue, takes_number};
ghost use Rattle.lb_model.specs.Ranges.{is_macro, is_meaning};
ghost use Rattle.lb_model.specs.Settings.{Setting};
ghost use Rattle.lb_model.specs.Stacked.{Standing};

use crate::stop::{Stop, fault};
use lb_assign::{Groups, arith, define, let_, register};
use lb_base::{Category, Kind, Name, Tok, TokList};
use lb_model::{Arith, Cells};
use lb_model_grammar::Quantity;
use lb_rows::ParameterKind;
use lb_values::{Cell, MacroDef, Meaning, Pattern, Reach, Value};
use std::alloc::Global;

/// Sets a register, a parameter or a code. The fault, if there is one.
pub(crate) fn set<C: Cells>(
    cells: &mut C,
    groups: &mut Groups,
    cell: &Cell,
    value: Quantity,
    reach: Reach,
) -> Result<Option<Kind>, Stop>
    ensures narrows { OnOk result ((p : Setting) → C.agrees cells.new p → C.agrees cells.old p) }
    ensures standing { OnOk result ((p : Setting) → C.agrees cells.new p → Standing groups.old (C.meaning cells.old p) → Standing groups.new (C.meaning cells.new p)) }
{
    let value = value_of(value)?;
    if !takes(cell, &value) {
        return Err(Stop::Command);
    }
    fault(register(cells, groups, cell, value, reach))
}

fn value_of(quantity: Quantity) -> Result<Value, Stop> {
    match quantity {
        Quantity::Number(number) => Ok(Value::Number(number)),
        Quantity::Dimen(length) => Ok(Value::Dimen(length)),
        Quantity::Skip(glue) => Ok(Value::Glue(glue)),
        Quantity::NotOne => Err(Stop::Command),
    }
}

/// Whether a cell takes a value, which is a number, a dimension or glue.
fn takes(cell: &Cell, value: &Value) -> bool
    ensures { result ≡ true → takes cell.now value.now ≡ true }
{
    match value {
        Value::Number(_) => takes_number(cell),
        Value::Dimen(_) => takes_dimension(cell),
        Value::Glue(_) => takes_glue(cell),
        _ => false,
    }
}

fn takes_number(cell: &Cell) -> bool
    ensures { result ≡ true → takes_number cell.now ≡ true }
{
    match cell {
        Cell::Cat(_) | Cell::Lc(_) | Cell::Uc(_) | Cell::Sf(_) | Cell::Count(_) => true,
        Cell::Par(parameter) => matches!(parameter.kind(), ParameterKind::Number),
        _ => false,
    }
}

fn takes_dimension(cell: &Cell) -> bool
    ensures { result ≡ true → takes_dimension cell.now ≡ true }
{
    match cell {
        Cell::Dimen(_) => true,
        Cell::Par(parameter) => matches!(parameter.kind(), ParameterKind::Dimension),
        _ => false,
    }
}

fn takes_glue(cell: &Cell) -> bool
    ensures { result ≡ true → takes_glue cell.now ≡ true }
{
    match cell {
        Cell::Skip(_) => true,
        Cell::Par(parameter) => matches!(parameter.kind(), ParameterKind::Glue),
        _ => false,
    }
}

/// Advances, multiplies or divides a register or a parameter. The fault, if there is one.
pub(crate) fn work<C: Cells>(
    cells: &mut C,
    groups: &mut Groups,
    cell: &Cell,
    op: Arith,
    by: Quantity,
    reach: Reach,
) -> Result<Option<Kind>, Stop>
    ensures narrows { OnOk result ((p : Setting) → C.agrees cells.new p → C.agrees cells.old p) }
    ensures standing { OnOk result ((p : Setting) → C.agrees cells.new p → Standing groups.old (C.meaning cells.old p) → Standing groups.new (C.meaning cells.new p)) }
{
    if !is_operand_at(op, cell, by) {
        return Err(Stop::Command);
    }
    fault(arith(cells, groups, cell, op, by, reach))
}

fn is_operand_at(op: Arith, cell: &Cell, by: Quantity) -> bool
    ensures { result ≡ true → is_operand_at op cell.now by ≡ true }
{
    match cell {
        Cell::Count(_) => is_operand(op, ParameterKind::Number, by),
        Cell::Dimen(_) => is_operand(op, ParameterKind::Dimension, by),
        Cell::Skip(_) => is_operand(op, ParameterKind::Glue, by),
        Cell::Par(parameter) => is_operand(op, parameter.kind(), by),
        _ => false,
    }
}

fn is_operand(op: Arith, kind: ParameterKind, by: Quantity) -> bool
    ensures { result ≡ true → is_operand op kind by ≡ true }
{
    match (kind, op, by) {
        (ParameterKind::Number, _, Quantity::Number(_)) => true,
        (ParameterKind::Dimension, Arith::Advance, Quantity::Dimen(_)) => true,
        (ParameterKind::Glue, Arith::Advance, Quantity::Skip(_)) => true,
        (_, Arith::Multiply | Arith::Divide, Quantity::Number(_)) => true,
        _ => false,
    }
}

/// Lets a control sequence have a meaning, which is no macro.
pub(crate) fn mean<C: Cells>(
    cells: &mut C,
    groups: &mut Groups,
    name: Name,
    meaning: Meaning,
    reach: Reach,
) -> Result<Option<Kind>, Stop>
    ensures narrows { OnOk result ((p : Setting) → C.agrees cells.new p → C.agrees cells.old p) }
    ensures standing { OnOk result ((p : Setting) → C.agrees cells.new p → Standing groups.old (C.meaning cells.old p) → Standing groups.new (C.meaning cells.new p)) }
{
    if !is_meaning(&meaning) {
        return Err(Stop::Command);
    }
    fault(let_(cells, groups, &Cell::Word(name), meaning, reach))
}

fn is_meaning(meaning: &Meaning) -> bool
    ensures { result ≡ true → is_meaning meaning.now ≡ true }
{
    !matches!(meaning, Meaning::Macro(_))
}

/// Defines a control sequence as a macro without parameters whose body is one letter.
pub(crate) fn define_letter<C: Cells>(
    alloc: Global,
    cells: &mut C,
    groups: &mut Groups,
    name: Name,
    code: u8,
    reach: Reach,
) -> Result<Option<Kind>, Stop>
    ensures narrows { OnOk result ((p : Setting) → C.agrees cells.new p → C.agrees cells.old p) }
    ensures standing { OnOk result ((p : Setting) → C.agrees cells.new p → Standing groups.old (C.meaning cells.old p) → Standing groups.new (C.meaning cells.new p)) }
{
    let macro_is = letter_macro(alloc, code)?;
    fault(define(alloc, cells, groups, &Cell::Word(name), macro_is, reach))
}

fn letter_macro(alloc: Global, code: u8) -> Result<MacroDef, Stop>
    ensures { IfOk result (λ definition. is_macro definition ≡ true) }
{
    let mut body = TokList::new(alloc);
    body.push(Tok::Char(Category::Letter, code))?;
    let pattern = Pattern {
        long: false,
        first: None,
        tokens: TokList::new(alloc),
    };
    Ok(MacroDef { pattern, body })
}
