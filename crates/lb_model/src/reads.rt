//! Readings of cells, one for each kind of value, so that the crates above hold no cell and no value longer than one call. Each tells what
//! its cell holds, narrows the settings that agree to those in which the cell tells that, and notes the cell.
ghost use Rattle.std.specs.Prelude.{◌≡◌, IfOk, IfSome, true};
ghost use Rattle.lb_values.specs.declared.cell.Cell.TheVariants as cells_of;
ghost use Rattle.lb_model.specs.Kinds.{boxed_of, category_of, checkpoint_of, code_of, dimension_of, form_of, glue_of, is_size, is_space_factor, is_style, label_of, meaning_of, name_of, names_of, number_of, optional_number, page_style_of, size_of, space_factor_of, steps_of, style_of, text_of, tokens_of};
ghost use Rattle.lb_model.specs.Ranges.{is_dimension, is_glue, is_number};
ghost use Rattle.lb_model.specs.Told.{Tells};

use crate::cells::Cells;
use crate::within::{NO_GLUE, between, dimension_within, glue_within, number_within};
use lb_base::{Boxed, Bytes, Category, Glue, Name, NameList, NoMemory, TokList};
use lb_values::{Cell, CounterList, Form, LabelPair, Meaning, PageStyle, Shared, Value};

/// The category of a code.
#[inline(always)]
pub fn category<C: Cells>(cells: &mut C, code: u8) -> Result<Category, NoMemory>
    ensures tells { Tells C.Cells (cells_of.Cat code) category_of result cells.new cells.old }
{
    match cells.get(&Cell::Cat(code))? {
        Value::Category(category) => Ok(category),
        _ => Ok(Category::Other),
    }
}

/// The code that a cell of lower-case or upper-case forms holds.
pub fn code<C: Cells>(cells: &mut C, cell: Cell) -> Result<u8, NoMemory>
    ensures tells { Tells C.Cells cell code_of result cells.new cells.old }
{
    match cells.get(&cell)? {
        Value::Code(code) => Ok(code),
        _ => Ok(0),
    }
}

/// The number that a cell holds, 0 where it has none.
pub fn number<C: Cells>(cells: &mut C, cell: Cell) -> Result<i32, NoMemory>
    ensures tells { Tells C.Cells cell number_of result cells.new cells.old }
    ensures range { IfOk result (λ v. is_number v ≡ true) }
{
    match cells.get(&cell)? {
        Value::Number(number) => Ok(number_within(number)),
        _ => Ok(0),
    }
}

/// The number that a cell holds, if it has one, as a counter may.
pub fn number_if_any<C: Cells>(cells: &mut C, cell: Cell) -> Result<Option<i32>, NoMemory>
    ensures tells { Tells C.Cells cell optional_number result cells.new cells.old }
    ensures range { IfOk result (λ number. IfSome number (λ n. is_number n ≡ true)) }
{
    match cells.get(&cell)? {
        Value::Number(number) => Ok(Some(number_within(number))),
        _ => Ok(None),
    }
}

/// The space factor of a code, from 0 to 32767, 1000 where it has none.
pub fn space_factor<C: Cells>(cells: &mut C, code: u8) -> Result<i32, NoMemory>
    ensures tells { Tells C.Cells (cells_of.Sf code) space_factor_of result cells.new cells.old }
    ensures range { IfOk result (λ v. is_space_factor v ≡ true) }
{
    match cells.get(&Cell::Sf(code))? {
        Value::Number(number) => Ok(between(0, 32767, number, 1000)),
        _ => Ok(1000),
    }
}

/// The style of the present font, from 0 to 5.
pub fn style<C: Cells>(cells: &mut C) -> Result<i32, NoMemory>
    ensures tells { Tells C.Cells cells_of.Style style_of result cells.new cells.old }
    ensures range { IfOk result (λ v. is_style v ≡ true) }
{
    match cells.get(&Cell::Style)? {
        Value::Number(number) => Ok(between(0, 5, number, 0)),
        _ => Ok(0),
    }
}

/// The size of the present font, from 0 to 9.
pub fn size<C: Cells>(cells: &mut C) -> Result<i32, NoMemory>
    ensures tells { Tells C.Cells cells_of.Size size_of result cells.new cells.old }
    ensures range { IfOk result (λ v. is_size v ≡ true) }
{
    match cells.get(&Cell::Size)? {
        Value::Number(number) => Ok(between(0, 9, number, 0)),
        _ => Ok(0),
    }
}

/// The steps that a piece may take.
pub fn steps<C: Cells>(cells: &mut C) -> Result<u64, NoMemory>
    ensures tells { Tells C.Cells cells_of.Steps steps_of result cells.new cells.old }
{
    match cells.get(&Cell::Steps)? {
        Value::Steps(steps) => Ok(steps),
        _ => Ok(0),
    }
}

/// The dimension that a cell holds, in scaled points.
pub fn dimension<C: Cells>(cells: &mut C, cell: Cell) -> Result<i32, NoMemory>
    ensures tells { Tells C.Cells cell dimension_of result cells.new cells.old }
    ensures range { IfOk result (λ v. is_dimension v ≡ true) }
{
    match cells.get(&cell)? {
        Value::Dimen(dimension) => Ok(dimension_within(dimension)),
        _ => Ok(0),
    }
}

/// The glue that a cell holds.
pub fn glue<C: Cells>(cells: &mut C, cell: Cell) -> Result<Glue, NoMemory>
    ensures tells { Tells C.Cells cell glue_of result cells.new cells.old }
    ensures range { IfOk result (λ v. is_glue v ≡ true) }
{
    match cells.get(&cell)? {
        Value::Glue(glue) => Ok(glue_within(glue)),
        _ => Ok(NO_GLUE),
    }
}

/// The meaning of a control sequence or an active character, if it has one.
pub fn meaning<C: Cells>(cells: &mut C, cell: Cell) -> Result<Option<Meaning>, NoMemory>
    ensures tells { Tells C.Cells cell meaning_of result cells.new cells.old }
{
    match cells.get(&cell)? {
        Value::Meaning(meaning) => Ok(Some(meaning)),
        _ => Ok(None),
    }
}

/// The tokens that a register holds, if it has any.
pub fn tokens<C: Cells>(cells: &mut C, cell: Cell) -> Result<Option<Shared<TokList>>, NoMemory>
    ensures tells { Tells C.Cells cell tokens_of result cells.new cells.old }
{
    match cells.get(&cell)? {
        Value::Tokens(tokens) => Ok(Some(tokens)),
        _ => Ok(None),
    }
}

/// The text that a cell holds, or the bytes of a file, if there are any.
pub fn text<C: Cells>(cells: &mut C, cell: Cell) -> Result<Option<Shared<Bytes>>, NoMemory>
    ensures tells { Tells C.Cells cell text_of result cells.new cells.old }
{
    match cells.get(&cell)? {
        Value::Text(text) => Ok(Some(text)),
        _ => Ok(None),
    }
}

/// The names that a cell lists, if it has a list.
pub fn names<C: Cells>(cells: &mut C, cell: Cell) -> Result<Option<Shared<NameList>>, NoMemory>
    ensures tells { Tells C.Cells cell names_of result cells.new cells.old }
{
    match cells.get(&cell)? {
        Value::Names(names) => Ok(Some(names)),
        _ => Ok(None),
    }
}

/// The name that a cell holds, if it has one.
pub fn name<C: Cells>(cells: &mut C, cell: Cell) -> Result<Option<Name>, NoMemory>
    ensures tells { Tells C.Cells cell name_of result cells.new cells.old }
{
    match cells.get(&cell)? {
        Value::Name(name) => Ok(Some(name)),
        _ => Ok(None),
    }
}

/// The box that a cell holds, if it has one.
pub fn boxed<C: Cells>(cells: &mut C, cell: Cell) -> Result<Option<Shared<Boxed>>, NoMemory>
    ensures tells { Tells C.Cells cell boxed_of result cells.new cells.old }
{
    match cells.get(&cell)? {
        Value::Boxed(boxed) => Ok(Some(boxed)),
        _ => Ok(None),
    }
}

/// What a label stands for, if there is one.
pub fn label<C: Cells>(cells: &mut C, cell: Cell) -> Result<Option<Shared<LabelPair>>, NoMemory>
    ensures tells { Tells C.Cells cell label_of result cells.new cells.old }
{
    match cells.get(&cell)? {
        Value::Label(label) => Ok(Some(label)),
        _ => Ok(None),
    }
}

/// The stored checkpoint of a chapter, if there is one.
pub fn checkpoint<C: Cells>(
    cells: &mut C,
    cell: Cell,
) -> Result<Option<Shared<CounterList>>, NoMemory>
    ensures tells { Tells C.Cells cell checkpoint_of result cells.new cells.old }
{
    match cells.get(&cell)? {
        Value::Checkpoint(counters) => Ok(Some(counters)),
        _ => Ok(None),
    }
}

/// The form that a cell holds, if it has one.
pub fn form<C: Cells>(cells: &mut C, cell: Cell) -> Result<Option<Form>, NoMemory>
    ensures tells { Tells C.Cells cell form_of result cells.new cells.old }
{
    match cells.get(&cell)? {
        Value::Form(form) => Ok(Some(form)),
        _ => Ok(None),
    }
}

/// The style of pages that a cell holds, if it has one.
pub fn page_style<C: Cells>(cells: &mut C, cell: Cell) -> Result<Option<PageStyle>, NoMemory>
    ensures tells { Tells C.Cells cell page_style_of result cells.new cells.old }
{
    match cells.get(&cell)? {
        Value::PageStyle(style) => Ok(Some(style)),
        _ => Ok(None),
    }
}
