//! What cells tell inside groups, one reading for each kind of value: what each tells, and the notes as a stack.
ghost use Rattle.std.specs.Prelude.{◌≡◌, IfOk, IfSome, true};
ghost use Rattle.lb_values.specs.declared.cell.Cell.TheVariants as cells_of;
ghost use Rattle.lb_model.specs.Kinds.{boxed_of, category_of, checkpoint_of, code_of, dimension_of, form_of, glue_of, is_size, is_space_factor, is_style, label_of, meaning_of, name_of, names_of, number_of, optional_number, page_style_of, size_of, space_factor_of, steps_of, style_of, text_of, tokens_of};
ghost use Rattle.lb_model.specs.Ranges.{is_dimension, is_glue, is_number};
ghost use Rattle.lb_groups.specs.Open.{TellsIn};

use crate::groups::Groups;
use lb_base::{Boxed, Bytes, Category, Glue, Name, NameList, NoMemory, TokList};
use lb_model::{Cells, reads};
use lb_values::{Cell, CounterList, Form, LabelPair, Meaning, PageStyle, Shared, Value};

/// What a cell tells.
#[tactic(auto, using(crate::proofs::StackedLemmas::value_in))]
pub fn value<C: Cells>(cells: &mut C, groups: &Groups, cell: &Cell) -> Result<Value, NoMemory>
    ensures tells { TellsIn C.Cells groups.now cell.now (λ v. v) result cells.new cells.old }
{
    let _ = groups;
    let value = cells.get(cell)?;
    Ok(value)
}

/// The category of a code.
#[tactic(auto, using(crate::proofs::StackedLemmas::tells_in))]
pub fn category<C: Cells>(cells: &mut C, groups: &Groups, code: u8) -> Result<Category, NoMemory>
    ensures tells { TellsIn C.Cells groups.now (cells_of.Cat code) category_of result cells.new cells.old }
{
    let _ = groups;
    reads::category(cells, code)
}

/// The code that a cell of lower-case or upper-case forms holds.
#[tactic(auto, using(crate::proofs::StackedLemmas::tells_in))]
pub fn code<C: Cells>(cells: &mut C, groups: &Groups, cell: Cell) -> Result<u8, NoMemory>
    ensures tells { TellsIn C.Cells groups.now cell code_of result cells.new cells.old }
{
    let _ = groups;
    reads::code(cells, cell)
}

/// The number that a cell holds, 0 where it has none.
#[tactic(auto, using(crate::proofs::StackedLemmas::tells_in))]
pub fn number<C: Cells>(cells: &mut C, groups: &Groups, cell: Cell) -> Result<i32, NoMemory>
    ensures tells { TellsIn C.Cells groups.now cell number_of result cells.new cells.old }
    ensures range { IfOk result (λ v. is_number v ≡ true) }
{
    let _ = groups;
    reads::number(cells, cell)
}

/// The number that a cell holds, if it has one, as a counter may.
#[tactic(auto, using(crate::proofs::StackedLemmas::tells_in))]
pub fn number_if_any<C: Cells>(
    cells: &mut C,
    groups: &Groups,
    cell: Cell,
) -> Result<Option<i32>, NoMemory>
    ensures tells { TellsIn C.Cells groups.now cell optional_number result cells.new cells.old }
    ensures range { IfOk result (λ number. IfSome number (λ n. is_number n ≡ true)) }
{
    let _ = groups;
    reads::number_if_any(cells, cell)
}

/// The space factor of a code, from 0 to 32767, 1000 where it has none.
#[tactic(auto, using(crate::proofs::StackedLemmas::tells_in))]
pub fn space_factor<C: Cells>(cells: &mut C, groups: &Groups, code: u8) -> Result<i32, NoMemory>
    ensures tells { TellsIn C.Cells groups.now (cells_of.Sf code) space_factor_of result cells.new cells.old }
    ensures range { IfOk result (λ v. is_space_factor v ≡ true) }
{
    let _ = groups;
    reads::space_factor(cells, code)
}

/// The style of the present font, from 0 to 5.
#[tactic(auto, using(crate::proofs::StackedLemmas::tells_in))]
pub fn style<C: Cells>(cells: &mut C, groups: &Groups) -> Result<i32, NoMemory>
    ensures tells { TellsIn C.Cells groups.now cells_of.Style style_of result cells.new cells.old }
    ensures range { IfOk result (λ v. is_style v ≡ true) }
{
    let _ = groups;
    reads::style(cells)
}

/// The size of the present font, from 0 to 9.
#[tactic(auto, using(crate::proofs::StackedLemmas::tells_in))]
pub fn size<C: Cells>(cells: &mut C, groups: &Groups) -> Result<i32, NoMemory>
    ensures tells { TellsIn C.Cells groups.now cells_of.Size size_of result cells.new cells.old }
    ensures range { IfOk result (λ v. is_size v ≡ true) }
{
    let _ = groups;
    reads::size(cells)
}

/// The steps that a piece may take.
#[tactic(auto, using(crate::proofs::StackedLemmas::tells_in))]
pub fn steps<C: Cells>(cells: &mut C, groups: &Groups) -> Result<u64, NoMemory>
    ensures tells { TellsIn C.Cells groups.now cells_of.Steps steps_of result cells.new cells.old }
{
    let _ = groups;
    reads::steps(cells)
}

/// The dimension that a cell holds, in scaled points.
#[tactic(auto, using(crate::proofs::StackedLemmas::tells_in))]
pub fn dimension<C: Cells>(cells: &mut C, groups: &Groups, cell: Cell) -> Result<i32, NoMemory>
    ensures tells { TellsIn C.Cells groups.now cell dimension_of result cells.new cells.old }
    ensures range { IfOk result (λ v. is_dimension v ≡ true) }
{
    let _ = groups;
    reads::dimension(cells, cell)
}

/// The glue that a cell holds.
#[tactic(auto, using(crate::proofs::StackedLemmas::tells_in))]
pub fn glue<C: Cells>(cells: &mut C, groups: &Groups, cell: Cell) -> Result<Glue, NoMemory>
    ensures tells { TellsIn C.Cells groups.now cell glue_of result cells.new cells.old }
    ensures range { IfOk result (λ v. is_glue v ≡ true) }
{
    let _ = groups;
    reads::glue(cells, cell)
}

/// The meaning of a control sequence or an active character, if it has one.
#[tactic(auto, using(crate::proofs::StackedLemmas::tells_in))]
pub fn meaning<C: Cells>(
    cells: &mut C,
    groups: &Groups,
    cell: Cell,
) -> Result<Option<Meaning>, NoMemory>
    ensures tells { TellsIn C.Cells groups.now cell meaning_of result cells.new cells.old }
{
    let _ = groups;
    reads::meaning(cells, cell)
}

/// The tokens that a register holds, if it has any.
#[tactic(auto, using(crate::proofs::StackedLemmas::tells_in))]
pub fn tokens<C: Cells>(
    cells: &mut C,
    groups: &Groups,
    cell: Cell,
) -> Result<Option<Shared<TokList>>, NoMemory>
    ensures tells { TellsIn C.Cells groups.now cell tokens_of result cells.new cells.old }
{
    let _ = groups;
    reads::tokens(cells, cell)
}

/// The text that a cell holds, or the bytes of a file, if there are any.
#[tactic(auto, using(crate::proofs::StackedLemmas::tells_in))]
pub fn text<C: Cells>(
    cells: &mut C,
    groups: &Groups,
    cell: Cell,
) -> Result<Option<Shared<Bytes>>, NoMemory>
    ensures tells { TellsIn C.Cells groups.now cell text_of result cells.new cells.old }
{
    let _ = groups;
    reads::text(cells, cell)
}

/// The names that a cell lists, if it has a list.
#[tactic(auto, using(crate::proofs::StackedLemmas::tells_in))]
pub fn names<C: Cells>(
    cells: &mut C,
    groups: &Groups,
    cell: Cell,
) -> Result<Option<Shared<NameList>>, NoMemory>
    ensures tells { TellsIn C.Cells groups.now cell names_of result cells.new cells.old }
{
    let _ = groups;
    reads::names(cells, cell)
}

/// The name that a cell holds, if it has one.
#[tactic(auto, using(crate::proofs::StackedLemmas::tells_in))]
pub fn name<C: Cells>(cells: &mut C, groups: &Groups, cell: Cell) -> Result<Option<Name>, NoMemory>
    ensures tells { TellsIn C.Cells groups.now cell name_of result cells.new cells.old }
{
    let _ = groups;
    reads::name(cells, cell)
}

/// The box that a cell holds, if it has one.
#[tactic(auto, using(crate::proofs::StackedLemmas::tells_in))]
pub fn boxed<C: Cells>(
    cells: &mut C,
    groups: &Groups,
    cell: Cell,
) -> Result<Option<Shared<Boxed>>, NoMemory>
    ensures tells { TellsIn C.Cells groups.now cell boxed_of result cells.new cells.old }
{
    let _ = groups;
    reads::boxed(cells, cell)
}

/// What a label stands for, if there is one.
#[tactic(auto, using(crate::proofs::StackedLemmas::tells_in))]
pub fn label<C: Cells>(
    cells: &mut C,
    groups: &Groups,
    cell: Cell,
) -> Result<Option<Shared<LabelPair>>, NoMemory>
    ensures tells { TellsIn C.Cells groups.now cell label_of result cells.new cells.old }
{
    let _ = groups;
    reads::label(cells, cell)
}

/// The stored checkpoint of a chapter, if there is one.
#[tactic(auto, using(crate::proofs::StackedLemmas::tells_in))]
pub fn checkpoint<C: Cells>(
    cells: &mut C,
    groups: &Groups,
    cell: Cell,
) -> Result<Option<Shared<CounterList>>, NoMemory>
    ensures tells { TellsIn C.Cells groups.now cell checkpoint_of result cells.new cells.old }
{
    let _ = groups;
    reads::checkpoint(cells, cell)
}

/// The form that a cell holds, if it has one.
#[tactic(auto, using(crate::proofs::StackedLemmas::tells_in))]
pub fn form<C: Cells>(cells: &mut C, groups: &Groups, cell: Cell) -> Result<Option<Form>, NoMemory>
    ensures tells { TellsIn C.Cells groups.now cell form_of result cells.new cells.old }
{
    let _ = groups;
    reads::form(cells, cell)
}

/// The style of pages that a cell holds, if it has one.
#[tactic(auto, using(crate::proofs::StackedLemmas::tells_in))]
pub fn page_style<C: Cells>(
    cells: &mut C,
    groups: &Groups,
    cell: Cell,
) -> Result<Option<PageStyle>, NoMemory>
    ensures tells { TellsIn C.Cells groups.now cell page_style_of result cells.new cells.old }
{
    let _ = groups;
    reads::page_style(cells, cell)
}
