//! The slots of cells in a table.
ghost use Rattle.std.specs.Prelude.{◌≡◌, ◌<◌, ◌+◌, ◌*◌, MatchOption, None};
ghost use Rattle.lb_maps.specs.Slots.{parameter_slot, slot_of};

use lb_rows::Parameter;
use lb_values::Cell;

/// How many parameters there are.
const PARAMETERS: usize = 35;

/// How many cells of a kind have a byte as their key.
const BYTES: usize = 256;

/// The slot of a cell in a table, where it has one.
#[inline(always)]
#[tactic(auto, unfolding(crate::specs::Slots::slot_of))]
pub fn slot_of(cell: &Cell) -> Option<usize>
    ensures { result ≡ slot_of cell.now }
{
    match cell {
        Cell::Par(parameter) => Some(parameter_slot(*parameter)),
        Cell::Cat(byte) => Some(byte_slot(0, *byte)),
        Cell::Sf(byte) => Some(byte_slot(1, *byte)),
        Cell::Count(byte) => Some(byte_slot(2, *byte)),
        Cell::Dimen(byte) => Some(byte_slot(3, *byte)),
        Cell::Skip(byte) => Some(byte_slot(4, *byte)),
        Cell::Lc(byte) => Some(byte_slot(5, *byte)),
        Cell::Uc(byte) => Some(byte_slot(6, *byte)),
        Cell::Toks(byte) => Some(byte_slot(7, *byte)),
        Cell::Boxed(byte) => Some(byte_slot(8, *byte)),
        Cell::Active(byte) => Some(byte_slot(9, *byte)),
        _ => None,
    }
}

/// The cell once more, where it has a slot. Takes no memory.
#[tactic(auto, unfolding(crate::specs::Slots::slot_of))]
pub fn key_of_slot(cell: &Cell) -> Option<Cell>
    ensures { MatchOption result (slot_of cell.now ≡ None) (λ key. key ≡ cell.now) }
{
    match cell {
        Cell::Par(parameter) => Some(Cell::Par(*parameter)),
        Cell::Cat(byte) => Some(Cell::Cat(*byte)),
        Cell::Sf(byte) => Some(Cell::Sf(*byte)),
        Cell::Count(byte) => Some(Cell::Count(*byte)),
        Cell::Dimen(byte) => Some(Cell::Dimen(*byte)),
        Cell::Skip(byte) => Some(Cell::Skip(*byte)),
        Cell::Lc(byte) => Some(Cell::Lc(*byte)),
        Cell::Uc(byte) => Some(Cell::Uc(*byte)),
        Cell::Toks(byte) => Some(Cell::Toks(*byte)),
        Cell::Boxed(byte) => Some(Cell::Boxed(*byte)),
        Cell::Active(byte) => Some(Cell::Active(*byte)),
        _ => None,
    }
}

// The slot of a byte in one of the tables behind the parameters.
#[inline(always)]
fn byte_slot(table: usize, byte: u8) -> usize
    requires { table < 10 }
    ensures { result ≡ 35 + table * 256 + byte }
{
    PARAMETERS + table * BYTES + usize::from(byte)
}

#[tactic(auto, unfolding(crate::specs::Slots::parameter_slot))]
fn parameter_slot(parameter: Parameter) -> usize
    ensures slot { result ≡ parameter_slot parameter }
    ensures below { result < 35 }
{
    match parameter {
        Parameter::AdjDemerits => 0,
        Parameter::BaselineSkip => 1,
        Parameter::BrokenPenalty => 2,
        Parameter::ClubPenalty => 3,
        Parameter::Day => 4,
        Parameter::DoubleHyphenDemerits => 5,
        Parameter::EvenSideMargin => 6,
        Parameter::ExHyphenPenalty => 7,
        Parameter::FinalHyphenDemerits => 8,
        Parameter::FootSkip => 9,
        Parameter::HeadHeight => 10,
        Parameter::HeadSep => 11,
        Parameter::HSize => 12,
        Parameter::HyphenPenalty => 13,
        Parameter::InterLinePenalty => 14,
        Parameter::LeftSkip => 15,
        Parameter::LinePenalty => 16,
        Parameter::LineSkip => 17,
        Parameter::LineSkipLimit => 18,
        Parameter::MaxDepth => 19,
        Parameter::Month => 20,
        Parameter::OddSideMargin => 21,
        Parameter::ParFillSkip => 22,
        Parameter::ParIndent => 23,
        Parameter::ParSkip => 24,
        Parameter::Pretolerance => 25,
        Parameter::RightSkip => 26,
        Parameter::TextHeight => 27,
        Parameter::TextWidth => 28,
        Parameter::Time => 29,
        Parameter::Tolerance => 30,
        Parameter::TopMargin => 31,
        Parameter::TopSkip => 32,
        Parameter::WidowPenalty => 33,
        Parameter::Year => 34,
    }
}
