//! The values of parameters at the start: those of plain TeX (TeXbook, appendix B), and the layout of a book on paper of
//! letter size (LaTeX, file bk10.clo).
ghost use Rattle.std.specs.Prelude.{◌≡◌, ◌<◌, OnOk};
ghost use Rattle.lb_rows.specs.declared.parameter.Parameter.TheVariants.{ParFillSkip};
ghost use Rattle.lb_values.specs.declared.value.Value.TheVariants as value;
ghost use Rattle.lb_model.specs.StartState.{points, start_parameter, stretching};
ghost use Rattle.lb_maps.specs.CellMap.{at};
ghost use Rattle.lb_cells.specs.StartEntries.{parameters_over};

use lb_base::{Glue, NoMemory, Order};
use lb_maps::CellMap;
use lb_rows::{PARAMETERS, Parameter};
use lb_values::{Cell, Value};

/// Gives each parameter its value. Those of the date have none.
pub fn fill_parameters(entries: &mut CellMap<Value>) -> Result<(), NoMemory>
    ensures { OnOk result (at entries.new ≡ parameters_over (at entries.old)) }
{
    let mut place = PARAMETERS;
    while place > 0 {
        place -= 1;
        let parameter = Parameter::at(place);
        entries.insert(Cell::Par(parameter), start_value(parameter))?;
    }
    Ok(())
}

// What a parameter holds at the start.
#[tactic(auto, unfolding(lb_model::specs::StartState::start_parameter))]
fn start_value(parameter: Parameter) -> Value
    ensures { result ≡ start_parameter parameter }
{
    match parameter {
        Parameter::AdjDemerits => Value::Number(10000),
        Parameter::BaselineSkip => stretching(12, 0),
        Parameter::BrokenPenalty => Value::Number(100),
        Parameter::ClubPenalty => Value::Number(150),
        Parameter::Day => Value::Absent,
        Parameter::DoubleHyphenDemerits => Value::Number(10000),
        Parameter::EvenSideMargin => dimension(0),
        Parameter::ExHyphenPenalty => Value::Number(50),
        Parameter::FinalHyphenDemerits => Value::Number(5000),
        Parameter::FootSkip => dimension(25),
        Parameter::HeadHeight => dimension(12),
        Parameter::HeadSep => dimension(18),
        Parameter::HSize => dimension(345),
        Parameter::HyphenPenalty => Value::Number(50),
        Parameter::InterLinePenalty => Value::Number(0),
        Parameter::LeftSkip => stretching(0, 0),
        Parameter::LinePenalty => Value::Number(10),
        Parameter::LineSkip => stretching(1, 0),
        Parameter::LineSkipLimit => dimension(0),
        Parameter::MaxDepth => dimension(5),
        Parameter::Month => Value::Absent,
        Parameter::OddSideMargin => dimension(0),
        Parameter::ParFillSkip => filling(),
        Parameter::ParIndent => dimension(15),
        Parameter::ParSkip => stretching(0, 1),
        Parameter::Pretolerance => Value::Number(100),
        Parameter::RightSkip => stretching(0, 0),
        Parameter::TextHeight => dimension(538),
        Parameter::TextWidth => dimension(345),
        Parameter::Time => Value::Absent,
        Parameter::Tolerance => Value::Number(200),
        Parameter::TopMargin => dimension(0),
        Parameter::TopSkip => stretching(10, 0),
        Parameter::WidowPenalty => Value::Number(150),
        Parameter::Year => Value::Absent,
    }
}

// Scaled points, of points below 16384.
fn scaled(count: u16) -> i32
    requires { count < 16384 }
    ensures { result ≡ points count }
{
    i32::from(count) * 65536
}

// A length in points.
fn dimension(count: u16) -> Value
    requires { count < 16384 }
    ensures { result ≡ value.Dimen (points count) }
{
    Value::Dimen(scaled(count))
}

// Glue in points, with finite stretch.
fn stretching(width: u16, stretch: u16) -> Value
    requires width { width < 16384 }
    requires stretch { stretch < 16384 }
    ensures { result ≡ stretching width stretch }
{
    Value::Glue(Glue {
        width: scaled(width),
        stretch: scaled(stretch),
        stretch_order: Order::Finite,
        shrink: 0,
        shrink_order: Order::Finite,
    })
}

// Glue that fills what is left of a line.
#[tactic(auto, unfolding(lb_model::specs::StartState::start_parameter))]
fn filling() -> Value
    ensures { result ≡ start_parameter ParFillSkip }
{
    Value::Glue(Glue {
        width: 0,
        stretch: scaled(1),
        stretch_order: Order::Fil,
        shrink: 0,
        shrink_order: Order::Finite,
    })
}
