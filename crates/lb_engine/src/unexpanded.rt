//! What rows read without expansion: tokens, control sequences, arguments, and what may come before them (TeXbook, chapter 20; source2e, file
//! ltdefns).
ghost use Rattle.std.specs.Prelude.{◌≡◌, List, [], Some, Bool, false, IfOk};
ghost use Rattle.lb_base.specs.declared.token.Tok.{Tok as AToken};
ghost use Rattle.lb_values.specs.declared.cell.Cell.{Cell as ACell};
ghost use Rattle.lb_model_engine.specs.Definitions.{ParameterText as AText, let_source, parameter_text};
ghost use Rattle.lb_model_engine.specs.Reads.{argument, control, control_to, group_rest, reading, reading_on, star, taking};
ghost use Rattle.lb_model_nest.specs.Wholes.{Executed, Whole};
ghost use Rattle.lb_engine.specs.Leads.{Holds, Leads};
ghost use Rattle.lb_engine.specs.Names.{IsName};
ghost use Rattle.lb_engine.specs.Reads.{behind_reading};
ghost use Rattle.lb_engine.specs.Unexpanded.{settled};

use crate::engine::Engine;
use crate::journal::make_ready;
use crate::let_sources::read_let_source;
use crate::parameters::{ParameterText, read_parameters};
use crate::reading::Reading;
use crate::stars::read_star;
use lb_args::{read_group, read_undelimited};
use lb_base::{Kind, NoMemory, Stop, Tok, TokList};
use lb_expand::Feeder;
use lb_model::{Cells, Feed};
use lb_model_nest::Went;
use lb_values::Cell;
use std::alloc::AllocError;

// How a row goes on by what was read.
pub(crate) fn settled<T>(read: Result<T, Stop>) -> Result<Reading<T>, NoMemory>
    ensures { IfOk result (λ going. settled read ≡ Some going) }
{
    match read {
        Ok(value) => Ok(Reading::Of(value)),
        Err(Stop::Fault(kind)) => Ok(Reading::Stops(Went::Stopped(kind))),
        Err(Stop::At(fault)) => Ok(Reading::Stops(Went::StoppedAt(fault))),
        Err(Stop::Memory) => Err(AllocError),
    }
}

/// The next token; the piece may not end before one.
pub fn token<C: Cells>(cells: &mut C, engine: &mut Engine) -> Result<Reading<Tok>, NoMemory>
    requires holds { Holds C.Cells cells.old engine.old }
    ensures leads { (row : AToken → Whole → Executed) → Leads C.Cells (taking row) (behind_reading row) result cells.new engine.new cells.old engine.old }
{
    make_ready(engine)?;
    let mut feeder = Feeder {
        cells: &mut *cells,
        desk: &mut engine.desk,
    };
    match feeder.plain() {
        Ok(Some(tok)) => Ok(Reading::Of(tok)),
        Ok(None) => Ok(Reading::Stops(Went::Stopped(Kind::Runaway))),
        Err(Stop::Fault(kind)) => Ok(Reading::Stops(Went::Stopped(kind))),
        Err(_) => Err(AllocError),
    }
}

// The cell of the meaning of a control sequence or an active character.
pub(crate) fn control_of(tok: Tok) -> Reading<Cell>
    ensures control { (row : ACell → Whole → Executed) (w : Whole) → control_to tok row w ≡ behind_reading row result w }
    ensures name { IsName result }
{
    match tok {
        Tok::Word(name) => Reading::Of(Cell::Word(name)),
        Tok::Active(code) => Reading::Of(Cell::Active(code)),
        Tok::Char(_, _) | Tok::Param(_) => Reading::Stops(Went::Stopped(Kind::TokenMisplaced)),
    }
}

/// A control sequence or an active character, as the cell of its meaning.
pub fn control<C: Cells>(cells: &mut C, engine: &mut Engine) -> Result<Reading<Cell>, NoMemory>
    requires holds { Holds C.Cells cells.old engine.old }
    ensures leads { (row : ACell → Whole → Executed) → Leads C.Cells (control row) (behind_reading row) result cells.new engine.new cells.old engine.old }
    ensures name { IfOk result IsName }
{
    match token(cells, engine)? {
        Reading::Of(tok) => Ok(control_of(tok)),
        Reading::Stops(went) => Ok(Reading::Stops(went)),
    }
}

/// An argument without delimiter, which may have `\par`.
pub fn argument<C: Cells>(cells: &mut C, engine: &mut Engine) -> Result<Reading<TokList>, NoMemory>
    requires holds { Holds C.Cells cells.old engine.old }
    ensures leads { (row : List AToken → Whole → Executed) → Leads C.Cells (argument row) (behind_reading row) result cells.new engine.new cells.old engine.old }
{
    make_ready(engine)?;
    let alloc = engine.desk.alloc;
    let mut feeder = Feeder {
        cells: &mut *cells,
        desk: &mut engine.desk,
    };
    let read = read_undelimited(alloc, &mut feeder, true);
    settled(read)
}

/// The rest of a group whose opening brace was taken.
pub fn group_rest<C: Cells>(
    cells: &mut C,
    engine: &mut Engine,
) -> Result<Reading<TokList>, NoMemory>
    requires holds { Holds C.Cells cells.old engine.old }
    ensures leads { (row : List AToken → Whole → Executed) → Leads C.Cells (group_rest row) (behind_reading row) result cells.new engine.new cells.old engine.old }
{
    make_ready(engine)?;
    let alloc = engine.desk.alloc;
    let mut feeder = Feeder {
        cells: &mut *cells,
        desk: &mut engine.desk,
    };
    let read = read_group(alloc, &mut feeder, true);
    settled(read)
}

/// Whether a star comes, which is taken then.
pub fn star<C: Cells>(cells: &mut C, engine: &mut Engine) -> Result<Reading<bool>, NoMemory>
    requires holds { Holds C.Cells cells.old engine.old }
    ensures leads { (row : Bool → Whole → Executed) → Leads C.Cells (reading star row) (behind_reading row) result cells.new engine.new cells.old engine.old }
{
    make_ready(engine)?;
    let mut feeder = Feeder {
        cells: &mut *cells,
        desk: &mut engine.desk,
    };
    let read = read_star(&mut feeder);
    settled(read)
}

/// The token whose meaning a name gets: it stands behind `=` and a space, both of which may be left out.
pub fn let_source<C: Cells>(cells: &mut C, engine: &mut Engine) -> Result<Reading<Tok>, NoMemory>
    requires holds { Holds C.Cells cells.old engine.old }
    ensures leads { (row : AToken → Whole → Executed) → Leads C.Cells (reading_on let_source row) (behind_reading row) result
        cells.new engine.new cells.old engine.old }
{
    make_ready(engine)?;
    let mut feeder = Feeder {
        cells: &mut *cells,
        desk: &mut engine.desk,
    };
    let read = read_let_source(&mut feeder);
    settled(read)
}

/// The parameter text of a macro, up to the opening brace of its body, which is taken.
pub fn parameter_text<C: Cells>(
    cells: &mut C,
    engine: &mut Engine,
) -> Result<Reading<ParameterText>, NoMemory>
    requires holds { Holds C.Cells cells.old engine.old }
    ensures leads { (row : AText → Whole → Executed) → Leads C.Cells (reading (parameter_text false 0 []) row) (behind_reading row) result
        cells.new engine.new cells.old engine.old }
{
    make_ready(engine)?;
    let alloc = engine.desk.alloc;
    let mut feeder = Feeder {
        cells: &mut *cells,
        desk: &mut engine.desk,
    };
    let read = read_parameters(alloc, &mut feeder);
    settled(read)
}
