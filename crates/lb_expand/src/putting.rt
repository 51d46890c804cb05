//! Tokens that are put before the rest, and readings that open.
ghost use Rattle.std.specs.Prelude.{◌≡◌, ◌∷◌, [], IfOk, map};
ghost use Rattle.lb_model_grammar.specs.Printed.{printed};
ghost use Rattle.lb_model_expansion.specs.Expansion.{opened, opened_uncounted, with_reading};
ghost use Rattle.lb_model_expansion.specs.Steps.{on, put};
ghost use Rattle.lb_expand.specs.Opens.{reading_of};
ghost use Rattle.lb_expand.specs.Works.{Leads, Works};

use crate::desk::Desk;
use crate::readings::Opened;
use lb_base::{Kind, NoMemory, Stop, Tok, TokList};
use lb_model_expansion::Went;
use lb_values::Shared;
use std::alloc::AllocError;

/// Puts the tokens of a list before the rest.
pub(crate) fn put_list(desk: &mut Desk, list: Shared<TokList>) -> Result<Went, NoMemory>
    ensures works { Works (put list) result desk.new desk.old }
{
    if desk.source.put_list(list)? {
        return Ok(Went::On);
    }
    Ok(Went::Stopped(Kind::DepthLimit))
}

/// Puts a token before the rest.
pub(crate) fn put_one(desk: &mut Desk, tok: Tok) -> Result<Went, NoMemory>
    ensures works { Works (put (tok ∷ [])) result desk.new desk.old }
{
    match desk.source.put_token(tok) {
        Ok(()) => Ok(Went::On),
        Err(Stop::Fault(kind)) => Ok(Went::Stopped(kind)),
        Err(_) => Err(AllocError),
    }
}

/// Puts two tokens before the rest.
pub(crate) fn put_two(desk: &mut Desk, first: Tok, second: Tok) -> Result<Went, NoMemory>
    ensures works { Works (put (first ∷ second ∷ [])) result desk.new desk.old }
{
    let mut list = TokList::new(desk.alloc);
    list.push(first)?;
    list.push(second)?;
    let went = put_list(desk, Shared::new(desk.alloc, list)?)?;
    Ok(went)
}

/// Puts no token before the rest, for which there has to be room all the same.
pub(crate) fn put_none(desk: &mut Desk) -> Result<Went, NoMemory>
    ensures works { Works (put []) result desk.new desk.old }
{
    if desk.source.has_room(0) {
        return Ok(Went::On);
    }
    Ok(Went::Stopped(Kind::DepthLimit))
}

/// Opens a reading, which counts.
pub(crate) fn open(desk: &mut Desk, reading: Opened) -> Result<Went, NoMemory>
    requires { (reading_of reading).given ≡ [] }
    ensures works { Works (opened (reading_of reading).kind) result desk.new desk.old }
{
    if !desk.readings.has_room() {
        return Ok(Went::Stopped(Kind::DepthLimit));
    }
    desk.readings.put(reading)?;
    Ok(Went::On)
}

/// Opens a reading that does not count, or for which there is room.
pub(crate) fn begin(desk: &mut Desk, reading: Opened) -> Result<Went, NoMemory>
    requires { (reading_of reading).given ≡ [] }
    ensures works { Works (opened_uncounted (reading_of reading).kind) result desk.new desk.old }
{
    desk.readings.put(reading)?;
    Ok(Went::On)
}

/// Opens a reading again.
pub(crate) fn keep(desk: &mut Desk, reading: Opened) -> Result<Went, NoMemory>
    ensures works { Works (λ c. on (with_reading (reading_of reading).kind (reading_of reading).given c)) result desk.new desk.old }
{
    desk.readings.put(reading)?;
    Ok(Went::On)
}
