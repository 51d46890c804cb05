//! Registers, parameters and codes that are set to what is read (TeXbook, chapter 24; tex.web, part 49, sections 1226 to 1235).
ghost use Rattle.std.specs.Prelude.{◌≡◌, List};
ghost use Rattle.lb_base.specs.declared.token.Tok.{Tok as AToken};
ghost use Rattle.lb_model_engine.specs.Reads.{code, group_rest};
ghost use Rattle.lb_model_engine.specs.Registers.{register_tokens, tokens, tokens_to};
ghost use Rattle.lb_model_nest.specs.Wholes.{Executed, Whole};
ghost use Rattle.lb_engine.specs.Leads.{Holds, Leads};
ghost use Rattle.lb_engine.specs.Reads.{behind_reading};
ghost use Rattle.lb_engine.specs.Registers.{from_place};

use crate::engine::Engine;
use crate::quantities::code;
use crate::reading::Reading;
use crate::spaces::past_spaces;
use crate::unexpanded::group_rest;
use lb_base::{Category, Kind, NoMemory, TokList};
use lb_groups::looks;
use lb_model::Cells;
use lb_model_nest::Went;
use lb_rows::Command;
use lb_values::{Cell, Meaning, Register, Shared};

// The tokens of a register, none where it holds none.
fn register_tokens<C: Cells>(
    cells: &mut C,
    engine: &mut Engine,
    number: u8,
) -> Result<Reading<Shared<TokList>>, NoMemory>
    requires holds { Holds C.Cells cells.old engine.old }
    ensures leads { (row : List AToken → Whole → Executed) → Leads C.Cells (register_tokens number row) (behind_reading row) result
        cells.new engine.new cells.old engine.old }
{
    match looks::tokens(cells, &engine.desk.groups, Cell::Toks(number))? {
        Some(toks) => Ok(Reading::Of(toks)),
        None => {
            let alloc = engine.desk.alloc;
            let none = Shared::new(alloc, TokList::new(alloc))?;
            Ok(Reading::Of(none))
        }
    }
}

// The tokens of a register whose number comes.
fn picked_tokens<C: Cells>(
    cells: &mut C,
    engine: &mut Engine,
) -> Result<Reading<Shared<TokList>>, NoMemory>
    requires holds { Holds C.Cells cells.old engine.old }
    ensures leads { (row : List AToken → Whole → Executed) → Leads C.Cells (code (λ n v. register_tokens n row v)) (behind_reading row) result
        cells.new engine.new cells.old engine.old }
{
    match code(cells, engine)? {
        Reading::Of(number) => register_tokens(cells, engine, number),
        Reading::Stops(went) => Ok(Reading::Stops(went)),
    }
}

// The rest of a group, as tokens that are shared.
fn shared_rest<C: Cells>(
    cells: &mut C,
    engine: &mut Engine,
) -> Result<Reading<Shared<TokList>>, NoMemory>
    requires holds { Holds C.Cells cells.old engine.old }
    ensures leads { (row : List AToken → Whole → Executed) → Leads C.Cells (group_rest row) (behind_reading row) result
        cells.new engine.new cells.old engine.old }
{
    match group_rest(cells, engine)? {
        Reading::Of(toks) => {
            let shared = Shared::new(engine.desk.alloc, toks)?;
            Ok(Reading::Of(shared))
        }
        Reading::Stops(went) => Ok(Reading::Stops(went)),
    }
}

// Where a list of tokens is, by the meaning of what it begins with.
#[derive(Clone, Copy)]
enum Place {
    Group,
    Register(u8),
    Picked,
    Nowhere,
}

fn place_of(meaning: &Option<Meaning>) -> Place
    ensures place { (row : List AToken → Whole → Executed) (w : Whole) → tokens_to meaning.now row w ≡ from_place result row w }
{
    match meaning {
        Some(Meaning::Char(Category::BeginGroup, _)) => Place::Group,
        Some(Meaning::Register(Register::Toks(number))) => Place::Register(*number),
        Some(Meaning::Row(Command::Toks)) => Place::Picked,
        _ => Place::Nowhere,
    }
}

// The tokens that stand at a place.
fn tokens_at<C: Cells>(
    cells: &mut C,
    engine: &mut Engine,
    place: Place,
) -> Result<Reading<Shared<TokList>>, NoMemory>
    requires holds { Holds C.Cells cells.old engine.old }
    ensures leads { (row : List AToken → Whole → Executed) → Leads C.Cells (from_place place row) (behind_reading row) result
        cells.new engine.new cells.old engine.old }
{
    match place {
        Place::Group => shared_rest(cells, engine),
        Place::Register(number) => register_tokens(cells, engine, number),
        Place::Picked => picked_tokens(cells, engine),
        Place::Nowhere => Ok(Reading::Stops(Went::Stopped(Kind::TokenMisplaced))),
    }
}

/// A list of tokens: the rest of a group, behind a brace or what means one; or those of a register.
pub fn tokens<C: Cells>(
    cells: &mut C,
    engine: &mut Engine,
) -> Result<Reading<Shared<TokList>>, NoMemory>
    requires holds { Holds C.Cells cells.old engine.old }
    ensures leads { (row : List AToken → Whole → Executed) → Leads C.Cells (tokens row) (behind_reading row) result cells.new engine.new cells.old engine.old }
{
    match past_spaces(cells, engine)? {
        Reading::Of((_tok, meaning)) => {
            let place = place_of(&meaning);
            tokens_at(cells, engine, place)
        }
        Reading::Stops(went) => Ok(Reading::Stops(went)),
    }
}
