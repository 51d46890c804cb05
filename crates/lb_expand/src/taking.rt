//! The next token, without expansion, and what tokens mean.
ghost use Rattle.std.specs.Prelude.{◌≡◌, IfOk, IfErr, OnOk, OnErr};
ghost use Rattle.std.specs.Option.{option_map};
ghost use Rattle.lb_model.specs.Configs.{asked, looks_by, looks_of_meaning, taken_by};
ghost use Rattle.lb_model.specs.Meanings.{meaning_in};
ghost use Rattle.lb_model.specs.Settings.{Setting, noted_all};
ghost use Rattle.lb_model.specs.Sources.{stepped};
ghost use Rattle.lb_model.specs.Stops.{MayStopAt};
ghost use Rattle.lb_model.specs.Told.{Told};
ghost use Rattle.lb_model.specs.declared.place.Got.TheVariants.{Fault as GotFault};
ghost use Rattle.lb_base.specs.declared.token.Tok.{Tok as AToken};
ghost use Rattle.lb_model.specs.Configs.{Config};
ghost use Rattle.lb_model.specs.Meanings.{token_meaning};
ghost use Rattle.lb_model_expansion.specs.Steps.{Performed, token_taken};
ghost use Rattle.lb_expand.specs.Performs.{Passes};
ghost use Rattle.lb_expand.specs.Tokens.{behind_taken};
ghost use Rattle.lb_expand.specs.Views.{config};

use crate::desk::Desk;
use lb_base::{Kind, NoMemory, Stop, Tok};
use lb_model::{Cells, reads};
use lb_model_expansion::Went;
use lb_values::{Cell, Meaning};
use std::alloc::AllocError;

/// What comes of taking a token.
#[derive(Drop)]
pub enum Taken {
    Tok(Tok),
    /// There was none, or a fault.
    Stops(Went),
}

/// The next token of a desk, which takes a step; where `passes` holds the ends of texts are passed, else none comes where the present text
/// ends. The faults are `Invalid` and `StepLimit`.
#[inline(always)]
pub(crate) fn take<C: Cells>(
    cells: &mut C,
    desk: &mut Desk,
    passes: bool,
) -> Result<Option<Tok>, Stop>
    ensures told { Told C.Cells cells.new cells.old }
    ensures ok { IfOk result (λ tok. (p : Setting) → C.agrees cells.new p → taken_by passes (config p.world (C.meaning cells.old p) desk.old) ≡ record {
      got =
          asked tok;
      next = config p.world (C.meaning cells.new p) desk.new;
    }) }
    ensures fault { IfErr result (λ e. MayStopAt e (λ k. (p : Setting) → C.agrees cells.new p → taken_by passes (config p.world (C.meaning cells.old p)
        desk.old) ≡ record { got = GotFault k; next = config p.world (C.meaning cells.new p) desk.new })) }
    ensures notes { OnOk result ((p : Setting) → C.agrees cells.new p → C.notes cells.new ≡ option_map (noted_all (looks_by passes (config p.world (C.meaning
        cells.old p) desk.old))) (C.notes cells.old)) }
    ensures notes_on_fault { IfErr result (λ e. MayStopAt e (λ k. (p : Setting) → C.agrees cells.new p → C.notes cells.new ≡ option_map (noted_all
        (looks_by passes (config p.world (C.meaning cells.old p) desk.old))) (C.notes cells.old))) }
    ensures groups { desk.new.groups ≡ desk.old.groups }
    ensures readings { desk.new.readings ≡ desk.old.readings }
{
    match desk.source.next(desk.alloc, cells, passes, &mut desk.place) {
        Ok(None) => Ok(None),
        Ok(Some(tok)) => {
            if desk.left == 0 {
                return Err(Stop::Fault(Kind::StepLimit));
            }
            desk.left -= 1;
            Ok(Some(tok))
        }
        Err(Stop::Fault(kind)) => {
            if desk.left == 0 {
                return Err(Stop::Fault(Kind::StepLimit));
            }
            desk.left -= 1;
            Err(Stop::Fault(kind))
        }
        Err(_) => Err(Stop::Memory),
    }
}

/// What a control sequence or an active character means now; none where it has no meaning or the token is neither.
pub(crate) fn meaning_of<C: Cells>(cells: &mut C, tok: &Tok) -> Result<Option<Meaning>, NoMemory>
    ensures told { Told C.Cells cells.new cells.old }
    ensures value { IfOk result (λ m. (p : Setting) → C.agrees cells.new p → meaning_in p.world (C.meaning cells.old p).now tok.now ≡ m) }
    ensures notes { OnOk result (C.notes cells.new ≡ option_map (noted_all (looks_of_meaning tok.now)) (C.notes cells.old)) }
    ensures notes_on_err { OnErr result (C.notes cells.new ≡ C.notes cells.old) }
{
    match tok {
        Tok::Word(name) => reads::meaning(cells, Cell::Word(name.clone()?)),
        Tok::Active(code) => reads::meaning(cells, Cell::Active(*code)),
        Tok::Char(_, _) | Tok::Param(_) => Ok(None),
    }
}

/// What a token means: a character means itself.
pub fn sense_of<C: Cells>(cells: &mut C, tok: &Tok) -> Result<Option<Meaning>, NoMemory>
    ensures told { Told C.Cells cells.new cells.old }
    ensures value { IfOk result (λ m. (p : Setting) → C.agrees cells.new p → token_meaning p.world (C.meaning cells.old p).now tok.now ≡ m) }
    ensures notes { OnOk result (C.notes cells.new ≡ option_map (noted_all (looks_of_meaning tok.now)) (C.notes cells.old)) }
{
    match tok {
        Tok::Char(category, code) => Ok(Some(Meaning::Char(*category, *code))),
        Tok::Word(_) => meaning_of(cells, tok),
        Tok::Active(_) => meaning_of(cells, tok),
        Tok::Param(_) => meaning_of(cells, tok),
    }
}

/// The next token, which a command takes without expansion.
pub(crate) fn take_token<C: Cells>(cells: &mut C, desk: &mut Desk) -> Result<Taken, NoMemory>
    ensures told { Told C.Cells cells.new cells.old }
    ensures taken { IfOk result (λ t. (next : AToken → Config → Performed) → Passes C.Cells (λ c. token_taken c next) (behind_taken t next) cells.new desk.new
        cells.old desk.old) }
{
    let passes = desk.readings.ends_pass();
    match take(cells, desk, passes) {
        Ok(Some(tok)) => Ok(Taken::Tok(tok)),
        Ok(None) => Ok(Taken::Stops(Went::Stopped(Kind::Runaway))),
        Err(Stop::Fault(kind)) => Ok(Taken::Stops(Went::Stopped(kind))),
        Err(_) => Err(AllocError),
    }
}
