//! Conditionals: what their tests choose, and the text of them that is skipped.
ghost use Rattle.std.specs.Prelude.{◌≡◌, ◌∷◌, [], codes};
ghost use Rattle.lb_base.specs.declared.fault.Kind.TheVariants.{ExtraFi};
ghost use Rattle.lb_model.specs.Conditionals.{decided_as, inside, passed};
ghost use Rattle.lb_model_expansion.specs.Expansion.{case_of, decided, part_ended, part_left, part_met, skipped_case, skipped_false, skipped_rest, stopped_at, with_conditionals};
ghost use Rattle.lb_base.specs.declared.token.Tok.{Tok as AToken};
ghost use Rattle.lb_model_expansion.specs.Steps.{on, put, stopped};
ghost use Rattle.lb_expand.specs.Cases.{case_turned};
ghost use Rattle.lb_expand.specs.Works.{Leads, Works};
ghost use Rattle.lb_expand.specs.Feeding.{PerformsOver};

use crate::desk::Desk;
use crate::feeder::Feeder;
use crate::putting::put_two;
use lb_base::{Kind, Name, NoMemory, Stop, Tok};
use lb_cond::{may_end, skip_to};
use lb_model::{Cells, Conditional};
use lb_model_expansion::Went;
use lb_model_grammar::{Branch, Sought, Stopper};
use std::alloc::AllocError;

// Where `\ifcase` of a number goes on: at its first part, or past so many `\or`, or where that is 0 past all of them.
#[derive(Clone, Copy)]
enum CaseTurn {
    First,
    Past(u64),
}

// What follows a stop in the text of a false test.
fn stop_false(desk: &mut Desk, stopper: Stopper) -> Result<Went, NoMemory>
    ensures works { Works (λ c. stopped_at stopper (stopped ExtraFi c) c) result desk.new desk.old }
{
    match stopper {
        Stopper::Fi => {
            desk.conditionals.pass(Stopper::Fi);
            Ok(Went::On)
        }
        Stopper::Else => {
            desk.conditionals.pass(Stopper::Else);
            Ok(Went::On)
        }
        Stopper::Or => Ok(Went::Stopped(Kind::ExtraFi)),
    }
}

// What follows a stop in the text of `\ifcase`.
fn stop_case(desk: &mut Desk, stopper: Stopper) -> Result<Went, NoMemory>
    ensures works { Works (λ c. stopped_at stopper (on (with_conditionals (passed Stopper.Or c.conditionals) c)) c) result desk.new desk.old }
{
    desk.conditionals.pass(stopper);
    Ok(Went::On)
}

// Where `\ifcase` of a number goes on.
#[tactic(auto, using(crate::proofs::Cases::case_above, crate::proofs::Cases::case_below))]
fn case_turn(number: i64) -> CaseTurn
    ensures { case_of number ≡ case_turned result }
{
    if number > 0 {
        return CaseTurn::Past(number.unsigned_abs());
    }
    if number < 0 {
        return CaseTurn::Past(0);
    }
    CaseTurn::First
}

// A `\relax` and the token, before the rest.
fn put_relax(desk: &mut Desk, tok: Tok) -> Result<Went, NoMemory>
    ensures works { Works (put (AToken.Word (codes "relax") ∷ tok ∷ [])) result desk.new desk.old }
{
    let relax = Tok::Word(Name::from_slice(desk.alloc, b"relax")?);
    put_two(desk, relax, tok)
}

impl<'a, C: Cells> Feeder<'a, C> {
    // The innermost conditional is closed.
    fn close_conditional(&mut self) -> Result<Went, NoMemory>
        ensures performs { PerformsOver C.Cells (λ c. on (with_conditionals (passed Stopper.Fi c.conditionals) c)) result self.new self.old }
        ensures same_cells { self.new.cells.ghost_name ≡ self.old.cells.ghost_name }
        ensures same_desk { self.new.desk.ghost_name ≡ self.old.desk.ghost_name }
    {
        self.desk.conditionals.pass(Stopper::Fi);
        Ok(Went::On)
    }

    // A part of the conditional whose condition is read is read from now on.
    fn decide(&mut self, part: Conditional) -> Result<Went, NoMemory>
        ensures performs { PerformsOver C.Cells (λ c. on (with_conditionals (decided_as part c.conditionals) c)) result self.new self.old }
        ensures same_cells { self.new.cells.ghost_name ≡ self.old.cells.ghost_name }
        ensures same_desk { self.new.desk.ghost_name ≡ self.old.desk.ghost_name }
    {
        let alloc = self.desk.alloc;
        self.desk.conditionals.decide(alloc, part)?;
        Ok(Went::On)
    }

    // The text of a false test is skipped.
    fn skip_false(&mut self) -> Result<Went, NoMemory>
        ensures performs { PerformsOver C.Cells skipped_false result self.new self.old }
        ensures same_cells { self.new.cells.ghost_name ≡ self.old.cells.ghost_name }
        ensures same_desk { self.new.desk.ghost_name ≡ self.old.desk.ghost_name }
    {
        let inside = self.desk.conditionals.leave_inside()?;
        match skip_to(self, inside, Sought::Any) {
            Ok(stopper) => stop_false(self.desk, stopper),
            Err(Stop::Fault(kind)) => Ok(Went::Stopped(kind)),
            Err(_) => Err(AllocError),
        }
    }

    // Text is skipped past so many `\or`, or where that is 0 past all of them.
    fn skip_case(&mut self, count: u64) -> Result<Went, NoMemory>
        ensures performs { PerformsOver C.Cells (skipped_case count) result self.new self.old }
        ensures same_cells { self.new.cells.ghost_name ≡ self.old.cells.ghost_name }
        ensures same_desk { self.new.desk.ghost_name ≡ self.old.desk.ghost_name }
    {
        let inside = self.desk.conditionals.leave_inside()?;
        match skip_to(self, inside, Sought::Nth(count)) {
            Ok(stopper) => stop_case(self.desk, stopper),
            Err(Stop::Fault(kind)) => Ok(Went::Stopped(kind)),
            Err(_) => Err(AllocError),
        }
    }

    // Text is skipped behind a part that was read.
    fn skip_rest(&mut self) -> Result<Went, NoMemory>
        ensures performs { PerformsOver C.Cells (skipped_rest) result self.new self.old }
        ensures same_cells { self.new.cells.ghost_name ≡ self.old.cells.ghost_name }
        ensures same_desk { self.new.desk.ghost_name ≡ self.old.desk.ghost_name }
    {
        match skip_to(self, 0, Sought::End) {
            Ok(_stopper) => self.close_conditional(),
            Err(Stop::Fault(kind)) => Ok(Went::Stopped(kind)),
            Err(_) => Err(AllocError),
        }
    }

    // `\ifcase` goes on.
    fn begin_case(&mut self, turn: CaseTurn) -> Result<Went, NoMemory>
        ensures performs { PerformsOver C.Cells (case_turned turn) result self.new self.old }
        ensures same_cells { self.new.cells.ghost_name ≡ self.old.cells.ghost_name }
        ensures same_desk { self.new.desk.ghost_name ≡ self.old.desk.ghost_name }
    {
        match turn {
            CaseTurn::First => self.decide(Conditional::Case),
            CaseTurn::Past(count) => self.skip_case(count),
        }
    }

    /// The part that a test chose is read from now on.
    pub(crate) fn begin_part(&mut self, branch: Branch) -> Result<Went, NoMemory>
        ensures performs { PerformsOver C.Cells (decided branch) result self.new self.old }
        ensures same_cells { self.new.cells.ghost_name ≡ self.old.cells.ghost_name }
        ensures same_desk { self.new.desk.ghost_name ≡ self.old.desk.ghost_name }
    {
        match branch {
            Branch::Then => self.decide(Conditional::Then),
            Branch::Otherwise => self.skip_false(),
            Branch::Part(number) => self.begin_case(case_turn(number)),
        }
    }

    // A part ends, if it may end so.
    fn end_part(&mut self, stopper: Stopper, part: Conditional) -> Result<Went, NoMemory>
        ensures performs { PerformsOver C.Cells (part_left stopper part) result self.new self.old }
        ensures same_cells { self.new.cells.ghost_name ≡ self.old.cells.ghost_name }
        ensures same_desk { self.new.desk.ghost_name ≡ self.old.desk.ghost_name }
    {
        if !may_end(stopper, part) {
            return Ok(Went::Stopped(Kind::ExtraFi));
        }
        match stopper {
            Stopper::Fi => self.close_conditional(),
            Stopper::Or => self.skip_rest(),
            Stopper::Else => self.skip_rest(),
        }
    }

    /// `\or`, `\else` and `\fi`: while a condition is read a `\relax` comes before; else a part ends, if it may end so.
    pub(crate) fn meet_part(&mut self, stopper: Stopper, tok: Tok) -> Result<Went, NoMemory>
        ensures performs { PerformsOver C.Cells (λ c. part_met stopper tok c.conditionals c) result self.new self.old }
        ensures same_cells { self.new.cells.ghost_name ≡ self.old.cells.ghost_name }
        ensures same_desk { self.new.desk.ghost_name ≡ self.old.desk.ghost_name }
    {
        match self.desk.conditionals.innermost() {
            None => Ok(Went::Stopped(Kind::ExtraFi)),
            Some(Conditional::Deciding) => put_relax(self.desk, tok),
            Some(Conditional::Then) => self.end_part(stopper, Conditional::Then),
            Some(Conditional::Case) => self.end_part(stopper, Conditional::Case),
            Some(Conditional::Otherwise) => self.end_part(stopper, Conditional::Otherwise),
        }
    }
}
