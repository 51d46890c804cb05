//! Tokens, and the end of the piece, go to the innermost reading.
ghost use Rattle.std.specs.Prelude.{◌≡◌, None};
ghost use Rattle.lb_model_expansion.specs.Expansion.{at_end, end_met, got_met, handed, handed_to, internal_given};
ghost use Rattle.lb_model.specs.declared.place.Got.TheVariants.{End as GotEnd};
ghost use Rattle.lb_quantities.specs.Finds.{internal_of};
ghost use Rattle.lb_expand.specs.Closings.{handed_on, pair_given};
ghost use Rattle.lb_expand.specs.Feeding.{ClosesOver, PerformsOver, TurnsOver};
ghost use Rattle.lb_expand.specs.Opens.{reading_of};

use crate::closing::Closed;
use crate::feeder::Feeder;
use crate::pairs::seen_as;
use crate::readings::Opened;
use lb_base::{Kind, NoMemory, Tok};
use lb_model::{Cells, Pairing};
use lb_model_expansion::Went;
use lb_model_grammar::Given;
use lb_quantities::Found;
use lb_values::Meaning;
use std::alloc::AllocError;

/// The most readings that are given a quantity one after another.
const MOST_TURNS: u64 = 18_446_744_060_824_649_728;

impl<'a, C: Cells> Feeder<'a, C> {
    // A test of two tokens is given one.
    fn give_pair(
        &mut self,
        pairing: Pairing,
        first: Option<u16>,
        meaning: &Option<Meaning>,
        tok: &Tok,
    ) -> Result<Went, NoMemory>
        ensures performs { PerformsOver C.Cells (pair_given meaning.now tok.now pairing first) result self.new self.old }
        ensures same_cells { self.new.cells.ghost_name ≡ self.old.cells.ghost_name }
        ensures same_desk { self.new.desk.ghost_name ≡ self.old.desk.ghost_name }
    {
        match first {
            None => self.keep_first(pairing, seen_as(pairing, tok, meaning)),
            Some(first) => self.compare_pair(pairing, first, seen_as(pairing, tok, meaning)),
        }
    }

    // A reading is given a token of a meaning.
    #[tactic(auto, using(crate::proofs::CloseLemmas::closes_went))]
    fn give(
        &mut self,
        opened: Opened,
        meaning: &Option<Meaning>,
        tok: Tok,
    ) -> Result<Closed, NoMemory>
        ensures closes { ClosesOver C.Cells (handed_to meaning.now tok (reading_of opened).kind (reading_of opened).given) result self.new self.old }
        ensures same_cells { self.new.cells.ghost_name ≡ self.old.cells.ghost_name }
        ensures same_desk { self.new.desk.ghost_name ≡ self.old.desk.ghost_name }
    {
        match opened {
            Opened::Scan(scan, purpose) => self.give_scan(scan, purpose, Given::Tok(tok), meaning),
            Opened::Word(text, purpose) => self.give_word(text, purpose, &tok),
            Opened::Name(text) => {
                let went = self.give_name(text, meaning, &tok)?;
                Ok(Closed::Went(went))
            }
            Opened::File(text) => {
                let went = self.give_file(text, tok)?;
                Ok(Closed::Went(went))
            }
            Opened::Body(text) => {
                let went = self.give_body(text, tok)?;
                Ok(Closed::Went(went))
            }
            Opened::Codes(pairing, first) => {
                let went = self.give_pair(pairing, first, meaning, &tok)?;
                Ok(Closed::Went(went))
            }
            Opened::Relation(compared, left) => {
                let went = self.give_relation(compared, left, &tok)?;
                Ok(Closed::Went(went))
            }
            Opened::Quantity => Ok(Closed::Went(Went::Stopped(Kind::TokenMisplaced))),
            Opened::After(held) => {
                let went = self.give_held(held, tok)?;
                Ok(Closed::Went(went))
            }
            Opened::Held(held) => {
                let went = self.give_held(held, tok)?;
                Ok(Closed::Went(went))
            }
            Opened::The => self.ask_of(Opened::The, meaning),
        }
    }

    // A reading is given the end of the piece.
    #[tactic(auto, using(crate::proofs::CloseLemmas::closes_went))]
    fn give_end(&mut self, opened: Opened) -> Result<Closed, NoMemory>
        ensures closes { ClosesOver C.Cells (end_met (reading_of opened).kind (reading_of opened).given) result self.new self.old }
        ensures same_cells { self.new.cells.ghost_name ≡ self.old.cells.ghost_name }
        ensures same_desk { self.new.desk.ghost_name ≡ self.old.desk.ghost_name }
    {
        match opened {
            Opened::Scan(scan, purpose) => self.give_scan(scan, purpose, Given::End, &None),
            Opened::File(_text) => Ok(Closed::Went(Went::Stopped(Kind::Runaway))),
            Opened::Word(_text, _purpose) => Ok(Closed::Went(Went::Stopped(Kind::Runaway))),
            Opened::Name(_text) => Ok(Closed::Went(Went::Stopped(Kind::Runaway))),
            Opened::Body(_text) => Ok(Closed::Went(Went::Stopped(Kind::Runaway))),
            Opened::Codes(_pairing, _first) => Ok(Closed::Went(Went::Stopped(Kind::Runaway))),
            Opened::Relation(_compared, _left) => Ok(Closed::Went(Went::Stopped(Kind::Runaway))),
            Opened::Quantity => Ok(Closed::Went(Went::Stopped(Kind::Runaway))),
            Opened::After(_tok) => Ok(Closed::Went(Went::Stopped(Kind::Runaway))),
            Opened::Held(_tok) => Ok(Closed::Went(Went::Stopped(Kind::Runaway))),
            Opened::The => Ok(Closed::Went(Went::Stopped(Kind::Runaway))),
        }
    }

    // The innermost reading asks for a quantity that is handed on.
    fn ask_innermost(&mut self, found: Found) -> Result<Closed, NoMemory>
        ensures turns { TurnsOver C.Cells (λ c. internal_given c.readings (internal_of found) c) result self.new self.old }
        ensures same_cells { self.new.cells.ghost_name ≡ self.old.cells.ghost_name }
        ensures same_desk { self.new.desk.ghost_name ≡ self.old.desk.ghost_name }
    {
        match self.desk.readings.take() {
            None => Ok(Closed::Went(Went::Stopped(Kind::TokenMisplaced))),
            Some(opened) => self.ask(opened, found),
        }
    }

    // A quantity goes to the innermost reading, and what that hands on to the one around it.
    fn hand_on(&mut self, found: Found) -> Result<Went, NoMemory>
        ensures performs { PerformsOver C.Cells (λ c. internal_given c.readings (internal_of found) c) result self.new self.old }
        ensures same_cells { self.new.cells.ghost_name ≡ self.old.cells.ghost_name }
        ensures same_desk { self.new.desk.ghost_name ≡ self.old.desk.ghost_name }
    {
        let mut present = found;
        'readings: for _turn in 0..MOST_TURNS {
            let closed = self.ask_innermost(present)?;
            match closed {
                Closed::Went(went) => return Ok(went),
                Closed::Hands(next) => present = next,
            }
        }
        Err(AllocError)
    }

    // What comes of a reading that closed.
    pub(crate) fn close(&mut self, closed: Closed) -> Result<Went, NoMemory>
        ensures performs { PerformsOver C.Cells (λ c. handed_on closed (internal_given c.readings) c) result self.new self.old }
        ensures same_cells { self.new.cells.ghost_name ≡ self.old.cells.ghost_name }
        ensures same_desk { self.new.desk.ghost_name ≡ self.old.desk.ghost_name }
    {
        match closed {
            Closed::Went(went) => Ok(went),
            Closed::Hands(found) => self.hand_on(found),
        }
    }

    // A token of a meaning goes to a reading that was taken.
    fn hand_to(
        &mut self,
        opened: Opened,
        meaning: &Option<Meaning>,
        tok: Tok,
    ) -> Result<Went, NoMemory>
        ensures performs { PerformsOver C.Cells (λ c. handed_to meaning.now tok (reading_of opened).kind (reading_of opened).given (internal_given
            c.readings) c) result self.new self.old }
        ensures same_cells { self.new.cells.ghost_name ≡ self.old.cells.ghost_name }
        ensures same_desk { self.new.desk.ghost_name ≡ self.old.desk.ghost_name }
    {
        let closed = self.give(opened, meaning, tok)?;
        self.close(closed)
    }

    /// A token of a meaning, which is not expanded, goes to the innermost reading, or to the caller where none is open.
    pub(crate) fn hand(&mut self, meaning: &Option<Meaning>, tok: Tok) -> Result<Went, NoMemory>
        ensures performs { PerformsOver C.Cells (λ c. handed meaning.now tok c.readings c) result self.new self.old }
        ensures same_cells { self.new.cells.ghost_name ≡ self.old.cells.ghost_name }
        ensures same_desk { self.new.desk.ghost_name ≡ self.old.desk.ghost_name }
    {
        match self.desk.readings.take() {
            None => Ok(Went::Gave(tok)),
            Some(opened) => self.hand_to(opened, meaning, tok),
        }
    }

    // The end of the piece goes to a reading that was taken.
    fn end_to(&mut self, opened: Opened) -> Result<Went, NoMemory>
        ensures performs { PerformsOver C.Cells (λ c. end_met (reading_of opened).kind (reading_of opened).given (internal_given c.readings) c) result self.new
            self.old }
        ensures same_cells { self.new.cells.ghost_name ≡ self.old.cells.ghost_name }
        ensures same_desk { self.new.desk.ghost_name ≡ self.old.desk.ghost_name }
    {
        let closed = self.give_end(opened)?;
        self.close(closed)
    }

    // The end of the piece goes to the innermost reading, or to the caller where none is open.
    fn end_innermost(&mut self) -> Result<Went, NoMemory>
        ensures performs { PerformsOver C.Cells (λ c. at_end c.readings c) result self.new self.old }
        ensures same_cells { self.new.cells.ghost_name ≡ self.old.cells.ghost_name }
        ensures same_desk { self.new.desk.ghost_name ≡ self.old.desk.ghost_name }
    {
        match self.desk.readings.take() {
            None => Ok(Went::Over),
            Some(opened) => self.end_to(opened),
        }
    }

    /// The piece has ended, or where a body is read a text.
    pub(crate) fn meet_end(&mut self) -> Result<Went, NoMemory>
        ensures performs { PerformsOver C.Cells (got_met GotEnd) result self.new self.old }
        ensures same_cells { self.new.cells.ghost_name ≡ self.old.cells.ghost_name }
        ensures same_desk { self.new.desk.ghost_name ≡ self.old.desk.ghost_name }
    {
        if self.desk.readings.ends_pass() {
            return self.end_innermost();
        }
        Ok(Went::Stopped(Kind::Runaway))
    }
}
