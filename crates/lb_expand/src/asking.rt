//! Quantities that readings ask for, and texts in braces.
ghost use Rattle.std.specs.Prelude.{◌≡◌, ◌∷◌, ◌++◌, [], Option, map, Some, unwrap_or, if◌then◌else◌};
ghost use Rattle.lb_base.specs.declared.token.Category.TheVariants as category;
ghost use Rattle.lb_base.specs.declared.token.Tok.TheVariants.{Char as AChar};
ghost use Rattle.lb_model.specs.declared.open.ReadingKind.TheVariants as reading;
ghost use Rattle.lb_base.specs.declared.fault.Kind.TheVariants.{NumberMissing};
ghost use Rattle.lb_model_grammar.specs.Dimensions.{meant};
ghost use Rattle.lb_model_grammar.specs.Printed.{quantity_text};
ghost use Rattle.lb_model_grammar.specs.Scans.{want_of};
ghost use Rattle.lb_model_grammar.specs.declared.given.Given.TheVariants.{Tok as AToken};
ghost use Rattle.lb_model_expansion.specs.Expansion.{as_text, doubled, font_size, if_room, kept, scan_as, internal_met, internal_to, is_tokens, more_to_read, opened_uncounted, scan_quantity, tokens_met, with_reading, word_behind, word_opened, word_taken};
ghost use Rattle.lb_model.specs.Quantities.Internal.{Picked as APicked};
ghost use Rattle.lb_model_grammar.specs.declared.given.Quantity.TheVariants as quantities;
ghost use Rattle.lb_model_expansion.specs.declared.expansion.Answer.TheVariants as answers;
ghost use Rattle.lb_model_expansion.specs.Steps.{answered, on, put, stopped};
ghost use Rattle.lb_quantities.specs.Finds.{internal_of};
ghost use Rattle.lb_expand.specs.Closings.{more_read};
ghost use Rattle.lb_expand.specs.Opens.{reading_of};
ghost use Rattle.lb_expand.specs.Works.{Leads, Works};
ghost use Rattle.lb_expand.specs.Feeding.{ClosesOver, PerformsOver};

use crate::closing::Closed;
use crate::feeder::Feeder;
use crate::putting::{begin, keep, put_list, put_none};
use crate::readings::Opened;
use lb_args::read_undelimited;
use lb_base::{Category, Kind, NoMemory, Stop, Tok, TokList};
use lb_model::{Cells, Indexed, Purpose};
use lb_model_expansion::{Answer, Went};
use lb_model_grammar::{Given, Quantity, ScanKind, Want};
use lb_print::quantity_text;
use lb_quantities::{Found, internal};
use lb_scan::Scan;
use lb_values::{Meaning, Shared};
use lb_words::{BodyText, WordText};
use std::alloc::AllocError;

// Whether a token register is picked, which is no quantity.
fn is_tokens(indexed: Indexed) -> bool
    ensures { result ≡ is_tokens indexed }
{
    matches!(indexed, Indexed::Toks)
}

impl<'a, C: Cells> Feeder<'a, C> {
    // A text in braces is read, whose opening brace was taken.
    #[tactic(auto, using(crate::proofs::PassLemmas::works_performs))]
    fn read_text(&mut self, purpose: Purpose) -> Result<Went, NoMemory>
        ensures performs { PerformsOver C.Cells (opened_uncounted (reading.Word purpose)) result self.new self.old }
        ensures same_cells { self.new.cells.ghost_name ≡ self.old.cells.ghost_name }
        ensures same_desk { self.new.desk.ghost_name ≡ self.old.desk.ghost_name }
    {
        let text = WordText::new(self.desk.alloc);
        begin(self.desk, Opened::Word(text, purpose))
    }

    // The tokens of a text in braces are put back with a brace behind them, and read.
    pub(crate) fn put_text(&mut self, toks: TokList, purpose: Purpose) -> Result<Went, NoMemory>
        ensures performs { PerformsOver C.Cells (word_behind toks purpose) result self.new self.old }
        ensures same_cells { self.new.cells.ghost_name ≡ self.old.cells.ghost_name }
        ensures same_desk { self.new.desk.ghost_name ≡ self.old.desk.ghost_name }
    {
        let mut toks = toks;
        toks.push(Tok::Char(Category::EndGroup, b'}'))?;
        let went = self.put_tokens(toks)?;
        match went {
            Went::On => self.read_text(purpose),
            went => Ok(went),
        }
    }

    // A text in braces is taken, and then expanded to characters.
    fn take_word(&mut self, purpose: Purpose) -> Result<Went, NoMemory>
        ensures performs { PerformsOver C.Cells (word_taken purpose) result self.new self.old }
        ensures same_cells { self.new.cells.ghost_name ≡ self.old.cells.ghost_name }
        ensures same_desk { self.new.desk.ghost_name ≡ self.old.desk.ghost_name }
    {
        let alloc = self.desk.alloc;
        match read_undelimited(alloc, self, true) {
            Ok(toks) => self.put_text(toks, purpose),
            Err(Stop::Fault(kind)) => Ok(Went::Stopped(kind)),
            Err(_) => Err(AllocError),
        }
    }

    /// A text in braces is read, if one more reading may be open.
    pub(crate) fn open_word(&mut self, purpose: Purpose) -> Result<Went, NoMemory>
        ensures performs { PerformsOver C.Cells (word_opened purpose) result self.new self.old }
        ensures same_cells { self.new.cells.ghost_name ≡ self.old.cells.ghost_name }
        ensures same_desk { self.new.desk.ghost_name ≡ self.old.desk.ghost_name }
    {
        if self.desk.readings.has_room() {
            return self.take_word(purpose);
        }
        Ok(Went::Stopped(Kind::DepthLimit))
    }

    /// Tokens that were taken are read as a text in braces is, if one more reading may be open.
    pub(crate) fn open_text(&mut self, toks: TokList, purpose: Purpose) -> Result<Went, NoMemory>
        ensures performs { PerformsOver C.Cells (if_room (word_behind toks purpose)) result self.new self.old }
        ensures same_cells { self.new.cells.ghost_name ≡ self.old.cells.ghost_name }
        ensures same_desk { self.new.desk.ghost_name ≡ self.old.desk.ghost_name }
    {
        if self.desk.readings.has_room() {
            return self.put_text(toks, purpose);
        }
        Ok(Went::Stopped(Kind::DepthLimit))
    }

    // What has still to be read for the innermost reading.
    fn read_more(&mut self, found: Found) -> Result<Went, NoMemory>
        ensures performs { PerformsOver C.Cells (more_read (internal_of found)) result self.new self.old }
        ensures same_cells { self.new.cells.ghost_name ≡ self.old.cells.ghost_name }
        ensures same_desk { self.new.desk.ghost_name ≡ self.old.desk.ghost_name }
    {
        match found {
            Found::Picked(indexed) => self.read_for(ScanKind::Number, Purpose::Index(indexed)),
            Found::Known(_) => self.open_word(Purpose::CounterValue),
            Found::Tokens(_) => self.open_word(Purpose::CounterValue),
            Found::OfCounter => self.open_word(Purpose::CounterValue),
        }
    }

    // A reading goes on once more is read for it.
    fn wait_for(&mut self, opened: Opened, found: Found) -> Result<Went, NoMemory>
        ensures performs { PerformsOver C.Cells (more_to_read (internal_of found) (reading_of opened).kind (reading_of opened).given) result self.new self.old }
        ensures same_cells { self.new.cells.ghost_name ≡ self.old.cells.ghost_name }
        ensures same_desk { self.new.desk.ghost_name ≡ self.old.desk.ghost_name }
    {
        self.desk.readings.put(opened)?;
        self.read_more(found)
    }

    // A scan goes on.
    #[tactic(auto, using(crate::proofs::PassLemmas::works_performs))]
    pub(crate) fn keep_scan(&mut self, scan: Scan, purpose: Purpose) -> Result<Went, NoMemory>
        ensures performs { PerformsOver C.Cells (kept (reading.Scan scan.kind purpose) scan.given) result self.new self.old }
        ensures same_cells { self.new.cells.ghost_name ≡ self.old.cells.ghost_name }
        ensures same_desk { self.new.desk.ghost_name ≡ self.old.desk.ghost_name }
    {
        keep(self.desk, Opened::Scan(scan, purpose))
    }

    // A scan is given a quantity.
    pub(crate) fn scan_quantity(
        &mut self,
        scan: Scan,
        purpose: Purpose,
        quantity: Quantity,
    ) -> Result<Closed, NoMemory>
        ensures closes { ClosesOver C.Cells (scan_quantity scan.kind purpose scan.given quantity) result self.new self.old }
        ensures same_cells { self.new.cells.ghost_name ≡ self.old.cells.ghost_name }
        ensures same_desk { self.new.desk.ghost_name ≡ self.old.desk.ghost_name }
    {
        let mut scan = scan;
        match scan.take(Given::Quantity(quantity)) {
            Err(Stop::Fault(kind)) => Ok(Closed::Went(Went::Stopped(kind))),
            Err(_) => Err(AllocError),
            Ok(want) => self.follow_quantity(scan, purpose, want),
        }
    }

    // A scan goes on where it was given a quantity, or closes.
    fn follow_quantity(
        &mut self,
        scan: Scan,
        purpose: Purpose,
        want: Want,
    ) -> Result<Closed, NoMemory>
        requires { want_of (meant scan.kind scan.given) ≡ Some want }
        ensures closes { ClosesOver C.Cells (λ more c. scan_as (meant scan.kind scan.given) scan.kind purpose scan.given (λ asked. stopped NumberMissing c)
            more c) result self.new self.old }
        ensures same_cells { self.new.cells.ghost_name ≡ self.old.cells.ghost_name }
        ensures same_desk { self.new.desk.ghost_name ≡ self.old.desk.ghost_name }
    {
        match want {
            Want::Expanded => {
                let went = self.keep_scan(scan, purpose)?;
                Ok(Closed::Went(went))
            }
            Want::Plain => {
                let went = self.keep_scan(scan, purpose)?;
                Ok(Closed::Went(went))
            }
            Want::Quantity | Want::Em | Want::Ex | Want::Done => match scan.value() {
                Some(found) => {
                    let after = scan.give_back();
                    self.close_scan(purpose, found, after)
                }
                None => Ok(Closed::Went(Went::Stopped(Kind::NumberMissing))),
            },
        }
    }

    // The tokens of a register are put before the rest.
    #[tactic(auto, using(crate::proofs::PassLemmas::works_performs))]
    fn put_register(&mut self, toks: Option<Shared<TokList>>) -> Result<Went, NoMemory>
        ensures performs { PerformsOver C.Cells (put (unwrap_or toks [])) result self.new self.old }
        ensures same_cells { self.new.cells.ghost_name ≡ self.old.cells.ghost_name }
        ensures same_desk { self.new.desk.ghost_name ≡ self.old.desk.ghost_name }
    {
        match toks {
            None => put_none(self.desk),
            Some(toks) => put_list(self.desk, toks),
        }
    }

    // What `\the` prints of a quantity.
    fn print_found(&mut self, quantity: Quantity) -> Result<Went, NoMemory>
        ensures performs { PerformsOver C.Cells (as_text (quantity_text quantity)) result self.new self.old }
        ensures same_cells { self.new.cells.ghost_name ≡ self.old.cells.ghost_name }
        ensures same_desk { self.new.desk.ghost_name ≡ self.old.desk.ghost_name }
    {
        let text = quantity_text(self.desk.alloc, quantity)?;
        self.print_quantity(text)
    }

    // A scan asks for what a number picks.
    #[tactic(auto, using(crate::proofs::CloseLemmas::closes_went))]
    fn pick_for_scan(
        &mut self,
        scan: Scan,
        purpose: Purpose,
        indexed: Indexed,
    ) -> Result<Closed, NoMemory>
        ensures closes { ClosesOver C.Cells (λ more c. if is_tokens indexed then scan_quantity scan.kind purpose scan.given quantities.NotOne more c else
            more_to_read (APicked indexed) (reading.Scan scan.kind purpose) scan.given c) result self.new self.old }
        ensures same_cells { self.new.cells.ghost_name ≡ self.old.cells.ghost_name }
        ensures same_desk { self.new.desk.ghost_name ≡ self.old.desk.ghost_name }
    {
        if is_tokens(indexed) {
            return self.scan_quantity(scan, purpose, Quantity::NotOne);
        }
        let went = self.wait_for(Opened::Scan(scan, purpose), Found::Picked(indexed))?;
        Ok(Closed::Went(went))
    }

    // The caller asks for what a number picks.
    fn pick_for_caller(&mut self, indexed: Indexed) -> Result<Went, NoMemory>
        ensures performs { PerformsOver C.Cells (λ c. if is_tokens indexed then answered (answers.Quantity quantities.NotOne) c else more_to_read (APicked
            indexed) reading.Quantity [] c) result self.new self.old }
        ensures same_cells { self.new.cells.ghost_name ≡ self.old.cells.ghost_name }
        ensures same_desk { self.new.desk.ghost_name ≡ self.old.desk.ghost_name }
    {
        if is_tokens(indexed) {
            return Ok(Went::Answered(Answer::Quantity(Quantity::NotOne)));
        }
        self.wait_for(Opened::Quantity, Found::Picked(indexed))
    }

    // A scan asks for what begins with a token.
    #[tactic(auto, using(crate::proofs::CloseLemmas::closes_went))]
    fn ask_for_scan(
        &mut self,
        scan: Scan,
        purpose: Purpose,
        found: Found,
    ) -> Result<Closed, NoMemory>
        ensures closes { ClosesOver C.Cells (internal_to (reading.Scan scan.kind purpose) scan.given (internal_of found)) result self.new self.old }
        ensures same_cells { self.new.cells.ghost_name ≡ self.old.cells.ghost_name }
        ensures same_desk { self.new.desk.ghost_name ≡ self.old.desk.ghost_name }
    {
        match found {
            Found::Known(quantity) => self.scan_quantity(scan, purpose, quantity),
            Found::Tokens(_toks) => self.scan_quantity(scan, purpose, Quantity::NotOne),
            Found::Picked(indexed) => self.pick_for_scan(scan, purpose, indexed),
            Found::OfCounter => {
                let went = self.wait_for(Opened::Scan(scan, purpose), Found::OfCounter)?;
                Ok(Closed::Went(went))
            }
        }
    }

    // The caller asks for the quantity that begins with a token.
    #[tactic(auto, using(crate::proofs::CloseLemmas::closes_went))]
    fn ask_for_caller(&mut self, found: Found) -> Result<Closed, NoMemory>
        ensures closes { ClosesOver C.Cells (internal_to reading.Quantity [] (internal_of found)) result self.new self.old }
        ensures same_cells { self.new.cells.ghost_name ≡ self.old.cells.ghost_name }
        ensures same_desk { self.new.desk.ghost_name ≡ self.old.desk.ghost_name }
    {
        match found {
            Found::Known(quantity) => Ok(Closed::Went(Went::Answered(Answer::Quantity(quantity)))),
            Found::Tokens(_toks) => Ok(Closed::Went(Went::Answered(Answer::Quantity(
                Quantity::NotOne,
            )))),
            Found::Picked(indexed) => {
                let went = self.pick_for_caller(indexed)?;
                Ok(Closed::Went(went))
            }
            Found::OfCounter => {
                let went = self.wait_for(Opened::Quantity, Found::OfCounter)?;
                Ok(Closed::Went(went))
            }
        }
    }

    /// A body goes on.
    #[tactic(auto, using(crate::proofs::PassLemmas::works_performs))]
    pub(crate) fn keep_body(&mut self, text: BodyText) -> Result<Went, NoMemory>
        ensures performs { PerformsOver C.Cells (kept reading.Body text) result self.new self.old }
        ensures same_cells { self.new.cells.ghost_name ≡ self.old.cells.ghost_name }
        ensures same_desk { self.new.desk.ghost_name ≡ self.old.desk.ghost_name }
    {
        keep(self.desk, Opened::Body(text))
    }

    // `\the` asks for what begins with a token.
    #[tactic(auto, using(crate::proofs::CloseLemmas::closes_went))]
    fn ask_for_print(&mut self, found: Found) -> Result<Closed, NoMemory>
        ensures closes { ClosesOver C.Cells (internal_to reading.The [] (internal_of found)) result self.new self.old }
        ensures same_cells { self.new.cells.ghost_name ≡ self.old.cells.ghost_name }
        ensures same_desk { self.new.desk.ghost_name ≡ self.old.desk.ghost_name }
    {
        match found {
            Found::Known(quantity) => {
                let went = self.print_found(quantity)?;
                Ok(Closed::Went(went))
            }
            Found::Tokens(toks) => {
                let went = self.give_register(toks)?;
                Ok(Closed::Went(went))
            }
            Found::Picked(indexed) => {
                let went = self.wait_for(Opened::The, Found::Picked(indexed))?;
                Ok(Closed::Went(went))
            }
            Found::OfCounter => {
                let went = self.wait_for(Opened::The, Found::OfCounter)?;
                Ok(Closed::Went(went))
            }
        }
    }

    // A body takes the tokens of a register as they are.
    fn fill_body(&mut self, text: BodyText, toks: Option<Shared<TokList>>) -> Result<Went, NoMemory>
        ensures performs { PerformsOver C.Cells (kept reading.Body (text ++ map AToken (doubled (unwrap_or toks [])))) result self.new self.old }
        ensures same_cells { self.new.cells.ghost_name ≡ self.old.cells.ghost_name }
        ensures same_desk { self.new.desk.ghost_name ≡ self.old.desk.ghost_name }
    {
        match toks {
            None => self.keep_body(text),
            Some(toks) => {
                let filled = text.take_all(toks.get().as_slice())?;
                self.keep_body(filled)
            }
        }
    }

    // `\the` prints the tokens of a register, which a body takes as they are.
    fn give_register(&mut self, toks: Option<Shared<TokList>>) -> Result<Went, NoMemory>
        ensures performs { PerformsOver C.Cells (λ c. tokens_met (unwrap_or toks []) c.readings c) result self.new self.old }
        ensures same_cells { self.new.cells.ghost_name ≡ self.old.cells.ghost_name }
        ensures same_desk { self.new.desk.ghost_name ≡ self.old.desk.ghost_name }
    {
        match self.desk.readings.take_body()? {
            None => self.put_register(toks),
            Some(text) => self.fill_body(text, toks),
        }
    }

    // A reading asks for what begins with a token.
    #[tactic(auto, using(crate::proofs::CloseLemmas::closes_went))]
    pub(crate) fn ask(&mut self, opened: Opened, found: Found) -> Result<Closed, NoMemory>
        ensures closes { ClosesOver C.Cells (internal_to (reading_of opened).kind (reading_of opened).given (internal_of found)) result self.new self.old }
        ensures same_cells { self.new.cells.ghost_name ≡ self.old.cells.ghost_name }
        ensures same_desk { self.new.desk.ghost_name ≡ self.old.desk.ghost_name }
    {
        match opened {
            Opened::Scan(scan, purpose) => self.ask_for_scan(scan, purpose, found),
            Opened::The => self.ask_for_print(found),
            Opened::Quantity => self.ask_for_caller(found),
            Opened::Word(text, purpose) => {
                let went = self.wait_for(Opened::Word(text, purpose), found)?;
                Ok(Closed::Went(went))
            }
            Opened::Name(text) => {
                let went = self.wait_for(Opened::Name(text), found)?;
                Ok(Closed::Went(went))
            }
            Opened::File(text) => {
                let went = self.wait_for(Opened::File(text), found)?;
                Ok(Closed::Went(went))
            }
            Opened::Body(text) => {
                let went = self.wait_for(Opened::Body(text), found)?;
                Ok(Closed::Went(went))
            }
            Opened::Codes(pairing, first) => {
                let went = self.wait_for(Opened::Codes(pairing, first), found)?;
                Ok(Closed::Went(went))
            }
            Opened::Relation(compared, left) => {
                let went = self.wait_for(Opened::Relation(compared, left), found)?;
                Ok(Closed::Went(went))
            }
            Opened::After(tok) => {
                let went = self.wait_for(Opened::After(tok), found)?;
                Ok(Closed::Went(went))
            }
            Opened::Held(tok) => {
                let went = self.wait_for(Opened::Held(tok), found)?;
                Ok(Closed::Went(went))
            }
        }
    }

    /// A reading asks for what begins with a token of a meaning.
    pub(crate) fn ask_of(
        &mut self,
        opened: Opened,
        meaning: &Option<Meaning>,
    ) -> Result<Closed, NoMemory>
        ensures closes { ClosesOver C.Cells (internal_met meaning.now (reading_of opened).kind (reading_of opened).given) result self.new self.old }
        ensures same_cells { self.new.cells.ghost_name ≡ self.old.cells.ghost_name }
        ensures same_desk { self.new.desk.ghost_name ≡ self.old.desk.ghost_name }
    {
        let found = internal(self.cells, meaning)?;
        self.ask(opened, found)
    }
}
