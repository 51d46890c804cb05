//! What the layer above asks of a feeder.
ghost use Rattle.std.specs.Prelude.{◌≡◌, ◌≤◌, ◌^◌, ℕ, [], length, nat_lt};
ghost use Rattle.std.specs.Option.{option_copied};
ghost use Rattle.lb_model.specs.Configs.{looks_of_meaning, meaning_now};
ghost use Rattle.lb_model.specs.declared.open.Purpose.TheVariants.{Asked as TheCaller};
ghost use Rattle.lb_model.specs.declared.open.ReadingKind.TheVariants as reading;
ghost use Rattle.lb_model_expansion.specs.Steps.{and_then};
ghost use Rattle.lb_model_expansion.specs.Expansion.{body_asked, if_room, internal_given, internal_met, opened_uncounted, quantity_asked, quantity_met, ran, scan_asked, word_asked, word_behind};
ghost use Rattle.lb_model_expansion.specs.declared.expansion.Answer.TheVariants as answers;
ghost use Rattle.lb_model_expansion.specs.declared.expansion.Went.TheVariants.{Answered as IsAnswered};
ghost use Rattle.lb_expand.specs.Feeding.{PerformsOver};
ghost use Rattle.lb_expand.specs.Turns.{ended_with, met_behind, stop_of, token_came, token_of};
ghost use Rattle.lb_expand.specs.Works.{Leads, Works};

use crate::feeder::Feeder;
use crate::giving::is_character;
use crate::putting::begin;
use crate::readings::Opened;
use crate::taking::{meaning_of, take};
use lb_base::{Bytes, NoMemory, Stop, Tok, TokList};
use lb_model::{Cells, Place, Purpose};
use lb_model_expansion::{Answer, Went};
use lb_model_grammar::{Quantity, ScanKind, Scanned};
use lb_values::Meaning;
use lb_words::BodyText;

// The fault that turns ended at. They end otherwise only where readings were open that no call of a feeder opened.
fn stop_of(went: Went) -> Stop
    ensures { result ≡ stop_of went }
{
    match went {
        Went::Stopped(kind) => Stop::Fault(kind),
        Went::StoppedAt(fault) => Stop::At(fault),
        Went::On => Stop::Memory,
        Went::Gave(_tok) => Stop::Memory,
        Went::Answered(_answer) => Stop::Memory,
        Went::Over => Stop::Memory,
    }
}

// What the next token is where turns ended so.
fn token_of(went: Went) -> Result<Option<Tok>, Stop>
    ensures { result ≡ token_of went }
{
    match went {
        Went::Gave(tok) => Ok(Some(tok)),
        Went::Over => Ok(None),
        Went::Stopped(kind) => Err(Stop::Fault(kind)),
        Went::StoppedAt(fault) => Err(Stop::At(fault)),
        Went::On => Err(Stop::Memory),
        Went::Answered(_answer) => Err(Stop::Memory),
    }
}

impl<'a, C: Cells> Feeder<'a, C> {
    /// The next token that is not expanded; none at the end of the piece. The faults are those of expansion, and each has its place, at
    /// [`Feeder::place`], but for that of a font's file, which tells its own. A character is given at once where no reading is open.
    pub fn next(&mut self) -> Result<Option<Tok>, Stop>
        ensures performs { PerformsOver C.Cells ran (ended_with token_came result) self.new self.old }
        ensures same_cells { self.new.cells.ghost_name ≡ self.old.cells.ghost_name }
        ensures same_desk { self.new.desk.ghost_name ≡ self.old.desk.ghost_name }
    {
        if !self.desk.readings.is_empty() {
            return self.next_of_turns();
        }
        match take(self.cells, self.desk, true) {
            Ok(Some(tok)) => {
                if is_character(&tok) {
                    return Ok(Some(tok));
                }
                self.next_from(tok)
            }
            Ok(None) => Ok(None),
            Err(Stop::Fault(kind)) => Err(Stop::Fault(kind)),
            Err(_) => Err(Stop::Memory),
        }
    }

    // The next token that is not expanded, by turns.
    #[inline(never)]
    fn next_of_turns(&mut self) -> Result<Option<Tok>, Stop>
        ensures performs { PerformsOver C.Cells ran (ended_with token_came result) self.new self.old }
        ensures same_cells { self.new.cells.ghost_name ≡ self.old.cells.ghost_name }
        ensures same_desk { self.new.desk.ghost_name ≡ self.old.desk.ghost_name }
    {
        let went = self.run()?;
        token_of(went)
    }

    // The next token that is not expanded, from one on that was taken.
    #[inline(never)]
    fn next_from(&mut self, tok: Tok) -> Result<Option<Tok>, Stop>
        ensures performs { (turns : ℕ) → 2 ^ 64 ≤ turns → PerformsOver C.Cells (met_behind tok turns) (ended_with token_came result) self.new self.old }
        ensures same_cells { self.new.cells.ghost_name ≡ self.old.cells.ghost_name }
        ensures same_desk { self.new.desk.ghost_name ≡ self.old.desk.ghost_name }
    {
        let went = self.run_from(tok)?;
        token_of(went)
    }

    fn run_scan(&mut self, kind: ScanKind) -> Result<Went, NoMemory>
        ensures performs { PerformsOver C.Cells (scan_asked kind) result self.new self.old }
        ensures same_cells { self.new.cells.ghost_name ≡ self.old.cells.ghost_name }
        ensures same_desk { self.new.desk.ghost_name ≡ self.old.desk.ghost_name }
    {
        let went = self.read_for(kind, Purpose::Asked)?;
        match went {
            Went::On => self.run(),
            went => Ok(went),
        }
    }

    /// Reads a number, a dimension, glue or a keyword, and puts back what is not of it.
    pub fn scan(&mut self, kind: ScanKind) -> Result<Scanned, Stop>
        ensures performs { PerformsOver C.Cells (scan_asked kind) (ended_with (λ found. IsAnswered (answers.Scanned found)) result) self.new self.old }
        ensures same_cells { self.new.cells.ghost_name ≡ self.old.cells.ghost_name }
        ensures same_desk { self.new.desk.ghost_name ≡ self.old.desk.ghost_name }
    {
        match self.run_scan(kind)? {
            Went::Answered(Answer::Scanned(found)) => Ok(found),
            went => Err(stop_of(went)),
        }
    }

    // The quantity that begins with a token of a meaning.
    fn ask_quantity_of(&mut self, meaning: &Option<Meaning>) -> Result<Went, NoMemory>
        ensures performs { PerformsOver C.Cells (λ c. internal_met meaning.now reading.Quantity [] (internal_given c.readings) c) result self.new self.old }
        ensures same_cells { self.new.cells.ghost_name ≡ self.old.cells.ghost_name }
        ensures same_desk { self.new.desk.ghost_name ≡ self.old.desk.ghost_name }
    {
        let closed = self.ask_of(Opened::Quantity, meaning)?;
        self.close(closed)
    }

    fn ask_quantity(&mut self, tok: &Tok) -> Result<Went, NoMemory>
        ensures performs { PerformsOver C.Cells (quantity_met tok.now) result self.new self.old }
        ensures same_cells { self.new.cells.ghost_name ≡ self.old.cells.ghost_name }
        ensures same_desk { self.new.desk.ghost_name ≡ self.old.desk.ghost_name }
    {
        let meaning = meaning_of(self.cells, tok)?;
        self.ask_quantity_of(&meaning)
    }

    fn run_quantity(&mut self, tok: &Tok) -> Result<Went, NoMemory>
        ensures performs { PerformsOver C.Cells (quantity_asked tok.now) result self.new self.old }
        ensures same_cells { self.new.cells.ghost_name ≡ self.old.cells.ghost_name }
        ensures same_desk { self.new.desk.ghost_name ≡ self.old.desk.ghost_name }
    {
        let went = self.ask_quantity(tok)?;
        match went {
            Went::On => self.run(),
            went => Ok(went),
        }
    }

    /// The quantity that begins with a token that was taken, `NotOne` where none does.
    pub fn quantity(&mut self, tok: &Tok) -> Result<Quantity, Stop>
        ensures performs { PerformsOver C.Cells (quantity_asked tok.now) (ended_with (λ quantity. IsAnswered (answers.Quantity quantity)) result) self.new
            self.old }
        ensures same_cells { self.new.cells.ghost_name ≡ self.old.cells.ghost_name }
        ensures same_desk { self.new.desk.ghost_name ≡ self.old.desk.ghost_name }
    {
        match self.run_quantity(tok)? {
            Went::Answered(Answer::Quantity(quantity)) => Ok(quantity),
            went => Err(stop_of(went)),
        }
    }

    fn run_word(&mut self) -> Result<Went, NoMemory>
        ensures performs { PerformsOver C.Cells word_asked result self.new self.old }
        ensures same_cells { self.new.cells.ghost_name ≡ self.old.cells.ghost_name }
        ensures same_desk { self.new.desk.ghost_name ≡ self.old.desk.ghost_name }
    {
        let went = self.open_word(Purpose::Asked)?;
        match went {
            Went::On => self.run(),
            went => Ok(went),
        }
    }

    /// The characters of a text in braces, or of one token, which is taken as an argument and then expanded.
    pub fn word(&mut self) -> Result<Bytes, Stop>
        ensures performs { PerformsOver C.Cells word_asked (ended_with (λ text. IsAnswered (answers.Word text)) result) self.new self.old }
        ensures same_cells { self.new.cells.ghost_name ≡ self.old.cells.ghost_name }
        ensures same_desk { self.new.desk.ghost_name ≡ self.old.desk.ghost_name }
    {
        match self.run_word()? {
            Went::Answered(Answer::Word(text)) => Ok(text),
            went => Err(stop_of(went)),
        }
    }

    fn run_word_of(&mut self, toks: TokList) -> Result<Went, NoMemory>
        ensures performs { PerformsOver C.Cells (λ c. and_then (if_room (word_behind toks TheCaller) c) ran) result self.new self.old }
        ensures same_cells { self.new.cells.ghost_name ≡ self.old.cells.ghost_name }
        ensures same_desk { self.new.desk.ghost_name ≡ self.old.desk.ghost_name }
    {
        let went = self.open_text(toks, Purpose::Asked)?;
        match went {
            Went::On => self.run(),
            went => Ok(went),
        }
    }

    /// The characters of tokens that were taken, which are expanded.
    pub fn word_of(&mut self, toks: TokList) -> Result<Bytes, Stop>
        ensures performs { PerformsOver C.Cells (λ c. and_then (if_room (word_behind toks TheCaller) c) ran)
            (ended_with (λ text. IsAnswered (answers.Word text)) result) self.new self.old }
        ensures same_cells { self.new.cells.ghost_name ≡ self.old.cells.ghost_name }
        ensures same_desk { self.new.desk.ghost_name ≡ self.old.desk.ghost_name }
    {
        match self.run_word_of(toks)? {
            Went::Answered(Answer::Word(text)) => Ok(text),
            went => Err(stop_of(went)),
        }
    }

    #[tactic(auto, using(crate::proofs::PassLemmas::works_performs))]
    fn open_body(&mut self) -> Result<Went, NoMemory>
        ensures performs { PerformsOver C.Cells (opened_uncounted reading.Body) result self.new self.old }
        ensures same_cells { self.new.cells.ghost_name ≡ self.old.cells.ghost_name }
        ensures same_desk { self.new.desk.ghost_name ≡ self.old.desk.ghost_name }
    {
        let text = BodyText::new(self.desk.alloc);
        begin(self.desk, Opened::Body(text))
    }

    fn run_body(&mut self) -> Result<Went, NoMemory>
        ensures performs { PerformsOver C.Cells body_asked result self.new self.old }
        ensures same_cells { self.new.cells.ghost_name ≡ self.old.cells.ghost_name }
        ensures same_desk { self.new.desk.ghost_name ≡ self.old.desk.ghost_name }
    {
        let went = self.open_body()?;
        match went {
            Went::On => self.run(),
            went => Ok(went),
        }
    }

    /// The tokens up to the brace that closes a text whose opening brace was taken, expanded; the tokens of a register that `\the` gives
    /// are not expanded further.
    pub fn body(&mut self) -> Result<TokList, Stop>
        ensures performs { PerformsOver C.Cells body_asked (ended_with (λ toks. IsAnswered (answers.Body toks)) result) self.new self.old }
        ensures same_cells { self.new.cells.ghost_name ≡ self.old.cells.ghost_name }
        ensures same_desk { self.new.desk.ghost_name ≡ self.old.desk.ghost_name }
    {
        match self.run_body()? {
            Went::Answered(Answer::Body(toks)) => Ok(toks),
            went => Err(stop_of(went)),
        }
    }

    /// Whether a conditional is open. Takes no memory.
    pub fn in_conditional(&self) -> bool
        ensures { result ≡ nat_lt 0 (length self.now.desk.now.conditionals) }
    {
        self.desk.conditionals.count() > 0
    }

    /// The file and the line of the last token that was taken from a text, or where none was taken of the beginning of the piece; none at
    /// a desk without a text. Takes no memory.
    pub fn place(&self) -> Option<&Place>
        ensures { option_copied result ≡ self.now.desk.now.place }
    {
        self.desk.place.as_ref()
    }
}
