//! What becomes of what readings read.
ghost use Rattle.std.specs.Prelude.{◌≡◌, ◌∷◌, ◌++◌, [], IfOk, Option, Some, is_some, true, if◌then◌else◌};
ghost use Rattle.std.specs.Option.{option_map};
ghost use Rattle.std.specs.Fmt.{signed_decimal};
ghost use Rattle.lb_base.specs.declared.token.Tok.TheVariants.{Word as AWord};
ghost use Rattle.lb_model_grammar.specs.Printed.{printed};
ghost use Rattle.lb_model_grammar.specs.Conditionals.{chosen};
ghost use Rattle.lb_values.specs.declared.cell.Cell.TheVariants as cells_of;
ghost use Rattle.lb_model.specs.Conditionals.{comparison};
ghost use Rattle.lb_model.specs.declared.open.ReadingKind.TheVariants as reading;
ghost use Rattle.lb_model_expansion.specs.Expansion.{as_text, counter_form, counter_printed, counter_value, decided, in_form_or, index_closed, input, input_of, named, number_found, opened_uncounted, picks, relax_made, scan_closed, word_closed};
ghost use Rattle.lb_model_expansion.specs.Steps.{and_then, answered, looking, put, put_then, stopped};
ghost use Rattle.lb_model_expansion.specs.declared.expansion.Answer.TheVariants as answer;
ghost use Rattle.lb_model_expansion.specs.declared.expansion.Went.TheVariants.{Answered as WasAnswered};
ghost use Rattle.lb_expand.specs.Closings.{number_used, relax_if};
ghost use Rattle.lb_expand.specs.Works.{Leads, Works};
ghost use Rattle.lb_expand.specs.Feeding.{ClosesOver, PerformsOver};

use crate::feeder::Feeder;
use crate::putting::{keep, put_list, put_none, put_one};
use crate::readings::Opened;
use crate::taking::meaning_of;
use lb_base::{Bytes, Kind, Name, NoMemory, Tok, TokList};
use lb_cond::{comparison, test};
use lb_groups::assign;
use lb_model::{Append, Cells, Compared, Indexed, Purpose, reads};
use lb_model_expansion::{Answer, Went};
use lb_model_grammar::{CondKind, Quantity, Scanned};
use lb_print::{decimal, in_form, printed};
use lb_quantities::{Found, picked};
use lb_rows::Command;
use lb_tokens::Text;
use lb_values::{Cell, Form, Meaning, Reach, Shared, Value};
use lb_words::with_ending;
use std::alloc::AllocError;

/// The most texts that may be open: the one of the piece, and those of files that are read inside it.
const MOST_TEXTS: u64 = 101;

/// What comes of a reading that closes: how the step went, or a quantity for the reading around it.
#[derive(Drop)]
pub enum Closed {
    Went(Went),
    Hands(Found),
}

// The number that was read, or the dimension.
fn number_found(found: &Scanned) -> i32
    ensures { result ≡ number_found found.now }
{
    match found {
        Scanned::Number(number) => *number,
        Scanned::Dimen(number) => *number,
        Scanned::Skip(_) => 0,
        Scanned::Found(_) => 0,
    }
}

// A number from 0 to 255.
fn byte(number: i32) -> Option<u8>
    ensures { result ≡ picks number }
{
    u8::try_from(number).ok()
}

impl<'a, C: Cells> Feeder<'a, C> {
    /// Puts the tokens of a list before the rest.
    #[tactic(auto, using(crate::proofs::PassLemmas::works_performs))]
    pub(crate) fn put_tokens(&mut self, toks: TokList) -> Result<Went, NoMemory>
        ensures performs { PerformsOver C.Cells (put toks) result self.new self.old }
        ensures same_cells { self.new.cells.ghost_name ≡ self.old.cells.ghost_name }
        ensures same_desk { self.new.desk.ghost_name ≡ self.old.desk.ghost_name }
    {
        if toks.as_slice().is_empty() {
            return put_none(self.desk);
        }
        let alloc = self.desk.alloc;
        let list = Shared::new(alloc, toks)?;
        put_list(self.desk, list)
    }

    /// Puts printed characters before the rest.
    pub(crate) fn print(&mut self, text: &[u8]) -> Result<Went, NoMemory>
        ensures performs { PerformsOver C.Cells (put (printed text.now)) result self.new self.old }
        ensures same_cells { self.new.cells.ghost_name ≡ self.old.cells.ghost_name }
        ensures same_desk { self.new.desk.ghost_name ≡ self.old.desk.ghost_name }
    {
        let toks = printed(self.desk.alloc, text)?;
        self.put_tokens(toks)
    }

    /// Prints a quantity, of which there has to be a text.
    pub(crate) fn print_quantity(&mut self, text: Option<Bytes>) -> Result<Went, NoMemory>
        ensures performs { PerformsOver C.Cells (as_text text) result self.new self.old }
        ensures same_cells { self.new.cells.ghost_name ≡ self.old.cells.ghost_name }
        ensures same_desk { self.new.desk.ghost_name ≡ self.old.desk.ghost_name }
    {
        match text {
            Some(text) => self.print(text.as_slice()),
            None => Ok(Went::Stopped(Kind::TokenMisplaced)),
        }
    }

    // Prints a number in a form, which it must not be too large for.
    fn print_form(&mut self, text: Option<Bytes>) -> Result<Went, NoMemory>
        ensures performs { PerformsOver C.Cells (in_form_or text) result self.new self.old }
        ensures same_cells { self.new.cells.ghost_name ≡ self.old.cells.ghost_name }
        ensures same_desk { self.new.desk.ghost_name ≡ self.old.desk.ghost_name }
    {
        match text {
            Some(text) => self.print(text.as_slice()),
            None => Ok(Went::Stopped(Kind::CounterTooLarge)),
        }
    }

    // Prints a number in its digits, and puts the tokens behind it back.
    fn print_digits(&mut self, number: i32, after: TokList) -> Result<Went, NoMemory>
        ensures performs { PerformsOver C.Cells (put (printed (signed_decimal number) ++ after)) result self.new self.old }
        ensures same_cells { self.new.cells.ghost_name ≡ self.old.cells.ghost_name }
        ensures same_desk { self.new.desk.ghost_name ≡ self.old.desk.ghost_name }
    {
        let alloc = self.desk.alloc;
        let digits = decimal(alloc, number)?;
        let mut toks = printed(alloc, digits.as_slice())?.into_vec();
        let mut after = after.into_vec();
        toks.append(&mut after)?;
        self.put_tokens(TokList::from_vec(toks))
    }

    // A number is printed in a form, if there is one.
    fn print_number(&mut self, form: Form, number: Option<i32>) -> Result<Went, NoMemory>
        ensures performs { PerformsOver C.Cells (counter_form form number) result self.new self.old }
        ensures same_cells { self.new.cells.ghost_name ≡ self.old.cells.ghost_name }
        ensures same_desk { self.new.desk.ghost_name ≡ self.old.desk.ghost_name }
    {
        match number {
            None => Ok(Went::Stopped(Kind::NoCounter)),
            Some(number) => {
                let text = in_form(self.desk.alloc, form, number)?;
                self.print_form(text)
            }
        }
    }

    /// A counter is printed in a form.
    pub(crate) fn print_counter(&mut self, form: Form, name: Name) -> Result<Went, NoMemory>
        ensures performs { PerformsOver C.Cells (counter_printed form name) result self.new self.old }
        ensures same_cells { self.new.cells.ghost_name ≡ self.old.cells.ghost_name }
        ensures same_desk { self.new.desk.ghost_name ≡ self.old.desk.ghost_name }
    {
        let number = reads::number_if_any(self.cells, Cell::Counter(name))?;
        self.print_number(form, number)
    }

    // The text of a file is read next, where there is one, and its name goes to the log.
    fn read_file(&mut self, file: Name, bytes: Option<Shared<Bytes>>) -> Result<Went, NoMemory>
        ensures performs { PerformsOver C.Cells (input_of bytes file) result self.new self.old }
        ensures same_cells { self.new.cells.ghost_name ≡ self.old.cells.ghost_name }
        ensures same_desk { self.new.desk.ghost_name ≡ self.old.desk.ghost_name }
    {
        match bytes {
            None => Ok(Went::Stopped(Kind::FileMissing)),
            Some(bytes) => {
                if self.desk.source.texts() >= MOST_TEXTS {
                    return Ok(Went::Stopped(Kind::DepthLimit));
                }
                let alloc = self.desk.alloc;
                let mut line = Vec::from_slice(alloc, b"File ")?;
                line.extend_from_slice(file.as_slice())?;
                line.push(b'\n')?;
                let end = bytes.get().len();
                if end == usize::MAX {
                    return Err(AllocError);
                }
                let text = Text::of(alloc, file, 1, bytes, 0, end)?;
                self.desk.source.put_text(text)?;
                self.desk.appends.push(Append::Log(Bytes::from_vec(line)))?;
                Ok(Went::On)
            }
        }
    }

    /// `\input` of a name.
    pub(crate) fn input(&mut self, name: Bytes) -> Result<Went, NoMemory>
        ensures performs { PerformsOver C.Cells (input name) result self.new self.old }
        ensures same_cells { self.new.cells.ghost_name ≡ self.old.cells.ghost_name }
        ensures same_desk { self.new.desk.ghost_name ≡ self.old.desk.ghost_name }
    {
        let file = with_ending(self.desk.alloc, name)?;
        let bytes = reads::text(self.cells, Cell::File(file.clone()?))?;
        self.read_file(file, bytes)
    }

    // A control sequence without meaning is made `\relax`.
    fn relax_if(&mut self, meaning: &Option<Meaning>, name: &Name) -> Result<Went, NoMemory>
        ensures performs { PerformsOver C.Cells (relax_if name.now meaning.now) result self.new self.old }
        ensures same_cells { self.new.cells.ghost_name ≡ self.old.cells.ghost_name }
        ensures same_desk { self.new.desk.ghost_name ≡ self.old.desk.ghost_name }
    {
        match meaning {
            Some(_) => Ok(Went::On),
            None => {
                let value = Value::Meaning(Meaning::Row(Command::Relax));
                let cell = Cell::Word(name.clone()?);
                assign(
                    self.cells,
                    &mut self.desk.groups,
                    &cell,
                    value,
                    Reach::Local,
                )?;
                Ok(Went::On)
            }
        }
    }

    // The control sequence of a name is made `\relax` where it has no meaning.
    fn make_relax(&mut self, name: &Name) -> Result<Went, NoMemory>
        ensures performs { PerformsOver C.Cells (λ c. looking (cells_of.Word name.now ∷ []) (relax_made name.now c)) result self.new self.old }
        ensures same_cells { self.new.cells.ghost_name ≡ self.old.cells.ghost_name }
        ensures same_desk { self.new.desk.ghost_name ≡ self.old.desk.ghost_name }
    {
        let tok = Tok::Word(name.clone()?);
        let meaning = meaning_of(self.cells, &tok)?;
        self.relax_if(&meaning, name)
    }

    #[tactic(auto, using(crate::proofs::PassLemmas::works_performs))]
    fn put_name(&mut self, name: Name) -> Result<Went, NoMemory>
        ensures performs { PerformsOver C.Cells (put (AWord name ∷ [])) result self.new self.old }
        ensures same_cells { self.new.cells.ghost_name ≡ self.old.cells.ghost_name }
        ensures same_desk { self.new.desk.ghost_name ≡ self.old.desk.ghost_name }
    {
        put_one(self.desk, Tok::Word(name))
    }

    /// `\csname` gives the control sequence of the name that was read.
    pub(crate) fn end_name(&mut self, name: Name) -> Result<Went, NoMemory>
        ensures performs { PerformsOver C.Cells (named name) result self.new self.old }
        ensures same_cells { self.new.cells.ghost_name ≡ self.old.cells.ghost_name }
        ensures same_desk { self.new.desk.ghost_name ≡ self.old.desk.ghost_name }
    {
        let went = self.make_relax(&name)?;
        match went {
            Went::On => self.put_name(name),
            went => Ok(went),
        }
    }

    // A comparison chooses a part.
    fn choose(&mut self, kind: CondKind, left: i32, right: i32) -> Result<Went, NoMemory>
        ensures performs { PerformsOver C.Cells (decided (chosen kind left right)) result self.new self.old }
        ensures same_cells { self.new.cells.ghost_name ≡ self.old.cells.ghost_name }
        ensures same_desk { self.new.desk.ghost_name ≡ self.old.desk.ghost_name }
    {
        self.begin_part(test(kind, i64::from(left), i64::from(right)))
    }

    // A number from 0 to 255 picks a quantity.
    fn pick(&mut self, indexed: Indexed, number: i32) -> Result<Closed, NoMemory>
        ensures closes { ClosesOver C.Cells (index_closed indexed (picks number)) result self.new self.old }
        ensures same_cells { self.new.cells.ghost_name ≡ self.old.cells.ghost_name }
        ensures same_desk { self.new.desk.ghost_name ≡ self.old.desk.ghost_name }
    {
        match byte(number) {
            Some(number) => {
                let found = picked(self.cells, indexed, number)?;
                Ok(Closed::Hands(found))
            }
            None => Ok(Closed::Went(Went::Stopped(Kind::BadCode))),
        }
    }

    // The value of a counter is the quantity that is asked for, if there is one.
    fn hand_counter(&mut self, number: Option<i32>) -> Result<Closed, NoMemory>
        ensures closes { ClosesOver C.Cells (counter_value number) result self.new self.old }
        ensures same_cells { self.new.cells.ghost_name ≡ self.old.cells.ghost_name }
        ensures same_desk { self.new.desk.ghost_name ≡ self.old.desk.ghost_name }
    {
        match number {
            Some(number) => Ok(Closed::Hands(Found::Known(Quantity::Number(number)))),
            None => Ok(Closed::Went(Went::Stopped(Kind::NoCounter))),
        }
    }

    // The value of a counter is the quantity that is asked for.
    fn value_of_counter(&mut self, name: Name) -> Result<Closed, NoMemory>
        ensures closes { ClosesOver C.Cells (word_closed Purpose.CounterValue name) result self.new self.old }
        ensures same_cells { self.new.cells.ghost_name ≡ self.old.cells.ghost_name }
        ensures same_desk { self.new.desk.ghost_name ≡ self.old.desk.ghost_name }
    {
        let number = reads::number_if_any(self.cells, Cell::Counter(name))?;
        self.hand_counter(number)
    }

    /// A text in braces was read.
    #[tactic(auto, using(crate::proofs::CloseLemmas::closes_went))]
    pub(crate) fn close_word(&mut self, purpose: Purpose, text: Bytes) -> Result<Closed, NoMemory>
        ensures closes { ClosesOver C.Cells (word_closed purpose text) result self.new self.old }
        ensures same_cells { self.new.cells.ghost_name ≡ self.old.cells.ghost_name }
        ensures same_desk { self.new.desk.ghost_name ≡ self.old.desk.ghost_name }
    {
        match purpose {
            Purpose::Asked => Ok(Closed::Went(Went::Answered(Answer::Word(text)))),
            Purpose::Print(form) => {
                let name = Name::from_slice(self.desk.alloc, text.as_slice())?;
                let went = self.print_counter(form, name)?;
                Ok(Closed::Went(went))
            }
            Purpose::CounterValue => {
                let name = Name::from_slice(self.desk.alloc, text.as_slice())?;
                self.value_of_counter(name)
            }
            Purpose::Input => {
                let went = self.input(text)?;
                Ok(Closed::Went(went))
            }
            Purpose::Digits
            | Purpose::Roman
            | Purpose::Left(_)
            | Purpose::Right(_, _, _)
            | Purpose::Odd
            | Purpose::Case
            | Purpose::Index(_) => Ok(Closed::Went(Went::Stopped(Kind::TokenMisplaced))),
        }
    }

    #[tactic(auto, using(crate::proofs::PassLemmas::works_performs))]
    fn read_relation(&mut self, compared: Compared, left: i32) -> Result<Went, NoMemory>
        ensures performs { PerformsOver C.Cells (opened_uncounted (reading.Relation compared left)) result self.new self.old }
        ensures same_cells { self.new.cells.ghost_name ≡ self.old.cells.ghost_name }
        ensures same_desk { self.new.desk.ghost_name ≡ self.old.desk.ghost_name }
    {
        keep(self.desk, Opened::Relation(compared, left))
    }

    // A number is used once the tokens behind it are put back.
    #[tactic(auto, using(crate::proofs::CloseLemmas::closes_went))]
    fn use_number(&mut self, purpose: Purpose, number: i32) -> Result<Closed, NoMemory>
        ensures closes { ClosesOver C.Cells (number_used purpose number) result self.new self.old }
        ensures same_cells { self.new.cells.ghost_name ≡ self.old.cells.ghost_name }
        ensures same_desk { self.new.desk.ghost_name ≡ self.old.desk.ghost_name }
    {
        match purpose {
            Purpose::Roman => {
                let text = in_form(self.desk.alloc, Form::LowerRoman, number)?;
                let went = self.print_form(text)?;
                Ok(Closed::Went(went))
            }
            Purpose::Left(compared) => {
                let went = self.read_relation(compared, number)?;
                Ok(Closed::Went(went))
            }
            Purpose::Right(compared, left, rel) => {
                let went = self.choose(comparison(compared, rel), left, number)?;
                Ok(Closed::Went(went))
            }
            Purpose::Odd => {
                let went = self.choose(CondKind::IfOdd, number, 0)?;
                Ok(Closed::Went(went))
            }
            Purpose::Case => {
                let went = self.choose(CondKind::IfCase, number, 0)?;
                Ok(Closed::Went(went))
            }
            Purpose::Index(indexed) => self.pick(indexed, number),
            Purpose::Asked
            | Purpose::Digits
            | Purpose::Print(_)
            | Purpose::CounterValue
            | Purpose::Input => Ok(Closed::Went(Went::Stopped(Kind::TokenMisplaced))),
        }
    }

    // A number is used, behind which these tokens are put back.
    fn use_behind(
        &mut self,
        purpose: Purpose,
        found: &Scanned,
        after: TokList,
    ) -> Result<Closed, NoMemory>
        ensures closes { ClosesOver C.Cells (λ more c. and_then (put after c) (number_used purpose (number_found found.now) more)) result self.new self.old }
        ensures same_cells { self.new.cells.ghost_name ≡ self.old.cells.ghost_name }
        ensures same_desk { self.new.desk.ghost_name ≡ self.old.desk.ghost_name }
    {
        let went = self.put_tokens(after)?;
        match went {
            Went::On => self.use_number(purpose, number_found(found)),
            went => Ok(Closed::Went(went)),
        }
    }

    // The caller is answered what a scan found, and the tokens behind it are put back.
    fn answer_scan(&mut self, found: Scanned, after: TokList) -> Result<Went, NoMemory>
        ensures performs { PerformsOver C.Cells (put_then after (WasAnswered (answer.Scanned found))) result self.new self.old }
        ensures same_cells { self.new.cells.ghost_name ≡ self.old.cells.ghost_name }
        ensures same_desk { self.new.desk.ghost_name ≡ self.old.desk.ghost_name }
    {
        let went = self.put_tokens(after)?;
        match went {
            Went::On => Ok(Went::Answered(Answer::Scanned(found))),
            went => Ok(went),
        }
    }

    /// A scan has found this, behind which these tokens are put back.
    #[tactic(auto, using(crate::proofs::CloseLemmas::closes_went))]
    pub(crate) fn close_scan(
        &mut self,
        purpose: Purpose,
        found: Scanned,
        after: TokList,
    ) -> Result<Closed, NoMemory>
        ensures closes { ClosesOver C.Cells (scan_closed purpose found after) result self.new self.old }
        ensures same_cells { self.new.cells.ghost_name ≡ self.old.cells.ghost_name }
        ensures same_desk { self.new.desk.ghost_name ≡ self.old.desk.ghost_name }
    {
        match purpose {
            Purpose::Asked => {
                let went = self.answer_scan(found, after)?;
                Ok(Closed::Went(went))
            }
            Purpose::Digits => {
                let went = self.print_digits(number_found(&found), after)?;
                Ok(Closed::Went(went))
            }
            Purpose::Roman => self.use_behind(Purpose::Roman, &found, after),
            Purpose::Left(compared) => self.use_behind(Purpose::Left(compared), &found, after),
            Purpose::Right(_, _, _) => self.use_behind(purpose, &found, after),
            Purpose::Odd => self.use_behind(Purpose::Odd, &found, after),
            Purpose::Case => self.use_behind(Purpose::Case, &found, after),
            Purpose::Index(indexed) => self.use_behind(Purpose::Index(indexed), &found, after),
            Purpose::Print(_) | Purpose::CounterValue | Purpose::Input => {
                Ok(Closed::Went(Went::Stopped(Kind::TokenMisplaced)))
            }
        }
    }
}
