//! What commands that are expanded do (TeXbook, chapter 20; tex.web, part 25).
ghost use Rattle.std.specs.Prelude.{◌≡◌, ◌∷◌, [], codes, unwrap_or};
ghost use Rattle.lb_values.specs.declared.cell.Cell.TheVariants as cells_of;
ghost use Rattle.lb_values.specs.declared.value.Form.TheVariants as forms;
ghost use Rattle.lb_model.specs.Configs.{looks_of_meaning, meaning_now};
ghost use Rattle.lb_model.specs.Kinds.{form_of};
ghost use Rattle.lb_model.specs.Settings.{look};
ghost use Rattle.lb_model.specs.Sources.{ended_early};
ghost use Rattle.lb_model.specs.declared.open.ReadingKind.TheVariants as reading;
ghost use Rattle.lb_model_grammar.specs.Printed.{characters_of, printed};
ghost use Rattle.lb_model_expansion.specs.Expansion.{counter_printed, expanded, handed, holding, if_room, job_name, next_held, not_expanded, opened, opened_uncounted, page_printed};
ghost use Rattle.lb_model_expansion.specs.Steps.{looking, on, put, token_taken};
ghost use Rattle.lb_expand.specs.Feeding.{PerformsOver};
ghost use Rattle.lb_expand.specs.Works.{Leads, Works};

use crate::feeder::Feeder;
use crate::putting::{begin, open, put_one};
use crate::readings::Opened;
use crate::taking::{Taken, meaning_of, take_token};
use lb_base::{Kind, Name, NoMemory, Tok};
use lb_model::{Cells, Expandable, Purpose, reads};
use lb_model_expansion::Went;
use lb_model_grammar::ScanKind;
use lb_print::characters_of;
use lb_values::{Cell, Form};
use lb_words::NameText;

impl<'a, C: Cells> Feeder<'a, C> {
    #[tactic(auto, using(crate::proofs::PassLemmas::works_performs))]
    fn open_after(&mut self, tok: Tok) -> Result<Went, NoMemory>
        ensures performs { PerformsOver C.Cells (opened_uncounted (reading.After tok)) result self.new self.old }
        ensures same_cells { self.new.cells.ghost_name ≡ self.old.cells.ghost_name }
        ensures same_desk { self.new.desk.ghost_name ≡ self.old.desk.ghost_name }
    {
        begin(self.desk, Opened::After(tok))
    }

    // The next token is held.
    fn hold_next(&mut self) -> Result<Went, NoMemory>
        ensures performs { PerformsOver C.Cells next_held result self.new self.old }
        ensures same_cells { self.new.cells.ghost_name ≡ self.old.cells.ghost_name }
        ensures same_desk { self.new.desk.ghost_name ≡ self.old.desk.ghost_name }
    {
        match take_token(self.cells, self.desk)? {
            Taken::Stops(went) => Ok(went),
            Taken::Tok(tok) => self.open_after(tok),
        }
    }

    // `\expandafter` holds the next token, if one more reading may be open.
    fn expand_after(&mut self) -> Result<Went, NoMemory>
        ensures performs { PerformsOver C.Cells (if_room next_held) result self.new self.old }
        ensures same_cells { self.new.cells.ghost_name ≡ self.old.cells.ghost_name }
        ensures same_desk { self.new.desk.ghost_name ≡ self.old.desk.ghost_name }
    {
        if self.desk.readings.has_room() {
            return self.hold_next();
        }
        Ok(Went::Stopped(Kind::DepthLimit))
    }

    /// Puts a token before the rest.
    #[tactic(auto, using(crate::proofs::PassLemmas::works_performs))]
    pub(crate) fn put_back(&mut self, tok: Tok) -> Result<Went, NoMemory>
        ensures performs { PerformsOver C.Cells (put (tok ∷ [])) result self.new self.old }
        ensures same_cells { self.new.cells.ghost_name ≡ self.old.cells.ghost_name }
        ensures same_desk { self.new.desk.ghost_name ≡ self.old.desk.ghost_name }
    {
        put_one(self.desk, tok)
    }

    // A token goes on as it is.
    fn pass_token(&mut self, tok: Tok) -> Result<Went, NoMemory>
        ensures performs { PerformsOver C.Cells (λ d. looking (looks_of_meaning tok) (handed (meaning_now d tok) tok d.readings d)) result self.new self.old }
        ensures same_cells { self.new.cells.ghost_name ≡ self.old.cells.ghost_name }
        ensures same_desk { self.new.desk.ghost_name ≡ self.old.desk.ghost_name }
    {
        let meaning = meaning_of(self.cells, &tok)?;
        self.hand(&meaning, tok)
    }

    // The next token goes on as it is.
    fn pass_next(&mut self) -> Result<Went, NoMemory>
        ensures performs { PerformsOver C.Cells (λ c. token_taken c (λ tok d. looking (looks_of_meaning tok) (handed (meaning_now d tok) tok d.readings
            d))) result self.new self.old }
        ensures same_cells { self.new.cells.ghost_name ≡ self.old.cells.ghost_name }
        ensures same_desk { self.new.desk.ghost_name ≡ self.old.desk.ghost_name }
    {
        match take_token(self.cells, self.desk)? {
            Taken::Stops(went) => Ok(went),
            Taken::Tok(tok) => self.pass_token(tok),
        }
    }

    // `\noexpand`: the next token goes on as it is; where `\expandafter` expands this command, it stays.
    fn expand_none(&mut self, command: Tok) -> Result<Went, NoMemory>
        ensures performs { PerformsOver C.Cells (not_expanded command) result self.new self.old }
        ensures same_cells { self.new.cells.ghost_name ≡ self.old.cells.ghost_name }
        ensures same_desk { self.new.desk.ghost_name ≡ self.old.desk.ghost_name }
    {
        if self.desk.readings.is_held() {
            return self.put_back(command);
        }
        self.pass_next()
    }

    // `\csname` reads a name.
    #[tactic(auto, using(crate::proofs::PassLemmas::works_performs))]
    fn open_name(&mut self) -> Result<Went, NoMemory>
        ensures performs { PerformsOver C.Cells (opened reading.Name) result self.new self.old }
        ensures same_cells { self.new.cells.ghost_name ≡ self.old.cells.ghost_name }
        ensures same_desk { self.new.desk.ghost_name ≡ self.old.desk.ghost_name }
    {
        let text = NameText::new(self.desk.alloc);
        open(self.desk, Opened::Name(text))
    }

    // `\the` reads what it prints.
    #[tactic(auto, using(crate::proofs::PassLemmas::works_performs))]
    fn open_the(&mut self) -> Result<Went, NoMemory>
        ensures performs { PerformsOver C.Cells (opened reading.The) result self.new self.old }
        ensures same_cells { self.new.cells.ghost_name ≡ self.old.cells.ghost_name }
        ensures same_desk { self.new.desk.ghost_name ≡ self.old.desk.ghost_name }
    {
        open(self.desk, Opened::The)
    }

    // The characters of a token are printed.
    fn print_token(&mut self, tok: &Tok) -> Result<Went, NoMemory>
        ensures performs { PerformsOver C.Cells (put (printed (characters_of tok.now))) result self.new self.old }
        ensures same_cells { self.new.cells.ghost_name ≡ self.old.cells.ghost_name }
        ensures same_desk { self.new.desk.ghost_name ≡ self.old.desk.ghost_name }
    {
        let text = characters_of(self.desk.alloc, tok)?;
        self.print(text.as_slice())
    }

    // `\string` prints the next token.
    fn print_next(&mut self) -> Result<Went, NoMemory>
        ensures performs { PerformsOver C.Cells (λ c. token_taken c (λ tok d. put (printed (characters_of tok)) d)) result self.new self.old }
        ensures same_cells { self.new.cells.ghost_name ≡ self.old.cells.ghost_name }
        ensures same_desk { self.new.desk.ghost_name ≡ self.old.desk.ghost_name }
    {
        match take_token(self.cells, self.desk)? {
            Taken::Stops(went) => Ok(went),
            Taken::Tok(tok) => self.print_token(&tok),
        }
    }

    // Prints a name, or nothing where there is none.
    fn print_name(&mut self, name: Option<Name>) -> Result<Went, NoMemory>
        ensures performs { PerformsOver C.Cells (put (printed (unwrap_or name []))) result self.new self.old }
        ensures same_cells { self.new.cells.ghost_name ≡ self.old.cells.ghost_name }
        ensures same_desk { self.new.desk.ghost_name ≡ self.old.desk.ghost_name }
    {
        match name {
            Some(name) => self.print(name.as_slice()),
            None => self.print(&[]),
        }
    }

    // `\jobname` prints the name of the main file.
    fn print_job(&mut self) -> Result<Went, NoMemory>
        ensures performs { PerformsOver C.Cells (λ c. looking (cells_of.Job ∷ []) (put (printed (job_name c)) c)) result self.new self.old }
        ensures same_cells { self.new.cells.ghost_name ≡ self.old.cells.ghost_name }
        ensures same_desk { self.new.desk.ghost_name ≡ self.old.desk.ghost_name }
    {
        let name = reads::name(self.cells, Cell::Job)?;
        self.print_name(name)
    }

    // Prints the counter of pages in a form.
    fn print_page_as(&mut self, form: Option<Form>) -> Result<Went, NoMemory>
        ensures performs { PerformsOver C.Cells (counter_printed (unwrap_or form forms.Arabic) (codes "page")) result self.new self.old }
        ensures same_cells { self.new.cells.ghost_name ≡ self.old.cells.ghost_name }
        ensures same_desk { self.new.desk.ghost_name ≡ self.old.desk.ghost_name }
    {
        let name = Name::from_slice(self.desk.alloc, b"page")?;
        match form {
            Some(form) => self.print_counter(form, name),
            None => self.print_counter(Form::Arabic, name),
        }
    }

    // `\thepage` prints the counter of pages in its form.
    fn print_page(&mut self) -> Result<Went, NoMemory>
        ensures performs { PerformsOver C.Cells page_printed result self.new self.old }
        ensures same_cells { self.new.cells.ghost_name ≡ self.old.cells.ghost_name }
        ensures same_desk { self.new.desk.ghost_name ≡ self.old.desk.ghost_name }
    {
        let form = reads::form(self.cells, Cell::PageForm)?;
        self.print_page_as(form)
    }

    // `\endinput`: the innermost text ends after its present line.
    fn end_input(&mut self) -> Result<Went, NoMemory>
        ensures performs { PerformsOver C.Cells (λ c. on (record c { source = ended_early c.source })) result self.new self.old }
        ensures same_cells { self.new.cells.ghost_name ≡ self.old.cells.ghost_name }
        ensures same_desk { self.new.desk.ghost_name ≡ self.old.desk.ghost_name }
    {
        self.desk.source.end_early();
        Ok(Went::On)
    }

    // What a command does.
    fn expand_command(&mut self, command: Expandable, tok: Tok) -> Result<Went, NoMemory>
        ensures performs { PerformsOver C.Cells (expanded command tok) result self.new self.old }
        ensures same_cells { self.new.cells.ghost_name ≡ self.old.cells.ghost_name }
        ensures same_desk { self.new.desk.ghost_name ≡ self.old.desk.ghost_name }
    {
        match command {
            Expandable::ExpandAfter => self.expand_after(),
            Expandable::NoExpand => self.expand_none(tok),
            Expandable::CsName => self.open_name(),
            Expandable::String => self.print_next(),
            Expandable::Number => self.read_for(ScanKind::Number, Purpose::Digits),
            Expandable::RomanNumeral => self.read_for(ScanKind::Number, Purpose::Roman),
            Expandable::The => self.open_the(),
            Expandable::JobName => self.print_job(),
            Expandable::Test(test) => self.open_test(test),
            Expandable::Part(stopper) => self.meet_part(stopper, tok),
            Expandable::Input => self.read_input(),
            Expandable::EndInput => self.end_input(),
            Expandable::Print(form) => self.open_word(Purpose::Print(form)),
            Expandable::ThePage => self.print_page(),
        }
    }

    /// A command is expanded, also where `\expandafter` held a token before it.
    pub(crate) fn expand(&mut self, command: Expandable, tok: Tok) -> Result<Went, NoMemory>
        ensures performs { PerformsOver C.Cells (λ c. expanded command tok (holding c)) result self.new self.old }
        ensures same_cells { self.new.cells.ghost_name ≡ self.old.cells.ghost_name }
        ensures same_desk { self.new.desk.ghost_name ≡ self.old.desk.ghost_name }
    {
        self.desk.readings.hold()?;
        self.expand_command(command, tok)
    }
}
