//! Tokens that are given to the texts that are read.
ghost use Rattle.std.specs.Prelude.{◌≡◌, ◌∷◌, ◌++◌, [], map, if◌then◌else◌};
ghost use Rattle.lb_base.specs.declared.fault.Kind.TheVariants.{TokenMisplaced};
ghost use Rattle.lb_model_grammar.specs.declared.given.Given.TheVariants.{Tok as AToken};
ghost use Rattle.lb_model_grammar.specs.Scans.{tokens_in};
ghost use Rattle.lb_model_grammar.specs.Words.{body, character_code, file_name, is_character, word};
ghost use Rattle.lb_model.specs.Lines.{is_empty};
ghost use Rattle.lb_model.specs.declared.open.ReadingKind.TheVariants as reading;
ghost use Rattle.lb_model_expansion.specs.Expansion.{body_met, ends_name, file_given, input, kept, named, word_met};
ghost use Rattle.lb_model_expansion.specs.Steps.{and_then, put, stopped};
ghost use Rattle.lb_expand.specs.Works.{Leads, Works};
ghost use Rattle.lb_expand.specs.Feeding.{ClosesOver, PerformsOver};

use crate::closing::Closed;
use crate::feeder::Feeder;
use crate::putting::{keep, put_none, put_one, put_two};
use crate::readings::Opened;
use lb_base::{Bytes, Kind, NoMemory, Tok};
use lb_model::{Cells, Purpose};
use lb_model_expansion::{Answer, Went};
use lb_model_grammar::Given;
use lb_rows::Command;
use lb_values::Meaning;
use lb_words::{BodyText, BodyTurn, FileName, FileTurn, NameText, WordText, WordTurn};

#[inline(always)]
pub(crate) fn is_character(tok: &Tok) -> bool
    ensures { result ≡ is_character tok.now }
{
    matches!(tok, Tok::Char(_, _))
}

fn ends_name(meaning: &Option<Meaning>) -> bool
    ensures { result ≡ ends_name meaning.now }
{
    matches!(meaning, Some(Meaning::Row(Command::EndCsName)))
}

fn is_empty(text: &[u8]) -> bool
    ensures { result ≡ is_empty text.now }
{
    text.is_empty()
}

impl<'a, C: Cells> Feeder<'a, C> {
    #[tactic(auto, using(crate::proofs::PassLemmas::works_performs))]
    fn keep_word(&mut self, text: WordText, purpose: Purpose) -> Result<Went, NoMemory>
        ensures performs { PerformsOver C.Cells (kept (reading.Word purpose) text) result self.new self.old }
        ensures same_cells { self.new.cells.ghost_name ≡ self.old.cells.ghost_name }
        ensures same_desk { self.new.desk.ghost_name ≡ self.old.desk.ghost_name }
    {
        keep(self.desk, Opened::Word(text, purpose))
    }

    #[tactic(auto, using(crate::proofs::PassLemmas::works_performs))]
    fn keep_name(&mut self, text: NameText) -> Result<Went, NoMemory>
        ensures performs { PerformsOver C.Cells (kept reading.Name text) result self.new self.old }
        ensures same_cells { self.new.cells.ghost_name ≡ self.old.cells.ghost_name }
        ensures same_desk { self.new.desk.ghost_name ≡ self.old.desk.ghost_name }
    {
        keep(self.desk, Opened::Name(text))
    }

    // A text in braces is given a token.
    #[tactic(auto, using(crate::proofs::CloseLemmas::closes_went))]
    pub(crate) fn give_word(
        &mut self,
        text: WordText,
        purpose: Purpose,
        tok: &Tok,
    ) -> Result<Closed, NoMemory>
        ensures closes { ClosesOver C.Cells (word_met (word 0 [] (text ++ AToken tok.now ∷ [])) purpose (text ++ AToken tok.now ∷ [])) result self.new
            self.old }
        ensures same_cells { self.new.cells.ghost_name ≡ self.old.cells.ghost_name }
        ensures same_desk { self.new.desk.ghost_name ≡ self.old.desk.ghost_name }
    {
        match text.take(tok)? {
            WordTurn::Open(text) => {
                let went = self.keep_word(text, purpose)?;
                Ok(Closed::Went(went))
            }
            WordTurn::Ended(text) => self.close_word(purpose, text),
            WordTurn::Wrong(kind) => Ok(Closed::Went(Went::Stopped(kind))),
        }
    }

    // `\csname` is given a token.
    pub(crate) fn give_name(
        &mut self,
        text: NameText,
        meaning: &Option<Meaning>,
        tok: &Tok,
    ) -> Result<Went, NoMemory>
        ensures performs { PerformsOver C.Cells (λ c. if ends_name meaning.now then named (map character_code (tokens_in text)) c else (if is_character
            tok.now then kept reading.Name (text ++ AToken tok.now ∷ []) c else stopped TokenMisplaced c)) result self.new self.old }
        ensures same_cells { self.new.cells.ghost_name ≡ self.old.cells.ghost_name }
        ensures same_desk { self.new.desk.ghost_name ≡ self.old.desk.ghost_name }
    {
        if ends_name(meaning) {
            let name = text.into_name(self.desk.alloc)?;
            return self.end_name(name);
        }
        if !is_character(tok) {
            return Ok(Went::Stopped(Kind::TokenMisplaced));
        }
        let mut text = text;
        text.push(tok)?;
        self.keep_name(text)
    }

    // A body is given a token.
    pub(crate) fn give_body(&mut self, text: BodyText, tok: Tok) -> Result<Went, NoMemory>
        ensures performs { PerformsOver C.Cells (body_met (body 0 [] (text ++ AToken tok ∷ [])) (text ++ AToken tok ∷ [])) result self.new self.old }
        ensures same_cells { self.new.cells.ghost_name ≡ self.old.cells.ghost_name }
        ensures same_desk { self.new.desk.ghost_name ≡ self.old.desk.ghost_name }
    {
        match text.take(tok)? {
            BodyTurn::Open(text) => self.keep_body(text),
            BodyTurn::Ended(toks) => Ok(Went::Answered(Answer::Body(toks))),
            BodyTurn::Wrong(kind) => Ok(Went::Stopped(kind)),
        }
    }

    #[tactic(auto, using(crate::proofs::PassLemmas::works_performs))]
    fn keep_file(&mut self, text: FileName) -> Result<Went, NoMemory>
        ensures performs { PerformsOver C.Cells (kept reading.File text) result self.new self.old }
        ensures same_cells { self.new.cells.ghost_name ≡ self.old.cells.ghost_name }
        ensures same_desk { self.new.desk.ghost_name ≡ self.old.desk.ghost_name }
    {
        keep(self.desk, Opened::File(text))
    }

    #[tactic(auto, using(crate::proofs::PassLemmas::works_performs))]
    fn put_given(&mut self, given: Given) -> Result<Went, NoMemory>
        ensures performs { PerformsOver C.Cells (put (tokens_in (given ∷ []))) result self.new self.old }
        ensures same_cells { self.new.cells.ghost_name ≡ self.old.cells.ghost_name }
        ensures same_desk { self.new.desk.ghost_name ≡ self.old.desk.ghost_name }
    {
        match given {
            Given::Tok(tok) => put_one(self.desk, tok),
            Given::Quantity(_) => put_none(self.desk),
            Given::End => put_none(self.desk),
        }
    }

    // What is not of a file's name is put back, and the file is read.
    fn input_before(&mut self, name: Bytes, given: Given) -> Result<Went, NoMemory>
        ensures performs { PerformsOver C.Cells (λ c. and_then (put (tokens_in (given ∷ [])) c) (input name)) result self.new self.old }
        ensures same_cells { self.new.cells.ghost_name ≡ self.old.cells.ghost_name }
        ensures same_desk { self.new.desk.ghost_name ≡ self.old.desk.ghost_name }
    {
        let went = self.put_given(given)?;
        match went {
            Went::On => self.input(name),
            went => Ok(went),
        }
    }

    // The name of a file has ended at a space.
    fn input_at_once(&mut self, name: Bytes) -> Result<Went, NoMemory>
        ensures performs { PerformsOver C.Cells (λ c. and_then (put [] c) (input name)) result self.new self.old }
        ensures same_cells { self.new.cells.ghost_name ≡ self.old.cells.ghost_name }
        ensures same_desk { self.new.desk.ghost_name ≡ self.old.desk.ghost_name }
    {
        let went = self.put_nothing()?;
        match went {
            Went::On => self.input(name),
            went => Ok(went),
        }
    }

    #[tactic(auto, using(crate::proofs::PassLemmas::works_performs))]
    fn put_nothing(&mut self) -> Result<Went, NoMemory>
        ensures performs { PerformsOver C.Cells (put []) result self.new self.old }
        ensures same_cells { self.new.cells.ghost_name ≡ self.old.cells.ghost_name }
        ensures same_desk { self.new.desk.ghost_name ≡ self.old.desk.ghost_name }
    {
        put_none(self.desk)
    }

    // The name of a file begins anew.
    fn restart_file(&mut self) -> Result<Went, NoMemory>
        ensures performs { PerformsOver C.Cells (kept reading.File []) result self.new self.old }
        ensures same_cells { self.new.cells.ghost_name ≡ self.old.cells.ghost_name }
        ensures same_desk { self.new.desk.ghost_name ≡ self.old.desk.ghost_name }
    {
        let text = FileName::new(self.desk.alloc);
        self.keep_file(text)
    }

    // A space has ended the name of a file, or stands before it.
    fn end_file(&mut self, name: Bytes) -> Result<Went, NoMemory>
        ensures performs { PerformsOver C.Cells (λ c. if is_empty name then kept reading.File [] c else and_then (put [] c) (input name)) result self.new
            self.old }
        ensures same_cells { self.new.cells.ghost_name ≡ self.old.cells.ghost_name }
        ensures same_desk { self.new.desk.ghost_name ≡ self.old.desk.ghost_name }
    {
        if is_empty(name.as_slice()) {
            return self.restart_file();
        }
        self.input_at_once(name)
    }

    // The name of a file is given a token.
    pub(crate) fn give_file(&mut self, text: FileName, tok: Tok) -> Result<Went, NoMemory>
        ensures performs { PerformsOver C.Cells (file_given (file_name [] (text ++ AToken tok ∷ [])) (text ++ AToken tok ∷ [])) result self.new self.old }
        ensures same_cells { self.new.cells.ghost_name ≡ self.old.cells.ghost_name }
        ensures same_desk { self.new.desk.ghost_name ≡ self.old.desk.ghost_name }
    {
        match text.take(Given::Tok(tok))? {
            FileTurn::Open(text) => self.keep_file(text),
            FileTurn::Ended(name) => self.end_file(name),
            FileTurn::EndedBefore(name, given) => self.input_before(name, given),
        }
    }

    // `\expandafter` puts its token before the one that it is given.
    #[tactic(auto, using(crate::proofs::PassLemmas::works_performs))]
    pub(crate) fn give_held(&mut self, held: Tok, tok: Tok) -> Result<Went, NoMemory>
        ensures performs { PerformsOver C.Cells (put (held ∷ tok ∷ [])) result self.new self.old }
        ensures same_cells { self.new.cells.ghost_name ≡ self.old.cells.ghost_name }
        ensures same_desk { self.new.desk.ghost_name ≡ self.old.desk.ghost_name }
    {
        put_two(self.desk, held, tok)
    }
}
