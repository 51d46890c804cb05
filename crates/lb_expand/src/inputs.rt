//! `\input` and the name that it reads (tex.web, part 29).
ghost use Rattle.std.specs.Prelude.{◌≡◌, ◌∷◌, [], true, IfOk, IfErr, OnOk};
ghost use Rattle.std.specs.Option.{option_map};
ghost use Rattle.lb_model.specs.Configs.{asked, in_file, looks_by, looks_in_file, taken_by};
ghost use Rattle.lb_model.specs.Fed.{Reads};
ghost use Rattle.lb_model.specs.Readings.{looks_taken, taken};
ghost use Rattle.lb_model.specs.Settings.{Setting, noted_all};
ghost use Rattle.lb_model.specs.Stops.{MayStopAt};
ghost use Rattle.lb_model.specs.declared.place.Got.TheVariants.{Fault as GotFault};
ghost use Rattle.lb_model.specs.declared.open.Purpose.TheVariants.{Input as ForInput};
ghost use Rattle.lb_model.specs.declared.open.ReadingKind.TheVariants as reading;
ghost use Rattle.lb_model_grammar.specs.Arguments.{group, opens};
ghost use Rattle.lb_model_expansion.specs.Expansion.{first_token, if_room, input_begun, input_met, opened_uncounted, word_behind};
ghost use Rattle.lb_model_expansion.specs.Steps.{and_then, put, with_outcome};
ghost use Rattle.lb_expand.specs.Feeding.{PerformsOver};
ghost use Rattle.lb_expand.specs.Works.{Leads, Works};

use crate::feeder::Feeder;
use crate::pairs::is_space;
use crate::putting::begin;
use crate::readings::Opened;
use lb_args::read_group;
use lb_base::{Category, Kind, NoMemory, Stop, Tok};
use lb_model::{Cells, Feed, Purpose};
use lb_model_expansion::Went;
use lb_words::FileName;
use std::alloc::AllocError;

// The next token; where `passes` holds the ends of texts are passed.
fn take_from<F: Feed>(feed: &mut F, passes: bool) -> Result<Option<Tok>, Stop>
    ensures narrows { (p : Setting) → F.agrees feed.new p → F.agrees feed.old p }
    ensures ok { IfOk result (λ tok. (p : Setting) → F.agrees feed.new p →
        taken_by passes (F.configuration feed.old p) ≡ record { got = asked tok; next = F.configuration feed.new p }) }
    ensures fault { IfErr result (λ e. MayStopAt e (λ k. (p : Setting) → F.agrees feed.new p →
        taken_by passes (F.configuration feed.old p) ≡ record { got = GotFault k; next = F.configuration feed.new p })) }
    ensures notes { OnOk result ((p : Setting) → F.agrees feed.new p →
        F.notes feed.new ≡ option_map (noted_all (looks_by passes (F.configuration feed.old p))) (F.notes feed.old)) }
    ensures notes_on_fault { IfErr result (λ e. MayStopAt e (λ k. (p : Setting) → F.agrees feed.new p →
        F.notes feed.new ≡ option_map (noted_all (looks_by passes (F.configuration feed.old p))) (F.notes feed.old))) }
    ensures stands { (p : Setting) → F.agrees feed.new p → F.stands feed.old p → F.stands feed.new p }
    ensures origin { F.origin feed.new ≡ F.origin feed.old }
{
    match passes {
        true => feed.plain(),
        false => feed.in_file(),
    }
}

// Takes the first token that is no space; where `passes` holds the ends of texts are passed.
fn first_token<F: Feed>(feed: &mut F, passes: bool) -> Result<Tok, Stop>
    ensures reads { Reads F.Feed (taken (taken_by passes) first_token) (looks_taken (taken_by passes) (looks_by passes) first_token) result feed.new feed.old }
{
    'tokens: for _turn in 0..u64::MAX {
        match take_from(feed, passes) {
            Err(stop) => return Err(stop),
            Ok(None) => return Err(Stop::Fault(Kind::Runaway)),
            Ok(Some(tok)) => {
                if is_space(&tok) {
                    continue;
                }
                return Ok(tok);
            }
        }
    }
    Err(Stop::Memory)
}

fn opens(tok: &Tok) -> bool
    ensures { result ≡ opens tok.now }
{
    matches!(tok, Tok::Char(Category::BeginGroup, _))
}

impl<'a, C: Cells> Feeder<'a, C> {
    // The name of a file is read up to a space.
    #[tactic(auto, using(crate::proofs::PassLemmas::works_performs))]
    fn open_file(&mut self) -> Result<Went, NoMemory>
        ensures performs { PerformsOver C.Cells (opened_uncounted reading.File) result self.new self.old }
        ensures same_cells { self.new.cells.ghost_name ≡ self.old.cells.ghost_name }
        ensures same_desk { self.new.desk.ghost_name ≡ self.old.desk.ghost_name }
    {
        let text = FileName::new(self.desk.alloc);
        begin(self.desk, Opened::File(text))
    }

    // A name without braces begins with this token.
    fn input_bare(&mut self, tok: Tok) -> Result<Went, NoMemory>
        ensures performs { PerformsOver C.Cells (λ c. and_then (put (tok ∷ []) c) (opened_uncounted reading.File)) result self.new self.old }
        ensures same_cells { self.new.cells.ghost_name ≡ self.old.cells.ghost_name }
        ensures same_desk { self.new.desk.ghost_name ≡ self.old.desk.ghost_name }
    {
        let went = self.put_back(tok)?;
        match went {
            Went::On => self.open_file(),
            went => Ok(went),
        }
    }

    // A name in braces, whose opening brace was taken.
    fn input_braced(&mut self) -> Result<Went, NoMemory>
        ensures performs { PerformsOver C.Cells (λ c. with_outcome (taken in_file (group true 0 []) c) (looks_taken in_file looks_in_file (group true 0 [])
            c) (λ toks d. word_behind toks ForInput d)) result self.new self.old }
        ensures same_cells { self.new.cells.ghost_name ≡ self.old.cells.ghost_name }
        ensures same_desk { self.new.desk.ghost_name ≡ self.old.desk.ghost_name }
    {
        let alloc = self.desk.alloc;
        match read_group(alloc, self, true) {
            Ok(toks) => self.put_text(toks, Purpose::Input),
            Err(Stop::Fault(kind)) => Ok(Went::Stopped(kind)),
            Err(_) => Err(AllocError),
        }
    }

    // The name of a file begins with this token.
    fn input_from(&mut self, tok: Tok) -> Result<Went, NoMemory>
        ensures performs { PerformsOver C.Cells (input_met tok) result self.new self.old }
        ensures same_cells { self.new.cells.ghost_name ≡ self.old.cells.ghost_name }
        ensures same_desk { self.new.desk.ghost_name ≡ self.old.desk.ghost_name }
    {
        if opens(&tok) {
            return self.input_braced();
        }
        self.input_bare(tok)
    }

    // The name of a file begins at the first token that is no space.
    fn begin_input(&mut self) -> Result<Went, NoMemory>
        ensures performs { PerformsOver C.Cells input_begun result self.new self.old }
        ensures same_cells { self.new.cells.ghost_name ≡ self.old.cells.ghost_name }
        ensures same_desk { self.new.desk.ghost_name ≡ self.old.desk.ghost_name }
    {
        let passes = self.desk.readings.ends_pass();
        match first_token(self, passes) {
            Ok(tok) => self.input_from(tok),
            Err(Stop::Fault(kind)) => Ok(Went::Stopped(kind)),
            Err(_) => Err(AllocError),
        }
    }

    /// `\input` reads the name of a file, in braces or up to a space, if one more reading may be open.
    pub(crate) fn read_input(&mut self) -> Result<Went, NoMemory>
        ensures performs { PerformsOver C.Cells (if_room input_begun) result self.new self.old }
        ensures same_cells { self.new.cells.ghost_name ≡ self.old.cells.ghost_name }
        ensures same_desk { self.new.desk.ghost_name ≡ self.old.desk.ghost_name }
    {
        if self.desk.readings.has_room() {
            return self.begin_input();
        }
        Ok(Went::Stopped(Kind::DepthLimit))
    }
}
