//! Steps of expansion, and turns to the next token that is not expanded.
ghost use Rattle.std.specs.Prelude.{◌≡◌, ◌≤◌, ◌^◌, ℕ, Some, None};
ghost use Rattle.lb_base.specs.declared.fault.Kind.{Kind as AKind};
ghost use Rattle.std.specs.Option.{option_map_or};
ghost use Rattle.lb_model.specs.Arguments.{arguments, looks_arguments};
ghost use Rattle.lb_model.specs.Configs.{looks_of_meaning, meaning_now};
ghost use Rattle.lb_model.specs.Expandables.{expandable};
ghost use Rattle.lb_model.specs.Meanings.{is_control, refused_as, undefined};
ghost use Rattle.lb_model_grammar.specs.Arguments.{substituted};
ghost use Rattle.lb_model_expansion.specs.Expansion.{got_met, holding, macro_expanded, met_as, ran, resume, resumed, row_met, step, token_met};
ghost use Rattle.lb_model_expansion.specs.Steps.{looking, put};
ghost use Rattle.lb_expand.specs.Feeding.{PerformsOver};
ghost use Rattle.lb_expand.specs.Turns.{met, met_behind, ran_from};
ghost use Rattle.lb_expand.specs.Works.{Leads, Works};

use crate::desk::Desk;
use crate::feeder::Feeder;
use crate::giving::is_character;
use crate::taking::{meaning_of, take};
use lb_args::match_arguments;
use lb_base::{Kind, NoMemory, Stop, Tok};
use lb_cond::expandable;
use lb_macros::Arguments;
use lb_model::{Cells, Expandable};
use lb_model_expansion::Went;
use lb_rows::Refusal;
use lb_values::{MacroDef, Meaning, Shared};
use std::alloc::AllocError;

/// The most turns of a call.
const MOST_TURNS: u64 = 18_446_744_060_824_649_728;

/// What is wrong with a control sequence that has no meaning.
pub fn undefined(tok: &Tok) -> Kind
    ensures { result ≡ undefined tok.now }
{
    match tok {
        Tok::Word(name) => refused_as(Refusal::of(name.as_slice())),
        Tok::Active(_) => Kind::Undefined,
        Tok::Char(_, _) => Kind::Undefined,
        Tok::Param(_) => Kind::Undefined,
    }
}

fn refused_as(refusal: Option<Refusal>) -> Kind
    ensures { result ≡ option_map_or refused_as refusal AKind.Undefined }
{
    match refusal {
        Some(Refusal::Math) => Kind::MathRefused,
        Some(Refusal::Align) => Kind::AlignRefused,
        Some(Refusal::Package) => Kind::PackageRefused,
        Some(Refusal::Command) => Kind::CommandRefused,
        None => Kind::Undefined,
    }
}

fn is_control(tok: &Tok) -> bool
    ensures { result ≡ is_control tok.now }
{
    match tok {
        Tok::Word(_) => true,
        Tok::Active(_) => true,
        Tok::Char(_, _) => false,
        Tok::Param(_) => false,
    }
}

// Puts a macro's body with its arguments before the rest.
fn put_call(
    desk: &mut Desk,
    definition: Shared<MacroDef>,
    arguments: Arguments,
) -> Result<Went, NoMemory>
    ensures works { Works (put (substituted arguments definition.body)) result desk.new desk.old }
{
    let alloc = desk.alloc;
    if desk.source.put_call(definition, arguments, alloc)? {
        return Ok(Went::On);
    }
    Ok(Went::Stopped(Kind::DepthLimit))
}

impl<'a, C: Cells> Feeder<'a, C> {
    #[tactic(auto, using(crate::proofs::PassLemmas::works_performs))]
    fn put_body(
        &mut self,
        definition: Shared<MacroDef>,
        arguments: Arguments,
    ) -> Result<Went, NoMemory>
        ensures performs { PerformsOver C.Cells (put (substituted arguments definition.body)) result self.new self.old }
        ensures same_cells { self.new.cells.ghost_name ≡ self.old.cells.ghost_name }
        ensures same_desk { self.new.desk.ghost_name ≡ self.old.desk.ghost_name }
    {
        put_call(self.desk, definition, arguments)
    }

    // A macro is replaced by its body with its arguments.
    fn replace_macro(&mut self, definition: Shared<MacroDef>) -> Result<Went, NoMemory>
        ensures performs { PerformsOver C.Cells (macro_expanded definition) result self.new self.old }
        ensures same_cells { self.new.cells.ghost_name ≡ self.old.cells.ghost_name }
        ensures same_desk { self.new.desk.ghost_name ≡ self.old.desk.ghost_name }
    {
        let alloc = self.desk.alloc;
        match match_arguments(alloc, self, &definition.get().pattern) {
            Ok(arguments) => self.put_body(definition, arguments),
            Err(Stop::Fault(kind)) => Ok(Went::Stopped(kind)),
            Err(_) => Err(AllocError),
        }
    }

    // A macro is expanded, also where `\expandafter` held a token before it.
    fn expand_macro(&mut self, definition: Shared<MacroDef>) -> Result<Went, NoMemory>
        ensures performs { PerformsOver C.Cells (λ c. macro_expanded definition (holding c)) result self.new self.old }
        ensures same_cells { self.new.cells.ghost_name ≡ self.old.cells.ghost_name }
        ensures same_desk { self.new.desk.ghost_name ≡ self.old.desk.ghost_name }
    {
        self.desk.readings.hold()?;
        self.replace_macro(definition)
    }

    // A token that means a command.
    fn meet_command(
        &mut self,
        command: Option<Expandable>,
        meaning: Meaning,
        tok: Tok,
    ) -> Result<Went, NoMemory>
        ensures performs { PerformsOver C.Cells (row_met command (Some meaning) tok) result self.new self.old }
        ensures same_cells { self.new.cells.ghost_name ≡ self.old.cells.ghost_name }
        ensures same_desk { self.new.desk.ghost_name ≡ self.old.desk.ghost_name }
    {
        match command {
            Some(command) => self.expand(command, tok),
            None => self.hand(&Some(meaning), tok),
        }
    }

    // A token without meaning: a character is itself.
    fn meet_plain(&mut self, tok: Tok) -> Result<Went, NoMemory>
        ensures performs { PerformsOver C.Cells (met_as None tok) result self.new self.old }
        ensures same_cells { self.new.cells.ghost_name ≡ self.old.cells.ghost_name }
        ensures same_desk { self.new.desk.ghost_name ≡ self.old.desk.ghost_name }
    {
        if is_control(&tok) {
            return Ok(Went::Stopped(undefined(&tok)));
        }
        self.hand(&None, tok)
    }

    // A token of a meaning is expanded, or goes on.
    fn meet_as(&mut self, meaning: Option<Meaning>, tok: Tok) -> Result<Went, NoMemory>
        ensures performs { PerformsOver C.Cells (met_as meaning tok) result self.new self.old }
        ensures same_cells { self.new.cells.ghost_name ≡ self.old.cells.ghost_name }
        ensures same_desk { self.new.desk.ghost_name ≡ self.old.desk.ghost_name }
    {
        match meaning {
            None => self.meet_plain(tok),
            Some(Meaning::Macro(definition)) => self.expand_macro(definition),
            Some(Meaning::Row(row)) => self.meet_command(expandable(row), Meaning::Row(row), tok),
            Some(Meaning::Char(category, code)) => self.hand(
                &Some(Meaning::Char(category, code)),
                tok,
            ),
            Some(Meaning::Number(number)) => self.hand(&Some(Meaning::Number(number)), tok),
            Some(Meaning::Register(cell)) => self.hand(&Some(Meaning::Register(cell)), tok),
        }
    }

    // What a token means decides.
    fn meet_meaning(&mut self, tok: Tok) -> Result<Went, NoMemory>
        ensures performs { PerformsOver C.Cells (λ c. looking (looks_of_meaning tok) (met_as (meaning_now c tok) tok c)) result self.new self.old }
        ensures same_cells { self.new.cells.ghost_name ≡ self.old.cells.ghost_name }
        ensures same_desk { self.new.desk.ghost_name ≡ self.old.desk.ghost_name }
    {
        let meaning = meaning_of(self.cells, &tok)?;
        self.meet_as(meaning, tok)
    }

    // A token goes to a reading as it is where that wants it so. A character is given at once where no reading is open.
    fn meet_token(&mut self, tok: Tok) -> Result<Went, NoMemory>
        ensures performs { PerformsOver C.Cells (token_met tok) result self.new self.old }
        ensures same_cells { self.new.cells.ghost_name ≡ self.old.cells.ghost_name }
        ensures same_desk { self.new.desk.ghost_name ≡ self.old.desk.ghost_name }
    {
        if self.desk.readings.is_empty() && is_character(&tok) {
            return Ok(Went::Gave(tok));
        }
        if self.desk.readings.wants_plain() {
            return self.hand(&None, tok);
        }
        self.meet_meaning(tok)
    }

    // The next token, or the end of the piece.
    fn meet(&mut self) -> Result<Went, NoMemory>
        ensures performs { PerformsOver C.Cells met result self.new self.old }
        ensures same_cells { self.new.cells.ghost_name ≡ self.old.cells.ghost_name }
        ensures same_desk { self.new.desk.ghost_name ≡ self.old.desk.ghost_name }
    {
        let passes = self.desk.readings.ends_pass();
        match take(self.cells, self.desk, passes) {
            Ok(Some(tok)) => self.meet_token(tok),
            Ok(None) => self.meet_end(),
            Err(Stop::Fault(kind)) => Ok(Went::Stopped(kind)),
            Err(_) => Err(AllocError),
        }
    }

    // An `\expandafter` whose expansion is done puts its token before what came of it; and so does the one around it.
    fn resume(&mut self) -> Result<Went, NoMemory>
        ensures performs { PerformsOver C.Cells (λ c. resume c.readings c) result self.new self.old }
        ensures same_cells { self.new.cells.ghost_name ≡ self.old.cells.ghost_name }
        ensures same_desk { self.new.desk.ghost_name ≡ self.old.desk.ghost_name }
    {
        'readings: for _turn in 0..MOST_TURNS {
            match self.desk.readings.take_held()? {
                None => return Ok(Went::On),
                Some(tok) => match self.put_back(tok)? {
                    Went::On => {}
                    went => return Ok(went),
                },
            }
        }
        Err(AllocError)
    }

    // A step of expansion.
    fn step(&mut self) -> Result<Went, NoMemory>
        ensures performs { PerformsOver C.Cells step result self.new self.old }
        ensures same_cells { self.new.cells.ghost_name ≡ self.old.cells.ghost_name }
        ensures same_desk { self.new.desk.ghost_name ≡ self.old.desk.ghost_name }
    {
        let went = self.meet()?;
        match went {
            Went::On => self.resume(),
            went => Ok(went),
        }
    }

    /// Steps up to what ends them: a token that is not expanded where no reading is open, an answer, the end of the piece, or a fault.
    pub(crate) fn run(&mut self) -> Result<Went, NoMemory>
        ensures performs { PerformsOver C.Cells ran result self.new self.old }
        ensures turns { (turns : ℕ) → 2 ^ 64 ≤ turns → PerformsOver C.Cells (ran_from turns) result self.new self.old }
        ensures same_cells { self.new.cells.ghost_name ≡ self.old.cells.ghost_name }
        ensures same_desk { self.new.desk.ghost_name ≡ self.old.desk.ghost_name }
    {
        'steps: for _turn in 0..MOST_TURNS {
            let went = self.step()?;
            match went {
                Went::On => {}
                went => return Ok(went),
            }
        }
        Err(AllocError)
    }

    // A step that begins with a token that was taken.
    fn step_from(&mut self, tok: Tok) -> Result<Went, NoMemory>
        ensures performs { PerformsOver C.Cells (λ c. resumed (token_met tok c)) result self.new self.old }
        ensures same_cells { self.new.cells.ghost_name ≡ self.old.cells.ghost_name }
        ensures same_desk { self.new.desk.ghost_name ≡ self.old.desk.ghost_name }
    {
        let went = self.meet_token(tok)?;
        match went {
            Went::On => self.resume(),
            went => Ok(went),
        }
    }

    /// Steps up to what ends them, of which the first begins with a token that was taken.
    pub(crate) fn run_from(&mut self, tok: Tok) -> Result<Went, NoMemory>
        ensures performs { (turns : ℕ) → 2 ^ 64 ≤ turns → PerformsOver C.Cells (met_behind tok turns) result self.new self.old }
        ensures same_cells { self.new.cells.ghost_name ≡ self.old.cells.ghost_name }
        ensures same_desk { self.new.desk.ghost_name ≡ self.old.desk.ghost_name }
    {
        let went = self.step_from(tok)?;
        match went {
            Went::On => self.run(),
            went => Ok(went),
        }
    }
}
