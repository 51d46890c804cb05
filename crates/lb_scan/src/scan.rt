//! Scans.
ghost use Rattle.std.specs.Prelude.{◌≡◌, ◌++◌, ◌∷◌, [], List, IfOk, IfErr, OnOk, OnErr, Some, Err, ℕ, true, false};
ghost use Rattle.lb_base.specs.declared.fault.Fault.{Fault as AFault};
ghost use Rattle.lb_base.specs.declared.fault.Kind.{Kind as AKind};
ghost use Rattle.lb_model_grammar.specs.declared.given.Given.{Given as AGiven};
ghost use Rattle.lb_model_grammar.specs.declared.given.Want.{Want as AWant};
ghost use Rattle.lb_model_grammar.specs.Dimensions.{Uses, meant};
ghost use Rattle.lb_model_grammar.specs.Scans.{after_of, value_of, want_of};
ghost use Rattle.lb_model_grammar.specs.Scans.Meant.{Wrong};
ghost use Rattle.lb_scan.specs.Lengths.{length_after};
ghost use Rattle.lb_scan.specs.Numbers.{number_after, turned_number};
ghost use Rattle.lb_scan.specs.Stages.{stage_after, turned, uses_of, within, word_of};
ghost use Rattle.lb_scan.specs.Words.{units_in};

use crate::dimension::{length_goes, length_turn};
use crate::glue::{dimension_ended, going_on, minus, plus, shrinkable, stretchable};
use crate::history::History;
use crate::kept::Kept;
use crate::keyword::{letters, spaces};
use crate::length::Length;
use crate::number::{Number, NumberTurn, number_digit, number_turn};
use crate::stage::{Keeps, Purpose, Stage};
use lb_base::{Kind, NoMemory, Stop, TokList};
use lb_model_grammar::{Given, ScanKind, Scanned, Want};
use std::alloc::Global;
use std::marker::Model;

/// A scan, seen as its kind and what it was given. Of that it keeps only the tokens that may have to be given back.
#[derive(Drop)]
pub struct Scan {
    kind: ScanKind,
    stage: Stage,
    kept: Kept,
    past: History<Given>,
}

impl Model for Scan {
    ghost use Rattle.lb_scan.specs.Scanning.{Scanning};
    ghost use Rattle.lb_scan.specs.Stages.{Stands};

    ghost Value = { Scanning };

    ghost view = { λ s. record { kind = s.kind; given = s.past.items } };

    ghost invariant = { λ s. Stands s.kind s.past.items s.kept s.stage };
}

// Where a scan begins.
#[tactic(auto, unfolding(crate::specs::Stages::stretchable_after, crate::specs::Stages::shrinkable_after))]
fn start(kind: &ScanKind) -> Stage
    ensures next { (given : List AGiven) → meant kind.now given ≡ stage_after (word_of kind.now) result given given }
    ensures within { within (word_of kind.now) result }
{
    match kind {
        ScanKind::Number => Stage::Number(Number::Signs(false)),
        ScanKind::Dimen => Stage::Length(Purpose::Dimension, Length::Signs(false)),
        ScanKind::Glue => Stage::Length(Purpose::Width, Length::Signs(false)),
        ScanKind::Keyword(_) => Stage::Spaces,
    }
}

fn word_of(kind: &ScanKind) -> &[u8]
    ensures { result.now ≡ word_of kind.now }
{
    match kind {
        ScanKind::Keyword(word) => word.as_slice(),
        ScanKind::Number | ScanKind::Dimen | ScanKind::Glue => &[],
    }
}

// What comes of a number.
fn number_turned(turn: NumberTurn, stage: &mut Stage) -> Keeps
    ensures next { (word : List ℕ) (all : List AGiven) (g : AGiven) (more : List AGiven) →
        turned word stage.new result all g more ≡ turned_number turn g more }
    ensures within { (word : List ℕ) → within word stage.new }
{
    match turn {
        NumberTurn::Goes(number) => {
            *stage = Stage::Number(number);
            Keeps::Nothing
        }
        NumberTurn::Ends(value) => {
            *stage = Stage::Over(Scanned::Number(value));
            Keeps::Nothing
        }
        NumberTurn::EndsBefore(value) => {
            *stage = Stage::Over(Scanned::Number(value));
            Keeps::Last
        }
        NumberTurn::Fails(kind) => {
            *stage = Stage::Failed(kind);
            Keeps::Nothing
        }
    }
}

// Whether the units of infinite glue may come.
fn is_infinite(purpose: &Purpose) -> bool
    ensures { (all : List AGiven) → (uses_of purpose.now all).units ≡ units_in result }
{
    match purpose {
        Purpose::Dimension => false,
        Purpose::Width => false,
        Purpose::Stretch(_) => true,
        Purpose::Shrink(_) => true,
    }
}

// The next stage where this is given, and what is kept then.
#[inline(never)]
fn turn(word: &[u8], given: &Given, stage: &mut Stage) -> Keeps
    requires { within word.now stage.old }
    ensures next { (all more : List AGiven) →
        turned word.now stage.new result all given.now more ≡ stage_after word.now stage.old all (given.now ∷ more) }
    ensures within { within word.now stage.new }
{
    match stage {
        Stage::Number(number) => number_turned(number_turn(*number, given), stage),
        Stage::Length(purpose, length) => match length_turn(is_infinite(purpose), given, length) {
            None => going_on(purpose),
            Some(end) => {
                let purpose = *purpose;
                dimension_ended(purpose, end, given, stage)
            }
        },
        Stage::Stretchable(glue) => stretchable(*glue, given, stage),
        Stage::Plus(glue, count) => plus(*glue, *count, given, stage),
        Stage::Shrinkable(glue) => shrinkable(*glue, given, stage),
        Stage::Minus(glue, count) => minus(*glue, *count, given, stage),
        Stage::Spaces => spaces(word, given, stage),
        Stage::Letters(count) => letters(word, *count, given, stage),
        Stage::Over(_) => Keeps::All,
        Stage::Failed(_) => Keeps::All,
    }
}

// Goes on with a number at a digit, or with a dimension behind which nothing is kept: the short way of most tokens. Whether it does; else
// the stage is as before.
#[inline]
fn goes_on(stage: &mut Stage, given: &Given) -> bool
    ensures next { result ≡ true → (word : List ℕ) (all left more : List AGiven) →
        stage_after word stage.new left more ≡ stage_after word stage.old all (given.now ∷ more) }
    ensures within { result ≡ true → (word : List ℕ) → within word stage.new }
    ensures same { result ≡ false → stage.new ≡ stage.old }
{
    match stage {
        Stage::Number(number) => number_digit(number, given),
        Stage::Length(Purpose::Dimension, length) => length_goes(length, given),
        Stage::Length(Purpose::Width, length) => length_goes(length, given),
        _ => false,
    }
}

// What is wanted in a number.
fn number_want(stage: Number) -> Want
    ensures { want_of (number_after stage []) ≡ Some result }
{
    match stage {
        Number::Signs(_) => Want::Expanded,
        Number::First(_, _) => Want::Expanded,
        Number::Digits(_, _, _) => Want::Expanded,
        Number::Character(_) => Want::Plain,
        Number::Space(_, _) => Want::Expanded,
        Number::Internal(_) => Want::Quantity,
    }
}

// What is wanted in a dimension.
fn length_want(stage: &Length) -> Want
    ensures { (u : Uses) → want_of (length_after u stage.now []) ≡ Some result }
{
    match stage {
        Length::Signs(_) => Want::Expanded,
        Length::Whole(_, _) => Want::Expanded,
        Length::Fraction(_, _, _) => Want::Expanded,
        Length::Unit_(_) => Want::Expanded,
        Length::Letters(_, _) => Want::Expanded,
        Length::InternalUnit(_) => Want::Quantity,
        Length::FontUnit(_, asked) => *asked,
        Length::Internal(_) => Want::Quantity,
        Length::Space(_) => Want::Expanded,
    }
}

// What is wanted at a stage, or the fault.
#[tactic(auto, unfolding(crate::specs::Stages::stretchable_after, crate::specs::Stages::shrinkable_after))]
fn want_at(stage: &Stage) -> Result<Want, Kind>
    ensures ok { IfOk result (λ want. (word : List ℕ) (all : List AGiven) →
        within word stage.now → want_of (stage_after word stage.now all []) ≡ Some want) }
    ensures fault { IfErr result (λ kind. (word : List ℕ) (all : List AGiven) → stage_after word stage.now all [] ≡ Wrong kind) }
{
    match stage {
        Stage::Number(number) => Ok(number_want(*number)),
        Stage::Length(_, length) => Ok(length_want(length)),
        Stage::Stretchable(_) => Ok(Want::Expanded),
        Stage::Plus(_, _) => Ok(Want::Expanded),
        Stage::Shrinkable(_) => Ok(Want::Expanded),
        Stage::Minus(_, _) => Ok(Want::Expanded),
        Stage::Spaces => Ok(Want::Expanded),
        Stage::Letters(_) => Ok(Want::Expanded),
        Stage::Over(_) => Ok(Want::Done),
        Stage::Failed(kind) => Err(*kind),
    }
}

impl Scan {
    /// A new scan wants an expanded token. Takes no memory.
    pub fn new(alloc: Global, kind: ScanKind) -> Scan
        ensures { result ≡ record { kind = kind; given = [] } }
    {
        let stage = start(&kind);
        Scan {
            kind,
            stage,
            kept: Kept::new(alloc),
            past: History::new(),
        }
    }

    // Turns to the next stage. Where memory is wanting the scan stays as it was.
    fn turn(&mut self, given: Given) -> Result<(), NoMemory>
        ensures kind { self.new.kind ≡ self.old.kind }
        ensures ok { OnOk result (self.new.given ≡ self.old.given ++ given ∷ []) }
        ensures err { OnErr result (self.new ≡ self.old) }
    {
        let past = self.past.and(&given);
        if goes_on(&mut self.stage, &given) {
            self.past = past;
            return Ok(());
        }
        let before = self.stage;
        let keeps = turn(word_of(&self.kind), &given, &mut self.stage);
        if let Err(error) = self.kept.turn(keeps, given) {
            self.stage = before;
            return Err(error);
        }
        self.past = past;
        Ok(())
    }

    // What the scan wants.
    fn want(&self) -> Result<Want, Stop>
        ensures ok { IfOk result (λ want. want_of (meant self.now.kind self.now.given) ≡ Some want) }
        ensures fault { IfErr result (λ e. (k : AKind) → e ≡ Stop.Fault k → meant self.now.kind self.now.given ≡ Wrong k) }
        ensures no_place { IfErr result (λ e. (f : AFault) → ¬ (e ≡ Stop.At f)) }
        ensures no_want { ¬ (result ≡ Err Stop.Memory) }
    {
        match want_at(&self.stage) {
            Ok(want) => Ok(want),
            Err(kind) => Err(Stop::Fault(kind)),
        }
    }

    /// Takes what the scan wanted, and says what it wants next: the next expanded token, the next token unexpanded, the quantity that
    /// begins with the token that was given last, the quad or the x-height of the present font, or nothing more. `End` stands for a token
    /// where there is none. A scan that is done stays so, and what is given then is given back. A fault is `NumberMissing`,
    /// `NumberTooBig`, `UnitMissing` or `DimenTooLarge`, and has no place. Where memory is wanting the scan is as before.
    pub fn take(&mut self, given: Given) -> Result<Want, Stop>
        ensures kind { self.new.kind ≡ self.old.kind }
        ensures given { ¬ (result ≡ Err Stop.Memory) → self.new.given ≡ self.old.given ++ given ∷ [] }
        ensures memory { result ≡ Err Stop.Memory → self.new ≡ self.old }
        ensures ok { IfOk result (λ want. want_of (meant self.old.kind (self.old.given ++ given ∷ [])) ≡ Some want) }
        ensures fault { IfErr result (λ e. (k : AKind) → e ≡ Stop.Fault k → meant self.old.kind (self.old.given ++ given ∷ []) ≡ Wrong k) }
        ensures no_place { IfErr result (λ e. (f : AFault) → ¬ (e ≡ Stop.At f)) }
    {
        self.turn(given)?;
        self.want()
    }

    /// Whether the scan wants its next token as it is, which is so behind a backquote. Takes no memory.
    pub fn wants_plain(&self) -> bool
        ensures plain { result ≡ true → want_of (meant self.now.kind self.now.given) ≡ Some AWant.Plain }
        ensures other { result ≡ false → ¬ (want_of (meant self.now.kind self.now.given) ≡ Some AWant.Plain) }
    {
        match self.want() {
            Ok(Want::Plain) => true,
            Ok(Want::Expanded) => false,
            Ok(Want::Quantity) => false,
            Ok(Want::Em) => false,
            Ok(Want::Ex) => false,
            Ok(Want::Done) => false,
            Err(Stop::Fault(_kind)) => false,
            Err(Stop::At(_fault)) => false,
            Err(Stop::Memory) => false,
        }
    }

    /// The value, where the scan is done. Takes no memory.
    pub fn value(&self) -> Option<Scanned>
        ensures { result ≡ value_of (meant self.now.kind self.now.given) }
    {
        match &self.stage {
            Stage::Over(value) => Some(*value),
            _ => None,
        }
    }

    /// The tokens that were given and are not of the reading, in their order: of a keyword that is not found all. Nothing is given back
    /// before the scan is done, or where it has failed. Takes no memory.
    pub fn give_back(self) -> TokList
        ensures { result ≡ after_of (meant self.kind self.given) }
    {
        let Scan {
            kind: _kind,
            stage,
            kept,
            past: _past,
        } = self;
        match stage {
            Stage::Over(_) => kept.into_tokens(),
            _ => kept.into_none(),
        }
    }
}
