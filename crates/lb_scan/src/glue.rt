//! Turns of a scan of glue behind its width, and what comes of a dimension.
ghost use Rattle.std.specs.Prelude.{◌≡◌, ◌∷◌, ◌<◌, List, ℕ};
ghost use Rattle.lb_model_grammar.specs.declared.given.Given.{Given as AGiven};
ghost use Rattle.lb_model_grammar.specs.declared.given.Scanned.{Scanned};
ghost use Rattle.lb_model_grammar.specs.Dimensions.{of_width, signed_glue};
ghost use Rattle.lb_scan.specs.declared.length.Length.{Length as ALength};
ghost use Rattle.lb_scan.specs.declared.stage.Stage.{Stage as AStage};
ghost use Rattle.lb_scan.specs.Lengths.{ended_length, length_after};
ghost use Rattle.lb_scan.specs.Stages.{stage_after, turned, uses_of, within};

use crate::arith::signed_value;
use crate::class::{is_space, letter_of};
use crate::length::{Ending, Length};
use crate::stage::{Keeps, Purpose, Stage};
use crate::word::{Progress, next_letter};
use lb_base::{Glue, Kind, Order};
use lb_model_grammar::{Given, Quantity, Scanned};

// ---- Values

fn of_width(width: i32) -> Glue
    ensures { result ≡ of_width width }
{
    Glue {
        width,
        stretch: 0,
        stretch_order: Order::Finite,
        shrink: 0,
        shrink_order: Order::Finite,
    }
}

fn signed_glue(negative: bool, glue: Glue) -> Glue
    ensures { result ≡ signed_glue negative glue }
{
    Glue {
        width: signed_value(negative, glue.width),
        stretch: signed_value(negative, glue.stretch),
        stretch_order: glue.stretch_order,
        shrink: signed_value(negative, glue.shrink),
        shrink_order: glue.shrink_order,
    }
}

fn stretching(glue: Glue, order: Order, stretch: i32) -> Glue
    ensures { result ≡ record glue { stretch = stretch; stretch_order = order } }
{
    Glue {
        stretch,
        stretch_order: order,
        ..glue
    }
}

fn shrinking(glue: Glue, order: Order, shrink: i32) -> Glue
    ensures { result ≡ record glue { shrink = shrink; shrink_order = order } }
{
    Glue {
        shrink,
        shrink_order: order,
        ..glue
    }
}

// ---- Turns

// The next stage, and what is kept.
#[inline(always)]
fn turned(next: Stage, keeps: Keeps, stage: &mut Stage) -> Keeps
    ensures stage { stage.new ≡ next }
    ensures keeps { result ≡ keeps }
{
    *stage = next;
    keeps
}

// The glue as it was read, and all behind it goes back.
fn unchanged(glue: Glue, stage: &mut Stage) -> Keeps
    ensures stage { stage.new ≡ Stage.Over (Scanned.Skip glue) }
    ensures keeps { result ≡ Keeps.All }
{
    turned(Stage::Over(Scanned::Skip(glue)), Keeps::All, stage)
}

/// Letters of `plus` were read.
#[inline(never)]
pub(crate) fn plus(glue: Glue, count: usize, given: &Given, stage: &mut Stage) -> Keeps
    requires { count < 4 }
    ensures next { (word : List ℕ) (all more : List AGiven) →
        turned word stage.new result all given.now more ≡ stage_after word (Stage.Plus glue count) all (given.now ∷ more) }
    ensures within { (word : List ℕ) → within word stage.new }
{
    match next_letter(b"plus", count, given) {
        Progress::Letters(count) => turned(Stage::Plus(glue, count), Keeps::All, stage),
        Progress::Found => turned(
            Stage::Length(Purpose::Stretch(glue), Length::Signs(false)),
            Keeps::All,
            stage,
        ),
        Progress::Missing => unchanged(glue, stage),
    }
}

/// Letters of `minus` were read.
#[inline(never)]
pub(crate) fn minus(glue: Glue, count: usize, given: &Given, stage: &mut Stage) -> Keeps
    requires { count < 5 }
    ensures next { (word : List ℕ) (all more : List AGiven) →
        turned word stage.new result all given.now more ≡ stage_after word (Stage.Minus glue count) all (given.now ∷ more) }
    ensures within { (word : List ℕ) → within word stage.new }
{
    match next_letter(b"minus", count, given) {
        Progress::Letters(count) => turned(Stage::Minus(glue, count), Keeps::All, stage),
        Progress::Found => turned(
            Stage::Length(Purpose::Shrink(glue), Length::Signs(false)),
            Keeps::All,
            stage,
        ),
        Progress::Missing => unchanged(glue, stage),
    }
}

/// `minus` may come behind spaces.
#[tactic(auto, unfolding(crate::specs::Stages::shrinkable_after))]
#[inline(never)]
pub(crate) fn shrinkable(glue: Glue, given: &Given, stage: &mut Stage) -> Keeps
    ensures next { (word : List ℕ) (all more : List AGiven) →
        turned word stage.new result all given.now more ≡ stage_after word (Stage.Shrinkable glue) all (given.now ∷ more) }
    ensures within { (word : List ℕ) → within word stage.new }
{
    match given {
        Given::Tok(tok) => {
            if is_space(tok) {
                return turned(Stage::Shrinkable(glue), Keeps::All, stage);
            }
            minus(glue, 0, given, stage)
        }
        Given::Quantity(_) => unchanged(glue, stage),
        Given::End => unchanged(glue, stage),
    }
}

/// `plus` or `minus` may come behind spaces.
#[tactic(auto, unfolding(crate::specs::Stages::stretchable_after))]
#[inline(never)]
pub(crate) fn stretchable(glue: Glue, given: &Given, stage: &mut Stage) -> Keeps
    ensures next { (word : List ℕ) (all more : List AGiven) →
        turned word stage.new result all given.now more ≡ stage_after word (Stage.Stretchable glue) all (given.now ∷ more) }
    ensures within { (word : List ℕ) → within word stage.new }
{
    match given {
        Given::Tok(tok) => {
            if is_space(tok) {
                return turned(Stage::Stretchable(glue), Keeps::All, stage);
            }
            match letter_of(tok) {
                Some(b'p') => turned(Stage::Plus(glue, 1), Keeps::All, stage),
                Some(b'm') => turned(Stage::Minus(glue, 1), Keeps::All, stage),
                Some(_) => unchanged(glue, stage),
                None => unchanged(glue, stage),
            }
        }
        Given::Quantity(_) => unchanged(glue, stage),
        Given::End => unchanged(glue, stage),
    }
}

// What is kept behind a turn at what stands behind a whole reading.
fn behind(keeps: Keeps) -> Keeps
    ensures { (word : List ℕ) (stage : AStage) (all : List AGiven) (g : AGiven) (more : List AGiven) →
        turned word stage result all g more ≡ turned word stage keeps (g ∷ more) g more }
{
    match keeps {
        Keeps::All => Keeps::Last,
        Keeps::Nothing => Keeps::Nothing,
        Keeps::Last => Keeps::Last,
    }
}

// ---- What comes of a dimension

/// What is kept where a dimension goes on.
pub(crate) fn going_on(purpose: &Purpose) -> Keeps
    ensures { (word : List ℕ) (length : ALength) (all : List AGiven) (g : AGiven) (more : List AGiven) →
        turned word (Stage.Length purpose.now length) result all g more ≡ length_after (uses_of purpose.now all) length more }
{
    match purpose {
        Purpose::Dimension => Keeps::Nothing,
        Purpose::Width => Keeps::Nothing,
        Purpose::Stretch(_) => Keeps::All,
        Purpose::Shrink(_) => Keeps::All,
    }
}

/// A dimension alone.
fn dimension(end: Ending, given: &Given, stage: &mut Stage) -> Keeps
    ensures next { (word : List ℕ) (all more : List AGiven) →
        turned word stage.new result all given.now more ≡ ended_length (uses_of Purpose.Dimension all) end given.now more }
    ensures within { (word : List ℕ) → within word stage.new }
{
    match end {
        Ending::Alone(negative) => dimension_alone(negative, given, stage),
        Ending::Missing(kind) => failed(kind, stage),
        Ending::Fails(kind) => failed(kind, stage),
        Ending::Found(_, dimen) => turned(
            Stage::Over(Scanned::Dimen(dimen)),
            Keeps::Nothing,
            stage,
        ),
        Ending::FoundBefore(_, dimen) => turned(
            Stage::Over(Scanned::Dimen(dimen)),
            Keeps::Last,
            stage,
        ),
    }
}

fn dimension_alone(negative: bool, given: &Given, stage: &mut Stage) -> Keeps
    ensures next { (word : List ℕ) (all more : List AGiven) →
        turned word stage.new result all given.now more ≡ ended_length (uses_of Purpose.Dimension all) (Ending.Alone negative) given.now more }
    ensures within { (word : List ℕ) → within word stage.new }
{
    match given {
        Given::Quantity(Quantity::Dimen(dimen)) => turned(
            Stage::Over(Scanned::Dimen(signed_value(negative, *dimen))),
            Keeps::Nothing,
            stage,
        ),
        Given::Quantity(Quantity::NotOne) => failed(Kind::NumberMissing, stage),
        Given::Quantity(Quantity::Number(_)) => failed(Kind::NumberMissing, stage),
        Given::Quantity(Quantity::Skip(_)) => failed(Kind::NumberMissing, stage),
        Given::Tok(_) => failed(Kind::NumberMissing, stage),
        Given::End => failed(Kind::NumberMissing, stage),
    }
}

#[cold]
fn failed(kind: Kind, stage: &mut Stage) -> Keeps
    ensures stage { stage.new ≡ Stage.Failed kind }
    ensures keeps { result ≡ Keeps.Nothing }
{
    turned(Stage::Failed(kind), Keeps::Nothing, stage)
}

/// The width of glue.
fn width(end: Ending, given: &Given, stage: &mut Stage) -> Keeps
    ensures next { (word : List ℕ) (all more : List AGiven) →
        turned word stage.new result all given.now more ≡ ended_length (uses_of Purpose.Width all) end given.now more }
    ensures within { (word : List ℕ) → within word stage.new }
{
    match end {
        Ending::Alone(negative) => width_alone(negative, given, stage),
        Ending::Missing(kind) => failed(kind, stage),
        Ending::Fails(kind) => failed(kind, stage),
        Ending::Found(_, width) => turned(
            Stage::Stretchable(of_width(width)),
            Keeps::Nothing,
            stage,
        ),
        Ending::FoundBefore(_, width) => behind(stretchable(of_width(width), given, stage)),
    }
}

fn width_alone(negative: bool, given: &Given, stage: &mut Stage) -> Keeps
    ensures next { (word : List ℕ) (all more : List AGiven) →
        turned word stage.new result all given.now more ≡ ended_length (uses_of Purpose.Width all) (Ending.Alone negative) given.now more }
    ensures within { (word : List ℕ) → within word stage.new }
{
    match given {
        Given::Quantity(Quantity::Skip(glue)) => turned(
            Stage::Over(Scanned::Skip(signed_glue(negative, *glue))),
            Keeps::Nothing,
            stage,
        ),
        Given::Quantity(Quantity::Dimen(dimen)) => turned(
            Stage::Stretchable(of_width(signed_value(negative, *dimen))),
            Keeps::Nothing,
            stage,
        ),
        Given::Quantity(Quantity::NotOne) => failed(Kind::NumberMissing, stage),
        Given::Quantity(Quantity::Number(_)) => failed(Kind::NumberMissing, stage),
        Given::Tok(_) => failed(Kind::NumberMissing, stage),
        Given::End => failed(Kind::NumberMissing, stage),
    }
}

/// What glue stretches by.
fn stretch(glue: Glue, end: Ending, given: &Given, stage: &mut Stage) -> Keeps
    ensures next { (word : List ℕ) (all more : List AGiven) →
        turned word stage.new result all given.now more ≡ ended_length (uses_of (Purpose.Stretch glue) all) end given.now more }
    ensures within { (word : List ℕ) → within word stage.new }
{
    match end {
        Ending::Alone(negative) => match given {
            Given::Quantity(Quantity::Dimen(dimen)) => {
                let glue = stretching(glue, Order::Finite, signed_value(negative, *dimen));
                turned(Stage::Shrinkable(glue), Keeps::Nothing, stage)
            }
            Given::Quantity(Quantity::NotOne) => unchanged(glue, stage),
            Given::Quantity(Quantity::Number(_)) => unchanged(glue, stage),
            Given::Quantity(Quantity::Skip(_)) => unchanged(glue, stage),
            Given::Tok(_) => unchanged(glue, stage),
            Given::End => unchanged(glue, stage),
        },
        Ending::Missing(_) => unchanged(glue, stage),
        Ending::Fails(kind) => failed(kind, stage),
        Ending::Found(order, size) => turned(
            Stage::Shrinkable(stretching(glue, order, size)),
            Keeps::Nothing,
            stage,
        ),
        Ending::FoundBefore(order, size) => behind(shrinkable(
            stretching(glue, order, size),
            given,
            stage,
        )),
    }
}

/// What glue shrinks by.
fn shrink(glue: Glue, end: Ending, given: &Given, stage: &mut Stage) -> Keeps
    ensures next { (word : List ℕ) (all more : List AGiven) →
        turned word stage.new result all given.now more ≡ ended_length (uses_of (Purpose.Shrink glue) all) end given.now more }
    ensures within { (word : List ℕ) → within word stage.new }
{
    match end {
        Ending::Alone(negative) => match given {
            Given::Quantity(Quantity::Dimen(dimen)) => {
                let glue = shrinking(glue, Order::Finite, signed_value(negative, *dimen));
                turned(Stage::Over(Scanned::Skip(glue)), Keeps::Nothing, stage)
            }
            Given::Quantity(Quantity::NotOne) => unchanged(glue, stage),
            Given::Quantity(Quantity::Number(_)) => unchanged(glue, stage),
            Given::Quantity(Quantity::Skip(_)) => unchanged(glue, stage),
            Given::Tok(_) => unchanged(glue, stage),
            Given::End => unchanged(glue, stage),
        },
        Ending::Missing(_) => unchanged(glue, stage),
        Ending::Fails(kind) => failed(kind, stage),
        Ending::Found(order, size) => turned(
            Stage::Over(Scanned::Skip(shrinking(glue, order, size))),
            Keeps::Nothing,
            stage,
        ),
        Ending::FoundBefore(order, size) => turned(
            Stage::Over(Scanned::Skip(shrinking(glue, order, size))),
            Keeps::Last,
            stage,
        ),
    }
}

/// What comes of the end of a dimension by what it is for.
#[inline(never)]
pub(crate) fn dimension_ended(
    purpose: Purpose,
    end: Ending,
    given: &Given,
    stage: &mut Stage,
) -> Keeps
    ensures next { (word : List ℕ) (all more : List AGiven) →
        turned word stage.new result all given.now more ≡ ended_length (uses_of purpose all) end given.now more }
    ensures within { (word : List ℕ) → within word stage.new }
{
    match purpose {
        Purpose::Dimension => dimension(end, given, stage),
        Purpose::Width => width(end, given, stage),
        Purpose::Stretch(glue) => stretch(glue, end, given, stage),
        Purpose::Shrink(glue) => shrink(glue, end, given, stage),
    }
}
