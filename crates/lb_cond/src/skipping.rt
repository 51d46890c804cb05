//! Text of a conditional that is skipped.
ghost use Rattle.std.specs.Prelude.{◌≡◌, ◌+◌, ◌≤◌, ◌<◌, ◌^◌, List, OnErr, IfOk};
ghost use Rattle.lb_base.specs.declared.token.Tok.{Tok as AToken};
ghost use Rattle.lb_model.specs.Conditionals.{looks_skipped, looks_skipped_of, passed, skipped, skipped_of};
ghost use Rattle.lb_model.specs.Expandables.{mark_as, mark_of};
ghost use Rattle.lb_model.specs.Fed.{Reads};
ghost use Rattle.lb_model_grammar.specs.Conditionals.{part_as, stop, stop_as};
ghost use Rattle.lb_model_grammar.specs.declared.given.Given.{Given as AGiven};
ghost use Rattle.lb_cond.specs.Stops.{level_of, stopped_by};

use crate::commands::expandable;
use crate::state::CondState;
use lb_base::{Kind, Stop};
use lb_model::{Expandable, Feed};
use lb_model_grammar::{Mark, Sought, Stopper};
use lb_values::Meaning;

/// The most tokens that are skipped.
const MOST_TURNS: u64 = 18_446_744_060_824_649_728;

// What a token does to text that is skipped at a level of conditionals.
#[derive(Clone, Copy)]
pub(crate) enum Turn {
    Stops(Stopper),
    Goes(u64, Sought),
}

fn mark_as(row: Option<Expandable>) -> Mark
    ensures { result ≡ mark_as row }
{
    match row {
        Some(Expandable::Test(_)) => Mark::Opens,
        Some(Expandable::Part(stopper)) => Mark::Stops(stopper),
        _ => Mark::Passes,
    }
}

/// What a token of a meaning is to text that is skipped: it opens a conditional, ends a part of one, or neither.
pub fn mark_of(meaning: &Option<Meaning>) -> Mark
    ensures { result ≡ mark_of meaning.now }
{
    match meaning {
        Some(Meaning::Row(command)) => mark_as(expandable(*command)),
        _ => Mark::Passes,
    }
}

// A part or the end, of no conditional inside the text.
fn part_turn(stopper: Stopper, sought: Sought) -> Turn
    ensures turn { (marks : AToken → Mark) (given : List AGiven) → part_as stopper sought (λ l s. stop marks l s given) given ≡ stopped_by result marks given }
    ensures small { level_of result ≡ 0 }
{
    match (stopper, sought) {
        (Stopper::Fi, _) => Turn::Stops(Stopper::Fi),
        (_, Sought::End) => Turn::Goes(0, Sought::End),
        (Stopper::Or, Sought::Nth(n)) => {
            if n == 1 {
                return Turn::Stops(Stopper::Or);
            }
            Turn::Goes(0, Sought::Nth(n.saturating_sub(1)))
        }
        (stopper, _) => Turn::Stops(stopper),
    }
}

fn turn_of(mark: Mark, level: u64, sought: Sought) -> Turn
    requires { level + 1 < 2 ^ 64 }
    ensures turn { (marks : AToken → Mark) (given : List AGiven) → stop_as mark level sought (λ l s. stop marks l s given) given ≡ stopped_by result marks given }
    ensures small { level_of result ≤ level + 1 }
{
    match (mark, level) {
        (Mark::Opens, _) => Turn::Goes(level + 1, sought),
        (Mark::Passes, _) => Turn::Goes(level, sought),
        (Mark::Stops(stopper), 0) => part_turn(stopper, sought),
        (Mark::Stops(Stopper::Fi), _) => Turn::Goes(level - 1, sought),
        (Mark::Stops(_), _) => Turn::Goes(level, sought),
    }
}

/// Skips text to the stop that is sought, of no conditional inside the text, where so many conditionals inside the one that is meant are open
/// at its start. The faults are those of the feed, and `IfOpen` where the piece ends before.
pub fn skip_to<F: Feed>(feed: &mut F, inside: u64, target: Sought) -> Result<Stopper, Stop>
    requires { inside < 2 ^ 32 }
    ensures reads { Reads F.Feed (skipped inside target) (looks_skipped inside target) result feed.new feed.old }
{
    let mut level = inside;
    let mut sought = target;
    'tokens: for _turn in 0..MOST_TURNS {
        match feed.plain() {
            Err(stop) => return Err(stop),
            Ok(None) => return Err(Stop::Fault(Kind::IfOpen)),
            Ok(Some(tok)) => match feed.meaning(&tok) {
                Err(_) => return Err(Stop::Memory),
                Ok(meaning) => {
                    let mark = mark_of(&meaning);
                    let turn = turn_of(mark, level, sought);
                    match turn {
                        Turn::Stops(stopper) => return Ok(stopper),
                        Turn::Goes(next, further) => {
                            level = next;
                            sought = further;
                        }
                    }
                }
            },
        }
    }
    Err(Stop::Memory)
}

/// Skips text to the matching `\or`, `\else` or `\fi` of the innermost open conditional, of which another part is read from there on, or
/// which is closed. The faults are those of the feed; `IfOpen` where the piece ends before, and `ExtraFi` where no conditional is open.
pub fn skip<F: Feed>(feed: &mut F, state: &mut CondState) -> Result<Stopper, Stop>
    ensures reads { Reads F.Feed (skipped_of state.old) (looks_skipped_of state.old) result feed.new feed.old }
    ensures passes { IfOk result (λ stopper. state.new ≡ passed stopper state.old) }
    ensures same { OnErr result (state.new ≡ state.old) }
{
    if state.count() == 0 {
        return Err(Stop::Fault(Kind::ExtraFi));
    }
    match skip_to(feed, 0, Sought::Any) {
        Err(stop) => Err(stop),
        Ok(stopper) => {
            state.pass(stopper);
            Ok(stopper)
        }
    }
}
