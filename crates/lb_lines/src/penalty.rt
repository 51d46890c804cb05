//! Penalties between lines.
ghost use Rattle.std.specs.Prelude.{◌≡◌, ◌++◌, if◌then◌else◌, pos, neg_ℤ, ◌+ℤ◌, ◌≤ℤ◌, OnOk};
ghost use Rattle.lb_model_paper.specs.Lines.{held_penalty, penalty_behind, penalty_between, penalty_nodes};

use lb_base::{Node, NodeList};
use lb_model_paper::paragraph::BreakRules;
use std::alloc::AllocError;

/// What a condition adds to a penalty.
fn added_where(applies: bool, penalty: i32) -> i64
    ensures value { result ≡ (if applies then penalty else pos 0) }
    ensures low { neg_ℤ (pos 2147483648) ≤ℤ result }
    ensures high { result ≤ℤ pos 2147483647 }
{
    if applies { i64::from(penalty) } else { 0 }
}

/// The sum of two penalties or of their sums.
fn plus(a: i64, b: i64) -> i64
    requires low_a { neg_ℤ (pos 8589934592) ≤ℤ a }
    requires high_a { a ≤ℤ pos 8589934592 }
    requires low_b { neg_ℤ (pos 8589934592) ≤ℤ b }
    requires high_b { b ≤ℤ pos 8589934592 }
    ensures { result ≡ a +ℤ b }
{
    a + b
}

/// A sum, or the nearest number that 32 bits hold.
fn held(sum: i64) -> i32
    ensures { result ≡ held_penalty sum }
{
    let held = sum.min(2_147_483_647).max(-2_147_483_648);
    held as i32
}

/// The penalty behind a line: more after the first one, before the last one, and after one that ends in
/// a discretionary. The sum is held within 32 bits.
fn penalty_behind(rules: &BreakRules, is_first: bool, is_next_last: bool, is_broken: bool) -> i32
    ensures { result ≡ penalty_behind rules.now is_first is_next_last is_broken }
{
    let club = added_where(is_first, rules.club_penalty);
    let widow = added_where(is_next_last, rules.widow_penalty);
    let broken = added_where(is_broken, rules.broken_penalty);
    let interline = added_where(true, rules.interline_penalty);
    held(plus(interline, plus(club, plus(widow, broken))))
}

/// The penalty between a line and so many lines behind it, which is 0 behind the last one.
pub fn penalty_between(rules: &BreakRules, is_first: bool, left: usize, is_broken: bool) -> i32
    ensures { result ≡ penalty_between rules.now is_first left is_broken }
{
    if left == 0 {
        return 0;
    }
    penalty_behind(rules, is_first, left == 1, is_broken)
}

/// Puts a penalty behind a list, if it is not 0.
pub fn push_penalty(list: &mut NodeList, penalty: i32) -> Result<(), AllocError>
    ensures { OnOk result (list.new ≡ list.old ++ penalty_nodes penalty) }
{
    if penalty == 0 {
        return Ok(());
    }
    list.push(Node::Penalty(penalty))?;
    Ok(())
}
