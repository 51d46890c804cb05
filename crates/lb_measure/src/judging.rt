//! How a line fits its glue, and what it adds to the demerits (TeXbook, chapter 14).
ghost use Rattle.std.specs.Prelude.{◌≡◌, ◌≤◌, ◌&&◌, if◌then◌else◌, int_le, pos, neg_ℤ, ◌≤ℤ◌, ◌<ℤ◌, IfSome};
ghost use Rattle.lb_model_paper.specs.Breaks.{Pass, badness_by, badness_demerits, excess_in, fitness_by, hyphen_demerits, is_endless, is_overfull_by, is_overfull_line, is_within, judged_line, line_demerits, penalty_demerits, verdict_by};
ghost use Rattle.lb_measure.specs.Amounts.{AreNear, IsNear};
ghost use Rattle.lb_measure.specs.Measures.{IsLine};

use lb_base::badness;
use lb_model_paper::paragraph::{BreakRules, Fitness, Judged, LineSums, Shape};

/// A badness, and a penalty that bars a break.
const AWFUL: u32 = 10_000;

/// The breaks at the ends of a line: whether they are discretionary, and whether the second one is the
/// last of the paragraph.
#[derive(Clone, Copy)]
pub struct Ends {
    pub from_disc: bool,
    pub to_disc: bool,
    pub is_last: bool,
}

/// What a line has to stretch by, and below 0 to shrink by.
pub fn excess_in(shape: &Shape, sums: &LineSums) -> i64
    requires { IsNear 1048576 sums.now.width }
    ensures value { result ≡ excess_in shape.now sums.now }
    ensures near { IsNear 1048577 result }
{
    i64::from(shape.width) - sums.width
}

/// Whether a line has to shrink by more than its shrink.
pub fn is_overfull(excess: i64, shrink: i64) -> bool
    requires { IsNear 1048577 excess }
    ensures { result ≡ is_overfull_by excess shrink }
{
    excess < 0 && shrink < -excess
}

/// Whether a list has infinite stretch.
fn is_endless(sums: &LineSums) -> bool
    ensures { result ≡ is_endless sums.now }
{
    sums.fil != 0 || sums.fill != 0 || sums.filll != 0
}

/// The badness of a line.
#[tactic(auto, unfolding(lb_model_paper::specs::Breaks::badness_by))]
fn badness_by(excess: i64, sums: &LineSums) -> u32
    requires { IsNear 1048577 excess }
    ensures value { result ≡ badness_by excess sums.now }
    ensures most { result ≤ 10000 }
{
    if excess >= 0 {
        return stretched_badness(excess, sums);
    }
    if sums.shrink < -excess {
        return AWFUL;
    }
    badness(-excess, sums.shrink) as u32
}

#[tactic(auto, unfolding(lb_model_paper::specs::Breaks::badness_by))]
fn stretched_badness(excess: i64, sums: &LineSums) -> u32
    requires { pos 0 ≤ℤ excess }
    ensures value { result ≡ badness_by excess sums.now }
    ensures most { result ≤ 10000 }
{
    if is_endless(sums) {
        return 0;
    }
    badness(excess, sums.finite) as u32
}

#[tactic(auto, unfolding(lb_model_paper::specs::Breaks::fitness_by))]
fn fitness_by(excess: i64, badness: u32) -> Fitness
    ensures { result ≡ fitness_by excess badness }
{
    if excess < 0 {
        if badness > 12 {
            Fitness::Tight
        } else {
            Fitness::Decent
        }
    } else if badness > 99 {
        Fitness::VeryLoose
    } else if badness > 12 {
        Fitness::Loose
    } else {
        Fitness::Decent
    }
}

/// The demerits of badness.
fn badness_demerits(line_penalty: i32, badness: u32) -> i64
    requires { badness ≤ 10000 }
    ensures value { result ≡ badness_demerits line_penalty badness }
    ensures low { pos 0 ≤ℤ result }
    ensures high { result ≤ℤ pos 100000000 }
{
    let sum = i64::from(line_penalty) + i64::from(badness);
    if sum.unsigned_abs() >= 10_000 {
        return 100_000_000;
    }
    sum * sum
}

/// The demerits of a penalty that does not bar a break.
fn penalty_demerits(penalty: i32) -> i64
    requires { penalty <ℤ pos 10000 }
    ensures value { result ≡ penalty_demerits penalty }
    ensures low { neg_ℤ (pos 100000000) ≤ℤ result }
    ensures high { result ≤ℤ pos 100000000 }
{
    let penalty = i64::from(penalty);
    if penalty >= 0 {
        penalty * penalty
    } else if -10_000 < penalty {
        -(penalty * penalty)
    } else {
        0
    }
}

/// The demerits where breaks are discretionary.
fn hyphen_demerits(rules: &BreakRules, ends: Ends) -> i64
    ensures value { result ≡ hyphen_demerits rules.now ends.from_disc ends.to_disc ends.is_last }
    ensures low { neg_ℤ (pos 4294967296) ≤ℤ result }
    ensures high { result ≤ℤ pos 4294967296 }
{
    let double = both(ends.from_disc, ends.to_disc);
    let last = both(ends.from_disc, ends.is_last);
    demerits_where(double, rules.double_hyphen_demerits)
        + demerits_where(last, rules.final_hyphen_demerits)
}

fn both(a: bool, b: bool) -> bool
    ensures { result ≡ (a && b) }
{
    a && b
}

fn demerits_where(applies: bool, demerits: i32) -> i64
    ensures value { result ≡ (if applies then demerits else pos 0) }
    ensures low { neg_ℤ (pos 2147483648) ≤ℤ result }
    ensures high { result ≤ℤ pos 2147483648 }
{
    if applies { i64::from(demerits) } else { 0 }
}

/// All demerits of a line but those of its fitness.
#[tactic(auto, unfolding(lb_model_paper::specs::Breaks::line_demerits))]
fn line_demerits(rules: &BreakRules, badness: u32, penalty: i32, ends: Ends) -> i64
    requires badness { badness ≤ 10000 }
    requires penalty { penalty <ℤ pos 10000 }
    ensures value { result ≡ line_demerits rules.now badness penalty ends.from_disc ends.to_disc ends.is_last }
    ensures low { neg_ℤ (pos 1000000000000) ≤ℤ result }
    ensures high { result ≤ℤ pos 1000000000000 }
{
    let badness_demerits = badness_demerits(rules.line_penalty, badness);
    badness_demerits + penalty_demerits(penalty) + hyphen_demerits(rules, ends)
}

/// Whether a badness is within a tolerance, of which no more than 10000 counts.
fn is_within(badness: u32, tolerance: i32) -> bool
    ensures { result ≡ is_within badness tolerance }
{
    i64::from(badness) <= i64::from(tolerance.min(10_000))
}

/// Whether a line that no break within it bars is bad, or nothing where it may not be chosen.
fn verdict(
    tolerance: i32,
    keeps_bad: bool,
    is_overfull: bool,
    penalty: i32,
    badness: u32,
) -> Option<bool>
    ensures { result ≡ verdict_by (record { tolerance = tolerance; keeps_bad = keeps_bad }) is_overfull (int_le penalty (neg_ℤ (pos 10000))) badness }
{
    if is_within(badness, tolerance) && !is_overfull {
        return Some(false);
    }
    if keeps_bad && (is_overfull || penalty <= -10_000) {
        return Some(true);
    }
    None
}

/// A line as it is judged by its sums and its ends, or nothing where it may not be chosen.
pub fn judged_line(
    shape: &Shape,
    tolerance: i32,
    keeps_bad: bool,
    penalty: i32,
    ends: Ends,
    sums: &LineSums,
) -> Option<Judged>
    requires near { IsNear 1048576 sums.now.width }
    requires penalty { penalty <ℤ pos 10000 }
    ensures value { result ≡ judged_line shape.now (record { tolerance = tolerance; keeps_bad = keeps_bad }) penalty ends.from_disc ends.to_disc ends.is_last sums.now }
    ensures line { IfSome result IsLine }
{
    let excess = excess_in(shape, sums);
    let badness = badness_by(excess, sums);
    let is_overfull = is_overfull(excess, sums.shrink);
    match verdict(tolerance, keeps_bad, is_overfull, penalty, badness) {
        Some(is_bad) => Some(Judged {
            is_bad,
            demerits: line_demerits(&shape.rules, badness, penalty, ends),
            fitness: fitness_by(excess, badness),
        }),
        None => None,
    }
}
