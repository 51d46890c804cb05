//! Tests of numbers (TeXbook, chapter 20).
ghost use Rattle.std.specs.Prelude.{◌≡◌};
ghost use Rattle.lb_model.specs.Conditionals.{comparison};
ghost use Rattle.lb_model_grammar.specs.Conditionals.{chosen, if_true, is_related};

use lb_model::Compared;
use lb_model_grammar::{Branch, CondKind, Rel};

/// The test of a relation between two numbers or two dimensions.
pub fn comparison(compared: Compared, rel: Rel) -> CondKind
    ensures { result ≡ comparison compared rel }
{
    match compared {
        Compared::Numbers => CondKind::IfNum(rel),
        Compared::Dimensions => CondKind::IfDim(rel),
    }
}

/// The part that a test of these numbers chooses. `\ifodd` and `\ifcase` take the left one alone. Takes no memory.
pub fn test(kind: CondKind, left: i64, right: i64) -> Branch
    ensures { result ≡ chosen kind left right }
{
    match kind {
        CondKind::If => if_true(left == right),
        CondKind::IfCat => if_true(left == right),
        CondKind::IfNum(rel) => if_true(is_related(rel, left, right)),
        CondKind::IfDim(rel) => if_true(is_related(rel, left, right)),
        CondKind::IfOdd => if_true(left.unsigned_abs() % 2 == 1),
        CondKind::IfCase => Branch::Part(left),
    }
}

fn if_true(holds: bool) -> Branch
    ensures { result ≡ if_true holds }
{
    if holds {
        Branch::Then
    } else {
        Branch::Otherwise
    }
}

fn is_related(rel: Rel, left: i64, right: i64) -> bool
    ensures { result ≡ is_related rel left right }
{
    match rel {
        Rel::Less => left < right,
        Rel::Equal => !(left < right) && !(right < left),
        Rel::Greater => right < left,
    }
}
