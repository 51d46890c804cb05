//! What a token does to an argument.
ghost use Rattle.std.specs.Prelude.{◌≡◌, ◌<◌, ◌≤◌, ◌+◌, ◌^◌, ℕ, List, Bool, IfSome, length};
ghost use Rattle.lb_base.specs.declared.token.Tok.{Tok as AToken};
ghost use Rattle.lb_model_grammar.specs.Arguments.{brace_of, delimited_as, group_as, is_par, level_then, longer, undelimited, undelimited_as};
ghost use Rattle.lb_model_grammar.specs.Same.{tok_eq};
ghost use Rattle.lb_model_grammar.specs.Scans.{Meant, is_other, is_space};
ghost use Rattle.lb_model_grammar.specs.declared.given.Given.{Given as AGiven};
ghost use Rattle.lb_args.specs.Turns.{begun, level_of, stepped, turned};

use lb_base::{Category, Kind, Tok};
use lb_model_grammar::Brace;

/// The most tokens that an argument may have.
const MOST_TOKENS: usize = 1_000_000;

// What a token does to an argument that it does not end: it is one more of it, behind which so many braces are open, or is at fault.
#[derive(Clone, Copy)]
pub(crate) enum Step {
    Goes(u64),
    Fails(Kind),
}

// What the first token does to an undelimited argument: it is skipped, opens a group, is all of it, or is at fault.
#[derive(Clone, Copy)]
pub(crate) enum First {
    Space,
    Group,
    One,
    Fails(Kind),
}

fn is_par(tok: &Tok) -> bool
    ensures { result ≡ is_par tok.now }
{
    match tok {
        Tok::Word(name) => name.as_slice() == b"par".as_slice(),
        _ => false,
    }
}

pub(crate) fn is_space(tok: &Tok) -> bool
    ensures { result ≡ is_space tok.now }
{
    matches!(tok, Tok::Char(Category::Space, _))
}

// An opening bracket of category 12.
pub(crate) fn is_bracket(tok: &Tok) -> bool
    ensures { result ≡ is_other 91 tok.now }
{
    match tok {
        Tok::Char(Category::Other, code) => *code == b'[',
        _ => false,
    }
}

#[tactic(auto, unfolding(lb_model_grammar::specs::Same::tok_eq))]
pub(crate) fn same_token(tok: &Tok, other: &Tok) -> bool
    ensures { result ≡ tok_eq tok.now other.now }
{
    tok == other
}

// What a token is in an argument, which may have paragraphs or not.
pub(crate) fn brace_of(long: bool, tok: &Tok) -> Brace
    ensures { result ≡ brace_of long tok.now }
{
    match tok {
        Tok::Char(Category::BeginGroup, _) => Brace::Opening,
        Tok::Char(Category::EndGroup, _) => Brace::Closing,
        Tok::Word(_) => {
            if is_par(tok) && !long {
                return Brace::Paragraph;
            }
            Brace::Plain
        }
        _ => Brace::Plain,
    }
}

// How many braces are open behind a token; none behind the one that closes the first.
pub(crate) fn level_then(tok: &Tok, level: u64) -> Option<u64>
    requires { level + 1 < 2 ^ 64 }
    ensures { result ≡ level_then tok.now level }
{
    match tok {
        Tok::Char(Category::BeginGroup, _) => Some(level + 1),
        Tok::Char(Category::EndGroup, _) => level.checked_sub(1),
        _ => Some(level),
    }
}

// One token more than these.
fn longer(count: usize, level: u64) -> Step
    ensures step { (body : List AToken) (t : AToken) (more : ℕ → List AToken → Meant (List AToken)) → length body ≡ count
        → longer body t (more level) ≡ stepped result body t more }
    ensures small { level_of result ≤ level }
{
    if count < MOST_TOKENS {
        return Step::Goes(level);
    }
    Step::Fails(Kind::DepthLimit)
}

// What a token does to a group that has so many tokens, of which so many braces are open; none where it ends it.
pub(crate) fn group_turn(brace: Brace, level: u64, count: usize) -> Option<Step>
    requires { level + 1 < 2 ^ 64 }
    ensures turn { (body : List AToken) (t : AToken) (more : ℕ → List AToken → Meant (List AToken)) (given : List AGiven) → length body ≡ count
        → group_as brace level body t more given ≡ turned result body t more given }
    ensures small { IfSome result (λ step. level_of step ≤ level + 1) }
{
    match brace {
        Brace::Opening => Some(longer(count, level + 1)),
        Brace::Closing => match level.checked_sub(1) {
            None => None,
            Some(less) => Some(longer(count, less)),
        },
        Brace::Paragraph => Some(Step::Fails(Kind::Runaway)),
        Brace::Plain => Some(longer(count, level)),
    }
}

// What a token that does not begin the delimiter does to a delimited argument.
pub(crate) fn delimited_step(brace: Brace, level: u64, count: usize) -> Step
    requires { level + 1 < 2 ^ 64 }
    ensures step { (body : List AToken) (t : AToken) (more : ℕ → List AToken → Meant (List AToken)) → length body ≡ count
        → delimited_as brace level body t more ≡ stepped result body t more }
    ensures small { level_of result ≤ level + 1 }
{
    match brace {
        Brace::Opening => longer(count, level + 1),
        Brace::Closing => match level.checked_sub(1) {
            None => Step::Fails(Kind::UseMismatch),
            Some(less) => longer(count, less),
        },
        Brace::Paragraph => Step::Fails(Kind::Runaway),
        Brace::Plain => longer(count, level),
    }
}

// What the first token does to an undelimited argument.
pub(crate) fn first_of(brace: Brace, tok: &Tok) -> First
    ensures { (long : Bool) (given : List AGiven) → undelimited_as brace long tok.now (undelimited long given) given ≡ begun result long tok.now given }
{
    match brace {
        Brace::Opening => First::Group,
        Brace::Closing => First::Fails(Kind::UseMismatch),
        Brace::Paragraph => First::Fails(Kind::Runaway),
        Brace::Plain => {
            if is_space(tok) {
                return First::Space;
            }
            First::One
        }
    }
}
