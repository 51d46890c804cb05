//! An argument that is wholly one group.
ghost use Rattle.std.specs.Prelude.{◌≡◌, ◌≤◌, ◌<◌, Some, length, take, drop};
ghost use Rattle.lb_model_grammar.specs.Arguments.{closes_at_end, opens, without_braces};
ghost use Rattle.lb_args.specs.Fits.{is_group};

use crate::turns::level_then;
use lb_base::{Category, Tok, TokList};

fn opens(tok: &Tok) -> bool
    ensures { result ≡ opens tok.now }
{
    matches!(tok, Tok::Char(Category::BeginGroup, _))
}

// Whether the brace that stands before these tokens is closed by the last one.
fn closes_at_end(toks: &[Tok]) -> bool
    ensures { result ≡ closes_at_end (Some 0) toks.now }
{
    let mut level = 0u64;
    'tokens: for index in 0..toks.len() {
        match level_then(&toks[index], level) {
            None => return index + 1 == toks.len(),
            Some(next) => level = next,
        }
    }
    false
}

fn is_group(toks: &[Tok]) -> bool
    ensures { result ≡ is_group toks.now }
{
    match toks.split_first() {
        None => false,
        Some((first, rest)) => opens(first) && closes_at_end(rest),
    }
}

fn remove_first(toks: &mut Vec<Tok>)
    requires { 0 < length toks.now.items }
    ensures { toks.new.items ≡ drop 1 toks.old.items }
{
    toks.remove(0);
}

// The first so many tokens; without its braces where they are one group. The list is kept.
pub(crate) fn without_braces(toks: TokList, count: usize) -> TokList
    requires { count ≤ length toks }
    ensures { result ≡ without_braces (take count toks) }
{
    let mut bare = toks.into_vec();
    bare.truncate(count);
    if is_group(bare.as_slice()) {
        bare.truncate(count - 1);
        remove_first(&mut bare);
        return TokList::from_vec(bare);
    }
    TokList::from_vec(bare)
}
