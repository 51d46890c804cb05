//! What the tokens of a delimited argument come to.
ghost use Rattle.std.specs.Prelude.{◌≡◌, ◌≤◌, ◌<◌, ◌+◌, List, length};
ghost use Rattle.lb_model_grammar.specs.Arguments.{at_base, begins};
ghost use Rattle.lb_model_grammar.specs.declared.given.Given.{Given as AGiven};
ghost use Rattle.lb_args.specs.Fits.{Fits, Goes, Shorter, decided, given_before, settles};

use crate::fitting::{Fit, fit_of};
use crate::turns::{Step, brace_of, delimited_step};
use lb_base::{Kind, Tok};

// What tokens come to that were taken for a delimited argument: the argument is so many of them, and the others are the delimiter; or it is
// decided of so many, behind which so many braces are open, and the others may begin the delimiter; or one is at fault.
#[derive(Clone, Copy)]
pub(crate) enum Settled {
    Whole(usize),
    Open(usize, u64),
    Fails(Kind),
}

// How the undecided tokens stand to the delimiter, which ends no argument where a brace is open.
fn fit_at(level: u64, window: &[Tok], delimiter: &[Tok]) -> Fit
    requires { length window.now ≤ length delimiter.now }
    ensures fits { Fits result (λ given. at_base level (begins delimiter.now (given_before window.now given))) }
    ensures shorter { Shorter result window.now delimiter.now }
{
    if level > 0 {
        return Fit::Not;
    }
    fit_of(window, delimiter)
}

// Decides one token after another, as long as the undecided ones do not begin the delimiter.
pub(crate) fn settle(
    long: bool,
    delimiter: &[Tok],
    toks: &[Tok],
    from: usize,
    depth: u64,
) -> Settled
    requires window { length toks.now ≤ from + length delimiter.now }
    requires within { from ≤ length toks.now }
    requires some { 0 < length delimiter.now }
    requires small { depth ≤ from }
    ensures settles { (given : List AGiven) → decided long delimiter.now toks.now depth from given ≡ settles result long delimiter.now toks.now given }
    ensures goes { Goes result long delimiter.now toks.now }
{
    let mut level = depth;
    'tokens: for count in from..toks.len() {
        match fit_at(level, &toks[count..], delimiter) {
            Fit::Whole => return Settled::Whole(count),
            Fit::Part => return Settled::Open(count, level),
            Fit::Not => {
                let brace = brace_of(long, &toks[count]);
                match delimited_step(brace, level, count) {
                    Step::Goes(next) => level = next,
                    Step::Fails(kind) => return Settled::Fails(kind),
                }
            }
        }
    }
    Settled::Open(toks.len(), level)
}
