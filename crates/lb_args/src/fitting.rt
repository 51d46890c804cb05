//! A delimiter, and the tokens that may begin it.
ghost use Rattle.std.specs.Prelude.{◌≤◌, length};
ghost use Rattle.lb_model_grammar.specs.Arguments.{begins};
ghost use Rattle.lb_args.specs.Fits.{Fits, Shorter, given_before};

use crate::turns::same_token;
use lb_base::Tok;

// Tokens are all of a delimiter, its beginning, or neither.
#[derive(Clone, Copy)]
pub(crate) enum Fit {
    Whole,
    Part,
    Not,
}

// How tokens, no more than those of a delimiter, stand to it. One that is not its first is found so at once.
pub(crate) fn fit_of(window: &[Tok], delimiter: &[Tok]) -> Fit
    requires { length window.now ≤ length delimiter.now }
    ensures fits { Fits result (λ given. begins delimiter.now (given_before window.now given)) }
    ensures shorter { Shorter result window.now delimiter.now }
{
    'tokens: for index in 0..window.len() {
        if !same_token(&delimiter[index], &window[index]) {
            return Fit::Not;
        }
    }
    if window.len() == delimiter.len() {
        return Fit::Whole;
    }
    Fit::Part
}
