//! Copies of lists of tokens.
ghost use Rattle.std.specs.Prelude.{◌≡◌, IfOk};

use lb_base::{NoMemory, TokList};

// The same list.
pub(crate) fn copy_tokens(toks: &TokList) -> Result<TokList, NoMemory>
    ensures { IfOk result (λ copy. copy ≡ toks.now) }
{
    toks.clone()
}
