//! Environments that end.
ghost use Rattle.std.specs.Prelude.{◌≡◌};
ghost use Rattle.lb_counters.specs.Does.{Answers};
ghost use Rattle.lb_model_sections.specs.Lists.{environment_ended};

use crate::lists::Lists;
use lb_base::{Kind, Name, Stop, TokList};
use std::alloc::Global;

/// Ends an environment, as `\end` does behind the environment's own macro (source2e, file ltmiscen): nothing is put back. `EnvironmentMismatch`
/// exactly where its name is not that of the present environment. The lists stay.
pub fn end(alloc: Global, lists: &mut Lists, name: &Name, current: &Name) -> Result<TokList, Stop>
    ensures answer { Answers result (environment_ended name.now current.now) }
    ensures lists { lists.new ≡ lists.old }
{
    let _ = lists;
    if name == current {
        return Ok(TokList::new(alloc));
    }
    Err(Stop::Fault(Kind::EnvironmentMismatch))
}
