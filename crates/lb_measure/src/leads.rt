//! The discardables in a row from each item on.
ghost use Rattle.std.specs.Prelude.{◌≡◌, ◌+◌, ◌<◌, length, if◌then◌else◌, IfOk};
ghost use Rattle.lb_model_paper.specs.Breaks.{is_discardable};
ghost use Rattle.lb_measure.specs.Measures.{AreLeads};

use crate::breaks::is_discardable;
use lb_base::Node;
use std::alloc::{AllocError, Global};

/// How many discardables stand in a row from each item on.
pub fn leads(alloc: Global, list: &[Node]) -> Result<Vec<usize>, AllocError>
    ensures long { IfOk result (λ leads. length leads.items ≡ length list.now + 1) }
    ensures leads { IfOk result (λ leads. AreLeads list.now leads.items 0) }
{
    let mut leads = vec![in alloc; 0; list.len() + 1]?;
    let mut row = 0;
    let mut next = list.len();
    while next > 0 {
        next -= 1;
        row = lead(&list[next], row);
        leads[next] = row;
    }
    Ok(leads)
}

/// How many discardables stand in a row from a node on, where so many stand behind it.
fn lead(node: &Node, behind: usize) -> usize
    requires { behind < 18446744073709551615 }
    ensures { result ≡ (if is_discardable node.now then behind + 1 else 0) }
{
    if is_discardable(node) { behind + 1 } else { 0 }
}
