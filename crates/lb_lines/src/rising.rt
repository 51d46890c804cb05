//! Whether breaks belong to a list.
ghost use Rattle.std.specs.Prelude.{◌≡◌, true};
ghost use Rattle.lb_model_paper.specs.Lines.{AreEnds};

use lb_base::NodeList;
use lb_model_paper::paragraph::BreakList;

/// Whether the breaks are items of the list and rise, as those that were chosen for it do.
pub fn are_ends(list: &NodeList, breaks: &BreakList) -> bool
    ensures { result ≡ true → AreEnds list.now 0 breaks.now.ends }
{
    let ends = breaks.ends.as_slice();
    let mut next = 0;
    for k in 0..ends.len() {
        let item = ends[k].item;
        if item < next || list.len() <= item {
            return false;
        }
        next = item + 1;
    }
    true
}
