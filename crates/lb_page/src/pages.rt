//! The next page of the list that is contributed to pages.
ghost use Rattle.std.specs.Prelude.{◌≡◌, ◌<◌, ◌↔◌, IsTrue, List, [], OnSome, IfOk, OnOk, OnErr, length};
ghost use Rattle.lb_base.specs.Answers.{Answers};
ghost use Rattle.lb_base.specs.declared.node.Node.{Node as TheNode};
ghost use Rattle.lb_model_paper.specs.Pages.{all_parts, next_part, nodes_left};
ghost use Rattle.lb_page.specs.Searches.{IsKept, IsReady, IsRight};

use crate::end::{advance, end_by};
use crate::giving::give;
use crate::page_list::PageList;
use crate::plan::{give_all, make_plan};
use crate::search::Search;
use lb_base::{Glue, Listed, Node, Order, Stop, equal_glue};
use lb_model_paper::pages::{PagePart, PageRules, PartList};

/// The page that the list ends, if it ends one, which the list then loses; the rest begins with the
/// node at which the page ends. Other rules than those of the last call judge the whole list anew.
///
/// `DimenTooLarge` comes exactly where a sum of the items through the place that ends the search, or
/// of all where none does, is 2^30 scaled points or more in size. After an error the list is as it
/// was.
pub fn next_page(page: &mut PageList, rules: &PageRules) -> Result<Option<PagePart>, Stop>
    ensures part { Answers (next_part rules.now page.old) result }
    ensures left { OnOk result (page.new ≡ nodes_left rules.now page.old) }
    ensures shorter { IfOk result (λ part. OnSome part (length page.new < length page.old)) }
    ensures err { OnErr result (page.new ≡ page.old) }
{
    let mut search = resumed(page.search, rules);
    advance(&mut search, &page.nodes, 0);
    page.search = Some(search);
    let cut = match end_by(&search, &page.nodes, 0) {
        Ok(Some(cut)) => cut,
        Ok(None) => return Ok(None),
        Err(stop) => return Err(stop),
    };
    let part = give(page.alloc, &mut page.nodes, rules, &cut)?;
    page.search = None;
    Ok(Some(part))
}

/// All pages that are left, which end at the latest at `\vfil` and a forced place behind the list.
/// The list is then empty.
///
/// `DimenTooLarge` comes exactly where it does for one of these pages. After an error the list is as
/// it was.
pub fn flush(page: &mut PageList, rules: &PageRules) -> Result<PartList, Stop>
    ensures parts { Answers (all_parts rules.now page.old) result }
    ensures emptied { OnOk result (page.new ≡ []) }
    ensures err { OnErr result (page.new ≡ page.old) }
{
    let count = page.nodes.len();
    page.nodes.reserve(2)?;
    page.nodes.push_back_reserved(Node::Glue(FILL));
    page.nodes.push_back_reserved(Node::Penalty(-10_000));
    match make_plan(page.alloc, &page.nodes, rules) {
        Ok((plan, parts)) => {
            let parts = give_all(&mut page.nodes, rules, plan, parts);
            page.nodes.clear();
            page.search = None;
            Ok(Listed::from_vec(parts))
        }
        Err(stop) => {
            page.nodes.truncate(count);
            Err(stop)
        }
    }
}

/// `\vfil`: glue that stretches without end.
const FILL: Glue = Glue {
    width: 0,
    stretch: 65_536,
    stretch_order: Order::Fil,
    shrink: 0,
    shrink_order: Order::Finite,
};

/// The search as far as it has come, or a new one where the rules are other ones.
fn resumed(search: Option<Search>, rules: &PageRules) -> Search
    ensures kept { (nodes : List TheNode) → IsKept nodes search → IsReady result × IsRight nodes result }
    ensures rules { result.rules ≡ rules.now }
{
    if let Some(search) = search {
        if same_rules(&search.rules, rules) {
            return search;
        }
    }
    Search::by(*rules)
}

fn same_rules(rules: &PageRules, other: &PageRules) -> bool
    ensures { IsTrue result ↔ (rules.now ≡ other.now) }
{
    rules.textheight == other.textheight
        && rules.maxdepth == other.maxdepth
        && equal_glue(rules.topskip, other.topskip)
}
