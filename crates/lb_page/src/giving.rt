//! The page before a place, which its nodes are moved to.
ghost use Rattle.std.specs.Prelude.{◌≡◌, ◌≤◌, ◌<◌, ◌+◌, [], List, IfOk, OnOk, OnErr, false, length, take, drop, vec_len, vec_capacity};
ghost use Rattle.lb_base.specs.declared.node.Node.{Node as TheNode};
ghost use Rattle.lb_model_paper.specs.Pages.{page_of};
ghost use Rattle.lb_page.specs.Fillings.{IsFilling};
ghost use Rattle.lb_page.specs.Places.{IsPageOf};

use crate::best::Cut;
use crate::filling::{Filling, close};
use lb_base::Node;
use lb_model_paper::pages::{PagePart, PageRules};
use sqlite_items::Items;
use std::alloc::{AllocError, Global};
use std::collections::VecDeque;

/// Moves the nodes before a place from the front of a queue to their page.
pub fn fill(filling: &mut Filling, nodes: &mut VecDeque<Node>, rules: &PageRules, cut: &Cut)
    requires within { cut.now.at ≤ length nodes.old.items }
    requires page { IsPageOf rules.now (take cut.now.at nodes.old.items) cut.now }
    requires empty { IsFilling rules.now [] filling.old }
    requires items { vec_len filling.old.items ≡ 0 }
    requires feet { vec_len filling.old.feet ≡ 0 }
    requires topped { filling.old.topped ≡ false }
    requires item_room { cut.now.at + 2 ≤ vec_capacity filling.old.items }
    requires foot_room { cut.now.at ≤ vec_capacity filling.old.feet }
    ensures nodes { nodes.new.items ≡ drop cut.now.at nodes.old.items }
    ensures filling { IsFilling rules.now (take cut.now.at nodes.old.items) filling.new }
    ensures room { vec_len filling.new.items < vec_capacity filling.new.items }
{
    for at in 0..cut.at {
        let Some(node) = nodes.pop_front() else {
            return;
        };
        filling.put(rules, cut.top, node);
    }
}

/// The page with the kern that takes back what hangs below it.
pub fn part_of(filling: Filling, cut: &Cut) -> PagePart
    requires { vec_len filling.items < vec_capacity filling.items }
    ensures { (rules : PageRules) (front : List TheNode) → IsFilling rules front filling
        → IsPageOf rules front cut.now → result ≡ page_of rules front }
{
    let Filling {
        mut items,
        feet,
        ..
    } = filling;
    close(&mut items, cut.closing);
    PagePart {
        items: Items::from_vec(items),
        feet: Items::from_vec(feet),
        goal: cut.goal,
    }
}

/// Moves the nodes before a place to their page. For want of memory the queue is as it was.
pub fn give(
    alloc: Global,
    nodes: &mut VecDeque<Node>,
    rules: &PageRules,
    cut: &Cut,
) -> Result<PagePart, AllocError>
    requires within { cut.now.at < length nodes.old.items }
    requires page { IsPageOf rules.now (take cut.now.at nodes.old.items) cut.now }
    ensures part { IfOk result (λ part. part ≡ page_of rules.now (take cut.now.at nodes.old.items)) }
    ensures nodes { OnOk result (nodes.new.items ≡ drop cut.now.at nodes.old.items) }
    ensures err { OnErr result (nodes.new.items ≡ nodes.old.items) }
{
    let mut filling = Filling::with_room(alloc, cut.at)?;
    fill(&mut filling, nodes, rules, cut);
    Ok(part_of(filling, cut))
}
