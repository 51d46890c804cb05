//! All pages of a queue: where they end is found first, and then their nodes are moved.
ghost use Rattle.std.specs.Prelude.{◌≡◌, ◌≤◌, ◌∷◌, ◌++◌, [], Ok, Err, IfOk, IfErr, OnOk, map, drop, length, vec_capacity};
ghost use Rattle.lb_base.specs.Answers.{Answers};
ghost use Rattle.lb_model_paper.specs.Pages.{ends_from, page_end, parts_by};
ghost use Rattle.lb_page.specs.Ends.{IsEnd};
ghost use Rattle.lb_page.specs.Plans.{ArePlanned, place_of};

use crate::best::Cut;
use crate::end::{advance, end_by};
use crate::filling::Filling;
use crate::giving::{fill, part_of};
use crate::search::Search;
use lb_base::{Node, Stop};
use lb_model_paper::pages::{PagePart, PageRules};
use std::alloc::{AllocError, Global};
use std::collections::VecDeque;

/// A page that is to be given, and the room for it.
#[derive(Drop)]
pub struct Planned {
    pub cut: Cut,
    pub filling: Filling,
}

/// Where the page ends that begins at a node of a queue.
fn end_from(nodes: &VecDeque<Node>, start: usize, rules: &PageRules) -> Result<Option<Cut>, Stop>
    requires { start ≤ length nodes.now.items }
    ensures { IsEnd rules.now (drop start nodes.now.items) result }
{
    let mut search = Search::by(*rules);
    advance(&mut search, nodes, start);
    end_by(&search, nodes, start)
}

/// The pages of a queue, with room for each.
fn pages_of(
    alloc: Global,
    nodes: &VecDeque<Node>,
    rules: &PageRules,
) -> Result<VecDeque<Planned>, Stop>
    ensures planned { IfOk result (λ plan. ArePlanned rules.now nodes.now.items plan.items) }
    ensures ends { IfOk result (λ plan. ends_from (page_end rules.now) (length nodes.now.items) nodes.now.items
        ≡ Ok (map place_of plan.items)) }
    ensures err { IfErr result (λ stop. Answers (ends_from (page_end rules.now) (length nodes.now.items) nodes.now.items) (Err stop)) }
{
    let mut plan = VecDeque::new(alloc);
    let mut start = 0;
    'pages: loop {
        let cut = match end_from(nodes, start, rules) {
            Ok(Some(cut)) => cut,
            Ok(None) => return Ok(plan),
            Err(stop) => return Err(stop),
        };
        let filling = Filling::with_room(alloc, cut.at)?;
        add(&mut plan, Planned { cut, filling })?;
        start += cut.at;
    }
}

fn add(plan: &mut VecDeque<Planned>, planned: Planned) -> Result<(), AllocError>
    ensures { OnOk result (plan.new.items ≡ plan.old.items ++ planned ∷ []) }
{
    plan.push_back(planned)?;
    Ok(())
}

/// The pages of a queue, with room for each and for their list.
pub fn make_plan(
    alloc: Global,
    nodes: &VecDeque<Node>,
    rules: &PageRules,
) -> Result<(VecDeque<Planned>, Vec<PagePart>), Stop>
    ensures planned { IfOk result (λ both. ArePlanned rules.now nodes.now.items both.0.items) }
    ensures ends { IfOk result (λ both. ends_from (page_end rules.now) (length nodes.now.items) nodes.now.items
        ≡ Ok (map place_of both.0.items)) }
    ensures err { IfErr result (λ stop. Answers (ends_from (page_end rules.now) (length nodes.now.items) nodes.now.items) (Err stop)) }
    ensures empty { IfOk result (λ both. both.1.items ≡ []) }
    ensures room { IfOk result (λ both. length both.0.items ≤ vec_capacity both.1) }
{
    let plan = pages_of(alloc, nodes, rules)?;
    let parts = Vec::with_capacity(alloc, plan.len())?;
    Ok((plan, parts))
}

/// Moves the nodes of a queue to the pages that were planned.
pub fn give_all(
    nodes: &mut VecDeque<Node>,
    rules: &PageRules,
    plan: VecDeque<Planned>,
    parts: Vec<PagePart>,
) -> Vec<PagePart>
    requires planned { ArePlanned rules.now nodes.old.items plan.items }
    requires empty { parts.items ≡ [] }
    requires room { length plan.items ≤ vec_capacity parts }
    ensures { result.items ≡ parts_by rules.now nodes.old.items (map place_of plan.items) }
{
    let (mut plan, mut parts) = (plan, parts);
    'pages: while let Some(planned) = plan.pop_front() {
        let Planned { cut, mut filling } = planned;
        fill(&mut filling, nodes, rules, &cut);
        parts.push_reserved(part_of(filling, &cut));
    }
    parts
}
