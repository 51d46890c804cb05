//! The vertical list that is contributed to pages.
ghost use Rattle.std.specs.Prelude.{◌≡◌, ◌∷◌, ◌++◌, [], List, OnOk, OnErr, if◌then◌else◌};
ghost use Rattle.lb_base.specs.declared.node.Node.{Node};
ghost use Rattle.lb_model_paper.specs.Breaks.{is_glue};

use crate::search::Search;
use lb_base::{NoMemory, Node};
use std::alloc::Global;
use std::collections::VecDeque;
use std::marker::Model;

/// The nodes that were contributed and are not on a page yet, which contracts see as their list.
#[derive(Drop)]
pub struct PageList {
    pub(crate) alloc: Global,
    pub(crate) nodes: VecDeque<Node>,
    /// The search for the end of the page, as far as it has come.
    pub(crate) search: Option<Search>,
}

impl Model for PageList {
    ghost use Rattle.std.specs.Prelude.{List};
    ghost use Rattle.lb_base.specs.declared.node.Node.{Node};
    ghost use Rattle.lb_base.specs.contracts.node.Node as node;
    ghost use Rattle.std.specs.Coded.{codes};
    ghost use Rattle.lb_page.specs.Searches.{IsKept};

    ghost Value = { List Node };

    ghost coded = { Prim.hlevel (codes, node.the_row.coded) };

    ghost view = { λ page. page.nodes.items };

    ghost invariant = { λ page. IsKept page.nodes.items page.search };
}

impl PageList {
    /// A list without nodes. Takes no memory.
    pub fn new(alloc: Global) -> PageList
        ensures { result ≡ [] }
    {
        PageList {
            alloc,
            nodes: VecDeque::new(alloc),
            search: None,
        }
    }
}

/// Puts a node behind the list. For want of memory the list is as it was, and the node is gone.
pub fn contribute(page: &mut PageList, node: Node) -> Result<(), NoMemory>
    ensures ok { OnOk result (page.new ≡ page.old ++ node ∷ []) }
    ensures err { OnErr result (page.new ≡ page.old) }
{
    page.nodes.push_back(node)?;
    Ok(())
}

/// Whether a node is glue.
#[tactic(auto, unfolding(lb_model_paper::specs::Breaks::is_glue))]
fn is_glue(node: &Node) -> bool
    ensures { result ≡ is_glue node.now }
{
    matches!(node, Node::Glue(_))
}

/// Takes a glue away that stands last. Where none does, the list is as it was.
pub fn drop_last_glue(page: &mut PageList)
    ensures last { (before : List Node) (node : Node) → page.old ≡ before ++ node ∷ []
        → page.new ≡ (if is_glue node then before else page.old) }
    ensures empty { page.old ≡ [] → page.new ≡ [] }
{
    let Some(last) = page.nodes.back() else {
        return;
    };
    if is_glue(last) {
        page.search = None;
        page.nodes.pop_back();
    }
}
