//! Sums over lists as they are shown: where no line breaks, a discretionary shows its third part.
ghost use Rattle.std.specs.Prelude.{◌≡◌, ◌∷◌, [], ◌+◌, ◌<◌, ◌≤◌};
ghost use Rattle.lb_base.specs.declared.node.Discretionary.{out-Discretionary};
ghost use Rattle.lb_model_paper.specs.Breaks.{count_of, items_in, sums_of};
ghost use Rattle.lb_model_paper.specs.Nodes.{shown};
ghost use Rattle.lb_measure.specs.Amounts.{added, AreNear, nothing};

use crate::amounts::{added, node_sums, nothing};
use lb_base::Node;
use lb_model_paper::paragraph::LineSums;

/// The sums over so many nodes.
#[derive(Clone, Copy)]
pub struct Summing {
    pub sums: LineSums,
    pub count: usize,
}

impl Summing {
    pub fn of_nothing() -> Summing
        ensures sums { result.sums ≡ nothing }
        ensures count { result.count ≡ 0 }
        ensures near { AreNear result.count result.sums }
    {
        Summing {
            sums: nothing(),
            count: 0,
        }
    }

    /// Adds all nodes of a list.
    #[cycle(summing)]
    pub fn add_all(&mut self, nodes: &[Node])
        requires near { AreNear self.old.count self.old.sums }
        requires few { self.old.count + items_in nodes.now ≤ 65536 }
        ensures sums { self.new.sums ≡ added self.old.sums (sums_of (shown nodes.now)) }
        ensures count { self.new.count ≤ self.old.count + items_in nodes.now }
        ensures near { AreNear self.new.count self.new.sums }
    {
        for node in nodes {
            self.add(node);
        }
    }

    /// Adds a node, or in place of a discretionary its third part.
    #[cycle(summing)]
    pub fn add(&mut self, node: &Node)
        requires near { AreNear self.old.count self.old.sums }
        requires few { self.old.count + count_of node.now ≤ 65536 }
        ensures sums { self.new.sums ≡ added self.old.sums (sums_of (shown (node.now ∷ []))) }
        ensures count { self.new.count ≤ self.old.count + count_of node.now }
        ensures near { AreNear self.new.count self.new.sums }
    {
        match node {
            Node::Disc(parts) => self.add_all(parts.get().no_break.as_slice()),
            _ => self.add_one(node),
        }
    }

    /// Adds a node that is no discretionary.
    fn add_one(&mut self, node: &Node)
        requires near { AreNear self.old.count self.old.sums }
        requires few { self.old.count < 65536 }
        ensures sums { self.new.sums ≡ added self.old.sums (sums_of (node.now ∷ [])) }
        ensures count { self.new.count ≡ self.old.count + 1 }
        ensures near { AreNear self.new.count self.new.sums }
    {
        self.sums = added(&self.sums, &node_sums(node));
        self.count += 1;
    }
}

/// The sums of a list as it is shown.
pub fn shown_sums(nodes: &[Node]) -> LineSums
    requires { items_in nodes.now ≤ 65536 }
    ensures value { result ≡ sums_of (shown nodes.now) }
    ensures near { AreNear 65536 result }
{
    let mut summing = Summing::of_nothing();
    summing.add_all(nodes);
    summing.sums
}
