//! A line set as a box.
ghost use Rattle.std.specs.Prelude.{◌≡◌, ◌∷◌, ◌⊎◌, List, Result, Err, IfOk, IfErr};
ghost use Rattle.lb_base.specs.declared.fault.Kind.TheVariants.{DepthLimit, DimenTooLarge};
ghost use Rattle.lb_base.specs.declared.fault.Kind.{Kind};
ghost use Rattle.lb_base.specs.declared.node.Node as made;
ghost use Rattle.lb_base.specs.declared.node.Node.{Node};
ghost use Rattle.lb_model_paper.specs.Lines.{set_items};
ghost use Rattle.lb_model_paper.specs.Nodes.{shown};
ghost use Rattle.lb_lines.specs.Sets.{IsMemory, IsRefusal, IsRefused, IsSet};

use crate::parting::{Parted, part};
use lb_base::{Boxed, Kind, Node, NodeList, Stop, Target};
use lb_nodes::hpack;
use sqlite_items::{Boxed as Held, Items};
use std::alloc::{AllocError, Global};

/// A line's box and what moves out behind it, or why there is no box.
#[derive(Drop)]
pub enum Set {
    Line(NodeList),
    TooLarge,
    TooDeep,
}

/// Sets the items of a line to a width. Stops only for want of memory.
pub fn set_items(alloc: Global, width: i32, line: NodeList) -> Result<Set, Stop>
    ensures set { IfOk result (IsSet (set_items width (shown line))) }
    ensures err { IfErr result IsMemory }
{
    let Parted { stay, moved } = part(alloc, line)?;
    match hpack(alloc, stay, Target::To(width)) {
        Ok(boxed) => Ok(Set::Line(with_box(alloc, boxed, moved)?)),
        Err(stop) => refused(stop),
    }
}

/// What it means that a line is not packed.
fn refused(stop: Stop) -> Result<Set, Stop>
    requires { IsRefusal stop }
    ensures set { (meant : Result (List Node) Kind) → IsRefused meant stop → IfOk result (IsSet meant) }
    ensures err { IfErr result IsMemory }
{
    match stop {
        Stop::Memory => Err(Stop::Memory),
        Stop::Fault(kind) => Ok(set_fault(kind)),
        Stop::At(fault) => Err(Stop::At(fault)),
    }
}

/// A box, and other nodes behind it.
fn with_box(alloc: Global, boxed: Boxed, behind: NodeList) -> Result<NodeList, AllocError>
    ensures { IfOk result (λ list. list ≡ made.Boxed boxed ∷ behind) }
{
    let mut list = Items::new(alloc);
    list.push(Node::Boxed(Held::new(alloc, boxed)?))?;
    list.append(behind)?;
    Ok(list)
}

/// The fault of a line.
fn set_fault(kind: Kind) -> Set
    requires { (kind ≡ DimenTooLarge) ⊎ (kind ≡ DepthLimit) }
    ensures { IsSet (Err kind) result }
{
    match kind {
        Kind::DimenTooLarge => Set::TooLarge,
        _ => Set::TooDeep,
    }
}
