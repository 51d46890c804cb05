//! Copies of nodes.
ghost use Rattle.std.specs.Prelude.{◌≡◌, IfOk};

use crate::node::{Boxed, Discretionary, HeadMark, Node};
use sqlite_items::{Boxed as Held, Items};
use std::alloc::{AllocError, Global};

impl Node {
    /// A node with the same value.
    #[cycle(copy)]
    pub fn copy(&self, alloc: Global) -> Result<Node, AllocError>
        ensures { IfOk result (λ copy. copy ≡ self.now) }
    {
        match self {
            Node::Char {
                font,
                code,
                metrics,
            } => Ok(Node::Char {
                font: font.clone()?,
                code: *code,
                metrics: *metrics,
            }),
            Node::Lig(ligature) => Ok(Node::Lig(Held::new(alloc, ligature.get().clone()?)?)),
            Node::Kern { width, origin } => Ok(Node::Kern {
                width: *width,
                origin: *origin,
            }),
            Node::Glue(glue) => Ok(Node::Glue(*glue)),
            Node::Penalty(penalty) => Ok(Node::Penalty(*penalty)),
            Node::Disc(parts) => Ok(Node::Disc(Held::new(alloc, parts.get().copy(alloc)?)?)),
            Node::Rule(size) => Ok(Node::Rule(*size)),
            Node::Boxed(boxed) => Ok(Node::Boxed(Held::new(alloc, boxed.get().copy(alloc)?)?)),
            Node::Note(note) => Ok(Node::Note(Held::new(alloc, note.get().clone()?)?)),
            Node::Mark(mark) => Ok(Node::Mark(Held::new(alloc, mark.get().copy(alloc)?)?)),
            Node::Ins(footnote) => Ok(Node::Ins(Held::new(alloc, footnote.get().copy(alloc)?)?)),
            Node::Adjust(material) => Ok(Node::Adjust(copy_nodes(alloc, material.as_slice())?)),
        }
    }
}

impl Discretionary {
    /// The same three parts.
    #[cycle(copy)]
    pub fn copy(&self, alloc: Global) -> Result<Discretionary, AllocError>
        ensures { IfOk result (λ copy. copy ≡ self.now) }
    {
        Ok(Discretionary {
            pre_break: copy_nodes(alloc, self.pre_break.as_slice())?,
            post_break: copy_nodes(alloc, self.post_break.as_slice())?,
            no_break: copy_nodes(alloc, self.no_break.as_slice())?,
        })
    }
}

impl HeadMark {
    /// The same boxes.
    #[cycle(copy)]
    pub fn copy(&self, alloc: Global) -> Result<HeadMark, AllocError>
        ensures { IfOk result (λ copy. copy ≡ self.now) }
    {
        match self {
            HeadMark::Both { left, right } => {
                let left = Held::new(alloc, left.get().copy(alloc)?)?;
                let right = Held::new(alloc, right.get().copy(alloc)?)?;
                Ok(HeadMark::Both { left, right })
            }
            HeadMark::Right(right) => {
                let right = Held::new(alloc, right.get().copy(alloc)?)?;
                Ok(HeadMark::Right(right))
            }
        }
    }
}

impl Boxed {
    /// A box with the same value.
    #[cycle(copy)]
    pub fn copy(&self, alloc: Global) -> Result<Boxed, AllocError>
        ensures { IfOk result (λ copy. copy ≡ self.now) }
    {
        Ok(Boxed {
            axis: self.axis,
            items: copy_nodes(alloc, self.items.as_slice())?,
            width: self.width,
            height: self.height,
            depth: self.depth,
            shift: self.shift,
            glue_set: self.glue_set,
        })
    }
}

/// Nodes with the same values.
#[cycle(copy)]
pub fn copy_nodes(alloc: Global, nodes: &[Node]) -> Result<Items<Node>, AllocError>
    ensures { IfOk result (λ copy. copy ≡ nodes.now) }
{
    let mut copy = Items::new(alloc);
    for node in nodes {
        copy.push(node.copy(alloc)?)?;
    }
    Ok(copy)
}
