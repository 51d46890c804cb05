//! Commands that put a node behind the current list: `char CODE W H D`, `kern W`, `fontkern W`,
//! `glue W STRETCH ORDER SHRINK ORDER`, `rule W H D`, where `x` is a size that runs to the box,
//! `penalty N` and `note`; and those that make one of the nodes behind it: `disc P Q R` of its last P,
//! Q and R nodes, `adjust N` of the last N, `lower D`, `ins`, `left` and `right` of a box, `many N`
//! for N more of the last node, and `clear` for none.
use crate::number::{byte, count, length};
use crate::stop::Stop;
use lb_base::{
    Bytes, Discretionary, FontId, Glue, HeadMark, KernOrigin, Metrics, Name, Node, NodeList, Note,
    Order, RuleSize,
};
use sqlite_items::{Boxed as Held, Items};
use std::alloc::Global;

/// Changes the list by a command, or answers false if it is none of these.
pub fn change(alloc: Global, words: &[&str], list: &mut NodeList) -> Result<bool, Stop> {
    if let Some(node) = single(alloc, words)? {
        list.push(node)?;
        return Ok(true);
    }
    if let Some(node) = gathered(alloc, words, list)? {
        list.push(node)?;
        return Ok(true);
    }
    match *words {
        ["many", copies] => add_copies(alloc, list, count(copies)?)?,
        ["clear"] => *list = Items::new(alloc),
        _ => return Ok(false),
    }
    Ok(true)
}

/// A node that stands for itself.
fn single(alloc: Global, words: &[&str]) -> Result<Option<Node>, Stop> {
    let node = match *words {
        ["char", code, width, height, depth] => Node::Char {
            code: byte(code)?,
            metrics: Metrics {
                width: length(width)?,
                height: length(height)?,
                depth: length(depth)?,
                italic: 0,
            },
            font: font(alloc)?,
        },
        ["kern", width] => kern(width, KernOrigin::Explicit)?,
        ["fontkern", width] => kern(width, KernOrigin::Font)?,
        ["glue", width, stretch, stretch_order, shrink, shrink_order] => Node::Glue(Glue {
            width: length(width)?,
            stretch: length(stretch)?,
            stretch_order: order(stretch_order)?,
            shrink: length(shrink)?,
            shrink_order: order(shrink_order)?,
        }),
        ["rule", width, height, depth] => Node::Rule(RuleSize {
            width: given(width)?,
            height: given(height)?,
            depth: given(depth)?,
        }),
        ["penalty", penalty] => Node::Penalty(length(penalty)?),
        ["note"] => Node::Note(Held::new(
            alloc,
            Note::Label {
                key: Name::from_slice(alloc, b"key")?,
                text: Bytes::from_slice(alloc, b"text")?,
            },
        )?),
        _ => return Ok(None),
    };
    Ok(Some(node))
}

fn kern(width: &str, origin: KernOrigin) -> Result<Node, Stop> {
    Ok(Node::Kern {
        width: length(width)?,
        origin,
    })
}

fn font(alloc: Global) -> Result<FontId, Stop> {
    Ok(FontId {
        name: Name::from_slice(alloc, b"cmr10")?,
        size: 655_360,
        check: 0,
        design: 655_360,
    })
}

pub fn order(word: &str) -> Result<Order, Stop> {
    match word {
        "0" => Ok(Order::Finite),
        "1" => Ok(Order::Fil),
        "2" => Ok(Order::Fill),
        "3" => Ok(Order::Filll),
        _ => Err(Stop::Command),
    }
}

fn given(word: &str) -> Result<Option<i32>, Stop> {
    if word == "x" {
        return Ok(None);
    }
    Ok(Some(length(word)?))
}

/// A node that takes nodes from the end of the list.
fn gathered(alloc: Global, words: &[&str], list: &mut NodeList) -> Result<Option<Node>, Stop> {
    let node = match *words {
        ["disc", pre_break, post_break, no_break] => {
            let no_break = taken(alloc, list, count(no_break)?)?;
            let post_break = taken(alloc, list, count(post_break)?)?;
            let pre_break = taken(alloc, list, count(pre_break)?)?;
            let parts = Discretionary {
                pre_break,
                post_break,
                no_break,
            };
            Node::Disc(Held::new(alloc, parts)?)
        }
        ["adjust", nodes] => Node::Adjust(taken(alloc, list, count(nodes)?)?),
        ["lower", shift] => {
            let mut boxed = last_box(list)?.into_inner();
            boxed.shift = length(shift)?;
            Node::Boxed(Held::new(alloc, boxed)?)
        }
        ["ins"] => Node::Ins(last_box(list)?),
        ["right"] => Node::Mark(Held::new(alloc, HeadMark::Right(last_box(list)?))?),
        ["both"] => {
            let right = last_box(list)?;
            let left = last_box(list)?;
            Node::Mark(Held::new(alloc, HeadMark::Both { left, right })?)
        }
        _ => return Ok(None),
    };
    Ok(Some(node))
}

/// The last nodes of the list, which it loses.
pub fn taken(alloc: Global, list: &mut NodeList, count: usize) -> Result<NodeList, Stop> {
    let mut turned = Items::new(alloc);
    for _ in 0..count {
        turned.push(list.pop().ok_or(Stop::Command)?)?;
    }
    let mut nodes = Items::new(alloc);
    for _ in 0..count {
        nodes.push(turned.pop().ok_or(Stop::Command)?)?;
    }
    Ok(nodes)
}

fn last_box(list: &mut NodeList) -> Result<Held<lb_base::Boxed>, Stop> {
    match list.pop() {
        Some(Node::Boxed(boxed)) => Ok(boxed),
        _ => Err(Stop::Command),
    }
}

fn add_copies(alloc: Global, list: &mut NodeList, copies: usize) -> Result<(), Stop> {
    let node = list.pop().ok_or(Stop::Command)?;
    for _ in 0..copies {
        list.push(node.copy(alloc)?)?;
    }
    list.push(node)?;
    Ok(())
}
