//! Nodes in a nested form that shows each.
use lb_base::{
    Axis, Boxed, Discretionary, Glue, HeadMark, KernOrigin, Node, NodeList, Order, RuleSize,
};
use lb_tests_lists::stop::Stop;
use std::fmt::Write;

/// Shows nodes, a space before each.
#[cycle(trees)]
pub fn show_nodes(nodes: &[Node], out: &mut String) -> Result<(), Stop> {
    for node in nodes {
        write!(out, " ")?;
        show_node(node, out)?;
    }
    Ok(())
}

#[cycle(trees)]
fn show_node(node: &Node, out: &mut String) -> Result<(), Stop> {
    match node {
        Node::Boxed(boxed) => show_box(boxed.get(), out),
        Node::Ins(footnote) => {
            write!(out, "(ins ")?;
            show_box(footnote.get(), out)?;
            write!(out, ")")?;
            Ok(())
        }
        Node::Mark(mark) => show_mark(mark.get(), out),
        Node::Adjust(material) => {
            write!(out, "(adjust")?;
            show_nodes(material.as_slice(), out)?;
            write!(out, ")")?;
            Ok(())
        }
        Node::Disc(parts) => show_disc(parts.get(), out),
        _ => show_leaf(node, out),
    }
}

#[cycle(trees)]
pub fn show_box(boxed: &Boxed, out: &mut String) -> Result<(), Stop> {
    let name = match boxed.axis {
        Axis::Horizontal => "hbox",
        Axis::Vertical => "vbox",
    };
    let (width, height, depth) = (boxed.width, boxed.height, boxed.depth);
    let (shift, excess) = (boxed.shift, boxed.glue_set.excess);
    let order = number_of(boxed.glue_set.order);
    write!(out, "({name} {width} {height} {depth} down {shift} ")?;
    write!(out, "excess {excess} order {order}")?;
    show_nodes(boxed.items.as_slice(), out)?;
    write!(out, ")")?;
    Ok(())
}

#[cycle(trees)]
fn show_mark(mark: &HeadMark, out: &mut String) -> Result<(), Stop> {
    match mark {
        HeadMark::Both { left, right } => {
            write!(out, "(both ")?;
            show_box(left.get(), out)?;
            write!(out, " ")?;
            show_box(right.get(), out)?;
        }
        HeadMark::Right(right) => {
            write!(out, "(right ")?;
            show_box(right.get(), out)?;
        }
    }
    write!(out, ")")?;
    Ok(())
}

#[cycle(trees)]
fn show_disc(parts: &Discretionary, out: &mut String) -> Result<(), Stop> {
    write!(out, "(disc")?;
    show_part(parts.pre_break.as_slice(), out)?;
    show_part(parts.post_break.as_slice(), out)?;
    show_part(parts.no_break.as_slice(), out)?;
    write!(out, ")")?;
    Ok(())
}

/// Nodes in parentheses, with no space behind the first.
#[cycle(trees)]
fn show_part(nodes: &[Node], out: &mut String) -> Result<(), Stop> {
    write!(out, " (")?;
    let mut first = true;
    for node in nodes {
        if !first {
            write!(out, " ")?;
        }
        first = false;
        show_node(node, out)?;
    }
    write!(out, ")")?;
    Ok(())
}

/// A node with no node inside.
fn show_leaf(node: &Node, out: &mut String) -> Result<(), Stop> {
    match node {
        Node::Char { code, metrics, .. } => {
            let (width, height, depth) = (metrics.width, metrics.height, metrics.depth);
            write!(out, "(char {code} {width} {height} {depth})")?;
        }
        Node::Kern { width, origin } => match origin {
            KernOrigin::Explicit => write!(out, "(kern {width})")?,
            KernOrigin::Font => write!(out, "(fontkern {width})")?,
        },
        Node::Glue(glue) => show_glue(glue, out)?,
        Node::Penalty(penalty) => write!(out, "(penalty {penalty})")?,
        Node::Rule(size) => show_rule(size, out)?,
        Node::Note(_) => write!(out, "(note)")?,
        _ => return Err(Stop::Command),
    }
    Ok(())
}

fn show_glue(glue: &Glue, out: &mut String) -> Result<(), Stop> {
    let (width, stretch, shrink) = (glue.width, glue.stretch, glue.shrink);
    let (of_stretch, of_shrink) = (number_of(glue.stretch_order), number_of(glue.shrink_order));
    write!(
        out,
        "(glue {width} {stretch} {of_stretch} {shrink} {of_shrink})"
    )?;
    Ok(())
}

fn show_rule(size: &RuleSize, out: &mut String) -> Result<(), Stop> {
    write!(out, "(rule")?;
    show_size(size.width, out)?;
    show_size(size.height, out)?;
    show_size(size.depth, out)?;
    write!(out, ")")?;
    Ok(())
}

fn show_size(size: Option<i32>, out: &mut String) -> Result<(), Stop> {
    match size {
        Some(size) => write!(out, " {size}")?,
        None => write!(out, " x")?,
    }
    Ok(())
}

fn number_of(order: Order) -> u8 {
    match order {
        Order::Finite => 0,
        Order::Fil => 1,
        Order::Fill => 2,
        Order::Filll => 3,
    }
}
