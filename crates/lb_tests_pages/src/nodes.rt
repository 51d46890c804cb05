//! Nodes in one line of text.
use lb_base::{
    Axis, Boxed, Discretionary, Glue, HeadMark, KernOrigin, Metrics, Node, Order, RuleSize,
};
use lb_tests_lists::stop::Stop;
use std::fmt::Write;

/// Writes a list of nodes.
#[cycle(showing)]
pub fn show_list(nodes: &[Node], out: &mut String) -> Result<(), Stop> {
    write!(out, "[")?;
    let mut is_first = true;
    for node in nodes {
        if !is_first {
            write!(out, " ")?;
        }
        is_first = false;
        show_node(node, out)?;
    }
    write!(out, "]")?;
    Ok(())
}

#[cycle(showing)]
fn show_node(node: &Node, out: &mut String) -> Result<(), Stop> {
    match node {
        Node::Char { code, metrics, .. } => show_letter("char", *code, metrics, out),
        Node::Lig(ligature) => {
            let ligature = ligature.get();
            show_letter("lig", ligature.code, &ligature.metrics, out)
        }
        Node::Kern { width, origin } => show_kern(*width, *origin, out),
        Node::Glue(glue) => show_glue(glue, out),
        Node::Penalty(penalty) => show_penalty(*penalty, out),
        Node::Disc(parts) => show_parts(parts.get(), out),
        Node::Rule(size) => show_rule(size, out),
        Node::Boxed(boxed) => show_box(boxed.get(), out),
        Node::Note(_) => show_word("note", out),
        Node::Mark(mark) => show_mark(mark.get(), out),
        Node::Ins(footnote) => {
            show_word("ins(", out)?;
            show_box(footnote.get(), out)?;
            show_word(")", out)
        }
        Node::Adjust(material) => {
            show_word("adjust(", out)?;
            show_list(material.as_slice(), out)?;
            show_word(")", out)
        }
    }
}

fn show_word(word: &str, out: &mut String) -> Result<(), Stop> {
    write!(out, "{word}")?;
    Ok(())
}

fn show_letter(kind: &str, code: u8, metrics: &Metrics, out: &mut String) -> Result<(), Stop> {
    let (width, height, depth) = (metrics.width, metrics.height, metrics.depth);
    write!(out, "{kind}({code} {width} {height} {depth})")?;
    Ok(())
}

fn show_kern(width: i32, origin: KernOrigin, out: &mut String) -> Result<(), Stop> {
    let kind = match origin {
        KernOrigin::Font => "fontkern",
        KernOrigin::Explicit => "kern",
    };
    write!(out, "{kind}({width})")?;
    Ok(())
}

fn show_penalty(penalty: i32, out: &mut String) -> Result<(), Stop> {
    write!(out, "penalty({penalty})")?;
    Ok(())
}

fn order_number(order: Order) -> u8 {
    match order {
        Order::Finite => 0,
        Order::Fil => 1,
        Order::Fill => 2,
        Order::Filll => 3,
    }
}

fn show_glue(glue: &Glue, out: &mut String) -> Result<(), Stop> {
    let (width, stretch, shrink) = (glue.width, glue.stretch, glue.shrink);
    let stretch_order = order_number(glue.stretch_order);
    let shrink_order = order_number(glue.shrink_order);
    write!(out, "glue({width} {stretch} {stretch_order} ")?;
    write!(out, "{shrink} {shrink_order})")?;
    Ok(())
}

#[cycle(showing)]
fn show_parts(parts: &Discretionary, out: &mut String) -> Result<(), Stop> {
    show_word("disc(", out)?;
    show_list(parts.pre_break.as_slice(), out)?;
    show_word(" ", out)?;
    show_list(parts.post_break.as_slice(), out)?;
    show_word(" ", out)?;
    show_list(parts.no_break.as_slice(), out)?;
    show_word(")", out)
}

fn show_rule(size: &RuleSize, out: &mut String) -> Result<(), Stop> {
    show_word("rule(", out)?;
    show_given(size.width, out)?;
    show_word(" ", out)?;
    show_given(size.height, out)?;
    show_word(" ", out)?;
    show_given(size.depth, out)?;
    show_word(")", out)
}

fn show_given(length: Option<i32>, out: &mut String) -> Result<(), Stop> {
    match length {
        Some(length) => write!(out, "{length}")?,
        None => write!(out, "x")?,
    }
    Ok(())
}

#[cycle(showing)]
fn show_box(boxed: &Boxed, out: &mut String) -> Result<(), Stop> {
    let kind = match boxed.axis {
        Axis::Horizontal => "hbox",
        Axis::Vertical => "vbox",
    };
    let (width, height, depth, shift) = (boxed.width, boxed.height, boxed.depth, boxed.shift);
    let excess = boxed.glue_set.excess;
    let order = order_number(boxed.glue_set.order);
    write!(out, "{kind}({width} {height} {depth} down {shift} ")?;
    write!(out, "excess {excess} order {order} ")?;
    show_list(boxed.items.as_slice(), out)?;
    show_word(")", out)
}

#[cycle(showing)]
fn show_mark(mark: &HeadMark, out: &mut String) -> Result<(), Stop> {
    match mark {
        HeadMark::Both { left, right } => {
            show_word("both(", out)?;
            show_box(left.get(), out)?;
            show_word(" ", out)?;
            show_box(right.get(), out)?;
        }
        HeadMark::Right(right) => {
            show_word("right(", out)?;
            show_box(right.get(), out)?;
        }
    }
    show_word(")", out)
}
