//! Commands of paragraphs. `shape WIDTH GLUE GLUE`, where GLUE is five numbers, and `rules` with twelve
//! numbers and `passes first`, `passes second` or `passes both` set what the others use: `break` shows
//! the best breaks of the current list, `lines` the vertical list of its lines, with these breaks or with
//! given ends, and `append PREV GLUE GLUE LIMIT` puts its last box behind the rest with the glue between
//! lines. `show` shows the list.
use crate::nodes::show_list;
use lb_base::{Glue, Listed, Node, NodeList, Order};
use lb_break::break_paragraph;
use lb_lines::{append_line, are_ends, lines};
use lb_model_paper::paragraph::{BreakEnd, BreakList, BreakRules, LineRules, Passes, Shape};
use lb_tests_lists::fault::show_fault;
use lb_tests_lists::number::{count, length};
use lb_tests_lists::stop::Stop;
use sqlite_items::Items;
use std::alloc::Global;
use std::fmt::Write;

const NO_GLUE: Glue = Glue {
    width: 0,
    stretch: 0,
    stretch_order: Order::Finite,
    shrink: 0,
    shrink_order: Order::Finite,
};

/// The shape of a book's paragraphs.
pub fn book_shape() -> Shape {
    Shape {
        width: 22_609_920,
        left: NO_GLUE,
        right: NO_GLUE,
        rules: BreakRules {
            pretolerance: 100,
            tolerance: 200,
            line_penalty: 10,
            hyphen_penalty: 50,
            ex_hyphen_penalty: 50,
            adj_demerits: 10_000,
            double_hyphen_demerits: 10_000,
            final_hyphen_demerits: 5_000,
            club_penalty: 150,
            widow_penalty: 150,
            broken_penalty: 100,
            interline_penalty: 0,
            passes: Passes::Both,
        },
    }
}

/// Runs a command, or answers false if it is none of these.
pub fn run(
    alloc: Global,
    words: &[&str],
    shape: &mut Shape,
    list: &mut NodeList,
    out: &mut String,
) -> Result<bool, Stop> {
    match words.split_first() {
        Some((&"shape", numbers)) => set_shape(numbers, shape)?,
        Some((&"rules", numbers)) => set_rules(numbers, shape)?,
        Some((&"passes", [word])) => shape.rules.passes = passes(word)?,
        Some((&"break", [])) => show_breaks(alloc, list, shape, out)?,
        Some((&"lines", [])) => break_and_show(alloc, list, shape, out)?,
        Some((&"lines", ends)) => show_lines(alloc, list, &given_ends(alloc, ends)?, shape, out)?,
        Some((&"append", numbers)) => show_appended(alloc, numbers, list, out)?,
        Some((&"show", [])) => {
            show_list(list.as_slice(), out)?;
            writeln!(out, "")?;
        }
        _ => return Ok(false),
    }
    Ok(true)
}

fn set_shape(numbers: &[&str], shape: &mut Shape) -> Result<(), Stop> {
    if numbers.len() != 11 {
        return Err(Stop::Command);
    }
    shape.width = length(numbers[0])?;
    shape.left = glue(&numbers[1..6])?;
    shape.right = glue(&numbers[6..11])?;
    Ok(())
}

fn set_rules(numbers: &[&str], shape: &mut Shape) -> Result<(), Stop> {
    if numbers.len() != 12 {
        return Err(Stop::Command);
    }
    let rules = &mut shape.rules;
    rules.pretolerance = length(numbers[0])?;
    rules.tolerance = length(numbers[1])?;
    rules.line_penalty = length(numbers[2])?;
    rules.hyphen_penalty = length(numbers[3])?;
    rules.ex_hyphen_penalty = length(numbers[4])?;
    rules.adj_demerits = length(numbers[5])?;
    rules.double_hyphen_demerits = length(numbers[6])?;
    rules.final_hyphen_demerits = length(numbers[7])?;
    rules.club_penalty = length(numbers[8])?;
    rules.widow_penalty = length(numbers[9])?;
    rules.broken_penalty = length(numbers[10])?;
    rules.interline_penalty = length(numbers[11])?;
    Ok(())
}

fn passes(word: &str) -> Result<Passes, Stop> {
    match word {
        "first" => Ok(Passes::First),
        "second" => Ok(Passes::Second),
        "both" => Ok(Passes::Both),
        _ => Err(Stop::Command),
    }
}

fn glue(numbers: &[&str]) -> Result<Glue, Stop> {
    match *numbers {
        [width, stretch, stretch_order, shrink, shrink_order] => Ok(Glue {
            width: length(width)?,
            stretch: length(stretch)?,
            stretch_order: order(stretch_order)?,
            shrink: length(shrink)?,
            shrink_order: order(shrink_order)?,
        }),
        _ => Err(Stop::Command),
    }
}

fn order(word: &str) -> Result<Order, Stop> {
    match word {
        "0" => Ok(Order::Finite),
        "1" => Ok(Order::Fil),
        "2" => Ok(Order::Fill),
        "3" => Ok(Order::Filll),
        _ => Err(Stop::Command),
    }
}

fn show_breaks(
    alloc: Global,
    list: &NodeList,
    shape: &Shape,
    out: &mut String,
) -> Result<(), Stop> {
    match break_paragraph(alloc, list, shape) {
        Ok(breaks) => show_ends(&breaks, out),
        Err(stop) => show_fault(&stop, out),
    }
}

fn show_ends(breaks: &BreakList, out: &mut String) -> Result<(), Stop> {
    let pass = breaks.pass;
    write!(out, "pass {pass} ends")?;
    for end in breaks.ends.as_slice() {
        let item = end.item;
        let mark = if end.is_bad { "!" } else { "" };
        write!(out, " {item}{mark}")?;
    }
    writeln!(out, "")?;
    Ok(())
}

fn break_and_show(
    alloc: Global,
    list: &mut NodeList,
    shape: &Shape,
    out: &mut String,
) -> Result<(), Stop> {
    match break_paragraph(alloc, list, shape) {
        Ok(breaks) => {
            if breaks.pass == 0 {
                writeln!(out, "no breaks")?;
                return Ok(());
            }
            show_lines(alloc, list, &breaks, shape, out)
        }
        Err(stop) => show_fault(&stop, out),
    }
}

fn given_ends(alloc: Global, words: &[&str]) -> Result<BreakList, Stop> {
    let mut ends = Vec::new(alloc);
    for word in words {
        ends.push(BreakEnd {
            item: count(word)?,
            is_bad: false,
        })?;
    }
    Ok(BreakList {
        pass: 1,
        ends: Listed::from_vec(ends),
    })
}

/// Shows the lines of the list, which is empty then.
fn show_lines(
    alloc: Global,
    list: &mut NodeList,
    breaks: &BreakList,
    shape: &Shape,
    out: &mut String,
) -> Result<(), Stop> {
    if !are_ends(list, breaks) {
        return Err(Stop::Command);
    }
    let nodes = std::mem::replace(list, Items::new(alloc));
    match lines(alloc, nodes, breaks, shape) {
        Ok(vertical) => {
            show_list(vertical.as_slice(), out)?;
            writeln!(out, "")?;
            Ok(())
        }
        Err(stop) => show_fault(&stop, out),
    }
}

fn show_appended(
    alloc: Global,
    numbers: &[&str],
    list: &mut NodeList,
    out: &mut String,
) -> Result<(), Stop> {
    if numbers.len() != 12 {
        return Err(Stop::Command);
    }
    let prev = length(numbers[0])?;
    let rules = LineRules {
        baselineskip: glue(&numbers[1..6])?,
        lineskip: glue(&numbers[6..11])?,
        lineskiplimit: length(numbers[11])?,
    };
    let Some(Node::Boxed(boxed)) = list.pop() else {
        return Err(Stop::Command);
    };
    match append_line(alloc, list, boxed.into_inner(), &rules, prev) {
        Ok(depth) => {
            write!(out, "prevdepth {depth} ")?;
            show_list(list.as_slice(), out)?;
            writeln!(out, "")?;
            Ok(())
        }
        Err(stop) => show_fault(&stop, out),
    }
}
