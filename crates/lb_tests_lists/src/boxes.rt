//! Commands that pack nodes: `hpack N TARGET SIZE` and `vpack N TARGET SIZE` make a box of the last N
//! nodes of the current list, where TARGET is `natural`, `to` or `spread`, and `nest N` packs the whole
//! list N times. `same` compares its last two nodes.
use crate::fault::show_fault;
use crate::lists::taken;
use crate::number::{count, length};
use crate::stop::Stop;
use lb_base::{Axis, Boxed, Node, NodeList, Order, Target};
use lb_nodes::{Shifts, hpack, shift_at, vpack};
use sqlite_items::{Boxed as Held, Items};
use std::alloc::Global;
use std::fmt::Write;

/// A box of so many items is shown with the shift through each of them, a larger one with the last.
const FEW: usize = 64;

/// Shows what comes of a command, or answers false if it is none of these.
pub fn show(
    alloc: Global,
    words: &[&str],
    list: &mut NodeList,
    out: &mut String,
) -> Result<bool, Stop> {
    match *words {
        ["hpack", nodes, kind, size] => {
            let nodes = taken(alloc, list, count(nodes)?)?;
            let packed = hpack(alloc, nodes, target(kind, length(size)?)?);
            add_box(alloc, packed, list, out)?;
        }
        ["vpack", nodes, kind, size] => {
            let nodes = taken(alloc, list, count(nodes)?)?;
            let packed = vpack(alloc, nodes, target(kind, length(size)?)?);
            add_box(alloc, packed, list, out)?;
        }
        ["nest", times] => show_nest(alloc, list, count(times)?, out)?,
        ["same"] => show_same(&taken(alloc, list, 2)?, out)?,
        _ => return Ok(false),
    }
    Ok(true)
}

fn target(kind: &str, size: i32) -> Result<Target, Stop> {
    match kind {
        "natural" => Ok(Target::Natural),
        "to" => Ok(Target::To(size)),
        "spread" => Ok(Target::Spread(size)),
        _ => Err(Stop::Command),
    }
}

/// Shows a box and puts it behind the list, or shows why there is none.
fn add_box(
    alloc: Global,
    packed: Result<Boxed, lb_base::Stop>,
    list: &mut NodeList,
    out: &mut String,
) -> Result<(), Stop> {
    match packed {
        Ok(boxed) => {
            show_box(&boxed, out)?;
            list.push(Node::Boxed(Held::new(alloc, boxed)?))?;
            Ok(())
        }
        Err(stop) => show_fault(&stop, out),
    }
}

fn show_box(boxed: &Boxed, out: &mut String) -> Result<(), Stop> {
    let name = match boxed.axis {
        Axis::Horizontal => "hbox",
        Axis::Vertical => "vbox",
    };
    let (width, height, depth) = (boxed.width, boxed.height, boxed.depth);
    let (shift, excess) = (boxed.shift, boxed.glue_set.excess);
    let order = match boxed.glue_set.order {
        Order::Finite => 0,
        Order::Fil => 1,
        Order::Fill => 2,
        Order::Filll => 3,
    };
    let items = boxed.items.len();
    write!(out, "{name} {width} {height} {depth} down {shift} ")?;
    write!(out, "excess {excess} order {order} items {items}")?;
    if items <= FEW {
        show_shifts(boxed, out)?;
    } else {
        let last = last_shift(boxed);
        write!(out, " last {last}")?;
    }
    writeln!(out, "")?;
    Ok(())
}

/// The shift through each item, found for itself and then by going over them.
fn show_shifts(boxed: &Boxed, out: &mut String) -> Result<(), Stop> {
    write!(out, " at")?;
    for item in 0..boxed.items.len() {
        let shift = shift_at(boxed, item);
        write!(out, " {shift}")?;
    }
    write!(out, " going")?;
    let mut shifts = Shifts::over(boxed);
    for node in boxed.items.as_slice() {
        let shift = shifts.through(node);
        write!(out, " {shift}")?;
    }
    Ok(())
}

fn last_shift(boxed: &Boxed) -> i128 {
    let mut shifts = Shifts::over(boxed);
    let mut last = 0;
    for node in boxed.items.as_slice() {
        last = shifts.through(node);
    }
    last
}

/// Packs the list again and again, copies the box and compares it with its copy.
fn show_nest(
    alloc: Global,
    list: &mut NodeList,
    times: usize,
    out: &mut String,
) -> Result<(), Stop> {
    for _ in 0..times {
        let count = list.len();
        let nodes = taken(alloc, list, count)?;
        match hpack(alloc, nodes, Target::Natural) {
            Ok(boxed) => list.push(Node::Boxed(Held::new(alloc, boxed)?))?,
            Err(stop) => return show_fault(&stop, out),
        }
    }
    let copy = lb_base::copy_nodes(alloc, list.as_slice())?;
    let same = lb_base::equal_nodes(list.as_slice(), copy.as_slice());
    *list = Items::new(alloc);
    writeln!(out, "{times} times, and the copy is the same: {same}")?;
    Ok(())
}

/// Compares the first node with the others.
fn show_same(nodes: &NodeList, out: &mut String) -> Result<(), Stop> {
    let Some((first, rest)) = nodes.as_slice().split_first() else {
        return Err(Stop::Command);
    };
    let same = rest.iter().all(|node| node.equals(first));
    writeln!(out, "the same: {same}")?;
    Ok(())
}
