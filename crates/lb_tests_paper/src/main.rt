//! The layer of paper at work: scaled points, fonts, boxes and words. Each line of standard input is a
//! command, and what comes of it is shown. `oracle/paper.py` says the same of the same lines by
//! itself.
#![tactic(auto)]

mod arithmetic;
mod digest;
mod fonts;
mod making;
mod marks;
mod text;

use fonts::Shelf;
use lb_base::NodeList;
use lb_dvi::Writer;
use lb_tests_lists::stop::Stop;
use lb_tests_lists::{boxes, lists};
use sqlite_items::Items;
use std::io::{BufRead, BufReader};
use std::rt::Files;

fn main(rt: HostRuntime) -> Result<(), Stop> {
    let alloc = rt.alloc();
    let mut shelf = Shelf {
        bytes: Vec::new(alloc),
        font: None,
    };
    let mut list: NodeList = Items::new(alloc);
    let mut writer = Writer::new(alloc);
    let mut out = String::new(alloc);
    for line in BufReader::new(alloc, rt.reader())?.lines(alloc) {
        let line = line?;
        let words: Vec<&str> = line.split_whitespace().collect(alloc)?;
        run(&rt, &words, &mut shelf, &mut list, &mut writer, &mut out)?;
        rt.print(&out)?;
        out.clear();
    }
    Ok(())
}

/// Runs one command.
fn run<R: Files + AllocGlobal>(
    rt: &R,
    words: &[&str],
    shelf: &mut Shelf,
    list: &mut NodeList,
    writer: &mut Writer,
    out: &mut String,
) -> Result<(), Stop> {
    let alloc = rt.alloc();
    if arithmetic::show(alloc, words, out)?
        || fonts::show(rt, words, shelf, out)?
        || making::show(alloc, words, &mut shelf.bytes, out)?
        || lists::change(alloc, words, list)?
        || boxes::show(alloc, words, list, out)?
        || text::show(alloc, words, &shelf.font, out)?
        || marks::show(alloc, words, list.as_slice(), writer, out)?
    {
        return Ok(());
    }
    Err(Stop::Command)
}
