//! Paragraphs and pages at work. Each line of standard input is a command, and what comes of it is shown.
//! `oracle/pages.py` says the same of the same lines by itself.
#![tactic(auto)]

mod nodes;
mod pages;
mod paragraphs;
mod trees;

use lb_base::NodeList;
use lb_model_paper::paragraph::Shape;
use lb_tests_lists::stop::Stop;
use lb_tests_lists::{boxes, lists};
use pages::Pages;
use sqlite_items::Items;
use std::alloc::Global;
use std::io::{BufRead, BufReader};

fn main(rt: HostRuntime) -> Result<(), Stop> {
    let alloc = rt.alloc();
    let mut list: NodeList = Items::new(alloc);
    let mut shape = paragraphs::book_shape();
    let mut pages = Pages::new(alloc);
    let mut out = String::new(alloc);
    for line in BufReader::new(alloc, rt.reader())?.lines(alloc) {
        let line = line?;
        let words: Vec<&str> = line.split_whitespace().collect(alloc)?;
        run(alloc, &words, &mut list, &mut shape, &mut pages, &mut out)?;
        rt.print(&out)?;
        out.clear();
    }
    Ok(())
}

/// Runs one command.
fn run(
    alloc: Global,
    words: &[&str],
    list: &mut NodeList,
    shape: &mut Shape,
    pages: &mut Pages,
    out: &mut String,
) -> Result<(), Stop> {
    if lists::change(alloc, words, list)?
        || boxes::show(alloc, words, list, out)?
        || paragraphs::run(alloc, words, shape, list, out)?
        || pages::show(alloc, words, pages, list, out)?
    {
        return Ok(());
    }
    Err(Stop::Command)
}
