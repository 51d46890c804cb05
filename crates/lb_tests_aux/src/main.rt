//! Old aux files that are read, lines that are written, and counters. Each line of standard input is a command, and what comes of it is shown on a line.
#![tactic(auto)]

mod counters;
mod events;
mod files;
mod labels;
mod lines;
mod shown;
mod states;
mod stop;
mod tokens;
mod words;
mod worlds;

use std::alloc::Global;
use std::io::{BufRead, BufReader};
use stop::Stop;

fn main(rt: HostRuntime) -> Result<(), Stop> {
    let alloc = rt.alloc();
    let mut out = String::new(alloc);
    for line in BufReader::new(alloc, rt.reader())?.lines(alloc) {
        let line = line?;
        let words: Vec<&str> = line.split_whitespace().collect(alloc)?;
        run(alloc, &words, &mut out)?;
        out.push('\n')?;
        rt.print(&out)?;
        out.clear();
    }
    Ok(())
}

/// Runs one command.
fn run(alloc: Global, words: &[&str], out: &mut String) -> Result<(), Stop> {
    match words.split_first() {
        Some((&"read", words)) => files::show(alloc, words, out),
        Some((&"label", words)) => lines::show_label(alloc, words, out),
        Some((&"contents", words)) => lines::show_contents(alloc, words, out),
        Some((&"log", words)) => events::show(alloc, words, out),
        Some((&"counter", words)) => counters::show(alloc, words, out),
        Some((&"checkpoint", words)) => states::show(alloc, words, out),
        _ => Err(Stop::Command),
    }
}
