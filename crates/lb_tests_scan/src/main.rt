//! Scans, tests of conditionals, assignments and groups at work. Each line of standard input is a command, and what comes of it is
//! shown on a line.
#![tactic(auto)]

mod cells;
mod changes;
mod choices;
mod groups;
mod items;
mod numbers;
mod scans;
mod sequences;
mod shown;
mod steps;
mod stop;

use std::alloc::Global;
use std::io::{BufRead, BufReader};
use stop::Stop;

fn main(rt: HostRuntime) -> Result<(), Stop> {
    let alloc = rt.alloc();
    let mut out = String::new(alloc);
    for line in BufReader::new(alloc, rt.reader())?.lines(alloc) {
        let line = line?;
        let words: Vec<&str> = line.split_whitespace().collect(alloc)?;
        run(alloc, &words, &mut out)?;
        out.push('\n')?;
        rt.print(&out)?;
        out.clear();
    }
    Ok(())
}

/// Runs one command.
fn run(alloc: Global, words: &[&str], out: &mut String) -> Result<(), Stop> {
    match words.split_first() {
        Some((&"scan", words)) => scans::show(alloc, words, out),
        Some((&"scans", words)) => scans::show_many(alloc, words, out),
        Some((&"seq", words)) => sequences::show(alloc, words, out),
        Some((&"test", words)) => choices::show(words, out),
        _ => Err(Stop::Command),
    }
}
