//! Recorded reads at work. Each line of standard input is a command, and what comes of it is shown on a line.
#![tactic(auto)]

mod cells;
mod many;
mod numbers;
mod sequences;
mod shown;
mod steps;
mod stop;
mod worlds;

use std::alloc::Global;
use std::io::{BufRead, BufReader};
use stop::Stop;

fn main(rt: HostRuntime) -> Result<(), Stop> {
    let alloc = rt.alloc();
    let mut out = String::new(alloc);
    for line in BufReader::new(alloc, rt.reader())?.lines(alloc) {
        let line = line?;
        let words: Vec<&str> = line.split_whitespace().collect(alloc)?;
        run(alloc, &words, &mut out)?;
        out.push('\n')?;
        rt.print(&out)?;
        out.clear();
    }
    Ok(())
}

/// Runs one command.
fn run(alloc: Global, words: &[&str], out: &mut String) -> Result<(), Stop> {
    match words.split_first() {
        Some((&"seq", words)) => sequences::show(alloc, words, out),
        Some((&"record", words)) => many::show_recorded(alloc, words, out),
        Some((&"direct", words)) => many::show_direct(alloc, words, out),
        _ => Err(Stop::Command),
    }
}
