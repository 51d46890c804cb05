//! Expansion at work. Each line of standard input is a case, whose answers are shown on a line, as `oracle/expand.py` says how they are written,
//! or `run COUNT` and the set-up words of a case: the text is read so many times, and the number of its tokens is shown.
#![tactic(auto)]

mod answers;
mod calls;
mod cases;
mod cells;
mod meanings;
mod numbers;
mod runs;
mod settings;
mod shown;
mod stop;
mod token_lists;

use lb_cells::State;
use std::alloc::Global;
use std::io::{BufRead, BufReader};
use stop::Stop;

fn main(rt: HostRuntime) -> Result<(), Stop> {
    let alloc = rt.alloc();
    let start = State::start(alloc)?;
    let mut out = String::new(alloc);
    for line in BufReader::new(alloc, rt.reader())?.lines(alloc) {
        let line = line?;
        show(alloc, &start, &line, &mut out)?;
        out.push('\n')?;
        rt.print(&out)?;
        out.clear();
    }
    Ok(())
}

/// Shows what comes of a line.
fn show(alloc: Global, start: &State, line: &str, out: &mut String) -> Result<(), Stop> {
    let words: Vec<&str> = line.split_whitespace().collect(alloc)?;
    match words.split_first() {
        Some((&"case", words)) => cases::show(alloc, start, words, out),
        Some((&"run", words)) => runs::show(alloc, start, words, out),
        _ => Err(Stop::Command),
    }
}
