//! A board at work, with several seats on one thread. Each line of standard input is a command, and what comes of it is shown on a line.
//! `board COUNT STEP..` makes a board of so many chapters and makes the steps on it; `many COUNT` draws, posts and takes so many chapters,
//! and shows the number behind the last, how many it took, and the total of what it took.
#![tactic(auto)]

mod many;
mod play;
mod steps;
mod stop;
mod values;
mod worker;

use std::alloc::Global;
use std::io::{BufRead, BufReader};
use steps::number;
use stop::Stop;

fn main(rt: HostRuntime) -> Result<(), Stop> {
    let alloc = rt.alloc();
    let mut out = String::new(alloc);
    for line in BufReader::new(alloc, rt.reader())?.lines(alloc) {
        let line = line?;
        let words: Vec<&str> = line.split_whitespace().collect(alloc)?;
        run(alloc, &words, &mut out)?;
        out.push('\n')?;
        rt.print(&out)?;
        out.clear();
    }
    Ok(())
}

/// Runs one command.
fn run(alloc: Global, words: &[&str], out: &mut String) -> Result<(), Stop> {
    match *words {
        ["many", count] => many::show(alloc, number(count)?, out),
        ["board", count, ref steps @ ..] => play::show(alloc, number(count)?, steps, out),
        _ => Err(Stop::Command),
    }
}
