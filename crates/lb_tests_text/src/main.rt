//! The layer of text at work: names, cells, the tokens of lines and fonts. Each line of standard input is a command, and what
//! comes of it is shown. `oracle/text.py` says the same of the same lines by itself.
#![tactic(auto)]

mod changes;
mod fonts;
mod keys;
mod many;
mod numbers;
mod parts;
mod readings;
mod rows;
mod shown;
mod states;
mod stop;
mod tokens;

use lb_base::{Moment, Name};
use lb_cells::State;
use lb_model::{FileMap, STEPS_AT_START, World};
use std::alloc::Global;
use std::io::{BufRead, BufReader};
use std::rt::Files;
use stop::Stop;

/// What the commands work on.
#[derive(Drop)]
struct Desk {
    world: World,
    state: State,
}

fn main(rt: HostRuntime) -> Result<(), Stop> {
    let alloc = rt.alloc();
    let mut desk = Desk {
        world: world(alloc)?,
        state: State::start(alloc)?,
    };
    let mut out = String::new(alloc);
    for line in BufReader::new(alloc, rt.reader())?.lines(alloc) {
        let line = line?;
        let words: Vec<&str> = line.split_whitespace().collect(alloc)?;
        run(&rt, &words, &mut desk, &mut out)?;
        rt.print(&out)?;
        out.clear();
    }
    Ok(())
}

/// Runs one command.
fn run<R: Files + AllocGlobal>(
    rt: &R,
    words: &[&str],
    desk: &mut Desk,
    out: &mut String,
) -> Result<(), Stop> {
    let alloc = rt.alloc();
    if rows::show(alloc, words, out)?
        || states::show(alloc, words, &mut desk.state, out)?
        || changes::show(alloc, words, &desk.world, &mut desk.state, out)?
        || readings::show(alloc, words, &desk.world, &mut desk.state, out)?
        || tokens::show(alloc, words, &desk.world, &mut desk.state, out)?
        || many::show(alloc, words, &desk.world, &mut desk.state, out)?
        || fonts::take_file(rt, words, &mut desk.world.files)?
        || fonts::show(alloc, words, &desk.world, &mut desk.state, out)?
    {
        return Ok(());
    }
    Err(Stop::Command)
}

/// A world without files.
fn world(alloc: Global) -> Result<World, Stop> {
    let moment = Moment {
        year: 1999,
        month: 12,
        day: 31,
        minutes: 1439,
    };
    Ok(World {
        files: FileMap::new(alloc),
        main: Name::from_slice(alloc, b"main")?,
        prefix: Name::from_slice(alloc, b"fonts/")?,
        steps: STEPS_AT_START,
        moment,
    })
}
