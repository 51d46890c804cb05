//! The program `speclatex` once more, as it is run with words that it refuses, so that its exit status is compared
//! with the one that is wanted.
#![tactic(auto)]

use lb_base::Moment;
use lb_disk::Outside;
use lb_run::{Status, run};
use std::alloc::AllocError;
use std::process::ExitCode;
use std::rt::{Env, Files};
use std::thread::Threads;

fn main(rt: HostRuntime) -> ExitCode {
    let status = match run_words(&rt) {
        Ok(status) => status,
        Err(AllocError) => Status::NoMemory,
    };
    // Where even the message cannot be told, the exit status still is.
    let _ = status.tell(&rt);
    ExitCode::from(status.number())
}

fn run_words<R>(rt: &R) -> Result<Status, AllocError>
where
    R: Files + Print + Env + AllocGlobal + Threads + Clone + Sync + Drop,
{
    let Some(mut outside) = Outside::of(rt)? else {
        return Ok(Status::Words);
    };
    Ok(run(
        rt,
        rt.alloc(),
        &outside.words,
        Moment::FIXED,
        &mut outside.folder,
        &mut outside.outlet,
        &mut outside.said,
    ))
}
