//! The steps of a command. Seats are numbered from 0 by their age, and those that are left move up where one is joined to another: `d:SEAT`
//! draws, `p:SEAT:MORE` posts the chapter that the seat holds with so much more than its number, `t:SEAT:CHAPTER` takes a chapter, `h:SEAT`
//! halts the board, `s:SEAT` splits a seat, and `j:SEAT:OTHER` joins another one to it.
use crate::stop::Stop;
use std::alloc::Global;

/// A call with one seat.
#[derive(Clone, Copy)]
pub(crate) enum Call {
    Draw,
    Post(u32),
    Take(u32),
    Halt,
}

/// A step.
#[derive(Clone, Copy)]
pub(crate) enum Step {
    Call(usize, Call),
    Split(usize),
    Join(usize, usize),
}

impl Step {
    /// The step of a word.
    pub(crate) fn of(alloc: Global, word: &str) -> Result<Step, Stop> {
        let parts: Vec<&str> = word.split(':').collect(alloc)?;
        match *parts.as_slice() {
            ["d", seat] => Ok(Step::Call(place(seat)?, Call::Draw)),
            ["p", seat, more] => Ok(Step::Call(place(seat)?, Call::Post(number(more)?))),
            ["t", seat, chapter] => Ok(Step::Call(place(seat)?, Call::Take(number(chapter)?))),
            ["h", seat] => Ok(Step::Call(place(seat)?, Call::Halt)),
            ["s", seat] => Ok(Step::Split(place(seat)?)),
            ["j", seat, other] => Ok(Step::Join(place(seat)?, place(other)?)),
            _ => Err(Stop::Command),
        }
    }
}

pub(crate) fn number(word: &str) -> Result<u32, Stop> {
    word.parse::<u32>().map_err(|_| Stop::Command)
}

fn place(word: &str) -> Result<usize, Stop> {
    Ok(number(word)? as usize)
}
