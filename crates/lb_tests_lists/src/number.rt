//! The numbers of a command.
use crate::stop::Stop;

/// A length in scaled points, or a penalty.
pub fn length(word: &str) -> Result<i32, Stop> {
    word.parse::<i32>().map_err(|_| Stop::Command)
}

pub fn sum(word: &str) -> Result<i64, Stop> {
    word.parse::<i64>().map_err(|_| Stop::Command)
}

/// A byte, or the code of a character.
pub fn byte(word: &str) -> Result<u8, Stop> {
    word.parse::<u8>().map_err(|_| Stop::Command)
}

pub fn count(word: &str) -> Result<usize, Stop> {
    word.parse::<usize>().map_err(|_| Stop::Command)
}

/// How many ligature and kerning steps may be taken.
pub fn steps(word: &str) -> Result<u64, Stop> {
    word.parse::<u64>().map_err(|_| Stop::Command)
}
