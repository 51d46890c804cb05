//! The outside of a program: its words, the current folder and the terminal.
use crate::folder::DiskFolder;
use crate::outlet::DiskOutlet;
use crate::terminal::TermSaid;
use std::alloc::AllocError;
use std::env;
use std::rt::{Env, Files};

/// The words of the command line without the program's name, the current folder as it is read and as it is written, and what is
/// said.
#[derive(Drop)]
pub struct Outside<R: Files + Print + AllocGlobal + Clone + Drop> {
    pub words: Vec<String>,
    pub folder: DiskFolder<R>,
    pub outlet: DiskOutlet<R>,
    pub said: TermSaid<R>,
}

impl<R: Files + Print + Env + AllocGlobal + Clone + Drop> Outside<R> {
    /// None where one of the words is no text.
    pub fn of(rt: &R) -> Result<Option<Outside<R>>, AllocError> {
        let Some(words) = words(rt)? else {
            return Ok(None);
        };
        Ok(Some(Outside {
            words,
            folder: DiskFolder::new(rt.clone()?),
            outlet: DiskOutlet::new(rt.clone()?, rt.alloc())?,
            said: TermSaid::new(rt.clone()?),
        }))
    }
}

fn words<R: Env + AllocGlobal>(rt: &R) -> Result<Option<Vec<String>>, AllocError> {
    let Ok(args) = env::args(rt) else {
        return Ok(None);
    };
    let mut words = Vec::new(rt.alloc());
    for word in args.skip(1) {
        words.push(word)?;
    }
    Ok(Some(words))
}
