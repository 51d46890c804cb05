//! What a case is over: a world, a state and a piece.
ghost use Rattle.std.specs.Prelude.{◌≡◌, [], IfOk};
ghost use Rattle.lb_values.specs.Kept.{Kept};
ghost use Rattle.lb_values.specs.declared.value.Value.{Value as AValue};
ghost use Rattle.lb_model.specs.Stacked.{kinds_of};
ghost use Rattle.lb_model.specs.declared.world.World.{World as AWorld};

use crate::cells::{cell, value};
use crate::numbers::{bytes, count, name};
use crate::stop::Stop;
use lb_base::{Bytes, Moment, Name};
use lb_cells::{Direct, State};
use lb_expand::Desk;
use lb_model::{FileMap, Mode, STEPS_AT_START, World};
use lb_values::{Reach, Shared};
use std::alloc::Global;

/// What is read: the text, its file and the number of its first line, with the mode and the steps that are left.
#[derive(Drop)]
pub(crate) struct Piece {
    pub text: Bytes,
    pub file: Name,
    pub line: u64,
    pub mode: Mode,
    pub steps: u64,
}

impl Piece {
    /// The desk at which it is read.
    pub(crate) fn desk(self, alloc: Global) -> Result<Desk, Stop>
        ensures groups { IfOk result (λ desk. (w : AWorld) (kept : Kept AValue) → kinds_of desk.groups ≡ []) }
    {
        let Piece {
            text,
            file,
            line,
            mode,
            steps,
        } = self;
        let length = text.len();
        if line.checked_add(length as u64).is_none() {
            return Err(Stop::Command);
        }
        let bytes = Shared::new(alloc, text)?;
        let mut desk = Desk::over(alloc, file, line, bytes, 0, length, steps)?;
        desk.mode = mode;
        Ok(desk)
    }
}

#[derive(Drop)]
pub(crate) struct Setting {
    pub world: World,
    pub state: State,
    pub piece: Piece,
}

impl Setting {
    /// The setting of a case's words, over what the state at the start holds.
    pub(crate) fn of(alloc: Global, start: &State, words: &[&str]) -> Result<Setting, Stop> {
        let mut setting = Setting {
            world: empty_world(alloc)?,
            state: State::over(alloc, start.base().clone()?),
            piece: empty_piece(alloc)?,
        };
        for word in words {
            match word.split_once('=') {
                Some(("set", change)) => change_state(alloc, start, change, &mut setting.state)?,
                Some((kind, value)) => setting.take(alloc, kind, value)?,
                None => {}
            }
        }
        Ok(setting)
    }

    fn take(&mut self, alloc: Global, kind: &str, value: &str) -> Result<(), Stop> {
        match kind {
            "job" => self.world.main = name(alloc, value)?,
            "prefix" => self.world.prefix = name(alloc, value)?,
            "file" => add_file(alloc, value, &mut self.world.files)?,
            "text" => self.piece.text = bytes(alloc, value)?,
            "name" => self.piece.file = name(alloc, value)?,
            "line" => self.piece.line = count(value)?,
            "mode" => self.piece.mode = mode(value)?,
            "steps" => self.piece.steps = count(value)?,
            _ => return Err(Stop::Command),
        }
        Ok(())
    }
}

/// A world without files.
fn empty_world(alloc: Global) -> Result<World, Stop> {
    let moment = Moment {
        year: 1776,
        month: 7,
        day: 4,
        minutes: 720,
    };
    Ok(World {
        files: FileMap::new(alloc),
        main: Name::from_slice(alloc, b"main")?,
        prefix: Name::from_slice(alloc, b"")?,
        steps: STEPS_AT_START,
        moment,
    })
}

/// An empty piece.
fn empty_piece(alloc: Global) -> Result<Piece, Stop> {
    Ok(Piece {
        text: Bytes::new(alloc),
        file: Name::from_slice(alloc, b"main.tex")?,
        line: 1,
        mode: Mode::Vertical,
        steps: 100_000,
    })
}

fn add_file(alloc: Global, word: &str, files: &mut FileMap) -> Result<(), Stop> {
    let (file, text) = word.split_once(':').ok_or(Stop::Command)?;
    let text = Shared::new(alloc, bytes(alloc, text)?)?;
    files.insert(name(alloc, file)?, text)?;
    Ok(())
}

fn mode(word: &str) -> Result<Mode, Stop> {
    match word {
        "V" => Ok(Mode::Vertical),
        "H" => Ok(Mode::Paragraph),
        "R" => Ok(Mode::Restricted),
        _ => Err(Stop::Command),
    }
}

/// Changes a state by a word, whose token lists are read with the categories of the start.
fn change_state(alloc: Global, start: &State, word: &str, state: &mut State) -> Result<(), Stop> {
    let (target, word) = word.split_once(':').ok_or(Stop::Command)?;
    let world = empty_world(alloc)?;
    let mut unchanged = State::over(alloc, start.base().clone()?);
    let mut cells = Direct::over(&world, &mut unchanged);
    let cell = cell(alloc, target)?;
    let value = value(alloc, &mut cells, &cell, word)?;
    state.change(&cell, value, Reach::Local)?;
    Ok(())
}
