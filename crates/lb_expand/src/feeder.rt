//! A feed over pending tokens and texts.
ghost use Rattle.std.specs.Prelude.{◌≡◌};
ghost use Rattle.lb_model.specs.Stacked.{Standing};
ghost use Rattle.lb_expand.specs.Views.{config};

use crate::desk::Desk;
use crate::taking::{meaning_of, take};
use lb_base::{Kind, NoMemory, Stop, Tok};
use lb_model::{Cells, Feed};
use lb_values::Meaning;

/// Feeds the tokens of a desk over cells. Both are lent.
#[derive(Drop)]
pub struct Feeder<'a, C: Cells> {
    pub cells: &'a mut C,
    pub desk: &'a mut Desk,
}

impl<'a, C: Cells> Feed for Feeder<'a, C> {
    ghost agrees = { λ f p. C.agrees f.cells.now p };

    ghost configuration = { λ f p. config p.world (C.meaning f.cells.now p) f.desk.now };

    ghost notes = { λ f. C.notes f.cells.now };

    ghost origin = { λ f. record {
      made = C.made f.cells.now;
      groups = f.desk.now.groups;
      cells = f.cells.ghost_name;
      desk = f.desk.ghost_name;
      inner =
          C.loan f.cells.now;
    } };

    ghost stands = { λ f p. Standing f.desk.now.groups (C.meaning f.cells.now p) };

    fn plain(&mut self) -> Result<Option<Tok>, Stop> {
        take(self.cells, self.desk, true)
    }

    fn in_file(&mut self) -> Result<Option<Tok>, Stop> {
        take(self.cells, self.desk, false)
    }

    fn back(&mut self, tok: Tok) -> Result<(), Stop> {
        match self.desk.source.put_token(tok) {
            Ok(()) => Ok(()),
            Err(Stop::Fault(_)) => Err(Stop::Fault(Kind::DepthLimit)),
            Err(_) => Err(Stop::Memory),
        }
    }

    fn meaning(&mut self, tok: &Tok) -> Result<Option<Meaning>, NoMemory> {
        meaning_of(self.cells, tok)
    }
}

impl<'a, C: Cells> Feeder<'a, C> {
    /// Feeds what stands next at a desk. Takes no memory.
    pub fn over(cells: &'a mut C, desk: &'a mut Desk) -> Feeder<'a, C>
        ensures cells { result.cells.now ≡ cells.old }
        ensures desk { result.desk.now ≡ desk.old }
        ensures same_cells { result.cells.ghost_name ≡ cells.entry.ghost_name }
        ensures same_desk { result.desk.ghost_name ≡ desk.entry.ghost_name }
    {
        Feeder { cells, desk }
    }
}
