//! The names of the files of a book.
ghost use Rattle.std.specs.Prelude.{◌≡◌, IfOk};
ghost use Rattle.lb_model_book.specs.PlainForm as form;
ghost use Rattle.lb_run.specs.Names.{IsNamedFor};

use lb_base::{Name, NoMemory};
use lb_model::World;
use std::alloc::Global;

pub fn tex_file(alloc: Global, name: &Name) -> Result<Name, NoMemory>
    ensures { IfOk result (λ file. file ≡ form.tex_file name.now) }
{
    name.with_ending(alloc, b".tex")
}

pub fn aux_file(alloc: Global, name: &Name) -> Result<Name, NoMemory>
    ensures { IfOk result (λ file. file ≡ form.aux_file name.now) }
{
    name.with_ending(alloc, b".aux")
}

/// The files of the whole book.
#[derive(Drop)]
pub struct BookFiles {
    pub log: Name,
    pub dvi: Name,
    pub aux: Name,
}

impl BookFiles {
    pub fn of(alloc: Global, world: &World) -> Result<BookFiles, NoMemory>
        ensures { IfOk result (IsNamedFor world.now) }
    {
        Ok(BookFiles {
            log: world.main.with_ending(alloc, b".log")?,
            dvi: world.main.with_ending(alloc, b".dvi")?,
            aux: world.main.with_ending(alloc, b".aux")?,
        })
    }
}
