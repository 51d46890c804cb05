//! Reads what a run can depend on out of a folder.
ghost use Rattle.std.specs.Prelude.{◌≡◌, ◌≤◌, ℕ, [], IfOk, IfErr, IfSome, IsErrOf, IsTrue, OnOk, IsPermutation, false};
ghost use Rattle.std.specs.FinMap as map;
ghost use Rattle.lb_model.specs.Files.{is_book_file, book_files};
ghost use Rattle.lb_model.specs.Causes.{Rose};
ghost use Rattle.lb_files.specs.Stops.{MayStop};

use crate::outside::{Folder, FolderStop};
use lb_base::{Bytes, Moment, Name};
use lb_model::{FileMap, STEPS_AT_START, World};
use lb_values::Shared;
use std::alloc::{AllocError, Global};
use thiserror::Error;

/// What of a folder is too large: the number of its files, one of them, or all together.
#[derive(Clone, Copy, Debug, PartialEq, Eq)]
pub enum Size {
    Count,
    File,
    All,
}

/// Why a folder was not loaded.
#[derive(Clone, Copy, Debug, PartialEq, Eq, Error)]
pub enum LoadStop {
    #[error("Memory")]
    Memory,
    #[error("ReadFault")]
    ReadFault,
    #[error("TooLarge")]
    TooLarge(Size, u64),
}

impl From<AllocError> for LoadStop {
    ghost use Rattle.std.specs.Prelude.{◌≡◌};
    ghost use Rattle.lb_files.specs.declared.loading.LoadStop.TheVariants.{Memory};

    ghost from_gives = { λ _ e. e ≡ Memory };

    fn from(_e: AllocError) -> LoadStop {
        LoadStop::Memory
    }
}

impl From<FolderStop> for LoadStop {
    ghost use Rattle.std.specs.Prelude.{◌≡◌};
    ghost use Rattle.lb_files.specs.Stops.{load_stop};

    ghost from_gives = { λ stop e. e ≡ load_stop stop };

    fn from(stop: FolderStop) -> LoadStop {
        match stop {
            FolderStop::Memory => LoadStop::Memory,
            FolderStop::Failed => LoadStop::ReadFault,
        }
    }
}

/// The world of a folder: its files whose names end in `.tex`, `.aux`, `.toc` or `.tfm`, with no
/// words and at the fixed moment.
pub fn load<F: Folder>(alloc: Global, folder: &mut F) -> Result<World, LoadStop>
    ensures files { IfOk result (λ world. IfSome (F.contents folder.old) (λ files. world.files ≡ book_files files)) }
    ensures rest { IfOk result (λ world. (world.main ≡ []) × (world.prefix ≡ []) × (world.steps ≡ 50000000)) }
    ensures moment { IfOk result (λ world. world.moment ≡ Moment.FIXED) }
    ensures same { F.contents folder.new ≡ F.contents folder.old }
    ensures later { F.faults folder.old ≤ F.faults folder.new }
    ensures read_fault { IsErrOf result LoadStop.ReadFault → Rose (F.faults folder.old) (F.faults folder.new) }
    ensures unlimited { (what : Size) (n : ℕ) → IsErrOf result (LoadStop.TooLarge what n) → ⊥ }
{
    let files = read_files(alloc, folder)?;
    let main = Name::from_slice(alloc, b"")?;
    let prefix = main.clone()?;
    Ok(World {
        files,
        main,
        prefix,
        steps: STEPS_AT_START,
        moment: Moment::FIXED,
    })
}

fn read_files<F: Folder>(alloc: Global, folder: &mut F) -> Result<FileMap, LoadStop>
    ensures files { IfOk result (λ files. IfSome (F.contents folder.old) (λ told. files ≡ book_files told)) }
    ensures same { F.contents folder.new ≡ F.contents folder.old }
    ensures later { F.faults folder.old ≤ F.faults folder.new }
    ensures stop { IfErr result (MayStop (F.faults folder.old) (F.faults folder.new)) }
{
    let names = sorted_names(alloc, folder)?;
    let mut files = FileMap::new(alloc);
    for name in &names {
        take_file(alloc, folder, name, &mut files)?;
    }
    Ok(files)
}

// In the order of the names a file goes to the end of the map, which moves no other.
fn sorted_names<F: Folder>(alloc: Global, folder: &mut F) -> Result<Vec<Name>, LoadStop>
    ensures listed { IfOk result (λ names. IfSome (F.contents folder.old) (λ told. IsPermutation (map.keys told) names.items)) }
    ensures same { F.contents folder.new ≡ F.contents folder.old }
    ensures later { F.faults folder.old ≤ F.faults folder.new }
    ensures stop { IfErr result (MayStop (F.faults folder.old) (F.faults folder.new)) }
{
    let mut names = folder.names(alloc)?.into_vec();
    names.sort_unstable();
    Ok(names)
}

fn take_file<F: Folder>(
    alloc: Global,
    folder: &mut F,
    name: &Name,
    files: &mut FileMap,
) -> Result<(), LoadStop>
    ensures book { OnOk result (IsTrue (is_book_file name.now) → IfSome (F.contents folder.old) (λ told. IfSome (map.get told name.now) (λ content. files.new ≡ map.insert files.old name.now content))) }
    ensures other { OnOk result (is_book_file name.now ≡ false → files.new ≡ files.old) }
    ensures same { F.contents folder.new ≡ F.contents folder.old }
    ensures later { F.faults folder.old ≤ F.faults folder.new }
    ensures stop { IfErr result (MayStop (F.faults folder.old) (F.faults folder.new)) }
{
    if !is_book_name(name) {
        return Ok(());
    }
    let bytes = folder.read(alloc, name)?;
    put(alloc, files, name, bytes)
}

fn put(alloc: Global, files: &mut FileMap, name: &Name, bytes: Bytes) -> Result<(), LoadStop>
    ensures ok { OnOk result (files.new ≡ map.insert files.old name.now bytes) }
    ensures err { IfErr result (λ e. e ≡ LoadStop.Memory) }
{
    let bytes = Shared::new(alloc, bytes)?;
    files.insert(name.clone()?, bytes)?;
    Ok(())
}

fn is_book_name(name: &Name) -> bool
    ensures { result ≡ is_book_file name.now }
{
    let bytes = name.as_slice();
    bytes.ends_with(b".tex")
        || bytes.ends_with(b".aux")
        || bytes.ends_with(b".toc")
        || bytes.ends_with(b".tfm")
}
