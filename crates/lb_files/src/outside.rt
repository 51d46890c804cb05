//! The traits of what lies outside a run. Each counts its faults, in a number that never falls, and
//! answers a fault only where that number has risen. Each may tell what it holds, and then says what
//! a call does to that.
ghost use Rattle.std.specs.Prelude.{◌≡◌, ◌≤◌, ℕ, List, [], ◌∷◌, ◌++◌, Option, IfOk, IfSome, OnOk, OnErr, IsErrOf, IsPermutation, Some};
ghost use Rattle.std.specs.FinMap as map;
ghost use Rattle.lb_model.specs.Files.{Files};
ghost use Rattle.lb_model.specs.Journal.{Entry, Begun, appended, Adds, AddsPrefix, Prints, PrintsPrefix};
ghost use Rattle.lb_model.specs.Causes.{Rose, HasCause};

use lb_base::{Bytes, Name, NameList};
use std::alloc::{AllocError, Global};

/// A call of an outlet or a printer did not do all that it was to do.
#[derive(Clone, Copy, Debug, PartialEq, Eq)]
pub struct Failed;

/// Why a folder gave nothing.
#[derive(Clone, Copy, Debug, PartialEq, Eq)]
pub enum FolderStop {
    Memory,
    Failed,
}

impl From<AllocError> for FolderStop {
    ghost use Rattle.std.specs.Prelude.{◌≡◌};
    ghost use Rattle.lb_files.specs.declared.outside.FolderStop.TheVariants.{Memory};

    ghost from_gives = { λ _ e. e ≡ Memory };

    fn from(_e: AllocError) -> FolderStop {
        FolderStop::Memory
    }
}

/// A folder of files. Its calls leave what it has as it was.
pub trait Folder {
    /// Its files, where it tells them.
    ghost contents: { Self → Option Files };

    /// How often it has failed.
    ghost faults: { Self → ℕ };

    /// The names of its files, each once.
    fn names(&mut self, alloc: Global) -> Result<NameList, FolderStop>
        ensures listed { IfOk result (λ names. IfSome (contents self.old) (λ files. IsPermutation (map.keys files) names)) }
        ensures same { contents self.new ≡ contents self.old }
        ensures later { faults self.old ≤ faults self.new }
        ensures failed { IsErrOf result FolderStop.Failed → Rose (faults self.old) (faults self.new) };

    /// The bytes of a file.
    fn read(&mut self, alloc: Global, name: &Name) -> Result<Bytes, FolderStop>
        ensures bytes { IfOk result (λ bytes. IfSome (contents self.old) (λ files. IfSome (map.get files name.now) (λ content. bytes ≡ content))) }
        ensures same { contents self.new ≡ contents self.old }
        ensures later { faults self.old ≤ faults self.new }
        ensures failed { IsErrOf result FolderStop.Failed → Rose (faults self.old) (faults self.new) };
}

/// Where files are written. A file is begun, which empties it, and then gets bytes at its end.
pub trait Outlet {
    /// What was done, in order, where it tells it.
    ghost journal: { Self → Option (List Entry) };

    /// How often it has failed.
    ghost faults: { Self → ℕ };

    /// Begins a file. A begin that failed may have taken place or not.
    fn begin(&mut self, file: &Name) -> Result<(), Failed>
        ensures begun { OnOk result (Adds (journal self.old) (journal self.new) (Begun file.now ∷ [])) }
        ensures err { OnErr result (AddsPrefix (journal self.old) (journal self.new) (Begun file.now ∷ [])) }
        ensures cause { HasCause (faults self.old) (faults self.new) result };

    /// Puts bytes at the end of a file. An append that failed may have put some of the first of them.
    fn append(&mut self, file: &Name, bytes: &[u8]) -> Result<(), Failed>
        ensures appended { OnOk result (Adds (journal self.old) (journal self.new) (appended file.now bytes.now)) }
        ensures err { OnErr result (AddsPrefix (journal self.old) (journal self.new) (appended file.now bytes.now)) }
        ensures cause { HasCause (faults self.old) (faults self.new) result };
}

/// Where lines are said.
pub trait Said {
    /// The bytes that were said, where it tells them.
    ghost bytes: { Self → Option (List ℕ) };

    /// How often it has failed.
    ghost faults: { Self → ℕ };

    /// Says the line and a line feed after it. A call that failed may have said some of the first of these bytes.
    fn say(&mut self, line: &[u8]) -> Result<(), Failed>
        ensures said { OnOk result (Prints (bytes self.old) (bytes self.new) (line.now ++ 10 ∷ [])) }
        ensures err { OnErr result (PrintsPrefix (bytes self.old) (bytes self.new) (line.now ++ 10 ∷ [])) }
        ensures cause { HasCause (faults self.old) (faults self.new) result };
}
