//! The files that a run reads.
ghost use Rattle.std.specs.Prelude.{◌≡◌, IfOk, IfErr, OnOk, OnErr};
ghost use Rattle.std.specs.Option.{option_copied};
ghost use Rattle.std.specs.FinMap as map;
ghost use Rattle.lb_model.specs.Files.{name_cmp};
ghost use Rattle.lb_model.specs.Places.{IsAt, IsGapFor};

use lb_base::{Bytes, Name};
use lb_values::Shared;
use std::alloc::{AllocError, Global};
use std::marker::Model;

/// Files by name, in the order of the names. Contracts see a finite map from names to bytes. A file's bytes are shared by all
/// that hold them.
#[derive(Drop)]
pub struct FileMap {
    files: Vec<(Name, Shared<Bytes>)>,
}

impl Model for FileMap {
    ghost use Rattle.std.specs.FinMap as map;
    ghost use Rattle.std.specs.Coded.{coded_ℕ, coded_list};
    ghost use Rattle.std.specs.Prelude.{IsTrue};
    ghost use Rattle.lb_model.specs.Files.{Files, name_cmp};

    ghost Value = { Files };

    ghost coded = { map.code (coded_list coded_ℕ) (coded_list coded_ℕ) };

    ghost view = { λ m. map.from_sorted m.files.items };

    ghost invariant = { λ m. IsTrue (map.is_sorted name_cmp m.files.items) };
}

impl FileMap {
    pub fn new(alloc: Global) -> FileMap
        ensures { result ≡ map.empty }
    {
        FileMap {
            files: Vec::new(alloc),
        }
    }

    /// The bytes of a file. Takes no memory, and as many steps as the number of files has bits.
    pub fn get(&self, name: &Name) -> Option<&Bytes>
        ensures { option_copied result ≡ map.get self.now name.now }
    {
        Some(self.shared(name)?.get())
    }

    /// The bytes of a file, as `get` has them, to be held by more than one.
    pub fn shared(&self, name: &Name) -> Option<&Shared<Bytes>>
        ensures { option_copied result ≡ map.get self.now name.now }
    {
        match self.search(name) {
            Ok(at) => Some(&self.files[at].1),
            Err(_) => None,
        }
    }

    /// The files in the order of their names. Takes no memory.
    pub fn as_slice(&self) -> &[(Name, Shared<Bytes>)]
        ensures { result.now ≡ map.entries self.now }
    {
        self.files.as_slice()
    }

    /// Puts a file into the map, in place of one of that name. Files that come in the order of their
    /// names cost no more than their search.
    pub fn insert(&mut self, name: Name, bytes: Shared<Bytes>) -> Result<(), AllocError>
        ensures ok { OnOk result (self.new ≡ map.insert self.old name bytes) }
        ensures err { OnErr result (self.new ≡ self.old) }
    {
        match self.search(&name) {
            Ok(at) => self.files[at].1 = bytes,
            Err(at) => self.files.insert(at, (name, bytes))?,
        }
        Ok(())
    }

    // Where the file of this name is, or where it would go.
    fn search(&self, name: &Name) -> Result<usize, usize>
        ensures found { IfOk result (IsAt name_cmp (map.entries self.now) name.now) }
        ensures absent { IfErr result (IsGapFor name_cmp (map.entries self.now) name.now) }
    {
        self.files.binary_search_by(|file| file.0.cmp(name))
    }
}
