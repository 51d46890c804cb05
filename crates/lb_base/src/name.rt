//! Names of files, fonts and control sequences.
ghost use Rattle.std.specs.Prelude.{◌≡◌, ◌++◌, Some, refl, length, IfOk, nat_eq};
ghost use Rattle.std.proofs.Common.{rules};
ghost use Rattle.std.specs.Ordering.{nat_cmp};
ghost use Rattle.std.specs.Hash as fed;
ghost use Rattle.std.specs.Cmp.{partial_equiv_from_equiv};
ghost use Rattle.std.specs.Cmp.Lexicographic.{slice_cmp, nat_list_eq_equiv, nat_list_cmp_total, texts_ties, texts_po};
ghost use Rattle.std.specs.Cmp.Rules.{hashing};
ghost use lib.Pointwise.{pointwise};

use std::alloc::{AllocError, Global};
use std::cmp::Ordering;
use std::hash::{Hash, Hasher};
use std::marker::Model;
use std::sync::ArcSlice;

/// A name, which contracts see as the list of its bytes. A clone shares the bytes and copies none,
/// so that a token or a font's name costs eight bytes wherever it stands.
#[derive(Drop)]
pub struct Name {
    bytes: ArcSlice<u8>,
}

impl Model for Name {
    ghost use Rattle.std.specs.Prelude.{List, ℕ};
    ghost use Rattle.std.specs.Arc.{arc_slice_items};

    ghost Value = { List ℕ };

    ghost view = { λ name. arc_slice_items name.bytes };
}

impl Name {
    pub fn from_slice(alloc: Global, bytes: &[u8]) -> Result<Name, AllocError>
        ensures { IfOk result (λ name. name ≡ bytes.now) }
    {
        let bytes = ArcSlice::from_slice(alloc, bytes)?;
        Ok(Name { bytes })
    }

    /// This name and an ending behind it, as a chapter's name and `.tex`.
    pub fn with_ending(&self, alloc: Global, ending: &[u8]) -> Result<Name, AllocError>
        ensures { IfOk result (λ name. name ≡ self.now ++ ending.now) }
    {
        let mut bytes = Vec::from_slice(alloc, self.as_slice())?;
        bytes.extend_from_slice(ending)?;
        Name::from_slice(alloc, bytes.as_slice())
    }

    pub fn as_slice(&self) -> &[u8]
        ensures { result.now ≡ self.now }
    {
        self.bytes.as_slice()
    }

    pub fn len(&self) -> usize
        ensures { result ≡ length self.now }
    {
        self.bytes.len()
    }
}

impl Clone for Name {
    ghost is_clone = { λ name copy. copy ≡ name };

    fn clone(&self) -> Result<Name, AllocError> {
        Ok(Name {
            bytes: self.bytes.clone()?,
        })
    }
}

impl PartialEq for Name {
    ghost eq = { pointwise nat_eq };

    ghost laws = { partial_equiv_from_equiv nat_list_eq_equiv };

    fn eq(&self, other: &Name) -> bool {
        self.as_slice() == other.as_slice()
    }
}

impl Eq for Name {
    ghost laws = { nat_list_eq_equiv };
}

impl PartialOrd for Name {
    ghost partial_cmp = { λ x y. Some (slice_cmp nat_cmp x y) };

    ghost laws = { texts_po };

    fn partial_cmp(&self, other: &Name) -> Option<Ordering> {
        Some(self.cmp(other))
    }
}

impl Ord for Name {
    ghost cmp = { slice_cmp nat_cmp };

    ghost total = { nat_list_cmp_total };

    ghost matches_partial_cmp = { λ x y. refl };

    ghost matches_eq = { texts_ties };

    fn cmp(&self, other: &Name) -> Ordering {
        self.as_slice().cmp(&other.as_slice())
    }
}

impl Hash for Name {
    ghost hash_input = { fed.slice fed.u8 };

    ghost respects_eq = { Prim.search (hashing, rules) };

    fn hash<H: Hasher>(&self, state: &mut H) {
        self.as_slice().hash(state);
    }
}
