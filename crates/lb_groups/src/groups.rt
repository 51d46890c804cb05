//! The open groups.
ghost use Rattle.std.specs.Prelude.{◌≡◌, ℕ, [], ◌∷◌, OnOk, OnErr, MatchOption, false, length};
ghost use Rattle.lb_groups.specs.Open.{HasRoom, innermost, is_open, one_more};

use lb_base::NoMemory;
use lb_model::{Group, GroupKind};
use std::alloc::Global;
use std::marker::Model;

/// The open groups, the innermost first: their kinds, and how many saves were made in each.
#[derive(Drop)]
pub struct Groups {
    inner: Group,
    around: Vec<Group>,
}

impl Model for Groups {
    ghost use Rattle.std.specs.Prelude.{List, reverse};
    ghost use Rattle.lb_model.specs.declared.group.Group.{Group};
    ghost use Rattle.lb_groups.specs.Open.{groups_of};

    ghost Value = { List Group };

    ghost view = { λ g. groups_of g.inner (reverse g.around.items) };
}

impl Groups {
    /// No open group. Takes no memory.
    pub fn new(alloc: Global) -> Groups
        ensures { result ≡ [] }
    {
        Groups {
            inner: Group {
                kind: GroupKind::Simple,
                saves: 0,
            },
            around: Vec::new(alloc),
        }
    }

    /// Whether a group is open.
    pub fn is_open(&self) -> bool
        ensures { result ≡ is_open self.now }
    {
        !self.around.is_empty()
    }

    /// How many groups are open.
    pub fn count(&self) -> u64
        ensures { result ≡ length self.now }
    {
        self.around.len() as u64
    }

    /// The kind of the innermost group, if one is open.
    pub fn innermost(&self) -> Option<GroupKind>
        ensures { result ≡ innermost self.now }
    {
        if self.around.is_empty() {
            return None;
        }
        Some(self.inner.kind)
    }

    /// Whether the innermost group has all the saves that can be counted.
    pub(crate) fn is_full(&self) -> bool
        ensures { result ≡ false → HasRoom self.now }
    {
        !(self.inner.saves < u64::MAX)
    }

    /// Opens a group, in which no save was made yet.
    pub fn open(&mut self, kind: GroupKind) -> Result<(), NoMemory>
        ensures ok { OnOk result (self.new ≡ record { kind = kind; saves = 0 } ∷ self.old) }
        ensures err { OnErr result (self.new ≡ self.old) }
    {
        self.around.push(self.inner)?;
        self.inner = Group { kind, saves: 0 };
        Ok(())
    }

    /// Counts one more save of the innermost group.
    pub(crate) fn count_save(&mut self)
        requires { HasRoom self.old }
        ensures { self.new ≡ one_more self.old }
    {
        self.inner.saves = self.inner.saves.saturating_add(1);
    }

    /// The innermost group, which is closed.
    pub(crate) fn close(&mut self) -> Option<Group>
        ensures { MatchOption result ((self.old ≡ []) × (self.new ≡ [])) (λ group. self.old ≡ group ∷ self.new) }
    {
        let group = self.inner;
        self.inner = self.around.pop()?;
        Some(group)
    }
}
