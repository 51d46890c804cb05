//! The lists that are open.
ghost use Rattle.std.specs.Prelude.{◌≡◌, ◌∷◌, [], OnOk, OnErr, length};
ghost use Rattle.lb_model_sections.specs.Lists.{closed, innermost, list_closed, marked_lists, numbered_lists};
ghost use Rattle.lb_lists.specs.Answers.{as_stop};

use lb_base::{Kind, NoMemory, Stop};
use lb_model_sections::Display;
use std::alloc::Global;
use std::marker::Model;

/// The lists of items and displayed paragraphs that are open, which contracts see as the list of their kinds, the innermost first. At most six are
/// open.
#[derive(Drop)]
pub struct Lists {
    kinds: Vec<Display>,
}

impl Model for Lists {
    ghost use Rattle.std.specs.Prelude.{List};
    ghost use Rattle.lb_model_sections.specs.declared.display.Display.{Display};

    ghost Value = { List Display };

    ghost view = { λ lists. lists.kinds.items };
}

impl Lists {
    /// No list is open. Takes no memory.
    pub fn new(alloc: Global) -> Lists
        ensures { result ≡ [] }
    {
        Lists {
            kinds: Vec::new(alloc),
        }
    }

    /// How many lists are open.
    pub fn depth(&self) -> usize
        ensures { result ≡ length self.now }
    {
        self.kinds.len()
    }

    /// The kind of the innermost list, if one is open.
    pub fn innermost(&self) -> Option<Display>
        ensures { result ≡ innermost self.now }
    {
        self.kinds.first().copied()
    }

    /// How many open lists have marks.
    pub fn marked(&self) -> usize
        ensures { result ≡ marked_lists self.now }
    {
        self.kinds
            .iter()
            .filter(|kind| matches!(kind, Display::Itemize))
            .count()
    }

    /// How many open lists are numbered.
    pub fn numbered(&self) -> usize
        ensures { result ≡ numbered_lists self.now }
    {
        self.kinds
            .iter()
            .filter(|kind| matches!(kind, Display::Enumerate))
            .count()
    }

    // One more list inside the others.
    pub(crate) fn open(&mut self, kind: Display) -> Result<(), NoMemory>
        ensures ok { OnOk result (self.new ≡ kind ∷ self.old) }
        ensures err { OnErr result (self.new ≡ self.old) }
    {
        self.kinds.insert(0, kind)?;
        Ok(())
    }

    /// Closes the innermost list, as `\@endlist` does (source2e, file ltlists). `ItemOutside` exactly where none is open; then none is closed.
    /// Takes no memory.
    pub fn close(&mut self) -> Result<(), Stop>
        ensures answer { result ≡ as_stop (list_closed self.old) }
        ensures lists { self.new ≡ closed self.old }
    {
        if self.kinds.len() == 0 {
            return Err(Stop::Fault(Kind::ItemOutside));
        }
        let _ = self.kinds.remove(0);
        Ok(())
    }
}
