//! The semantic nest: the lists that are open, with the word under construction (tex.web, part 16).
ghost use Rattle.std.specs.Prelude.{◌≡◌, ◌∷◌, ◌++◌, [], None, OnOk, false, ℕ};
ghost use Rattle.lb_model_nest.specs.declared.nest.ListKind.TheVariants as list;
ghost use Rattle.lb_model_nest.specs.Wholes.{entered, executed, new_level, on};
ghost use Rattle.lb_nest.specs.Works.{Works};

use crate::entries::EntryList;
use crate::level::OpenList;
use crate::stack::Stack;
use lb_base::{NoMemory, Node, TokList};
use lb_fonts::{Font, Shelf};
use lb_model_nest::{Display, ListKind, Went};
use lb_page::PageList;
use lb_text::Word;
use lb_values::Shared;
use std::alloc::Global;
use std::mem;

/// The innermost open list, and the lists around it; the word under construction, with its font; the list of pages; for each open group
/// the tokens that come after it; the open lists of items and displayed paragraphs; whether the next paragraph has no indent; the fonts
/// that were loaded; and what is added to the journal and not written yet.
#[derive(Drop)]
pub struct Nest {
    pub alloc: Global,
    pub level: OpenList,
    pub around: Stack<OpenList>,
    pub word: Word,
    pub font: Option<Shared<Font>>,
    pub page: PageList,
    pub after: Stack<TokList>,
    pub lists: Stack<Display>,
    pub plain_next: bool,
    pub shelf: Shelf,
    pub entries: EntryList,
}

impl Nest {
    /// The list of pages alone, without a node. Takes no memory.
    pub fn new(alloc: Global) -> Nest
        ensures { result ≡ record { alloc = alloc; level = new_level list.Page; around = []; word = []; font = None; page = []; after = []; lists = []; plain_next = false; shelf = []; entries = [] } }
    {
        Nest {
            alloc,
            level: OpenList::new(alloc, ListKind::Page),
            around: Stack::new(alloc),
            word: Word::new(alloc),
            font: None,
            page: PageList::new(alloc),
            after: Stack::new(alloc),
            lists: Stack::new(alloc),
            plain_next: false,
            shelf: Shelf::new(alloc),
            entries: EntryList::new(alloc),
        }
    }

    /// What the innermost list is made into.
    pub(crate) fn kind(&self) -> ListKind
        ensures { result ≡ self.now.level.kind }
    {
        self.level.kind
    }

    /// Puts a node behind those of the innermost list.
    pub(crate) fn push(&mut self, node: Node) -> Result<(), NoMemory>
        ensures pushed { OnOk result (self.new ≡ record self.old { level = record self.old.level { nodes = self.old.level.nodes ++ node ∷ [] } }) }
        ensures shelf { self.new.shelf ≡ self.old.shelf }
    {
        self.level.nodes.push(node)?;
        Ok(())
    }
}

/// Opens a list inside the others.
pub fn enter(nest: &mut Nest, kind: ListKind) -> Result<Went, NoMemory>
    ensures works { (left : ℕ) → Works (λ w. on (entered kind w)) executed result left nest.new left nest.old }
{
    let around = mem::replace(&mut nest.level, OpenList::new(nest.alloc, kind));
    nest.around.push(around)?;
    Ok(Went::On)
}
