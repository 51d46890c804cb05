//! The arguments of a macro.
ghost use Rattle.std.specs.Prelude.{◌≡◌, ◌∷◌, ◌++◌, [], OnOk, OnErr, get_or};
ghost use Rattle.lb_macros.specs.Calls.{tokens_or_none};

use lb_base::{NoMemory, TokList};
use lb_values::Shared;
use smallvec::SmallVec;
use std::alloc::Global;
use std::marker::Model;

/// The arguments of a macro, of which it has at most nine, seen as a list of lists of tokens.
#[derive(Drop)]
pub struct Arguments {
    // None is not used: a small vector asks for elements with a default.
    lists: SmallVec<Option<Shared<TokList>>, 9>,
}

impl Model for Arguments {
    ghost use Rattle.std.specs.Prelude.{List};
    ghost use Rattle.lb_base.specs.declared.token.Tok.{Tok};
    ghost use Rattle.lb_macros.specs.Calls.{lists_of};

    ghost Value = { List (List Tok) };

    ghost view = { λ a. lists_of a.lists.items };
}

impl Arguments {
    /// No arguments. Takes no memory.
    pub fn new(alloc: Global) -> Arguments
        ensures { result ≡ [] }
    {
        Arguments {
            lists: SmallVec::new(alloc),
        }
    }

    /// One more argument, the last one.
    #[tactic(auto, using(crate::proofs::ArgumentLemmas::lists_of_snoc))]
    pub fn push(&mut self, list: Shared<TokList>) -> Result<(), NoMemory>
        ensures ok { OnOk result (self.new ≡ self.old ++ list ∷ []) }
        ensures err { OnErr result (self.new ≡ self.old) }
    {
        self.lists.push(Some(list))?;
        Ok(())
    }

    /// An argument, by its place from 0. Takes no memory.
    #[tactic(auto, using(crate::proofs::ArgumentLemmas::get_list))]
    pub(crate) fn get(&self, place: usize) -> Option<&Shared<TokList>>
        ensures { get_or self.now place [] ≡ tokens_or_none result }
    {
        match self.lists.as_slice().get(place) {
            Some(Some(list)) => Some(list),
            _ => None,
        }
    }
}
