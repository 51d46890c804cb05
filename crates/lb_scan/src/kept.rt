//! What a scan keeps of what it was given, since it may have to be given back.
ghost use Rattle.std.specs.Prelude.{◌≡◌, ◌++◌, ◌∷◌, [], OnOk, OnErr};
ghost use Rattle.lb_model_grammar.specs.Scans.{tokens_in};
ghost use Rattle.lb_scan.specs.Stages.{kept};

use crate::history::History;
use crate::stage::Keeps;
use lb_base::{NoMemory, TokList};
use lb_model_grammar::Given;
use std::alloc::Global;
use std::marker::Model;

/// What is kept, seen as a list. The tokens in it alone take memory.
#[derive(Drop)]
pub(crate) struct Kept {
    alloc: Global,
    toks: TokList,
    past: History<Given>,
}

impl Model for Kept {
    ghost use Rattle.std.specs.Prelude.{◌≡◌, List};
    ghost use Rattle.lb_model_grammar.specs.declared.given.Given.{Given};
    ghost use Rattle.lb_model_grammar.specs.Scans.{tokens_in};

    ghost Value = { List Given };

    ghost view = { λ k. k.past.items };

    ghost invariant = { λ k. k.toks ≡ tokens_in k.past.items };
}

impl Kept {
    pub(crate) fn new(alloc: Global) -> Kept
        ensures { result ≡ [] }
    {
        Kept {
            alloc,
            toks: TokList::new(alloc),
            past: History::new(),
        }
    }

    fn clear(&mut self)
        ensures { self.new ≡ [] }
    {
        if self.toks.len() > 0 {
            self.toks = TokList::new(self.alloc);
        }
        self.past = History::new();
    }

    fn push(&mut self, given: Given) -> Result<(), NoMemory>
        ensures ok { OnOk result (self.new ≡ self.old ++ given ∷ []) }
        ensures err { OnErr result (self.new ≡ self.old) }
    {
        let past = self.past.and(&given);
        if let Given::Tok(tok) = given {
            self.toks.push(tok)?;
        }
        self.past = past;
        Ok(())
    }

    // Keeps one thing alone.
    fn hold(&mut self, given: Given) -> Result<(), NoMemory>
        ensures ok { OnOk result (self.new ≡ given ∷ []) }
        ensures err { OnErr result (self.new ≡ self.old) }
    {
        let mut last = Kept::new(self.alloc);
        last.push(given)?;
        *self = last;
        Ok(())
    }

    pub(crate) fn turn(&mut self, keeps: Keeps, given: Given) -> Result<(), NoMemory>
        ensures ok { OnOk result (self.new ≡ kept keeps self.old given) }
        ensures err { OnErr result (self.new ≡ self.old) }
    {
        match keeps {
            Keeps::All => self.push(given),
            Keeps::Nothing => {
                self.clear();
                Ok(())
            }
            Keeps::Last => self.hold(given),
        }
    }

    /// The tokens that are kept. Takes no memory.
    pub(crate) fn into_tokens(self) -> TokList
        ensures { result ≡ tokens_in self }
    {
        let Kept {
            alloc: _alloc,
            toks,
            past: _past,
        } = self;
        toks
    }

    /// No tokens. Takes no memory.
    pub(crate) fn into_none(self) -> TokList
        ensures { result ≡ [] }
    {
        let Kept {
            alloc,
            toks: _toks,
            past: _past,
        } = self;
        TokList::new(alloc)
    }
}
