//! The characters from `\csname` on.
ghost use Rattle.std.specs.Prelude.{◌≡◌, ◌++◌, ◌∷◌, [], IfOk, OnOk, OnErr, map};
ghost use Rattle.lb_model_grammar.specs.declared.given.Given.TheVariants.{Tok as AToken};
ghost use Rattle.lb_model_grammar.specs.Scans.{tokens_in};
ghost use Rattle.lb_model_grammar.specs.Words.{character_code};

use crate::history::History;
use lb_base::{Name, NoMemory, Tok};
use std::alloc::Global;
use std::marker::Model;

/// The characters from `\csname` on, seen as the list of the tokens that came, of which it keeps the codes alone.
#[derive(Drop)]
pub struct NameText {
    text: Vec<u8>,
    past: History<Tok>,
}

impl Model for NameText {
    ghost use Rattle.std.specs.Prelude.{◌≡◌, List, map};
    ghost use Rattle.lb_model_grammar.specs.declared.given.Given.{Given};
    ghost use Rattle.lb_model_grammar.specs.declared.given.Given.TheVariants.{Tok as AToken};
    ghost use Rattle.lb_model_grammar.specs.Words.{character_code};

    ghost Value = { List Given };

    ghost view = { λ n. map AToken n.past.items };

    ghost invariant = { λ n. n.text.items ≡ map character_code n.past.items };
}

// The code of a character, and 0 of what is none.
fn character_code(tok: &Tok) -> u8
    ensures { result ≡ character_code tok.now }
{
    match tok {
        Tok::Char(_, code) => *code,
        _ => 0,
    }
}

impl NameText {
    /// Takes no memory.
    pub fn new(alloc: Global) -> NameText
        ensures { result ≡ [] }
    {
        NameText {
            text: Vec::new(alloc),
            past: History::new(),
        }
    }

    /// Takes the next token, expanded, which is meant to be a character: any other counts as the code 0.
    pub fn push(&mut self, tok: &Tok) -> Result<(), NoMemory>
        ensures ok { OnOk result (self.new ≡ self.old ++ AToken tok.now ∷ []) }
        ensures err { OnErr result (self.new ≡ self.old) }
    {
        self.text.push(character_code(tok))?;
        self.past = self.past.and(tok);
        Ok(())
    }

    pub fn into_name(self, alloc: Global) -> Result<Name, NoMemory>
        ensures { IfOk result (λ name. name ≡ map character_code (tokens_in self)) }
    {
        Name::from_slice(alloc, self.text.as_slice())
    }
}
