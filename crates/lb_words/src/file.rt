//! The name of a file without braces.
ghost use Rattle.std.specs.Prelude.{◌≡◌, ◌++◌, ◌∷◌, [], IfOk};
ghost use Rattle.lb_model_grammar.specs.Words.{file_name};
ghost use Rattle.lb_words.specs.Turns.{FileGoesOn, file_turned};

use crate::history::History;
use lb_base::{Bytes, Category, NoMemory, Tok};
use lb_model_grammar::Given;
use std::alloc::Global;
use std::marker::Model;

/// The name of a file without braces, which goes up to a space or to what is no character (tex.web, section 526). It is seen as the list of
/// all that it was given, of which it keeps the codes alone.
#[derive(Drop)]
pub struct FileName {
    text: Vec<u8>,
    past: History<Given>,
}

impl Model for FileName {
    ghost use Rattle.std.specs.Prelude.{List};
    ghost use Rattle.lb_model_grammar.specs.declared.given.Given.{Given};
    ghost use Rattle.lb_words.specs.Standing.{FileStands};

    ghost Value = { List Given };

    ghost view = { λ f. f.past.items };

    ghost invariant = { λ f. FileStands f.past.items f.text.items };
}

/// What comes of the name of a file: it goes on, or a space has ended it, which is of it, or it ends before this, which is not of it.
#[derive(Drop)]
pub enum FileTurn {
    Open(FileName),
    Ended(Bytes),
    EndedBefore(Bytes, Given),
}

impl FileName {
    /// Takes no memory.
    pub fn new(alloc: Global) -> FileName
        ensures { result ≡ [] }
    {
        FileName {
            text: Vec::new(alloc),
            past: History::new(),
        }
    }

    /// Takes the next token, expanded, or the end of the piece.
    pub fn take(self, given: Given) -> Result<FileTurn, NoMemory>
        ensures turn { IfOk result (λ turn. file_name [] (self ++ given ∷ []) ≡ file_turned turn) }
        ensures open { IfOk result (λ turn. FileGoesOn (self ++ given ∷ []) turn) }
    {
        let FileName { mut text, past } = self;
        let past = past.and(&given);
        match given {
            Given::Tok(Tok::Char(Category::Space, _)) => Ok(FileTurn::Ended(Bytes::from_vec(text))),
            Given::Tok(Tok::Char(_, code)) => {
                text.push(code)?;
                Ok(FileTurn::Open(FileName { text, past }))
            }
            other => Ok(FileTurn::EndedBefore(Bytes::from_vec(text), other)),
        }
    }
}
