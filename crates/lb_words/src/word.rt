//! A text in braces, expanded to characters.
ghost use Rattle.std.specs.Prelude.{◌≡◌, ◌++◌, ◌∷◌, [], IfOk};
ghost use Rattle.lb_model_grammar.specs.declared.given.Given.TheVariants.{Tok as AToken};
ghost use Rattle.lb_model_grammar.specs.Words.{word};
ghost use Rattle.lb_words.specs.Turns.{WordGoesOn, word_turned};

use crate::history::History;
use lb_base::{Bytes, Category, Kind, NoMemory, Tok};
use std::alloc::Global;
use std::marker::Model;

/// A text in braces that has to be characters when it is expanded, as the name of a counter, and whose opening brace is taken. It is seen as
/// the list of all that it was given, of which it keeps the codes alone.
#[derive(Drop)]
pub struct WordText {
    text: Vec<u8>,
    /// Braces that are open within the text.
    level: usize,
    past: History<Tok>,
}

impl Model for WordText {
    ghost use Rattle.std.specs.Prelude.{List, map};
    ghost use Rattle.lb_model_grammar.specs.declared.given.Given.{Given};
    ghost use Rattle.lb_model_grammar.specs.declared.given.Given.TheVariants.{Tok as AToken};
    ghost use Rattle.lb_words.specs.Standing.{WordStands};

    ghost Value = { List Given };

    ghost view = { λ w. map AToken w.past.items };

    ghost invariant = { λ w. WordStands (map AToken w.past.items) w.level w.text.items };
}

/// What a token makes of a text in braces: it goes on, or this brace has closed it, or the token is no character.
#[derive(Drop)]
pub enum WordTurn {
    Open(WordText),
    Ended(Bytes),
    Wrong(Kind),
}

impl WordText {
    /// A text of which only the opening brace came. Takes no memory.
    pub fn new(alloc: Global) -> WordText
        ensures { result ≡ [] }
    {
        WordText {
            text: Vec::new(alloc),
            level: 0,
            past: History::new(),
        }
    }

    /// Takes the next token, expanded. Braces within the text are characters of it, and each has to be closed. What is no character is
    /// `TokenMisplaced`.
    pub fn take(self, tok: &Tok) -> Result<WordTurn, NoMemory>
        ensures turn { IfOk result (λ turn. word 0 [] (self ++ AToken tok.now ∷ []) ≡ word_turned turn) }
        ensures open { IfOk result (λ turn. WordGoesOn (self ++ AToken tok.now ∷ []) turn) }
    {
        let WordText {
            mut text,
            mut level,
            past,
        } = self;
        let Tok::Char(category, code) = tok else {
            return Ok(WordTurn::Wrong(Kind::TokenMisplaced));
        };
        match category {
            Category::BeginGroup => level += 1,
            Category::EndGroup => {
                if level == 0 {
                    return Ok(WordTurn::Ended(Bytes::from_vec(text)));
                }
                level -= 1;
            }
            _ => {}
        }
        text.push(*code)?;
        let past = past.and(tok);
        Ok(WordTurn::Open(WordText { text, level, past }))
    }
}
