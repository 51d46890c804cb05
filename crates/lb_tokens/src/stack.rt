//! Tokens that are pending, without copies of what is shared.
ghost use Rattle.std.specs.Prelude.{◌≡◌, ◌∷◌, ◌++◌, [], IfOk, OnOk, OnErr, MatchOption, reverse};
ghost use Rattle.lb_model_grammar.specs.Arguments.{substituted};
ghost use Rattle.lb_tokens.specs.Stacks.{flat};

use lb_base::{NoMemory, Tok};
use lb_macros::{Call, Piece, Rest};
use std::alloc::Global;
use std::marker::Model;

/// A token, the rest of a list, or a macro that is under way.
#[derive(Drop)]
pub enum Entry {
    One(Tok),
    Rest(Rest),
    Call(Box<Call>),
}

/// Pending tokens, seen as their list with the next one first. Lists and bodies stand once in memory, however often they are read.
#[derive(Drop)]
pub struct TokStack {
    entries: Vec<Entry>,
}

impl Model for TokStack {
    ghost use Rattle.std.specs.Prelude.{List, reverse};
    ghost use Rattle.lb_base.specs.declared.token.Tok.{Tok};

    ghost Value = { List Tok };

    ghost use Rattle.lb_tokens.specs.Stacks.{flat};

    ghost view = { λ s. flat (reverse s.entries.items) };
}

impl TokStack {
    /// No tokens. Takes no memory.
    pub fn new(alloc: Global) -> TokStack
        ensures { result ≡ [] }
    {
        TokStack {
            entries: Vec::new(alloc),
        }
    }

    /// The next token, which is taken. It allocates nothing; after an error nothing is left.
    #[inline(always)]
    pub fn pop(&mut self) -> Result<Option<Tok>, NoMemory>
        ensures ok { IfOk result (λ tok. MatchOption tok ((self.old ≡ []) × (self.new ≡ [])) (λ t. self.old ≡ t ∷ self.new)) }
        ensures err { OnErr result (self.new ≡ []) }
    {
        if self.entries.is_empty() {
            return Ok(None);
        }
        match pop_from(&mut self.entries) {
            Ok(tok) => Ok(tok),
            Err(error) => {
                self.entries.clear();
                Err(error)
            }
        }
    }

    /// Puts a token before the rest.
    pub fn push(&mut self, tok: Tok) -> Result<(), NoMemory>
        ensures ok { OnOk result (self.new ≡ tok ∷ self.old) }
        ensures err { OnErr result (self.new ≡ self.old) }
    {
        self.entries.push(Entry::One(tok))?;
        Ok(())
    }

    /// Puts the tokens of a list before the rest, without a copy of them.
    pub fn push_list(&mut self, rest: Rest) -> Result<(), NoMemory>
        ensures ok { OnOk result (self.new ≡ rest ++ self.old) }
        ensures err { OnErr result (self.new ≡ self.old) }
    {
        self.entries.push(Entry::Rest(rest))?;
        Ok(())
    }

    /// Puts a macro's body with its arguments before the rest, without a copy of them.
    pub fn push_call(&mut self, call: Call, alloc: Global) -> Result<(), NoMemory>
        ensures ok { OnOk result (self.new ≡ substituted call.arguments call.body ++ self.old) }
        ensures err { OnErr result (self.new ≡ self.old) }
    {
        self.entries.push(Entry::Call(Box::new(alloc, call)?))?;
        Ok(())
    }

    /// Drops the tokens. Takes no memory.
    pub fn clear(&mut self)
        ensures { self.new ≡ [] }
    {
        self.entries.clear();
    }
}

// The next token of a stack of entries. A list or a body that is used up goes.
#[inline(never)]
fn pop_from(entries: &mut Vec<Entry>) -> Result<Option<Tok>, NoMemory>
    ensures { IfOk result (λ tok. MatchOption tok ((flat (reverse entries.old.items) ≡ []) × (flat (reverse entries.new.items) ≡ [])) (λ t. flat (reverse entries.old.items) ≡ t ∷ flat (reverse entries.new.items))) }
{
    'entries: loop {
        match entries.pop() {
            None => return Ok(None),
            Some(Entry::One(tok)) => return Ok(Some(tok)),
            Some(Entry::Rest(rest)) => {
                let mut rest = rest;
                if let Some(tok) = rest.next()? {
                    entries.push(Entry::Rest(rest))?;
                    return Ok(Some(tok));
                }
            }
            Some(Entry::Call(call)) => {
                let mut call = call;
                match call.next()? {
                    Piece::End => {}
                    Piece::Nothing => entries.push(Entry::Call(call))?,
                    Piece::Argument(rest) => {
                        entries.push(Entry::Call(call))?;
                        entries.push(Entry::Rest(rest))?;
                    }
                    Piece::Tok(tok) => {
                        entries.push(Entry::Call(call))?;
                        return Ok(Some(tok));
                    }
                }
            }
        }
    }
}
