//! The body of `\edef`.
ghost use Rattle.std.specs.Prelude.{◌≡◌, ◌+◌, ◌≤◌, ◌++◌, ◌∷◌, [], IfOk, OnOk, OnErr, List, length, map};
ghost use Rattle.lb_base.specs.declared.token.Tok.{Tok as ATok};
ghost use Rattle.lb_model_grammar.specs.declared.given.Given.{Given as AGiven};
ghost use Rattle.lb_model_grammar.specs.declared.given.Given.TheVariants.{Tok as AToken};
ghost use Rattle.lb_model_grammar.specs.Words.{body};
ghost use Rattle.lb_words.specs.Doubled.{doubled};
ghost use Rattle.lb_words.specs.Standing.{body_with, levels_in};
ghost use Rattle.lb_words.specs.Rest.{without_rest};
ghost use Rattle.lb_words.specs.Turns.{BodyGoesOn, body_turned};

use crate::history::History;
use lb_base::{Category, Kind, NoMemory, Tok, TokList};
use std::alloc::Global;
use std::marker::Model;

/// How far a body has come: so many braces are open within it, or it is closed or wrong, by the tokens of a register.
#[derive(Clone, Copy)]
pub(crate) enum Stage {
    Open(usize),
    Ended,
    Wrong(Kind),
}

/// An expanded text whose opening brace is taken, as the body of `\edef`, seen as the list of all that it was given.
#[derive(Drop)]
pub struct BodyText {
    toks: TokList,
    stage: Stage,
    past: History<Tok>,
}

impl Model for BodyText {
    ghost use Rattle.std.specs.Prelude.{List, map};
    ghost use Rattle.lb_model_grammar.specs.declared.given.Given.{Given};
    ghost use Rattle.lb_model_grammar.specs.declared.given.Given.TheVariants.{Tok as AToken};
    ghost use Rattle.lb_words.specs.Standing.{BodyStands};

    ghost Value = { List Given };

    ghost view = { λ b. map AToken b.past.items };

    ghost invariant = { λ b. BodyStands (map AToken b.past.items) b.stage b.toks };
}

/// What a token makes of a body: it goes on, or it is closed, or it is wrong.
#[derive(Drop)]
pub enum BodyTurn {
    Open(BodyText),
    Ended(TokList),
    Wrong(Kind),
}

/// A body has no more tokens than this.
const LIMIT: usize = 1_000_000;

// The stage behind a token, where so many braces are open and so many tokens are there: the token is of the body where that is open.
fn next_stage(level: usize, count: usize, tok: &Tok) -> Stage
    requires { level ≤ count }
    ensures next { (toks : List ATok) → length toks ≡ count → (more : List AGiven) →
        body level toks (AToken tok.now ∷ more) ≡ body_with result toks tok.now more }
    ensures at_most { levels_in result ≤ count + 1 }
{
    if level == 0 && matches!(tok, Tok::Char(Category::EndGroup, _)) {
        return Stage::Ended;
    }
    if count >= LIMIT {
        return Stage::Wrong(Kind::DepthLimit);
    }
    match tok {
        Tok::Char(Category::BeginGroup, _) => Stage::Open(level + 1),
        Tok::Char(Category::EndGroup, _) => Stage::Open(level - 1),
        _ => Stage::Open(level),
    }
}

impl BodyText {
    /// A body of which only the opening brace came. Takes no memory.
    pub fn new(alloc: Global) -> BodyText
        ensures { result ≡ [] }
    {
        BodyText {
            toks: TokList::new(alloc),
            stage: Stage::Open(0),
            past: History::new(),
        }
    }

    // Where memory is wanting the body stays as it was.
    fn push(&mut self, tok: Tok) -> Result<(), NoMemory>
        ensures ok { OnOk result (self.new ≡ self.old ++ AToken tok ∷ []) }
        ensures err { OnErr result (self.new ≡ self.old) }
    {
        let past = self.past.and(&tok);
        if let Stage::Open(level) = self.stage {
            let stage = next_stage(level, self.toks.len(), &tok);
            if let Stage::Open(_) = stage {
                self.toks.push(tok)?;
            }
            self.stage = stage;
        }
        self.past = past;
        Ok(())
    }

    // What the body means.
    fn turn(self) -> BodyTurn
        ensures turn { without_rest (body 0 [] self) ≡ body_turned result }
        ensures open { BodyGoesOn self result }
    {
        match self.stage {
            Stage::Open(_) => BodyTurn::Open(self),
            Stage::Ended => BodyTurn::Ended(self.toks),
            Stage::Wrong(kind) => BodyTurn::Wrong(kind),
        }
    }

    /// Takes the next token, expanded. Each brace that is opened in the body has to be closed there, and the brace that closes the body is
    /// not of it. Over a million tokens are a `DepthLimit`. Where the tokens of a register have closed the body, or were wrong, that is the
    /// answer, and what stands behind them is let go.
    pub fn take(mut self, tok: Tok) -> Result<BodyTurn, NoMemory>
        ensures turn { IfOk result (λ turn. without_rest (body 0 [] (self ++ AToken tok ∷ [])) ≡ body_turned turn) }
        ensures open { IfOk result (λ turn. BodyGoesOn (self ++ AToken tok ∷ []) turn) }
    {
        self.push(tok)?;
        Ok(self.turn())
    }

    /// Takes the tokens of a register, which are not expanded, and in which each parameter character counts twice. What they make of the
    /// body is said at the next token.
    pub fn take_all(mut self, toks: &[Tok]) -> Result<BodyText, NoMemory>
        ensures { IfOk result (λ text. text ≡ self ++ map AToken (doubled toks.now)) }
    {
        for tok in toks {
            if let Tok::Char(Category::Parameter, code) = tok {
                self.push(Tok::Char(Category::Parameter, *code))?;
            }
            self.push(tok.clone()?)?;
        }
        Ok(self)
    }
}
