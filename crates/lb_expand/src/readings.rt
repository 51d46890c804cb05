//! The readings that are open.
ghost use Rattle.std.specs.Prelude.{◌≡◌, ◌∷◌, ◌<◌, [], IfOk, OnOk, OnErr, MatchOption, nat_lt, false, true, length};
ghost use Rattle.lb_model_expansion.specs.Expansion.{counted, held_first, is_counted, is_held, is_held_as, wants_plain, wants_plain_as};
ghost use Rattle.lb_model_expansion.specs.Steps.{ends_pass, is_body};
ghost use Rattle.lb_expand.specs.Opens.{is_body_first, reading_of};

use lb_base::{NoMemory, Tok};
use lb_model::{Compared, Pairing, Purpose};
use lb_scan::Scan;
use lb_words::{BodyText, FileName, NameText, WordText};
use std::alloc::{AllocError, Global};
use std::marker::Model;

/// The most readings that may be open, of those that count.
const MOST_READINGS: u64 = 10_000;

/// What an open reading reads, and how far it has come.
#[derive(Drop)]
pub enum Opened {
    Scan(Scan, Purpose),
    /// A text in braces, expanded to characters.
    Word(WordText, Purpose),
    /// The characters from `\csname` to `\endcsname`.
    Name(NameText),
    /// The name of a file without braces.
    File(FileName),
    /// A text in braces, expanded.
    Body(BodyText),
    /// The codes or the categories of two tokens, of which the first may be read.
    Codes(Pairing, Option<u16>),
    /// The relation behind the left side of a comparison.
    Relation(Compared, i32),
    /// The quantity of a token that the caller asks for.
    Quantity,
    /// `\expandafter` holds this token, and takes the next.
    After(Tok),
    /// `\expandafter` holds this token, and what comes behind it is expanded.
    Held(Tok),
    /// `\the` takes what it prints.
    The,
}

/// An open reading, seen as what it reads and what it was given.
#[derive(Drop)]
pub struct OpenReading {
    opened: Opened,
}

impl Model for OpenReading {
    ghost use Rattle.lb_model.specs.Configs.{Reading};
    ghost use Rattle.lb_expand.specs.Opens.{is_body_first, reading_of};

    ghost Value = { Reading };

    ghost view = { λ r. reading_of r.opened };
}

/// The open readings, the innermost first.
#[derive(Drop)]
pub struct Readings {
    items: Vec<OpenReading>,
    // How many of them count.
    count: u64,
    // How many are of a body.
    bodies: u64,
}

impl Model for Readings {
    ghost use Rattle.std.specs.Prelude.{◌≡◌, List, reverse};
    ghost use Rattle.lb_model.specs.Configs.{Reading};
    ghost use Rattle.lb_model_expansion.specs.Expansion.{counted};
    ghost use Rattle.lb_expand.specs.Opens.{bodies_in};

    ghost Value = { List Reading };

    ghost view = { λ r. reverse r.items.items };

    ghost invariant = { λ r. (r.count ≡ counted (reverse r.items.items)) × (r.bodies ≡ bodies_in (reverse r.items.items)) };
}

fn is_counted(opened: &Opened) -> bool
    ensures { result ≡ is_counted (reading_of opened.now).kind }
{
    match opened {
        Opened::Codes(_, _) => false,
        Opened::Relation(_, _) => false,
        Opened::Body(_) => false,
        Opened::Quantity => false,
        Opened::Scan(_, _)
        | Opened::Word(_, _)
        | Opened::Name(_)
        | Opened::File(_)
        | Opened::After(_)
        | Opened::Held(_)
        | Opened::The => true,
    }
}

fn is_body(opened: &Opened) -> bool
    ensures { result ≡ is_body (reading_of opened.now).kind }
{
    match opened {
        Opened::Body(_) => true,
        Opened::Codes(_, _)
        | Opened::Relation(_, _)
        | Opened::Quantity
        | Opened::Scan(_, _)
        | Opened::Word(_, _)
        | Opened::Name(_)
        | Opened::File(_)
        | Opened::After(_)
        | Opened::Held(_)
        | Opened::The => false,
    }
}

impl OpenReading {
    // Whether the next token is wanted as it is.
    fn wants_plain(&self) -> bool
        ensures { result ≡ wants_plain_as self.now.kind self.now.given }
    {
        match &self.opened {
            Opened::Scan(scan, _) => scan.wants_plain(),
            Opened::Word(_, _) => false,
            Opened::Name(_) => false,
            Opened::File(_) => false,
            Opened::Body(_) => false,
            Opened::Codes(_, _) => false,
            Opened::Relation(_, _) => false,
            Opened::Quantity => false,
            Opened::After(_) => false,
            Opened::Held(_) => false,
            Opened::The => false,
        }
    }

    // Whether it is an `\expandafter` that has its second token expanded.
    fn is_held(&self) -> bool
        ensures { result ≡ is_held_as self.now.kind }
    {
        match &self.opened {
            Opened::Held(_) => true,
            Opened::Scan(_, _) => false,
            Opened::Word(_, _) => false,
            Opened::Name(_) => false,
            Opened::File(_) => false,
            Opened::Body(_) => false,
            Opened::Codes(_, _) => false,
            Opened::Relation(_, _) => false,
            Opened::Quantity => false,
            Opened::After(_) => false,
            Opened::The => false,
        }
    }
}

impl Readings {
    /// No open reading. Takes no memory.
    pub fn new(alloc: Global) -> Readings
        ensures { result ≡ [] }
    {
        Readings {
            items: Vec::new(alloc),
            count: 0,
            bodies: 0,
        }
    }

    /// Whether none is open. Takes no memory.
    #[inline(always)]
    pub fn is_empty(&self) -> bool
        ensures none { result ≡ true → self.now ≡ [] }
        ensures some { result ≡ false → 0 < length self.now }
    {
        self.items.is_empty()
    }

    /// Whether one more may open that counts.
    pub fn has_room(&self) -> bool
        ensures { result ≡ nat_lt (counted self.now) 10000 }
    {
        self.count < MOST_READINGS
    }

    /// Whether the end of a text may be passed, which it may not where a body is read. Takes no memory.
    #[inline(always)]
    #[tactic(auto, using(crate::proofs::BodyLemmas::ends_pass_by))]
    pub fn ends_pass(&self) -> bool
        ensures { result ≡ ends_pass self.now }
    {
        self.bodies == 0
    }

    /// One more reading, the innermost.
    pub fn put(&mut self, opened: Opened) -> Result<(), NoMemory>
        ensures ok { OnOk result (self.new ≡ reading_of opened ∷ self.old) }
        ensures err { OnErr result (self.new ≡ self.old) }
    {
        let counts = is_counted(&opened);
        let body = is_body(&opened);
        if self.count == u64::MAX || self.bodies == u64::MAX {
            return Err(AllocError);
        }
        self.items.push(OpenReading { opened })?;
        if counts {
            self.count += 1;
        }
        if body {
            self.bodies += 1;
        }
        Ok(())
    }

    /// The innermost reading, which is taken. Takes no memory.
    pub fn take(&mut self) -> Option<Opened>
        ensures { MatchOption result ((self.old ≡ []) × (self.new ≡ [])) (λ opened. self.old ≡ reading_of opened ∷ self.new) }
    {
        let OpenReading { opened } = self.items.pop()?;
        if is_counted(&opened) {
            self.count = self.count.saturating_sub(1);
        }
        if is_body(&opened) {
            self.bodies = self.bodies.saturating_sub(1);
        }
        Some(opened)
    }

    /// The innermost reading, where that is of a body, which is taken. After want of memory the innermost reading is lost.
    pub fn take_body(&mut self) -> Result<Option<BodyText>, NoMemory>
        ensures { IfOk result (λ body. MatchOption body ((self.new ≡ self.old) × (is_body_first self.old ≡ false)) (λ text. self.old ≡ reading_of
            (Opened.Body text) ∷ self.new)) }
    {
        match self.take() {
            None => Ok(None),
            Some(Opened::Body(text)) => Ok(Some(text)),
            Some(other) => {
                self.put(other)?;
                Ok(None)
            }
        }
    }

    /// Whether the innermost reading wants its next token as it is. Takes no memory.
    #[inline(always)]
    pub fn wants_plain(&self) -> bool
        ensures { result ≡ wants_plain self.now }
    {
        match self.items.last() {
            Some(reading) => reading.wants_plain(),
            None => false,
        }
    }

    /// Whether the innermost reading is an `\expandafter` that has its second token expanded. Takes no memory.
    #[inline(always)]
    pub fn is_held(&self) -> bool
        ensures { result ≡ is_held self.now }
    {
        match self.items.last() {
            Some(reading) => reading.is_held(),
            None => false,
        }
    }

    /// The innermost reading, where that is an `\expandafter` that waits for its second token, has this token expanded from now on. After want
    /// of memory that reading is lost.
    pub fn hold(&mut self) -> Result<(), NoMemory>
        ensures { OnOk result (self.new ≡ held_first self.old) }
    {
        match self.take() {
            None => Ok(()),
            Some(Opened::After(tok)) => self.put(Opened::Held(tok)),
            Some(other) => self.put(other),
        }
    }

    /// The token of the innermost reading, where that is an `\expandafter` that has its second token expanded; the reading is taken. After
    /// want of memory that reading is lost.
    pub fn take_held(&mut self) -> Result<Option<Tok>, NoMemory>
        ensures { IfOk result (λ tok. MatchOption tok ((self.new ≡ self.old) × (is_held self.old ≡ false)) (λ t. self.old ≡ reading_of (Opened.Held t) ∷
            self.new)) }
    {
        if !self.is_held() {
            return Ok(None);
        }
        match self.take() {
            None => Ok(None),
            Some(Opened::Held(tok)) => Ok(Some(tok)),
            Some(other) => {
                self.put(other)?;
                Ok(None)
            }
        }
    }
}
