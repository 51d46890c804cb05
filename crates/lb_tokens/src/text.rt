//! What is left of the text of a file (TeXbook, chapter 8).
ghost use Rattle.std.specs.Prelude.{◌≡◌, ◌≤◌, ◌<◌, ◌+◌, ◌-◌, ◌^◌, ℕ, List, [], IfOk, IfErr, IfSome, OnOk, OnErr, cond, drop, take, length, Some, None, true, false};
ghost use Rattle.std.specs.Option.{option_map};
ghost use Rattle.lb_base.specs.declared.fault.Kind.TheVariants.{Invalid as TheInvalid};
ghost use Rattle.lb_model.specs.Settings.{Setting};
ghost use Rattle.lb_model.specs.Sources.{FileText, text_of};
ghost use Rattle.lb_model.specs.Stops.{MayStopAt};
ghost use Rattle.lb_model.specs.Told.{Told};
ghost use Rattle.lb_model.specs.Tokens.{categories, cut_lines};
ghost use Rattle.lb_tokens.specs.Texts.{LineGave, TextGave, begun, behind_line, first_line, read_of};

use crate::lines::{line_at, source_line};
use crate::places::set_place;
use crate::reader::{LineReader, next};
use lb_base::{Bytes, Name, NoMemory, Stop, Tok};
use lb_model::{Cells, Place, Read};
use lb_values::Shared;
use std::alloc::Global;
use std::marker::Model;

/// What is left of a text: its present line with a reader, and the bytes behind it, which are shared. Contracts see the rest of the line and
/// the lines after it.
#[derive(Drop)]
pub struct Text {
    file: Name,
    line: u64,
    reader: LineReader,
    bytes: Shared<Bytes>,
    at: usize,
    end: usize,
}

impl Model for Text {
    ghost use Rattle.std.specs.Prelude.{◌≤◌, ◌<◌, ◌+◌, ◌-◌, ◌^◌, drop, take, length};
    ghost use Rattle.lb_model.specs.Sources.{FileText};
    ghost use Rattle.lb_model.specs.Tokens.{cut_lines};

    ghost Value = { FileText };

    ghost view = { λ t. record { file = t.file; line = t.line; state = t.reader.state; rest = drop t.reader.at t.reader.line; later = cut_lines (drop t.at (take t.end t.bytes)) } };

    ghost invariant = { λ t. (t.reader.at ≤ length t.reader.line) × (t.end ≤ length t.bytes) × (t.line + (t.end - t.at) < 2 ^ 64) };
}

impl Text {
    /// The bytes from one place to another of a text, from the beginning, where their first line has this number.
    pub fn of(
        alloc: Global,
        file: Name,
        line: u64,
        bytes: Shared<Bytes>,
        from: usize,
        to: usize,
    ) -> Result<Text, NoMemory>
        requires order { from ≤ to }
        requires within { to ≤ length bytes }
        requires room { line + (to - from) < 2 ^ 64 }
        ensures { IfOk result (λ t. t ≡ text_of file line (drop from (take to bytes))) }
    {
        let (first, at) = first_from(alloc, &bytes.get().as_slice()[..to], from)?;
        Ok(Text {
            file,
            line,
            reader: LineReader::of(first),
            bytes,
            at,
            end: to,
        })
    }

    /// The next token of the text, or none where it ends before one. The fault is `Invalid`, at an invalid character, which stays where it
    /// is.
    #[inline(always)]
    pub fn next<C: Cells>(&mut self, alloc: Global, cats: &mut C) -> Result<Option<Tok>, Stop>
        ensures told { Told C.Cells cats.new cats.old }
        ensures gave { IfOk result (λ tok. (p : Setting) → C.agrees cats.new p → TextGave (categories p (C.meaning cats.old p)) (read_of tok) self.old self.new (C.notes cats.old) (C.notes cats.new)) }
        ensures fault { IfErr result (λ e. MayStopAt e (λ k. (k ≡ TheInvalid) × ((p : Setting) → C.agrees cats.new p → TextGave (categories p (C.meaning cats.old p)) None self.old self.new (C.notes cats.old) (C.notes cats.new)))) }
        ensures file { self.new.file ≡ self.old.file }
    {
        'lines: loop {
            match self.read_line(alloc, cats)? {
                Read::Tok(tok) => return Ok(Some(tok)),
                Read::EndOfLine => {
                    if !self.go_on(alloc)? {
                        return Ok(None);
                    }
                }
            }
        }
    }

    /// Takes the place of the text for that of a token. The name of a file is kept where it is the same, so that a token costs no clone.
    #[inline(always)]
    pub fn place_at(&self, place: &mut Option<Place>) -> Result<(), NoMemory>
        ensures ok { OnOk result (place.new ≡ Some (record { file = self.now.file; line = self.now.line })) }
        ensures err { OnErr result (place.new ≡ place.old) }
    {
        set_place(place, &self.file, self.line)
    }

    /// The text ends after its present line. Takes no memory.
    #[tactic(auto, using(crate::proofs::TextLemmas::past_end))]
    pub fn end_early(&mut self)
        ensures { self.new ≡ record self.old { later = [] } }
    {
        self.at = self.end;
    }

    // The next token of the present line, or its end.
    #[inline(always)]
    fn read_line<C: Cells>(&mut self, alloc: Global, cats: &mut C) -> Result<Read, Stop>
        ensures told { Told C.Cells cats.new cats.old }
        ensures gave { IfOk result (λ r. (p : Setting) → C.agrees cats.new p → LineGave (categories p (C.meaning cats.old p)) (Some r) self.old self.new (C.notes cats.old) (C.notes cats.new)) }
        ensures fault { IfErr result (λ e. MayStopAt e (λ k. (k ≡ TheInvalid) × ((p : Setting) → C.agrees cats.new p → LineGave (categories p (C.meaning cats.old p)) None self.old self.new (C.notes cats.old) (C.notes cats.new)))) }
        ensures same { self.new ≡ record self.old { state = self.new.state; rest = self.new.rest } }
    {
        next(alloc, &mut self.reader, cats)
    }

    // Goes on to the line after the present one, or answers false where there is none.
    #[inline(never)]
    fn go_on(&mut self, alloc: Global) -> Result<bool, NoMemory>
        ensures next { IfOk result (λ there. behind_line self.old ≡ cond there (Some self.new) None) }
        ensures kept { IfOk result (λ there. there ≡ false → self.new ≡ self.old) }
        ensures err { OnErr result (self.new ≡ self.old) }
    {
        let text = &self.bytes.get().as_slice()[..self.end];
        let Some((line, at)) = line_from(alloc, text, self.at)? else {
            return Ok(false);
        };
        self.line += 1;
        self.reader = LineReader::of(line);
        self.at = at;
        Ok(true)
    }
}

// The first line of a text from a place on, as it is read, and where the next one begins; an empty line where the text ends there.
#[tactic(auto, using(crate::proofs::TextLemmas::begins, crate::proofs::TextLemmas::begins_none))]
fn first_from(alloc: Global, text: &[u8], from: usize) -> Result<(Bytes, usize), NoMemory>
    ensures line { IfOk result (λ l. (file : List ℕ) (line : ℕ) → text_of file line (drop from text.now) ≡ begun file line (l.0, cut_lines (drop l.1 text.now))) }
    ensures place { IfOk result (λ l. from ≤ l.1) }
{
    match line_from(alloc, text, from)? {
        Some(first) => Ok(first),
        None => Ok((Bytes::new(alloc), from)),
    }
}

// The line that begins at a place of a text, as it is read, and where the next one begins; none where the text ends there.
#[tactic(auto, using(crate::proofs::TextLemmas::no_line))]
fn line_from(alloc: Global, text: &[u8], at: usize) -> Result<Option<(Bytes, usize)>, NoMemory>
    ensures line { IfOk result (λ line. first_line (cut_lines (drop at text.now)) ≡ option_map (λ l. (l.0, cut_lines (drop l.1 text.now))) line) }
    ensures place { IfOk result (λ line. IfSome line (λ l. (at < l.1) × (l.1 ≤ length text.now))) }
{
    match line_at(text, at) {
        None => Ok(None),
        Some((end, next)) => Ok(Some((source_line(alloc, &text[at..end])?, next))),
    }
}
