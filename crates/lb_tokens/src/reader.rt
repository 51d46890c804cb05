//! Lines that are read token by token (TeXbook, chapter 8; tex.web, part 24, sections 343 to 356).
ghost use Rattle.std.specs.Prelude.{◌≡◌, ◌<◌, ◌≤◌, List, Some, None, true, false, ℕ, drop, length, IfOk, IfErr, OnOk, OnErr};
ghost use Rattle.std.specs.Option.{option_map};
ghost use Rattle.lb_model.specs.declared.reading.ReaderState.TheVariants.{NewLine};
ghost use Rattle.lb_model.specs.Settings.{Setting};
ghost use Rattle.lb_model.specs.Told.{Told};
ghost use Rattle.lb_model.specs.Tokens.{Character, categories, is_skipped, next_token, noted_codes, read_of_end, taken_at};
ghost use Rattle.lb_tokens.specs.Parts.{MayStopAtInvalid, character_of, is_escape, is_plain, is_token, is_word_space, taken_from};

use crate::control::control_sequence;
use crate::examined::{Examined, examine};
use crate::step::Step;
use lb_base::{Bytes, Category, Kind, Name, NoMemory, Stop, Tok};
use lb_model::{Cells, Read, ReaderState};
use std::alloc::Global;

/// A line, the place of it that is read next, in bytes, and the state of its reader.
#[derive(Drop)]
pub struct LineReader {
    pub line: Bytes,
    pub at: usize,
    pub state: ReaderState,
}

impl LineReader {
    /// A line that is read from its beginning. Takes no memory.
    pub fn of(line: Bytes) -> LineReader
        ensures { result ≡ record { line = line; at = 0; state = NewLine } }
    {
        LineReader {
            line,
            at: 0,
            state: ReaderState::NewLine,
        }
    }
}

/// The next token of a line, or its end where none is left. The fault is Invalid, at an invalid character; where there is a fault or no
/// memory, the reader is as it was.
#[inline(always)]
pub fn next<C: Cells>(alloc: Global, reader: &mut LineReader, cats: &mut C) -> Result<Read, Stop>
    requires { reader.old.at ≤ length reader.old.line }
    ensures told { Told C.Cells cats.new cats.old }
    ensures read { IfOk result (λ r. (p : Setting) → C.agrees cats.new p → (next_token (categories p (C.meaning cats.old p)) reader.old.state (drop reader.old.at reader.old.line)).read ≡ Some r) }
    ensures state { OnOk result ((p : Setting) → C.agrees cats.new p → (next_token (categories p (C.meaning cats.old p)) reader.old.state (drop reader.old.at reader.old.line)).state ≡ reader.new.state) }
    ensures rest { OnOk result ((p : Setting) → C.agrees cats.new p → (next_token (categories p (C.meaning cats.old p)) reader.old.state (drop reader.old.at reader.old.line)).rest ≡ drop reader.new.at reader.new.line) }
    ensures notes { OnOk result ((p : Setting) → C.agrees cats.new p → C.notes cats.new ≡ option_map (noted_codes (next_token (categories p (C.meaning cats.old p)) reader.old.state (drop reader.old.at reader.old.line)).examined) (C.notes cats.old)) }
    ensures invalid { IfErr result (λ stop. MayStopAtInvalid stop ((p : Setting) → C.agrees cats.new p → (next_token (categories p (C.meaning cats.old p)) reader.old.state (drop reader.old.at reader.old.line)).read ≡ None)) }
    ensures notes_on_invalid { IfErr result (λ stop. MayStopAtInvalid stop ((p : Setting) → C.agrees cats.new p → C.notes cats.new ≡ option_map (noted_codes (next_token (categories p (C.meaning cats.old p)) reader.old.state (drop reader.old.at reader.old.line)).examined) (C.notes cats.old))) }
    ensures same { OnErr result (reader.new ≡ reader.old) }
    ensures line { reader.new.line ≡ reader.old.line }
    ensures within { reader.new.at ≤ length reader.new.line }
    ensures grows { IfOk result (λ r. is_token r ≡ true → reader.old.at < reader.new.at) }
{
    if reader.at == reader.line.len() {
        return Ok(Read::EndOfLine);
    }
    let first = examine(reader.line.as_slice(), reader.at, cats)?;
    if is_plain(first.category) {
        reader.at = first.after;
        reader.state = ReaderState::MidLine;
        return Ok(Read::Tok(Tok::Char(first.category, first.code)));
    }
    if is_word_space(reader.state, first.category) {
        reader.at = first.after;
        reader.state = ReaderState::SkipBlanks;
        return Ok(Read::Tok(Tok::Char(Category::Space, b' ')));
    }
    read_from(alloc, reader, first.code, first.category, first.after, cats)
}

// What is read at a character of a line, of the code and category given, behind which the line goes on at `after`. It stands out of
// line, and takes the character in registers, so that the characters that are read as they stand are not held up.
#[inline(never)]
fn read_from<C: Cells>(
    alloc: Global,
    reader: &mut LineReader,
    code: u8,
    category: Category,
    after: usize,
    cats: &mut C,
) -> Result<Read, Stop>
    requires place { reader.old.at ≤ length reader.old.line }
    requires behind { after ≤ length reader.old.line }
    ensures told { Told C.Cells cats.new cats.old }
    ensures read { IfOk result (λ r. (p : Setting) → C.agrees cats.new p → (taken_from (categories p (C.meaning cats.old p)) reader.old.state (record { code = code; category = category; after = after }) reader.old.line).read ≡ Some r) }
    ensures state { OnOk result ((p : Setting) → C.agrees cats.new p → (taken_from (categories p (C.meaning cats.old p)) reader.old.state (record { code = code; category = category; after = after }) reader.old.line).state ≡ reader.new.state) }
    ensures rest { OnOk result ((p : Setting) → C.agrees cats.new p → (taken_from (categories p (C.meaning cats.old p)) reader.old.state (record { code = code; category = category; after = after }) reader.old.line).rest ≡ drop reader.new.at reader.new.line) }
    ensures notes { OnOk result ((p : Setting) → C.agrees cats.new p → C.notes cats.new ≡ option_map (noted_codes (taken_from (categories p (C.meaning cats.old p)) reader.old.state (record { code = code; category = category; after = after }) reader.old.line).examined) (C.notes cats.old)) }
    ensures invalid { IfErr result (λ stop. MayStopAtInvalid stop ((p : Setting) → C.agrees cats.new p → (taken_from (categories p (C.meaning cats.old p)) reader.old.state (record { code = code; category = category; after = after }) reader.old.line).read ≡ None)) }
    ensures notes_on_invalid { IfErr result (λ stop. MayStopAtInvalid stop ((p : Setting) → C.agrees cats.new p → C.notes cats.new ≡ option_map (noted_codes (taken_from (categories p (C.meaning cats.old p)) reader.old.state (record { code = code; category = category; after = after }) reader.old.line).examined) (C.notes cats.old))) }
    ensures same { OnErr result (reader.new ≡ reader.old) }
    ensures line { reader.new.line ≡ reader.old.line }
    ensures within { reader.new.at ≤ length reader.new.line }
    ensures goes_on { OnOk result (after ≤ reader.new.at) }
{
    let first = Examined {
        code,
        category,
        after,
    };
    let step = step_from(alloc, reader.line.as_slice(), first, reader.state, cats)?;
    reader.at = step.at;
    reader.state = step.state;
    Ok(step.read)
}

// What is read of a line at a character that was examined.
#[inline(always)]
fn step_from<C: Cells>(
    alloc: Global,
    line: &[u8],
    first: Examined,
    state: ReaderState,
    cats: &mut C,
) -> Result<Step, Stop>
    requires { first.after ≤ length line.now }
    ensures told { Told C.Cells cats.new cats.old }
    ensures read { IfOk result (λ s. (p : Setting) → C.agrees cats.new p → (taken_from (categories p (C.meaning cats.old p)) state first line.now).read ≡ Some s.read) }
    ensures state { IfOk result (λ s. (p : Setting) → C.agrees cats.new p → (taken_from (categories p (C.meaning cats.old p)) state first line.now).state ≡ s.state) }
    ensures rest { IfOk result (λ s. (p : Setting) → C.agrees cats.new p → (taken_from (categories p (C.meaning cats.old p)) state first line.now).rest ≡ drop s.at line.now) }
    ensures notes { OnOk result ((p : Setting) → C.agrees cats.new p → C.notes cats.new ≡ option_map (noted_codes (taken_from (categories p (C.meaning cats.old p)) state first line.now).examined) (C.notes cats.old)) }
    ensures invalid { IfErr result (λ stop. MayStopAtInvalid stop ((p : Setting) → C.agrees cats.new p → (taken_from (categories p (C.meaning cats.old p)) state first line.now).read ≡ None)) }
    ensures notes_on_invalid { IfErr result (λ stop. MayStopAtInvalid stop ((p : Setting) → C.agrees cats.new p → C.notes cats.new ≡ option_map (noted_codes (taken_from (categories p (C.meaning cats.old p)) state first line.now).examined) (C.notes cats.old))) }
    ensures goes_on { IfOk result (λ s. first.after ≤ s.at) }
    ensures within { IfOk result (λ s. s.at ≤ length line.now) }
{
    if is_escape(first.category) {
        return Ok(control_sequence(alloc, line, first.after, cats)?);
    }
    if !is_skipped(state, first.category) {
        return step_at(alloc, line, state, first);
    }
    step(alloc, line, first.after, state, cats)
}

// What is read of a line from a place on.
#[inline(always)]
fn step<C: Cells>(
    alloc: Global,
    line: &[u8],
    from: usize,
    state: ReaderState,
    cats: &mut C,
) -> Result<Step, Stop>
    requires { from ≤ length line.now }
    ensures told { Told C.Cells cats.new cats.old }
    ensures read { IfOk result (λ s. (p : Setting) → C.agrees cats.new p → (next_token (categories p (C.meaning cats.old p)) state (drop from line.now)).read ≡ Some s.read) }
    ensures state { IfOk result (λ s. (p : Setting) → C.agrees cats.new p → (next_token (categories p (C.meaning cats.old p)) state (drop from line.now)).state ≡ s.state) }
    ensures rest { IfOk result (λ s. (p : Setting) → C.agrees cats.new p → (next_token (categories p (C.meaning cats.old p)) state (drop from line.now)).rest ≡ drop s.at line.now) }
    ensures notes { OnOk result ((p : Setting) → C.agrees cats.new p → C.notes cats.new ≡ option_map (noted_codes (next_token (categories p (C.meaning cats.old p)) state (drop from line.now)).examined) (C.notes cats.old)) }
    ensures invalid { IfErr result (λ stop. MayStopAtInvalid stop ((p : Setting) → C.agrees cats.new p → (next_token (categories p (C.meaning cats.old p)) state (drop from line.now)).read ≡ None)) }
    ensures notes_on_invalid { IfErr result (λ stop. MayStopAtInvalid stop ((p : Setting) → C.agrees cats.new p → C.notes cats.new ≡ option_map (noted_codes (next_token (categories p (C.meaning cats.old p)) state (drop from line.now)).examined) (C.notes cats.old))) }
    ensures within { IfOk result (λ s. s.at ≤ length line.now) }
    ensures goes_on { IfOk result (λ s. from ≤ s.at) }
{
    let mut at = from;
    while at < line.len() {
        let next = examine(line, at, cats)?;
        if is_escape(next.category) {
            return Ok(control_sequence(alloc, line, next.after, cats)?);
        }
        if !is_skipped(state, next.category) {
            return step_at(alloc, line, state, next);
        }
        at = next.after;
    }
    Ok(Step {
        read: Read::EndOfLine,
        at,
        state,
    })
}

// What is read at a character that is not skipped and begins no control sequence.
#[inline(always)]
fn step_at(alloc: Global, line: &[u8], state: ReaderState, next: Examined) -> Result<Step, Stop>
    requires plain { is_escape next.category ≡ false }
    requires within { next.after ≤ length line.now }
    ensures read { IfOk result (λ s. (examined : List ℕ) (behind : List Character) → (taken_at next.category state (character_of next line.now examined) behind).read ≡ Some s.read) }
    ensures state { IfOk result (λ s. (examined : List ℕ) (behind : List Character) → (taken_at next.category state (character_of next line.now examined) behind).state ≡ s.state) }
    ensures rest { IfOk result (λ s. (examined : List ℕ) (behind : List Character) → (taken_at next.category state (character_of next line.now examined) behind).rest ≡ drop s.at line.now) }
    ensures invalid { IfErr result (λ stop. MayStopAtInvalid stop ((examined : List ℕ) (behind : List Character) → (taken_at next.category state (character_of next line.now examined) behind).read ≡ None)) }
    ensures goes_on { IfOk result (λ s. next.after ≤ s.at) }
    ensures within { IfOk result (λ s. s.at ≤ length line.now) }
{
    match next.category {
        Category::EndOfLine => Ok(last_step(end_of_line(alloc, state)?, line, state)),
        Category::Comment => Ok(last_step(Read::EndOfLine, line, state)),
        Category::Invalid => Err(Stop::Fault(Kind::Invalid)),
        Category::Space => Ok(Step {
            read: Read::Tok(Tok::Char(Category::Space, b' ')),
            at: next.after,
            state: ReaderState::SkipBlanks,
        }),
        Category::Active => Ok(Step {
            read: Read::Tok(Tok::Active(next.code)),
            at: next.after,
            state: ReaderState::MidLine,
        }),
        category => Ok(Step {
            read: Read::Tok(Tok::Char(category, next.code)),
            at: next.after,
            state: ReaderState::MidLine,
        }),
    }
}

// What is read where the rest of the line is dropped.
#[inline(always)]
fn last_step(read: Read, line: &[u8], state: ReaderState) -> Step
    ensures { result ≡ record { read = read; at = length line.now; state = state } }
{
    Step {
        read,
        at: line.len(),
        state,
    }
}

// What the character that ends a line gives.
fn end_of_line(alloc: Global, state: ReaderState) -> Result<Read, NoMemory>
    ensures { IfOk result (λ r. r ≡ read_of_end state) }
{
    match state {
        ReaderState::NewLine => Ok(Read::Tok(Tok::Word(Name::from_slice(alloc, b"par")?))),
        ReaderState::MidLine => Ok(Read::Tok(Tok::Char(Category::Space, b' '))),
        ReaderState::SkipBlanks => Ok(Read::EndOfLine),
    }
}

// Ignored characters are skipped, and spaces at the beginning of a line and behind other spaces.
#[inline(always)]
fn is_skipped(state: ReaderState, category: Category) -> bool
    ensures { result ≡ is_skipped state category }
{
    match (state, category) {
        (_, Category::Ignored) => true,
        (ReaderState::NewLine | ReaderState::SkipBlanks, Category::Space) => true,
        _ => false,
    }
}

#[inline(always)]
fn is_escape(category: Category) -> bool
    ensures { result ≡ is_escape category }
{
    matches!(category, Category::Escape)
}

// Letters and other characters are read as they stand.
#[inline(always)]
fn is_plain(category: Category) -> bool
    ensures { result ≡ is_plain category }
{
    matches!(category, Category::Letter | Category::Other)
}

// A space behind another character than a space is read.
#[inline(always)]
fn is_word_space(state: ReaderState, category: Category) -> bool
    ensures { result ≡ is_word_space state category }
{
    matches!((state, category), (ReaderState::MidLine, Category::Space))
}
