//! The cells of a state and of the world.
ghost use Rattle.std.specs.Prelude.{◌≡◌, ◌++◌, ◌∷◌, IfOk, OnOk, decimal, string_bytes};
ghost use Rattle.lb_values.specs.CellTexts.{cell_key, cell_kind, cell_text, register_kind_text};

use lb_base::{Bytes, Name};
use lb_rows::Parameter;
use std::alloc::{AllocError, Global};

/// A cell of a state, or of the world. The order of cells is that of their kinds here, and then of their keys.
#[derive(Drop, PartialEq, Eq, PartialOrd, Ord, Hash)]
pub enum Cell {
    /// The meaning of a control sequence.
    Word(Name),
    /// The meaning of an active character.
    Active(u8),
    /// The category of a code.
    Cat(u8),
    /// The lower-case form of a code.
    Lc(u8),
    /// The upper-case form of a code.
    Uc(u8),
    /// The space factor of a code.
    Sf(u8),
    Count(u8),
    Dimen(u8),
    Skip(u8),
    Toks(u8),
    Boxed(u8),
    Par(Parameter),
    Counter(Name),
    /// The counters of a checkpoint.
    Counters,
    /// The counters that a step of this one resets.
    Resets(Name),
    /// The next free register of a kind.
    Fresh(RegisterKind),
    Label(Name),
    /// The stored checkpoint of a chapter.
    Checkpoint(Name),
    /// The chapters that are wanted.
    Only,
    /// Whether the text has begun.
    Body,
    /// Whether there is a table of contents.
    Toc,
    /// Front matter, main matter or back matter.
    Matter,
    /// How page numbers are printed.
    PageForm,
    PageStyle,
    /// The style of the present page.
    ThisStyle,
    LeftMark,
    RightMark,
    CurrentLabel,
    /// The present environment.
    Env,
    /// The style of the present font.
    Style,
    /// The size of the present font.
    Size,
    /// The main file's name, of the world.
    Job,
    /// What stands before the names of font files, of the world.
    Prefix,
    /// The steps that a piece may take, of the world.
    Steps,
    /// A file of the world.
    File(Name),
}

/// The kinds of registers.
#[derive(Clone, Copy, PartialEq, Eq, PartialOrd, Ord, Hash)]
pub enum RegisterKind {
    Count,
    Dimen,
    Skip,
    Toks,
    Boxed,
}

impl RegisterKind {
    /// The text of the kind.
    pub fn text(self) -> &'static str
        ensures { result.now ≡ register_kind_text self }
    {
        match self {
            RegisterKind::Count => "count",
            RegisterKind::Dimen => "dimen",
            RegisterKind::Skip => "skip",
            RegisterKind::Toks => "toks",
            RegisterKind::Boxed => "boxed",
        }
    }
}

impl Cell {
    /// The text that a report shows: the kind in lower case, and behind a space the key, where there is one. A name is shown
    /// as its bytes, a code or a register in decimal.
    pub fn text(&self, alloc: Global) -> Result<Bytes, AllocError>
        ensures { IfOk result (λ text. text ≡ cell_text self.now) }
    {
        let mut text = Bytes::from_slice(alloc, self.kind_text().as_bytes())?;
        self.push_key(alloc, &mut text)?;
        Ok(text)
    }

    fn kind_text(&self) -> &'static str
        ensures { result.now ≡ cell_kind self.now }
    {
        match self {
            Cell::Word(_) => "word",
            Cell::Active(_) => "active",
            Cell::Cat(_) => "cat",
            Cell::Lc(_) => "lc",
            Cell::Uc(_) => "uc",
            Cell::Sf(_) => "sf",
            Cell::Count(_) => "count",
            Cell::Dimen(_) => "dimen",
            Cell::Skip(_) => "skip",
            Cell::Toks(_) => "toks",
            Cell::Boxed(_) => "boxed",
            Cell::Par(_) => "par",
            Cell::Counter(_) => "counter",
            Cell::Counters => "counters",
            Cell::Resets(_) => "resets",
            Cell::Fresh(_) => "fresh",
            Cell::Label(_) => "label",
            Cell::Checkpoint(_) => "checkpoint",
            Cell::Only => "only",
            Cell::Body => "body",
            Cell::Toc => "toc",
            Cell::Matter => "matter",
            Cell::PageForm => "pageform",
            Cell::PageStyle => "pagestyle",
            Cell::ThisStyle => "thisstyle",
            Cell::LeftMark => "leftmark",
            Cell::RightMark => "rightmark",
            Cell::CurrentLabel => "currentlabel",
            Cell::Env => "env",
            Cell::Style => "style",
            Cell::Size => "size",
            Cell::Job => "job",
            Cell::Prefix => "prefix",
            Cell::Steps => "steps",
            Cell::File(_) => "file",
        }
    }

    // The key behind a space, or nothing.
    fn push_key(&self, alloc: Global, text: &mut Bytes) -> Result<(), AllocError>
        ensures { OnOk result (text.new ≡ text.old ++ cell_key self.now) }
    {
        match self {
            Cell::Word(name)
            | Cell::Counter(name)
            | Cell::Resets(name)
            | Cell::Label(name)
            | Cell::Checkpoint(name)
            | Cell::File(name) => push_word(text, name.as_slice()),
            Cell::Active(code)
            | Cell::Cat(code)
            | Cell::Lc(code)
            | Cell::Uc(code)
            | Cell::Sf(code)
            | Cell::Count(code)
            | Cell::Dimen(code)
            | Cell::Skip(code)
            | Cell::Toks(code)
            | Cell::Boxed(code) => push_word(text, decimal(alloc, *code)?.as_bytes()),
            Cell::Par(parameter) => push_word(text, parameter.name().as_bytes()),
            Cell::Fresh(kind) => push_word(text, kind.text().as_bytes()),
            _ => Ok(()),
        }
    }
}

// A word behind a space.
fn push_word(text: &mut Bytes, word: &[u8]) -> Result<(), AllocError>
    ensures { OnOk result (text.new ≡ text.old ++ 32 ∷ word.now) }
{
    text.push(b' ')?;
    text.extend_from_slice(word)
}

fn decimal(alloc: Global, code: u8) -> Result<String, AllocError>
    ensures { IfOk result (λ text. string_bytes text ≡ decimal code) }
{
    format!(in alloc; "{code}")
}

impl Clone for Cell {
    ghost is_clone = { λ cell copy. copy ≡ cell };

    fn clone(&self) -> Result<Cell, AllocError> {
        match self {
            Cell::Word(name) => Ok(Cell::Word(name.clone()?)),
            Cell::Active(code) => Ok(Cell::Active(*code)),
            Cell::Cat(code) => Ok(Cell::Cat(*code)),
            Cell::Lc(code) => Ok(Cell::Lc(*code)),
            Cell::Uc(code) => Ok(Cell::Uc(*code)),
            Cell::Sf(code) => Ok(Cell::Sf(*code)),
            Cell::Count(register) => Ok(Cell::Count(*register)),
            Cell::Dimen(register) => Ok(Cell::Dimen(*register)),
            Cell::Skip(register) => Ok(Cell::Skip(*register)),
            Cell::Toks(register) => Ok(Cell::Toks(*register)),
            Cell::Boxed(register) => Ok(Cell::Boxed(*register)),
            Cell::Par(parameter) => Ok(Cell::Par(*parameter)),
            Cell::Counter(name) => Ok(Cell::Counter(name.clone()?)),
            Cell::Counters => Ok(Cell::Counters),
            Cell::Resets(name) => Ok(Cell::Resets(name.clone()?)),
            Cell::Fresh(kind) => Ok(Cell::Fresh(*kind)),
            Cell::Label(name) => Ok(Cell::Label(name.clone()?)),
            Cell::Checkpoint(name) => Ok(Cell::Checkpoint(name.clone()?)),
            Cell::Only => Ok(Cell::Only),
            Cell::Body => Ok(Cell::Body),
            Cell::Toc => Ok(Cell::Toc),
            Cell::Matter => Ok(Cell::Matter),
            Cell::PageForm => Ok(Cell::PageForm),
            Cell::PageStyle => Ok(Cell::PageStyle),
            Cell::ThisStyle => Ok(Cell::ThisStyle),
            Cell::LeftMark => Ok(Cell::LeftMark),
            Cell::RightMark => Ok(Cell::RightMark),
            Cell::CurrentLabel => Ok(Cell::CurrentLabel),
            Cell::Env => Ok(Cell::Env),
            Cell::Style => Ok(Cell::Style),
            Cell::Size => Ok(Cell::Size),
            Cell::Job => Ok(Cell::Job),
            Cell::Prefix => Ok(Cell::Prefix),
            Cell::Steps => Ok(Cell::Steps),
            Cell::File(name) => Ok(Cell::File(name.clone()?)),
        }
    }
}
