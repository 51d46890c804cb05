//! Files page by page.
ghost use Rattle.std.specs.Prelude.{◌≡◌, ◌≤◌, ◌<◌, ◌+◌, ◌++◌, length, pos, IfOk, OnOk, OnErr, IsErr, IsErrOf, IsTrue, ◌^◌, ◌||◌, nat_lt};
ghost use Rattle.lb_model_paper.specs.Dvi.{after_page, closing, fonts_through, IsDrawable, next_bytes, padding, page_bytes, passes_limit, postamble, progress_at_start};
ghost use Rattle.lb_dvi.specs.Fonts.{AreUsable};

use crate::font::push_definitions;
use crate::mark::draw_page;
use crate::number::{push_half, push_signed, push_unit, push_word};
use lb_base::{Bytes, FontId, NoMemory, PageCode};
use std::alloc::{AllocError, AllocFailed, Global};
use std::marker::Model;
use thiserror::Error;

const POST: u8 = 248;

const POST_POST: u8 = 249;

const VERSION: u8 = 2;

const PADDING: u8 = 223;

/// The length of the bytes before the first page.
const OPENING_LENGTH: u32 = 42;

/// The most pages that a file has.
const MOST_PAGES: u32 = 65_535;

/// The most bytes up to the end of a file's last page.
const MOST_BYTES: u32 = 1 << 30;

/// Why a page is not written: there is not enough memory, or the file would have more than 65535
/// pages, 60 fonts or 2^30 bytes.
#[derive(Clone, Copy, Debug, PartialEq, Eq, Error)]
pub enum DviStop {
    #[error("Memory")]
    Memory,
    #[error("PageLimit")]
    PageLimit,
}

impl From<AllocError> for DviStop {
    ghost use Rattle.lb_dvi.specs.declared.writer.DviStop.TheVariants.{Memory};

    ghost from_gives = { λ _ e. e ≡ Memory };

    fn from(_error: AllocError) -> DviStop {
        DviStop::Memory
    }
}

impl<T: Drop> From<AllocFailed<T>> for DviStop {
    ghost use Rattle.lb_dvi.specs.declared.writer.DviStop.TheVariants.{Memory};

    ghost from_gives = { λ _ e. e ≡ Memory };

    fn from(_error: AllocFailed<T>) -> DviStop {
        DviStop::Memory
    }
}

/// What is known of a file after some pages. Lengths are in scaled points.
#[derive(Drop)]
pub struct Writer {
    pages: u32,
    /// Where the file ends.
    place: u32,
    /// Where the last page begins, or -1.
    last: i32,
    fonts: Vec<FontId>,
    /// The largest height and width of a page.
    height: i32,
    width: i32,
}

impl Model for Writer {
    ghost use Rattle.std.specs.Prelude.{◌≤◌};
    ghost use Rattle.lb_model_paper.specs.Dvi.{Progress};
    ghost use Rattle.lb_dvi.specs.Fonts.{AreUsable};

    ghost Value = { Progress };

    ghost view = { λ w. record { pages = w.pages; place = w.place; last = w.last; fonts = w.fonts.items; height = w.height; width = w.width } };

    ghost invariant = { λ w. (w.pages ≤ 65535) × (w.place ≤ 1073741824) × AreUsable w.fonts.items };
}

impl Writer {
    /// A file without pages. Takes no memory.
    pub fn new(alloc: Global) -> Writer
        ensures { result ≡ progress_at_start }
    {
        Writer {
            pages: 0,
            place: OPENING_LENGTH,
            last: -1,
            fonts: Vec::new(alloc),
            height: 0,
            width: 0,
        }
    }

    /// How many pages there are.
    pub fn pages(&self) -> u32
        ensures { result ≡ self.now.pages }
    {
        self.pages
    }

    /// Where the file ends.
    pub fn place(&self) -> u32
        ensures { result ≡ self.now.place }
    {
        self.place
    }

    /// The bytes of the next page. After an error the writer is as it was.
    pub fn page(&mut self, alloc: Global, code: &PageCode) -> Result<Bytes, DviStop>
        requires { IsDrawable code.now }
        ensures bytes { IfOk result (λ bytes. bytes ≡ next_bytes self.old code.now) }
        ensures after { OnOk result (self.new ≡ after_page self.old code.now) }
        ensures err { OnErr result (self.new ≡ self.old) }
        ensures limit_only { IsErrOf result DviStop.PageLimit → IsTrue (passes_limit self.old code.now) }
        ensures limit { IsTrue (passes_limit self.old code.now) → IsErr result }
    {
        if self.pages >= MOST_PAGES {
            return Err(DviStop::PageLimit);
        }
        let out = draw_next(alloc, self.place, self.last, &mut self.fonts, code)?;
        self.pages += 1;
        self.last = self.place as i32;
        self.place += out.len() as u32;
        self.height = self.height.max(code.height);
        self.width = self.width.max(code.width);
        Ok(Bytes::from_vec(out))
    }

    /// The bytes after the last page.
    pub fn finish(self, alloc: Global) -> Result<Bytes, NoMemory>
        ensures { IfOk result (λ bytes. bytes ≡ postamble self) }
    {
        let place = self.place;
        let mut out = Vec::new(alloc);
        self.push_closing(&mut out)?;
        let end = place as usize + out.len() + 6;
        out.push(POST_POST)?;
        push_word(&mut out, place)?;
        out.push(VERSION)?;
        push_padding(&mut out, end)?;
        Ok(Bytes::from_vec(out))
    }

    /// Where the last page is, the unit of length, the largest page, how deep the stack was, how
    /// many pages there are, and all fonts.
    fn push_closing(&self, out: &mut Vec<u8>) -> Result<(), AllocError>
        ensures { OnOk result (out.new.items ≡ out.old.items ++ closing self.now) }
    {
        out.push(POST)?;
        push_signed(out, self.last)?;
        push_unit(out)?;
        push_signed(out, self.height)?;
        push_signed(out, self.width)?;
        push_half(out, 0)?;
        push_half(out, self.pages as u16)?;
        push_definitions(out, &self.fonts)?;
        Ok(())
    }
}

/// The bytes of a page that begins at `place`, if it keeps within the limits. After an error the
/// fonts are as they were.
fn draw_next(
    alloc: Global,
    place: u32,
    last: i32,
    fonts: &mut Vec<FontId>,
    code: &PageCode,
) -> Result<Vec<u8>, DviStop>
    requires drawable { IsDrawable code.now }
    requires usable { AreUsable fonts.old.items }
    requires place { place ≤ 1073741824 }
    ensures bytes { IfOk result (λ out. out.items ≡ page_bytes last fonts.old.items code.now) }
    ensures short { IfOk result (λ out. place + length out.items ≤ 1073741824) }
    ensures fonts { OnOk result (fonts.new.items ≡ fonts_through fonts.old.items code.now.marks) }
    ensures usable { AreUsable fonts.new.items }
    ensures err { OnErr result (fonts.new.items ≡ fonts.old.items) }
    ensures limit { IsErrOf result DviStop.PageLimit → IsTrue (nat_lt 60 (length (fonts_through fonts.old.items code.now.marks)) || nat_lt 1073741824 (place + length (page_bytes last fonts.old.items code.now))) }
{
    let known = fonts.len();
    match draw_page(alloc, last, fonts, code) {
        Ok(out) => {
            if out.len() <= (MOST_BYTES - place) as usize {
                return Ok(out);
            }
            fonts.truncate(known);
            Err(DviStop::PageLimit)
        }
        Err(stop) => {
            fonts.truncate(known);
            Err(stop)
        }
    }
}

/// At least four bytes, so that the length of the file is a multiple of four, where `end` is its
/// length up to here.
fn push_padding(out: &mut Vec<u8>, end: usize) -> Result<(), AllocError>
    requires { end + 3 < 2 ^ 64 }
    ensures { OnOk result (out.new.items ≡ out.old.items ++ padding end) }
{
    let count = 7 - (end + 3) % 4;
    out.extend_from_slice(&[PADDING; 7][..count])
}
