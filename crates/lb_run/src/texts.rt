//! The texts of aux and log files.
ghost use Rattle.std.specs.Prelude.{◌≡◌, IfOk};
ghost use Rattle.lb_model_paper.specs.Texts as texts;
ghost use Rattle.lb_model_book.specs.Books.{plain_counters};
ghost use Rattle.lb_run.specs.Checkpoints.{checkpoint_front};

use lb_base::{Bytes, Name, NoMemory};
use std::alloc::Global;

/// The counters that plain text leaves at 0, and the end of a checkpoint.
const STILL_COUNTERS: &[u8] =
    b"\\setcounter{equation}{0}\n\\setcounter{enumi}{0}\n\\setcounter{enumii}{0}\n\\setcounter{enumiii}{0}\n\\setcounter{enumiv}{0}\n\\setcounter{footnote}{0}\n\\setcounter{mpfootnote}{0}\n\\setcounter{part}{0}\n\\setcounter{chapter}{0}\n\\setcounter{section}{0}\n\\setcounter{subsection}{0}\n\\setcounter{subsubsection}{0}\n\\setcounter{paragraph}{0}\n\\setcounter{subparagraph}{0}\n\\setcounter{figure}{0}\n\\setcounter{table}{0}\n}\n";

pub fn relax_line(alloc: Global) -> Result<Bytes, NoMemory>
    ensures { IfOk result (λ text. text ≡ texts.relax_line) }
{
    Bytes::from_slice(alloc, b"\\relax \n")
}

pub fn input_line(alloc: Global, chapter: &Name) -> Result<Bytes, NoMemory>
    ensures { IfOk result (λ text. text ≡ texts.input_line chapter.now) }
{
    let mut text = Bytes::from_slice(alloc, b"\\@input{")?;
    text.extend_from_slice(chapter.as_slice())?;
    text.extend_from_slice(b".aux}\n")?;
    Ok(text)
}

/// The first two lines of a checkpoint.
fn checkpoint_start(alloc: Global, chapter: &Name, page: u32) -> Result<Bytes, NoMemory>
    ensures { IfOk result (λ text. text ≡ checkpoint_front chapter.now page) }
{
    let mut text = Bytes::from_slice(alloc, b"\\@setckpt{")?;
    text.extend_from_slice(chapter.as_slice())?;
    text.extend_from_slice(b"}{\n\\setcounter{page}{")?;
    text.extend_from_slice(page.to_string(alloc)?.as_bytes())?;
    text.extend_from_slice(b"}\n")?;
    Ok(text)
}

/// The checkpoint of a chapter behind which the next page has this number.
pub fn checkpoint(alloc: Global, chapter: &Name, page: u32) -> Result<Bytes, NoMemory>
    ensures { IfOk result (λ text. text ≡ texts.checkpoint chapter.now (plain_counters page)) }
{
    let mut text = checkpoint_start(alloc, chapter, page)?;
    text.extend_from_slice(STILL_COUNTERS)?;
    Ok(text)
}

pub fn log_start(alloc: Global, main: &Name) -> Result<Bytes, NoMemory>
    ensures { IfOk result (λ text. text ≡ texts.log_start main.now) }
{
    let mut text = Bytes::from_slice(alloc, b"speclatex 1 ")?;
    text.extend_from_slice(main.as_slice())?;
    text.extend_from_slice(b"\n")?;
    Ok(text)
}

pub fn log_file(alloc: Global, file: &Name) -> Result<Bytes, NoMemory>
    ensures { IfOk result (λ text. text ≡ texts.log_file file.now) }
{
    let mut text = Bytes::from_slice(alloc, b"File ")?;
    text.extend_from_slice(file.as_slice())?;
    text.extend_from_slice(b"\n")?;
    Ok(text)
}

pub fn log_page(alloc: Global, number: u32) -> Result<Bytes, NoMemory>
    ensures { IfOk result (λ text. text ≡ texts.log_page number) }
{
    let mut text = Bytes::from_slice(alloc, b"[")?;
    text.extend_from_slice(number.to_string(alloc)?.as_bytes())?;
    text.extend_from_slice(b"]\n")?;
    Ok(text)
}

fn pages_word(pages: u32) -> &'static [u8]
    ensures { result.now ≡ texts.pages_word pages }
{
    if pages == 1 { b" page, " } else { b" pages, " }
}

pub fn log_end(alloc: Global, main: &Name, pages: u32, bytes: u64) -> Result<Bytes, NoMemory>
    ensures { IfOk result (λ text. text ≡ texts.log_end main.now pages bytes) }
{
    let mut text = Bytes::from_slice(alloc, b"Output written on ")?;
    text.extend_from_slice(main.as_slice())?;
    text.extend_from_slice(b".dvi (")?;
    text.extend_from_slice(pages.to_string(alloc)?.as_bytes())?;
    text.extend_from_slice(pages_word(pages))?;
    text.extend_from_slice(bytes.to_string(alloc)?.as_bytes())?;
    text.extend_from_slice(b" bytes).\n")?;
    Ok(text)
}
