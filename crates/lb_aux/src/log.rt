//! The lines of a log.
ghost use Rattle.std.specs.Prelude.{◌≡◌, ◌++◌, ◌∷◌, [], IfOk};
ghost use Rattle.lb_model_paper.specs.Texts.{pages_word};
ghost use Rattle.lb_model_journal.specs.declared.event.Event.TheVariants as events;
ghost use Rattle.lb_model_journal.specs.declared.event.Event.TheVariants.{MissingCharacter, MultipleLabel, Output, Overfull, Typeout, Underfull};
ghost use Rattle.lb_model_journal.specs.LogLines.{log_line, place_text};

use crate::tokens::push_written;
use itoa::Buffer;
use lb_base::{Bytes, Fault, Name, NoMemory, TokList};
use lb_model_grammar::Quantity;
use lb_model_journal::Event;
use lb_print::quantity_text;
use std::alloc::Global;

// A text between two others.
fn between(alloc: Global, front: &[u8], inner: &[u8], behind: &[u8]) -> Result<Bytes, NoMemory>
    ensures { IfOk result (λ text. text ≡ front.now ++ inner.now ++ behind.now) }
{
    let mut text = Bytes::from_slice(alloc, front)?;
    text.extend_from_slice(inner)?;
    text.extend_from_slice(behind)?;
    Ok(text)
}

// A text that ends in a place.
fn with_place(mut text: Bytes, file: &[u8], line: u64) -> Result<Bytes, NoMemory>
    ensures { IfOk result (λ all. all ≡ text ++ place_text file.now line ++ 10 ∷ []) }
{
    text.extend_from_slice(file)?;
    text.push(b':')?;
    text.extend_from_slice(Buffer::new().format(line).as_bytes())?;
    text.push(b'\n')?;
    Ok(text)
}

fn overfull(alloc: Global, missing: i32, file: &Name, line: u64) -> Result<Bytes, NoMemory>
    ensures { IfOk result (λ text. text ≡ log_line (Overfull missing file.now line)) }
{
    let mut text = Bytes::from_slice(alloc, b"Overfull ")?;
    if let Some(width) = quantity_text(alloc, Quantity::Dimen(missing))? {
        text.extend_from_slice(width.as_slice())?;
    }
    text.extend_from_slice(b" at ")?;
    with_place(text, file.as_slice(), line)
}

fn underfull(alloc: Global, file: &Name, line: u64) -> Result<Bytes, NoMemory>
    ensures { IfOk result (λ text. text ≡ log_line (Underfull file.now line)) }
{
    let text = Bytes::from_slice(alloc, b"Underfull at ")?;
    with_place(text, file.as_slice(), line)
}

fn missing_character(alloc: Global, code: u8, font: &Name) -> Result<Bytes, NoMemory>
    ensures { IfOk result (λ text. text ≡ log_line (MissingCharacter code font.now)) }
{
    let mut text = between(
        alloc,
        b"Missing character ",
        Buffer::new().format(code).as_bytes(),
        b" in ",
    )?;
    text.extend_from_slice(font.as_slice())?;
    text.push(b'\n')?;
    Ok(text)
}

fn multiple_label(alloc: Global, key: &Name) -> Result<Bytes, NoMemory>
    ensures { IfOk result (λ text. text ≡ log_line (MultipleLabel key.now)) }
{
    let mut text = between(alloc, b"Label ", key.as_slice(), b" multiply defined")?;
    text.push(b'\n')?;
    Ok(text)
}

fn typeout(alloc: Global, toks: &TokList) -> Result<Bytes, NoMemory>
    ensures { IfOk result (λ text. text ≡ log_line (Typeout toks.now)) }
{
    let mut text = Bytes::new(alloc);
    push_written(toks.as_slice(), &mut text)?;
    text.push(b'\n')?;
    Ok(text)
}

fn end(alloc: Global, fault: &Fault) -> Result<Bytes, NoMemory>
    ensures { IfOk result (λ text. text ≡ log_line (events.Fault fault.now)) }
{
    let text = between(alloc, b"! ", fault.kind.name().as_bytes(), b" ")?;
    with_place(text, fault.file.as_slice(), fault.line)
}

fn pages_word(pages: u32) -> &'static [u8]
    ensures { result.now ≡ pages_word pages }
{
    if pages == 1 { b" page, " } else { b" pages, " }
}

fn output(alloc: Global, main: &Name, pages: u32, bytes: u64) -> Result<Bytes, NoMemory>
    ensures { IfOk result (λ text. text ≡ log_line (Output main.now pages bytes)) }
{
    let mut text = between(alloc, b"Output written on ", main.as_slice(), b".dvi (")?;
    text.extend_from_slice(Buffer::new().format(pages).as_bytes())?;
    text.extend_from_slice(pages_word(pages))?;
    text.extend_from_slice(Buffer::new().format(bytes).as_bytes())?;
    text.extend_from_slice(b" bytes).\n")?;
    Ok(text)
}

/// The line of the log for an event. Numbers are in decimal, and a missing width in points.
pub fn log_line(alloc: Global, event: &Event) -> Result<Bytes, NoMemory>
    ensures { IfOk result (λ text. text ≡ log_line event.now) }
{
    match event {
        Event::Start(main) => between(alloc, b"speclatex 1 ", main.as_slice(), b"\n"),
        Event::Options(options) => between(alloc, b"Class options: ", options.as_slice(), b"\n"),
        Event::File(file) => between(alloc, b"File ", file.as_slice(), b"\n"),
        Event::Page(number) => between(
            alloc,
            b"[",
            Buffer::new().format(*number).as_bytes(),
            b"]\n",
        ),
        Event::Overfull {
            missing,
            file,
            line,
        } => overfull(alloc, *missing, file, *line),
        Event::Underfull { file, line } => underfull(alloc, file, *line),
        Event::MissingCharacter(code, font) => missing_character(alloc, *code, font),
        Event::UndefinedReference(key) => between(
            alloc,
            b"Reference ",
            key.as_slice(),
            b" undefined\n",
        ),
        Event::MultipleLabel(key) => multiple_label(alloc, key),
        Event::Typeout(toks) => typeout(alloc, toks),
        Event::Fault(fault) => end(alloc, fault),
        Event::Output { main, pages, bytes } => output(alloc, main, *pages, *bytes),
    }
}
