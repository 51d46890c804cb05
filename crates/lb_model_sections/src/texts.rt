//! The tokens of texts that are known, and lists of tokens one behind another.
ghost use Rattle.std.specs.Prelude.{◌≡◌, ◌++◌, IfOk};
ghost use Rattle.lb_model_sections.specs.SimpleTexts.{at_end, behind_name, in_name, in_text, is_name_letter, read_one, simple_category, simple_tokens, spaced};
ghost use Rattle.lb_model_sections.specs.Texts.{toks};

use lb_base::{Bytes, Category, Name, NoMemory, Tok, TokList};
use std::alloc::Global;

// What was read of a text: its tokens, the name of a control sequence that is open, and whether spaces are skipped.
#[derive(Drop)]
pub struct Reader {
    toks: TokList,
    name: Option<Bytes>,
    skips: bool,
}

// Whether a character belongs to the name of a control word.
fn is_name_letter(code: u8) -> bool
    ensures { result ≡ is_name_letter code }
{
    code == b'@' || (64 < code && code < 91) || (96 < code && code < 123)
}

fn simple_category(code: u8) -> Category
    ensures { result ≡ simple_category code }
{
    if is_name_letter(code) {
        return Category::Letter;
    }
    match code {
        b'{' => Category::BeginGroup,
        b'}' => Category::EndGroup,
        _ => Category::Other,
    }
}

// A space, where it is not skipped.
fn spaced(toks: TokList, skips: bool) -> Result<TokList, NoMemory>
    ensures { IfOk result (λ list. list ≡ spaced toks skips) }
{
    if skips {
        return Ok(toks);
    }
    let mut toks = toks;
    toks.push(Tok::Char(Category::Space, b' '))?;
    Ok(toks)
}

// A character behind what was read, where no control sequence is open.
fn in_text(alloc: Global, toks: TokList, skips: bool, code: u8) -> Result<Reader, NoMemory>
    ensures { IfOk result (λ reader. reader ≡ in_text toks skips code) }
{
    match code {
        b'\\' => Ok(Reader {
            toks,
            name: Some(Bytes::new(alloc)),
            skips: false,
        }),
        b' ' => Ok(Reader {
            toks: spaced(toks, skips)?,
            name: None,
            skips: true,
        }),
        _ => {
            let mut toks = toks;
            toks.push(Tok::Char(simple_category(code), code))?;
            Ok(Reader {
                toks,
                name: None,
                skips: false,
            })
        }
    }
}

// A character that ends the name of a control sequence, or is that of a control symbol.
fn behind_name(alloc: Global, toks: TokList, name: Bytes, code: u8) -> Result<Reader, NoMemory>
    ensures { IfOk result (λ reader. reader ≡ behind_name toks name code) }
{
    let mut toks = toks;
    if name.len() == 0 {
        toks.push(Tok::Word(Name::from_slice(alloc, &[code])?))?;
        return Ok(Reader {
            toks,
            name: None,
            skips: code == b' ',
        });
    }
    toks.push(Tok::Word(Name::from_slice(alloc, name.as_slice())?))?;
    in_text(alloc, toks, true, code)
}

// A character behind an open control sequence.
fn in_name(alloc: Global, toks: TokList, name: Bytes, code: u8) -> Result<Reader, NoMemory>
    ensures { IfOk result (λ reader. reader ≡ in_name toks name code) }
{
    if !is_name_letter(code) {
        return behind_name(alloc, toks, name, code);
    }
    let mut name = name;
    name.push(code)?;
    Ok(Reader {
        toks,
        name: Some(name),
        skips: false,
    })
}

fn read_one(alloc: Global, reader: Reader, code: u8) -> Result<Reader, NoMemory>
    ensures { IfOk result (λ after. after ≡ read_one reader code) }
{
    let Reader { toks, name, skips } = reader;
    match name {
        None => in_text(alloc, toks, skips, code),
        Some(name) => in_name(alloc, toks, name, code),
    }
}

// The tokens, where the text ends.
fn at_end(alloc: Global, reader: Reader) -> Result<TokList, NoMemory>
    ensures { IfOk result (λ list. list ≡ at_end reader) }
{
    let Reader { toks, name, .. } = reader;
    match name {
        None => Ok(toks),
        Some(name) => {
            let mut toks = toks;
            toks.push(Tok::Word(Name::from_slice(alloc, name.as_slice())?))?;
            Ok(toks)
        }
    }
}

// The tokens of a text of control sequences, characters and spaces.
fn simple(alloc: Global, text: &[u8]) -> Result<TokList, NoMemory>
    ensures { IfOk result (λ list. list ≡ simple_tokens text.now) }
{
    let mut reader = Reader {
        toks: TokList::new(alloc),
        name: None,
        skips: true,
    };
    for code in text {
        reader = read_one(alloc, reader, *code)?;
    }
    at_end(alloc, reader)
}

/// The tokens of a known text (TeXbook, chapter 8).
pub fn known(alloc: Global, text: &[u8]) -> Result<TokList, NoMemory>
    requires simple { simple_tokens text.now ≡ toks text.now }
    ensures { IfOk result (λ list. list ≡ toks text.now) }
{
    simple(alloc, text)
}

/// Two lists of tokens, one behind the other.
pub fn joined(first: TokList, rest: TokList) -> Result<TokList, NoMemory>
    ensures { IfOk result (λ list. list ≡ first ++ rest) }
{
    let mut list = first.into_vec();
    let mut rest = rest.into_vec();
    list.append(&mut rest)?;
    Ok(TokList::from_vec(list))
}

/// The tokens of a known text before others.
pub fn before(alloc: Global, text: &[u8], rest: TokList) -> Result<TokList, NoMemory>
    requires simple { simple_tokens text.now ≡ toks text.now }
    ensures { IfOk result (λ list. list ≡ toks text.now ++ rest) }
{
    joined(known(alloc, text)?, rest)
}

/// The same tokens.
pub fn copied(toks: &TokList) -> Result<TokList, NoMemory>
    ensures { IfOk result (λ copy. copy ≡ toks.now) }
{
    toks.clone()
}
