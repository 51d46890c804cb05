use super::*;
use lb_base::{Bytes, Category, NoMemory, Tok, TokList};
use lb_model_grammar::Given;
use std::alloc::Global;

// The characters of a text as letters, but for braces, the space and the parameter character.
fn tok(code: u8) -> Tok {
    let category = match code {
        b'{' => Category::BeginGroup,
        b'}' => Category::EndGroup,
        b' ' => Category::Space,
        b'#' => Category::Parameter,
        _ => Category::Letter,
    };
    Tok::Char(category, code)
}

fn word(alloc: Global, given: &[u8]) -> Result<Option<Bytes>, NoMemory> {
    let mut text = WordText::new(alloc);
    for code in given {
        text = match text.take(&tok(*code))? {
            WordTurn::Open(text) => text,
            WordTurn::Ended(text) => return Ok(Some(text)),
            WordTurn::Wrong(_) => return Ok(None),
        };
    }
    Ok(None)
}

#[test]
fn words(rt: HostRuntime) -> Result<(), NoMemory> {
    let alloc = rt.alloc();
    let inner = word(alloc, b"a {c}d}e")?;
    assert!(rt; matches!(&inner, Some(text) if text.as_slice() == b"a {c}d".as_slice()));
    let open = word(alloc, b"a{b}")?;
    assert!(rt; open.is_none());
    Ok(())
}

#[test]
fn names(rt: HostRuntime) -> Result<(), NoMemory> {
    let alloc = rt.alloc();
    let mut text = NameText::new(alloc);
    for code in b"c s" {
        text.push(&tok(*code))?;
    }
    let name = text.into_name(alloc)?;
    assert!(rt; name.as_slice() == b"c s".as_slice());
    Ok(())
}

// The name before its end, and whether a space ended it.
fn file(alloc: Global, given: &[u8]) -> Result<(Bytes, bool), NoMemory> {
    let mut file = FileName::new(alloc);
    for code in given {
        file = match file.take(Given::Tok(tok(*code)))? {
            FileTurn::Open(file) => file,
            FileTurn::Ended(text) => return Ok((text, true)),
            FileTurn::EndedBefore(text, _) => return Ok((text, false)),
        };
    }
    match file.take(Given::End)? {
        FileTurn::EndedBefore(text, _) => Ok((text, false)),
        _ => Ok((Bytes::new(alloc), true)),
    }
}

#[test]
fn files(rt: HostRuntime) -> Result<(), NoMemory> {
    let alloc = rt.alloc();
    let (text, by_space) = file(alloc, b"a.b/c d")?;
    assert!(rt; by_space && text.as_slice() == b"a.b/c".as_slice());
    let name = with_ending(alloc, text)?;
    assert!(rt; name.as_slice() == b"a.b/c.tex".as_slice());
    let (text, by_space) = file(alloc, b"c.sty")?;
    assert!(rt; !by_space && text.as_slice() == b"c.sty".as_slice());
    let name = with_ending(alloc, text)?;
    assert!(rt; name.as_slice() == b"c.sty".as_slice());
    Ok(())
}

fn toks(alloc: Global, text: &[u8]) -> Result<TokList, NoMemory> {
    let mut toks = TokList::new(alloc);
    for code in text {
        toks.push(tok(*code))?;
    }
    Ok(toks)
}

// The body that these tokens make, a register between them, where it is closed.
fn body(
    alloc: Global,
    before: &[u8],
    register: &[u8],
    behind: &[u8],
) -> Result<Option<TokList>, NoMemory> {
    let mut text = BodyText::new(alloc);
    for code in before {
        text = match text.take(tok(*code))? {
            BodyTurn::Open(text) => text,
            BodyTurn::Ended(toks) => return Ok(Some(toks)),
            BodyTurn::Wrong(_) => return Ok(None),
        };
    }
    text = text.take_all(toks(alloc, register)?.as_slice())?;
    for code in behind {
        text = match text.take(tok(*code))? {
            BodyTurn::Open(text) => text,
            BodyTurn::Ended(toks) => return Ok(Some(toks)),
            BodyTurn::Wrong(_) => return Ok(None),
        };
    }
    Ok(None)
}

#[test]
fn bodies(rt: HostRuntime) -> Result<(), NoMemory> {
    let alloc = rt.alloc();
    let doubled = body(alloc, b"a{#}", b"#b", b"c}d")?;
    let want = toks(alloc, b"a{#}##bc")?;
    assert!(rt; matches!(&doubled, Some(toks) if toks == &want));
    let closed = body(alloc, b"a", b"b}c", b"d")?;
    let want = toks(alloc, b"ab")?;
    assert!(rt; matches!(&closed, Some(toks) if toks == &want));
    let open = body(alloc, b"a", b"{b", b"c}")?;
    assert!(rt; open.is_none());
    Ok(())
}
