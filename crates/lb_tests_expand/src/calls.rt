//! The calls of a case, each of which shows what it answers: `n` the next token, expanded, and `N` all up to the end, 400 at most; `p` and
//! `P` the same without expansion; `f` the next token of this text; `i`, `d`, `g` and `kHEX` a number, a dimension, glue and a keyword; `q`
//! the quantity that begins with the next token; `w` a text in braces; `b` a body; `o` and `c` open and close a group; `v` whether a
//! conditional is open.
ghost use Rattle.std.specs.Prelude.{OnOk};
ghost use Rattle.lb_tests_expand.specs.Standings.{Stands};

use crate::answers::{show_quantity, show_scanned, show_word};
use crate::numbers::bytes;
use crate::shown::{show_place, show_token_or_end, show_tokens, start_answer};
use crate::stop::{End, Stop};
use lb_assign::{close_group, open_group};
use lb_base::{Category, Tok};
use lb_expand::{Feeder, ScanKind};
use lb_model::{Cells, Feed, GroupKind};
use std::fmt::Write;

/// The most tokens that `N` and `P` show.
const MOST_ANSWERS: usize = 400;

/// Makes a call.
pub(crate) fn call<C: Cells>(
    feeder: &mut Feeder<'_, C>,
    word: &str,
    out: &mut String,
) -> Result<(), End>
    requires { Stands C.Cells feeder.old }
    ensures { OnOk result (Stands C.Cells feeder.new) }
{
    match word {
        "N" => all(feeder, true, out),
        "P" => all(feeder, false, out),
        "n" => {
            let _token = token(feeder, true, out)?;
            Ok(())
        }
        "p" => {
            let _token = token(feeder, false, out)?;
            Ok(())
        }
        "i" => scan(feeder, ScanKind::Number, out),
        "d" => scan(feeder, ScanKind::Dimen, out),
        "g" => scan(feeder, ScanKind::Glue, out),
        "o" | "c" => group(feeder, word == "o", out),
        _ => call_for_text(feeder, word, out),
    }
}

fn call_for_text<C: Cells>(
    feeder: &mut Feeder<'_, C>,
    word: &str,
    out: &mut String,
) -> Result<(), End>
    requires { Stands C.Cells feeder.old }
    ensures { OnOk result (Stands C.Cells feeder.new) }
{
    match word {
        "f" => token_of_text(feeder, out),
        "q" => quantity(feeder, out),
        "w" => text(feeder, out),
        "b" => body(feeder, out),
        "v" => conditional(feeder, out),
        _ => match word.strip_prefix('k') {
            Some(letters) => {
                let letters = bytes(feeder.desk.alloc, letters)?;
                scan(feeder, ScanKind::Keyword(letters), out)
            }
            None => Err(End::Stop(Stop::Command)),
        },
    }
}

/// Shows an answer's place.
fn show_end_of_answer<C: Cells>(feeder: &Feeder<'_, C>, out: &mut String) -> Result<(), End> {
    show_place(feeder.place(), feeder.desk.left, out)?;
    Ok(())
}

fn all<C: Cells>(feeder: &mut Feeder<'_, C>, expands: bool, out: &mut String) -> Result<(), End>
    requires { Stands C.Cells feeder.old }
    ensures { OnOk result (Stands C.Cells feeder.new) }
{
    for _ in 0..MOST_ANSWERS {
        let token = token(feeder, expands, out)?;
        if token.is_none() {
            return Ok(());
        }
    }
    Ok(())
}

fn token<C: Cells>(
    feeder: &mut Feeder<'_, C>,
    expands: bool,
    out: &mut String,
) -> Result<Option<Tok>, End>
    requires { Stands C.Cells feeder.old }
    ensures { OnOk result (Stands C.Cells feeder.new) }
{
    let token = if expands {
        feeder.next()?
    } else {
        feeder.plain()?
    };
    start_answer(out)?;
    show_token_or_end(token.as_ref(), out)?;
    show_end_of_answer(feeder, out)?;
    Ok(token)
}

fn token_of_text<C: Cells>(feeder: &mut Feeder<'_, C>, out: &mut String) -> Result<(), End>
    requires { Stands C.Cells feeder.old }
    ensures { OnOk result (Stands C.Cells feeder.new) }
{
    let token = feeder.in_file()?;
    start_answer(out)?;
    show_token_or_end(token.as_ref(), out)?;
    show_end_of_answer(feeder, out)
}

fn scan<C: Cells>(feeder: &mut Feeder<'_, C>, kind: ScanKind, out: &mut String) -> Result<(), End>
    requires { Stands C.Cells feeder.old }
    ensures { OnOk result (Stands C.Cells feeder.new) }
{
    let found = feeder.scan(kind)?;
    start_answer(out)?;
    show_scanned(found, out)?;
    show_end_of_answer(feeder, out)
}

fn quantity<C: Cells>(feeder: &mut Feeder<'_, C>, out: &mut String) -> Result<(), End>
    requires { Stands C.Cells feeder.old }
    ensures { OnOk result (Stands C.Cells feeder.new) }
{
    match feeder.next()? {
        Some(token) => {
            let quantity = feeder.quantity(&token)?;
            start_answer(out)?;
            show_quantity(quantity, out)?;
        }
        None => {
            start_answer(out)?;
            show_token_or_end(None, out)?;
        }
    }
    show_end_of_answer(feeder, out)
}

fn text<C: Cells>(feeder: &mut Feeder<'_, C>, out: &mut String) -> Result<(), End>
    requires { Stands C.Cells feeder.old }
    ensures { OnOk result (Stands C.Cells feeder.new) }
{
    let text = feeder.word()?;
    start_answer(out)?;
    show_word(text.as_slice(), out)?;
    show_end_of_answer(feeder, out)
}

/// A body, or the next token where that opens none.
fn body<C: Cells>(feeder: &mut Feeder<'_, C>, out: &mut String) -> Result<(), End>
    requires { Stands C.Cells feeder.old }
    ensures { OnOk result (Stands C.Cells feeder.new) }
{
    let first = feeder.next()?;
    if let Some(Tok::Char(Category::BeginGroup, _)) = first {
        let body = feeder.body()?;
        start_answer(out)?;
        write_body(body.as_slice(), out)?;
    } else {
        start_answer(out)?;
        show_token_or_end(first.as_ref(), out)?;
    }
    show_end_of_answer(feeder, out)
}

fn write_body(tokens: &[Tok], out: &mut String) -> Result<(), Stop> {
    out.push_str("body:")?;
    show_tokens(tokens, out)
}

fn group<C: Cells>(feeder: &mut Feeder<'_, C>, opens: bool, out: &mut String) -> Result<(), End>
    requires { Stands C.Cells feeder.old }
    ensures { OnOk result (Stands C.Cells feeder.new) }
{
    if opens {
        open_group(&mut feeder.desk.groups, GroupKind::Simple)?;
    } else {
        close_group(feeder.cells, &mut feeder.desk.groups, GroupKind::Simple)?;
    }
    start_answer(out)?;
    out.push(if opens { 'o' } else { 'c' })?;
    show_end_of_answer(feeder, out)
}

fn conditional<C: Cells>(feeder: &mut Feeder<'_, C>, out: &mut String) -> Result<(), End>
    requires { Stands C.Cells feeder.old }
    ensures { OnOk result (Stands C.Cells feeder.new) }
{
    start_answer(out)?;
    out.push_str(if feeder.in_conditional() { "v1" } else { "v0" })?;
    show_end_of_answer(feeder, out)
}
