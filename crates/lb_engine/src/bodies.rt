//! The bodies of macros: what parameter characters in them stand for (TeXbook, chapter 20; tex.web, sections 477 to 479).
ghost use Rattle.std.specs.Prelude.{◌≡◌, ◌≤◌, ◌++◌, IfOk, OnOk, length};
ghost use Rattle.lb_model_engine.specs.Definitions.{body_of, marked_token, parameter_at};
ghost use Rattle.lb_model.specs.Ranges.{parameters_among};
ghost use Rattle.lb_engine.specs.Macros.{added_by, ended_as, parameters_in, stage_as, stage_behind};
ghost use Rattle.lb_engine.specs.Parameters.{listed};
ghost use Rattle.lb_engine.specs.declared.bodies.Stage.TheVariants as stages;

use crate::seen::is_parameter;
use lb_base::{Category, NoMemory, Tok, TokList};
use std::alloc::Global;

// How many parameters a token is.
fn parameters_in(tok: &Tok) -> usize
    ensures count { result ≡ parameters_in tok.now }
    ensures few { result ≤ 1 }
{
    match tok {
        Tok::Param(_) => 1,
        _ => 0,
    }
}

/// How many parameters are among tokens.
pub(crate) fn parameters_among(toks: &[Tok]) -> usize
    ensures count { result ≡ parameters_among toks.now }
    ensures few { result ≤ length toks.now }
{
    let mut count = 0usize;
    'tokens: for index in 0..toks.len() {
        count += parameters_in(&toks[index]);
    }
    count
}

/// How a body goes on: behind a token, or behind a parameter character; or it has a token there that is neither of these characters nor a
/// parameter.
#[derive(Clone, Copy)]
pub(crate) enum Stage {
    Plain,
    Marked,
    Wrong,
}

// The parameter that a digit stands for behind a parameter character, one of so many.
fn parameter_at(parameters: usize, code: u8) -> Option<Tok>
    ensures { result ≡ parameter_at parameters code }
{
    if code >= b'1' && usize::from(code - b'0') <= parameters {
        return Some(Tok::Param(code - b'0'));
    }
    None
}

// The token that one stands for behind a parameter character.
fn marked_token(parameters: usize, tok: Tok) -> Option<Tok>
    ensures { result ≡ marked_token parameters tok }
{
    match tok {
        Tok::Char(Category::Parameter, code) => Some(Tok::Char(Category::Parameter, code)),
        Tok::Char(Category::Other, code) => parameter_at(parameters, code),
        _ => None,
    }
}

fn stage_by(added: &Option<Tok>) -> Stage
    ensures { result ≡ stage_as added.now }
{
    match added {
        Some(_) => Stage::Plain,
        None => Stage::Wrong,
    }
}

// The same behind a token, and the token that is added, if one is.
fn behind_plain(parameters: usize, tok: Tok) -> (Stage, Option<Tok>)
    ensures stage { result.0 ≡ stage_behind parameters stages.Plain tok }
    ensures added { result.1 ≡ added_by parameters stages.Plain tok }
{
    if is_parameter(&tok) {
        return (Stage::Marked, None);
    }
    (Stage::Plain, Some(tok))
}

// The same behind a parameter character.
fn behind_mark(parameters: usize, tok: Tok) -> (Stage, Option<Tok>)
    ensures stage { result.0 ≡ stage_behind parameters stages.Marked tok }
    ensures added { result.1 ≡ added_by parameters stages.Marked tok }
{
    let added = marked_token(parameters, tok);
    (stage_by(&added), added)
}

// The stage behind a token, and the token that is added, if one is.
fn behind(parameters: usize, stage: Stage, tok: Tok) -> (Stage, Option<Tok>)
    ensures stage { result.0 ≡ stage_behind parameters stage tok }
    ensures added { result.1 ≡ added_by parameters stage tok }
{
    match stage {
        Stage::Plain => behind_plain(parameters, tok),
        Stage::Marked => behind_mark(parameters, tok),
        Stage::Wrong => (Stage::Wrong, None),
    }
}

fn add(body: &mut TokList, tok: Option<Tok>) -> Result<(), NoMemory>
    ensures { OnOk result (body.new ≡ body.old ++ listed tok) }
{
    match tok {
        None => Ok(()),
        Some(tok) => body.push(tok),
    }
}

// The body, unless a parameter character has another token behind it, or none.
fn ended(stage: Stage, body: TokList) -> Option<TokList>
    ensures { result ≡ ended_as stage body }
{
    match stage {
        Stage::Plain => Some(body),
        Stage::Marked | Stage::Wrong => None,
    }
}

/// The body that tokens are, with so many parameters; none where a parameter character has another token behind it than a parameter character
/// or the number of a parameter, or none.
pub(crate) fn body_of(
    alloc: Global,
    parameters: usize,
    toks: TokList,
) -> Result<Option<TokList>, NoMemory>
    ensures { IfOk result (λ body. body ≡ body_of parameters toks) }
{
    let mut body = TokList::new(alloc);
    let mut stage = Stage::Plain;
    for tok in toks.into_vec() {
        let (next, added) = behind(parameters, stage, tok);
        add(&mut body, added)?;
        stage = next;
    }
    Ok(ended(stage, body))
}
