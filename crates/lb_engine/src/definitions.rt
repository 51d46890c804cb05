//! `\def`, `\gdef`, `\edef` and `\xdef` (TeXbook, chapter 20; tex.web, section 1218).
ghost use Rattle.std.specs.Prelude.{◌≡◌, ◌++◌, IfOk, List, false, true, []};
ghost use Rattle.lb_base.specs.declared.token.Tok.{Tok as AToken};
ghost use Rattle.lb_values.specs.declared.meaning.MacroDef.{MacroDef as AMacro};
ghost use Rattle.lb_model_engine.specs.Definitions.{body_read, def_row, macro_defined, macro_value, parameter_text as text_given, plain_macro};
ghost use Rattle.lb_model_engine.specs.Reads.{reading};
ghost use Rattle.lb_model_nest.specs.Wholes.{Executed, Whole};
ghost use Rattle.lb_engine.specs.Leads.{Goes, Holds, Leads};
ghost use Rattle.lb_engine.specs.Macros.{defined_by, set_by, set_with};
ghost use Rattle.lb_engine.specs.Names.{is_name};
ghost use Rattle.lb_engine.specs.Parameters.{listed};
ghost use Rattle.lb_engine.specs.Reads.{behind_reading};

use crate::bodies::{body_of, parameters_among};
use crate::engine::Engine;
use crate::macros::define;
use crate::parameters::ParameterText;
use crate::reading::{Reading, expanded_rest};
use crate::unexpanded::{control, group_rest, parameter_text};
use lb_base::{Kind, NoMemory, Tok, TokList};
use lb_model::Cells;
use lb_model_nest::Went;
use lb_values::{Cell, MacroDef, Pattern, Reach};

/// The most tokens of a body.
const MOST_TOKENS: usize = 1_000_000;

/// How a macro is defined: whether its body is expanded, whether it is a long one, and its reach.
#[derive(Clone, Copy)]
pub struct Manner {
    pub expands: bool,
    pub long: bool,
    pub reach: Reach,
}

/// `\def`, `\gdef`, `\edef` and `\xdef`.
#[tactic(auto, unfolding(lb_model_engine::specs::Definitions::def_row))]
pub fn define_name<C: Cells>(
    cells: &mut C,
    engine: &mut Engine,
    manner: Manner,
) -> Result<Went, NoMemory>
    requires holds { Holds C.Cells cells.old engine.old }
    ensures goes { Goes C.Cells (def_row manner.expands manner.long manner.reach) result cells.new engine.new cells.old engine.old }
{
    match control(cells, engine)? {
        Reading::Of(name) => read_text(cells, engine, &name, manner),
        Reading::Stops(went) => Ok(went),
    }
}

// A macro of this name, whose parameter text comes.
fn read_text<C: Cells>(
    cells: &mut C,
    engine: &mut Engine,
    name: &Cell,
    manner: Manner,
) -> Result<Went, NoMemory>
    requires name { is_name name.now ≡ true }
    requires holds { Holds C.Cells cells.old engine.old }
    ensures goes { Goes C.Cells (reading (text_given false 0 [])
        (λ text u. body_read manner.expands (λ toks x. macro_defined manner.long manner.reach name.now text toks x) u)) result
        cells.new engine.new cells.old engine.old }
{
    match parameter_text(cells, engine)? {
        Reading::Of(text) => read_body(cells, engine, name, manner, text),
        Reading::Stops(went) => Ok(went),
    }
}

// A body, as it stands or expanded.
fn body<C: Cells>(
    cells: &mut C,
    engine: &mut Engine,
    expands: bool,
) -> Result<Reading<TokList>, NoMemory>
    requires holds { Holds C.Cells cells.old engine.old }
    ensures leads { (row : List AToken → Whole → Executed) → Leads C.Cells (body_read expands row) (behind_reading row) result
        cells.new engine.new cells.old engine.old }
{
    match expands {
        true => expanded_rest(cells, engine),
        false => group_rest(cells, engine),
    }
}

// A macro with this parameter text, whose body comes.
fn read_body<C: Cells>(
    cells: &mut C,
    engine: &mut Engine,
    name: &Cell,
    manner: Manner,
    text: ParameterText,
) -> Result<Went, NoMemory>
    requires name { is_name name.now ≡ true }
    requires holds { Holds C.Cells cells.old engine.old }
    ensures goes { Goes C.Cells (body_read manner.expands (λ toks x. macro_defined manner.long manner.reach name.now text toks x)) result
        cells.new engine.new cells.old engine.old }
{
    match body(cells, engine, manner.expands)? {
        Reading::Of(toks) => define_text(cells, engine, name, manner, text, toks),
        Reading::Stops(went) => Ok(went),
    }
}

// A macro with this parameter text, and the tokens of its body.
fn define_text<C: Cells>(
    cells: &mut C,
    engine: &mut Engine,
    name: &Cell,
    manner: Manner,
    text: ParameterText,
    toks: TokList,
) -> Result<Went, NoMemory>
    requires name { is_name name.now ≡ true }
    requires holds { Holds C.Cells cells.old engine.old }
    ensures goes { Goes C.Cells (macro_defined manner.long manner.reach name.now text toks) result cells.new engine.new cells.old engine.old }
{
    let (tokens, brace) = text.into_parts();
    define_parts(cells, engine, name, manner, tokens, brace, toks)
}

// The same, with the parts of the parameter text.
fn define_parts<C: Cells>(
    cells: &mut C,
    engine: &mut Engine,
    name: &Cell,
    manner: Manner,
    tokens: TokList,
    brace: Option<Tok>,
    toks: TokList,
) -> Result<Went, NoMemory>
    requires name { is_name name.now ≡ true }
    requires holds { Holds C.Cells cells.old engine.old }
    ensures goes { Goes C.Cells (defined_by manner.long manner.reach name.now tokens brace toks) result cells.new engine.new cells.old engine.old }
{
    let count = parameters_among(tokens.as_slice());
    match body_of(engine.desk.alloc, count, toks)? {
        Some(body) => end_body(cells, engine, name, manner, tokens, brace, body),
        None => Ok(Went::Stopped(Kind::TokenMisplaced)),
    }
}

// A list of tokens, with one more at its end.
fn with_token(toks: TokList, tok: Option<Tok>) -> Result<TokList, NoMemory>
    ensures { IfOk result (λ more. more ≡ toks ++ listed tok) }
{
    let mut toks = toks;
    if let Some(tok) = tok {
        toks.push(tok)?;
    }
    Ok(toks)
}

// A macro with this body, behind which the brace of the parameter text stands.
fn end_body<C: Cells>(
    cells: &mut C,
    engine: &mut Engine,
    name: &Cell,
    manner: Manner,
    tokens: TokList,
    brace: Option<Tok>,
    body: TokList,
) -> Result<Went, NoMemory>
    requires name { is_name name.now ≡ true }
    requires holds { Holds C.Cells cells.old engine.old }
    ensures goes { Goes C.Cells (set_by manner.long manner.reach name.now tokens brace body) result cells.new engine.new cells.old engine.old }
{
    let body = with_token(body, brace)?;
    set_macro(cells, engine, name, manner, tokens, body)
}

/// A macro without an optional argument.
pub(crate) fn plain_macro(long: bool, tokens: TokList, body: TokList) -> MacroDef
    ensures { macro_value result ≡ plain_macro long tokens body }
{
    let pattern = Pattern {
        long,
        first: None,
        tokens,
    };
    MacroDef { pattern, body }
}

// A macro with this body, of no more than a million tokens.
fn set_macro<C: Cells>(
    cells: &mut C,
    engine: &mut Engine,
    name: &Cell,
    manner: Manner,
    tokens: TokList,
    body: TokList,
) -> Result<Went, NoMemory>
    requires name { is_name name.now ≡ true }
    requires holds { Holds C.Cells cells.old engine.old }
    ensures goes { Goes C.Cells (set_with manner.long manner.reach name.now tokens body) result cells.new engine.new cells.old engine.old }
{
    if body.len() > MOST_TOKENS {
        return Ok(Went::Stopped(Kind::DepthLimit));
    }
    let definition = plain_macro(manner.long, tokens, body);
    define(cells, engine, name, definition, manner.reach)
}
