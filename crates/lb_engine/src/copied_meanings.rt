//! Names that get the meanings of tokens (TeXbook, chapter 24; tex.web, section 1221).
ghost use Rattle.std.specs.Prelude.{◌≡◌, ◌∷◌, [], IfOk, Option, true};
ghost use Rattle.lb_values.specs.declared.meaning.Meaning.{Meaning as AMeaning};
ghost use Rattle.lb_model.specs.Meanings.{token_meaning};
ghost use Rattle.lb_model.specs.Ranges.{fits};
ghost use Rattle.lb_model.specs.Settings.{IsState, Setting};
ghost use Rattle.lb_model_engine.specs.Definitions.{futurelet_row, let_row, let_source as source_given, meaning_copied, meaning_value};
ghost use Rattle.lb_model_engine.specs.Reads.{reading_on, taking};
ghost use Rattle.lb_model_nest.specs.Wholes.{Executed, Whole, and_then, put};
ghost use Rattle.lb_engine.specs.CopiedMeanings.{given_meaning, told_meaning};
ghost use Rattle.lb_engine.specs.Leads.{Goes, Holds, Leads};
ghost use Rattle.lb_engine.specs.Names.{is_name};

use crate::engine::Engine;
use crate::groups::{change, put_list};
use crate::reading::Reading;
use crate::unexpanded::{control, let_source, token};
use lb_base::{NoMemory, Tok, TokList};
use lb_expand::sense_of;
use lb_model::Cells;
use lb_model_nest::Went;
use lb_values::{Cell, Meaning, Reach, Value};
use std::alloc::Global;

// What a token means; in a state a name may mean that too.
fn meaning_of<C: Cells>(
    cells: &mut C,
    engine: &Engine,
    tok: &Tok,
) -> Result<Option<Meaning>, NoMemory>
    requires holds { Holds C.Cells cells.old engine.now }
    ensures leads { (row : Option AMeaning → Whole → Executed) → Leads C.Cells (told_meaning tok.now row) row result
        cells.new engine.now cells.old engine.now }
    ensures told { IfOk result (λ m. (p : Setting) → C.agrees cells.new p → token_meaning p.world (C.meaning cells.new p).now tok.now ≡ m) }
{
    let _ = engine;
    sense_of(cells, tok)
}

// A meaning, or none.
fn meaning_value(meaning: Option<Meaning>) -> Value
    ensures { result ≡ meaning_value meaning }
{
    match meaning {
        None => Value::Absent,
        Some(meaning) => Value::Meaning(meaning),
    }
}

// A name gets a meaning, or none.
fn give_meaning<C: Cells>(
    cells: &mut C,
    engine: &mut Engine,
    name: &Cell,
    meaning: Option<Meaning>,
    reach: Reach,
) -> Result<Went, NoMemory>
    requires name { is_name name.now ≡ true }
    requires fits { (p : Setting) → C.agrees cells.old p → IsState (C.meaning cells.old p).now → fits name.now (meaning_value meaning) ≡ true }
    requires holds { Holds C.Cells cells.old engine.old }
    ensures goes { Goes C.Cells (given_meaning reach name.now meaning) result cells.new engine.new cells.old engine.old }
{
    let value = meaning_value(meaning);
    change(cells, engine, name, value, reach)
}

// A name gets the meaning of a token.
fn copy_meaning<C: Cells>(
    cells: &mut C,
    engine: &mut Engine,
    name: &Cell,
    tok: &Tok,
    reach: Reach,
) -> Result<Went, NoMemory>
    requires name { is_name name.now ≡ true }
    requires holds { Holds C.Cells cells.old engine.old }
    ensures goes { Goes C.Cells (meaning_copied reach name.now tok.now) result cells.new engine.new cells.old engine.old }
{
    let meaning = meaning_of(cells, engine, tok)?;
    give_meaning(cells, engine, name, meaning, reach)
}

/// `\let`.
#[tactic(auto, unfolding(lb_model_engine::specs::Definitions::let_row))]
pub fn let_name<C: Cells>(
    cells: &mut C,
    engine: &mut Engine,
    reach: Reach,
) -> Result<Went, NoMemory>
    requires holds { Holds C.Cells cells.old engine.old }
    ensures goes { Goes C.Cells (let_row reach) result cells.new engine.new cells.old engine.old }
{
    match control(cells, engine)? {
        Reading::Of(name) => copy_source(cells, engine, &name, reach),
        Reading::Stops(went) => Ok(went),
    }
}

// A name gets the meaning of the token that comes behind `=`.
fn copy_source<C: Cells>(
    cells: &mut C,
    engine: &mut Engine,
    name: &Cell,
    reach: Reach,
) -> Result<Went, NoMemory>
    requires name { is_name name.now ≡ true }
    requires holds { Holds C.Cells cells.old engine.old }
    ensures goes { Goes C.Cells (reading_on source_given (λ tok u. meaning_copied reach name.now tok u)) result cells.new engine.new
        cells.old engine.old }
{
    match let_source(cells, engine)? {
        Reading::Of(tok) => copy_meaning(cells, engine, name, &tok, reach),
        Reading::Stops(went) => Ok(went),
    }
}

/// `\futurelet`.
#[tactic(auto, unfolding(lb_model_engine::specs::Definitions::futurelet_row))]
pub fn futurelet<C: Cells>(
    cells: &mut C,
    engine: &mut Engine,
    reach: Reach,
) -> Result<Went, NoMemory>
    requires holds { Holds C.Cells cells.old engine.old }
    ensures goes { Goes C.Cells (futurelet_row reach) result cells.new engine.new cells.old engine.old }
{
    match control(cells, engine)? {
        Reading::Of(name) => take_first(cells, engine, &name, reach),
        Reading::Stops(went) => Ok(went),
    }
}

// The first of the two tokens is taken.
fn take_first<C: Cells>(
    cells: &mut C,
    engine: &mut Engine,
    name: &Cell,
    reach: Reach,
) -> Result<Went, NoMemory>
    requires name { is_name name.now ≡ true }
    requires holds { Holds C.Cells cells.old engine.old }
    ensures goes { Goes C.Cells (taking (λ first u. taking (λ second x. and_then (put (first ∷ second ∷ []) x) (meaning_copied reach name.now second)) u))
        result cells.new engine.new cells.old engine.old }
{
    match token(cells, engine)? {
        Reading::Of(first) => take_second(cells, engine, name, first, reach),
        Reading::Stops(went) => Ok(went),
    }
}

// The second is taken.
fn take_second<C: Cells>(
    cells: &mut C,
    engine: &mut Engine,
    name: &Cell,
    first: Tok,
    reach: Reach,
) -> Result<Went, NoMemory>
    requires name { is_name name.now ≡ true }
    requires holds { Holds C.Cells cells.old engine.old }
    ensures goes { Goes C.Cells (taking (λ second x. and_then (put (first ∷ second ∷ []) x) (meaning_copied reach name.now second))) result
        cells.new engine.new cells.old engine.old }
{
    match token(cells, engine)? {
        Reading::Of(second) => copy_second(cells, engine, name, first, &second, reach),
        Reading::Stops(went) => Ok(went),
    }
}

// Two tokens.
fn pair(alloc: Global, first: Tok, second: &Tok) -> Result<TokList, NoMemory>
    ensures { IfOk result (λ toks. toks ≡ first ∷ second.now ∷ []) }
{
    let mut toks = TokList::new(alloc);
    toks.push(first)?;
    toks.push(second.clone()?)?;
    Ok(toks)
}

// Two tokens are put back.
fn put_pair<C: Cells>(
    cells: &C,
    engine: &mut Engine,
    first: Tok,
    second: &Tok,
) -> Result<Went, NoMemory>
    requires holds { Holds C.Cells cells.now engine.old }
    ensures goes { Goes C.Cells (put (first ∷ second.now ∷ [])) result cells.now engine.new cells.now engine.old }
{
    let toks = pair(engine.desk.alloc, first, second)?;
    put_list(cells, engine, toks)
}

// Both are put back, and a name gets the meaning of the second.
fn copy_second<C: Cells>(
    cells: &mut C,
    engine: &mut Engine,
    name: &Cell,
    first: Tok,
    second: &Tok,
    reach: Reach,
) -> Result<Went, NoMemory>
    requires name { is_name name.now ≡ true }
    requires holds { Holds C.Cells cells.old engine.old }
    ensures goes { Goes C.Cells (λ x. and_then (put (first ∷ second.now ∷ []) x) (meaning_copied reach name.now second.now)) result cells.new engine.new
        cells.old engine.old }
{
    match put_pair(cells, engine, first, second)? {
        Went::On => copy_meaning(cells, engine, name, second, reach),
        went => Ok(went),
    }
}
