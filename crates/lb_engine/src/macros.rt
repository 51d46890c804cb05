//! Names that mean macros (TeXbook, chapter 20; tex.web, section 1218).
ghost use Rattle.std.specs.Prelude.{◌≡◌, ◌≤◌, IfSome, true};
ghost use Rattle.lb_model.specs.Ranges.{has_parameters, in_order, is_macro, is_pattern, optional_parameters, parameter_count};
ghost use Rattle.lb_model_engine.specs.Definitions.{macro_value};
ghost use Rattle.lb_model_nest.specs.Wholes.{change};
ghost use Rattle.lb_engine.specs.Leads.{Goes, Holds};
ghost use Rattle.lb_engine.specs.Macros.{is_of, order_behind};
ghost use Rattle.lb_engine.specs.Names.{is_name};

use crate::bodies::parameters_among;
use crate::engine::Engine;
use crate::groups::change;
use lb_base::{NoMemory, Tok};
use lb_model::Cells;
use lb_model_nest::Went;
use lb_values::{Cell, MacroDef, Meaning, Pattern, Reach, Shared, Value};
use std::alloc::AllocError;

// The number of the last parameter behind a token; none where that is not the next one.
fn order_behind(last: usize, tok: &Tok) -> Option<usize>
    requires { last ≤ 255 }
    ensures order { result ≡ order_behind last tok.now }
    ensures few { IfSome result (λ n. n ≤ 255) }
{
    match tok {
        Tok::Param(number) => {
            if usize::from(*number) == last + 1 {
                return Some(last + 1);
            }
            None
        }
        _ => Some(last),
    }
}

// Whether the parameters among tokens are numbered in order.
fn in_order(first: usize, toks: &[Tok]) -> bool
    requires { first ≤ 255 }
    ensures { result ≡ in_order first toks.now }
{
    let mut last = first;
    'tokens: for index in 0..toks.len() {
        match order_behind(last, &toks[index]) {
            None => return false,
            Some(next) => last = next,
        }
    }
    true
}

// Whether a token is no parameter, or one of so many.
fn is_of(parameters: usize, tok: &Tok) -> bool
    ensures { result ≡ is_of parameters tok.now }
{
    match tok {
        Tok::Param(number) => *number > 0 && usize::from(*number) <= parameters,
        _ => true,
    }
}

// Whether each parameter among tokens is one of so many.
fn has_parameters(parameters: usize, toks: &[Tok]) -> bool
    ensures { result ≡ has_parameters parameters toks.now }
{
    'tokens: for index in 0..toks.len() {
        if !is_of(parameters, &toks[index]) {
            return false;
        }
    }
    true
}

fn optional_parameters(pattern: &Pattern) -> usize
    ensures count { result ≡ optional_parameters pattern.now }
    ensures few { result ≤ 1 }
{
    if pattern.first.is_some() { 1 } else { 0 }
}

// Whether a macro is one: it has nine parameters at most, in order, and its body has no others.
fn is_macro(definition: &MacroDef) -> bool
    ensures { result ≡ is_macro definition.now }
{
    let toks = definition.pattern.tokens.as_slice();
    let optional = optional_parameters(&definition.pattern);
    let among = parameters_among(toks);
    if among >= 10 - optional || !in_order(optional, toks) {
        return false;
    }
    has_parameters(optional + among, definition.body.as_slice())
}

/// A name means a macro. No token that is read is a parameter of a macro; where one is, so that the macro is none, the answer is the one for want
/// of memory.
pub fn define<C: Cells>(
    cells: &mut C,
    engine: &mut Engine,
    name: &Cell,
    definition: MacroDef,
    reach: Reach,
) -> Result<Went, NoMemory>
    requires name { is_name name.now ≡ true }
    requires holds { Holds C.Cells cells.old engine.old }
    ensures goes { Goes C.Cells (change reach name.now (macro_value definition)) result cells.new engine.new cells.old engine.old }
{
    if !is_macro(&definition) {
        return Err(AllocError);
    }
    let shared = Shared::new(engine.desk.alloc, definition)?;
    let value = Value::Meaning(Meaning::Macro(shared));
    change(cells, engine, name, value, reach)
}
