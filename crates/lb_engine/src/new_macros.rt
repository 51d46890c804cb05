//! What new commands and new environments have in common: their parameters, and whether a name may be defined (source2e, file ltdefns).
ghost use Rattle.std.specs.Prelude.{◌≡◌, ◌<◌, ◌≤◌, ◌-◌, IfOk, IfSome, List, Option, ℤ};
ghost use Rattle.lb_base.specs.declared.token.Tok.{Tok as AToken};
ghost use Rattle.lb_model_engine.specs.NewNames.{command_macro, count_behind, count_of, newly, newly_named, parameters, parameters_behind, parameters_from};
ghost use Rattle.lb_model_engine.specs.Reads.{bracket, number_in, reading};
ghost use Rattle.lb_model_nest.specs.Wholes.{Executed, Whole};
ghost use Rattle.lb_engine.specs.Leads.{Holds, Leads};
ghost use Rattle.lb_engine.specs.NewMacros.{is_defined};
ghost use Rattle.lb_engine.specs.Reads.{behind_reading};

use crate::brackets::bracket;
use crate::engine::Engine;
use crate::quantities::number_in;
use crate::reading::Reading;
use lb_base::{Kind, NoMemory, Tok, TokList};
use lb_groups::looks;
use lb_model::Cells;
use lb_model_engine::NewKind;
use lb_model_nest::Went;
use lb_values::{Cell, MacroDef, Pattern, Value};
use std::alloc::Global;

// The default of a first parameter, which stands behind the number of parameters, if there is one.
fn default_behind<C: Cells>(
    cells: &mut C,
    engine: &mut Engine,
    count: i32,
) -> Result<Reading<(i32, Option<TokList>)>, NoMemory>
    requires holds { Holds C.Cells cells.old engine.old }
    ensures leads { (row : ℤ → Option (List AToken) → Whole → Executed) → Leads C.Cells (reading bracket (λ default u. row count default u))
        (behind_reading (λ t. row t.0 t.1)) result cells.new engine.new cells.old engine.old }
{
    match bracket(cells, engine)? {
        Reading::Of(default) => Ok(Reading::Of((count, default))),
        Reading::Stops(went) => Ok(Reading::Stops(went)),
    }
}

// The number of parameters that an argument is, and the default behind it.
fn count_in<C: Cells>(
    cells: &mut C,
    engine: &mut Engine,
    toks: TokList,
) -> Result<Reading<(i32, Option<TokList>)>, NoMemory>
    requires holds { Holds C.Cells cells.old engine.old }
    ensures leads { (row : ℤ → Option (List AToken) → Whole → Executed) →
        Leads C.Cells (number_in toks (λ n v. reading bracket (λ default u. row n default u) v)) (behind_reading (λ t. row t.0 t.1)) result
        cells.new engine.new cells.old engine.old }
{
    match number_in(cells, engine, toks)? {
        Reading::Of(count) => default_behind(cells, engine, count),
        Reading::Stops(went) => Ok(Reading::Stops(went)),
    }
}

// The same of an argument that may be there.
fn count_behind<C: Cells>(
    cells: &mut C,
    engine: &mut Engine,
    toks: Option<TokList>,
) -> Result<Reading<(i32, Option<TokList>)>, NoMemory>
    requires holds { Holds C.Cells cells.old engine.old }
    ensures leads { (row : ℤ → Option (List AToken) → Whole → Executed) → Leads C.Cells (count_behind toks row) (behind_reading (λ t. row t.0 t.1)) result
        cells.new engine.new cells.old engine.old }
{
    match toks {
        Some(toks) => count_in(cells, engine, toks),
        None => Ok(Reading::Of((0, None))),
    }
}

/// The number of parameters, and the default of the first, where there is one.
pub fn parameters<C: Cells>(
    cells: &mut C,
    engine: &mut Engine,
) -> Result<Reading<(i32, Option<TokList>)>, NoMemory>
    requires holds { Holds C.Cells cells.old engine.old }
    ensures leads { (row : ℤ → Option (List AToken) → Whole → Executed) → Leads C.Cells (parameters row) (behind_reading (λ t. row t.0 t.1)) result
        cells.new engine.new cells.old engine.old }
{
    match bracket(cells, engine)? {
        Reading::Of(toks) => count_behind(cells, engine, toks),
        Reading::Stops(went) => Ok(Reading::Stops(went)),
    }
}

/// From 0 to 9 parameters, and one at least where there is a default.
pub(crate) fn count_of(count: i32, default: &Option<TokList>) -> Option<u8>
    ensures count { result ≡ count_of count default.now }
    ensures few { IfSome result (λ n. n < 10) }
{
    if count < 0 || count > 9 {
        return None;
    }
    if count == 0 && default.is_some() {
        return None;
    }
    u8::try_from(count).ok()
}

// Parameters from one to before another one.
fn parameters_from(alloc: Global, first: u8, end: u8) -> Result<TokList, NoMemory>
    requires { first ≤ end }
    ensures { IfOk result (λ toks. toks ≡ parameters_from first (end - first)) }
{
    let mut toks = TokList::new(alloc);
    'parameters: for number in first..end {
        toks.push(Tok::Param(number))?;
    }
    Ok(toks)
}

// So many parameters, of which one with a default is the first.
fn parameters_behind(
    alloc: Global,
    default: &Option<TokList>,
    parameters: u8,
) -> Result<TokList, NoMemory>
    requires { parameters < 10 }
    ensures { IfOk result (λ toks. toks ≡ parameters_behind default.now parameters) }
{
    match default {
        None => parameters_from(alloc, 1, parameters + 1),
        Some(_) => parameters_from(alloc, 2, parameters.max(1) + 1),
    }
}

/// A macro with so many parameters.
pub(crate) fn command_macro(
    alloc: Global,
    long: bool,
    default: Option<TokList>,
    parameters: u8,
    body: TokList,
) -> Result<MacroDef, NoMemory>
    requires { parameters < 10 }
    ensures { IfOk result (λ definition. definition ≡ command_macro long default parameters body) }
{
    let tokens = parameters_behind(alloc, &default, parameters)?;
    let pattern = Pattern {
        long,
        first: default,
        tokens,
    };
    Ok(MacroDef { pattern, body })
}

fn is_defined(value: &Value) -> bool
    ensures { result ≡ is_defined value.now }
{
    matches!(value, Value::Meaning(_))
}

// Whether a name that has a meaning, or none, is defined now; it may be a fault, or stay.
fn newly(kind: NewKind, defined: bool) -> Reading<()>
    ensures { (define : Whole → Executed) (w : Whole) → newly kind defined define w ≡ behind_reading (λ u. define) result w }
{
    match (kind, defined) {
        (NewKind::New, true) => Reading::Stops(Went::Stopped(Kind::AlreadyDefined)),
        (NewKind::New, false) => Reading::Of(()),
        (NewKind::Renew, true) => Reading::Of(()),
        (NewKind::Renew, false) => Reading::Stops(Went::Stopped(Kind::Undefined)),
        (NewKind::Provide, true) => Reading::Stops(Went::On),
        (NewKind::Provide, false) => Reading::Of(()),
    }
}

/// Whether a name is defined now.
pub(crate) fn newly_named<C: Cells>(
    cells: &mut C,
    engine: &mut Engine,
    kind: NewKind,
    name: &Cell,
) -> Result<Reading<()>, NoMemory>
    requires holds { Holds C.Cells cells.old engine.old }
    ensures leads { (define : Whole → Executed) → Leads C.Cells (newly_named kind name.now define) (behind_reading (λ u. define)) result
        cells.new engine.new cells.old engine.old }
{
    let value = looks::value(cells, &engine.desk.groups, name)?;
    Ok(newly(kind, is_defined(&value)))
}
