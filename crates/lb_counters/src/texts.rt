//! Counters as texts, and the macro that prints one.
ghost use Rattle.std.specs.Prelude.{◌≡◌, IfOk, true};
ghost use Rattle.lb_model.specs.Ranges.{is_macro};
ghost use Rattle.lb_model.specs.Settings.{Setting};
ghost use Rattle.lb_model_counters.specs.Counters.{arabic, print_counter, printer, printer_name};
ghost use Rattle.lb_counters.specs.Does.{Does};

use crate::numbers::number_of;
use lb_base::{Bytes, Category, Kind, Name, NoMemory, Stop, Tok, TokList};
use lb_model::Cells;
use lb_print::{in_form, printed};
use lb_values::{Form, MacroDef, Pattern};
use std::alloc::Global;

/// The text of a counter in a form (`\arabic`, `\roman`, `\Roman`, `\alph`, `\Alph`; source2e, file ltcounts). Roman numerals print nothing
/// below 1, letters nothing for 0. `NoCounter` exactly where there is none of this name, `CounterTooLarge` exactly for letters below 0 and over
/// 26 and Roman numerals over 100,000. Nothing is changed.
#[tactic(auto, unfolding(lb_model_counters::specs::Counters::print_counter))]
pub fn print<C: Cells>(alloc: Global, cells: &mut C, name: &Name, form: Form) -> Result<Bytes, Stop>
    ensures does { Does C.Cells (print_counter name.now form) result cells.new cells.old }
    ensures stays { (p : Setting) → C.agrees cells.new p → C.meaning cells.new p ≡ C.meaning cells.old p }
{
    let Some(number) = number_of(cells, name)? else {
        return Err(Stop::Fault(Kind::NoCounter));
    };
    match in_form(alloc, form, number)? {
        None => Err(Stop::Fault(Kind::CounterTooLarge)),
        Some(text) => Ok(text),
    }
}

/// The name of the macro that prints a counter: `\thew` for w (source2e, file ltcounts). The only error is want of memory.
pub fn printer_name(alloc: Global, name: &Name) -> Result<Name, NoMemory>
    ensures { IfOk result (λ text. text ≡ printer_name name.now) }
{
    let the = Name::from_slice(alloc, b"the")?;
    the.with_ending(alloc, name.as_slice())
}

// `\arabic{w}` for w.
fn arabic(alloc: Global, name: &Name) -> Result<TokList, NoMemory>
    ensures { IfOk result (λ toks. toks ≡ arabic name.now) }
{
    let mut toks = Vec::new(alloc);
    toks.push(Tok::Word(Name::from_slice(alloc, b"arabic")?))?;
    toks.push(Tok::Char(Category::BeginGroup, b'{'))?;
    let mut name = printed(alloc, name.as_slice())?.into_vec();
    toks.append(&mut name)?;
    toks.push(Tok::Char(Category::EndGroup, b'}'))?;
    Ok(TokList::from_vec(toks))
}

/// The macro that prints a new counter: `\arabic{w}` for w, without parameters (source2e, file ltcounts). The only error is want of memory.
#[tactic(auto, using(crate::proofs::Printers::printer_is_macro), unfolding(lb_model_counters::specs::Counters::printer))]
pub fn printer(alloc: Global, name: &Name) -> Result<MacroDef, NoMemory>
    ensures value { IfOk result (λ definition. definition ≡ printer name.now) }
    ensures is_macro { IfOk result (λ definition. is_macro definition ≡ true) }
{
    let body = arabic(alloc, name)?;
    let tokens = TokList::new(alloc);
    let pattern = Pattern {
        long: false,
        first: None,
        tokens,
    };
    Ok(MacroDef { pattern, body })
}
