//! Labels of items, and the tokens of items.
ghost use Rattle.std.specs.Prelude.{◌≡◌, ◌++◌, ◌∷◌, [], IfOk, codes};
ghost use Rattle.lb_base.specs.declared.token.Tok.TheVariants.{Word};
ghost use Rattle.lb_model_counters.specs.Counters.{printer_name};
ghost use Rattle.lb_model_sections.specs.Lists.{beside, counter_at, described, item_tokens, margin_text_at, mark_at, number_at};
ghost use Rattle.lb_model_sections.specs.Texts.{toks};

use lb_base::{Name, NoMemory, Tok, TokList};
use lb_counters::printer_name;
use lb_model_sections::{Display, before, joined, known};
use std::alloc::Global;

/// The mark of an item, by how many open lists have marks.
pub fn mark(alloc: Global, marked: usize) -> Result<TokList, NoMemory>
    ensures { IfOk result (λ toks. toks ≡ mark_at marked) }
{
    match marked {
        0 | 1 => known(alloc, b"*"),
        2 => known(alloc, b"-"),
        3 => known(alloc, b"+"),
        4 => known(alloc, b"."),
        _ => known(alloc, b""),
    }
}

/// The counter of an item, by how many open lists are numbered.
pub fn counter(alloc: Global, numbered: usize) -> Result<Name, NoMemory>
    ensures { IfOk result (λ name. name ≡ counter_at numbered) }
{
    match numbered {
        0 | 1 => Name::from_slice(alloc, b"enumi"),
        2 => Name::from_slice(alloc, b"enumii"),
        3 => Name::from_slice(alloc, b"enumiii"),
        4 => Name::from_slice(alloc, b"enumiv"),
        _ => Name::from_slice(alloc, b""),
    }
}

// The macro of a counter alone.
fn printer(alloc: Global, counter: &Name) -> Result<TokList, NoMemory>
    ensures { IfOk result (λ toks. toks ≡ Word (printer_name counter.now) ∷ []) }
{
    let mut toks = TokList::new(alloc);
    toks.push(Tok::Word(printer_name(alloc, counter)?))?;
    Ok(toks)
}

// A number behind whose macro this text stands.
fn with_text(alloc: Global, numbered: usize, text: TokList) -> Result<TokList, NoMemory>
    ensures { IfOk result (λ toks. toks ≡ (Word (printer_name (counter_at numbered)) ∷ []) ++ text) }
{
    let counter = counter(alloc, numbered)?;
    joined(printer(alloc, &counter)?, text)
}

/// The number of an item by its counter's macro, by how many open lists are numbered.
pub fn number(alloc: Global, numbered: usize) -> Result<TokList, NoMemory>
    ensures { IfOk result (λ toks. toks ≡ number_at numbered) }
{
    if numbered == 2 {
        let closed = with_text(alloc, numbered, known(alloc, b")")?)?;
        return before(alloc, b"(", closed);
    }
    with_text(alloc, numbered, known(alloc, b".")?)
}

// What stands before the label of a described item at a depth.
fn described_from(alloc: Global, depth: usize) -> Result<TokList, NoMemory>
    ensures { IfOk result (λ list. list ≡ toks (codes "\\hskip-" ++ margin_text_at depth ++ codes "\\relax\\hbox{\\bfseries")) }
{
    match depth {
        0 | 1 => known(alloc, b"\\hskip-25pt\\relax\\hbox{\\bfseries"),
        2 => known(alloc, b"\\hskip-22pt\\relax\\hbox{\\bfseries"),
        3 => known(alloc, b"\\hskip-18.7pt\\relax\\hbox{\\bfseries"),
        4 => known(alloc, b"\\hskip-17pt\\relax\\hbox{\\bfseries"),
        5 => known(alloc, b"\\hskip-10pt\\relax\\hbox{\\bfseries"),
        6 => known(alloc, b"\\hskip-10pt\\relax\\hbox{\\bfseries"),
        _ => known(alloc, b"\\hskip-\\relax\\hbox{\\bfseries"),
    }
}

fn described(alloc: Global, depth: usize, label: TokList) -> Result<TokList, NoMemory>
    ensures { IfOk result (λ toks. toks ≡ described label (margin_text_at depth)) }
{
    let ended = joined(label, known(alloc, b"}\\hskip5pt")?)?;
    joined(described_from(alloc, depth)?, ended)
}

fn beside(alloc: Global, label: TokList) -> Result<TokList, NoMemory>
    ensures { IfOk result (λ toks. toks ≡ beside label) }
{
    let ended = joined(label, known(alloc, b"\\hskip5pt}")?)?;
    let toks = before(alloc, b"\\hbox to0pt{\\hss", ended)?;
    Ok(toks)
}

/// What an item with a label puts back.
pub fn item_tokens(
    alloc: Global,
    kind: Display,
    depth: usize,
    label: TokList,
) -> Result<TokList, NoMemory>
    ensures { IfOk result (λ toks. toks ≡ item_tokens kind depth label) }
{
    match kind {
        Display::Description => described(alloc, depth, label),
        _ => beside(alloc, label),
    }
}
