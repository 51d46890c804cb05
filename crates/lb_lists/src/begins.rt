//! Lists that begin.
ghost use Rattle.std.specs.Prelude.{◌≡◌, ◌∷◌, [], IfOk, OnOk, OnErr, Some};
ghost use Rattle.lb_base.specs.declared.token.Tok.TheVariants.{Word};
ghost use Rattle.lb_model.specs.FontTable.{row};
ghost use Rattle.lb_counters.specs.Does.{Answers};
ghost use Rattle.lb_model_sections.specs.Lists.{begun_tokens, has_four, is_too_deep, kinds, list_begun, opened};

use crate::lists::Lists;
use lb_base::{Kind, Name, NoMemory, Stop, Tok, TokList};
use lb_model_sections::Display;
use std::alloc::Global;

// The kinds in the order of their numbers.
const KINDS: [Display; 8] = [
    Display::Itemize,
    Display::Enumerate,
    Display::Description,
    Display::Quote,
    Display::Quotation,
    Display::Center,
    Display::FlushLeft,
    Display::FlushRight,
];

// How many lists may be open, and how many with marks or numbers.
const MOST: usize = 6;

const MOST_OF_A_KIND: usize = 4;

fn kind_at(number: i32) -> Option<Display>
    ensures { result ≡ row kinds number }
{
    KINDS.get(usize::try_from(number).ok()?).copied()
}

fn has_four(lists: &Lists, kind: Display) -> bool
    ensures { result ≡ has_four kind lists.now }
{
    match kind {
        Display::Itemize => MOST_OF_A_KIND <= lists.marked(),
        Display::Enumerate => MOST_OF_A_KIND <= lists.numbered(),
        _ => false,
    }
}

fn is_too_deep(lists: &Lists, kind: Display) -> bool
    ensures { result ≡ is_too_deep kind lists.now }
{
    MOST <= lists.depth() || has_four(lists, kind)
}

// A control sequence alone.
fn word(alloc: Global, name: &[u8]) -> Result<TokList, NoMemory>
    ensures { IfOk result (λ toks. toks ≡ Word name.now ∷ []) }
{
    let mut toks = TokList::new(alloc);
    toks.push(Tok::Word(Name::from_slice(alloc, name)?))?;
    Ok(toks)
}

fn begun_tokens(alloc: Global, kind: Display) -> Result<TokList, NoMemory>
    ensures { IfOk result (λ toks. toks ≡ begun_tokens kind) }
{
    match kind {
        Display::Center => word(alloc, b"centering"),
        Display::FlushLeft => word(alloc, b"raggedright"),
        _ => Ok(TokList::new(alloc)),
    }
}

// A list of this kind begins.
fn begin_kind(alloc: Global, lists: &mut Lists, kind: Display) -> Result<TokList, Stop>
    ensures answer { Answers result (list_begun (Some kind) lists.old) }
    ensures lists { OnOk result (lists.new ≡ kind ∷ lists.old) }
    ensures same { OnErr result (lists.new ≡ lists.old) }
{
    if is_too_deep(lists, kind) {
        return Err(Stop::Fault(Kind::TooDeep));
    }
    let toks = begun_tokens(alloc, kind)?;
    lists.open(kind)?;
    Ok(toks)
}

/// Begins a list or a displayed paragraph of the kind of this number, as `\@list` does (source2e, file ltlists), and tells the tokens that it puts
/// back: `\centering` for a centred one and `\raggedright` for one that is flush left. `BadCode` exactly where the number is not 0 to 7, and else
/// `TooDeep` exactly where six lists are open, or four of its kind where that has marks or numbers. After an error the lists are as they were.
pub fn begin(alloc: Global, lists: &mut Lists, kind: i32) -> Result<TokList, Stop>
    ensures answer { Answers result (list_begun (row kinds kind) lists.old) }
    ensures lists { OnOk result (lists.new ≡ opened (row kinds kind) lists.old) }
    ensures same { OnErr result (lists.new ≡ lists.old) }
{
    match kind_at(kind) {
        Some(kind) => begin_kind(alloc, lists, kind),
        None => Err(Stop::Fault(Kind::BadCode)),
    }
}
