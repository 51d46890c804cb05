//! Tokens that stand next: pending ones, and those of texts (TeXbook, chapter 8; tex.web, part 22).
ghost use Rattle.std.specs.Prelude.{◌≡◌, ◌≤◌, ◌<◌, ◌+◌, ◌∷◌, ◌++◌, [], Bool, OnOk, OnErr, IfOk, IfErr, MatchOption, map, length, nat_lt, not, reverse, true, false};
ghost use Rattle.std.specs.Option.{option_map};
ghost use Rattle.lb_base.specs.declared.fault.Kind.TheVariants.{DepthLimit as TheDepthLimit};
ghost use Rattle.lb_base.specs.declared.token.Tok.TheVariants.{Param};
ghost use Rattle.lb_model.specs.declared.place.Got.TheVariants.{Fault as GotFault};
ghost use Rattle.lb_model.specs.Configs.{asked};
ghost use Rattle.lb_model.specs.Settings.{Setting};
ghost use Rattle.lb_model.specs.Sources.{ended_early, is_boundary, pending, source_examined, source_token, texts};
ghost use Rattle.lb_model.specs.Sources.Item.{Pending, Text as AText};
ghost use Rattle.lb_model.specs.Stops.{MayStopAt};
ghost use Rattle.lb_model.specs.Told.{Told};
ghost use Rattle.lb_model.specs.Tokens.{categories, noted_codes};
ghost use Rattle.lb_model_grammar.specs.Arguments.{substituted};
ghost use Rattle.lb_tokens.specs.Layers.{Gave, SourceGave, Stands, begins_bounded, begins_pending, behind_pending, behind_text, stands_at_text, texts_of};

use crate::stack::TokStack;
use crate::text::Text;
use lb_base::{Kind, NoMemory, Stop, Tok, TokList};
use lb_macros::{Arguments, Call, Rest, count_filled};
use lb_model::{Cells, Place};
use lb_values::{MacroDef, Shared};
use std::alloc::{AllocError, Global};
use std::marker::Model;
use std::mem;

/// The most tokens that may be pending.
const MOST_PENDING: u64 = 1_000_000;

/// A text that is read, and the tokens that are pending behind it.
#[derive(Drop)]
struct Layer {
    text: Text,
    under: TokStack,
}

/// Pending tokens and texts, seen as one flat list with the next one first. The innermost text is read in place, and what is shared is not
/// copied: a body, its arguments and the bytes of a file stand once in memory, however often they are read.
#[derive(Drop)]
pub struct Source {
    stack: TokStack,
    layers: Vec<Layer>,
    count: u64,
}

impl Model for Source {
    ghost use Rattle.std.specs.Prelude.{◌≡◌, ◌++◌, List, map, reverse};
    ghost use Rattle.lb_model.specs.Sources.{Item, pending};
    ghost use Rattle.lb_model.specs.Sources.Item.{Pending};

    ghost Value = { List Item };

    ghost use Rattle.lb_tokens.specs.Layers.{texts_of};

    ghost view = { λ s. map Pending s.stack ++ texts_of (reverse s.layers.items) };

    ghost invariant = { λ s. s.count ≡ pending (map Pending s.stack ++ texts_of (reverse s.layers.items)) };
}

/// What the innermost text gave: its next token, its end, or nothing where there is no text.
#[derive(Drop)]
enum Next {
    Tok(Tok),
    End,
    Nothing,
}

/// What is pending over the innermost text.
#[derive(Drop)]
enum Pended {
    Tok(Tok),
    Boundary,
    Nothing,
}

impl Source {
    /// Nothing. Takes no memory.
    pub fn new(alloc: Global) -> Source
        ensures { result ≡ [] }
    {
        Source {
            stack: TokStack::new(alloc),
            layers: Vec::new(alloc),
            count: 0,
        }
    }

    /// The next token. Where `passes` holds the ends of texts are passed, and none comes at the end of the source; else none comes where
    /// the innermost text ends. A token of a text takes its place. The fault is `Invalid`, at an invalid character, which stays where it is
    /// and whose place is taken.
    #[inline(always)]
    pub fn next<C: Cells>(
        &mut self,
        alloc: Global,
        cats: &mut C,
        passes: bool,
        place: &mut Option<Place>,
    ) -> Result<Option<Tok>, Stop>
        ensures told { Told C.Cells cats.new cats.old }
        ensures ok { IfOk result (λ tok. (p : Setting) → C.agrees cats.new p → source_token passes (categories p (C.meaning cats.old p)) place.old self.old ≡ record { got = asked tok; source = self.new; place = place.new }) }
        ensures fault { IfErr result (λ e. MayStopAt e (λ k. (p : Setting) → C.agrees cats.new p → source_token passes (categories p (C.meaning cats.old p)) place.old self.old ≡ record { got = GotFault k; source = self.new; place = place.new })) }
        ensures notes { OnOk result ((p : Setting) → C.agrees cats.new p → C.notes cats.new ≡ option_map (noted_codes (source_examined passes (categories p (C.meaning cats.old p)) self.old)) (C.notes cats.old)) }
        ensures notes_on_fault { IfErr result (λ e. MayStopAt e (λ k. (p : Setting) → C.agrees cats.new p → C.notes cats.new ≡ option_map (noted_codes (source_examined passes (categories p (C.meaning cats.old p)) self.old)) (C.notes cats.old))) }
    {
        self.next_noted(alloc, cats, passes, place)
    }

    /// Puts a text before the rest.
    pub fn put_text(&mut self, text: Text) -> Result<(), NoMemory>
        ensures ok { OnOk result (self.new ≡ AText text ∷ self.old) }
        ensures err { OnErr result (self.new ≡ self.old) }
    {
        put_layer(&mut self.stack, &mut self.layers, text)
    }

    /// Puts a token before the rest. The fault is `DepthLimit`, where a million tokens are pending.
    pub fn put_token(&mut self, tok: Tok) -> Result<(), Stop>
        ensures ok { OnOk result ((pending self.old < 1000000) × (self.new ≡ Pending tok ∷ self.old)) }
        ensures err { OnErr result (self.new ≡ self.old) }
        ensures fault { IfErr result (λ e. MayStopAt e (λ k. (k ≡ TheDepthLimit) × (1000000 ≤ pending self.old))) }
    {
        if self.count >= MOST_PENDING {
            return Err(Stop::Fault(Kind::DepthLimit));
        }
        match self.stack.push(tok) {
            Ok(()) => {
                self.count += 1;
                Ok(())
            }
            Err(_) => Err(Stop::Memory),
        }
    }

    /// Puts a boundary before the rest, past which nothing is taken until it is taken away. It has room where a million tokens are pending.
    pub fn put_boundary(&mut self) -> Result<(), NoMemory>
        ensures ok { OnOk result (self.new ≡ Pending (Param 0) ∷ self.old) }
        ensures err { OnErr result (self.new ≡ self.old) }
    {
        let Some(count) = self.count.checked_add(1) else {
            return Err(AllocError);
        };
        self.stack.push(Tok::Param(0))?;
        self.count = count;
        Ok(())
    }

    /// Puts the tokens of a list before the rest, without a copy of it, or answers false where more than a million would be pending.
    pub fn put_list(&mut self, list: Shared<TokList>) -> Result<bool, NoMemory>
        ensures room { IfOk result (λ fits. nat_lt 1000000 (length list + pending self.old) ≡ not fits) }
        ensures put { IfOk result (λ fits. fits ≡ true → self.new ≡ map Pending list ++ self.old) }
        ensures kept { IfOk result (λ fits. fits ≡ false → self.new ≡ self.old) }
        ensures err { OnErr result (self.new ≡ self.old) }
    {
        let count = list.get().len() as u64;
        if count.saturating_add(self.count) > MOST_PENDING {
            return Ok(false);
        }
        self.stack.push_list(Rest::of(list))?;
        self.count += count;
        Ok(true)
    }

    /// Puts a macro's body with its arguments before the rest, without a copy of them, or answers false where more than a million tokens
    /// would be pending.
    pub fn put_call(
        &mut self,
        definition: Shared<MacroDef>,
        arguments: Arguments,
        alloc: Global,
    ) -> Result<bool, NoMemory>
        ensures room { IfOk result (λ fits. nat_lt 1000000 (length (substituted arguments definition.body) + pending self.old) ≡ not fits) }
        ensures put { IfOk result (λ fits. fits ≡ true → self.new ≡ map Pending (substituted arguments definition.body) ++ self.old) }
        ensures kept { IfOk result (λ fits. fits ≡ false → self.new ≡ self.old) }
        ensures err { OnErr result (self.new ≡ self.old) }
    {
        let count = count_filled(&arguments, definition.get().body.as_slice());
        if count.saturating_add(self.count) > MOST_PENDING {
            return Ok(false);
        }
        self.stack
            .push_call(Call::of(definition, arguments), alloc)?;
        self.count += count;
        Ok(true)
    }

    /// Whether a boundary stands next. After want of memory nothing is left, or not the token that stood next.
    #[tactic(auto, using(crate::proofs::LayerLemmas::bounded_text, crate::proofs::LayerLemmas::bounded_first))]
    pub fn is_bounded(&mut self) -> Result<bool, NoMemory>
        ensures { IfOk result (λ bounded. (begins_bounded self.old ≡ bounded) × (self.new ≡ self.old)) }
    {
        match self.stack.pop() {
            Ok(None) => Ok(false),
            Ok(Some(tok)) => {
                let bounded = is_boundary(&tok);
                match self.stack.push(tok) {
                    Ok(()) => Ok(bounded),
                    Err(error) => {
                        self.count -= 1;
                        Err(error)
                    }
                }
            }
            Err(error) => {
                self.layers.clear();
                self.count = 0;
                Err(error)
            }
        }
    }

    /// Takes away the token that is pending next, as a boundary is. After want of memory nothing is left.
    #[tactic(auto, using(crate::proofs::LayerLemmas::behind_texts, crate::proofs::LayerLemmas::behind_first))]
    pub fn drop_pending(&mut self) -> Result<(), NoMemory>
        ensures { OnOk result (self.new ≡ behind_pending self.old) }
    {
        match self.stack.pop() {
            Ok(None) => Ok(()),
            Ok(Some(_tok)) => {
                self.count -= 1;
                Ok(())
            }
            Err(error) => {
                self.layers.clear();
                self.count = 0;
                Err(error)
            }
        }
    }

    /// Whether so many tokens more may be pending. Takes no memory.
    pub fn has_room(&self, count: u64) -> bool
        ensures { nat_lt 1000000 (count + pending self.now) ≡ not result }
    {
        count.saturating_add(self.count) <= MOST_PENDING
    }

    /// How many texts are open. Takes no memory, and the same time for any number.
    #[tactic(auto, using(crate::proofs::LayerLemmas::texts_open))]
    pub fn texts(&self) -> u64
        ensures { result ≡ texts self.now }
    {
        self.layers.len() as u64
    }

    /// The innermost text ends after its present line. Takes no memory.
    #[tactic(auto, using(crate::proofs::LayerLemmas::early_over, crate::proofs::LayerLemmas::pending_over))]
    pub fn end_early(&mut self)
        ensures { self.new ≡ ended_early self.old }
    {
        end_last(&mut self.layers);
    }

    // The next token, with the codes that are looked at for it.
    #[inline(always)]
    fn next_noted<C: Cells>(
        &mut self,
        alloc: Global,
        cats: &mut C,
        passes: bool,
        place: &mut Option<Place>,
    ) -> Result<Option<Tok>, Stop>
        ensures told { Told C.Cells cats.new cats.old }
        ensures gave { IfOk result (λ tok. (p : Setting) → C.agrees cats.new p → SourceGave passes (categories p (C.meaning cats.old p)) (asked tok) place.old self.old (C.notes cats.old) place.new self.new (C.notes cats.new)) }
        ensures fault { IfErr result (λ e. MayStopAt e (λ k. (p : Setting) → C.agrees cats.new p → SourceGave passes (categories p (C.meaning cats.old p)) (GotFault k) place.old self.old (C.notes cats.old) place.new self.new (C.notes cats.new))) }
    {
        'texts: loop {
            match self.pop()? {
                Pended::Tok(tok) => return Ok(Some(tok)),
                Pended::Boundary => return Ok(None),
                Pended::Nothing => {}
            }
            match self.read(alloc, cats, place)? {
                Next::Tok(tok) => return Ok(Some(tok)),
                Next::Nothing => return Ok(None),
                Next::End => {
                    if !passes {
                        return Ok(None);
                    }
                    self.close();
                }
            }
        }
    }

    // The next pending token over the innermost text, which is taken unless it is a boundary. After want of memory
    // nothing is left, or no boundary.
    #[inline(always)]
    #[tactic(auto, using(crate::proofs::LayerLemmas::begins_text, crate::proofs::LayerLemmas::token_stands, crate::proofs::LayerLemmas::boundary_stands))]
    fn pop(&mut self) -> Result<Pended, NoMemory>
        ensures ok { IfOk result (λ pended. Stands pended self.old self.new) }
    {
        match self.stack.pop() {
            Ok(None) => Ok(Pended::Nothing),
            Ok(Some(tok)) => {
                if is_boundary(&tok) {
                    return match self.stack.push(tok) {
                        Ok(()) => Ok(Pended::Boundary),
                        Err(error) => {
                            self.count -= 1;
                            Err(error)
                        }
                    };
                }
                self.count -= 1;
                Ok(Pended::Tok(tok))
            }
            Err(error) => {
                self.layers.clear();
                self.count = 0;
                Err(error)
            }
        }
    }

    // What the innermost text gives, where no token is pending over it.
    #[inline(always)]
    fn read<C: Cells>(
        &mut self,
        alloc: Global,
        cats: &mut C,
        place: &mut Option<Place>,
    ) -> Result<Next, Stop>
        requires { begins_pending self.old ≡ false }
        ensures told { Told C.Cells cats.new cats.old }
        ensures gave { IfOk result (λ next. (p : Setting) → C.agrees cats.new p → Gave (categories p (C.meaning cats.old p)) next place.old self.old (C.notes cats.old) place.new self.new (C.notes cats.new)) }
        ensures fault { IfErr result (λ e. MayStopAt e (λ k. (p : Setting) → C.agrees cats.new p → (passes : Bool) → SourceGave passes (categories p (C.meaning cats.old p)) (GotFault k) place.old self.old (C.notes cats.old) place.new self.new (C.notes cats.new))) }
        ensures stands { IfOk result (λ next. stands_at_text next self.new) }
        ensures texts { texts self.new ≡ texts self.old }
    {
        read_last(alloc, &mut self.layers, cats, place)
    }

    // Passes the end of the innermost text, where no token is pending over it.
    fn close(&mut self)
        requires { begins_pending self.old ≡ false }
        ensures { self.new ≡ behind_text self.old }
    {
        close_last(&mut self.stack, &mut self.layers);
    }
}

// Whether nothing is taken past a token until it is taken away.
#[inline(always)]
fn is_boundary(tok: &Tok) -> bool
    ensures { is_boundary tok.now ≡ result }
{
    match tok {
        Tok::Param(number) => *number == 0,
        Tok::Char(_, _) | Tok::Word(_) | Tok::Active(_) => false,
    }
}

// Puts a text with the tokens that stand over the innermost one behind it.
fn put_layer(stack: &mut TokStack, layers: &mut Vec<Layer>, text: Text) -> Result<(), NoMemory>
    ensures ok { OnOk result ((stack.new ≡ []) × (texts_of (reverse layers.new.items) ≡ AText text ∷ map Pending stack.old ++ texts_of (reverse layers.old.items))) }
    ensures err { OnErr result ((stack.new ≡ stack.old) × (texts_of (reverse layers.new.items) ≡ texts_of (reverse layers.old.items))) }
{
    let none = TokStack::new(*layers.allocator());
    layers.push(Layer { text, under: none })?;
    let last = layers.len() - 1;
    mem::swap(&mut layers[last].under, stack);
    Ok(())
}

// Takes the last text away, where no token is pending over it.
fn close_last(stack: &mut TokStack, layers: &mut Vec<Layer>)
    requires { stack.old ≡ [] }
    ensures closed { map Pending stack.new ++ texts_of (reverse layers.new.items) ≡ behind_text (texts_of (reverse layers.old.items)) }
    ensures pending { pending (map Pending stack.new ++ texts_of (reverse layers.new.items)) ≡ pending (texts_of (reverse layers.old.items)) }
{
    if let Some(layer) = layers.pop() {
        *stack = layer.under;
    }
}

// What the last text gives.
#[inline(always)]
fn read_last<C: Cells>(
    alloc: Global,
    layers: &mut Vec<Layer>,
    cats: &mut C,
    place: &mut Option<Place>,
) -> Result<Next, Stop>
    ensures told { Told C.Cells cats.new cats.old }
    ensures gave { IfOk result (λ next. (p : Setting) → C.agrees cats.new p → Gave (categories p (C.meaning cats.old p)) next place.old (texts_of (reverse layers.old.items)) (C.notes cats.old) place.new (texts_of (reverse layers.new.items)) (C.notes cats.new)) }
    ensures fault { IfErr result (λ e. MayStopAt e (λ k. (p : Setting) → C.agrees cats.new p → (passes : Bool) → SourceGave passes (categories p (C.meaning cats.old p)) (GotFault k) place.old (texts_of (reverse layers.old.items)) (C.notes cats.old) place.new (texts_of (reverse layers.new.items)) (C.notes cats.new))) }
    ensures stands { IfOk result (λ next. stands_at_text next (texts_of (reverse layers.new.items))) }
    ensures texts { texts (texts_of (reverse layers.new.items)) ≡ texts (texts_of (reverse layers.old.items)) }
    ensures pending { pending (texts_of (reverse layers.new.items)) ≡ pending (texts_of (reverse layers.old.items)) }
{
    if layers.is_empty() {
        return Ok(Next::Nothing);
    }
    let last = layers.len() - 1;
    let layer = &mut layers[last];
    match layer.text.next(alloc, cats) {
        Ok(None) => Ok(Next::End),
        Ok(Some(tok)) => {
            layer.text.place_at(place)?;
            Ok(Next::Tok(tok))
        }
        Err(stop) => {
            layer.text.place_at(place)?;
            Err(stop)
        }
    }
}

// The last text ends after its present line.
fn end_last(layers: &mut Vec<Layer>)
    ensures ended { texts_of (reverse layers.new.items) ≡ ended_early (texts_of (reverse layers.old.items)) }
    ensures pending { pending (texts_of (reverse layers.new.items)) ≡ pending (texts_of (reverse layers.old.items)) }
{
    if layers.is_empty() {
        return;
    }
    let last = layers.len() - 1;
    let layer = &mut layers[last];
    layer.text.end_early();
}
