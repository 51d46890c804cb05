//! Open lists (tex.web, part 16). Lengths are in scaled points, 65536 to the point.
ghost use Rattle.std.specs.Prelude.{◌≡◌, ◌≤ℤ◌, ◌<ℤ◌, pos};
ghost use Rattle.lb_model_nest.specs.Wholes.{is_paragraph, is_restricted, is_vertical, mode_of, new_level};
ghost use Rattle.lb_model_nest.specs.Pages.{is_page};
ghost use Rattle.lb_model_nest.specs.Words.{factor_behind};

use lb_base::{Axis, NodeList};
use lb_model::Mode;
use lb_model_nest::ListKind;
use sqlite_items::Items;
use std::alloc::Global;
use std::marker::Model;

/// Behind nothing, no glue comes before the next box: −1000pt.
pub(crate) const NO_DEPTH: i32 = -65_536_000;

/// A space factor, in thousandths, from 1 to 32767 (TeXbook, chapter 12).
#[derive(Clone, Copy)]
pub struct SpaceFactor {
    thousandths: i32,
}

impl Model for SpaceFactor {
    ghost use Rattle.std.specs.Prelude.{ℤ, pos, ◌<ℤ◌, ◌≤ℤ◌};

    ghost Value = { ℤ };

    ghost view = { λ f. f.thousandths };

    ghost invariant = { λ f. (pos 0 <ℤ f.thousandths) × (f.thousandths ≤ℤ pos 32767) };

    ghost inverse = { λ z. record { thousandths = z } };
}

impl SpaceFactor {
    /// That at the beginning of a list.
    pub fn normal() -> SpaceFactor
        ensures { result ≡ pos 1000 }
    {
        SpaceFactor { thousandths: 1000 }
    }

    /// That behind a character whose code has this one; where it is 0, the space factor stays.
    pub fn behind(self, of_code: i32) -> SpaceFactor
        requires { of_code ≤ℤ pos 32767 }
        ensures { result ≡ factor_behind of_code self }
    {
        if of_code <= 0 {
            return self;
        }
        if self.thousandths < 1000 && 1000 < of_code {
            return SpaceFactor { thousandths: 1000 };
        }
        SpaceFactor {
            thousandths: of_code,
        }
    }

    pub fn thousandths(self) -> i32
        ensures value { result ≡ self }
        ensures above { pos 0 <ℤ result }
        ensures small { result ≤ℤ pos 32767 }
    {
        self.thousandths
    }
}

/// An open list, with its space factor and the depth of its last box.
#[derive(Drop)]
pub struct OpenList {
    pub kind: ListKind,
    pub nodes: NodeList,
    pub space_factor: SpaceFactor,
    pub prev_depth: i32,
}

impl Model for OpenList {
    ghost use Rattle.std.specs.Coded.{codes};
    ghost use Rattle.lb_base.specs.contracts.node.Node as node;
    ghost use Rattle.lb_model_nest.specs.declared.nest.Level.{Level};

    ghost Value = { Level };

    ghost coded = { Prim.hlevel (codes, node.the_row.coded) };

    ghost view = { λ l. record { kind = l.kind; nodes = l.nodes; space_factor = l.space_factor; prev_depth = l.prev_depth } };
}

impl OpenList {
    /// A list without nodes. Takes no memory.
    pub fn new(alloc: Global, kind: ListKind) -> OpenList
        ensures { result ≡ new_level kind }
    {
        OpenList {
            kind,
            nodes: Items::new(alloc),
            space_factor: SpaceFactor::normal(),
            prev_depth: NO_DEPTH,
        }
    }

    /// The list behind a character whose code has this space factor.
    pub(crate) fn follow(&mut self, of_code: i32)
        requires { of_code ≤ℤ pos 32767 }
        ensures { self.new ≡ record self.old { space_factor = factor_behind of_code self.old.space_factor } }
    {
        self.space_factor = self.space_factor.behind(of_code);
    }
}

/// The mode in a list (TeXbook, chapter 13).
pub fn mode(kind: ListKind) -> Mode
    ensures { result ≡ mode_of kind }
{
    match kind {
        ListKind::Page => Mode::Vertical,
        ListKind::Paragraph => Mode::Paragraph,
        ListKind::Box(Axis::Horizontal, _, _) => Mode::Restricted,
        ListKind::Box(Axis::Vertical, _, _) => Mode::Vertical,
        ListKind::Adjust => Mode::Vertical,
        ListKind::Footnote => Mode::Vertical,
        ListKind::Discretionary(_) => Mode::Restricted,
        ListKind::Mark => Mode::Restricted,
        ListKind::MarkBox { .. } => Mode::Restricted,
    }
}

/// Whether a list is vertical.
pub fn is_vertical(kind: ListKind) -> bool
    ensures { result ≡ is_vertical (mode_of kind) }
{
    matches!(mode(kind), Mode::Vertical)
}

/// Whether a list is that of pages.
pub fn is_page(kind: ListKind) -> bool
    ensures { result ≡ is_page kind }
{
    matches!(kind, ListKind::Page)
}

/// Whether a list is that of a paragraph.
pub fn is_paragraph(kind: ListKind) -> bool
    ensures { result ≡ is_paragraph (mode_of kind) }
{
    matches!(mode(kind), Mode::Paragraph)
}

/// Whether a list is horizontal, but not that of a paragraph.
pub fn is_restricted(kind: ListKind) -> bool
    ensures { result ≡ is_restricted (mode_of kind) }
{
    matches!(mode(kind), Mode::Restricted)
}
