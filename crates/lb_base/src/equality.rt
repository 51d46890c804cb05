//! Whether nodes have the same values.
ghost use Rattle.std.specs.Prelude.{◌≡◌, IsTrue, ◌↔◌};

use crate::font::Metrics;
use crate::glue::{Glue, GlueSet};
use crate::node::{Boxed, Discretionary, HeadMark, Ligature, Node, Note, RuleSize};
use crate::token::Tok;

/// Whether two characters have the same size.
fn same_metrics(metrics: Metrics, other: Metrics) -> bool
    ensures { IsTrue result ↔ (metrics ≡ other) }
{
    metrics.width == other.width
        && metrics.height == other.height
        && metrics.depth == other.depth
        && metrics.italic == other.italic
}

/// Whether two glues are the same.
pub fn equal_glue(glue: Glue, other: Glue) -> bool
    ensures { IsTrue result ↔ (glue ≡ other) }
{
    glue.width == other.width
        && glue.stretch == other.stretch
        && glue.stretch_order == other.stretch_order
        && glue.shrink == other.shrink
        && glue.shrink_order == other.shrink_order
}

fn same_set(set: GlueSet, other: GlueSet) -> bool
    ensures { IsTrue result ↔ (set ≡ other) }
{
    set.excess == other.excess && set.order == other.order
}

fn same_rule(size: RuleSize, other: RuleSize) -> bool
    ensures { IsTrue result ↔ (size ≡ other) }
{
    size.width == other.width && size.height == other.height && size.depth == other.depth
}

fn same_token(token: &Tok, other: &Tok) -> bool
    ensures { IsTrue result ↔ (token.now ≡ other.now) }
{
    token == other
}

/// Whether two lists of tokens are the same.
pub fn equal_tokens(tokens: &[Tok], others: &[Tok]) -> bool
    ensures { IsTrue result ↔ (tokens.now ≡ others.now) }
{
    if tokens.len() != others.len() {
        return false;
    }
    for (index, token) in tokens.iter().enumerate() {
        if !same_token(token, &others[index]) {
            return false;
        }
    }
    true
}

impl Ligature {
    /// Whether two ligatures have the same value.
    pub fn equals(&self, other: &Ligature) -> bool
        ensures { IsTrue result ↔ (self.now ≡ other.now) }
    {
        self.font == other.font
            && self.code == other.code
            && same_metrics(self.metrics, other.metrics)
            && self.letters == other.letters
    }
}

impl Note {
    /// Whether two notes have the same value.
    pub fn equals(&self, other: &Note) -> bool
        ensures { IsTrue result ↔ (self.now ≡ other.now) }
    {
        match (self, other) {
            (
                Note::Label { key, text },
                Note::Label {
                    key: other_key,
                    text: other_text,
                },
            ) => key == other_key && text == other_text,
            (
                Note::Contents {
                    extension,
                    kind,
                    title,
                },
                Note::Contents {
                    extension: other_extension,
                    kind: other_kind,
                    title: other_title,
                },
            ) => extension == other_extension
                && kind == other_kind
                && equal_tokens(title.as_slice(), other_title.as_slice()),
            _ => false,
        }
    }
}

impl Node {
    /// Whether two nodes have the same value.
    #[cycle(equal)]
    pub fn equals(&self, other: &Node) -> bool
        ensures { IsTrue result ↔ (self.now ≡ other.now) }
    {
        match (self, other) {
            (
                Node::Char {
                    font,
                    code,
                    metrics,
                },
                Node::Char {
                    font: other_font,
                    code: other_code,
                    metrics: other_metrics,
                },
            ) => {
                font == other_font && code == other_code && same_metrics(*metrics, *other_metrics)
            }
            (
                Node::Kern { width, origin },
                Node::Kern {
                    width: other_width,
                    origin: other_origin,
                },
            ) => width == other_width && origin == other_origin,
            (Node::Lig(ligature), Node::Lig(other)) => ligature.get().equals(other.get()),
            (Node::Glue(glue), Node::Glue(other)) => equal_glue(*glue, *other),
            (Node::Penalty(penalty), Node::Penalty(other)) => penalty == other,
            (Node::Disc(parts), Node::Disc(other)) => parts.get().equals(other.get()),
            (Node::Rule(size), Node::Rule(other)) => same_rule(*size, *other),
            (Node::Boxed(boxed), Node::Boxed(other)) => boxed.get().equals(other.get()),
            (Node::Note(note), Node::Note(other)) => note.get().equals(other.get()),
            (Node::Mark(mark), Node::Mark(other)) => mark.get().equals(other.get()),
            (Node::Ins(footnote), Node::Ins(other)) => footnote.get().equals(other.get()),
            (Node::Adjust(material), Node::Adjust(other)) => {
                equal_nodes(material.as_slice(), other.as_slice())
            }
            _ => false,
        }
    }
}

impl Discretionary {
    /// Whether two discretionaries have the same three parts.
    #[cycle(equal)]
    pub fn equals(&self, other: &Discretionary) -> bool
        ensures { IsTrue result ↔ (self.now ≡ other.now) }
    {
        equal_nodes(self.pre_break.as_slice(), other.pre_break.as_slice())
            && equal_nodes(self.post_break.as_slice(), other.post_break.as_slice())
            && equal_nodes(self.no_break.as_slice(), other.no_break.as_slice())
    }
}

impl HeadMark {
    /// Whether two marks have the same boxes.
    #[cycle(equal)]
    pub fn equals(&self, other: &HeadMark) -> bool
        ensures { IsTrue result ↔ (self.now ≡ other.now) }
    {
        match (self, other) {
            (
                HeadMark::Both { left, right },
                HeadMark::Both {
                    left: other_left,
                    right: other_right,
                },
            ) => left.get().equals(other_left.get()) && right.get().equals(other_right.get()),
            (HeadMark::Right(right), HeadMark::Right(other)) => right.get().equals(other.get()),
            _ => false,
        }
    }
}

impl Boxed {
    /// Whether two boxes have the same value.
    #[cycle(equal)]
    pub fn equals(&self, other: &Boxed) -> bool
        ensures { IsTrue result ↔ (self.now ≡ other.now) }
    {
        self.axis == other.axis
            && self.width == other.width
            && self.height == other.height
            && self.depth == other.depth
            && self.shift == other.shift
            && same_set(self.glue_set, other.glue_set)
            && equal_nodes(self.items.as_slice(), other.items.as_slice())
    }
}

/// Whether two lists of nodes have the same values.
#[cycle(equal)]
pub fn equal_nodes(nodes: &[Node], others: &[Node]) -> bool
    ensures { IsTrue result ↔ (nodes.now ≡ others.now) }
{
    if nodes.len() != others.len() {
        return false;
    }
    for (index, node) in nodes.iter().enumerate() {
        if !node.equals(&others[index]) {
            return false;
        }
    }
    true
}
