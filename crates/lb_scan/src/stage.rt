//! How far a scan has come.
use crate::length::Length;
use crate::number::Number;
use lb_base::{Glue, Kind};
use lb_model_grammar::Scanned;

/// What a dimension is for: it stands alone, it is the width of glue, or glue stretches or shrinks by it.
#[derive(Clone, Copy)]
pub(crate) enum Purpose {
    Dimension,
    Width,
    Stretch(Glue),
    Shrink(Glue),
}

/// How far a scan has come.
#[derive(Clone, Copy)]
pub(crate) enum Stage {
    Number(Number),
    Length(Purpose, Length),
    /// `plus` or `minus` may come behind spaces.
    Stretchable(Glue),
    /// Letters of `plus` were read.
    Plus(Glue, usize),
    /// `minus` may come behind spaces.
    Shrinkable(Glue),
    /// Letters of `minus` were read.
    Minus(Glue, usize),
    /// A word comes behind spaces.
    Spaces,
    /// Letters of a word were read.
    Letters(usize),
    Over(Scanned),
    Failed(Kind),
}

/// What is kept of what was given, since it may have to be given back: all with the last, nothing, or the last alone.
#[derive(Clone, Copy)]
pub(crate) enum Keeps {
    All,
    Nothing,
    Last,
}
