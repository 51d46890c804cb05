//! What scans are given, and what they find (TeXbook, chapter 24). Dimensions are in scaled points.
use lb_base::{Bytes, Glue, Tok};

/// An internal quantity that begins with a token, if one does.
#[derive(Clone, Copy)]
pub enum Quantity {
    NotOne,
    Number(i32),
    Dimen(i32),
    Skip(Glue),
}

/// What is scanned.
#[derive(Drop)]
pub enum ScanKind {
    Number,
    Dimen,
    Glue,
    Keyword(Bytes),
}

/// What a scan is given: a token, the quantity that it asked for, or the end of the piece.
#[derive(Drop)]
pub enum Given {
    Tok(Tok),
    Quantity(Quantity),
    End,
}

/// What a scan wants next: the next expanded token, the next token unexpanded, the quantity that begins with the token that was given
/// last, the quad or the x-height of the present font as a dimension, or nothing more.
#[derive(Clone, Copy, PartialEq, Eq)]
pub enum Want {
    Expanded,
    Plain,
    Quantity,
    Em,
    Ex,
    Done,
}

/// What a scan finds. `Found` tells whether a keyword came.
#[derive(Clone, Copy)]
pub enum Scanned {
    Number(i32),
    Dimen(i32),
    Skip(Glue),
    Found(bool),
}
