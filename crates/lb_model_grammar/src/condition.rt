//! Conditionals: what is tested, and where skipped text comes to a stop (TeXbook, chapter 20; tex.web, part 28).

/// A relation of two numbers.
#[derive(Clone, Copy, PartialEq, Eq)]
pub enum Rel {
    Less,
    Equal,
    Greater,
}

/// A test of two numbers, or of one: the last two take the left one alone. `\if` and `\ifcat` compare codes and categories.
#[derive(Clone, Copy, PartialEq, Eq)]
pub enum CondKind {
    If,
    IfCat,
    IfNum(Rel),
    IfDim(Rel),
    IfOdd,
    IfCase,
}

/// The part of a conditional that a test chooses. The parts of `\ifcase` are counted from 0.
#[derive(Clone, Copy, PartialEq, Eq)]
pub enum Branch {
    Then,
    Otherwise,
    Part(i64),
}

/// What ends a part of a conditional.
#[derive(Clone, Copy, PartialEq, Eq)]
pub enum Stopper {
    Or,
    Else,
    Fi,
}

/// What a token is to text that is skipped.
#[derive(Clone, Copy, PartialEq, Eq)]
pub enum Mark {
    /// It begins a conditional inside the text.
    Opens,
    Stops(Stopper),
    Passes,
}

/// Where skipped text is to come to a stop: at the next part, at the part behind so many `\or`, where 0 is none of them, or at the end.
#[derive(Clone, Copy, PartialEq, Eq)]
pub enum Sought {
    Any,
    Nth(u64),
    End,
}
