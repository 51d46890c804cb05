//! What commands that define make of a name that is there or not (source2e, file ltdefns).

/// `\newcommand` and `\newenvironment`, `\renewcommand` and `\renewenvironment`, `\providecommand`.
#[derive(Clone, Copy, PartialEq, Eq)]
pub enum NewKind {
    New,
    Renew,
    Provide,
}
