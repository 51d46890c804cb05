//! What the cases of a table write. A table's cases are the rules `"name" => Case,`, each with `: Kind` after it where
//! the cases have kinds; before them stands in brackets what else a macro is given.

/// The names of the cases, in order: an array of texts.
#[macro_export]
macro_rules! case_names {
    ([] $($name:literal => $case:ident $(: $kind:ident)?,)*) => {
        [$($name),*]
    };
}

/// The cases themselves, in order: an array of variants of the type that is given.
#[macro_export]
macro_rules! cases {
    ([$of:ident] $($name:literal => $case:ident $(: $kind:ident)?,)*) => {
        [$($of::$case),*]
    };
}

/// The name of a value of the type that is given.
#[macro_export]
macro_rules! case_name {
    ([$of:ident $value:expr] $($name:literal => $case:ident $(: $kind:ident)?,)*) => {
        match $value { $($of::$case => $name),* }
    };
}

/// The kind, of the second type that is given, of a value of the first.
#[macro_export]
macro_rules! case_kind {
    ([$of:ident $kinds:ident $value:expr] $($name:literal => $case:ident: $kind:ident,)*) => {
        match $value { $($of::$case => $kinds::$kind),* }
    };
}

/// How many cases there are.
#[macro_export]
macro_rules! case_count {
    ([] $($name:literal => $case:ident $(: $kind:ident)?,)*) => {
        [$($name),*].len()
    };
}
