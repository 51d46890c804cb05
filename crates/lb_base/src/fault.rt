//! Faults of an input, by kind and place.
ghost use Rattle.std.specs.Prelude.{◌≡◌};
ghost use Rattle.lb_base.specs.declared.fault.Stop.TheVariants.{Memory};

use crate::name::Name;
use std::alloc::AllocError;

/// What is wrong with an input. `NotYet` is an input form that is not built yet.
#[derive(Clone, Copy, PartialEq, Eq)]
pub enum Kind {
    NotYet,
    NoClass,
    NoBegin,
    NoEnd,
    TooManyChapters,
    IncludeTwice,
    IncludeInside,
    FileMissing,
    FontMissing,
    BadTfm,
    Invalid,
    Undefined,
    UseMismatch,
    Runaway,
    NumberMissing,
    NumberTooBig,
    UnitMissing,
    DimenTooLarge,
    BadCode,
    Overflow,
    GroupExtra,
    GroupOpen,
    IfOpen,
    ExtraFi,
    CounterTooLarge,
    NoCounter,
    ItemOutside,
    EnvironmentMismatch,
    TooDeep,
    DepthLimit,
    ParagraphLimit,
    PageLimit,
    StepLimit,
    MathRefused,
    AlignRefused,
    PackageRefused,
    ClassRefused,
    CommandRefused,
    WrongMode,
    TokenMisplaced,
    AlreadyDefined,
    NotPreamble,
}

impl Kind {
    ghost use Rattle.lb_base.specs.Kinds.{name_of};

    /// The name that a message shows.
    pub fn name(self) -> &'static str
        ensures { result.now ≡ name_of self }
    {
        match self {
            Kind::NotYet => "NotYet",
            Kind::NoClass => "NoClass",
            Kind::NoBegin => "NoBegin",
            Kind::NoEnd => "NoEnd",
            Kind::TooManyChapters => "TooManyChapters",
            Kind::IncludeTwice => "IncludeTwice",
            Kind::IncludeInside => "IncludeInside",
            Kind::FileMissing => "FileMissing",
            Kind::FontMissing => "FontMissing",
            Kind::BadTfm => "BadTfm",
            Kind::Invalid => "Invalid",
            Kind::Undefined => "Undefined",
            Kind::UseMismatch => "UseMismatch",
            Kind::Runaway => "Runaway",
            Kind::NumberMissing => "NumberMissing",
            Kind::NumberTooBig => "NumberTooBig",
            Kind::UnitMissing => "UnitMissing",
            Kind::DimenTooLarge => "DimenTooLarge",
            Kind::BadCode => "BadCode",
            Kind::Overflow => "Overflow",
            Kind::GroupExtra => "GroupExtra",
            Kind::GroupOpen => "GroupOpen",
            Kind::IfOpen => "IfOpen",
            Kind::ExtraFi => "ExtraFi",
            Kind::CounterTooLarge => "CounterTooLarge",
            Kind::NoCounter => "NoCounter",
            Kind::ItemOutside => "ItemOutside",
            Kind::EnvironmentMismatch => "EnvironmentMismatch",
            Kind::TooDeep => "TooDeep",
            Kind::DepthLimit => "DepthLimit",
            Kind::ParagraphLimit => "ParagraphLimit",
            Kind::PageLimit => "PageLimit",
            Kind::StepLimit => "StepLimit",
            Kind::MathRefused => "MathRefused",
            Kind::AlignRefused => "AlignRefused",
            Kind::PackageRefused => "PackageRefused",
            Kind::ClassRefused => "ClassRefused",
            Kind::CommandRefused => "CommandRefused",
            Kind::WrongMode => "WrongMode",
            Kind::TokenMisplaced => "TokenMisplaced",
            Kind::AlreadyDefined => "AlreadyDefined",
            Kind::NotPreamble => "NotPreamble",
        }
    }
}

/// The first fault of an input. The line counts from 1, and is 0 where the fault is of a whole file.
#[derive(Clone, Drop, PartialEq, Eq)]
pub struct Fault {
    pub kind: Kind,
    pub file: Name,
    pub line: u64,
}

/// Why a call stops: for want of memory, for a fault whose place its caller knows, or for a fault
/// with a place of its own.
#[derive(Drop)]
pub enum Stop {
    Memory,
    Fault(Kind),
    At(Fault),
}

impl From<AllocError> for Stop {
    ghost from_gives = { λ _ stop. stop ≡ Memory };

    fn from(_error: AllocError) -> Stop {
        Stop::Memory
    }
}
