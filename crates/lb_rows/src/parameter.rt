//! The parameters: numbers, dimensions and glue that have a name of their own at the start (TeXbook, chapter 24, and
//! for the layout of pages LaTeX, section C.5).
ghost use Rattle.std.specs.Prelude.{◌≡◌, ◌↔◌, ◌<◌, Some, length, slice_get};
ghost use Rattle.lb_rows.specs.Parameters.{parameter_kind, parameter_name, parameter_names, parameter_rows};

use crate::rows::Rows;
use crate::{case_count, case_kind, case_name, case_names, cases};

/// The cases of the table, each with its kind. A row is added here, and in no other list of names; the enum below has
/// its variant.
macro_rules! parameter_rows {
    ($write:ident $($given:tt)*) => {
        $write! {
            [$($given)*]
            "adjdemerits" => AdjDemerits: Number,
            "baselineskip" => BaselineSkip: Glue,
            "brokenpenalty" => BrokenPenalty: Number,
            "clubpenalty" => ClubPenalty: Number,
            "day" => Day: Number,
            "doublehyphendemerits" => DoubleHyphenDemerits: Number,
            "evensidemargin" => EvenSideMargin: Dimension,
            "exhyphenpenalty" => ExHyphenPenalty: Number,
            "finalhyphendemerits" => FinalHyphenDemerits: Number,
            "footskip" => FootSkip: Dimension,
            "headheight" => HeadHeight: Dimension,
            "headsep" => HeadSep: Dimension,
            "hsize" => HSize: Dimension,
            "hyphenpenalty" => HyphenPenalty: Number,
            "interlinepenalty" => InterLinePenalty: Number,
            "leftskip" => LeftSkip: Glue,
            "linepenalty" => LinePenalty: Number,
            "lineskip" => LineSkip: Glue,
            "lineskiplimit" => LineSkipLimit: Dimension,
            "maxdepth" => MaxDepth: Dimension,
            "month" => Month: Number,
            "oddsidemargin" => OddSideMargin: Dimension,
            "parfillskip" => ParFillSkip: Glue,
            "parindent" => ParIndent: Dimension,
            "parskip" => ParSkip: Glue,
            "pretolerance" => Pretolerance: Number,
            "rightskip" => RightSkip: Glue,
            "textheight" => TextHeight: Dimension,
            "textwidth" => TextWidth: Dimension,
            "time" => Time: Number,
            "tolerance" => Tolerance: Number,
            "topmargin" => TopMargin: Dimension,
            "topskip" => TopSkip: Glue,
            "widowpenalty" => WidowPenalty: Number,
            "year" => Year: Number,
        }
    };
}

/// What a parameter holds. A dimension, and each part of glue, is in scaled points.
#[derive(Clone, Copy, PartialEq, Eq)]
pub enum ParameterKind {
    Number,
    Dimension,
    Glue,
}

/// How many parameters there are.
pub const PARAMETERS: usize = parameter_rows!(case_count);

/// A parameter.
#[derive(Clone, Copy, PartialEq, Eq, PartialOrd, Ord, Hash)]
pub enum Parameter {
    AdjDemerits,
    BaselineSkip,
    BrokenPenalty,
    ClubPenalty,
    Day,
    DoubleHyphenDemerits,
    EvenSideMargin,
    ExHyphenPenalty,
    FinalHyphenDemerits,
    FootSkip,
    HeadHeight,
    HeadSep,
    HSize,
    HyphenPenalty,
    InterLinePenalty,
    LeftSkip,
    LinePenalty,
    LineSkip,
    LineSkipLimit,
    MaxDepth,
    Month,
    OddSideMargin,
    ParFillSkip,
    ParIndent,
    ParSkip,
    Pretolerance,
    RightSkip,
    TextHeight,
    TextWidth,
    Time,
    Tolerance,
    TopMargin,
    TopSkip,
    WidowPenalty,
    Year,
}

impl Parameter {
    /// The name, without the escape character.
    #[tactic(auto, unfolding(crate::specs::Parameters::parameter_name))]
    pub fn name(self) -> &'static str
        ensures { result.now ≡ parameter_name self }
    {
        parameter_rows!(case_name Parameter self)
    }

    /// What it holds.
    #[tactic(auto, unfolding(crate::specs::Parameters::parameter_kind))]
    pub fn kind(self) -> ParameterKind
        ensures { result ≡ parameter_kind self }
    {
        parameter_rows!(case_kind Parameter ParameterKind self)
    }

    /// The parameter of a row, by its place in the table, counted from 0.
    #[tactic(auto, unfolding(crate::specs::Parameters::parameter_rows))]
    pub fn at(place: usize) -> Parameter
        requires { place < length parameter_rows }
        ensures { slice_get parameter_rows place ≡ Some result }
    {
        static ROWS: [Parameter; PARAMETERS] = parameter_rows!(cases Parameter);
        ROWS[place]
    }

    /// The parameter with a name; none where no parameter has it.
    pub fn named(name: &[u8]) -> Option<Parameter>
        ensures { (parameter : Parameter) → (result ≡ Some parameter) ↔ (name.now ≡ parameter_name parameter) }
    {
        let place = parameters().find(name)?;
        Some(Parameter::at(place))
    }
}

/// The table of the parameters' names, without the escape character.
#[tactic(auto, unfolding(crate::specs::Parameters::parameter_name, crate::specs::Parameters::parameter_rows))]
pub fn parameters() -> Rows<PARAMETERS>
    ensures { result ≡ parameter_names }
{
    static NAMES: [&str; PARAMETERS] = parameter_rows!(case_names);
    Rows::new(&NAMES)
}
