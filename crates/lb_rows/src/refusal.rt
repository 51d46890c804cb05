//! The refused names: commands of TeX (TeXbook, chapters 20 to 26) and LaTeX (LaTeX, appendix C) that are left out,
//! each with the kind of what it belongs to. They have no meaning at the start.
ghost use Rattle.std.specs.Prelude.{◌≡◌, ◌↔◌, ◌<◌, Some, Contains, length, map, slice_get};
ghost use Rattle.lb_rows.specs.Refusals.{refused_names, refused_rows};

use crate::rows::Rows;
use crate::{case_count, case_names, cases};

/// The cases of the table, each a name with its kind. A row is added here.
macro_rules! refused_rows {
    ($write:ident $($given:tt)*) => {
        $write! {
            [$($given)*]
            "(" => Math,
            "RequirePackage" => Package,
            "[" => Math,
            "accent" => Command,
            "array" => Align,
            "cr" => Align,
            "displaymath" => Math,
            "ensuremath" => Math,
            "eqnarray" => Math,
            "equation" => Math,
            "figure" => Command,
            "font" => Command,
            "halign" => Align,
            "hangafter" => Command,
            "hangindent" => Command,
            "leaders" => Command,
            "looseness" => Command,
            "math" => Math,
            "noalign" => Align,
            "omit" => Align,
            "openin" => Command,
            "openout" => Command,
            "outer" => Command,
            "output" => Command,
            "parshape" => Command,
            "part" => Command,
            "read" => Command,
            "shipout" => Command,
            "span" => Align,
            "special" => Command,
            "tabbing" => Align,
            "table" => Command,
            "tabular" => Align,
            "usepackage" => Package,
            "valign" => Align,
            "verb" => Command,
            "verbatim" => Command,
            "vsplit" => Command,
            "write" => Command,
        }
    };
}

/// How many names are refused.
pub const REFUSED: usize = refused_rows!(case_count);

/// Why a name is refused: it belongs to mathematics, to alignments, to packages, or is another command that is
/// left out.
#[derive(Clone, Copy, PartialEq, Eq)]
pub enum Refusal {
    Math,
    Align,
    Package,
    Command,
}

/// The table of the refused names, without the escape character.
#[tactic(auto, unfolding(crate::specs::Refusals::refused_rows))]
pub fn refused() -> Rows<REFUSED>
    ensures { result ≡ refused_names }
{
    static NAMES: [&str; REFUSED] = refused_rows!(case_names);
    Rows::new(&NAMES)
}

impl Refusal {
    /// Why a name is refused; none where it is not.
    pub fn of(name: &[u8]) -> Option<Refusal>
        ensures { (kind : Refusal) → (result ≡ Some kind) ↔ Contains refused_rows (name.now, kind) }
    {
        let place = refused().find(name)?;
        Some(kind_at(place))
    }
}

/// The kind of a row, by its place in the table.
#[tactic(auto, unfolding(crate::specs::Refusals::refused_rows))]
fn kind_at(place: usize) -> Refusal
    requires { place < length refused_rows }
    ensures { slice_get (map (λ row. row.1) refused_rows) place ≡ Some result }
{
    static KINDS: [Refusal; REFUSED] = refused_rows!(cases Refusal);
    KINDS[place]
}
