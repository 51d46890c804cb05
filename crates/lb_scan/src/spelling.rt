//! Units of dimensions by their letters.
ghost use Rattle.std.specs.Prelude.{◌≡◌, true, List, MatchOption};
ghost use Rattle.lb_model_grammar.specs.declared.given.Given.{Given};
ghost use Rattle.lb_model_grammar.specs.declared.given.Scanned.{Scanned};
ghost use Rattle.lb_model_grammar.specs.Dimensions.{Unit_of, units};
ghost use Rattle.lb_model_grammar.specs.Scans.{Meant, one_of};
ghost use Rattle.lb_scan.specs.Words.{behind_letter, endings, no_letter, none_begins, spelled_after, spelled_ends, units_in};

/// A unit that no other goes on.
#[derive(Clone, Copy)]
pub(crate) enum Unit {
    Pt,
    In,
    Pc,
    Cm,
    Mm,
    Bp,
    Dd,
    Cc,
    Sp,
    Em,
    Ex,
    Filll,
}

/// The letters of a unit that has not come to its end, or that may go on.
#[derive(Clone, Copy)]
pub(crate) enum Prefix {
    P,
    I,
    C,
    M,
    B,
    D,
    S,
    E,
    F,
    Fi,
    Fil,
    Fill,
}

/// What the letters of a unit are with one more: all of it, a part of it, or nothing.
#[derive(Clone, Copy)]
pub(crate) enum Spelled {
    Whole(Unit),
    Part(Prefix),
    Nothing,
}

// The first letter of a finite unit.
fn finite_letter(letter: u8) -> Option<Prefix>
    ensures { MatchOption result (none_begins letter units ≡ true) (λ p. behind_letter letter units ≡ endings p) }
{
    match letter {
        b'p' => Some(Prefix::P),
        b'i' => Some(Prefix::I),
        b'c' => Some(Prefix::C),
        b'm' => Some(Prefix::M),
        b'b' => Some(Prefix::B),
        b'd' => Some(Prefix::D),
        b's' => Some(Prefix::S),
        b'e' => Some(Prefix::E),
        _ => None,
    }
}

/// The first letter of a unit, which may be one of infinite glue.
pub(crate) fn first_letter(infinite: bool, letter: u8) -> Option<Prefix>
    ensures { MatchOption result (none_begins letter (units_in infinite) ≡ true) (λ p. behind_letter letter (units_in infinite) ≡ endings p) }
{
    if !infinite {
        return finite_letter(letter);
    }
    if letter == b'f' {
        return Some(Prefix::F);
    }
    finite_letter(letter)
}

/// One letter more.
pub(crate) fn spell(prefix: Prefix, letter: u8) -> Spelled
    ensures ends { spelled_ends result ≡ behind_letter letter (endings prefix) }
    ensures rest { (found : Unit_of → List Given → Meant Scanned) (ended : Unit_of → Meant Scanned) (missing : Meant Scanned) (more : List Given) →
        spelled_after prefix result found ended missing more ≡ one_of (spelled_ends result) found (no_letter (endings prefix) ended missing) more }
{
    match (prefix, letter) {
        (Prefix::P, b't') => Spelled::Whole(Unit::Pt),
        (Prefix::P, b'c') => Spelled::Whole(Unit::Pc),
        (Prefix::I, b'n') => Spelled::Whole(Unit::In),
        (Prefix::C, b'm') => Spelled::Whole(Unit::Cm),
        (Prefix::C, b'c') => Spelled::Whole(Unit::Cc),
        (Prefix::M, b'm') => Spelled::Whole(Unit::Mm),
        (Prefix::B, b'p') => Spelled::Whole(Unit::Bp),
        (Prefix::D, b'd') => Spelled::Whole(Unit::Dd),
        (Prefix::S, b'p') => Spelled::Whole(Unit::Sp),
        (Prefix::E, b'm') => Spelled::Whole(Unit::Em),
        (Prefix::E, b'x') => Spelled::Whole(Unit::Ex),
        (Prefix::F, b'i') => Spelled::Part(Prefix::Fi),
        (Prefix::Fi, b'l') => Spelled::Part(Prefix::Fil),
        (Prefix::Fil, b'l') => Spelled::Part(Prefix::Fill),
        (Prefix::Fill, b'l') => Spelled::Whole(Unit::Filll),
        _ => Spelled::Nothing,
    }
}
