//! Turns of a scan of a dimension within its unit.
ghost use Rattle.std.specs.Prelude.{◌≡◌, ◌∷◌, IfSome, List, Some};
ghost use Rattle.lb_base.specs.declared.fault.Kind.{Kind as AKind};
ghost use Rattle.lb_model_grammar.specs.declared.given.Given.{Given as AGiven};
ghost use Rattle.lb_model_grammar.specs.Dimensions.{Uses, in_unit};
ghost use Rattle.lb_model_grammar.specs.Scans.{one_of};
ghost use Rattle.lb_scan.specs.Lengths.{ended_length, length_after, turned_length};
ghost use Rattle.lb_scan.specs.Words.{behind_letter, endings, no_letter, unit_of, units_in};

use crate::class::{classify, letter_of};
use crate::length::{Ending, Length, close, end, goes};
use crate::size::{Decimal, infinite, multiply, physical, scaled};
use crate::spelling::{Prefix, Spelled, Unit, first_letter, spell};
use lb_base::{Kind, Order, Tok};
use lb_model_grammar::{Class, Given, Quantity, Want};

// A whole unit was read.
fn unit_read(decimal: Decimal, unit: Unit) -> Length
    ensures { (u : Uses) (more : List AGiven) →
        length_after u result more ≡ in_unit u decimal.negative decimal.whole decimal.part (unit_of unit) more }
{
    match unit {
        Unit::Pt => Length::Space(physical(decimal, 1, 1)),
        Unit::In => Length::Space(physical(decimal, 7227, 100)),
        Unit::Pc => Length::Space(physical(decimal, 12, 1)),
        Unit::Cm => Length::Space(physical(decimal, 7227, 254)),
        Unit::Mm => Length::Space(physical(decimal, 7227, 2540)),
        Unit::Bp => Length::Space(physical(decimal, 7227, 7200)),
        Unit::Dd => Length::Space(physical(decimal, 1238, 1157)),
        Unit::Cc => Length::Space(physical(decimal, 14856, 1157)),
        Unit::Sp => Length::Space(scaled(decimal)),
        Unit::Em => Length::FontUnit(decimal, Want::Em),
        Unit::Ex => Length::FontUnit(decimal, Want::Ex),
        Unit::Filll => Length::Space(infinite(decimal, Order::Filll)),
    }
}

// What was given goes on with no unit of these letters.
fn letters_end(decimal: Decimal, prefix: Prefix, given: &Given) -> Ending
    ensures { (u : Uses) (more : List AGiven) → ended_length u result given.now more
        ≡ no_letter (endings prefix) (λ x. in_unit u decimal.negative decimal.whole decimal.part x (given.now ∷ more)) (u.missing AKind.UnitMissing) }
{
    match prefix {
        Prefix::Fil => close(infinite(decimal, Order::Fil), given),
        Prefix::Fill => close(infinite(decimal, Order::Fill), given),
        Prefix::P => Ending::Missing(Kind::UnitMissing),
        Prefix::I => Ending::Missing(Kind::UnitMissing),
        Prefix::C => Ending::Missing(Kind::UnitMissing),
        Prefix::M => Ending::Missing(Kind::UnitMissing),
        Prefix::B => Ending::Missing(Kind::UnitMissing),
        Prefix::D => Ending::Missing(Kind::UnitMissing),
        Prefix::S => Ending::Missing(Kind::UnitMissing),
        Prefix::E => Ending::Missing(Kind::UnitMissing),
        Prefix::F => Ending::Missing(Kind::UnitMissing),
        Prefix::Fi => Ending::Missing(Kind::UnitMissing),
    }
}

// A letter behind letters of a unit.
#[inline(always)]
fn letter_more(
    decimal: Decimal,
    prefix: Prefix,
    letter: u8,
    given: &Given,
    stage: &mut Length,
) -> Option<Ending>
    ensures next { (u : Uses) (more : List AGiven) → turned_length u stage.new result given.now more
        ≡ one_of (behind_letter letter (endings prefix)) (in_unit u decimal.negative decimal.whole decimal.part)
        (no_letter (endings prefix) (λ x. in_unit u decimal.negative decimal.whole decimal.part x (given.now ∷ more)) (u.missing AKind.UnitMissing)) more }
    ensures same { IfSome result (λ e. stage.new ≡ stage.old) }
{
    match spell(prefix, letter) {
        Spelled::Whole(unit) => goes(unit_read(decimal, unit), stage),
        Spelled::Part(prefix) => goes(Length::Letters(decimal, prefix), stage),
        Spelled::Nothing => Some(letters_end(decimal, prefix, given)),
    }
}

/// What is given behind letters of a unit.
#[inline(always)]
pub(crate) fn letters(
    decimal: Decimal,
    prefix: Prefix,
    given: &Given,
    stage: &mut Length,
) -> Option<Ending>
    ensures next { (u : Uses) (more : List AGiven) →
        turned_length u stage.new result given.now more ≡ length_after u (Length.Letters decimal prefix) (given.now ∷ more) }
    ensures same { IfSome result (λ e. stage.new ≡ stage.old) }
{
    match given {
        Given::Tok(tok) => match letter_of(tok) {
            Some(letter) => letter_more(decimal, prefix, letter, given, stage),
            None => Some(letters_end(decimal, prefix, given)),
        },
        Given::Quantity(_) => Some(letters_end(decimal, prefix, given)),
        Given::End => Some(letters_end(decimal, prefix, given)),
    }
}

/// No unit comes.
#[inline(always)]
pub(crate) fn no_unit() -> Option<Ending>
    ensures { result ≡ Some (Ending.Missing AKind.UnitMissing) }
{
    Some(Ending::Missing(Kind::UnitMissing))
}

// The first letter of a unit.
#[inline(always)]
fn letters_begin(infinite: bool, decimal: Decimal, tok: &Tok, stage: &mut Length) -> Option<Ending>
    ensures next { (u : Uses) → u.units ≡ units_in infinite → (more : List AGiven) → turned_length u stage.new result (AGiven.Tok tok.now) more
        ≡ one_of u.units (in_unit u decimal.negative decimal.whole decimal.part) (u.missing AKind.UnitMissing) (AGiven.Tok tok.now ∷ more) }
    ensures same { IfSome result (λ e. stage.new ≡ stage.old) }
{
    match letter_of(tok) {
        Some(letter) => match first_letter(infinite, letter) {
            Some(prefix) => goes(Length::Letters(decimal, prefix), stage),
            None => no_unit(),
        },
        None => no_unit(),
    }
}

/// What is given where a unit may begin.
pub(crate) fn unit(
    infinite: bool,
    decimal: Decimal,
    given: &Given,
    stage: &mut Length,
) -> Option<Ending>
    ensures next { (u : Uses) → u.units ≡ units_in infinite → (more : List AGiven) →
        turned_length u stage.new result given.now more ≡ length_after u (Length.Unit_ decimal) (given.now ∷ more) }
    ensures same { IfSome result (λ e. stage.new ≡ stage.old) }
{
    match given {
        Given::Tok(tok) => match classify(tok) {
            Class::Space => goes(Length::Unit_(decimal), stage),
            Class::Command => goes(Length::InternalUnit(decimal), stage),
            Class::Plus => letters_begin(infinite, decimal, tok, stage),
            Class::Minus => letters_begin(infinite, decimal, tok, stage),
            Class::Digit(_) => letters_begin(infinite, decimal, tok, stage),
            Class::Octal => letters_begin(infinite, decimal, tok, stage),
            Class::Hexadecimal => letters_begin(infinite, decimal, tok, stage),
            Class::Quote => letters_begin(infinite, decimal, tok, stage),
            Class::Point => letters_begin(infinite, decimal, tok, stage),
            Class::Other => letters_begin(infinite, decimal, tok, stage),
        },
        Given::Quantity(_) => no_unit(),
        Given::End => no_unit(),
    }
}

/// The internal dimension that stands for a unit.
pub(crate) fn internal_unit(decimal: Decimal, given: &Given) -> Ending
    ensures { (u : Uses) (more : List AGiven) →
        ended_length u result given.now more ≡ length_after u (Length.InternalUnit decimal) (given.now ∷ more) }
{
    match given {
        Given::Quantity(Quantity::Dimen(dimen)) => end(multiply(decimal, *dimen)),
        _ => Ending::Missing(Kind::UnitMissing),
    }
}

/// The size of a unit of the present font.
pub(crate) fn font_unit(
    decimal: Decimal,
    asked: Want,
    given: &Given,
    stage: &mut Length,
) -> Option<Ending>
    ensures next { (u : Uses) (more : List AGiven) →
        turned_length u stage.new result given.now more ≡ length_after u (Length.FontUnit decimal asked) (given.now ∷ more) }
    ensures same { IfSome result (λ e. stage.new ≡ stage.old) }
{
    match given {
        Given::Quantity(Quantity::Dimen(dimen)) => {
            goes(Length::Space(multiply(decimal, *dimen)), stage)
        }
        _ => no_unit(),
    }
}
