//! Turns of a scan of a dimension, whatever comes of it.
ghost use Rattle.std.specs.Prelude.{◌≡◌, ◌∷◌, List, Bool, ℕ, IfSome, true, false};
ghost use Rattle.lb_model_grammar.specs.declared.given.Given.{Given as AGiven};
ghost use Rattle.lb_model_grammar.specs.Dimensions.{Uses, behind_whole, point_or_unit};
ghost use Rattle.lb_scan.specs.Lengths.{counted, ended_length, length_after, turned_length};
ghost use Rattle.lb_scan.specs.Words.{units_in};

use crate::arith::{LIMIT, grow};
use crate::class::{classify, digit_of, is_point};
use crate::fraction::Fraction;
use crate::length::{Ending, Length, close, goes};
use crate::number::digit_of_number;
use crate::size::Decimal;
use crate::unit::{font_unit, internal_unit, letters, no_unit, unit};
use lb_base::{Kind, Tok};
use lb_model_grammar::{Class, Given};

// ---- Decimals

// What stands behind the whole part of a decimal.
#[tactic(auto, using(crate::proofs::FractionLemmas::no_digits))]
#[inline(always)]
fn point_or_unit(
    infinite: bool,
    negative: bool,
    whole: u32,
    given: &Given,
    stage: &mut Length,
) -> Option<Ending>
    ensures next { (u : Uses) → u.units ≡ units_in infinite → (more : List AGiven) →
        turned_length u stage.new result given.now more ≡ point_or_unit u negative whole (given.now ∷ more) }
    ensures same { IfSome result (λ e. stage.new ≡ stage.old) }
{
    let decimal = Decimal {
        negative,
        whole,
        part: 0,
    };
    match given {
        Given::Tok(tok) => {
            if is_point(tok) {
                return goes(Length::Fraction(negative, whole, Fraction::new()), stage);
            }
            unit(infinite, decimal, given, stage)
        }
        Given::Quantity(_) => no_unit(),
        Given::End => no_unit(),
    }
}

#[inline(always)]
fn behind_whole(
    infinite: bool,
    negative: bool,
    whole: u32,
    given: &Given,
    stage: &mut Length,
) -> Option<Ending>
    ensures next { (u : Uses) → u.units ≡ units_in infinite → (more : List AGiven) →
        turned_length u stage.new result given.now more ≡ behind_whole u negative whole (given.now ∷ more) }
    ensures same { IfSome result (λ e. stage.new ≡ stage.old) }
{
    if whole < LIMIT {
        return point_or_unit(infinite, negative, whole, given, stage);
    }
    Some(Ending::Fails(Kind::NumberTooBig))
}

#[inline(always)]
fn whole(
    infinite: bool,
    negative: bool,
    value: u32,
    given: &Given,
    stage: &mut Length,
) -> Option<Ending>
    ensures next { (u : Uses) → u.units ≡ units_in infinite → (more : List AGiven) →
        turned_length u stage.new result given.now more ≡ length_after u (Length.Whole negative value) (given.now ∷ more) }
    ensures same { IfSome result (λ e. stage.new ≡ stage.old) }
{
    match given {
        Given::Tok(tok) => match digit_of(10, tok) {
            Some(digit) => goes(Length::Whole(negative, grow(10, value, digit)), stage),
            None => behind_whole(infinite, negative, value, given, stage),
        },
        Given::Quantity(_) => behind_whole(infinite, negative, value, given, stage),
        Given::End => behind_whole(infinite, negative, value, given, stage),
    }
}

#[inline(always)]
fn fraction(
    infinite: bool,
    negative: bool,
    whole: u32,
    digits: Fraction,
    given: &Given,
    stage: &mut Length,
) -> Option<Ending>
    ensures next { (u : Uses) → u.units ≡ units_in infinite → (more : List AGiven) →
        turned_length u stage.new result given.now more ≡ length_after u (Length.Fraction negative whole digits) (given.now ∷ more) }
    ensures same { IfSome result (λ e. stage.new ≡ stage.old) }
{
    match given {
        Given::Tok(tok) => match digit_of(10, tok) {
            Some(digit) => goes(Length::Fraction(negative, whole, digits.and(digit)), stage),
            None => {
                let part = digits.nearest();
                let decimal = Decimal {
                    negative,
                    whole,
                    part,
                };
                unit(infinite, decimal, given, stage)
            }
        },
        Given::Quantity(_) => no_unit(),
        Given::End => no_unit(),
    }
}

// Takes a digit behind the point. Whether it was one; else all is as before.
#[inline]
fn digit_of_fraction(digits: &mut Fraction, given: &Given) -> bool
    ensures next { result ≡ true → (u : Uses) (negative : Bool) (whole : ℕ) (more : List AGiven) →
        counted u negative whole digits.new.scale digits.new.value more ≡ counted u negative whole digits.old.scale digits.old.value (given.now ∷ more) }
    ensures same { result ≡ false → digits.new ≡ digits.old }
{
    match given {
        Given::Tok(tok) => match digit_of(10, tok) {
            Some(digit) => {
                *digits = digits.and(digit);
                true
            }
            None => false,
        },
        Given::Quantity(_) => false,
        Given::End => false,
    }
}

// The same within a dimension.
#[inline]
fn length_digit(stage: &mut Length, given: &Given) -> bool
    ensures next { result ≡ true → (u : Uses) (more : List AGiven) → length_after u stage.new more ≡ length_after u stage.old (given.now ∷ more) }
    ensures same { result ≡ false → stage.new ≡ stage.old }
{
    match stage {
        Length::Whole(_, value) => digit_of_number(10, value, given),
        Length::Fraction(_, _, digits) => digit_of_fraction(digits, given),
        _ => false,
    }
}

// ---- The beginning

#[tactic(auto, using(crate::proofs::FractionLemmas::no_digits))]
#[inline(always)]
fn sign(negative: bool, tok: &Tok, stage: &mut Length) -> Option<Ending>
    ensures next { (u : Uses) (more : List AGiven) →
        turned_length u stage.new result (AGiven.Tok tok.now) more ≡ length_after u (Length.Signs negative) (AGiven.Tok tok.now ∷ more) }
    ensures same { IfSome result (λ e. stage.new ≡ stage.old) }
{
    match classify(tok) {
        Class::Space | Class::Plus => goes(Length::Signs(negative), stage),
        Class::Minus => goes(Length::Signs(!negative), stage),
        Class::Digit(digit) => goes(Length::Whole(negative, u32::from(digit)), stage),
        Class::Point => goes(Length::Fraction(negative, 0, Fraction::new()), stage),
        Class::Command => goes(Length::Internal(negative), stage),
        Class::Octal | Class::Hexadecimal | Class::Quote | Class::Other => {
            Some(Ending::Missing(Kind::NumberMissing))
        }
    }
}

#[inline(always)]
fn signs(negative: bool, given: &Given, stage: &mut Length) -> Option<Ending>
    ensures next { (u : Uses) (more : List AGiven) →
        turned_length u stage.new result given.now more ≡ length_after u (Length.Signs negative) (given.now ∷ more) }
    ensures same { IfSome result (λ e. stage.new ≡ stage.old) }
{
    match given {
        Given::Tok(tok) => sign(negative, tok, stage),
        Given::Quantity(_) => Some(Ending::Missing(Kind::NumberMissing)),
        Given::End => Some(Ending::Missing(Kind::NumberMissing)),
    }
}

fn internal(negative: bool, given: &Given) -> Ending
    ensures { (u : Uses) (more : List AGiven) →
        ended_length u result given.now more ≡ length_after u (Length.Internal negative) (given.now ∷ more) }
{
    match given {
        Given::Quantity(_) => Ending::Alone(negative),
        _ => Ending::Missing(Kind::NumberMissing),
    }
}

// Goes on with a dimension, which may be one of infinite glue, where more was given; or says how it ends, and then the stage is as before.
#[inline(always)]
fn turn(infinite: bool, given: &Given, stage: &mut Length) -> Option<Ending>
    ensures next { (u : Uses) → u.units ≡ units_in infinite → (more : List AGiven) →
        turned_length u stage.new result given.now more ≡ length_after u stage.old (given.now ∷ more) }
    ensures same { IfSome result (λ e. stage.new ≡ stage.old) }
{
    match stage {
        Length::Signs(negative) => signs(*negative, given, stage),
        Length::Whole(negative, value) => whole(infinite, *negative, *value, given, stage),
        Length::Fraction(negative, whole, digits) => {
            fraction(infinite, *negative, *whole, *digits, given, stage)
        }
        Length::Unit_(decimal) => unit(infinite, *decimal, given, stage),
        Length::Letters(decimal, prefix) => letters(*decimal, *prefix, given, stage),
        Length::InternalUnit(decimal) => Some(internal_unit(*decimal, given)),
        Length::FontUnit(decimal, asked) => font_unit(*decimal, *asked, given, stage),
        Length::Internal(negative) => Some(internal(*negative, given)),
        Length::Space(size) => Some(close(*size, given)),
    }
}

/// The same, where it need not be quick: its machine code stands once.
#[inline(never)]
pub(crate) fn length_turn(infinite: bool, given: &Given, stage: &mut Length) -> Option<Ending>
    ensures { (u : Uses) → u.units ≡ units_in infinite → (more : List AGiven) →
        turned_length u stage.new result given.now more ≡ length_after u stage.old (given.now ∷ more) }
{
    turn(infinite, given, stage)
}

// Goes on with a dimension that is not of infinite glue. Whether it goes on; else all is as before.
#[inline(never)]
fn goes_further(stage: &mut Length, given: &Given) -> bool
    ensures next { result ≡ true → (u : Uses) → u.units ≡ units_in false → (more : List AGiven) →
        length_after u stage.new more ≡ length_after u stage.old (given.now ∷ more) }
    ensures same { result ≡ false → stage.new ≡ stage.old }
{
    match turn(false, given, stage) {
        None => true,
        Some(_) => false,
    }
}

/// Goes on with a dimension that is not of infinite glue, digits first; where it ends, `length_turn` says how. Whether it goes on; else all
/// is as before.
#[inline]
pub(crate) fn length_goes(stage: &mut Length, given: &Given) -> bool
    ensures next { result ≡ true → (u : Uses) → u.units ≡ units_in false → (more : List AGiven) →
        length_after u stage.new more ≡ length_after u stage.old (given.now ∷ more) }
    ensures same { result ≡ false → stage.new ≡ stage.old }
{
    if length_digit(stage, given) {
        return true;
    }
    match stage {
        Length::Space(_) => false,
        _ => goes_further(stage, given),
    }
}
