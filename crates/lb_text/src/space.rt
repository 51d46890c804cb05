//! Spaces between words.
ghost use Rattle.std.specs.Prelude.{◌≡◌, ◌<ℤ◌, ◌≤ℤ◌, pos, ◌↔◌, IsTrue, OnErr, MatchOption, int_div, ◌*ℤ◌};
ghost use Rattle.lb_base.specs.Answers.{Answers};
ghost use Rattle.lb_model_paper.specs.Dvi.{IsSmall};
ghost use Rattle.lb_model_paper.specs.Words.{finite_glue, space_glue, space_width, spaced, IsSmallGlue};
ghost use Rattle.lb_text.specs.Stops.{leaving};

use lb_base::{Glue, Kind, Node, NodeList, Order, Parameters, Stop};
use lb_tfm::Font;

/// From this space factor on, the extra space is added (TeXbook, chapter 12).
const SENTENCE_FACTOR: i32 = 2000;

/// Whether a length is below 2^30 in size.
fn is_small(length: i64) -> bool
    ensures { IsTrue result ↔ IsSmall length }
{
    -1_073_741_823 <= length && length <= 1_073_741_823
}

/// The natural width of a space.
fn width(space: i32, extra_space: i32, factor: i32) -> i64
    ensures { result ≡ space_width space extra_space factor }
{
    if factor >= SENTENCE_FACTOR {
        return i64::from(space) + i64::from(extra_space);
    }
    i64::from(space)
}

/// So many thousandths of a length.
fn thousandths(length: i32, factor: i32) -> i64
    ensures { result ≡ int_div (length *ℤ factor) (pos 1000) }
{
    i64::from(length) * i64::from(factor) / 1000
}

/// The length of which so many thousandths are the given one.
fn by_thousandths(length: i32, factor: i32) -> i64
    requires { pos 0 <ℤ factor }
    ensures { result ≡ int_div (length *ℤ pos 1000) factor }
{
    i64::from(length) * 1000 / i64::from(factor)
}

/// The glue with these lengths, if they are below 2^30 in size.
fn small_glue(width: i64, stretch: i64, shrink: i64) -> Option<Glue>
    ensures { MatchOption result (IsSmallGlue (finite_glue width stretch shrink) → ⊥) (λ g. (g ≡ finite_glue width stretch shrink) × IsSmallGlue g) }
{
    if is_small(width) && is_small(stretch) && is_small(shrink) {
        return Some(Glue {
            width: width as i32,
            stretch: stretch as i32,
            stretch_order: Order::Finite,
            shrink: shrink as i32,
            shrink_order: Order::Finite,
        });
    }
    None
}

/// The glue of a space after this space factor, if its lengths are below 2^30 in size.
fn glue_of(font: Parameters, factor: i32) -> Option<Glue>
    requires { pos 0 <ℤ factor }
    ensures { MatchOption result (IsSmallGlue (space_glue font factor) → ⊥) (λ g. (g ≡ space_glue font factor) × IsSmallGlue g) }
{
    let width = width(font.space, font.extra_space, factor);
    let stretch = thousandths(font.stretch, factor);
    let shrink = by_thousandths(font.shrink, factor);
    small_glue(width, stretch, shrink)
}

/// Puts a space of the font behind a list, after the space factor of the character before it. The
/// factor is in thousandths. It stops with `DimenTooLarge` exactly where a length of the glue would
/// be 2^30 scaled points or more in size. After an error the list is as it was.
pub fn add_space(list: &mut NodeList, font: &Font, factor: i32) -> Result<(), Stop>
    requires above { pos 0 <ℤ factor }
    requires small { factor ≤ℤ pos 32767 }
    ensures answer { Answers (spaced font.now.parameters factor list.old) (leaving list.new result) }
    ensures err { OnErr result (list.new ≡ list.old) }
{
    let Some(glue) = glue_of(font.parameters(), factor) else {
        return Err(Stop::Fault(Kind::DimenTooLarge));
    };
    list.push(Node::Glue(glue))?;
    Ok(())
}
