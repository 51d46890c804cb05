//! The chosen breaks of a paragraph.
ghost use Rattle.std.specs.Prelude.{◌≡◌, IfOk};
ghost use Rattle.lb_base.specs.Answers.{Answers};
ghost use Rattle.lb_model_paper.specs.BestBreaks.{breaks_or_none, first_found, found_by, found_in};
ghost use Rattle.lb_model_paper.specs.Breaks.{breaks_of, first_pass, paragraph_of, second_pass};
ghost use Rattle.lb_measure.specs.Measures.{IsMeasured, paragraph_in};

use crate::best::found_in;
use lb_base::{Kind, Listed, NodeList, Stop};
use lb_measure::{Measured, has_few_items, measure};
use lb_model_paper::paragraph::{BreakList, Passes, Shape};
use std::alloc::{AllocError, Global};

/// The chosen breaks of a list that ends in a forced break: those of the least demerits of all lists of
/// breaks, by the passes that the rules name, with a mark on each bad line (TeXbook, chapter 14; tex.web,
/// part 38).
///
/// `ParagraphLimit` comes exactly where the list has more than 65,536 items, those in the parts of its
/// discretionaries counted.
pub fn break_paragraph(alloc: Global, list: &NodeList, shape: &Shape) -> Result<BreakList, Stop>
    ensures { Answers (breaks_of shape.now list.now) result }
{
    let list = list.as_slice();
    if !has_few_items(list) {
        return Err(Stop::Fault(Kind::ParagraphLimit));
    }
    let mut measured = measure(alloc, list, shape)?;
    let found = by_passes(alloc, &mut measured)?;
    Ok(breaks_or_none(alloc, found))
}

/// What the passes find that the rules name.
fn by_passes(alloc: Global, measured: &mut Measured) -> Result<Option<BreakList>, AllocError>
    requires measured { IsMeasured measured.old }
    ensures { IfOk result (λ found. found_by measured.old.shape.rules.passes (first_found measured.old.shape.rules.pretolerance (paragraph_in measured.old)) (found_in 2 (paragraph_of measured.old.shape (second_pass measured.old.shape.rules) measured.old.list.now)) ≡ found) }
{
    match measured.shape.rules.passes {
        Passes::First => first_found(alloc, measured),
        Passes::Second => second_found(alloc, measured),
        Passes::Both => {
            if let Some(breaks) = first_found(alloc, measured)? {
                return Ok(Some(breaks));
            }
            second_found(alloc, measured)
        }
    }
}

/// What the first pass finds, where its tolerance is not below 0.
fn first_found(alloc: Global, measured: &Measured) -> Result<Option<BreakList>, AllocError>
    requires { IsMeasured measured.now }
    ensures { IfOk result (λ found. first_found measured.now.shape.rules.pretolerance (paragraph_in measured.now) ≡ found) }
{
    if measured.shape.rules.pretolerance < 0 {
        return Ok(None);
    }
    found_in(alloc, measured, 1)
}

/// What the second pass finds.
fn second_found(alloc: Global, measured: &mut Measured) -> Result<Option<BreakList>, AllocError>
    requires { IsMeasured measured.old }
    ensures { IfOk result (λ found. found_in 2 (paragraph_of measured.old.shape (second_pass measured.old.shape.rules) measured.old.list.now) ≡ found) }
{
    measured.begin_second();
    found_in(alloc, measured, 2)
}

/// The breaks that were found, and no ends where there are none.
fn breaks_or_none(alloc: Global, found: Option<BreakList>) -> BreakList
    ensures { result ≡ breaks_or_none found }
{
    match found {
        Some(breaks) => breaks,
        None => BreakList {
            pass: 0,
            ends: Listed::new(alloc),
        },
    }
}
