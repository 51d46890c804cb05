//! The codes of pages.
ghost use Rattle.lb_base.specs.Answers.{Answers};
ghost use Rattle.lb_model_paper.specs.Marks.{marks_or_fault, page_code_or_fault};

use crate::drawing::push_box;
use crate::place::Spot;
use lb_base::{Boxed, Listed, MarkList, PageCode, Stop};
use std::alloc::Global;

/// The characters and rules of a box and of all boxes in it, in the order of the box, each where it
/// stands on a page whose upper left corner the box has: a character by the left end of its baseline,
/// and a rule by its lower left corner (tex.web, part 32).
///
/// `DimenTooLarge` comes exactly where the place of a mark, or the right end of a character, is 2^30
/// scaled points or more in size, or 32 bits do not hold the height of a rule, its depth counted.
pub fn marks(alloc: Global, boxed: &Boxed) -> Result<MarkList, Stop>
    ensures { Answers (marks_or_fault boxed.now) result }
{
    let mut marks = Listed::new(alloc);
    let corner = Spot {
        h: 0,
        v: i128::from(boxed.height),
    };
    match push_box(boxed, corner, &mut marks) {
        Ok(()) => Ok(marks),
        Err(stop) => Err(stop),
    }
}

/// The code of the page with this number and box. Its size is the height and the width of the box. The
/// error is that of [`marks`].
pub fn page_code(alloc: Global, number: i32, boxed: &Boxed) -> Result<PageCode, Stop>
    ensures { Answers (page_code_or_fault number boxed.now) result }
{
    match marks(alloc, boxed) {
        Ok(marks) => Ok(PageCode {
            number,
            marks,
            height: boxed.height,
            width: boxed.width,
        }),
        Err(stop) => Err(stop),
    }
}
