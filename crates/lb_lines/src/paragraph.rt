//! The lines of a paragraph, one by one and as a vertical list.
ghost use Rattle.std.specs.Prelude.{◌≡◌, IfOk};
ghost use Rattle.lb_base.specs.Answers.{Answers};
ghost use Rattle.lb_model_paper.specs.Lines.{AreEnds, lines_of};
ghost use Rattle.lb_lines.specs.Apart.{lines_apart_of, together};

use crate::adding::Added;
use crate::cutting::take_line;
use crate::parting::turned;
use crate::penalty::penalty_between;
use crate::setting::set_items;
use lb_base::{Listed, NodeList, Stop};
use lb_model_paper::paragraph::{BreakList, Shape};
use sqlite_items::Items;
use std::alloc::{AllocError, Global};

/// The lines of a list that end at the given items, each as a list of its own: a box of the shape's
/// width, then its footnotes and vertical material, then the penalty between it and the next one
/// (TeXbook, chapter 14; tex.web, part 39). The nodes move into the lines.
///
/// `DimenTooLarge` comes exactly where a sum of a line is 2^30 scaled points or more in size, and
/// `DepthLimit` exactly where no line has such a sum and in one more than 500 boxes would stand inside
/// one another, its own counted. After an error the list is gone.
pub fn lines_apart(
    alloc: Global,
    list: NodeList,
    breaks: &BreakList,
    shape: &Shape,
) -> Result<Listed<NodeList>, Stop>
    requires { AreEnds list 0 breaks.now.ends }
    ensures { Answers (lines_apart_of shape.now list breaks.now.ends) result }
{
    let mut pending = turned(alloc, list)?;
    let mut post = Items::new(alloc);
    let mut taken = 0;
    let mut added = Added::nothing(alloc);
    let ends = breaks.ends.as_slice();
    for k in 0..ends.len() {
        let item = ends[k].item;
        let cut = take_line(alloc, shape, &mut pending, post, taken, item)?;
        let left = ends.len() - 1 - k;
        let penalty = penalty_between(&shape.rules, taken == 0, left, cut.is_broken);
        added.add(set_items(alloc, shape.width, cut.line)?, penalty)?;
        post = cut.post;
        taken = item + 1;
    }
    added.finish()
}

/// The lines of a list that end at the given items, one behind another: those of `lines_apart`, with its
/// errors. The glue between lines is not there yet.
pub fn lines(
    alloc: Global,
    list: NodeList,
    breaks: &BreakList,
    shape: &Shape,
) -> Result<NodeList, Stop>
    requires { AreEnds list 0 breaks.now.ends }
    ensures { Answers (lines_of shape.now list breaks.now.ends) result }
{
    let lines = lines_apart(alloc, list, breaks, shape)?;
    Ok(together(alloc, lines)?)
}

/// Lines one behind another.
fn together(alloc: Global, lines: Listed<NodeList>) -> Result<NodeList, AllocError>
    ensures { IfOk result (λ list. list ≡ together lines) }
{
    let mut list = Items::new(alloc);
    for line in lines.into_vec() {
        list.append(line)?;
    }
    Ok(list)
}
