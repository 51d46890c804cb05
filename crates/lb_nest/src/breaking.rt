//! A paragraph's list broken into lines (TeXbook, chapter 14; tex.web, parts 38 and 39).
ghost use Rattle.std.specs.Prelude.{◌≡◌, ◌≤◌, IfOk, unwrap_or};
ghost use Rattle.lb_model_paper.specs.Breaks.{items_in};
ghost use Rattle.lb_model_paper.specs.Lines.{AreEnds};
ghost use Rattle.lb_nest.specs.Endings.{MakesLines, bad_lines, nowhere};

use crate::bad_lines::bad_lines;
use crate::entries::EntryList;
use lb_base::{Listed, Name, NoMemory, NodeList, Stop};
use lb_break::break_paragraph;
use lb_lines::lines_apart;
use lb_model::Place;
use lb_model_paper::paragraph::{BreakList, Shape};
use std::alloc::Global;

/// The lines of a paragraph, and what is logged of the bad ones.
#[derive(Drop)]
pub(crate) struct Broken {
    pub bad: EntryList,
    pub lines: Listed<NodeList>,
}

// The log lines of the bad lines, at the place of the last token that was taken from a text.
fn bad_lines_at(
    alloc: Global,
    list: &NodeList,
    shape: &Shape,
    breaks: &BreakList,
    place: &Option<Place>,
) -> Result<EntryList, NoMemory>
    requires few { items_in list.now ≤ 65536 }
    requires ends { AreEnds list.now 0 breaks.now.ends }
    ensures { IfOk result (λ entries. entries ≡ bad_lines (unwrap_or place.now nowhere) shape.now list.now 0 breaks.now.ends) }
{
    match place {
        Some(place) => bad_lines(alloc, list, shape, breaks, place),
        None => {
            let nowhere = Place {
                file: Name::from_slice(alloc, b"")?,
                line: 0,
            };
            bad_lines(alloc, list, shape, breaks, &nowhere)
        }
    }
}

/// Breaks a list into the best lines. The nodes move into the lines.
pub(crate) fn break_list(
    alloc: Global,
    list: NodeList,
    shape: &Shape,
    place: &Option<Place>,
) -> Result<Broken, Stop>
    ensures { MakesLines shape.now list place.now result }
{
    let breaks = break_paragraph(alloc, &list, shape)?;
    let bad = bad_lines_at(alloc, &list, shape, &breaks, place)?;
    let lines = lines_apart(alloc, list, &breaks, shape)?;
    Ok(Broken { bad, lines })
}
