//! Glue in vertical lists (TeXbook, chapter 24; tex.web, sections 1057 to 1060).
ghost use Rattle.lb_model_engine.specs.Items.{vskip};
ghost use Rattle.lb_model_engine.specs.Reads.{glue as glue_read};
ghost use Rattle.lb_model_nest.specs.Items.{glue_added};
ghost use Rattle.lb_model_nest.specs.Paragraphs.{paragraph_ended};
ghost use Rattle.lb_model_nest.specs.Wholes.{and_then};
ghost use Rattle.lb_engine.specs.Leads.{Goes, Holds};

use crate::engine::Engine;
use crate::items::read_glue;
use crate::paragraphs::end_paragraph;
use lb_base::{Kind, NoMemory};
use lb_model::Cells;
use lb_model_nest::Went;
use lb_nest::is_restricted;

// Glue behind a paragraph, which ends.
fn skip_behind<C: Cells>(cells: &mut C, engine: &mut Engine) -> Result<Went, NoMemory>
    requires holds { Holds C.Cells cells.old engine.old }
    ensures goes { Goes C.Cells (λ w. and_then (paragraph_ended w) (λ v. glue_read glue_added v)) result cells.new engine.new cells.old engine.old }
{
    match end_paragraph(cells, engine)? {
        Went::On => read_glue(cells, engine),
        went => Ok(went),
    }
}

/// `\vskip`. `WrongMode` inside a horizontal box.
pub fn vskip<C: Cells>(cells: &mut C, engine: &mut Engine) -> Result<Went, NoMemory>
    requires holds { Holds C.Cells cells.old engine.old }
    ensures goes { Goes C.Cells vskip result cells.new engine.new cells.old engine.old }
{
    if is_restricted(engine.nest.level.kind) {
        return Ok(Went::Stopped(Kind::WrongMode));
    }
    skip_behind(cells, engine)
}
