//! Rows that add to lists once something was read: kerns, penalties and glue, and characters by their numbers (TeXbook, chapters 24 and 25; tex.web,
//! part 47).
ghost use Rattle.lb_base.specs.declared.node.KernOrigin.TheVariants.{Explicit};
ghost use Rattle.lb_base.specs.declared.node.Node as node;
ghost use Rattle.lb_model_engine.specs.Groups.{aftergroup};
ghost use Rattle.lb_model_engine.specs.Items.{hskip, kern, penalty};
ghost use Rattle.lb_model_engine.specs.Reads.{code as code_read, glue as glue_read};
ghost use Rattle.lb_model_engine.specs.Words.{char};
ghost use Rattle.lb_model_nest.specs.Items.{glue_added};
ghost use Rattle.lb_model_nest.specs.Words.{character_put};
ghost use Rattle.lb_engine.specs.Leads.{Goes, Holds};

use crate::engine::Engine;
use crate::material::{add_glue, add_kern, add_penalty, put_character};
use crate::paragraphs::{begin_in_vertical, keep_after};
use crate::quantities::code;
use crate::reading::{Reading, dimension, glue, number};
use crate::unexpanded::token;
use lb_base::NoMemory;
use lb_model::Cells;
use lb_model_nest::Went;

/// `\kern`.
pub fn kern<C: Cells>(cells: &mut C, engine: &mut Engine) -> Result<Went, NoMemory>
    requires holds { Holds C.Cells cells.old engine.old }
    ensures goes { Goes C.Cells kern result cells.new engine.new cells.old engine.old }
{
    match dimension(cells, engine)? {
        Reading::Of(width) => add_kern(cells, engine, width),
        Reading::Stops(went) => Ok(went),
    }
}

/// `\penalty`.
pub fn penalty<C: Cells>(cells: &mut C, engine: &mut Engine) -> Result<Went, NoMemory>
    requires holds { Holds C.Cells cells.old engine.old }
    ensures goes { Goes C.Cells penalty result cells.new engine.new cells.old engine.old }
{
    match number(cells, engine)? {
        Reading::Of(penalty) => add_penalty(cells, engine, penalty),
        Reading::Stops(went) => Ok(went),
    }
}

/// Adds the glue that comes.
pub(crate) fn read_glue<C: Cells>(cells: &mut C, engine: &mut Engine) -> Result<Went, NoMemory>
    requires holds { Holds C.Cells cells.old engine.old }
    ensures goes { Goes C.Cells (glue_read glue_added) result cells.new engine.new cells.old engine.old }
{
    match glue(cells, engine)? {
        Reading::Of(glue) => add_glue(cells, engine, glue),
        Reading::Stops(went) => Ok(went),
    }
}

/// `\hskip`.
pub fn hskip<C: Cells>(cells: &mut C, engine: &mut Engine) -> Result<Went, NoMemory>
    requires holds { Holds C.Cells cells.old engine.old }
    ensures goes { Goes C.Cells hskip result cells.new engine.new cells.old engine.old }
{
    match begin_in_vertical(cells, engine, true)? {
        Went::On => read_glue(cells, engine),
        went => Ok(went),
    }
}

// Puts the character whose number comes.
fn read_character<C: Cells>(cells: &mut C, engine: &mut Engine) -> Result<Went, NoMemory>
    requires holds { Holds C.Cells cells.old engine.old }
    ensures goes { Goes C.Cells (code_read (λ n v. character_put n v)) result cells.new engine.new cells.old engine.old }
{
    match code(cells, engine)? {
        Reading::Of(code) => put_character(cells, engine, code),
        Reading::Stops(went) => Ok(went),
    }
}

/// `\char`.
pub fn char<C: Cells>(cells: &mut C, engine: &mut Engine) -> Result<Went, NoMemory>
    requires holds { Holds C.Cells cells.old engine.old }
    ensures goes { Goes C.Cells char result cells.new engine.new cells.old engine.old }
{
    match begin_in_vertical(cells, engine, true)? {
        Went::On => read_character(cells, engine),
        went => Ok(went),
    }
}

/// `\aftergroup`.
pub fn aftergroup<C: Cells>(cells: &mut C, engine: &mut Engine) -> Result<Went, NoMemory>
    requires holds { Holds C.Cells cells.old engine.old }
    ensures goes { Goes C.Cells aftergroup result cells.new engine.new cells.old engine.old }
{
    match token(cells, engine)? {
        Reading::Of(tok) => keep_after(cells, engine, tok),
        Reading::Stops(went) => Ok(went),
    }
}
