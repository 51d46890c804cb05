//! Groups that begin and end without a list (TeXbook, chapters 7 and 24; tex.web, sections 1063 to 1069), and spaces that are skipped (tex.web, section
//! 1045).
ghost use Rattle.lb_model_nest.specs.Groups.{begin_group_character, begingroup, endgroup};
ghost use Rattle.lb_model_nest.specs.Items.{ignorespaces};
ghost use Rattle.lb_engine.specs.Leads.{Goes, Holds};

use crate::engine::Engine;
use crate::groups::{close_group, open_group};
use lb_base::NoMemory;
use lb_model::{Cells, GroupKind};
use lb_model_nest::Went;

/// A character of category 1.
#[tactic(auto, unfolding(lb_model_nest::specs::Groups::begin_group_character))]
pub fn begin_group<C: Cells>(cells: &C, engine: &mut Engine) -> Result<Went, NoMemory>
    requires holds { Holds C.Cells cells.now engine.old }
    ensures goes { Goes C.Cells begin_group_character result cells.now engine.new cells.now engine.old }
{
    open_group(cells, engine, GroupKind::Simple)
}

/// `\begingroup`.
#[tactic(auto, unfolding(lb_model_nest::specs::Groups::begingroup))]
pub fn begingroup<C: Cells>(cells: &C, engine: &mut Engine) -> Result<Went, NoMemory>
    requires holds { Holds C.Cells cells.now engine.old }
    ensures goes { Goes C.Cells begingroup result cells.now engine.new cells.now engine.old }
{
    open_group(cells, engine, GroupKind::Semi)
}

/// `\endgroup`.
#[tactic(auto, unfolding(lb_model_nest::specs::Groups::endgroup))]
pub fn endgroup<C: Cells>(cells: &mut C, engine: &mut Engine) -> Result<Went, NoMemory>
    requires holds { Holds C.Cells cells.old engine.old }
    ensures goes { Goes C.Cells endgroup result cells.new engine.new cells.old engine.old }
{
    close_group(cells, engine, GroupKind::Semi)
}

/// `\ignorespaces`: those before the next token that is not expanded.
#[tactic(auto, unfolding(lb_model_nest::specs::Items::ignorespaces))]
pub fn ignorespaces<C: Cells>(cells: &C, engine: &mut Engine) -> Result<Went, NoMemory>
    requires holds { Holds C.Cells cells.now engine.old }
    ensures goes { Goes C.Cells ignorespaces result cells.now engine.new cells.now engine.old }
{
    let _ = cells;
    engine.skips_spaces = true;
    Ok(Went::On)
}
