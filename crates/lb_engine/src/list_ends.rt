//! Lists that end with their groups (TeXbook, chapter 24; tex.web, sections 1068 and 1085 to 1121).
ghost use Rattle.lb_model_nest.specs.Boxes.{end_group, list_ended};
ghost use Rattle.lb_model_nest.specs.Groups.{group_ended_as};
ghost use Rattle.lb_model_nest.specs.Wholes.{and_then, put};
ghost use Rattle.lb_nest.specs.Lists.{material_placed};
ghost use Rattle.lb_engine.specs.Leads.{Goes, Holds};

use crate::engine::Engine;
use crate::groups::{close_group, put_list};
use lb_base::{Kind, NoMemory, TokList};
use lb_model::{Cells, GroupKind};
use lb_model_nest::Went;
use lb_nest::{EndedList, Material};

// What a list was made into goes to its place.
fn place_material<C: Cells>(
    cells: &mut C,
    engine: &mut Engine,
    material: Material,
) -> Result<Went, NoMemory>
    requires holds { Holds C.Cells cells.old engine.old }
    ensures goes { Goes C.Cells (material_placed material) result cells.new engine.new cells.old engine.old }
{
    lb_nest::place_material(
        cells,
        &mut engine.desk.groups,
        &mut engine.desk.left,
        &mut engine.nest,
        material,
    )
}

// The tokens come next, and the material goes to its place.
fn leave_list<C: Cells>(
    cells: &mut C,
    engine: &mut Engine,
    toks: TokList,
    material: Material,
) -> Result<Went, NoMemory>
    requires holds { Holds C.Cells cells.old engine.old }
    ensures goes { Goes C.Cells (λ w. and_then (put toks w) (material_placed material)) result cells.new engine.new cells.old engine.old }
{
    match put_list(cells, engine, toks)? {
        Went::On => place_material(cells, engine, material),
        went => Ok(went),
    }
}

/// The end of a list that has a group of its own; an open paragraph ends before.
pub fn end_list<C: Cells>(cells: &mut C, engine: &mut Engine) -> Result<Went, NoMemory>
    requires holds { Holds C.Cells cells.old engine.old }
    ensures goes { Goes C.Cells list_ended result cells.new engine.new cells.old engine.old }
{
    match lb_nest::end_list(
        cells,
        &mut engine.desk.groups,
        &mut engine.desk.left,
        &mut engine.nest,
        &engine.desk.place,
    )? {
        EndedList::Later(toks, material) => leave_list(cells, engine, toks, material),
        EndedList::Ends(went) => Ok(went),
    }
}

// The end of a group of this kind.
fn end_as<C: Cells>(
    cells: &mut C,
    engine: &mut Engine,
    kind: Option<GroupKind>,
) -> Result<Went, NoMemory>
    requires holds { Holds C.Cells cells.old engine.old }
    ensures goes { Goes C.Cells (group_ended_as kind list_ended) result cells.new engine.new cells.old engine.old }
{
    match kind {
        Some(GroupKind::Simple) => close_group(cells, engine, GroupKind::Simple),
        Some(GroupKind::Material) => end_list(cells, engine),
        _ => Ok(Went::Stopped(Kind::GroupExtra)),
    }
}

/// A character of category 2.
pub fn end_group<C: Cells>(cells: &mut C, engine: &mut Engine) -> Result<Went, NoMemory>
    requires holds { Holds C.Cells cells.old engine.old }
    ensures goes { Goes C.Cells end_group result cells.new engine.new cells.old engine.old }
{
    let kind = engine.desk.groups.innermost();
    end_as(cells, engine, kind)
}
