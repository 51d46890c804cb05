//! Groups of an engine, and cells that are set in them (TeXbook, chapter 7).
ghost use Rattle.lb_model.specs.Ranges.{fits, is_settable};
ghost use Rattle.lb_model.specs.Settings.{IsState, Setting};
ghost use Rattle.lb_model_nest.specs.Groups.{group_closed, group_opened, kept_after};
ghost use Rattle.lb_model_nest.specs.Wholes.{change, put};
ghost use Rattle.lb_nest.specs.Leads.{Goes as NestGoes};
ghost use Rattle.lb_engine.specs.Leads.{Goes, Holds};
ghost use Rattle.std.specs.Prelude.{◌≡◌, true};

use crate::engine::Engine;
use lb_base::{Kind, NoMemory, Tok, TokList};
use lb_model::{Cells, GroupKind};
use lb_model_nest::Went;
use lb_nest::Closed;
use lb_values::{Cell, Reach, Shared, Value};

/// Sets a cell.
pub fn change<C: Cells>(
    cells: &mut C,
    engine: &mut Engine,
    cell: &Cell,
    value: Value,
    reach: Reach,
) -> Result<Went, NoMemory>
    requires settable { is_settable cell.now value ≡ true }
    requires fits { (p : Setting) → C.agrees cells.old p → IsState (C.meaning cells.old p).now → fits cell.now value ≡ true }
    requires holds { Holds C.Cells cells.old engine.old }
    ensures goes { Goes C.Cells (change reach cell.now value) result cells.new engine.new cells.old engine.old }
{
    lb_nest::change(
        cells,
        &mut engine.desk.groups,
        &engine.nest,
        cell,
        value,
        reach,
    )
}

/// Opens a group.
pub fn open_group<C: Cells>(
    cells: &C,
    engine: &mut Engine,
    kind: GroupKind,
) -> Result<Went, NoMemory>
    requires holds { Holds C.Cells cells.now engine.old }
    ensures goes { Goes C.Cells (group_opened kind) result cells.now engine.new cells.now engine.old }
{
    lb_nest::open_group(cells, &mut engine.desk.groups, &mut engine.nest, kind)
}

/// Puts tokens before the rest. `DepthLimit` where more than a million would be pending.
pub fn put_list<C: Cells>(cells: &C, engine: &mut Engine, toks: TokList) -> Result<Went, NoMemory>
    requires holds { Holds C.Cells cells.now engine.old }
    ensures goes { Goes C.Cells (put toks) result cells.now engine.new cells.now engine.old }
{
    let _ = cells;
    let list = Shared::new(engine.desk.alloc, toks)?;
    if engine.desk.source.put_list(list)? {
        return Ok(Went::On);
    }
    Ok(Went::Stopped(Kind::DepthLimit))
}

/// Closes the innermost group, where it is of this kind, and puts the tokens before the rest that were kept for then.
pub fn close_group<C: Cells>(
    cells: &mut C,
    engine: &mut Engine,
    kind: GroupKind,
) -> Result<Went, NoMemory>
    requires holds { Holds C.Cells cells.old engine.old }
    ensures goes { Goes C.Cells (group_closed kind) result cells.new engine.new cells.old engine.old }
{
    match lb_nest::close_group(cells, &mut engine.desk.groups, &mut engine.nest, kind)? {
        Closed::Later(toks) => put_list(cells, engine, toks),
        Closed::Stops(kind) => Ok(Went::Stopped(kind)),
    }
}
