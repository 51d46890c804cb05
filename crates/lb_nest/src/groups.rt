//! Groups, and what comes behind them (TeXbook, chapter 7).
ghost use Rattle.std.specs.Prelude.{◌≡◌, ℕ, Ok, length, true};
ghost use Rattle.lb_groups.specs.Open.{innermost as innermost_of};
ghost use Rattle.lb_model.specs.Assignments.{is_innermost, same_kind};
ghost use Rattle.lb_model.specs.Ranges.{fits, is_settable};
ghost use Rattle.lb_model.specs.Settings.{IsState, Setting};
ghost use Rattle.lb_model_nest.specs.Groups.{after_around, group_closed, group_opened, kept_after, later_of};
ghost use Rattle.lb_model_nest.specs.Wholes.{change, executed};
ghost use Rattle.lb_nest.specs.Groups.{behind_group};
ghost use Rattle.lb_nest.specs.Leads.{Goes, Leads};
ghost use Rattle.lb_nest.specs.Views.{Keeps, anywhere};
ghost use Rattle.lb_nest.specs.Works.{Works};

use crate::nest::Nest;
use lb_base::{Kind, NoMemory, Tok, TokList};
use lb_groups::{Groups, assign};
use lb_model::{Cells, GroupKind};
use lb_model_nest::Went;
use lb_values::{Cell, Reach, Value};

/// The most groups that can be open.
const MOST_GROUPS: u64 = 10_000;

/// The most tokens that can be kept for behind one group.
const MOST_LATER: usize = 1_000_000;

/// How a group ended: its tokens come next, in the order in which they were kept; or it is not the innermost one.
#[derive(Drop)]
pub enum Closed {
    Later(TokList),
    Stops(Kind),
}

/// Sets a cell.
pub fn change<C: Cells>(
    cells: &mut C,
    groups: &mut Groups,
    nest: &Nest,
    cell: &Cell,
    value: Value,
    reach: Reach,
) -> Result<Went, NoMemory>
    requires settable { is_settable cell.now value ≡ true }
    requires fits { (p : Setting) → C.agrees cells.old p → IsState (C.meaning cells.old p).now → fits cell.now value ≡ true }
    requires keeps { (p : Setting) → C.agrees cells.old p → Keeps p (C.meaning cells.old p) groups.old nest.now }
    ensures goes { (left : ℕ) → Goes C.Cells (change reach cell.now value) result cells.new groups.new left nest.now cells.old groups.old left nest.now }
{
    let _ = nest;
    assign(cells, groups, cell, value, reach)?;
    Ok(Went::On)
}

/// Opens a group, in which nothing is kept for behind it. `DepthLimit` where 10,000 are open.
#[tactic(auto, unfolding(lb_model_nest::specs::Groups::group_opened))]
pub fn open_group<C: Cells>(
    cells: &C,
    groups: &mut Groups,
    nest: &mut Nest,
    kind: GroupKind,
) -> Result<Went, NoMemory>
    requires keeps { (p : Setting) → C.agrees cells.now p → Keeps p (C.meaning cells.now p) groups.old nest.old }
    ensures goes { (left : ℕ) → Goes C.Cells (group_opened kind) result cells.now groups.new left nest.new cells.now groups.old left nest.old }
{
    let _ = cells;
    if groups.count() >= MOST_GROUPS {
        return Ok(Went::Stopped(Kind::DepthLimit));
    }
    nest.after.push(TokList::new(nest.alloc))?;
    groups.open(kind)?;
    Ok(Went::On)
}

fn same_kind(kind: GroupKind, other: GroupKind) -> bool
    ensures { result ≡ same_kind kind other }
{
    matches!(
        (kind, other),
        (GroupKind::Simple, GroupKind::Simple)
            | (GroupKind::Semi, GroupKind::Semi)
            | (GroupKind::Material, GroupKind::Material)
    )
}

// Whether the innermost group is of this kind.
fn is_innermost(kind: GroupKind, groups: &Groups) -> bool
    ensures { result ≡ is_innermost kind (innermost_of groups.now) }
{
    match groups.innermost() {
        None => false,
        Some(innermost) => same_kind(kind, innermost),
    }
}

// The tokens that were kept for behind the innermost group, which is left.
fn take_later(nest: &mut Nest) -> TokList
    ensures nest { nest.new ≡ record nest.old { after = after_around nest.old.after } }
    ensures toks { result ≡ later_of nest.old.after }
{
    match nest.after.pop() {
        Some(later) => later,
        None => TokList::new(nest.alloc),
    }
}

/// Closes the innermost group, where it is of this kind: the cells hold what they held as it was opened, but for global changes. Takes no
/// memory.
pub fn close_group<C: Cells>(
    cells: &mut C,
    groups: &mut Groups,
    nest: &mut Nest,
    kind: GroupKind,
) -> Result<Closed, NoMemory>
    requires keeps { (p : Setting) → C.agrees cells.old p → Keeps p (C.meaning cells.old p) groups.old nest.old }
    ensures leads { (left : ℕ) → Leads C.Cells anywhere (group_closed kind) behind_group result cells.new groups.new left nest.new
        cells.old groups.old left nest.old }
{
    if !is_innermost(kind, groups) {
        return Ok(Closed::Stops(Kind::GroupExtra));
    }
    let _kind = lb_groups::close_group(cells, groups);
    let later = take_later(nest);
    Ok(Closed::Later(later))
}

/// Keeps a token for behind the innermost group; outside of all groups it is dropped. `DepthLimit` where a million are kept there.
#[tactic(auto, unfolding(lb_model_nest::specs::Groups::kept_after))]
pub fn keep_after(nest: &mut Nest, tok: Tok) -> Result<Went, NoMemory>
    ensures works { (left : ℕ) → Works (kept_after tok) executed result left nest.new left nest.old }
{
    let Some(later) = nest.after.pop() else {
        return Ok(Went::On);
    };
    let mut later = later;
    if later.len() >= MOST_LATER {
        nest.after.push(later)?;
        return Ok(Went::Stopped(Kind::DepthLimit));
    }
    later.push(tok)?;
    nest.after.push(later)?;
    Ok(Went::On)
}
