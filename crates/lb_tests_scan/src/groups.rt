//! The open groups, with a list of their kinds beside, which is shown.
ghost use Rattle.std.specs.Prelude.{◌≡◌, OnOk};
ghost use Rattle.lb_model.specs.Settings.{Setting};
ghost use Rattle.lb_model.specs.Stacked.{Standing, saves_in};

use crate::stop::{Stop, fault};
use lb_assign::{Groups, close_group, open_group};
use lb_base::Kind;
use lb_model::{Cells, GroupKind};

/// Opens a group. The fault, if there is one.
pub(crate) fn open(
    groups: &mut Groups,
    kinds: &mut Vec<GroupKind>,
    kind: GroupKind,
) -> Result<Option<Kind>, Stop>
    ensures { saves_in groups.new ≡ saves_in groups.old }
{
    let stopped = fault(open_group(groups, kind))?;
    if stopped.is_none() {
        kinds.push(kind)?;
    }
    Ok(stopped)
}

/// Opens so many simple groups, or as many as can be open. The fault, if there is one.
pub(crate) fn open_many(
    groups: &mut Groups,
    kinds: &mut Vec<GroupKind>,
    count: usize,
) -> Result<Option<Kind>, Stop>
    ensures { saves_in groups.new ≡ saves_in groups.old }
{
    for _ in 0..count {
        let stopped = open(groups, kinds, GroupKind::Simple)?;
        if stopped.is_some() {
            return Ok(stopped);
        }
    }
    Ok(None)
}

/// Closes a group. The fault, if there is one.
pub(crate) fn close<C: Cells>(
    cells: &mut C,
    groups: &mut Groups,
    kinds: &mut Vec<GroupKind>,
    kind: GroupKind,
) -> Result<Option<Kind>, Stop>
    requires standing { (p : Setting) → C.agrees cells.old p → Standing groups.old (C.meaning cells.old p) }
    ensures narrows { OnOk result ((p : Setting) → C.agrees cells.new p → C.agrees cells.old p) }
    ensures standing { OnOk result ((p : Setting) → C.agrees cells.new p → Standing groups.new (C.meaning cells.new p)) }
{
    let stopped = fault(close_group(cells, groups, kind))?;
    if stopped.is_none() {
        let _closed = kinds.pop();
    }
    Ok(stopped)
}

/// Shows the kinds of the open groups, the innermost first, or `?` where the list and the groups are at odds.
pub(crate) fn show_kinds(
    groups: &Groups,
    kinds: &[GroupKind],
    out: &mut String,
) -> Result<(), Stop> {
    if groups.count() != kinds.len() as u64 || groups.innermost() != kinds.last().copied() {
        out.push('?')?;
        return Ok(());
    }
    if kinds.is_empty() {
        out.push('-')?;
    }
    for kind in kinds.iter().rev() {
        out.push(kind_letter(*kind))?;
    }
    Ok(())
}

fn kind_letter(kind: GroupKind) -> char {
    match kind {
        GroupKind::Simple => 's',
        GroupKind::Semi => 'e',
        GroupKind::Material => 'm',
    }
}
