//! Groups, with their limit.
ghost use Rattle.std.specs.Prelude.{◌≡◌, ◌∷◌, ◌<◌, ◌≤◌, IfErr, OnErr, OnOk, Option, length, true, false};
ghost use Rattle.std.specs.Option.{option_map};
ghost use Rattle.lb_assign.specs.Scopes.{closing};
ghost use Rattle.lb_base.specs.declared.fault.Kind.TheVariants.{DepthLimit as TheDepthLimit};
ghost use Rattle.lb_groups.specs.Open.{innermost};
ghost use Rattle.lb_model.specs.Assignments.{is_innermost, same_kind};
ghost use Rattle.lb_model.specs.Settings.{Setting};
ghost use Rattle.lb_model.specs.Stacked.{Standing, closed, kinds_of, notes_closed, stacked, stacked_notes};
ghost use Rattle.lb_model.specs.Stops.{MayStopAt};

use lb_base::{Kind, Stop};
use lb_groups::Groups;
use lb_model::{Cells, GroupKind};

/// The most groups that can be open.
const MOST_GROUPS: u64 = 10_000;

/// Opens a group: nothing is saved in it yet, so that what the cells hold now is what it takes back. `DepthLimit` where 10,000 are open.
pub fn open_group(groups: &mut Groups, kind: GroupKind) -> Result<(), Stop>
    ensures ok { OnOk result (groups.new ≡ record { kind = kind; saves = 0 } ∷ groups.old) }
    ensures room { OnOk result (length groups.old < 10000) }
    ensures fault { IfErr result (λ e. MayStopAt e (λ k. (k ≡ TheDepthLimit) × (10000 ≤ length groups.old))) }
    ensures same { OnErr result (groups.new ≡ groups.old) }
{
    if groups.count() >= MOST_GROUPS {
        return Err(Stop::Fault(Kind::DepthLimit));
    }
    groups.open(kind)?;
    Ok(())
}

fn same_kind(kind: GroupKind, other: GroupKind) -> bool
    ensures { result ≡ same_kind kind other }
{
    matches!(
        (kind, other),
        (GroupKind::Simple, GroupKind::Simple)
            | (GroupKind::Semi, GroupKind::Semi)
            | (GroupKind::Material, GroupKind::Material)
    )
}

// Whether the innermost group is of this kind.
fn is_innermost(kind: GroupKind, groups: &Groups) -> bool
    ensures { result ≡ is_innermost kind (innermost groups.now) }
{
    match groups.innermost() {
        None => false,
        Some(innermost) => same_kind(kind, innermost),
    }
}

/// Closes the innermost group, where it is of this kind, and takes back what the cells held as it was opened, but for global changes.
/// `GroupExtra` where it is of another kind or none is open, and all is as it was. Takes no memory.
pub fn close_group<C: Cells>(
    cells: &mut C,
    groups: &mut Groups,
    kind: GroupKind,
) -> Result<(), Stop>
    requires standing { (p : Setting) → C.agrees cells.old p → Standing groups.old (C.meaning cells.old p) }
    ensures answer { result ≡ closing (is_innermost kind (innermost groups.old)) }
    ensures narrows { (p : Setting) → C.agrees cells.new p → C.agrees cells.old p }
    ensures ok { OnOk result ((p : Setting) → C.agrees cells.new p → stacked groups.new (C.meaning cells.new p) ≡ closed (stacked groups.old (C.meaning cells.old p))) }
    ensures kinds { OnOk result (kinds_of groups.old ≡ kind ∷ kinds_of groups.new) }
    ensures standing { (p : Setting) → C.agrees cells.new p → Standing groups.new (C.meaning cells.new p) }
    ensures notes { OnOk result (stacked_notes groups.new (C.notes cells.new) ≡ option_map notes_closed (stacked_notes groups.old (C.notes cells.old))) }
    ensures same { OnErr result (cells.new ≡ cells.old) }
    ensures same_groups { OnErr result (groups.new ≡ groups.old) }
    ensures made { C.made cells.new ≡ C.made cells.old }
    ensures loan { C.loan cells.new ≡ C.loan cells.old }
{
    if !is_innermost(kind, groups) {
        return Err(Stop::Fault(Kind::GroupExtra));
    }
    let _closed = lb_groups::close_group(cells, groups);
    Ok(())
}
