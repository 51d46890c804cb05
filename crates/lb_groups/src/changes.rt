//! Changes and groups over any cells.
ghost use Rattle.std.specs.Prelude.{◌≡◌, ◌≤◌, true, OnOk, OnErr, length};
ghost use Rattle.std.specs.Option.{option_map};
ghost use Rattle.lb_values.specs.Kept.{changed, saved};
ghost use Rattle.lb_model.specs.Ranges.{fits, is_settable};
ghost use Rattle.lb_model.specs.Settings.{IsState, Setting, noted_change, noted_save};
ghost use Rattle.lb_model.specs.Stacked.{Standing, assigned, closed, kinds_of, notes_assigned, notes_closed, stacked, stacked_notes, undone_by};
ghost use Rattle.lb_groups.specs.Open.{closed_kinds, innermost, noted_undo_by};

use crate::groups::Groups;
use lb_base::NoMemory;
use lb_model::{Cells, GroupKind};
use lb_values::{Cell, Reach, Value};
use std::alloc::AllocError;

// Saves the cell and sets it.
fn save_and_set<C: Cells>(cells: &mut C, cell: &Cell, value: Value) -> Result<(), NoMemory>
    requires settable { is_settable cell.now value ≡ true }
    requires fits { (p : Setting) → C.agrees cells.old p → IsState (C.meaning cells.old p).now → fits cell.now value ≡ true }
    ensures narrows { (p : Setting) → C.agrees cells.new p → C.agrees cells.old p }
    ensures tells_nothing { (p : Setting) → C.agrees cells.old p → C.agrees cells.new p }
    ensures ok { OnOk result ((p : Setting) → C.agrees cells.new p → C.meaning cells.new p ≡ changed Reach.Local cell.now value (saved cell.now (C.meaning cells.old p))) }
    ensures err { OnErr result ((p : Setting) → C.agrees cells.new p → C.meaning cells.new p ≡ C.meaning cells.old p) }
    ensures notes { OnOk result (C.notes cells.new ≡ option_map (λ n. noted_change Reach.Local cell.now (noted_save cell.now n)) (C.notes cells.old)) }
    ensures notes_on_err { OnErr result (C.notes cells.new ≡ C.notes cells.old) }
    ensures made { C.made cells.new ≡ C.made cells.old }
    ensures loan { C.loan cells.new ≡ C.loan cells.old }
{
    cells.save(cell)?;
    match cells.set(cell, value, Reach::Local) {
        Ok(()) => Ok(()),
        Err(e) => {
            cells.put_back();
            Err(e)
        }
    }
}

fn assign_local<C: Cells>(
    cells: &mut C,
    groups: &mut Groups,
    cell: &Cell,
    value: Value,
) -> Result<(), NoMemory>
    requires settable { is_settable cell.now value ≡ true }
    requires fits { (p : Setting) → C.agrees cells.old p → IsState (C.meaning cells.old p).now → fits cell.now value ≡ true }
    ensures narrows { (p : Setting) → C.agrees cells.new p → C.agrees cells.old p }
    ensures tells_nothing { (p : Setting) → C.agrees cells.old p → C.agrees cells.new p }
    ensures ok { OnOk result ((p : Setting) → C.agrees cells.new p → stacked groups.new (C.meaning cells.new p) ≡ assigned Reach.Local cell.now value (stacked groups.old (C.meaning cells.old p))) }
    ensures kinds { OnOk result (kinds_of groups.new ≡ kinds_of groups.old) }
    ensures standing { OnOk result ((p : Setting) → C.agrees cells.new p → Standing groups.old (C.meaning cells.old p) → Standing groups.new (C.meaning cells.new p)) }
    ensures notes { OnOk result (stacked_notes groups.new (C.notes cells.new) ≡ option_map (notes_assigned Reach.Local cell.now) (stacked_notes groups.old (C.notes cells.old))) }
    ensures same { OnErr result ((p : Setting) → C.agrees cells.new p → C.meaning cells.new p ≡ C.meaning cells.old p) }
    ensures same_groups { OnErr result (groups.new ≡ groups.old) }
    ensures notes_on_err { OnErr result (C.notes cells.new ≡ C.notes cells.old) }
    ensures made { C.made cells.new ≡ C.made cells.old }
    ensures loan { C.loan cells.new ≡ C.loan cells.old }
{
    if !groups.is_open() {
        cells.set(cell, value, Reach::Local)?;
        return Ok(());
    }
    if groups.is_full() {
        return Err(AllocError);
    }
    save_and_set(cells, cell, value)?;
    groups.count_save();
    Ok(())
}

/// Sets a cell, and saves it before where a group is open and the change is local.
pub fn assign<C: Cells>(
    cells: &mut C,
    groups: &mut Groups,
    cell: &Cell,
    value: Value,
    reach: Reach,
) -> Result<(), NoMemory>
    requires settable { is_settable cell.now value ≡ true }
    requires fits { (p : Setting) → C.agrees cells.old p → IsState (C.meaning cells.old p).now → fits cell.now value ≡ true }
    ensures narrows { (p : Setting) → C.agrees cells.new p → C.agrees cells.old p }
    ensures tells_nothing { (p : Setting) → C.agrees cells.old p → C.agrees cells.new p }
    ensures ok { OnOk result ((p : Setting) → C.agrees cells.new p → stacked groups.new (C.meaning cells.new p) ≡ assigned reach cell.now value (stacked groups.old (C.meaning cells.old p))) }
    ensures kinds { OnOk result (kinds_of groups.new ≡ kinds_of groups.old) }
    ensures standing { OnOk result ((p : Setting) → C.agrees cells.new p → Standing groups.old (C.meaning cells.old p) → Standing groups.new (C.meaning cells.new p)) }
    ensures notes { OnOk result (stacked_notes groups.new (C.notes cells.new) ≡ option_map (notes_assigned reach cell.now) (stacked_notes groups.old (C.notes cells.old))) }
    ensures same { OnErr result ((p : Setting) → C.agrees cells.new p → C.meaning cells.new p ≡ C.meaning cells.old p) }
    ensures same_groups { OnErr result (groups.new ≡ groups.old) }
    ensures notes_on_err { OnErr result (C.notes cells.new ≡ C.notes cells.old) }
    ensures made { C.made cells.new ≡ C.made cells.old }
    ensures loan { C.loan cells.new ≡ C.loan cells.old }
{
    match reach {
        Reach::Local => {
            assign_local(cells, groups, cell, value)?;
            Ok(())
        }
        Reach::Global => {
            cells.set(cell, value, Reach::Global)?;
            Ok(())
        }
    }
}

/// Closes the innermost group and tells its kind, none where no group is open: what was changed in it but globally is as it was before.
/// Takes no memory.
pub fn close_group<C: Cells>(cells: &mut C, groups: &mut Groups) -> Option<GroupKind>
    requires standing { (p : Setting) → C.agrees cells.old p → Standing groups.old (C.meaning cells.old p) }
    ensures kind { result ≡ innermost groups.old }
    ensures kinds { kinds_of groups.new ≡ closed_kinds (kinds_of groups.old) }
    ensures narrows { (p : Setting) → C.agrees cells.new p → C.agrees cells.old p }
    ensures tells_nothing { (p : Setting) → C.agrees cells.old p → C.agrees cells.new p }
    ensures closed { (p : Setting) → C.agrees cells.new p → stacked groups.new (C.meaning cells.new p) ≡ closed (stacked groups.old (C.meaning cells.old p)) }
    ensures standing { (p : Setting) → C.agrees cells.new p → Standing groups.new (C.meaning cells.new p) }
    ensures notes { stacked_notes groups.new (C.notes cells.new) ≡ option_map notes_closed (stacked_notes groups.old (C.notes cells.old)) }
    ensures made { C.made cells.new ≡ C.made cells.old }
    ensures loan { C.loan cells.new ≡ C.loan cells.old }
{
    match groups.close() {
        None => None,
        Some(group) => {
            put_all_back(cells, group.saves);
            Some(group.kind)
        }
    }
}

fn put_all_back<C: Cells>(cells: &mut C, count: u64)
    requires standing { (p : Setting) → C.agrees cells.old p → count ≤ length (C.meaning cells.old p).saves }
    ensures narrows { (p : Setting) → C.agrees cells.new p → C.agrees cells.old p }
    ensures tells_nothing { (p : Setting) → C.agrees cells.old p → C.agrees cells.new p }
    ensures undone { (p : Setting) → C.agrees cells.new p → C.meaning cells.new p ≡ undone_by count (C.meaning cells.old p) }
    ensures notes { C.notes cells.new ≡ option_map (noted_undo_by count) (C.notes cells.old) }
    ensures made { C.made cells.new ≡ C.made cells.old }
    ensures loan { C.loan cells.new ≡ C.loan cells.old }
{
    for _i in 0..count {
        cells.put_back();
    }
}
