//! What a recorder knows of each cell.
ghost use Rattle.std.specs.Prelude.{◌≡◌, OnOk, OnErr, true};
ghost use Rattle.lb_values.specs.Kept.{put};
ghost use Rattle.lb_record.specs.Recording.{known_of};

use lb_base::NoMemory;
use lb_maps::CellMap;
use lb_values::Cell;

/// What is known of a cell: the place of its pair in the list of reads, where it was told, and whether it was ever written.
#[derive(Clone, Copy)]
pub(crate) struct Known {
    pub(crate) place: Option<usize>,
    pub(crate) written: bool,
}

/// What is known of a cell that was neither told nor written.
pub(crate) const UNKNOWN: Known = Known {
    place: None,
    written: false,
};

/// What is known of the cell. Takes no memory.
#[inline(always)]
pub(crate) fn known_of(known: &CellMap<Known>, cell: &Cell) -> Known
    ensures { result ≡ known_of known.now cell.now }
{
    match known.get(cell) {
        Some(known) => *known,
        None => UNKNOWN,
    }
}

/// Knows that the cell is written.
pub(crate) fn mark_written(known: &mut CellMap<Known>, cell: &Cell) -> Result<(), NoMemory>
    ensures ok { OnOk result (known_of known.new ≡ put cell.now (record (known_of known.old cell.now) { written = true }) (known_of known.old)) }
    ensures err { OnErr result (known_of known.new ≡ known_of known.old) }
{
    let before = known_of(known, cell);
    if !before.written {
        known.make_entry(cell, UNKNOWN)?;
        known.replace(
            cell,
            Known {
                place: before.place,
                written: true,
            },
        );
    }
    Ok(())
}
