//! Laws of saves and of their undoing.
ghost use Rattle.std.specs.Prelude.{◌≡◌};
ghost use Rattle.lb_values.specs.Kept.{Kept, changed, saved, undone};
ghost use Rattle.lb_values.specs.declared.cell.Cell.{Cell};
ghost use Rattle.lb_values.specs.declared.reach.Reach.TheVariants.{Local, Global};

/// A save that is undone leaves all as it was, also where its cell was changed locally behind it; where its cell was changed globally,
/// all is as if it had been changed so without a save.
pub fn undoing<V>()
    ensures at_once { (cell : Cell) (k : Kept V) → undone (saved cell k) ≡ k }
    ensures local { (cell : Cell) (value : V) (k : Kept V) → undone (changed Local cell value (saved cell k)) ≡ k }
    ensures global { (cell : Cell) (value : V) (k : Kept V) → undone (changed Global cell value (saved cell k)) ≡ changed Global cell value k }
{}
