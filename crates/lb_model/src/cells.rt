//! Cells that are read and written.
ghost use Rattle.std.specs.Prelude.{◌≡◌, ◌<◌, IfOk, OnOk, OnErr, Option, true, ℕ, length};
ghost use Rattle.std.specs.Option.{option_map};
ghost use Rattle.lb_values.specs.declared.value.Value.{Value as Held};
ghost use Rattle.lb_values.specs.Kept.{Kept, changed, saved, undone};
ghost use Rattle.lb_model.specs.Ranges.{fits, is_of_state, is_settable};
ghost use Rattle.lb_model.specs.Settings.{IsState, Setting, Notes, look, noted, noted_change, noted_save, noted_undo};

use lb_base::NoMemory;
use lb_values::{Cell, Reach, Value};

/// Reads and writes the cells of a world and a state, which need not be known: what is told narrows the settings, each a world
/// and a state, that agree. Every clause speaks of each setting that agrees at the end of the call.
pub trait Cells {
    /// The setting agrees with all that was told.
    ghost agrees: { Self → Setting → Type 0 };

    /// What each cell holds now, and the standing saves, where the setting agrees.
    ghost meaning: { Self → Setting → Kept Held };

    /// The cells that were told while no write stood on them, and those on which one stands, where the cells keep account of them.
    ghost notes: { Self → Option Notes };

    /// The world and the state over which the cells were made.
    ghost made: { Self → Setting };

    /// That world and that state agree with all that was told.
    ghost made_agrees: { (cells : Self) → agrees cells (made cells) };

    /// The loan by which a state is written in place, where there is one.
    ghost loan: { Self → ℕ };

    /// What a cell tells.
    fn get(&mut self, cell: &Cell) -> Result<Value, NoMemory>
        ensures narrows { (p : Setting) → agrees self.new p → agrees self.old p }
        ensures value { IfOk result (λ v. (p : Setting) → agrees self.new p → look p.world (meaning self.old p).now cell.now ≡ v) }
        ensures stays { (p : Setting) → agrees self.new p → meaning self.new p ≡ meaning self.old p }
        ensures notes { OnOk result (notes self.new ≡ option_map (noted cell.now) (notes self.old)) }
        ensures notes_on_err { OnErr result (notes self.new ≡ notes self.old) }
        ensures made { made self.new ≡ made self.old }
        ensures loan { loan self.new ≡ loan self.old };

    /// Changes a cell of the state, and nothing else. A global change makes the cell's saves void. Where what stands is a state, so it is
    /// behind the change.
    fn set(&mut self, cell: &Cell, value: Value, reach: Reach) -> Result<(), NoMemory>
        requires settable { is_settable cell.now value ≡ true }
        requires fits { (p : Setting) → agrees self.old p → IsState (meaning self.old p).now → fits cell.now value ≡ true }
        ensures narrows { (p : Setting) → agrees self.new p → agrees self.old p }
        ensures tells_nothing { (p : Setting) → agrees self.old p → agrees self.new p }
        ensures changed { OnOk result ((p : Setting) → agrees self.new p → meaning self.new p ≡ changed reach cell.now value (meaning self.old p)) }
        ensures same { OnErr result ((p : Setting) → agrees self.new p → meaning self.new p ≡ meaning self.old p) }
        ensures notes { OnOk result (notes self.new ≡ option_map (noted_change reach cell.now) (notes self.old)) }
        ensures notes_on_err { OnErr result (notes self.new ≡ notes self.old) }
        ensures made { made self.new ≡ made self.old }
        ensures loan { loan self.new ≡ loan self.old };

    /// Saves what a cell holds, so that it can be put back without memory.
    fn save(&mut self, cell: &Cell) -> Result<(), NoMemory>
        requires of_state { is_of_state cell.now ≡ true }
        ensures narrows { (p : Setting) → agrees self.new p → agrees self.old p }
        ensures tells_nothing { (p : Setting) → agrees self.old p → agrees self.new p }
        ensures saved { OnOk result ((p : Setting) → agrees self.new p → meaning self.new p ≡ saved cell.now (meaning self.old p)) }
        ensures same { OnErr result ((p : Setting) → agrees self.new p → meaning self.new p ≡ meaning self.old p) }
        ensures notes { OnOk result (notes self.new ≡ option_map (noted_save cell.now) (notes self.old)) }
        ensures notes_on_err { OnErr result (notes self.new ≡ notes self.old) }
        ensures made { made self.new ≡ made self.old }
        ensures loan { loan self.new ≡ loan self.old };

    /// Undoes the last save that stands. A void one changes nothing. Takes no memory.
    fn put_back(&mut self)
        requires standing { (p : Setting) → agrees self.old p → 0 < length (meaning self.old p).saves }
        ensures narrows { (p : Setting) → agrees self.new p → agrees self.old p }
        ensures tells_nothing { (p : Setting) → agrees self.old p → agrees self.new p }
        ensures undone { (p : Setting) → agrees self.new p → meaning self.new p ≡ undone (meaning self.old p) }
        ensures notes { notes self.new ≡ option_map noted_undo (notes self.old) }
        ensures made { made self.new ≡ made self.old }
        ensures loan { loan self.new ≡ loan self.old };
}
