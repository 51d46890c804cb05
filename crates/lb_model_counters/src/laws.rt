//! Laws of the definitions.
ghost use Rattle.std.specs.Prelude.{◌≡◌, Bool, ℕ, ℤ, List, Option, []};
ghost use Rattle.lb_values.specs.declared.value.Form.{Form};
ghost use Rattle.lb_model.specs.declared.world.World.{World};
ghost use Rattle.lb_model.specs.Settings.{State};
ghost use Rattle.lb_model_counters.specs.Counters.{new_counter, print_counter, set_counter, step_counter};
ghost use Rattle.lb_model_counters.specs.Laws.{FaultsChangeNothing, NewIsInCheckpoint, NewIsReset, NewIsZero, SetHasNumber, SetKeepsOthers, StepHasSum, StepKeepsOthers, StepResetsItsList};

/// What ends in a fault changes nothing, and what prints never does.
pub fn faults_change_nothing()
    ensures new { (name : List ℕ) (within : Option (List ℕ)) → FaultsChangeNothing (new_counter name within) }
    ensures set { (name : List ℕ) (n : ℤ) → FaultsChangeNothing (set_counter name n) }
    ensures step { (name : List ℕ) (by : ℤ) (resets : Bool) → FaultsChangeNothing (step_counter name by resets) }
    ensures print { (name : List ℕ) (form : Form) (w : World) (s : State) → (print_counter name form w s).changes ≡ [] }
{}

/// A counter that is set holds the number, and no other cell changes.
pub fn setting_changes_one_counter()
    ensures number { SetHasNumber }
    ensures others { SetKeepsOthers }
{}

/// A step with resets makes each counter of its own list 0; a counter outside of that list has the sum; and no other cell changes.
pub fn steps_reset_their_own_list()
    ensures reset { StepResetsItsList }
    ensures sum { StepHasSum }
    ensures others { StepKeepsOthers }
{}

/// A new counter is 0, stands in a checkpoint, and is among those that a step of the one it is within resets.
pub fn new_counters_are_there()
    ensures number { NewIsZero }
    ensures checkpoint { NewIsInCheckpoint }
    ensures reset { NewIsReset }
{}
