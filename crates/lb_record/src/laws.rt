//! Laws of what recorders note and write.
ghost use Rattle.std.specs.Prelude.{◌≡◌, map};
ghost use Rattle.lb_model.specs.declared.world.World.{World};
ghost use Rattle.lb_model.specs.Settings.{State};
ghost use Rattle.lb_record.specs.Recorded.{AgreesWith, DoesOver, IsFresh, IsSound, Recorded, notes_of, reads_of, setting_of};

/// What a recorder noted holds in its world and its guess, and the cells of the pairs are those that it told while no write stood on them, in the
/// order of first telling.
pub fn notes_are_true()
    ensures hold { (r : Recorded) → AgreesWith (reads_of r) (setting_of r.world r.guess) }
    ensures cells { (r : Recorded) → map (λ e. e.0) (reads_of r) ≡ (notes_of r).told }
{}

/// A client of cells, whose contract says for each world and state that agree with what was told what it does there: where it ran over a new
/// recorder, the reads and writes of that speak for it in each world and state that agree with the reads.
pub fn clients_are_recorded<X>()
    ensures { (run : World → State → X × State) (start end : Recorded) (x : X) → IsFresh start → DoesOver run start end x → IsSound run (reads_of end) end.writes.entries x }
{}
