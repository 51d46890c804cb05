//! Laws of what commands do.
ghost use Rattle.std.specs.Prelude.{ℕ};
ghost use Rattle.lb_model.specs.declared.place.Place.{Place};
ghost use Rattle.lb_model_engine.specs.Laws.{ChangesExtend, LooksDoNothing, LooksExtend, NotesDoNothing};
ghost use Rattle.lb_model_engine.specs.StepsLeft.{NeverRise, TokenTakesAStep};
ghost use Rattle.lb_model_engine.specs.Turns.{text_set, turn, turns};

/// What is done does not depend on what is noted.
pub fn notes_do_nothing()
    ensures looks { LooksDoNothing }
    ensures behind { NotesDoNothing }
{}

/// What is told stays told, in its order: behind a look, and behind a change.
pub fn told_stays_told()
    ensures looks { LooksExtend }
    ensures changes { ChangesExtend }
{}

/// Whatever a turn, or a text, does, no more steps are left behind it than there were.
pub fn steps_never_rise()
    ensures turn { (last : Place) → NeverRise (turn last) }
    ensures turns { (n : ℕ) (last : Place) → NeverRise (turns n last) }
    ensures text { (last : Place) → NeverRise (text_set last) }
{}

/// A turn to which the feed gives a token leaves at least one step less.
pub fn a_token_takes_a_step()
    ensures { TokenTakesAStep }
{}
