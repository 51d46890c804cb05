//! Ligature and kerning programs.
ghost use Rattle.std.specs.Prelude.{◌≡◌};
ghost use Rattle.lb_model_paper.specs.Fonts.{action_for, program};

use crate::step::STOP;
use lb_base::LigStep;
use lb_base::font::Step;

/// What the program that begins at `start` does before a character.
pub fn action(steps: &[Step], start: u16, code: u8) -> LigStep
    ensures { result ≡ action_for (program steps.now start) code }
{
    let mut place = usize::from(start);
    while place < steps.len() {
        let step = steps[place];
        if step.skip > STOP {
            return LigStep::Nothing;
        }
        if step.next == code {
            return step.action;
        }
        if step.skip == STOP {
            return LigStep::Nothing;
        }
        place += usize::from(step.skip) + 1;
    }
    LigStep::Nothing
}
