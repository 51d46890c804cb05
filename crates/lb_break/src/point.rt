//! Breakpoints, and which of two costs less.
ghost use Rattle.std.specs.Prelude.{◌≡◌};
ghost use Rattle.lb_break.specs.Points.{start};
ghost use Rattle.lb_break.specs.Progress.{cheaper};

use lb_model_paper::paragraph::Fitness;

/// The best list of breaks to one break whose last line has one fitness, and whose next line is of one
/// class of widths: how many of its lines are bad, its demerits, and the breakpoint before it in the
/// table.
#[derive(Clone, Copy)]
pub struct Breakpoint {
    pub at: usize,
    pub fitness: Fitness,
    pub class: usize,
    pub bad: usize,
    pub demerits: i64,
    pub from: usize,
}

/// The start of a paragraph.
pub fn start() -> Breakpoint
    ensures { result ≡ start }
{
    Breakpoint {
        at: 0,
        fitness: Fitness::Decent,
        class: 0,
        bad: 0,
        demerits: 0,
        from: 0,
    }
}

/// Whether the first breakpoint costs no more.
pub fn is_cheaper(a: Breakpoint, b: Breakpoint) -> bool
    ensures { result ≡ cheaper a b }
{
    a.bad < b.bad || a.bad == b.bad && a.demerits <= b.demerits
}
