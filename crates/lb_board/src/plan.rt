//! What a board is made over.
ghost use Rattle.std.specs.Prelude.{ℕ};

/// A plan, which clauses alone see: a type of plans has one of them as its member.
pub trait Planned {
    ghost plan: { Self };
}

/// Which values may be posted for a chapter of a plan.
pub trait Fits<P> {
    ghost fits: { P → ℕ → Self → Type 0 };
}
