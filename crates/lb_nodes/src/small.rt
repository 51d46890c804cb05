//! Lengths below 2^30 scaled points in size, the largest that TeX allows (TeXbook, chapter 10).
ghost use Rattle.std.specs.Prelude.{◌↔◌, IsTrue};
ghost use Rattle.lb_model_paper.specs.Dvi.{IsSmall};

/// The largest of these lengths.
const LARGEST: i64 = 1_073_741_823;

pub fn is_small(length: i64) -> bool
    ensures { IsTrue result ↔ IsSmall length }
{
    -LARGEST <= length && length <= LARGEST
}

pub fn are_both_small(length: i64, other: i64) -> bool
    ensures { IsTrue result ↔ (IsSmall length × IsSmall other) }
{
    is_small(length) && is_small(other)
}
