//! Laws of dimensions in decimal and of badness.
ghost use Rattle.std.specs.Prelude.{◌≡◌, ◌≤◌, ◌<◌, ◌*◌, ◌^◌, ℕ, ℤ, pos, negsuc, ◌≤ℤ◌, List, length, All, codes, FitsSigned};
ghost use Rattle.std.specs.Int.{abs_diff, w32};
ghost use Rattle.std.specs.Int.Digits.{number_from_digits};
ghost use Rattle.lb_base.specs.Badness.{badness_of};
ghost use Rattle.lb_base.specs.Decimals.{fraction_from_digits, fraction_digits, scaled_text, scaled_from_text};

/// The text of a dimension, read as a sign, whole points and a fraction, gives the dimension again.
pub fn text_reads_back()
    ensures { (s : ℤ) → FitsSigned w32 s → scaled_from_text (scaled_text s) ≡ s }
{}

/// `round_decimals` gives a fraction back from the digits behind the point of its text. They are
/// one to five, as few as any digits that give it back, and no decimal of as many places is nearer
/// to the fraction.
pub fn fraction_reads_back()
    ensures value { (f : ℕ) → f < 65536 → fraction_from_digits (fraction_digits f) ≡ f }
    ensures digits { (f : ℕ) → All (λ d. d ≤ 9) (fraction_digits f) }
    ensures at_least_one { (f : ℕ) → f < 65536 → 1 ≤ length (fraction_digits f) }
    ensures at_most_five { (f : ℕ) → f < 65536 → length (fraction_digits f) ≤ 5 }
    ensures shortest { (f : ℕ) (digits : List ℕ) → f < 65536 → 1 ≤ length digits
        → fraction_from_digits digits ≡ f → length (fraction_digits f) ≤ length digits }
    ensures nearest { (f other : ℕ) → f < 65536 → let unit : ℕ = 10 ^ length (fraction_digits f) in
        abs_diff (65536 * number_from_digits 10 (fraction_digits f)) (unit * f)
        ≤ abs_diff (65536 * other) (unit * f) }
{}

/// Badness is at most 10000, and 100 where all the stretch or shrink that there is has to be used.
/// It does not fall where more has to be given, in no branch and from none to another, and does not
/// rise where there is more to give.
pub fn badness_order()
    ensures at_most { (t s : ℤ) → badness_of t s ≤ 10000 }
    ensures all_of_it { (t : ℕ) → 0 < t → badness_of (pos t) (pos t) ≡ 100 }
    ensures grows { (t more : ℕ) (s : ℤ) → t ≤ more
        → badness_of (pos t) s ≤ badness_of (pos more) s }
    ensures shrinks { (t : ℕ) (s more : ℤ) → s ≤ℤ more
        → badness_of (pos t) more ≤ badness_of (pos t) s }
{}

/// Badness at the edges of its branches, and texts of dimensions, worked out by hand.
pub fn worked_rows()
    ensures nothing_to_give { badness_of (pos 0) (pos 0) ≡ 0 }
    ensures nothing_to_give_with { badness_of (pos 1) (pos 0) ≡ 10000 }
    ensures as_much { badness_of (pos 7230584) (pos 7230584) ≡ 100 }
    ensures most_exact { badness_of (pos 7230584) (pos 1663496) ≡ 8189 }
    ensures most_exact_and_more { badness_of (pos 7230584) (pos 1663497) ≡ 8189 }
    ensures too_large { badness_of (pos 7230585) (pos 1663496) ≡ 10000 }
    ensures large { badness_of (pos 7230585) (pos 1663497) ≡ 8189 }
    ensures text { scaled_text (pos 4661699) ≡ codes "71.13188" }
    ensures text_of_none { scaled_text (pos 0) ≡ codes "0.0" }
    ensures text_below_none { scaled_text (negsuc 0) ≡ codes "-0.00002" }
{}
