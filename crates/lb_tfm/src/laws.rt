//! Laws of fonts.
ghost use Rattle.std.specs.Prelude.{◌≡◌, ◌≢◌, ◌↔◌, ℕ, ℤ, ◌/◌, ◌<◌, ◌≤◌, false, List, [], ◌∷◌, filter, map, None, unsigned_abs};
ghost use Rattle.std.specs.List.{range_with_len};
ghost use Rattle.lb_base.specs.declared.font.Counts.{Counts};
ghost use Rattle.lb_base.specs.declared.font.Side.TheVariants.{Char, Edge};
ghost use Rattle.lb_model_paper.specs.Fonts as fonts;
ghost use Rattle.lb_model_paper.specs.FontFiles as file;

/// A length of a font is the product of its fix-word and the size, rounded down. A size of 2^23 or
/// more is first rounded down to a multiple of the least power of two that makes it less.
pub fn scaled_lengths()
    ensures floor { (size a b c d : ℕ) → file.IsScaled size (file.fix_word a b c d) (file.scaled size a b c d) }
    ensures small { (size : ℕ) → size < 8388608 → file.divisor size ≡ 1 }
    ensures divided { (size : ℕ) → size < 134217728 → size / file.divisor size < 8388608 }
    ensures least { (size : ℕ) → file.divisor size ≢ 1 → 8388608 ≤ size / (file.divisor size / 2) }
{}

/// What the font of a file knows of a character, and where a program begins, by the file.
pub fn fonts_of_files()
    ensures metrics { (bytes : List ℕ) (size : ℤ) (code : ℕ) → code < 256 → fonts.metrics_of (file.font_of bytes size) code ≡ file.metrics_for bytes (file.counts_of bytes) (unsigned_abs size) code }
    ensures start { (bytes : List ℕ) (size : ℤ) (code : ℕ) → code < 256 → fonts.start_of (file.font_of bytes size) (Char code) ≡ file.start_for bytes (file.counts_of bytes) code }
    ensures edge_start { (bytes : List ℕ) (size : ℤ) → fonts.start_of (file.font_of bytes size) Edge ≡ file.edge_start_in bytes (file.counts_of bytes) }
    ensures edge_code { (bytes : List ℕ) (size : ℤ) → fonts.code_of (file.font_of bytes size) Edge ≡ file.edge_code_in bytes (file.counts_of bytes) }
{}

/// A font lacks a character exactly where the character does not exist.
pub fn missing_characters()
    ensures { (bytes : List ℕ) (c : Counts) (size code : ℕ) → (file.metrics_for bytes c size code ≡ None) ↔ (file.exists bytes c code ≡ false) }
{}

/// There are eight kinds of ligatures.
pub fn kinds_of_ligatures()
    ensures { filter file.is_ligature (range_with_len 0 128) ≡ 0 ∷ 1 ∷ 2 ∷ 3 ∷ 5 ∷ 6 ∷ 7 ∷ 11 ∷ [] }
{}
