//! The definition of tokens against lines that were worked out by hand.
ghost use Rattle.std.specs.Prelude.{◌≡◌, [], ◌∷◌, codes, None};
ghost use Rattle.lb_tokens.specs.Rows.{letter, reads_of_line, space, the_end, word};

/// Spaces and comments, empty lines, control sequences, two marks, and an invalid character.
pub fn worked_lines()
    ensures spaces { reads_of_line 4 (codes "a  b%c") ≡ letter 97 ∷ space ∷ letter 98 ∷ the_end ∷ [] }
    ensures end_of_line { reads_of_line 3 (codes "  a") ≡ letter 97 ∷ space ∷ the_end ∷ [] }
    ensures empty { reads_of_line 2 [] ≡ word (codes "par") ∷ the_end ∷ [] }
    ensures control_word { reads_of_line 3 (codes "\\ab c") ≡ word (codes "ab") ∷ letter 99 ∷ space ∷ [] }
    ensures control_symbols { reads_of_line 4 (codes "\\, \\ ") ≡ word (codes ",") ∷ space ∷ word (codes " ") ∷ the_end ∷ [] }
    ensures two_digits { reads_of_line 1 (codes "^^41") ≡ letter 65 ∷ [] }
    ensures one_character { reads_of_line 2 (codes "^^M") ≡ word (codes "par") ∷ the_end ∷ [] }
    ensures marks_of_marks { reads_of_line 1 (codes "^^5e^41") ≡ letter 65 ∷ [] }
    ensures letter_of_marks { reads_of_line 2 (codes "\\a^^62 c") ≡ word (codes "ab") ∷ letter 99 ∷ [] }
    ensures invalid { reads_of_line 2 (codes "a^^?") ≡ letter 97 ∷ None ∷ [] }
{}
