//! The definition of fonts against one that was worked out by hand.
ghost use Rattle.std.specs.Prelude.{◌≡◌, ◌*◌, ◌∷◌, ◌++◌, drop, map, neg_ℤ, take, true, None, Some, pos};
ghost use Rattle.std.specs.List.{range_with_len};
ghost use Rattle.lb_base.specs.declared.font.LigStep.TheVariants.{Kern, Lig, Nothing};
ghost use Rattle.lb_base.specs.declared.font.Side.TheVariants.{Char, Edge};
ghost use Rattle.lb_model_paper.specs.Fonts.{metrics_of, step_of};
ghost use Rattle.lb_model_paper.specs.FontFiles.{font_of};
ghost use Rattle.lb_model_paper.specs.FontRules.{first_broken};
ghost use Rattle.lb_model_paper.specs.TestFont.{test_font};
ghost use Rattle.lb_tfm.specs.ProgramFont.{program_font};

/// A font of 94 characters at 10pt.
pub fn worked_font()
    ensures kept { first_broken test_font ≡ None }
    ensures cut { map (λ words. first_broken (take (4 * words) test_font)) (range_with_len 0 116) ≡ map (λ words. Some (1, words)) (range_with_len 0 6) ++ map (λ words. Some (4, words)) (range_with_len 6 110) }
    ensures longer { first_broken (0 ∷ 117 ∷ drop 2 test_font) ≡ Some (3, 0) }
    ensures space { (font_of test_font (pos 655360)).parameters.space ≡ pos 196608 }
    ensures stretch { (font_of test_font (pos 655360)).parameters.stretch ≡ pos 65536 }
    ensures present { metrics_of (font_of test_font (pos 655360)) 72 ≡ Some (record { width = pos 327680; height = pos 491520; depth = pos 163840; italic = pos 0 }) }
    ensures absent { metrics_of (font_of test_font (pos 655360)) 32 ≡ None }
{}

/// Programs with a restart, a skip and both edges, at 10pt.
pub fn worked_programs()
    ensures kept { first_broken program_font ≡ None }
    ensures kern { step_of (font_of program_font (pos 655360)) (Char 65) (Char 66) ≡ Kern (neg_ℤ (pos 655360)) }
    ensures skip { step_of (font_of program_font (pos 655360)) (Char 65) (Char 65) ≡ Lig 66 true true 1 }
    ensures restart { step_of (font_of program_font (pos 655360)) (Char 66) (Char 65) ≡ Lig 66 true true 1 }
    ensures right_edge { step_of (font_of program_font (pos 655360)) (Char 66) Edge ≡ Kern (pos 327680) }
    ensures both_edges { step_of (font_of program_font (pos 655360)) Edge Edge ≡ Kern (pos 327680) }
    ensures left_edge { step_of (font_of program_font (pos 655360)) Edge (Char 65) ≡ Nothing }
    ensures no_program { step_of (font_of program_font (pos 655360)) (Char 67) Edge ≡ Nothing }
{}
