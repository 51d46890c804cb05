//! The definition of DVI files against files that were worked out by hand.
ghost use Rattle.std.specs.Prelude.{◌≡◌, [], ◌∷◌};
ghost use Rattle.lb_model_paper.specs.Dvi.{dvi};
ghost use Rattle.lb_model_paper.specs.Rows.{noon, page_of_hi, file_of_no_page, file_of_hi};

/// A file without pages, and one of a page with a word and its number.
pub fn worked_files()
    ensures no_page { dvi noon [] ≡ file_of_no_page }
    ensures hi { dvi noon (page_of_hi ∷ []) ≡ file_of_hi }
{}
