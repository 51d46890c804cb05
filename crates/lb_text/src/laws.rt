//! Laws of words and spaces, and a word and a space worked out by hand.
ghost use Rattle.std.specs.Prelude.{◌≡◌, ◌↔◌, ◌≤◌, ◌+◌, ◌∷◌, ◌++◌, [], ℕ, ℤ, List, IsTrue, Some, None, pos};
ghost use Rattle.lb_base.specs.declared.font.LigStep.TheVariants.{Nothing};
ghost use Rattle.lb_base.specs.declared.font.Side.{Side};
ghost use Rattle.lb_base.specs.declared.glue.Glue.{Glue};
ghost use Rattle.lb_base.specs.declared.node.Node.{Node};
ghost use Rattle.lb_model_paper.specs.Fonts.{FontData, step_of};
ghost use Rattle.lb_model_paper.specs.Words.{characters_of, is_small_glue, IsSmallGlue, letters_of_list, set_word, space_glue};
ghost use Rattle.lb_text.specs.Rows.{fi, space_parameters, small_font};

/// Laws of words. Where a font has no steps, the nodes of a word are its characters, and none is
/// taken. A word takes the same steps however many more may be taken, and so many more are left.
/// The nodes of a word stand for its characters: a ligature stands for those that it takes away, and
/// the parts that a step keeps stand for themselves.
pub fn words()
    ensures characters { (font : FontData) (steps : ℕ) (nodes : List Node) (codes : List ℕ)
        → ((left right : Side) → step_of font left right ≡ Nothing)
        → set_word font steps nodes codes ≡ Some (nodes ++ characters_of font codes, steps) }
    ensures more_steps { (font : FontData) (steps more left : ℕ) (nodes made : List Node) (codes : List ℕ)
        → set_word font steps nodes codes ≡ Some (made, left)
        → set_word font (steps + more) nodes codes ≡ Some (made, left + more) }
    ensures fewer_left { (font : FontData) (steps left : ℕ) (nodes made : List Node) (codes : List ℕ)
        → set_word font steps nodes codes ≡ Some (made, left) → left ≤ steps }
    ensures letters { (font : FontData) (steps left : ℕ) (nodes made : List Node) (codes : List ℕ)
        → set_word font steps nodes codes ≡ Some (made, left)
        → letters_of_list made ≡ letters_of_list nodes ++ codes }
{}

/// A glue passes the test of its size exactly where its three lengths are below 2^30 in size.
pub fn small_glue()
    ensures { (glue : Glue) → IsTrue (is_small_glue glue) ↔ IsSmallGlue glue }
{}

/// The characters 102 and 105 become one ligature of code 174 that stands for both, in one step. At
/// 10pt the test font's space is 196608sp and stretches by 65536sp, and the extra space comes to it
/// from a space factor of 2000 on.
pub fn worked_rows()
    ensures ligature { set_word small_font 1 [] (102 ∷ 105 ∷ []) ≡ Some (fi ∷ [], 0) }
    ensures too_few { set_word small_font 0 [] (102 ∷ 105 ∷ []) ≡ None }
    ensures width { (space_glue space_parameters (pos 1000)).width ≡ pos 196608 }
    ensures stretch { (space_glue space_parameters (pos 1000)).stretch ≡ pos 65536 }
    ensures before { (space_glue space_parameters (pos 1999)).width ≡ pos 196608 }
    ensures extra { (space_glue space_parameters (pos 2000)).width ≡ pos 262144 }
    ensures wider { (space_glue space_parameters (pos 3000)).stretch ≡ pos 196608 }
    ensures less { (space_glue space_parameters (pos 3000)).shrink ≡ pos 21845 }
{}
