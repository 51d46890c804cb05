//! What the definition of the best list of breaks means.
ghost use Rattle.std.specs.Prelude.{◌≡◌, ℕ, List, Some, None, IfOk};
ghost use Rattle.lb_base.specs.declared.node.Node.{Node};
ghost use Rattle.lb_model_paper.specs.BestBreaks.{Admitted, IsBest, IsBestOf, Paragraph, best_of, last_of};
ghost use Rattle.lb_model_paper.specs.Breaks.{breaks_of};
ghost use Rattle.lb_model_paper.specs.Lines.{AreEnds};
ghost use Rattle.lb_model_paper.specs.declared.paragraph.Shape.{Shape};

/// The best list is the best of all lists whose lines may be chosen: of no other one are fewer lines bad,
/// or as many, and then the demerits less, or as high, and then the last break earlier, and so on going
/// back. There is none exactly where no list has only such lines.
pub fn best_of_all()
    ensures best { (p : Paragraph) → IsBestOf p (best_of p) }
    ensures only { (p : Paragraph) (x : List ℕ) → IsBest p x → best_of p ≡ Some x }
    ensures none { (p : Paragraph) → ((y : List ℕ) → Admitted p y → last_of y ≡ p.count → ⊥) → best_of p ≡ None }
{}

/// The chosen breaks are items of the list, and rise.
pub fn breaks_that_rise()
    ensures { (shape : Shape) (nodes : List Node) → IfOk (breaks_of shape nodes) (λ breaks. AreEnds nodes 0 breaks.ends) }
{}
