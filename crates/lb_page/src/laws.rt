//! Laws of the ends of pages.
ghost use Rattle.std.specs.Prelude.{◌≡◌, ◌<◌, suc, List, Option, None, Some, Ok, ℕ};
ghost use Rattle.lb_base.specs.declared.node.Node.{Node};
ghost use Rattle.lb_model_paper.specs.declared.pages.Cost.TheVariants.{Awful};
ghost use Rattle.lb_model_paper.specs.declared.pages.PagePart.{PagePart};
ghost use Rattle.lb_model_paper.specs.declared.pages.PageRules.{PageRules};
ghost use Rattle.lb_model_paper.specs.Pages.{cost_at, next_part, nodes_left, page_end, penalty_at};
ghost use Rattle.lb_page.specs.Laws.{IsLastCheapest, IsPageAndRest, IsSearchEnd};

/// A page ends at a legal place that costs no more than any other one up to the first awful or forced
/// place, and less than those of them behind it. The place is awful only where no other one stands
/// before it.
pub fn page_ends()
    ensures chosen { (rules : PageRules) (nodes : List Node) (k : ℕ) → page_end rules nodes ≡ Ok (Some k)
        → (last : ℕ) × (IsSearchEnd rules nodes last × IsLastCheapest rules nodes (suc last) k) }
    ensures awful { (rules : PageRules) (nodes : List Node) (k : ℕ) → page_end rules nodes ≡ Ok (Some k)
        → cost_at rules nodes k ≡ Some Awful → (j : ℕ) → j < k → penalty_at nodes j ≡ None }
{}

/// The nodes of a page and those that are left make up the list, but for the discardables at its top.
pub fn page_and_rest()
    ensures { (rules : PageRules) (nodes : List Node) (part : PagePart) → next_part rules nodes ≡ Ok (Some part)
        → IsPageAndRest nodes part (nodes_left rules nodes) }
{}
