//! Rows worked out by hand, which the definitions have to give.
ghost use Rattle.std.specs.Prelude.{◌≡◌, [], ◌∷◌, None, Some, Ok, Err, codes};
ghost use Rattle.lb_base.specs.declared.fault.Kind.TheVariants.{BadCode, EnvironmentMismatch, TooDeep};
ghost use Rattle.lb_model_sections.specs.declared.display.Display.TheVariants.{Enumerate, Itemize, Quote};
ghost use Rattle.lb_model_sections.specs.Lists.{environment_ended, list_begun};

/// Lists that begin, and environments that end.
pub fn lists()
    ensures fourth { list_begun (Some Itemize) (Itemize ∷ Itemize ∷ Itemize ∷ []) ≡ Ok [] }
    ensures fifth { list_begun (Some Itemize) (Itemize ∷ Itemize ∷ Itemize ∷ Itemize ∷ []) ≡ Err TooDeep }
    ensures fifth_of_another { list_begun (Some Enumerate) (Itemize ∷ Itemize ∷ Itemize ∷ Itemize ∷ []) ≡ Ok [] }
    ensures sixth { list_begun (Some Quote) (Quote ∷ Quote ∷ Quote ∷ Quote ∷ Quote ∷ []) ≡ Ok [] }
    ensures seventh { list_begun (Some Quote) (Quote ∷ Quote ∷ Quote ∷ Quote ∷ Quote ∷ Quote ∷ []) ≡ Err TooDeep }
    ensures no_kind { list_begun None [] ≡ Err BadCode }
    ensures same_name { environment_ended (codes "quote") (codes "quote") ≡ Ok [] }
    ensures other_name { environment_ended (codes "quote") (codes "center") ≡ Err EnvironmentMismatch }
{}
