//! Laws of the definitions.
ghost use Rattle.std.specs.Prelude.{List, Option, ℤ};
ghost use Rattle.lb_base.specs.declared.token.Tok.{Tok as AToken};
ghost use Rattle.lb_model_counters.specs.Laws.{FaultsChangeNothing};
ghost use Rattle.lb_model_sections.specs.declared.display.Display.{Display as AKind};
ghost use Rattle.lb_model_sections.specs.declared.heading.HeadWant.{HeadWant as AHeading};
ghost use Rattle.lb_model_sections.specs.Headings.{heading, matter};
ghost use Rattle.lb_model_sections.specs.Laws.{StarStepsNothing};
ghost use Rattle.lb_model_sections.specs.Lists.{item};

/// What ends in a fault changes nothing.
pub fn faults_change_nothing()
    ensures heading { (want : AHeading) → FaultsChangeNothing (heading want) }
    ensures matter { (n : ℤ) → FaultsChangeNothing (matter n) }
    ensures item { (lists : List AKind) (label : Option (List AToken)) → FaultsChangeNothing (item lists label) }
{}

/// A heading with a star steps no counter.
pub fn stars_step_nothing()
    ensures { StarStepsNothing }
{}
