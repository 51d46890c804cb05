//! Steps of expansion that were worked out by hand.
ghost use Rattle.std.specs.Prelude.{◌≡◌, ◌++◌, [], map, codes};
ghost use Rattle.lb_base.specs.declared.fault.Kind.TheVariants as kind;
ghost use Rattle.lb_base.specs.declared.token.Category.TheVariants.{Letter, Other};
ghost use Rattle.lb_base.specs.declared.token.Tok.TheVariants.{Char, Word};
ghost use Rattle.lb_model.specs.Sources.Item.{Pending};
ghost use Rattle.lb_model_grammar.specs.Printed.{printed};
ghost use Rattle.lb_model_expansion.specs.Steps.{Step};
ghost use Rattle.lb_model_expansion.specs.Worked.{control, expansion, tokens};
ghost use Rattle.lb_model_expansion.specs.declared.expansion.Went.TheVariants.{Gave, Over, Stopped};

/// The parts of conditionals: `\ifnum`, `\ifcase`, and one whose end does not come.
#[tactic(auto, unfolding(crate::specs::Expansion::step, crate::specs::Expansion::next_from, lb_model::specs::Readings::taken))]
pub fn parts()
    ensures first { (expansion (control (codes "ifnum") ++ tokens (codes "1<2 a") ++ control (codes "else") ++ tokens (codes "b") ++ control (codes "fi"))).went ≡ Gave (Char Letter 97) }
    ensures second { (expansion (control (codes "ifnum") ++ tokens (codes "2<1 a") ++ control (codes "else") ++ tokens (codes "b") ++ control (codes "fi"))).went ≡ Gave (Char Letter 98) }
    ensures third { (expansion (control (codes "ifcase") ++ tokens (codes "2 a") ++ control (codes "or") ++ tokens (codes "b") ++ control (codes "or") ++ tokens (codes "c") ++ control (codes "fi"))).went ≡ Gave (Char Letter 99) }
    ensures nested { (expansion (control (codes "iffalse") ++ control (codes "iftrue") ++ tokens (codes "a") ++ control (codes "else") ++ control (codes "fi") ++ control (codes "else") ++ tokens (codes "b") ++ control (codes "fi"))).went ≡ Gave (Char Letter 98) }
    ensures ends { (expansion (control (codes "iffalse") ++ tokens (codes "a") ++ control (codes "fi"))).went ≡ Over }
    ensures open { (expansion (control (codes "ifnum") ++ tokens (codes "2<1 a"))).went ≡ Stopped kind.IfOpen }
    ensures extra { (expansion (control (codes "fi"))).went ≡ Stopped kind.ExtraFi }
{}

/// Tokens that are held back, made, and not expanded.
#[tactic(auto, unfolding(crate::specs::Expansion::step, crate::specs::Expansion::next_from, lb_model::specs::Readings::taken))]
pub fn tokens_made()
    ensures held { (expansion (control (codes "expandafter") ++ tokens (codes "x") ++ control (codes "romannumeral") ++ tokens (codes "12!"))).went ≡ Gave (Char Letter 120) }
    ensures behind { (expansion (control (codes "expandafter") ++ tokens (codes "x") ++ control (codes "romannumeral") ++ tokens (codes "12!"))).next.source ≡ map Pending (printed (codes "xii") ++ tokens (codes "!")) }
    ensures named { (expansion (control (codes "csname") ++ tokens (codes "relax") ++ control (codes "endcsname"))).went ≡ Gave (Word (codes "relax")) }
    ensures shown { (expansion (control (codes "string") ++ control (codes "fi"))).went ≡ Gave (Char Other 92) }
    ensures as_it_is { (expansion (control (codes "noexpand") ++ control (codes "fi"))).went ≡ Gave (Word (codes "fi")) }
    ensures job { (expansion (control (codes "jobname"))).went ≡ Gave (Char Other 109) }
    ensures missing { (expansion (control (codes "number") ++ tokens (codes "x"))).went ≡ Stopped kind.NumberMissing }
{}
