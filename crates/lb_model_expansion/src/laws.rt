//! Laws of the definitions.
ghost use Rattle.lb_base.specs.declared.token.Tok.{Tok as Token};
ghost use Rattle.lb_model_grammar.specs.declared.given.ScanKind.{ScanKind};
ghost use Rattle.lb_model_expansion.specs.Expansion.{body_asked, quantity_asked, ran, scan_asked, step, word_asked};
ghost use Rattle.lb_model_expansion.specs.Laws.{GivenTakesAStep, NeverRise, TokenTakesAStep};

/// Whatever is expanded and read, no more steps are left behind it than there were.
pub fn steps_never_rise()
    ensures step { NeverRise step }
    ensures ran { NeverRise ran }
    ensures scan { (k : ScanKind) → NeverRise (scan_asked k) }
    ensures quantity { (tok : Token) → NeverRise (quantity_asked tok) }
    ensures word { NeverRise word_asked }
    ensures body { NeverRise body_asked }
{}

/// A step of expansion that begins with a token leaves at least one step less, and so does what gives a token that is not expanded.
pub fn a_token_takes_a_step()
    ensures taken { TokenTakesAStep }
    ensures given { GivenTakesAStep }
{}
