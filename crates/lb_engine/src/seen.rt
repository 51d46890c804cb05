//! What single tokens are.
ghost use Rattle.std.specs.Prelude.{◌≡◌};
ghost use Rattle.lb_model_engine.specs.Definitions.{is_parameter};
ghost use Rattle.lb_model_grammar.specs.Arguments.{closes, opens};
ghost use Rattle.lb_model_grammar.specs.Scans.{is_other, is_space};

use lb_base::{Category, Tok};

pub(crate) fn is_space(tok: &Tok) -> bool
    ensures { result ≡ is_space tok.now }
{
    matches!(tok, Tok::Char(Category::Space, _))
}

/// This character, of category 12.
pub(crate) fn is_other(code: u8, tok: &Tok) -> bool
    ensures { result ≡ is_other code tok.now }
{
    match tok {
        Tok::Char(Category::Other, other) => *other == code,
        _ => false,
    }
}

pub(crate) fn opens(tok: &Tok) -> bool
    ensures { result ≡ opens tok.now }
{
    matches!(tok, Tok::Char(Category::BeginGroup, _))
}

pub(crate) fn closes(tok: &Tok) -> bool
    ensures { result ≡ closes tok.now }
{
    matches!(tok, Tok::Char(Category::EndGroup, _))
}

pub(crate) fn is_parameter(tok: &Tok) -> bool
    ensures { result ≡ is_parameter tok.now }
{
    matches!(tok, Tok::Char(Category::Parameter, _))
}
