//! What begins with a token.
use lb_base::TokList;
use lb_model::Indexed;
use lb_model_grammar::Quantity;
use lb_values::Shared;

/// What begins with a token: a quantity, the tokens of a register, something that a number picks, or the value of a counter. Dimensions
/// are in scaled points.
#[derive(Drop)]
pub enum Found {
    Known(Quantity),
    /// The tokens of a register; none where it is empty.
    Tokens(Option<Shared<TokList>>),
    /// What a number from 0 to 255, which comes next, picks.
    Picked(Indexed),
    /// The value of a counter, whose name comes next.
    OfCounter,
}
