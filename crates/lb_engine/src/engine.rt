//! What is under way while a text is set.
use lb_base::Name;
use lb_expand::Desk;
use lb_nest::{Nest, Stack};

/// What is under way while a text is set: what is read, with the open groups; the nest of lists; the names of the environments whose ends
/// are under way; and whether spaces are skipped before the next token.
#[derive(Drop)]
pub struct Engine {
    pub desk: Desk,
    pub nest: Nest,
    pub ending: Stack<Name>,
    pub skips_spaces: bool,
}
