//! Arguments of macros, and the rests of groups, read of a feed without expansion.
#![tactic(auto)]

mod arguments;
mod bare;
mod copies;
mod delimited;
mod fitting;
mod front;
mod groups;
mod optional;
mod settling;
mod turns;
mod undelimited;

pub use arguments::match_arguments;
pub use delimited::read_delimited;
pub use groups::read_group;
pub use undelimited::read_undelimited;
