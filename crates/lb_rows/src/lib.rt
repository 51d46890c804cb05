//! Tables of names: the commands, the parameters and the refused names, each with what the layers above need to
//! tell them apart.
#![tactic(auto)]

pub mod cases;
pub mod command;
pub mod laws;
pub mod parameter;
pub mod refusal;
pub mod rows;

pub use command::{COMMANDS, Command, commands};
pub use parameter::{PARAMETERS, Parameter, ParameterKind, parameters};
pub use refusal::{REFUSED, Refusal, refused};
pub use rows::Rows;
