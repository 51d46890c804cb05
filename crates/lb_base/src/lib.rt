//! The values that every crate of the typesetter shares: names, bytes, faults, moments, tokens, the
//! items of lists and the marks of a page; and arithmetic of scaled points.
#![tactic(auto)]

pub mod copying;
pub mod equality;
pub mod fault;
pub mod fit;
pub mod font;
pub mod glue;
pub mod laws;
pub mod listed;
pub mod moment;
pub mod name;
pub mod node;
pub mod page;
pub mod scaled;
pub mod token;

pub use copying::copy_nodes;
pub use equality::{equal_glue, equal_nodes, equal_tokens};
pub use fault::{Fault, Kind, Stop};
pub use fit::badness;
pub use font::{LigStep, Metrics, Parameters, Side, WordPart};
pub use glue::{Glue, GlueSet, Order, Target};
pub use listed::{Bytes, FileList, Listed, NameList, NumberList};
pub use moment::Moment;
pub use name::Name;
pub use node::{
    Axis, Boxed, Discretionary, HeadMark, KernOrigin, Ligature, Node, NodeList, Note, RuleSize,
};
pub use page::{FontId, Mark, MarkList, PageCode};
pub use scaled::{print_scaled, round_decimals};
pub use token::{Category, Tok, TokList};

/// There was not enough memory.
pub type NoMemory = std::alloc::AllocError;
