//! Where pages end: the vertical list that is contributed to pages, and the pages that it gives.
#![tactic(auto)]

mod amounts;
mod best;
mod costs;
mod end;
mod filling;
mod giving;
mod kinds;
pub mod laws;
mod page_list;
mod pages;
mod places;
mod plan;
mod search;
mod so_far;
mod sums;

pub use lb_model_paper::pages::{Cost, PagePart, PageRules, PartList};
pub use page_list::{PageList, contribute, drop_last_glue};
pub use pages::{flush, next_page};
