//! Links a kit under a seed, which decides its order and its gaps: the image, its map, and what is told of it.
#![tactic(auto)]

mod link;
mod report;

pub use link::{LinkedKit, link_kit};
pub use report::Report;
