//! Links a kernel: from a kit and its inputs to an image and its placement.
#![tactic(auto)]

mod image;
mod laws;
mod link;

pub use laws::one_target;
pub use link::link_kernel;
