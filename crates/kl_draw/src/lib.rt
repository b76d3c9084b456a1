//! What a seed decides: the order of a kit's drawn inputs, and the sizes of a kernel's gaps. And the object that holds those gaps.
#![tactic(auto)]

mod draw;
mod gap;
pub mod record;

pub use draw::{draw_gaps, draw_order, sub_seed};
pub use gap::gap_object;
