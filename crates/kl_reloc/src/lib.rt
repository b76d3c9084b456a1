//! The values of relocated fields, and the bytes that they have (psABI, "Relocation Types").
#![tactic(auto)]

mod laws;
mod patch;
mod range;

pub use laws::read_back;
pub use patch::{Patch, RangeFault, apply, value_of};
