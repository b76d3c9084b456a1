//! The lines that a command writes for scripts, in pieces and without memory.
#![tactic(auto)]

mod cause;
mod escaped;
mod pieces;
mod report;
mod slots;

pub use cause::write_cause;
pub use report::{write_generate, write_kernel, write_link};
pub use slots::write_slots;
