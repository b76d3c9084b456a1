//! What is told a person of a command that was refused: one line or two, from its cause and from what stands in the files that it speaks of.
#![tactic(auto)]

mod archive;
mod link;
mod record;
mod slot;
mod source;
mod told;
mod usage;

pub use told::{Ended, message};
