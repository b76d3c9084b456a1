//! The outside as the host has it: its files, its random device and its standard output. They tell nothing of content,
//! so their contracts say only when a call may fail, and what has to be synced.
#![tactic(auto)]

mod disk;
mod failure;
mod faults;
mod notes;
mod paths;
mod store;
mod streams;

pub use store::HostStore;
pub use streams::{HostEntropy, HostSink};
