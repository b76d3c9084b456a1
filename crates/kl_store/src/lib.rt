//! The outside as traits: a store of files and what a crash may leave of it, a source of random bytes and a sink.
#![tactic(auto)]

mod outside;
mod store;
mod whole;

pub use outside::{Entropy, Sink};
pub use store::{Failed, Store};
pub use whole::{WholeFault, read_whole, write_whole};
