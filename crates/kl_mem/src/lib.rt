//! The outside in memory, for tests: a store that tells its disk and what a crash may leave of it, a store that stops
//! after some calls, a source of blocks from a list, and a sink that keeps what it takes.
#![tactic(auto)]

mod crash;
mod files;
mod fuse;
mod lists;
mod mem;
mod numbers;
mod record;
mod step;

pub use fuse::Fuse;
pub use lists::{ListEntropy, VecSink};
pub use mem::MemStore;
