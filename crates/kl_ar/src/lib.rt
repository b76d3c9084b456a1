//! Reads an archive of `ar`: its members, each by its name and the place of its bytes, or its first fault.
#![tactic(auto)]

mod display;
mod fault;
mod field;
mod format;
mod header;
mod long_names;
mod member;
mod name;
mod read;

pub use fault::{ArError, ArFault};
pub use member::Member;
pub use read::members;
