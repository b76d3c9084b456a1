//! The intent of an installation: which files are replaced, what they held and what they are to hold, as a text of one
//! spelling.
#![tactic(auto)]

mod digests;
mod intent;
mod print;
mod read;

pub use intent::{Entry, Intent, slot_name};
pub use print::print_intent;
pub use read::{IntentFault, read_intent};
