//! Batches of files that are replaced as a whole, whatever moment the machine stops at.
#![tactic(auto)]

mod install;
mod installer;
mod recover;
mod sound;
mod stage;
mod suffix;

pub use installer::Installer;
pub use recover::{SlotEnd, Unsound};
pub use suffix::with_suffix;
