//! The words of the command line, and the top call that does what they ask for.
#![tactic(auto)]

mod command;
mod exit;
mod outcome;
mod top;

pub use command::{Command, Request};
pub use exit::Exit;
pub use outcome::Outcome;
pub use top::run;
