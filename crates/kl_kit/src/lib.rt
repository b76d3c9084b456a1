//! The texts of kits and of the index of libraries: which lines they have, what each of them says, and the first fault.
#![tactic(auto)]

mod display;
mod fault;
mod form;
mod index;
mod key;
mod keyword;
mod line;
mod parts;
mod print;
mod read;
mod statement;

pub use fault::{KitError, KitFault, Needed};
pub use index::{Index, LIBRARY_LIMIT, Library, read_index};
pub use print::print_kit;
pub use read::read_kit;
