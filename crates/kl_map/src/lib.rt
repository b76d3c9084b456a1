//! The map of an image: a text that says where each of its parts stands. It has one spelling.
#![tactic(auto)]

mod fault;
mod laws;
mod line;
mod map;
mod order;
mod print;
mod read;
mod words;

pub use fault::MapError;
pub use laws::one_spelling;
pub use map::Map;
pub use print::print_map;
pub use read::{MAP_LIMIT, read_map};
