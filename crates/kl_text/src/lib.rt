//! Lines, words and numbers of texts, and where a text is cut.
#![tactic(auto)]

mod cut;
mod laws;
mod number;

pub use cut::{first_line, split};
pub use laws::prints_back;
pub use number::number_of;
