//! What is told a person of a kit text or an object that isn't taken: the line or the place, what stands there and what is wanted.
#![tactic(auto)]

mod kit_line;
mod kit_text;
mod kit_twice;
mod kit_value;
mod name;
mod object;
mod records;
mod relocation;
mod shown;

pub use kit_text::tell_kit_text;
pub use name::tell_name;
pub use object::tell_flaw;
pub use relocation::TypeName;
pub use shown::{SectionName, Shown};
