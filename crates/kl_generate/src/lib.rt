//! Objects that are made to be linked: the gap object of a kernel's kit, and a kernel's kit that is made from a number of objects, for
//! trials of the linker.
#![tactic(auto)]

mod gap_law;
mod generated;
mod input;
mod kit;
mod laws;
mod limits;
mod made_law;
mod object;
mod record;

pub use gap_law::gap_objects;
pub use generated::generate;
pub use input::made_inputs;
pub use kit::made_kit;
pub use laws::{made_graph, made_links};
pub use limits::{MADE_BYTES_LIMIT, MADE_LIMIT};
pub use made_law::made_objects;
pub use object::made_object;
