//! What a linker makes for fields: the slots of the global offset table, and the stubs that jump through them (psABI, "Global Offset
//! Table", "Procedure Linkage Table").
#![tactic(auto)]

mod fields;
mod index;
mod stub;
mod way;

pub use fields::needs;
pub use index::SlotIndex;
pub use stub::{JUMP_SIZE, stub_bytes};
pub use way::{stub_name, takes_slot};
