//! Names of files, lists, limits and the small types that all crates share.
#![tactic(auto)]

mod class;
mod limits;
mod listed;
mod memory;
mod name;

pub use class::{Class, Range, Slot};
pub use limits::{
    ALIGN_LIMIT, ALIGN_POWER_LIMIT, BASE_LIMIT, BUFFER_SIZE, ENTRY_LIMIT, FIELD_COUNT_LIMIT,
    FILE_LIMIT, GAP_ROOM, INPUT_BYTES_LIMIT, INPUT_COUNT_LIMIT, INPUT_LIMIT, INTENT_LIMIT,
    KERNEL_BASE, KIT_TEXT_LIMIT, NAME_LIMIT, NEAR_LIMIT, OUTPUT_LIMIT, PAGE, PAGE_ROOM,
    SCRATCH_SUFFIX, SECTION_COUNT_LIMIT, SIZE_LIMIT, SPAN_LIMIT, SYMBOL_COUNT_LIMIT, TARGET_LIMIT,
    WORD_LIMIT,
};
pub use listed::{Bytes, Listed};
pub use memory::NoMemory;
pub use name::{Name, NameFault, are_path_bytes};
