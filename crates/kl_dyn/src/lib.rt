//! The dynamic tables of a shared object: the hash table, the symbols and strings, the entries for the loader, and the dynamic section
//! (gABI, "Dynamic Section", "Hash Table"; psABI, "Relocation").
#![tactic(auto)]

mod bytes;
mod count;
mod dynamic;
mod entries;
mod found;
mod hash;
mod made;
mod names;
mod size;
mod symbols;
mod table;

pub use found::{HashAt, find};
pub use hash::symbol_hash;
pub use made::{DynamicTables, tables};
pub use size::table_sizes;
