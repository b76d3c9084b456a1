//! The records of an ELF64 file, headers, sections, symbols, relocations and dynamic entries, and the numbers that stand in
//! them.
#![tactic(auto)]

pub mod abi;
mod display;
mod head;
mod image;
mod records;

pub use head::{HeadFault, read_ehdr};
pub use image::write_headers;
pub use records::{Dyn, Ehdr, Phdr, Rela, Shdr, Sym};
