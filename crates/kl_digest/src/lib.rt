//! SHA-256 digests of bytes and of files, and the record that names the kernel's.
#![tactic(auto)]

mod digest;
mod record;

pub use digest::{digest_file, sha256};
pub use record::{RecordFault, read_record, record_text};
