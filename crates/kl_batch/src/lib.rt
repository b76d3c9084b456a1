//! Files that take their places as one, and the batches of a job: a kernel with its record and its map, a library with its map.
#![tactic(auto)]

mod batch;
mod laws;
mod library;
mod names;

pub use batch::put_kernel;
pub use laws::{batches_go_on, kernel_matches};
pub use library::{library_map, put_library};
pub use names::{KERNEL, KERNEL_MAP, KERNEL_RECORD};
