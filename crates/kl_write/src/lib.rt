//! Writes the images of kernels and libraries.
#![tactic(auto)]

mod address;
mod head;
mod laws;
mod numbers;
mod padding;
mod pieces;
mod place;
mod plan;
mod size;
mod slots;
mod values;
mod whole;
mod window;

pub use address::address_of;
pub use head::headers;
pub use laws::{image_carries, image_holds};
pub use plan::{MadeBytes, Plan, fill};
pub use size::image_size;
pub use slots::{SLOT_SIZE, slot_bytes};
pub use values::{STUB_SIZE, field_values};
pub use whole::image;
