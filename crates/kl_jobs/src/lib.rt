//! What the commands do: a kit is read from a store, linked, and what came of it is written or installed; what was stopped is recovered.
#![tactic(auto)]

mod cause;
mod display;
mod fault;
mod files;
mod kernel;
mod link;
mod names;
mod reading;
mod recovery;
mod seed;
mod source;
mod start;

pub use cause::{Cause, KitCause, ObjectCause, RecordCause, TotalOf};
pub use fault::JobFault;
pub use kernel::reorder_kernel;
pub use link::link_only;
pub use names::KERNEL_KIT;
pub use recovery::{completed, recover_all, recovery_refusal};
