//! What a reader of images says of those that the linkers give.
#![tactic(auto)]

ghost use Rattle.kl_viewed.specs.NoFlaw.{NoFlaw};

mod linked;

pub use linked::{view_kernel, view_library};

/// The image of a kernel or a library that is linked has no flaw: the reader of images answers its headers, or want of memory.
pub fn no_flaw()
    ensures { NoFlaw }
{}
