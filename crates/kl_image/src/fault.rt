// Why an image isn't read.
ghost use Rattle.std.specs.Prelude.{◌≡◌};

use kl_base::NoMemory;
use std::alloc::{AllocError, AllocFailed};

/// Why an image isn't read: the first of its flaws, or want of memory.
#[derive(Clone, Copy, Debug, PartialEq, Eq)]
pub enum ImageFault {
    /// A field of the file header: its place in the file, or the length of a file that has no whole header.
    Head { at: u64 },
    /// A program header: its number.
    Segment { index: u32 },
    /// A table that the dynamic section names: the place in the file of its entry, or that of `e_phoff` where the section or its end
    /// is missing.
    Tables { at: u64 },
    /// Memory ran out.
    NoMemory,
}

impl From<NoMemory> for ImageFault {
    ghost use Rattle.kl_image.specs.declared.fault.ImageFault.{ImageFault};

    ghost from_gives = { λ _ e. e ≡ ImageFault.NoMemory };

    fn from(_: NoMemory) -> Self {
        ImageFault::NoMemory
    }
}

impl From<AllocError> for ImageFault {
    ghost use Rattle.kl_image.specs.declared.fault.ImageFault.{ImageFault};

    ghost from_gives = { λ _ e. e ≡ ImageFault.NoMemory };

    fn from(_: AllocError) -> Self {
        ImageFault::NoMemory
    }
}

impl<T: Drop> From<AllocFailed<T>> for ImageFault {
    ghost use Rattle.kl_image.specs.declared.fault.ImageFault.{ImageFault};

    ghost from_gives = { λ _ e. e ≡ ImageFault.NoMemory };

    fn from(_: AllocFailed<T>) -> Self {
        ImageFault::NoMemory
    }
}
