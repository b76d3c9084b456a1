// What is wrong with a text.
ghost use Rattle.std.specs.Prelude.{◌≡◌};

use kl_base::NoMemory;
use std::alloc::{AllocError, AllocFailed};

/// What a text needs, in the order in which it is asked for.
#[derive(Clone, Copy, Debug, PartialEq, Eq)]
pub enum Needed {
    /// A line `kind`.
    Kind,
    /// A line `output`.
    Output,
    /// A line `entry`, in the text of a kernel.
    Entry,
    /// A line `head`, `object` or `tail`.
    Input,
    /// A line `library`, in an index.
    Library,
}

/// What is wrong with the text of a kit or an index. Lines are numbered from 1. Of the faults in one line the first of these is told.
#[derive(Clone, Copy, Debug, PartialEq, Eq)]
pub enum KitFault {
    /// A byte other than a tab and those from 0x20 to 0x7e.
    Byte { line: u32 },
    /// The first word begins no line.
    Keyword { line: u32 },
    /// The line `kind` isn't first or comes again, or the kit's kind has no such line.
    Misplaced { line: u32 },
    /// Too few or too many words.
    Count { line: u32 },
    /// A word isn't in its form.
    Value { line: u32 },
    /// The output has a name that is kept for other files.
    Reserved { line: u32 },
    /// A line or a word comes again that may not.
    Twice { line: u32 },
    /// An input line or a library too many.
    Limit { line: u32 },
    /// Behind the last line something is missing.
    Missing { what: Needed },
}

/// Why a text isn't read.
#[derive(Clone, Copy, Debug, PartialEq, Eq)]
pub enum KitError {
    /// The first fault of the text.
    Fault(KitFault),
    /// Memory ran out.
    NoMemory,
}

impl From<KitFault> for KitError {
    ghost use Rattle.kl_kit.specs.declared.fault.KitError.{KitError};

    ghost from_gives = { λ fault e. e ≡ KitError.Fault fault };

    fn from(fault: KitFault) -> Self {
        KitError::Fault(fault)
    }
}

impl From<NoMemory> for KitError {
    ghost use Rattle.kl_kit.specs.declared.fault.KitError.{KitError};

    ghost from_gives = { λ _ e. e ≡ KitError.NoMemory };

    fn from(_: NoMemory) -> Self {
        KitError::NoMemory
    }
}

impl From<AllocError> for KitError {
    ghost use Rattle.kl_kit.specs.declared.fault.KitError.{KitError};

    ghost from_gives = { λ _ e. e ≡ KitError.NoMemory };

    fn from(_: AllocError) -> Self {
        KitError::NoMemory
    }
}

impl<T: Drop> From<AllocFailed<T>> for KitError {
    ghost use Rattle.kl_kit.specs.declared.fault.KitError.{KitError};

    ghost from_gives = { λ _ e. e ≡ KitError.NoMemory };

    fn from(_: AllocFailed<T>) -> Self {
        KitError::NoMemory
    }
}
