// What is wrong with an archive.
ghost use Rattle.std.specs.Prelude.{◌≡◌};

use std::alloc::{AllocError, AllocFailed};

/// What is wrong with an archive, with its place in the file. Of the faults of one member the first of these is told, and a
/// header's before that of its data.
#[derive(Clone, Copy, Debug, PartialEq, Eq)]
pub enum ArFault {
    /// The file begins as no archive does.
    Magic,
    /// A thin archive, whose members stand in files of their own.
    Thin,
    /// The header or the data of the member at this place pass the end of the file.
    Truncated { at: u64 },
    /// Other bytes than those that end a header.
    Header { at: u64 },
    /// A size field that isn't 1 to 10 decimal digits and spaces.
    SizeText { at: u64 },
    /// The name of the member at this place isn't in the table of long names, or isn't in its data.
    LongName { at: u64 },
}

/// Why an archive isn't read.
#[derive(Clone, Copy, Debug, PartialEq, Eq)]
pub enum ArError {
    /// The first fault of its bytes.
    Flaw(ArFault),
    /// Memory ran out.
    NoMemory,
}

impl From<ArFault> for ArError {
    ghost use Rattle.kl_ar.specs.declared.fault.ArError.{ArError};

    ghost from_gives = { λ fault e. e ≡ ArError.Flaw fault };

    fn from(fault: ArFault) -> Self {
        ArError::Flaw(fault)
    }
}

impl From<AllocError> for ArError {
    ghost use Rattle.kl_ar.specs.declared.fault.ArError.{ArError};

    ghost from_gives = { λ _ e. e ≡ ArError.NoMemory };

    fn from(_: AllocError) -> Self {
        ArError::NoMemory
    }
}

impl<T: Drop> From<AllocFailed<T>> for ArError {
    ghost use Rattle.kl_ar.specs.declared.fault.ArError.{ArError};

    ghost from_gives = { λ _ e. e ≡ ArError.NoMemory };

    fn from(_: AllocFailed<T>) -> Self {
        ArError::NoMemory
    }
}
