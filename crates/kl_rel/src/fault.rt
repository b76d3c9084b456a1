// What a reader of an object answers where it gives none.
ghost use Rattle.std.specs.Prelude.{◌≡◌};

use kl_base::NoMemory;
use kl_elf::HeadFault;
use std::alloc::{AllocError, AllocFailed};

/// What an object has that isn't linked.
#[derive(Clone, Copy, PartialEq, Eq, Debug)]
pub enum Feature {
    /// Extended numbering: more than 65,279 sections (gABI, `e_shnum` and `SHN_XINDEX`).
    Extended,
    /// Storage of threads: an allocated section with `SHF_TLS`, or a symbol of type `STT_TLS`.
    Tls,
    /// A compressed allocated section, `SHF_COMPRESSED`.
    Compressed,
    /// An allocated section that can be both written and executed.
    WriteExecute,
    /// An allocated section of another type than those that are linked.
    SectionType,
    /// An allocated section of constructors or destructors with a priority in its name.
    Priority,
    /// A symbol's binding that is none of LOCAL, GLOBAL and WEAK.
    Binding,
    /// A symbol of type `STT_GNU_IFUNC`.
    Ifunc,
    /// A symbol of another type above `STT_COMMON`.
    SymbolType,
}

/// A kind of flaw of an object.
#[derive(Clone, Copy, PartialEq, Eq, Debug)]
pub enum ReadKind {
    /// The file header.
    Head(HeadFault),
    /// What isn't linked.
    Unsupported(Feature),
    /// The section header table, or the string table of section names.
    SectionTable,
    /// A section's bytes pass the end of the file, or it is too large.
    SectionRange,
    /// A name that no zero byte ends, or an empty one.
    NameRange,
    /// An alignment.
    Align,
    /// The symbol table, or the order of its symbols.
    SymbolTable,
    /// The section of a symbol, or its place or size there.
    SymbolSection,
    /// A relocation section, or the symbol of an entry.
    RelaLink,
    /// A relocation section without addends for a section that is linked.
    RelaKindForm,
    /// A field that passes the end of its section.
    RelaPlace,
    /// A field that shares a byte with an earlier one.
    FieldOverlap,
    /// A section group.
    GroupForm,
}

/// A flaw of an object: its kind, and the place in the file at which it stands.
#[derive(Clone, Copy, PartialEq, Eq, Debug)]
pub struct ReadFault {
    pub kind: ReadKind,
    pub at: u64,
}

/// A flaw of this kind at this place of the file.
pub(crate) fn fault_at(kind: ReadKind, at: u64) -> ReadFault
    ensures { result ≡ record { kind = kind; at = at } }
{
    ReadFault { kind, at }
}

/// Why an object isn't read.
#[derive(Clone, Copy, PartialEq, Eq, Debug)]
pub enum ReadError {
    /// The first flaw of its bytes.
    Flaw(ReadFault),
    /// Memory ran out.
    NoMemory,
}

/// Why an object isn't read within a limit.
#[derive(Clone, Copy, PartialEq, Eq, Debug)]
pub enum LimitError {
    /// The first flaw of its bytes.
    Flaw(ReadFault),
    /// It has no flaw, but more relocation entries than the limit; and so many sections and symbols.
    TooManyFields { sections: usize, symbols: usize },
    /// Memory ran out.
    NoMemory,
}

impl From<ReadError> for LimitError {
    ghost use Rattle.kl_rel.specs.Limits.{limit_error};

    ghost from_gives = { λ error e. e ≡ limit_error error };

    fn from(error: ReadError) -> Self {
        match error {
            ReadError::Flaw(fault) => LimitError::Flaw(fault),
            ReadError::NoMemory => LimitError::NoMemory,
        }
    }
}

impl From<ReadFault> for LimitError {
    ghost use Rattle.kl_rel.specs.declared.fault.LimitError.{LimitError};

    ghost from_gives = { λ fault e. e ≡ LimitError.Flaw fault };

    fn from(fault: ReadFault) -> Self {
        LimitError::Flaw(fault)
    }
}

impl From<ReadFault> for ReadError {
    ghost use Rattle.kl_rel.specs.declared.fault.ReadError.{ReadError};

    ghost from_gives = { λ fault e. e ≡ ReadError.Flaw fault };

    fn from(fault: ReadFault) -> Self {
        ReadError::Flaw(fault)
    }
}

impl From<NoMemory> for ReadError {
    ghost use Rattle.kl_rel.specs.declared.fault.ReadError.{ReadError};

    ghost from_gives = { λ _ e. e ≡ ReadError.NoMemory };

    fn from(_: NoMemory) -> Self {
        ReadError::NoMemory
    }
}

impl From<AllocError> for ReadError {
    ghost use Rattle.kl_rel.specs.declared.fault.ReadError.{ReadError};

    ghost from_gives = { λ _ e. e ≡ ReadError.NoMemory };

    fn from(_: AllocError) -> Self {
        ReadError::NoMemory
    }
}

impl<T: Drop> From<AllocFailed<T>> for ReadError {
    ghost use Rattle.kl_rel.specs.declared.fault.ReadError.{ReadError};

    ghost from_gives = { λ _ e. e ≡ ReadError.NoMemory };

    fn from(_: AllocFailed<T>) -> Self {
        ReadError::NoMemory
    }
}
