// Why a command ended.
use kl_ar::ArFault;
use kl_base::{Name, NoMemory, Slot};
use kl_digest::RecordFault;
use kl_kit::KitFault;
use kl_model::LinkFault;
use kl_rel::ReadFault;
use kl_store::Failed;
use std::alloc::{AllocError, AllocFailed};

/// How a command ended, in the order in which refusals are asked.
#[derive(Debug, Drop, PartialEq)]
pub enum Cause {
    /// All was done.
    Done,
    /// The words are no command.
    Usage,
    /// Memory ran out.
    NoMemory,
    /// A call of the store failed.
    Store,
    /// The source of random bytes failed.
    Entropy,
    /// All was done, but the sink didn't take the lines that say so.
    Sink,
    /// A batch of the job was stopped, and its intent stands in the slot.
    Pending {
        slot: Slot,
    },
    /// There is no record of the kernel's digest, or it isn't read.
    Record(RecordCause),
    /// The kernel isn't the one that its record names: the digest of the record, and that of the kernel, None where there is no kernel.
    Mismatch {
        recorded: [u8; 32],
        found: Option<[u8; 32]>,
    },
    /// The kit isn't read.
    Kit(KitCause),
    /// An input isn't read: its number, its line in the kit text, and the first flaw of its bytes. For an archive the number is the one that
    /// its first member would have.
    Object {
        input: u32,
        line: u32,
        fault: ObjectCause,
    },
    /// The kit doesn't link.
    Link(LinkFault),
    /// In a recovery: the entry of that number of the slot's intent, counted from 0, isn't sound. The digests are those of what its target
    /// and its temporary hold, None where they are absent.
    Foreign {
        slot: Slot,
        entry: u32,
        target: Option<[u8; 32]>,
        temp: Option<[u8; 32]>,
    },
    /// In a recovery: that line of the slot's file is outside the grammar of intents, 0 for a file that is too long.
    Intent {
        slot: Slot,
        line: u32,
    },
}

/// Why a kernel's record isn't read.
#[derive(Clone, Copy, Debug, PartialEq, Eq)]
pub enum RecordCause {
    /// There is none.
    Absent,
    /// Its first flaw.
    Flaw(RecordFault),
}

/// Why an input isn't read.
#[derive(Clone, Copy, Debug, PartialEq, Eq)]
pub enum ObjectCause {
    /// A flaw of a relocatable object.
    Elf(ReadFault),
    /// A fault of an archive.
    Ar(ArFault),
}

/// Why a kit isn't read.
#[derive(Clone, Copy, Debug, PartialEq, Eq)]
pub enum KitCause {
    /// The first fault of the kit text.
    Text(KitFault),
    /// There is no file of the name.
    Absent(Name),
    /// The file is longer than its limit.
    TooLong(Name),
    /// The kit isn't of the kind that the job links.
    Kind,
    /// The input of a line of the kit text takes the kit past a limit.
    Total { what: TotalOf, line: u32 },
}

/// What a kit has too much of.
#[derive(Clone, Copy, Debug, PartialEq, Eq)]
pub enum TotalOf {
    /// More than 16,384 inputs.
    Inputs,
    /// More than 256 MiB.
    Bytes,
    /// More than 2^20 sections.
    Sections,
    /// More than 2^22 symbols.
    Symbols,
    /// More than 2^23 fields.
    Fields,
}

impl From<NoMemory> for Cause {
    ghost use Rattle.std.specs.Prelude.{◌≡◌};
    ghost use Rattle.kl_jobs.specs.declared.cause.Cause.TheVariants as cause;

    ghost from_gives = { λ _ e. e ≡ cause.NoMemory };

    fn from(_: NoMemory) -> Self {
        Cause::NoMemory
    }
}

impl From<Failed> for Cause {
    ghost use Rattle.std.specs.Prelude.{◌≡◌};
    ghost use Rattle.kl_jobs.specs.declared.cause.Cause.TheVariants as cause;

    ghost from_gives = { λ _ e. e ≡ cause.Store };

    fn from(_: Failed) -> Self {
        Cause::Store
    }
}

impl From<AllocError> for Cause {
    ghost use Rattle.std.specs.Prelude.{◌≡◌};
    ghost use Rattle.kl_jobs.specs.declared.cause.Cause.TheVariants as cause;

    ghost from_gives = { λ _ e. e ≡ cause.NoMemory };

    fn from(_: AllocError) -> Self {
        Cause::NoMemory
    }
}

impl<T: Drop> From<AllocFailed<T>> for Cause {
    ghost use Rattle.std.specs.Prelude.{◌≡◌};
    ghost use Rattle.kl_jobs.specs.declared.cause.Cause.TheVariants as cause;

    ghost from_gives = { λ _ e. e ≡ cause.NoMemory };

    fn from(_: AllocFailed<T>) -> Self {
        Cause::NoMemory
    }
}
