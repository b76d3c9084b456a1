// The words of causes. Inputs have numbers here: who has the kit text can tell their names.
use crate::cause::{Cause, KitCause, ObjectCause, RecordCause, TotalOf};
use kl_base::{
    FIELD_COUNT_LIMIT, INPUT_BYTES_LIMIT, INPUT_COUNT_LIMIT, SECTION_COUNT_LIMIT,
    SYMBOL_COUNT_LIMIT,
};
use std::fmt;

impl fmt::Display for TotalOf {
    fn fmt<W: fmt::Write>(&self, f: &mut fmt::Formatter<W>) -> fmt::Result {
        match self {
            TotalOf::Inputs => write!(f, "more than {INPUT_COUNT_LIMIT} inputs"),
            TotalOf::Bytes => write!(f, "more than {INPUT_BYTES_LIMIT} bytes of inputs"),
            TotalOf::Sections => write!(f, "more than {SECTION_COUNT_LIMIT} sections"),
            TotalOf::Symbols => write!(f, "more than {SYMBOL_COUNT_LIMIT} symbols"),
            TotalOf::Fields => write!(f, "more than {FIELD_COUNT_LIMIT} relocations"),
        }
    }
}

impl fmt::Display for KitCause {
    fn fmt<W: fmt::Write>(&self, f: &mut fmt::Formatter<W>) -> fmt::Result {
        match self {
            KitCause::Text(fault) => write!(f, "{fault}"),
            KitCause::Absent(_) => f.write_str("a file of the kit is absent"),
            KitCause::TooLong(_) => f.write_str("a file of the kit is longer than its limit"),
            KitCause::Kind => f.write_str("the kit isn't of the kind that this job links"),
            KitCause::Total { what, line } => write!(
                f,
                "line {line}: with this input the kit has {what}"
            ),
        }
    }
}

impl fmt::Display for ObjectCause {
    fn fmt<W: fmt::Write>(&self, f: &mut fmt::Formatter<W>) -> fmt::Result {
        match self {
            ObjectCause::Elf(fault) => write!(f, "{fault}"),
            ObjectCause::Ar(fault) => write!(f, "{fault}"),
        }
    }
}

impl fmt::Display for RecordCause {
    fn fmt<W: fmt::Write>(&self, f: &mut fmt::Formatter<W>) -> fmt::Result {
        match self {
            RecordCause::Absent => f.write_str("there is no record of the kernel's digest"),
            RecordCause::Flaw(_) => f.write_str("the record of the kernel's digest isn't one"),
        }
    }
}

impl fmt::Display for Cause {
    fn fmt<W: fmt::Write>(&self, f: &mut fmt::Formatter<W>) -> fmt::Result {
        match self {
            Cause::Done => f.write_str("done"),
            Cause::Usage => f.write_str("the words are no command"),
            Cause::NoMemory => f.write_str("out of memory"),
            Cause::Store => f.write_str("a call on the disk failed"),
            Cause::Entropy => f.write_str(
                "no random bytes could be read for a seed: '--seed HEX' gives one",
            ),
            Cause::Sink => f.write_str(
                "all was done, but the line that says so could not be written to standard output",
            ),
            Cause::Pending { .. } => {
                f.write_str("a job was stopped, and its files aren't recovered yet")
            }
            Cause::Record(cause) => write!(f, "{cause}"),
            Cause::Mismatch { found: None, .. } => f.write_str("there is no kernel"),
            Cause::Mismatch { found: Some(_), .. } => {
                f.write_str("the kernel isn't the one that its record names")
            }
            Cause::Kit(cause) => write!(f, "{cause}"),
            Cause::Object { line, fault, .. } => write!(f, "the object of line {line}: {fault}"),
            Cause::Link(fault) => write!(f, "{fault}"),
            Cause::Foreign { entry, .. } => write!(
                f,
                "the file of entry {entry} of an intent is neither the old nor the new one"
            ),
            Cause::Intent { line, .. } => {
                write!(f, "line {line} of an intent's file is none of an intent")
            }
        }
    }
}
