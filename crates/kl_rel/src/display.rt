// The words of faults.
use crate::{Feature, LimitError, ReadError, ReadFault, ReadKind};
use std::fmt;

impl fmt::Display for Feature {
    fn fmt<W: fmt::Write>(&self, f: &mut fmt::Formatter<W>) -> fmt::Result {
        f.write_str(match self {
            Feature::Extended => "extended numbering of sections isn't supported",
            Feature::Tls => "storage of threads (TLS) isn't supported",
            Feature::Compressed => "a compressed allocated section isn't supported",
            Feature::WriteExecute =>
                "a section that can be both written and executed isn't supported",
            Feature::SectionType => "an allocated section of this type isn't supported",
            Feature::Priority => "constructors and destructors with a priority aren't supported",
            Feature::Binding => "a binding that is none of LOCAL, GLOBAL and WEAK isn't supported",
            Feature::Ifunc => "a symbol of the type GNU_IFUNC isn't supported",
            Feature::SymbolType => "a symbol of this type isn't supported",
        })
    }
}

impl fmt::Display for ReadKind {
    fn fmt<W: fmt::Write>(&self, f: &mut fmt::Formatter<W>) -> fmt::Result {
        match self {
            ReadKind::Head(fault) => return write!(f, "{fault}"),
            ReadKind::Unsupported(feature) => return write!(f, "{feature}"),
            _ => {}
        }
        f.write_str(match self {
            ReadKind::SectionTable =>
                "the table of sections or that of their names isn't in the file",
            ReadKind::SectionRange =>
                "the bytes of a section pass the end of the file, or are too many",
            ReadKind::NameRange => "a name is empty, or isn't ended in its string table",
            ReadKind::Align => "an alignment isn't a power of two up to 2^21",
            ReadKind::SymbolTable => "the symbol table is damaged",
            ReadKind::SymbolSection => "a symbol has no section of the file, or passes its limit",
            ReadKind::RelaLink => "a table of relocations is damaged",
            ReadKind::RelaKindForm => "relocations without addends (SHT_REL) aren't read",
            ReadKind::RelaPlace => "a relocated field passes the end of its section",
            ReadKind::FieldOverlap => "a relocated field shares a byte with an earlier one",
            _ => "a section group is damaged",
        })
    }
}

impl fmt::Display for ReadFault {
    fn fmt<W: fmt::Write>(&self, f: &mut fmt::Formatter<W>) -> fmt::Result {
        let (kind, at) = (self.kind, self.at);
        write!(f, "{kind} (byte {at:#x} of the file)")
    }
}

impl fmt::Display for ReadError {
    fn fmt<W: fmt::Write>(&self, f: &mut fmt::Formatter<W>) -> fmt::Result {
        match self {
            ReadError::Flaw(fault) => write!(f, "{fault}"),
            ReadError::NoMemory => f.write_str("out of memory"),
        }
    }
}

impl fmt::Display for LimitError {
    fn fmt<W: fmt::Write>(&self, f: &mut fmt::Formatter<W>) -> fmt::Result {
        match self {
            LimitError::Flaw(fault) => write!(f, "{fault}"),
            LimitError::TooManyFields { .. } => f.write_str("it has too many relocation entries"),
            LimitError::NoMemory => f.write_str("out of memory"),
        }
    }
}
