// The words of faults. Inputs, sections and symbols have numbers here: who has the files can tell their names.
use crate::{FieldAt, LinkFault};
use std::fmt;

impl fmt::Display for FieldAt {
    fn fmt<W: fmt::Write>(&self, f: &mut fmt::Formatter<W>) -> fmt::Result {
        let FieldAt {
            input,
            section,
            index,
        } = *self;
        write!(
            f,
            "relocation {index} of section {section} of input {input}"
        )
    }
}

impl fmt::Display for LinkFault {
    fn fmt<W: fmt::Write>(&self, f: &mut fmt::Formatter<W>) -> fmt::Result {
        match self {
            LinkFault::Undefined { from, .. } => write!(
                f,
                "undefined symbol, referenced by {from}"
            ),
            LinkFault::Doubled { first, second, .. } => {
                let ((one, a), (other, b)) = (*first, *second);
                write!(
                    f,
                    "two definitions of one name: symbol {a} of input {one} and symbol {b} of input {other}"
                )
            }
            LinkFault::Kind { from, number } => {
                write!(f, "the relocation type {number} isn't linked: {from}")
            }
            LinkFault::Range { from, .. } => write!(f, "a value is out of range: {from}"),
            LinkFault::NotFixed { from } => {
                write!(f, "a value depends on where the library is loaded: {from}")
            }
            LinkFault::ReadOnlyField { from } => {
                write!(
                    f,
                    "the loader would have to write into memory that is only read: {from}"
                )
            }
            LinkFault::Removed { from } => write!(
                f,
                "it leads to a section that isn't linked: {from}"
            ),
            LinkFault::NoEntry { .. } => f.write_str("the kit's entry has no definition"),
            LinkFault::EdgeClash { .. } => f.write_str(
                "an input defines the symbol of an edge line",
            ),
            LinkFault::Span { found, limit } => {
                write!(f, "the image spans {found} bytes, more than {limit}")
            }
            LinkFault::NoMemory => f.write_str("out of memory"),
        }
    }
}
