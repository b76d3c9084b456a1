// The words of faults.
use crate::fault::{KitFault, Needed};
use crate::index::LIBRARY_LIMIT;
use kl_base::INPUT_COUNT_LIMIT;
use std::fmt;

impl fmt::Display for Needed {
    fn fmt<W: fmt::Write>(&self, f: &mut fmt::Formatter<W>) -> fmt::Result {
        f.write_str(match self {
            Needed::Kind => "'kind'",
            Needed::Output => "'output'",
            Needed::Entry => "'entry'",
            Needed::Input => "'head', 'object' or 'tail'",
            Needed::Library => "'library'",
        })
    }
}

impl fmt::Display for KitFault {
    fn fmt<W: fmt::Write>(&self, f: &mut fmt::Formatter<W>) -> fmt::Result {
        match self {
            KitFault::Byte { line } => write!(
                f,
                "line {line}: a byte that is neither a tab nor one from 0x20 to 0x7e"
            ),
            KitFault::Keyword { line } => {
                write!(f, "line {line}: no line begins with this word")
            }
            KitFault::Misplaced { line } => write!(
                f,
                "line {line}: 'kind' stands first and once, and a kernel's kit and a library's have lines of their own"
            ),
            KitFault::Count { line } => write!(f, "line {line}: too few or too many words"),
            KitFault::Value { line } => write!(f, "line {line}: a word isn't in its form"),
            KitFault::Reserved { line } => {
                write!(f, "line {line}: this name is kept for other files")
            }
            KitFault::Twice { line } => {
                write!(f, "line {line}: this comes again, and may come once")
            }
            KitFault::Limit { line } => {
                write!(
                    f,
                    "line {line}: more than {INPUT_COUNT_LIMIT} inputs of a kit, or {LIBRARY_LIMIT} libraries"
                )
            }
            KitFault::Missing { what } => write!(f, "no line {what}"),
        }
    }
}
