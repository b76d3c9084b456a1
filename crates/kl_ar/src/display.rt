// The words of faults.
use crate::fault::ArFault;
use std::fmt;

impl fmt::Display for ArFault {
    fn fmt<W: fmt::Write>(&self, f: &mut fmt::Formatter<W>) -> fmt::Result {
        match self {
            ArFault::Magic => write!(f, "not an ar archive"),
            ArFault::Thin => write!(f, "thin archives aren't read"),
            ArFault::Truncated { at } => {
                write!(f, "the member at {at} passes the end of the archive")
            }
            ArFault::Header { at } => write!(f, "no end of a member's header at {at}"),
            ArFault::SizeText { at } => write!(f, "no decimal size at {at}"),
            ArFault::LongName { at } => {
                write!(
                    f,
                    "the long name of the member at {at} isn't in the archive"
                )
            }
        }
    }
}
