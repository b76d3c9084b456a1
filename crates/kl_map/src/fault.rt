// Why a map isn't read.
ghost use Rattle.std.specs.Prelude.{◌≡◌};

use kl_base::NoMemory;
use std::fmt;

/// Why a map isn't read.
#[derive(Clone, Copy, Debug, PartialEq, Eq)]
pub enum MapError {
    /// The first line outside the form of maps, counted from 1. A missing line has the number that it would have.
    Line { line: u32 },
    /// Memory ran out.
    NoMemory,
}

impl From<NoMemory> for MapError {
    ghost use Rattle.kl_map.specs.declared.fault.MapError.{MapError};

    ghost from_gives = { λ _ e. e ≡ MapError.NoMemory };

    fn from(_: NoMemory) -> Self {
        MapError::NoMemory
    }
}

impl fmt::Display for MapError {
    fn fmt<W: fmt::Write>(&self, f: &mut fmt::Formatter<W>) -> fmt::Result {
        match self {
            MapError::Line { line } => { write!(f, "line {line}: this isn't in the form of a map") }
            MapError::NoMemory => f.write_str("out of memory"),
        }
    }
}
