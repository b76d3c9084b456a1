// A call that the host refused.
ghost use Rattle.std.specs.Prelude.{◌≡◌, IfOk, IsErr};

use crate::paths::{folder_path, path, target_path};
use kl_base::Name;
use std::alloc::AllocError;
use std::fmt;
use std::io::{self, ErrorKind};

/// What a call on the host was made on.
#[derive(Clone, Copy, Debug)]
pub enum Spot {
    /// The file of a name.
    File(Name),
    /// The folder that the file of a name lies in.
    Folder(Name),
    /// The file whose temporary has the name.
    Target(Name),
    /// No file.
    Nothing,
}

/// A call that the host refused: what it was made on, and why. Shown as the path below the folder in which the program was started,
/// and the host's words.
#[derive(Clone, Copy, Debug)]
pub struct HostFailure {
    spot: Spot,
    error: io::Error,
}

/// What the host answers.
pub type Done<T> = Result<T, HostFailure>;

impl HostFailure {
    /// A failure that no call of the host told.
    pub fn of_kind(kind: ErrorKind) -> Self {
        HostFailure {
            spot: Spot::Nothing,
            error: io::Error::from(kind),
        }
    }
}

impl From<AllocError> for HostFailure {
    fn from(_: AllocError) -> Self {
        HostFailure::of_kind(ErrorKind::OutOfMemory)
    }
}

impl fmt::Display for HostFailure {
    fn fmt<W: fmt::Write>(&self, f: &mut fmt::Formatter<W>) -> fmt::Result {
        let error = self.error;
        match &self.spot {
            Spot::File(name) => write!(f, "{}: ", path(name))?,
            Spot::Folder(name) => write!(f, "{}: ", folder_path(name))?,
            Spot::Target(name) => write!(f, "{}: ", target_path(name).unwrap_or(path(name)))?,
            Spot::Nothing => {}
        }
        write!(f, "{error}")
    }
}

// The host's answer to a call that was made on this.
pub fn on<T: Drop>(spot: Spot, answer: io::Result<T>) -> Done<T>
    ensures ok { IfOk result (λ value. answer ≡ Ok value) }
    ensures err { IsErr result → IsErr answer }
{
    match answer {
        Ok(value) => Ok(value),
        Err(error) => Err(HostFailure { spot, error }),
    }
}

// The answer, with its failure kept as the last one.
pub fn kept<T>(last: &mut Option<HostFailure>, done: Done<T>) -> Done<T>
    ensures { result ≡ done }
{
    if let Err(failure) = &done {
        *last = Some(*failure);
    }
    done
}
