// How a command ended.
ghost use Rattle.std.specs.Prelude.{◌≡◌};
ghost use Rattle.kl_cli.specs.Answers.{status_of};

use kl_jobs::Cause;

/// How a command ended: the status that the process ends with, its cause, and the number of batches of files that were
/// installed, or of slots that were recovered.
#[derive(Debug, Drop, PartialEq)]
pub struct Exit {
    pub status: u8,
    pub cause: Cause,
    pub batches: u32,
}

impl Exit {
    ghost use Rattle.std.specs.Prelude.{◌≡◌};
    ghost use Rattle.kl_cli.specs.Answers.{status_of};

    /// A command that ended so, and installed so many batches.
    pub fn of(cause: Cause, batches: u32) -> Exit
        ensures cause { result.cause ≡ cause }
        ensures status { result.status ≡ status_of cause }
        ensures batches { result.batches ≡ batches }
    {
        Exit {
            status: status(&cause),
            cause,
            batches,
        }
    }
}

/// The status that a process ends with for this cause.
pub fn status(cause: &Cause) -> u8
    ensures { result ≡ status_of cause.now }
{
    match cause {
        Cause::Done => 0,
        Cause::Usage => 2,
        Cause::NoMemory => 3,
        Cause::Store => 4,
        Cause::Entropy => 5,
        Cause::Sink => 6,
        Cause::Mismatch { .. } => 10,
        Cause::Record(_) => 11,
        Cause::Kit(_) => 12,
        Cause::Object { .. } => 13,
        Cause::Link(_) => 14,
        Cause::Pending { .. } => 15,
        Cause::Foreign { .. } => 16,
        Cause::Intent { .. } => 17,
    }
}
