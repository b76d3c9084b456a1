// What was done.
use kl_base::Name;
use kl_install::SlotEnd;
use kl_jobs::{Cause, completed, recovery_refusal};
use kl_link::Report;

/// What a command did.
#[derive(Clone, Copy, Debug, PartialEq)]
pub enum Outcome {
    /// The kit of a folder was linked there.
    Linked(Name, Report),
    /// The kernel was linked, and installed with its record and its map.
    Relinked(Report),
    /// The slots were looked at, the kernel's and the libraries', and each ended so.
    Recovered { kernel: SlotEnd, libs: SlotEnd },
    /// The kit of so many objects was made and linked in memory.
    Generated(u32, Report),
}

impl Outcome {
    ghost use Rattle.std.specs.Prelude.{◌≡◌};
    ghost use Rattle.kl_cli.specs.Done.{installed_by, refusal_of};

    /// What stands against the command: of a recovery the first slot that isn't recovered, the kernel's first.
    pub fn refusal(&self) -> Option<Cause>
        ensures { result ≡ refusal_of self.now }
    {
        match self {
            Outcome::Recovered { kernel, libs } => recovery_refusal(kernel, libs),
            Outcome::Linked(..) | Outcome::Relinked(_) | Outcome::Generated(..) => None,
        }
    }

    /// How many batches were installed, or slots completed.
    pub fn installed(&self) -> u32
        ensures { result ≡ installed_by self.now }
    {
        match self {
            Outcome::Linked(..) | Outcome::Generated(..) => 0,
            Outcome::Relinked(_) => 1,
            Outcome::Recovered { kernel, libs } => completed(kernel) + completed(libs),
        }
    }
}
