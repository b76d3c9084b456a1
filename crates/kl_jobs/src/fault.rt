// Why a job ended before its end.
use crate::cause::Cause;
use kl_base::NoMemory;
use kl_store::Failed;

/// Why a job ended before its end, and how many batches of files it had installed by then: for a recovery, how many slots it had
/// completed.
#[derive(Debug, Drop, PartialEq)]
pub struct JobFault {
    pub cause: Cause,
    pub batches: u32,
}

impl From<Cause> for JobFault {
    ghost use Rattle.std.specs.Prelude.{◌≡◌};

    ghost from_gives = { λ c f. f ≡ record { cause = c; batches = 0 } };

    fn from(cause: Cause) -> Self {
        JobFault { cause, batches: 0 }
    }
}

impl From<NoMemory> for JobFault {
    ghost use Rattle.std.specs.Prelude.{◌≡◌};
    ghost use Rattle.kl_jobs.specs.declared.cause.Cause.TheVariants as cause;

    ghost from_gives = { λ _ f. f ≡ record { cause = cause.NoMemory; batches = 0 } };

    fn from(_: NoMemory) -> Self {
        JobFault {
            cause: Cause::NoMemory,
            batches: 0,
        }
    }
}

impl From<Failed> for JobFault {
    ghost use Rattle.std.specs.Prelude.{◌≡◌};
    ghost use Rattle.kl_jobs.specs.declared.cause.Cause.TheVariants as cause;

    ghost from_gives = { λ _ f. f ≡ record { cause = cause.Store; batches = 0 } };

    fn from(_: Failed) -> Self {
        JobFault {
            cause: Cause::Store,
            batches: 0,
        }
    }
}
