// `recover`: batches that were stopped are completed, in both slots.
ghost use Rattle.std.specs.Prelude.{◌≡◌, ◌≤◌, ◌⊎◌, IfOk, IfErr};
ghost use Rattle.std.specs.Option.{ForSome};
ghost use Rattle.kl_base.specs.declared.class.Slot.TheVariants as slot;
ghost use Rattle.kl_store.specs.Calls.{Rose, Stays};
ghost use Rattle.kl_store.specs.Files.{KeepsNames};
ghost use Rattle.kl_store.specs.Images.{Ends, Leaves};
ghost use Rattle.kl_install.specs.Recovery.{slot_end};
ghost use Rattle.kl_jobs.specs.Recovery.{IsNoneOfBoth, RecoveryMayLeave, both_after, both_ends, completed, ends_refusal, slot_cause};
ghost use Rattle.kl_jobs.specs.Refusals.{IsOutside};
ghost use Rattle.kl_jobs.specs.declared.cause.Cause.TheVariants as cause;

use crate::cause::Cause;
use crate::fault::JobFault;
use kl_base::Slot;
use kl_install::{Installer, SlotEnd};
use kl_store::{Failed, Store};
use std::alloc::Global;

/// Recovers the kernel's slot, and then the libraries' slot, whatever the first ended with: where an intent stands in a slot and each of its
/// entries is sound its batch is completed. The ends are in that order.
///
/// # Errors
///
/// `NoMemory` before the first call of the store, and `Store`; `batches` is the number of slots that were completed before.
pub fn recover_all<S: Store>(alloc: Global, store: &mut S) -> Result<[SlotEnd; 2], JobFault>
    ensures ends { IfOk result (λ ends. ForSome (S.meaning store.old).names (λ m. ends ≡ both_ends m)) }
    ensures done { Ends (S.meaning store.old) (S.meaning store.new) result (λ m x. x ≡ both_after m) }
    ensures cause { IfErr result (λ f. IsOutside f.cause) }
    ensures failed { IfErr result (λ f. f.cause ≡ cause.Store → Rose (S.faults store.old) (S.faults store.new)) }
    ensures untouched { IfErr result (λ f. (f.cause ≡ cause.Store) ⊎ ((f.batches ≡ 0) × Stays (S.meaning store.old) (S.meaning store.new))) }
    ensures batches { IfErr result (λ f. ForSome (S.meaning store.old).names (λ m. (f.batches ≡ 0) ⊎ (f.batches ≡ completed (slot_end slot.Kernel m)))) }

    // Wherever it stops, recovery goes on to the same names, and no name changes but those of the two intents.
    ensures crash { Leaves (S.meaning store.old) (S.meaning store.new) RecoveryMayLeave }
    ensures others { ForSome (S.meaning store.old).names (λ m. KeepsNames (IsNoneOfBoth m) (S.meaning store.old) (S.meaning store.new)) }
{
    let mut kernel = Installer::new(alloc, Slot::Kernel)?;
    let mut libs = Installer::new(alloc, Slot::Libs)?;
    let first = kernel.recover(store)?;
    match libs.recover(store) {
        Ok(second) => Ok([first, second]),
        Err(Failed) => Err(JobFault {
            cause: Cause::Store,
            batches: completed(&first),
        }),
    }
}

/// How many slots were completed: one or none.
pub fn completed(end: &SlotEnd) -> u32
    ensures completed { result ≡ completed end.now }
    ensures one { result ≤ 1 }
{
    match end {
        SlotEnd::Completed { .. } => 1,
        SlotEnd::Nothing | SlotEnd::Foreign { .. } | SlotEnd::BadIntent { .. } => 0,
    }
}

/// Why a recovery that ended so has left a slot: the kernel's first.
pub fn recovery_refusal(kernel: &SlotEnd, libs: &SlotEnd) -> Option<Cause>
    ensures { result ≡ ends_refusal kernel.now libs.now }
{
    match slot_cause(Slot::Kernel, kernel) {
        Some(cause) => Some(cause),
        None => slot_cause(Slot::Libs, libs),
    }
}

/// Why a slot isn't recovered.
fn slot_cause(slot: Slot, end: &SlotEnd) -> Option<Cause>
    ensures { result ≡ slot_cause slot end.now }
{
    match *end {
        SlotEnd::Nothing | SlotEnd::Completed { .. } => None,
        SlotEnd::Foreign {
            entry,
            target,
            temp,
        } => Some(Cause::Foreign {
            slot,
            entry,
            target,
            temp,
        }),
        SlotEnd::BadIntent { line } => Some(Cause::Intent { slot, line }),
    }
}
