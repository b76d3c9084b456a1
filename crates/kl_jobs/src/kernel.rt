// `reorder_kernel`: the kernel is linked anew, and takes its place with its record and its map.
ghost use Rattle.std.specs.Prelude.{◌≡◌, ◌≤◌, ◌⊎◌, None, IfOk, IfErr, OnOk, IsErrOf};
ghost use Rattle.std.specs.Option.{ForSome};
ghost use Rattle.kl_base.specs.declared.class.Slot.TheVariants as slot;
ghost use Rattle.kl_store.specs.Calls.{Holds, Rose, Stays};
ghost use Rattle.kl_store.specs.Files.{KeepsNames};
ghost use Rattle.kl_store.specs.Images.{Leaves, NamesHave};
ghost use Rattle.kl_intent.specs.IntentText.{slot_name};
ghost use Rattle.kl_batch.specs.Batches.{IsMatched};
ghost use Rattle.kl_jobs.specs.declared.names.TheConstants.{KERNEL_KIT};
ghost use Rattle.kl_jobs.specs.Kernels.{IsKernelLink, IsNoKernelFile, KernelMayLeave, RelinksUnder, kernel_early, kernel_late};
ghost use Rattle.kl_jobs.specs.Refusals.{EndsUnder, IsJobRefusal, RefusesJob};
ghost use Rattle.kl_jobs.specs.Seeds.{Draws, NoneDrawn};
ghost use Rattle.kl_jobs.specs.declared.cause.Cause.TheVariants as cause;

use crate::cause::Cause;
use crate::fault::JobFault;
use crate::names::KERNEL_KIT;
use crate::source::{link_source, read_source};
use crate::start::check_kernel;
use kl_base::{Name, Slot};
use kl_batch::put_kernel;
use kl_digest::record_text;
use kl_install::Installer;
use kl_link::{LinkedKit, Report};
use kl_model::KitKind;
use kl_store::{Entropy, Store};
use std::alloc::Global;

/// Links the kernel's kit, which stands in `/usr/share/relink/kernel`, in the order and with the gaps that are drawn from the seed, and
/// installs the image, the record of its digest and its map as one batch. Without a seed it draws one, a block of the source of random
/// bytes, when the kit text is read. A stop at any moment, followed by recovery of the kernel's slot, leaves all three as they were or all
/// three new.
///
/// # Errors
///
/// The first that stands: `Pending` of the kernel's slot, `Record`, `Mismatch`, of the kit text, of the source of random bytes, of the inputs
/// in kit order, of the link, of the store.
pub fn reorder_kernel<S: Store, E: Entropy>(
    alloc: Global,
    seed: Option<[u8; 32]>,
    store: &mut S,
    entropy: &mut E,
) -> Result<Report, JobFault>
    ensures done { IfOk result (RelinksUnder seed (E.meaning entropy.old) (E.meaning entropy.new) (S.meaning store.old) (S.meaning store.new)) }
    ensures stands { OnOk result (ForSome (S.meaning store.old).names
        (λ m. EndsUnder seed (E.meaning entropy.old) (E.meaning entropy.new) (kernel_early m) (kernel_late m) None)) }
    ensures matched { OnOk result (ForSome (S.meaning store.old).names IsMatched) }
    ensures refused { IfErr result (λ f. RefusesJob seed (E.meaning entropy.old) (E.meaning entropy.new) (S.meaning store.old) kernel_early kernel_late f.cause) }
    ensures refusal { IfErr result (λ f. IsJobRefusal f.cause) }
    ensures batches { IfErr result (λ f. f.batches ≡ 0) }
    ensures failed { IfErr result (λ f. f.cause ≡ cause.Store → Rose (S.faults store.old) (S.faults store.new)) }

    // It takes one block at most, none with a seed, and none where the source failed.
    ensures draws { Draws seed (E.meaning entropy.old) (E.meaning entropy.new) }
    ensures undrawn { IfErr result (λ f. f.cause ≡ cause.Entropy → NoneDrawn seed (E.meaning entropy.old) (E.meaning entropy.new)) }
    ensures entropy { IfErr result (λ f. f.cause ≡ cause.Entropy → Rose (E.faults entropy.old) (E.faults entropy.new)) }

    // A refusal changes no name. Where a call of the store failed, the names are as they were or as a stop leaves them.
    ensures untouched { IfErr result (λ f. (f.cause ≡ cause.Store) ⊎ Stays (S.meaning store.old) (S.meaning store.new)) }
    ensures stopped { IfErr result (λ f. Stays (S.meaning store.old) (S.meaning store.new)
        ⊎ NamesHave (S.meaning store.old) (S.meaning store.new) (KernelMayLeave seed (E.meaning entropy.old) (E.meaning entropy.new))) }

    // Whatever the answer, a stop leaves the batch or none, and no name but those of the batch changes.
    ensures crash { Leaves (S.meaning store.old) (S.meaning store.new) (KernelMayLeave seed (E.meaning entropy.old) (E.meaning entropy.new)) }
    ensures others { KeepsNames IsNoKernelFile (S.meaning store.old) (S.meaning store.new) }
{
    let mut installer = Installer::new(alloc, Slot::Kernel)?;
    let linked = link_kernel_kit(alloc, seed, store, entropy)?;
    let record = record_text(&linked.report.digest);
    put_kernel(&mut installer, store, &linked.image, &record, &linked.map)?;
    Ok(linked.report)
}

/// Checks the kernel, and links its kit. Nothing is changed yet.
fn link_kernel_kit<S: Store, E: Entropy>(
    alloc: Global,
    seed: Option<[u8; 32]>,
    store: &mut S,
    entropy: &mut E,
) -> Result<LinkedKit, Cause>
    ensures linked { IfOk result (λ l. IsKernelLink seed (E.meaning entropy.old) (E.meaning entropy.new) (S.meaning store.old) l.image.items l.map.items l.report) }
    ensures stands { OnOk result (ForSome (S.meaning store.old).names
        (λ m. EndsUnder seed (E.meaning entropy.old) (E.meaning entropy.new) (kernel_early m) (kernel_late m) None)) }
    ensures free { OnOk result (Holds (S.meaning store.old) (slot_name slot.Kernel) (λ file. file ≡ None)) }
    ensures matched { OnOk result (ForSome (S.meaning store.old).names IsMatched) }
    ensures refused { IfErr result (RefusesJob seed (E.meaning entropy.old) (E.meaning entropy.new) (S.meaning store.old) kernel_early kernel_late) }
    ensures refusal { IfErr result IsJobRefusal }
    ensures failed { IsErrOf result Cause.Store → Rose (S.faults store.old) (S.faults store.new) }
    ensures draws { Draws seed (E.meaning entropy.old) (E.meaning entropy.new) }
    ensures undrawn { IsErrOf result Cause.Entropy → NoneDrawn seed (E.meaning entropy.old) (E.meaning entropy.new) }
    ensures entropy { IsErrOf result Cause.Entropy → Rose (E.faults entropy.old) (E.faults entropy.new) }
    ensures faults { S.faults store.old ≤ S.faults store.new }
    ensures still { Stays (S.meaning store.old) (S.meaning store.new) }
{
    check_kernel(alloc, store)?;
    let wanted = Some(KitKind::Kernel);
    let source = read_source(alloc, &kernel_kit(), wanted, seed, store, entropy)?;
    link_source(alloc, &source)
}

/// The folder of the kernel's kit.
fn kernel_kit() -> Name
    ensures { result ≡ KERNEL_KIT }
{
    Name::from_bytes(&KERNEL_KIT).unwrap()
}
