// What refuses the kernel's job before its kit is read.
ghost use Rattle.std.specs.Prelude.{◌≡◌, ◌≢◌, ◌<◌, ◌≤◌, None, Some, length, IfErr, IfOk, OnOk, IsErrOf};
ghost use Rattle.std.specs.Option.{ForSome};
ghost use Rattle.std.specs.FinMap.{get};
ghost use Rattle.kl_store.specs.Calls.{Holds, Rose, Stays};
ghost use Rattle.kl_base.specs.declared.class.Slot.TheVariants as slot;
ghost use Rattle.kl_batch.specs.Batches.{IsMatched};
ghost use Rattle.kl_batch.specs.declared.names.TheConstants.{KERNEL, KERNEL_RECORD};
ghost use Rattle.kl_intent.specs.IntentText.{slot_name};
ghost use Rattle.kl_install.specs.After.{digest_at};
ghost use Rattle.kl_jobs.specs.Refusals.{IsRefusal, Refuses};
ghost use Rattle.kl_jobs.specs.Start.{Records, kernel_refusal, mismatch, pending_refusal, record_refusal};

use crate::cause::{Cause, RecordCause};
use kl_base::{BUFFER_SIZE, INTENT_LIMIT, Name, NoMemory, Slot};
use kl_batch::{KERNEL, KERNEL_RECORD};
use kl_digest::{RecordFault, digest_file, read_record};
use kl_intent::slot_name;
use kl_store::{Store, WholeFault, read_whole};
use std::alloc::Global;

/// The most bytes of a record that are read: as many as an intent may have. A longer file is no record, whatever it holds.
const RECORD_LIMIT: u64 = INTENT_LIMIT as u64;

/// Checks that no batch of the kernel's job is pending, and that the kernel matches its record.
///
/// # Errors
///
/// The first that stands: `Pending`, of the record `Record`, and `Mismatch` where there is no kernel or its digest isn't the record's.
pub fn check_kernel<S: Store>(alloc: Global, store: &mut S) -> Result<(), Cause>
    ensures free { OnOk result (Holds (S.meaning store.old) (slot_name slot.Kernel) (λ file. file ≡ None)) }
    ensures matched { OnOk result (ForSome (S.meaning store.old).names IsMatched) }
    ensures stands { OnOk result (ForSome (S.meaning store.old).names (λ m. kernel_refusal m ≡ None)) }
    ensures refused { IfErr result (Refuses (S.meaning store.old) kernel_refusal) }
    ensures refusal { IfErr result IsRefusal }
    ensures failed { IsErrOf result Cause.Store → Rose (S.faults store.old) (S.faults store.new) }
    ensures faults { S.faults store.old ≤ S.faults store.new }
    ensures still { Stays (S.meaning store.old) (S.meaning store.new) }
{
    check_slot(store, Slot::Kernel)?;
    let recorded = read_recorded(alloc, store)?;
    check_digest(alloc, store, &recorded)
}

/// Checks that no batch is pending in a slot.
fn check_slot<S: Store>(store: &mut S, slot: Slot) -> Result<(), Cause>
    ensures free { OnOk result (Holds (S.meaning store.old) (slot_name slot) (λ file. file ≡ None)) }
    ensures stands { OnOk result (ForSome (S.meaning store.old).names (λ m. pending_refusal slot m ≡ None)) }
    ensures refused { IfErr result (Refuses (S.meaning store.old) (pending_refusal slot)) }
    ensures refusal { IfErr result IsRefusal }
    ensures failed { IsErrOf result Cause.Store → Rose (S.faults store.old) (S.faults store.new) }
    ensures faults { S.faults store.old ≤ S.faults store.new }
    ensures still { Stays (S.meaning store.old) (S.meaning store.new) }
{
    match store.size(&slot_name(slot))? {
        Some(_) => Err(Cause::Pending { slot }),
        None => Ok(()),
    }
}

/// The digest that the kernel's record names.
fn read_recorded<S: Store>(alloc: Global, store: &mut S) -> Result<[u8; 32], Cause>
    ensures names { IfOk result (λ digest. Holds (S.meaning store.old) KERNEL_RECORD (Records digest)) }
    ensures stands { OnOk result (Holds (S.meaning store.old) KERNEL_RECORD (λ file. record_refusal file ≡ None)) }
    ensures refused { IfErr result (Refuses (S.meaning store.old) (λ m. record_refusal (get m KERNEL_RECORD))) }
    ensures refusal { IfErr result IsRefusal }
    ensures failed { IsErrOf result Cause.Store → Rose (S.faults store.old) (S.faults store.new) }
    ensures faults { S.faults store.old ≤ S.faults store.new }
    ensures still { Stays (S.meaning store.old) (S.meaning store.new) }
{
    let name = Name::from_bytes(&KERNEL_RECORD).unwrap();
    let text = match read_whole(alloc, store, &name, RECORD_LIMIT) {
        Ok(text) => text,
        Err(WholeFault::Missing) => return Err(Cause::Record(RecordCause::Absent)),
        Err(WholeFault::TooLong { size }) => {
            let fault = RecordFault::Length { found: size };
            return Err(Cause::Record(RecordCause::Flaw(fault)));
        }
        Err(WholeFault::Failed) => return Err(Cause::Store),
        Err(WholeFault::NoMemory) => return Err(Cause::NoMemory),
    };
    match read_record(&text) {
        Ok(digest) => Ok(digest),
        Err(fault) => Err(Cause::Record(RecordCause::Flaw(fault))),
    }
}

/// Checks that the kernel has the digest that its record names.
fn check_digest<S: Store>(alloc: Global, store: &mut S, recorded: &[u8; 32]) -> Result<(), Cause>
    ensures same { OnOk result (ForSome (S.meaning store.old).names (λ m. digest_at m KERNEL ≡ Some recorded.now)) }
    ensures stands { OnOk result (ForSome (S.meaning store.old).names (λ m. mismatch recorded.now (digest_at m KERNEL) ≡ None)) }
    ensures refused { IfErr result (Refuses (S.meaning store.old) (λ m. mismatch recorded.now (digest_at m KERNEL))) }
    ensures refusal { IfErr result IsRefusal }
    ensures failed { IsErrOf result Cause.Store → Rose (S.faults store.old) (S.faults store.new) }
    ensures faults { S.faults store.old ≤ S.faults store.new }
    ensures still { Stays (S.meaning store.old) (S.meaning store.new) }
{
    let mut buf = buffer(alloc)?;
    let found = digest_file(store, &Name::from_bytes(&KERNEL).unwrap(), &mut buf)?;
    match_digest(recorded, found)
}

/// The buffer by which a file is read in pieces.
fn buffer(alloc: Global) -> Result<Vec<u8>, NoMemory>
    ensures { IfOk result (λ buf. 0 < length buf.items) }
{
    Ok(vec![in alloc; 0; BUFFER_SIZE]?)
}

/// Compares the digest of a record with that of the kernel, None where there is no kernel.
fn match_digest(recorded: &[u8; 32], found: Option<[u8; 32]>) -> Result<(), Cause>
    ensures same { OnOk result (found ≡ Some recorded.now) }
    ensures stands { OnOk result (mismatch recorded.now found ≡ None) }
    ensures refused { IfErr result (λ c. mismatch recorded.now found ≡ Some c) }
    ensures refusal { IfErr result IsRefusal }
    ensures no_store { IfErr result (λ c. c ≢ Cause.Store) }
{
    match found {
        Some(digest) if digest == *recorded => Ok(()),
        _ => Err(Cause::Mismatch {
            recorded: *recorded,
            found,
        }),
    }
}
