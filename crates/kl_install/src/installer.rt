// The installer: files are staged one after another, and then take their places as one batch.
ghost use Rattle.std.specs.Prelude.{◌≡◌, ◌≢◌, ◌≤◌, ◌<◌, [], length, true, false, IfOk, OnOk, OnErr, None};
ghost use Rattle.std.specs.Option.{ForSome};
ghost use Rattle.std.specs.FinMap.{get};
ghost use Rattle.std.specs.List.{AllByRecursion};
ghost use Rattle.kl_store.specs.Calls.{HasCause, Holds};
ghost use Rattle.kl_store.specs.Disk.{names_now};
ghost use Rattle.kl_store.specs.Files.{HasFiles, KeepsNames, SameFiles, SameNames};
ghost use Rattle.kl_store.specs.Images.{Leaves, LeavesOfDisk, Ends, IsSettledAt};
ghost use Rattle.kl_intent.specs.IntentText.{is_target, is_new, slot_name, entries_of, IsEntry, AreDistinct};
ghost use Rattle.kl_install.specs.Props.{each-prop, distinct-prop};
ghost use Rattle.kl_install.specs.After.{after, temp_name};
ghost use Rattle.kl_install.specs.Batch.{IsStaged};
ghost use Rattle.kl_install.specs.Committed.{Commits};
ghost use Rattle.kl_install.specs.Others.{IsOther, IsNoneOf};
ghost use Rattle.kl_install.specs.Recovered.{Recovers};
ghost use Rattle.kl_install.specs.Recovery.{slot_end, is_clear};
ghost use Rattle.kl_install.specs.Staging.{CanGoOn, Stages};
ghost use Rattle.kl_base.specs.declared.limits.TheConstants.{ENTRY_LIMIT};

use crate::SlotEnd;
use crate::install::install;
use crate::recover::recover;
use crate::stage::{entry_of, stage_file};
use kl_base::{BUFFER_SIZE, Name, NoMemory, Slot};
use kl_digest::sha256;
use kl_intent::Intent;
use kl_store::{Failed, Store};
use std::alloc::Global;

/// Replaces files in batches, for one slot. A stop at any moment, followed by `recover`, leaves all files of a batch
/// as they were or all as they were staged. No call but `new` takes memory.
#[derive(Drop)]
pub struct Installer {
    intent: Intent,
    ready: bool,
    buf: Vec<u8>,
    ghost few: { intent.count ≤ ENTRY_LIMIT },
    ghost size: { length (entries_of intent) ≡ intent.count },
    ghost each: { AllByRecursion IsEntry (entries_of intent) } by { each-prop (entries_of intent) },
    ghost distinct: { AreDistinct [] (entries_of intent) } by { distinct-prop [] (entries_of intent) },
    ghost room: { 0 < length buf.items },
}

impl Installer {
    ghost use Rattle.kl_install.specs.Installers.{staged, slot_of, batch_of, is_ready};

    /// An installer that is ready, with nothing staged. It keeps a buffer of 65,536 bytes.
    pub fn new(alloc: Global, slot: Slot) -> Result<Installer, NoMemory>
        ensures slot { IfOk result (λ i. slot_of i ≡ slot) }
        ensures staged { IfOk result (λ i. staged i ≡ []) }
        ensures ready { IfOk result (λ i. is_ready i ≡ true) }
    {
        Ok(Installer {
            intent: Intent::new(slot),
            ready: true,
            buf: vec![in alloc; 0; BUFFER_SIZE]?,
        })
    }

    /// Whether files may be staged and committed: since `new`, or the last `recover` that found nothing or completed,
    /// no call has failed.
    pub fn is_ready(&self) -> bool
        ensures { result ≡ is_ready self.now }
    {
        self.ready
    }

    /// Stages a file of these bytes, which is to take the target's place. The first one of a batch settles first.
    pub fn stage<S: Store>(
        &mut self,
        store: &mut S,
        target: &Name,
        bytes: &[u8],
    ) -> Result<(), Failed>
        requires ready { is_ready self.old ≡ true }
        requires free { Holds (S.meaning store.old) (slot_name (slot_of self.old)) (λ file. file ≡ None) }
        requires room { length (staged self.old) < ENTRY_LIMIT }
        requires target { is_target target.now ≡ true }
        requires fresh { is_new target.now (staged self.old) ≡ true }
        requires so_far { CanGoOn (batch_of self.old) (S.meaning store.old) }
        ensures slot { slot_of self.new ≡ slot_of self.old }
        ensures ready { OnOk result (is_ready self.new ≡ true) }
        ensures not_ready { OnErr result (is_ready self.new ≡ false) }
        ensures staged { OnOk result (Stages (batch_of self.old) target.now bytes.now (staged self.new) (S.meaning store.old) (S.meaning store.new)) }

        // So the next file may be staged, or the batch be committed.
        ensures free { OnOk result (Holds (S.meaning store.new) (slot_name (slot_of self.new)) (λ file. file ≡ None)) }
        ensures goes_on { OnOk result (ForSome (S.meaning store.new).disk (IsStaged (batch_of self.new))) }

        // Whatever the answer, no file has changed, and a crash leaves no file changed.
        ensures images { LeavesOfDisk (S.meaning store.old) (S.meaning store.new) HasFiles }
        ensures quiet { Leaves (S.meaning store.old) (S.meaning store.new) SameNames }
        ensures files { SameFiles (S.meaning store.old) (S.meaning store.new) }
        ensures others { KeepsNames (λ n. n ≢ temp_name target.now) (S.meaning store.old) (S.meaning store.new) }
        ensures cause { HasCause (S.faults store.old) (S.faults store.new) result }
    {
        self.ready = false;
        let first = self.intent.count == 0;
        let old = stage_file(store, first, target, bytes, &mut self.buf)?;
        self.intent.push(entry_of(target, old, sha256(bytes)));
        self.ready = true;
        Ok(())
    }

    /// Puts all staged files in their targets' places. After a failure only `recover` may be called.
    pub fn commit<S: Store>(&mut self, store: &mut S) -> Result<(), Failed>
        requires ready { is_ready self.old ≡ true }
        requires some { 0 < length (staged self.old) }
        requires staged { ForSome (S.meaning store.old).disk (IsStaged (batch_of self.old)) }
        ensures slot { slot_of self.new ≡ slot_of self.old }
        ensures ready { OnOk result (is_ready self.new ≡ true) }
        ensures not_ready { OnErr result (is_ready self.new ≡ false) }
        ensures staged { OnOk result (staged self.new ≡ []) }
        ensures commits { Commits (batch_of self.old) (S.meaning store.old) (S.meaning store.new) result }
        ensures others { KeepsNames (IsOther (batch_of self.old)) (S.meaning store.old) (S.meaning store.new) }
        ensures cause { HasCause (S.faults store.old) (S.faults store.new) result }
    {
        self.ready = false;
        install(store, &self.intent)?;
        self.intent = Intent::new(self.intent.slot);
        self.ready = true;
        Ok(())
    }

    /// Completes the batch whose intent stands in the slot, if each of its entries is sound, or says what is wrong.
    pub fn recover<S: Store>(&mut self, store: &mut S) -> Result<SlotEnd, Failed>
        ensures slot { slot_of self.new ≡ slot_of self.old }
        ensures ready { IfOk result (λ end. is_ready self.new ≡ is_clear end) }
        ensures not_ready { OnErr result (is_ready self.new ≡ false) }
        ensures staged { IfOk result (λ end. is_clear end ≡ true → staged self.new ≡ []) }
        ensures end { IfOk result (λ end. ForSome (S.meaning store.old).names (λ m. end ≡ slot_end (slot_of self.old) m)) }

        // What each end found, and what it leaves.
        ensures recovers { IfOk result (λ end. ForSome (S.meaning store.old).disk (λ d. IsSettledAt (S.meaning store.new).disk (Recovers (slot_of self.old) end (names_now d)))) }
        ensures done { Ends (S.meaning store.old) (S.meaning store.new) result (λ m x. x ≡ after (slot_of self.old) m) }

        // Wherever it stops, recovery goes on to the same names.
        ensures images { Leaves (S.meaning store.old) (S.meaning store.new) (λ m x. after (slot_of self.old) x ≡ after (slot_of self.old) m) }
        ensures others { ForSome (S.meaning store.old).names (λ m. KeepsNames (IsNoneOf (slot_of self.old) m) (S.meaning store.old) (S.meaning store.new)) }
        ensures cause { HasCause (S.faults store.old) (S.faults store.new) result }
    {
        self.ready = false;
        let end = recover(store, self.intent.slot, &mut self.buf)?;
        if is_clear(&end) {
            self.intent = Intent::new(self.intent.slot);
            self.ready = true;
        }
        Ok(end)
    }
}

fn is_clear(end: &SlotEnd) -> bool
    ensures { result ≡ is_clear end.now }
{
    match end {
        SlotEnd::Nothing | SlotEnd::Completed { .. } => true,
        SlotEnd::Foreign { .. } | SlotEnd::BadIntent { .. } => false,
    }
}
