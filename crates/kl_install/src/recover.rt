// Recovery of a batch that was stopped.
ghost use Rattle.std.specs.Prelude.{◌≡◌, ◌≢◌, ◌≤◌, ◌<◌, ℕ, List, [], length, Some, None, Option, IfOk, OnOk};
ghost use Rattle.std.specs.Option.{ForSome};
ghost use Rattle.std.specs.List.{AllByRecursion};
ghost use Rattle.std.specs.FinMap.{get};
ghost use Rattle.kl_store.specs.Disk.{AreMoves, names_now};
ghost use Rattle.kl_store.specs.Images.{Leaves, Ends};
ghost use Rattle.kl_store.specs.Calls.{HasCause, Holds, Stays};
ghost use Rattle.kl_intent.specs.IntentText.{IsEntry, AreEntries, entries_of, slot_name};
ghost use Rattle.kl_install.specs.After.{after, all_moved, same_slot};
ghost use Rattle.kl_install.specs.Batch.{AreApart, IsAway};
ghost use Rattle.kl_store.specs.Files.{KeepsNames};
ghost use Rattle.kl_install.specs.Others.{IsNoneOf};
ghost use Rattle.kl_install.specs.Recovery.{slot_end, entries_end, checked_end, is_clear, IsPartMoved};
ghost use Rattle.kl_install.specs.Finding.{IsFound, FoundFits, HasIntentOf};
ghost use Rattle.kl_base.specs.declared.limits.TheConstants.{ENTRY_LIMIT};

use crate::install::{forget, take_place};
use crate::sound::first_unsound;
use kl_base::{INTENT_LIMIT, Name, Slot};
use kl_intent::{Entry, Intent, read_intent, slot_name};
use kl_store::{Failed, Store};

/// How the recovery of a slot ended.
#[derive(Clone, Copy, Debug, PartialEq)]
pub enum SlotEnd {
    /// There was no intent.
    Nothing,
    /// The batch of so many files is done.
    Completed {
        files: u32,
    },
    /// The entry of that number, counted from 0, isn't sound. The digests are those of what the target and
    /// its temporary hold, None where they are absent. Nothing was changed.
    Foreign {
        entry: u32,
        target: Option<[u8; 32]>,
        temp: Option<[u8; 32]>,
    },
    /// That line of the slot's file is outside the grammar of intents. Nothing was changed.
    BadIntent {
        line: u32,
    },
}

/// An entry that isn't sound, with the digests of what its target and its temporary hold.
#[derive(Clone, Copy, Debug, PartialEq)]
pub struct Unsound {
    pub entry: u32,
    pub target: Option<[u8; 32]>,
    pub temp: Option<[u8; 32]>,
}

// What a slot's file is found to hold.
#[derive(Clone, Copy, Debug)]
pub enum Found {
    Nothing,
    Bad(u32),
    Batch(Intent),
}

// Recovers the slot.
pub fn recover<S: Store>(store: &mut S, slot: Slot, buf: &mut [u8]) -> Result<SlotEnd, Failed>
    requires { 0 < length buf.old }
    ensures end { IfOk result (λ end. ForSome (S.meaning store.old).names (λ m. end ≡ slot_end slot m)) }
    ensures done { Ends (S.meaning store.old) (S.meaning store.new) result (λ m x. x ≡ after slot m) }
    ensures images { Leaves (S.meaning store.old) (S.meaning store.new) (λ m x. after slot x ≡ after slot m) }
    ensures others { ForSome (S.meaning store.old).names (λ m. KeepsNames (IsNoneOf slot m) (S.meaning store.old) (S.meaning store.new)) }
    ensures cause { HasCause (S.faults store.old) (S.faults store.new) result }
{
    store.settle()?;
    match find(store, slot)? {
        Found::Nothing => Ok(SlotEnd::Nothing),
        Found::Bad(line) => Ok(SlotEnd::BadIntent { line }),
        Found::Batch(intent) => finish_batch(store, slot, &intent, buf),
    }
}

// What the slot's file holds.
fn find<S: Store>(store: &mut S, slot: Slot) -> Result<Found, Failed>
    ensures found { IfOk result (λ f. Holds (S.meaning store.old) (slot_name slot) (IsFound slot f)) }
    ensures fits { IfOk result FoundFits }
    ensures still { Stays (S.meaning store.old) (S.meaning store.new) }
    ensures cause { HasCause (S.faults store.old) (S.faults store.new) result }
{
    let name = slot_name(slot);
    let Some(size) = store.size(&name)? else {
        return Ok(Found::Nothing);
    };
    if size > INTENT_LIMIT as u64 {
        return Ok(Found::Bad(0));
    }
    let mut text = [0; INTENT_LIMIT];
    let count = store.read(&name, 0, &mut text)?;
    Ok(read_slot(slot, &text[..count]))
}

// What the text of a slot's file is.
fn read_slot(slot: Slot, text: &[u8]) -> Found
    ensures found { IsFound slot result (Some text.now) }
    ensures fits { FoundFits result }
{
    match read_intent(text) {
        Ok(intent) if is_same(intent.slot, slot) => Found::Batch(intent),
        Ok(_) => Found::Bad(2),
        Err(fault) => Found::Bad(fault.line),
    }
}

fn is_same(one: Slot, other: Slot) -> bool
    ensures { result ≡ same_slot one other }
{
    one == other
}

// Completes the batch of the intent that stands in the slot, if each of its entries is sound.
fn finish_batch<S: Store>(
    store: &mut S,
    slot: Slot,
    intent: &Intent,
    buf: &mut [u8],
) -> Result<SlotEnd, Failed>
    requires few { intent.now.count ≤ ENTRY_LIMIT }
    requires entries { AreEntries (entries_of intent.now) }
    requires room { 0 < length buf.old }
    requires stands { ForSome (S.meaning store.old).disk (HasIntentOf slot (entries_of intent.now)) }
    ensures end { IfOk result (λ end. ForSome (S.meaning store.old).disk (λ d. end ≡ entries_end (names_now d) (entries_of intent.now))) }
    ensures done { Ends (S.meaning store.old) (S.meaning store.new) result (λ m x. x ≡ after slot m) }
    ensures images { Leaves (S.meaning store.old) (S.meaning store.new) (λ m x. after slot x ≡ after slot m) }
    ensures others { KeepsNames (λ n. (n ≢ slot_name slot) × IsAway n (entries_of intent.now)) (S.meaning store.old) (S.meaning store.new) }
    ensures cause { HasCause (S.faults store.old) (S.faults store.new) result }
{
    finish(store, slot, intent.entries(), buf)
}

fn finish<S: Store>(
    store: &mut S,
    slot: Slot,
    entries: &[Entry],
    buf: &mut [u8],
) -> Result<SlotEnd, Failed>
    requires entries { AreEntries entries.now }
    requires room { 0 < length buf.old }
    requires stands { ForSome (S.meaning store.old).disk (HasIntentOf slot entries.now) }
    ensures end { IfOk result (λ end. ForSome (S.meaning store.old).disk (λ d. end ≡ entries_end (names_now d) entries.now)) }
    ensures done { Ends (S.meaning store.old) (S.meaning store.new) result (λ m x. x ≡ after slot m) }
    ensures images { Leaves (S.meaning store.old) (S.meaning store.new) (λ m x. after slot x ≡ after slot m) }
    ensures others { KeepsNames (λ n. (n ≢ slot_name slot) × IsAway n entries.now) (S.meaning store.old) (S.meaning store.new) }
    ensures cause { HasCause (S.faults store.old) (S.faults store.new) result }
{
    if let Some(unsound) = first_unsound(store, entries, buf)? {
        return Ok(SlotEnd::Foreign {
            entry: unsound.entry,
            target: unsound.target,
            temp: unsound.temp,
        });
    }
    move_again(store, entries)?;
    forget(store, slot)?;
    Ok(SlotEnd::Completed {
        files: entries.len() as u32,
    })
}

// Each file that waits takes its place, on the disk.
fn move_again<S: Store>(store: &mut S, entries: &[Entry]) -> Result<(), Failed>
    requires each { AllByRecursion IsEntry entries.now }
    requires moves { ForSome (S.meaning store.old).disk (λ d. AreMoves d.changes) }
    ensures done { Ends (S.meaning store.old) (S.meaning store.new) result (λ m x. x ≡ all_moved entries.now m) }
    ensures images { Leaves (S.meaning store.old) (S.meaning store.new) (IsPartMoved entries.now) }
    ensures others { KeepsNames (λ n. IsAway n entries.now) (S.meaning store.old) (S.meaning store.new) }
    ensures cause { HasCause (S.faults store.old) (S.faults store.new) result }
{
    for entry in entries {
        take_place(store, entry)?;
    }
    store.settle()
}
