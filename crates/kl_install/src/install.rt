// The batch's files take their places.
ghost use Rattle.std.specs.Prelude.{◌≡◌, ◌≢◌, ◌≤◌, ◌+◌, ◌++◌, length, take};
ghost use Rattle.std.specs.List.{AllByRecursion};
ghost use Rattle.std.specs.Option.{ForSome};
ghost use Rattle.std.specs.FinMap.{remove};
ghost use Rattle.kl_store.specs.Disk.{with_file, without, IsNear};
ghost use Rattle.kl_store.specs.Images.{Leaves, LeavesOfDisk, Becomes, Ends};
ghost use Rattle.kl_store.specs.Calls.{DoesIf, HasCause};
ghost use Rattle.kl_store.specs.Names.{Rename};
ghost use Rattle.kl_intent.specs.IntentText.{AreEntries, IsEntry, entries_of, intent_text, slot_name};
ghost use Rattle.kl_install.specs.After.{temp_name, temp_of};
ghost use Rattle.kl_install.specs.Batch.{batch, AreApart, IsAway, IsStaged};
ghost use Rattle.kl_install.specs.Committed.{Commits};
ghost use Rattle.kl_store.specs.Files.{KeepsNames};
ghost use Rattle.kl_install.specs.Others.{IsOther};
ghost use Rattle.kl_install.specs.Moving.{IsMoving, AreMoved, HasIntent, MayIntend, CanMove, CanRemove};
ghost use Rattle.kl_base.specs.declared.limits.TheConstants.{ENTRY_LIMIT};

use crate::suffix::with_suffix;
use kl_base::{INTENT_LIMIT, Name, SCRATCH_SUFFIX, Slot, TARGET_LIMIT};
use kl_intent::{Entry, Intent, print_intent, slot_name};
use kl_store::{Failed, Store, write_whole};

// Puts each staged file in its target's place.
pub fn install<S: Store>(store: &mut S, intent: &Intent) -> Result<(), Failed>
    requires few { intent.now.count ≤ ENTRY_LIMIT }
    requires entries { AreEntries (entries_of intent.now) }
    requires staged { ForSome (S.meaning store.old).disk (IsStaged (batch intent.now.slot (entries_of intent.now))) }
    ensures commits { Commits (batch intent.now.slot (entries_of intent.now)) (S.meaning store.old) (S.meaning store.new) result }
    ensures others { KeepsNames (IsOther (batch intent.now.slot (entries_of intent.now))) (S.meaning store.old) (S.meaning store.new) }
    ensures cause { HasCause (S.faults store.old) (S.faults store.new) result }
{
    intend(store, intent)?;
    move_batch(store, intent)?;
    forget(store, intent.slot)
}

// The slot has the intent of the batch, on the disk.
fn intend<S: Store>(store: &mut S, intent: &Intent) -> Result<(), Failed>
    requires few { intent.now.count ≤ ENTRY_LIMIT }
    requires entries { AreEntries (entries_of intent.now) }
    ensures done { Ends (S.meaning store.old) (S.meaning store.new) result (HasIntent (slot_name intent.now.slot) (temp_name (slot_name intent.now.slot)) (intent_text intent.now.slot (entries_of intent.now))) }
    ensures images { LeavesOfDisk (S.meaning store.old) (S.meaning store.new) (MayIntend (slot_name intent.now.slot) (temp_name (slot_name intent.now.slot)) (intent_text intent.now.slot (entries_of intent.now))) }
    ensures others { KeepsNames (λ n. (n ≢ slot_name intent.now.slot) × (n ≢ temp_name (slot_name intent.now.slot))) (S.meaning store.old) (S.meaning store.new) }
    ensures cause { HasCause (S.faults store.old) (S.faults store.new) result }
{
    let slot = slot_name(intent.slot);
    let mut text = [0; INTENT_LIMIT];
    let count = print_intent(intent, &mut text);
    write_intent(store, &slot, &temp_name(&slot), &text[..count])
}

// Each file of the batch has its place, on the disk.
fn move_batch<S: Store>(store: &mut S, intent: &Intent) -> Result<(), Failed>
    requires few { intent.now.count ≤ ENTRY_LIMIT }
    requires each { AllByRecursion IsEntry (entries_of intent.now) }
    requires apart { AreApart (entries_of intent.now) }
    requires wait { ForSome (S.meaning store.old).disk (CanMove (entries_of intent.now)) }
    ensures done { Ends (S.meaning store.old) (S.meaning store.new) result (AreMoved (entries_of intent.now)) }
    ensures images { Leaves (S.meaning store.old) (S.meaning store.new) (IsMoving (entries_of intent.now)) }
    ensures others { KeepsNames (λ n. IsAway n (entries_of intent.now)) (S.meaning store.old) (S.meaning store.new) }
    ensures cause { HasCause (S.faults store.old) (S.faults store.new) result }
{
    move_all(store, intent.entries())
}

// The slot is free, on the disk.
pub fn forget<S: Store>(store: &mut S, slot: Slot) -> Result<(), Failed>
    requires { ForSome (S.meaning store.old).disk (CanRemove (slot_name slot)) }
    ensures done { Becomes (S.meaning store.old) (S.meaning store.new) result (without (slot_name slot)) }
    ensures images { Leaves (S.meaning store.old) (S.meaning store.new) (λ m x. x ≡ remove m (slot_name slot)) }
    ensures others { KeepsNames (λ n. n ≢ slot_name slot) (S.meaning store.old) (S.meaning store.new) }
    ensures cause { HasCause (S.faults store.old) (S.faults store.new) result }
{
    remove_stable(store, &slot_name(slot))
}

// The name under which a file waits to take the place of the one of this name.
pub fn temp_name(name: &Name) -> Name
    requires { length name.now ≤ TARGET_LIMIT }
    ensures { result ≡ temp_name name.now }
{
    with_suffix(name, &SCRATCH_SUFFIX)
}

// The slot has the intent, on the disk.
fn write_intent<S: Store>(
    store: &mut S,
    slot: &Name,
    temp: &Name,
    text: &[u8],
) -> Result<(), Failed>
    requires { slot.now ≢ temp.now }
    ensures done { Ends (S.meaning store.old) (S.meaning store.new) result (HasIntent slot.now temp.now text.now) }
    ensures images { LeavesOfDisk (S.meaning store.old) (S.meaning store.new) (MayIntend slot.now temp.now text.now) }
    ensures others { KeepsNames (λ n. (n ≢ slot.now) × (n ≢ temp.now)) (S.meaning store.old) (S.meaning store.new) }
    ensures cause { HasCause (S.faults store.old) (S.faults store.new) result }
{
    write_whole(store, temp, text)?;
    store.settle()?;
    store.rename(temp, slot)?;
    store.settle()
}

// Each file has its place, on the disk.
fn move_all<S: Store>(store: &mut S, entries: &[Entry]) -> Result<(), Failed>
    requires each { AllByRecursion IsEntry entries.now }
    requires apart { AreApart entries.now }
    requires wait { ForSome (S.meaning store.old).disk (CanMove entries.now) }
    ensures done { Ends (S.meaning store.old) (S.meaning store.new) result (AreMoved entries.now) }
    ensures images { Leaves (S.meaning store.old) (S.meaning store.new) (IsMoving entries.now) }
    ensures others { KeepsNames (λ n. IsAway n entries.now) (S.meaning store.old) (S.meaning store.new) }
    ensures cause { HasCause (S.faults store.old) (S.faults store.new) result }
{
    for entry in entries {
        take_place(store, entry)?;
    }
    store.settle()
}

// The entry's file takes its place, if it waits.
pub fn take_place<S: Store>(store: &mut S, entry: &Entry) -> Result<bool, Failed>
    requires { IsEntry entry.now }
    ensures does { DoesIf (Rename (temp_of entry.now) entry.now.target) (S.meaning store.old) (S.meaning store.new) result }
    ensures cause { HasCause (S.faults store.old) (S.faults store.new) result }
{
    store.rename(&temp_name(&entry.target), &entry.target)
}

// The name is gone, on the disk.
fn remove_stable<S: Store>(store: &mut S, name: &Name) -> Result<(), Failed>
    requires { ForSome (S.meaning store.old).disk (CanRemove name.now) }
    ensures done { Becomes (S.meaning store.old) (S.meaning store.new) result (without name.now) }
    ensures images { Leaves (S.meaning store.old) (S.meaning store.new) (λ m x. x ≡ remove m name.now) }
    ensures others { KeepsNames (λ n. n ≢ name.now) (S.meaning store.old) (S.meaning store.new) }
    ensures cause { HasCause (S.faults store.old) (S.faults store.new) result }
{
    store.remove(name)?;
    store.settle()
}
