// A batch that was stopped, and the slot in which its intent stands.
ghost use Rattle.kl_store.specs.Calls.{Stays};

use kl_base::{INTENT_LIMIT, NoMemory, SCRATCH_SUFFIX, Slot};
use kl_explain::Shown;
use kl_intent::{Entry, read_intent, slot_name};
use kl_jobs::Cause;
use kl_store::{Store, read_whole};
use std::alloc::Global;
use std::fmt::Write;

/// An entry that isn't sound, with the digests of what its target and its temporary hold, None where they are absent.
#[derive(Clone, Copy)]
pub struct Unsound {
    pub slot: Slot,
    /// Its number in the slot's intent, counted from 0.
    pub number: u32,
    pub target: Option<[u8; 32]>,
    pub temp: Option<[u8; 32]>,
}

/// The entry of a slot's intent that a cause speaks of, where it can be read again.
pub fn read_entry<S: Store>(alloc: Global, cause: &Cause, store: &mut S) -> Option<Entry>
    ensures still { Stays (S.meaning store.old) (S.meaning store.new) }
{
    let Cause::Foreign { slot, entry, .. } = cause else {
        return None;
    };
    let name = slot_name(*slot);
    let Ok(bytes) = read_whole(alloc, store, &name, INTENT_LIMIT as u64) else {
        return None;
    };
    entry_in(&bytes, *entry)
}

/// An entry of the intent that stands in bytes.
fn entry_in(bytes: &[u8], number: u32) -> Option<Entry> {
    let Ok(intent) = read_intent(bytes) else {
        return None;
    };
    intent.entries().get(number as usize).copied()
}

/// Tells that a job was stopped, and what takes it up again.
pub fn tell_pending(text: &mut String, slot: Slot) -> Result<(), NoMemory> {
    let name = slot_name(slot);
    let file = Shown(name.bytes());
    write!(
        text,
        "{file}: a job was stopped before its files were in place: run 'relink recover'"
    )?;
    Ok(())
}

/// Tells which file of a batch stops its recovery, by its entry of the intent where that could be read again, and what helps.
pub fn tell_foreign(
    text: &mut String,
    unsound: &Unsound,
    entry: Option<&Entry>,
) -> Result<(), NoMemory> {
    let name = slot_name(unsound.slot);
    let (file, number) = (Shown(name.bytes()), unsound.number);
    match entry {
        Some(entry) => tell_unsound(text, unsound, entry)?,
        None => write!(
            text,
            "{file}: the file of entry {number} is neither the old one nor the new one, or its temporary isn't the new one"
        )?,
    }
    write!(
        text,
        "\nrelink: nothing of that batch was changed: if its files are meant to stay as they are, remove {file} to give the batch up; else put that file right and run 'relink recover'"
    )?;
    Ok(())
}

/// Tells what is wrong with the target of an entry or else with its temporary.
fn tell_unsound(text: &mut String, unsound: &Unsound, entry: &Entry) -> Result<(), NoMemory> {
    let name = slot_name(unsound.slot);
    let (file, target) = (Shown(name.bytes()), Shown(entry.target.bytes()));
    let suffix = Shown(&SCRATCH_SUFFIX);
    let is_known = unsound.target == entry.old || unsound.target == Some(entry.new);
    match (is_known, unsound.target, unsound.temp) {
        (false, None, _) => write!(
            text,
            "{target}: no such file, and {file} names an old one and a new one"
        )?,
        (false, Some(_), _) => write!(
            text,
            "{target}: it is neither the old file nor the new one that {file} names"
        )?,
        (true, _, None) => write!(
            text,
            "{target}{suffix}: no such file, and {target} is still as it was"
        )?,
        (true, _, Some(_)) => write!(
            text,
            "{target}{suffix}: it isn't the new file that {file} names"
        )?,
    }
    Ok(())
}

/// Tells that what stands in a slot is no intent, by the line that is none of one, and what helps.
pub fn tell_intent(text: &mut String, slot: Slot, line: u32) -> Result<(), NoMemory> {
    let name = slot_name(slot);
    let file = Shown(name.bytes());
    match line {
        0 => write!(
            text,
            "{file}: it is no intent: it has more than {INTENT_LIMIT} bytes"
        )?,
        _ => write!(
            text,
            "{file}: it is no intent of this slot: line {line} is wrong, or missing"
        )?,
    }
    write!(
        text,
        "\nrelink: nothing of its batch was changed: if nothing of that batch is wanted, remove {file}"
    )?;
    Ok(())
}
