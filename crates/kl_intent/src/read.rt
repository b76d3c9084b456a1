// The reader of intents.
ghost use Rattle.std.specs.Prelude.{◌≡◌, ◌≢◌, ◌≤◌, ◌<◌, ◌+◌, ℕ, List, [], length, Ok, IfOk, IfErr, OnErr, OnOk, Some, None, codes, ◌++◌, ◌∷◌};
ghost use Rattle.kl_base.specs.declared.class.Slot.{Slot};
ghost use Rattle.kl_intent.specs.declared.intent.Entry.{Entry};
ghost use Rattle.kl_intent.specs.IntentText.{intent_read, intent_text, AreEntries, read_slot, read_libs, entries_of, entries_from, entry_of, entry_of_words, fresh_entry, is_target, is_target_name, is_new, is_other, is_last, end_of, target_of};
ghost use Rattle.kl_text.specs.Lines.{line, after_prefix};
ghost use Rattle.kl_intent.specs.Reading.{Reads, ReadsEntries};
ghost use Rattle.kl_intent.specs.Outside.{IsFirstOutside};

use crate::digests::{digest_of, old_of};
use crate::intent::{Entry, Intent};
use kl_base::{ENTRY_LIMIT, INTENT_LIMIT, Name, SCRATCH_SUFFIX, Slot, TARGET_LIMIT};
use kl_text::{first_line, split};

/// The first line of a text that is outside the grammar of intents, counted from 1, or 0 where the text
/// has more than 4,096 bytes.
#[derive(Clone, Copy, Debug, PartialEq, Eq)]
pub struct IntentFault {
    pub line: u32,
}

/// The intent of a text, or the first line that is outside the grammar: two lines that name the slot, from 1
/// to 8 entries with distinct targets, and the line `end`, which nothing follows.
pub fn read_intent(bytes: &[u8]) -> Result<Intent, IntentFault>
    ensures few { IfOk result (λ i. i.count ≤ ENTRY_LIMIT) }
    ensures entries { IfOk result (λ i. AreEntries (entries_of i)) }
    ensures text { IfOk result (λ i. bytes.now ≡ intent_text i.slot (entries_of i)) }

    // No other text is refused, and none is read in two ways.
    ensures refused { OnErr result ((slot : Slot) (es : List Entry) → AreEntries es → bytes.now ≢ intent_text slot es) }
    ensures read { Reads result (intent_read bytes.now) }

    // A refused text has a first line outside the grammar, and no line is told of one that is too long.
    ensures long { IfErr result (λ f. INTENT_LIMIT < length bytes.now → f.line ≡ 0) }
    ensures outside { IfErr result (λ f. length bytes.now ≤ INTENT_LIMIT → IsFirstOutside bytes.now f.line) }

    // What was printed is given back.
    ensures slot { IfOk result (λ i. (slot : Slot) (es : List Entry) → AreEntries es → bytes.now ≡ intent_text slot es → i.slot ≡ slot) }
    ensures back { IfOk result (λ i. (slot : Slot) (es : List Entry) → AreEntries es → bytes.now ≡ intent_text slot es → entries_of i ≡ es) }
{
    parse(bytes)
}

#[tactic(auto, unfolding(crate::specs::IntentText::intent_read))]
fn parse(bytes: &[u8]) -> Result<Intent, IntentFault>
    ensures { Reads result (intent_read bytes.now) }
{
    if bytes.len() > INTENT_LIMIT {
        return Err(IntentFault { line: 0 });
    }
    match bytes.strip_prefix(b"relink intent 1\n") {
        Some(rest) => read_slot(rest),
        None => Err(IntentFault { line: 1 }),
    }
}

// The lines behind the first one.
fn read_slot(text: &[u8]) -> Result<Intent, IntentFault>
    ensures { Reads result (read_slot text.now (after_prefix (line (codes "batch kernel")) text.now)) }
{
    match text.strip_prefix(b"batch kernel\n") {
        Some(rest) => read_entries(Slot::Kernel, rest),
        None => read_libs(text),
    }
}

fn read_libs(text: &[u8]) -> Result<Intent, IntentFault>
    ensures { Reads result (read_libs (after_prefix (line (codes "batch libs")) text.now)) }
{
    match text.strip_prefix(b"batch libs\n") {
        Some(rest) => read_entries(Slot::Libs, rest),
        None => Err(IntentFault { line: 2 }),
    }
}

// The lines behind the first two.
fn read_entries(slot: Slot, text: &[u8]) -> Result<Intent, IntentFault>
    ensures { ReadsEntries slot result (entries_from ENTRY_LIMIT [] text.now) }
{
    let mut intent = Intent::new(slot);
    let mut rest = text;
    while let Some((line, more)) = first_line(rest) {
        if is_last(intent.entries(), line) {
            return ended(intent, more);
        }
        let Some(entry) = fresh_entry(intent.entries(), line) else {
            break;
        };
        intent.push(entry);
        rest = more;
    }
    Err(IntentFault {
        line: intent.count as u32 + 3,
    })
}

// Whether the line is the last one, which one entry at least stands before.
fn is_last(entries: &[Entry], line: &[u8]) -> bool
    ensures { result ≡ is_last entries.now line.now }
{
    !entries.is_empty() && line == b"end".as_slice()
}

// The intent, behind whose last line this stands.
fn ended(intent: Intent, rest: &[u8]) -> Result<Intent, IntentFault>
    requires few { intent.count ≤ ENTRY_LIMIT }
    requires size { length (entries_of intent) ≡ intent.count }
    ensures { ReadsEntries intent.slot result (end_of (entries_of intent) rest.now) }
{
    if rest.is_empty() {
        return Ok(intent);
    }
    Err(IntentFault {
        line: intent.count as u32 + 4,
    })
}

// The line's entry, where its target is another than those before it, and there is room.
fn fresh_entry(entries: &[Entry], line: &[u8]) -> Option<Entry>
    ensures { result ≡ fresh_entry entries.now line.now }
{
    if entries.len() >= ENTRY_LIMIT {
        return None;
    }
    match entry_of(line) {
        Some(entry) if is_new(&entry.target, entries) => Some(entry),
        _ => None,
    }
}

// Whether no entry has the target.
fn is_new(target: &Name, entries: &[Entry]) -> bool
    ensures { result ≡ is_new target.now entries.now }
{
    entries.iter().all(|entry| is_other(target, entry))
}

fn is_other(target: &Name, entry: &Entry) -> bool
    ensures { result ≡ is_other target.now entry.now }
{
    entry.target != *target
}

// The entry of a line.
#[tactic(auto, unfolding(crate::specs::IntentText::entry_of))]
fn entry_of(line: &[u8]) -> Option<Entry>
    ensures { result ≡ entry_of line.now }
{
    let rest = line.strip_prefix(b"entry ")?;
    let (target, rest) = split(rest, b' ')?;
    let (old, new) = split(rest, b' ')?;
    entry_of_words(target, old, new)
}

#[tactic(auto, unfolding(crate::specs::IntentText::entry_of_words))]
fn entry_of_words(target: &[u8], old: &[u8], new: &[u8]) -> Option<Entry>
    ensures { result ≡ entry_of_words target.now old.now new.now }
{
    let target = target_of(target)?;
    let old = old_of(old)?;
    let new = digest_of(new)?;
    Some(Entry { target, old, new })
}

// The bytes as the name of a target.
fn target_of(bytes: &[u8]) -> Option<Name>
    ensures { result ≡ target_of bytes.now }
{
    let Ok(name) = Name::from_bytes(bytes) else {
        return None;
    };
    if is_target_name(bytes) {
        Some(name)
    } else {
        None
    }
}

fn is_target_name(bytes: &[u8]) -> bool
    ensures { result ≡ is_target_name bytes.now }
{
    bytes.len() <= TARGET_LIMIT
        && !bytes.ends_with(&SCRATCH_SUFFIX)
        && bytes != b"/var/db/relink.kernel.intent".as_slice()
        && bytes != b"/var/db/relink.libs.intent".as_slice()
}
