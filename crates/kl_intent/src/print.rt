// The text of an intent.
ghost use Rattle.std.specs.Prelude.{◌≡◌, ◌≤◌, ◌+◌, ◌++◌, ◌*◌, length, take, codes};
ghost use Rattle.std.specs.List.{flat_map, AllByRecursion};
ghost use Rattle.hex.specs.Hex.{encode_lower};
ghost use Rattle.kl_intent.specs.IntentText.{slot_word, old_word, entry_line, intent_text, entries_of, IsEntry, AreEntries};
ghost use Rattle.kl_text.specs.Lines.{line};
ghost use Rattle.kl_base.specs.declared.limits.TheConstants.{ENTRY_LIMIT};

use crate::intent::{Entry, Intent};
use kl_base::{INTENT_LIMIT, Slot};

/// Prints the intent's text into `out`, from its start on, and says how many bytes it has. The other bytes
/// of `out` may change.
pub fn print_intent(intent: &Intent, out: &mut [u8; INTENT_LIMIT]) -> usize
    requires few { intent.now.count ≤ ENTRY_LIMIT }
    requires entries { AreEntries (entries_of intent.now) }
    ensures within { result ≤ INTENT_LIMIT }
    ensures text { take result out.new ≡ intent_text intent.now.slot (entries_of intent.now) }
{
    let at = print_head(intent.slot, out);
    let at = print_entries(intent.entries(), out, at);
    put(out, at, b"end\n")
}

fn print_head(slot: Slot, out: &mut [u8; INTENT_LIMIT]) -> usize
    ensures within { result ≤ 29 }
    ensures text { take result out.new ≡ line (codes "relink intent 1") ++ line (codes "batch " ++ slot_word slot) }
{
    let at = put(out, 0, b"relink intent 1\n");
    put(out, at, slot_line(slot))
}

fn slot_line(slot: Slot) -> &'static [u8]
    ensures size { length result.now ≤ 13 }
    ensures line { result.now ≡ line (codes "batch " ++ slot_word slot) }
{
    match slot {
        Slot::Kernel => b"batch kernel\n",
        Slot::Libs => b"batch libs\n",
    }
}

fn print_entries(entries: &[Entry], out: &mut [u8; INTENT_LIMIT], at: usize) -> usize
    requires few { length entries.now ≤ ENTRY_LIMIT }
    requires each { AllByRecursion IsEntry entries.now }
    requires start { at ≤ 29 }
    ensures within { result ≤ at + 385 * length entries.now }
    ensures text { take result out.new ≡ take at out.old ++ flat_map entry_line entries.now }
{
    let mut end = at;
    for entry in entries {
        end = print_entry(entry, out, end);
    }
    end
}

fn print_entry(entry: &Entry, out: &mut [u8; INTENT_LIMIT], at: usize) -> usize
    requires entry { IsEntry entry.now }
    requires room { at + 385 ≤ INTENT_LIMIT }
    ensures within { result ≤ at + 385 }
    ensures text { take result out.new ≡ take at out.old ++ entry_line entry.now }
{
    let at = put(out, at, b"entry ");
    let at = put(out, at, entry.target.bytes());
    let at = put(out, at, b" ");
    let at = print_old(&entry.old, out, at);
    let at = put(out, at, b" ");
    let at = print_digest(&entry.new, out, at);
    put(out, at, b"\n")
}

fn print_old(old: &Option<[u8; 32]>, out: &mut [u8; INTENT_LIMIT], at: usize) -> usize
    requires { at + 64 ≤ INTENT_LIMIT }
    ensures within { result ≤ at + 64 }
    ensures text { take result out.new ≡ take at out.old ++ old_word old.now }
{
    match old {
        Some(digest) => print_digest(digest, out, at),
        None => put(out, at, b"-"),
    }
}

fn print_digest(digest: &[u8; 32], out: &mut [u8; INTENT_LIMIT], at: usize) -> usize
    requires { at + 64 ≤ INTENT_LIMIT }
    ensures within { result ≡ at + 64 }
    ensures text { take result out.new ≡ take at out.old ++ encode_lower digest.now }
{
    let mut digits = [0; 64];
    hex::encode_to_slice(digest, &mut digits).unwrap();
    put(out, at, &digits)
}

// Puts the bytes from that place on, and gives the place behind them.
fn put(out: &mut [u8; INTENT_LIMIT], at: usize, bytes: &[u8]) -> usize
    requires { at + length bytes.now ≤ INTENT_LIMIT }
    ensures end { result ≡ at + length bytes.now }
    ensures text { take result out.new ≡ take at out.old ++ bytes.now }
{
    let end = at + bytes.len();
    out[at..end].copy_from_slice(bytes);
    end
}
