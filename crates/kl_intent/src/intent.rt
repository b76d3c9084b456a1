// An intent in memory.
ghost use Rattle.std.specs.Prelude.{◌≡◌, ◌<◌, ◌≤◌, ◌++◌, ◌∷◌, ◌+◌, [], length};
ghost use Rattle.kl_intent.specs.IntentText.{entries_of, slot_name};

use kl_base::{ENTRY_LIMIT, Name, Slot};

/// A file that is replaced: its target, the SHA-256 digest of what the target held, if it was there,
/// and the digest of what it is to hold.
#[derive(Clone, Copy, Debug, PartialEq)]
pub struct Entry {
    pub target: Name,
    pub old: Option<[u8; 32]>,
    pub new: [u8; 32],
}

/// The files of one batch, of which the first `count` of `entries` are meant, from 1 to 8.
#[derive(Clone, Copy, Debug)]
pub struct Intent {
    pub slot: Slot,
    pub count: u8,
    pub entries: [Entry; ENTRY_LIMIT],
}

/// The name of the file in which the intents of the slot's job stand.
pub fn slot_name(slot: Slot) -> Name
    ensures { result ≡ slot_name slot }
{
    match slot {
        Slot::Kernel => Name::from_bytes(b"/var/db/relink.kernel.intent").unwrap(),
        Slot::Libs => Name::from_bytes(b"/var/db/relink.libs.intent").unwrap(),
    }
}

impl Intent {
    /// The intent of the slot with no entry.
    pub fn new(slot: Slot) -> Intent
        ensures slot { result.slot ≡ slot }
        ensures count { result.count ≡ 0 }
    {
        let blank = Entry {
            target: slot_name(slot),
            old: None,
            new: [0; 32],
        };
        Intent {
            slot,
            count: 0,
            entries: [blank; ENTRY_LIMIT],
        }
    }

    /// Adds an entry behind the others.
    pub fn push(&mut self, entry: Entry)
        requires { self.old.count < ENTRY_LIMIT }
        ensures slot { self.new.slot ≡ self.old.slot }
        ensures count { self.new.count ≡ self.old.count + 1 }
        ensures entries { entries_of self.new ≡ entries_of self.old ++ entry ∷ [] }
    {
        self.entries[self.count as usize] = entry;
        self.count += 1;
    }

    /// The entries that are meant.
    pub fn entries(&self) -> &[Entry]
        requires { self.now.count ≤ ENTRY_LIMIT }
        ensures { result.now ≡ entries_of self.now }
    {
        &self.entries[..self.count as usize]
    }
}
