// Which entries of an intent are sound.
ghost use Rattle.std.specs.Prelude.{◌≡◌, ◌≤◌, ◌<◌, length, IfOk, Option, List, ℕ};
ghost use Rattle.std.specs.Option.{ForSome};
ghost use Rattle.std.specs.List.{AllByRecursion};
ghost use Rattle.kl_store.specs.Calls.{HasCause, Stays};
ghost use Rattle.kl_intent.specs.IntentText.{IsEntry};
ghost use Rattle.kl_install.specs.After.{same_digest, is_sound_of};
ghost use Rattle.kl_install.specs.Recovery.{first_unsound};
ghost use Rattle.kl_base.specs.declared.limits.TheConstants.{ENTRY_LIMIT};

use crate::Unsound;
use crate::install::temp_name;
use kl_digest::digest_file;
use kl_intent::Entry;
use kl_store::{Failed, Store};

// The first entry that isn't sound, with the digests that are found.
pub fn first_unsound<S: Store>(
    store: &mut S,
    entries: &[Entry],
    buf: &mut [u8],
) -> Result<Option<Unsound>, Failed>
    requires few { length entries.now ≤ ENTRY_LIMIT }
    requires each { AllByRecursion IsEntry entries.now }
    requires room { 0 < length buf.old }
    ensures first { IfOk result (λ u. ForSome (S.meaning store.old).names (λ m. u ≡ first_unsound m entries.now 0)) }
    ensures still { Stays (S.meaning store.old) (S.meaning store.new) }
    ensures cause { HasCause (S.faults store.old) (S.faults store.new) result }
{
    for number in 0..entries.len() {
        let entry = &entries[number];
        let target = digest_file(store, &entry.target, buf)?;
        let temp = digest_file(store, &temp_name(&entry.target), buf)?;
        if !is_sound(entry, &target, &temp) {
            return Ok(Some(Unsound {
                entry: number as u32,
                target,
                temp,
            }));
        }
    }
    Ok(None)
}

fn is_sound(entry: &Entry, target: &Option<[u8; 32]>, temp: &Option<[u8; 32]>) -> bool
    ensures { result ≡ is_sound_of entry.now target.now temp.now }
{
    let waits = same_digest(temp, &Some(entry.new));
    (same_digest(target, &Some(entry.new)) && (temp.is_none() || waits))
        || (same_digest(target, &entry.old) && waits)
}

fn same_digest(one: &Option<[u8; 32]>, other: &Option<[u8; 32]>) -> bool
    ensures { result ≡ same_digest one.now other.now }
{
    match (one, other) {
        (Some(a), Some(b)) => a == b,
        (None, None) => true,
        _ => false,
    }
}
