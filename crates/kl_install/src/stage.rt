// A file that waits to take its target's place.
ghost use Rattle.std.specs.Prelude.{◌≡◌, ◌≢◌, ◌<◌, length, option_map, true, false, IfOk, OnOk};
ghost use Rattle.std.specs.Option.{ForSome};
ghost use Rattle.std.specs.FinMap.{get};
ghost use Rattle.sha2.specs.Sha256.{sha256};
ghost use Rattle.kl_store.specs.Disk.{names_now};
ghost use Rattle.kl_store.specs.Images.{Leaves, LeavesOfDisk, Nothing};
ghost use Rattle.kl_store.specs.Calls.{HasCause};
ghost use Rattle.kl_store.specs.Files.{HasFiles, KeepsNames, SameNames};
ghost use Rattle.kl_store.specs.Names.{is_scratch};
ghost use Rattle.kl_intent.specs.IntentText.{is_target, IsEntry};
ghost use Rattle.kl_install.specs.After.{temp_name};
ghost use Rattle.kl_install.specs.Staging.{AllQuiet, Waits, IsReadyDisk};

use crate::install::temp_name;
use kl_base::Name;
use kl_digest::digest_file;
use kl_intent::Entry;
use kl_store::{Failed, Store, write_whole};

// Writes the bytes under the target's temporary, and gives the digest of what the target held.
pub fn stage_file<S: Store>(
    store: &mut S,
    first: bool,
    target: &Name,
    bytes: &[u8],
    buf: &mut [u8],
) -> Result<Option<[u8; 32]>, Failed>
    requires target { is_target target.now ≡ true }
    requires room { 0 < length buf.old }
    requires quiet { first ≡ false → ForSome (S.meaning store.old).disk AllQuiet }
    ensures old { IfOk result (λ old. ForSome (S.meaning store.old).disk (λ d. old ≡ option_map sha256 (get (names_now d) target.now))) }
    ensures waits { OnOk result (ForSome (S.meaning store.old).disk (λ d. Waits (temp_name target.now) bytes.now (names_now d) (S.meaning store.new).disk)) }
    ensures images { LeavesOfDisk (S.meaning store.old) (S.meaning store.new) HasFiles }
    ensures quiet { Leaves (S.meaning store.old) (S.meaning store.new) SameNames }
    ensures others { KeepsNames (λ n. n ≢ temp_name target.now) (S.meaning store.old) (S.meaning store.new) }
    ensures cause { HasCause (S.faults store.old) (S.faults store.new) result }
{
    settle_first(store, first)?;
    let old = digest_file(store, target, buf)?;
    write_scratch(store, &temp_name(target), bytes)?;
    Ok(old)
}

// Settles, if this is the first file of a batch.
fn settle_first<S: Store>(store: &mut S, first: bool) -> Result<(), Failed>
    requires quiet { first ≡ false → ForSome (S.meaning store.old).disk AllQuiet }
    ensures ready { OnOk result (ForSome (S.meaning store.old).disk (λ d. IsReadyDisk (names_now d) (S.meaning store.new).disk)) }
    ensures images { LeavesOfDisk (S.meaning store.old) (S.meaning store.new) Nothing }
    ensures names { (S.meaning store.new).names ≡ (S.meaning store.old).names }
    ensures cause { HasCause (S.faults store.old) (S.faults store.new) result }
{
    if first { store.settle() } else { Ok(()) }
}

// Puts a new file of these bytes under a scratch name.
fn write_scratch<S: Store>(store: &mut S, name: &Name, bytes: &[u8]) -> Result<(), Failed>
    requires { is_scratch name.now ≡ true }
    ensures waits { OnOk result (ForSome (S.meaning store.old).disk (λ d. AllQuiet d → Waits name.now bytes.now (names_now d) (S.meaning store.new).disk)) }
    ensures images { LeavesOfDisk (S.meaning store.old) (S.meaning store.new) HasFiles }
    ensures others { KeepsNames (λ n. n ≢ name.now) (S.meaning store.old) (S.meaning store.new) }
    ensures cause { HasCause (S.faults store.old) (S.faults store.new) result }
{
    write_whole(store, name, bytes)
}

// The entry of a target that held a file of the old digest, if any, and is to hold one of the new digest.
pub fn entry_of(target: &Name, old: Option<[u8; 32]>, new: [u8; 32]) -> Entry
    requires { is_target target.now ≡ true }
    ensures target { result.target ≡ target.now }
    ensures old { result.old ≡ old }
    ensures new { result.new ≡ new }
    ensures is { IsEntry result }
{
    Entry {
        target: *target,
        old,
        new,
    }
}
