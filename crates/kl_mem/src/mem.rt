// A store in memory, which tells its disk and each image of it.
ghost use Rattle.std.specs.Prelude.{◌≡◌, ◌≢◌, ◌≤◌, ℕ, [], length, option_map, option_copied, is_err, is_some, if◌then◌else◌, IfOk, OnOk, OnErr, None};
ghost use Rattle.std.specs.FinMap.{get};
ghost use Rattle.kl_store.specs.Counts.{raised};
ghost use Rattle.kl_store.specs.Calls.{HasCause, Stays, Does, DoesIf, Settles, Holds, Reads};
ghost use Rattle.kl_store.specs.Names.{Create, Append, Rename, Remove};
ghost use Rattle.kl_store.specs.Disk.{IsImage};

use crate::crash::image;
use crate::record::Record;
use kl_base::{Name, NoMemory};
use kl_store::{Failed, Store};
use std::alloc::Global;
use std::collections::BTreeMap;

/// A store in memory without folders, which keeps a record of what changed its disk. Its calls of
/// `Store` are counted from 0, up to 2^64 - 1. Each fails where `fail_at` says so, and each that
/// changes the disk where it finds no memory.
#[derive(Drop)]
pub struct MemStore {
    disk: Record,
    planned: BTreeMap<u64, bool>,
    calls: u64,
    faults: u64,
    starved: u64,
}

impl MemStore {
    ghost use Rattle.kl_mem.specs.Record.{blank};
    ghost use Rattle.kl_mem.specs.Mem.{mem, meaning_of, names_of, next_fault, IsFresh, Plans, Puts, Mem};
    ghost use Rattle.kl_mem.specs.Picked.{IsPicked};

    /// The empty store, with no failure planned.
    pub fn new(alloc: Global) -> Self
        ensures disk { (mem result).disk ≡ blank }
        ensures clock { (mem result).clock ≡ 0 }
        ensures fresh { IsFresh (mem result) }
    {
        MemStore::with_disk(alloc, Record::new(alloc))
    }

    // A store with this disk, with no failure planned.
    fn with_disk(alloc: Global, disk: Record) -> Self
        ensures disk { result.disk ≡ disk }
        ensures planned { (call : ℕ) → (mem result).planned call ≡ None }
        ensures calls { result.calls ≡ 0 }
        ensures faults { result.faults ≡ 0 }
        ensures starved { result.starved ≡ 0 }
    {
        MemStore {
            disk,
            planned: BTreeMap::new(alloc),
            calls: 0,
            faults: 0,
            starved: 0,
        }
    }

    /// Puts a stable file under the name, in place of one that had it. This is no call of `Store`.
    pub fn put(&mut self, name: &Name, bytes: &[u8]) -> Result<(), NoMemory>
        // No change is pending.
        requires { (mem self.old).disk.changes ≡ [] }
        ensures ok { OnOk result (Puts name.now bytes.now (mem self.old) (mem self.new)) }
        ensures err { OnErr result (mem self.new ≡ mem self.old) }
    {
        self.disk.put(name, bytes)
    }

    /// What the name holds now, if it is there. This is no call of `Store`.
    pub fn get(&self, name: &Name) -> Option<&[u8]>
        ensures { option_copied result ≡ get (names_of (mem self.now)) name.now }
    {
        self.disk.get(name)
    }

    /// Makes the call of `Store` of that number fail, counted from 0, with its change made or not.
    /// A failed `settle` makes none. Of two entries for one number the later holds.
    pub fn fail_at(&mut self, call: u64, happened: bool) -> Result<(), NoMemory>
        ensures ok { OnOk result (Plans call happened (mem self.old) (mem self.new)) }
        ensures err { OnErr result (mem self.new ≡ mem self.old) }
    {
        match self.planned.insert(call, happened) {
            Ok(_) => Ok(()),
            Err(_) => Err(NoMemory),
        }
    }

    /// One image that a crash now may leave, as a fresh store. Of n pending changes the first
    /// `pick mod (n + 1)` are carried out. What becomes of bytes that may be lost is said by
    /// `(pick / (n + 1)) mod 4`: none are left, the first half, all, or all with every bit turned.
    pub fn crash(&self, alloc: Global, pick: u64) -> Result<MemStore, NoMemory>
        ensures fresh { IfOk result (λ s. IsFresh (mem s)) }
        ensures picked { IfOk result (λ s. IsPicked pick (mem self.now).disk (names_of (mem s))) }
        ensures image { IfOk result (λ s. IsImage (mem self.now).disk (names_of (mem s))) }
    {
        let disk = image(alloc, self.disk.steps(), pick)?;
        Ok(MemStore::with_disk(alloc, disk))
    }

    /// How many calls of `Store` have failed for want of memory, up to 2^64 - 1.
    pub fn starved(&self) -> u64
        ensures { result ≡ (mem self.now).starved }
    {
        self.starved
    }

    // Counts a call, and gives the failure that is planned for it.
    fn next_call(&mut self) -> Option<bool>
        ensures fault { result ≡ next_fault (mem self.old) }
        ensures counted { self.new ≡ record self.old { calls = raised self.old.calls } }
    {
        let fault = self.planned.get(&self.calls).copied();
        self.calls = self.calls.saturating_add(1);
        fault
    }

    // Ends a call: as it is planned to fail, or with this answer.
    fn end<T: Drop>(&mut self, fault: Option<bool>, answer: T) -> Result<T, Failed>
        ensures fails { is_err result ≡ is_some fault }
        ensures answer { IfOk result (λ given. given ≡ answer) }
        ensures faults { self.new ≡ record self.old { faults = (if is_err result then raised self.old.faults else self.old.faults) } }
        ensures cause { HasCause self.old.faults self.new.faults result }
    {
        if fault.is_some() {
            return Err(self.fail());
        }
        Ok(answer)
    }

    // Counts a failure.
    fn fail(&mut self) -> Failed
        ensures faults { self.new ≡ record self.old { faults = raised self.old.faults } }
        ensures later { self.old.faults ≤ self.new.faults }
    {
        self.faults = self.faults.saturating_add(1);
        Failed
    }

    // Counts a failure for want of memory.
    fn starve(&mut self) -> Failed
        ensures counts { self.new ≡ record self.old { faults = raised self.old.faults; starved = raised self.old.starved } }
        ensures later { self.old.faults ≤ self.new.faults }
    {
        self.starved = self.starved.saturating_add(1);
        self.fail()
    }
}

impl Store for MemStore {
    ghost use Rattle.kl_mem.specs.Mem.{mem, meaning_of, EndsStill, Ends, SettleEnds};

    ghost meaning = { meaning_of };

    ghost faults = { λ s. s.faults };

    fn size(&mut self, name: &Name) -> Result<Option<u64>, Failed>
        ensures size { IfOk result (λ n. Holds (meaning_of self.old) name.now (λ file. n ≡ option_map length file)) }
        ensures still { Stays (meaning_of self.old) (meaning_of self.new) }
        ensures cause { HasCause self.old.faults self.new.faults result }
        ensures ends { EndsStill (mem self.old) (mem self.new) result }
    {
        let fault = self.next_call();
        let size = match self.disk.get(name) {
            Some(bytes) => Some(bytes.len() as u64),
            None => None,
        };
        self.end(fault, size)
    }

    fn read(&mut self, name: &Name, at: u64, buf: &mut [u8]) -> Result<usize, Failed>
        ensures bound { IfOk result (λ n. n ≤ length buf.old) }
        ensures bytes { IfOk result (λ n. Holds (meaning_of self.old) name.now (Reads at n buf.old buf.new)) }
        ensures still { Stays (meaning_of self.old) (meaning_of self.new) }
        ensures cause { HasCause self.old.faults self.new.faults result }
        ensures ends { EndsStill (mem self.old) (mem self.new) result }
    {
        let fault = self.next_call();
        let count = copied(self.disk.get(name), at, buf);
        self.end(fault, count)
    }

    fn create(&mut self, name: &Name) -> Result<(), Failed>
        ensures does { Does (Create name.now) (meaning_of self.old) (meaning_of self.new) result }
        ensures cause { HasCause self.old.faults self.new.faults result }
        ensures ends { Ends (Create name.now) (mem self.old) (mem self.new) result }
    {
        let fault = self.next_call();
        if fault == Some(false) {
            return Err(self.fail());
        }
        match self.disk.create(name) {
            Ok(()) => self.end(fault, ()),
            Err(_) => Err(self.starve()),
        }
    }

    fn append(&mut self, name: &Name, bytes: &[u8]) -> Result<(), Failed>
        ensures does { Does (Append name.now bytes.now) (meaning_of self.old) (meaning_of self.new) result }
        ensures cause { HasCause self.old.faults self.new.faults result }
        ensures ends { Ends (Append name.now bytes.now) (mem self.old) (mem self.new) result }
    {
        let fault = self.next_call();
        if fault == Some(false) {
            return Err(self.fail());
        }
        match self.disk.append(name, bytes) {
            Ok(()) => self.end(fault, ()),
            Err(_) => Err(self.starve()),
        }
    }

    fn rename(&mut self, from: &Name, to: &Name) -> Result<bool, Failed>
        requires { from.now ≢ to.now }
        ensures does { DoesIf (Rename from.now to.now) (meaning_of self.old) (meaning_of self.new) result }
        ensures cause { HasCause self.old.faults self.new.faults result }
        ensures ends { Ends (Rename from.now to.now) (mem self.old) (mem self.new) result }
    {
        let fault = self.next_call();
        if fault == Some(false) {
            return Err(self.fail());
        }
        match self.disk.rename(from, to) {
            Ok(was) => self.end(fault, was),
            Err(_) => Err(self.starve()),
        }
    }

    fn remove(&mut self, name: &Name) -> Result<bool, Failed>
        ensures does { DoesIf (Remove name.now) (meaning_of self.old) (meaning_of self.new) result }
        ensures cause { HasCause self.old.faults self.new.faults result }
        ensures ends { Ends (Remove name.now) (mem self.old) (mem self.new) result }
    {
        let fault = self.next_call();
        if fault == Some(false) {
            return Err(self.fail());
        }
        match self.disk.remove(name) {
            Ok(was) => self.end(fault, was),
            Err(_) => Err(self.starve()),
        }
    }

    fn settle(&mut self) -> Result<(), Failed>
        ensures settles { Settles (meaning_of self.old) (meaning_of self.new) result }
        ensures cause { HasCause self.old.faults self.new.faults result }
        ensures ends { SettleEnds (mem self.old) (mem self.new) result }
    {
        let fault = self.next_call();
        if fault.is_some() {
            return Err(self.fail());
        }
        match self.disk.settle() {
            Ok(()) => Ok(()),
            Err(_) => Err(self.starve()),
        }
    }
}

// Puts the file's bytes from the place on into the buffer, as many as fit.
fn copied(file: Option<&[u8]>, at: u64, buf: &mut [u8]) -> usize
    ensures { Reads at result buf.old buf.new (option_copied file.entry) }
{
    let bytes = file.unwrap_or(&[]);
    if at >= bytes.len() as u64 {
        return 0;
    }
    let rest = &bytes[at as usize..];
    let count = rest.len().min(buf.len());
    buf[..count].copy_from_slice(&rest[..count]);
    count
}
