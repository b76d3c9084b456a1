// The store of the host's files.
ghost use Rattle.std.specs.Prelude.{◌≡◌, ◌≢◌, ◌≤◌, length, option_map, true, false, IfOk, OnErr, OnOk};
ghost use Rattle.kl_store.specs.Names.{Create, Append, Rename, Remove};
ghost use Rattle.kl_store.specs.Meaning.{untold};
ghost use Rattle.kl_store.specs.Calls.{Does, DoesIf, HasCause, Holds, Reads, Settles, Stays};
ghost use Rattle.kl_host.specs.Notes.{files_to_sync, folders_to_sync, is_among, is_broken, IsAsked, IsNoted, IsSettled, Keeps};
ghost use Rattle.kl_host.specs.Disks.{notes};

use crate::disk::Disk;
use crate::failure::{HostFailure, kept};
use crate::faults::counted;
use kl_base::Name;
use kl_store::{Failed, Store};
use std::alloc::Global;
use std::rt::Files;

/// The files of the host below the folder in which the program was started: the name `/kit/k.o` is the
/// path `kit/k.o`. Missing folders of a name are made. `create` never cuts a file short in place: it
/// makes the new file beside it, under `.new.relink`, and renames that over it. `settle` syncs the files
/// that were written since the last one, and then the folders in which a name was changed.
///
/// An earlier process may have left changes that aren't synced. So each folder is synced the first time that a name in it is
/// asked for, and so are the files that recovery and installation rely on: those of scratch names with their targets, and those of
/// the slots of intents. Where a sync fails, no later settle succeeds.
#[derive(Drop)]
pub struct HostStore<R: Files + Drop> {
    disk: Disk<R>,
    faults: u64,
    // the last call that the host refused
    failure: Option<HostFailure>,
}

impl<R: Files + Drop> HostStore<R> {
    /// The store of the host's files, as they are.
    pub fn new(rt: R, alloc: Global) -> Self
        ensures { IsSettled (notes result) }
    {
        HostStore {
            disk: Disk::new(rt, alloc),
            faults: 0,
            failure: None,
        }
    }

    /// The last call that the host refused, as its path below the starting folder and the host's words, if it refused one and there is
    /// memory to tell it.
    pub fn last_failure(&self, alloc: Global) -> Option<String> {
        match &self.failure {
            Some(failure) => told(alloc, failure),
            None => None,
        }
    }
}

fn told(alloc: Global, failure: &HostFailure) -> Option<String> {
    match failure.to_string(alloc) {
        Ok(text) => Some(text),
        Err(_) => None,
    }
}

impl<R: Files + Drop> Store for HostStore<R> {
    ghost meaning = { λ _. untold };

    ghost faults = { λ s. s.faults };

    fn size(&mut self, name: &Name) -> Result<Option<u64>, Failed>
        ensures size { IfOk result (λ n. Holds untold name.now (λ file. n ≡ option_map length file)) }
        ensures still { Stays untold untold }
        ensures cause { HasCause self.old.faults self.new.faults result }
        ensures asked { OnOk result (IsAsked name.now (notes self.new)) }
        ensures keeps { Keeps (notes self.old) (notes self.new) }
    {
        let done = kept(&mut self.failure, self.disk.size(name));
        counted(&mut self.faults, done)
    }

    fn read(&mut self, name: &Name, at: u64, buf: &mut [u8]) -> Result<usize, Failed>
        ensures bound { IfOk result (λ n. n ≤ length buf.old) }
        ensures bytes { IfOk result (λ n. Holds untold name.now (Reads at n buf.old buf.new)) }
        ensures still { Stays untold untold }
        ensures cause { HasCause self.old.faults self.new.faults result }
        ensures asked { OnOk result (IsAsked name.now (notes self.new)) }
        ensures keeps { Keeps (notes self.old) (notes self.new) }
    {
        let done = kept(&mut self.failure, self.disk.read(name, at, buf));
        counted(&mut self.faults, done)
    }

    fn create(&mut self, name: &Name) -> Result<(), Failed>
        ensures does { Does (Create name.now) untold untold result }
        ensures cause { HasCause self.old.faults self.new.faults result }
        ensures noted { OnOk result (IsNoted name.now (notes self.new)) }
        ensures asked { OnOk result (IsAsked name.now (notes self.new)) }
        ensures keeps { Keeps (notes self.old) (notes self.new) }
    {
        let done = kept(&mut self.failure, self.disk.create(name));
        counted(&mut self.faults, done)
    }

    fn append(&mut self, name: &Name, bytes: &[u8]) -> Result<(), Failed>
        ensures does { Does (Append name.now bytes.now) untold untold result }
        ensures cause { HasCause self.old.faults self.new.faults result }
        ensures noted { OnOk result (is_among name.now (files_to_sync (notes self.new)) ≡ true) }
        ensures asked { OnOk result (IsAsked name.now (notes self.new)) }
        ensures keeps { Keeps (notes self.old) (notes self.new) }
    {
        let done = kept(&mut self.failure, self.disk.append(name, bytes));
        counted(&mut self.faults, done)
    }

    fn rename(&mut self, from: &Name, to: &Name) -> Result<bool, Failed>
        requires { from.now ≢ to.now }
        ensures does { DoesIf (Rename from.now to.now) untold untold result }
        ensures cause { HasCause self.old.faults self.new.faults result }
        ensures noted { IfOk result (λ was. was ≡ true → IsNoted to.now (notes self.new)) }
        ensures away { IfOk result (λ was. was ≡ true → is_among from.now (folders_to_sync (notes self.new)) ≡ true) }
        ensures asked { OnOk result (IsAsked from.now (notes self.new)) }
        ensures asked_to { IfOk result (λ was. was ≡ true → IsAsked to.now (notes self.new)) }
        ensures keeps { Keeps (notes self.old) (notes self.new) }
    {
        let done = kept(&mut self.failure, self.disk.rename(from, to));
        counted(&mut self.faults, done)
    }

    fn remove(&mut self, name: &Name) -> Result<bool, Failed>
        ensures does { DoesIf (Remove name.now) untold untold result }
        ensures cause { HasCause self.old.faults self.new.faults result }
        ensures noted { OnOk result (is_among name.now (folders_to_sync (notes self.new)) ≡ true) }
        ensures asked { OnOk result (IsAsked name.now (notes self.new)) }
        ensures keeps { Keeps (notes self.old) (notes self.new) }
    {
        let done = kept(&mut self.failure, self.disk.remove(name));
        counted(&mut self.faults, done)
    }

    fn settle(&mut self) -> Result<(), Failed>
        ensures settles { Settles untold untold result }
        ensures cause { HasCause self.old.faults self.new.faults result }

        // With Ok nothing is left to sync. A settle that failed drops no note, and from then on each one fails.
        ensures settled { OnOk result (IsSettled (notes self.new)) }
        ensures whole { OnOk result (is_broken (notes self.old) ≡ false) }
        ensures broken { OnErr result (is_broken (notes self.new) ≡ true) }
        ensures keeps { OnErr result (Keeps (notes self.old) (notes self.new)) }
    {
        let done = kept(&mut self.failure, self.disk.settle());
        counted(&mut self.faults, done)
    }
}
