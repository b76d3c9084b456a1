// Files in memory, which contracts see as the map from names to bytes.
ghost use Rattle.std.specs.Prelude.{◌≡◌, ◌≢◌, ◌++◌, [], OnOk, OnErr, IfOk, MatchBool, IfErr, option_copied, option_map, OnSome, IfNone, unwrap_or, IsSome, None, is_some, List, ℕ};
ghost use Rattle.std.specs.Set.{is_member};
ghost use Rattle.std.specs.BTreeMap as tree;
ghost use Rattle.std.specs.Ordering.{nat_cmp};
ghost use Rattle.std.specs.Cmp.Lexicographic.{slice_cmp};
ghost use Rattle.std.specs.FinMap.{empty, get, insert, remove};
ghost use Rattle.kl_store.specs.Names.{Rename, carried_out, same_name};
ghost use Rattle.kl_mem.specs.Record.{written};
ghost use Rattle.kl_mem.specs.FileMap.{items_of};

use crate::step::Step;
use kl_base::{Name, NoMemory};
use std::alloc::Global;
use std::collections::BTreeMap;
use std::marker::Model;
use std::mem;

// The files by name.
#[derive(Drop)]
pub struct Files {
    alloc: Global,
    held: BTreeMap<Name, Vec<u8>>,
}

impl Model for Files {
    ghost use Rattle.kl_store.specs.Names.{Names};
    ghost use Rattle.std.specs.FinMap.{code};
    ghost use Rattle.std.specs.Coded.{coded_ℕ, coded_list};

    ghost Value = { Names };

    ghost coded = { code (coded_list coded_ℕ) (coded_list coded_ℕ) };

    ghost use Rattle.kl_mem.specs.FileMap.{names_in};

    ghost view = { λ s. names_in s.held.entries };
}

impl Files {
    pub fn new(alloc: Global) -> Self
        ensures { result ≡ empty }
    {
        Files {
            alloc,
            held: BTreeMap::new(alloc),
        }
    }

    // What the name holds, if it is there.
    pub fn get(&self, name: &Name) -> Option<&[u8]>
        ensures { option_copied result ≡ get self.now name.now }
    {
        match self.held.get(name) {
            Some(bytes) => Some(bytes),
            None => None,
        }
    }

    // Puts a file with these bytes under the name.
    pub fn put(&mut self, name: &Name, bytes: &[u8]) -> Result<(), NoMemory>
        ensures ok { OnOk result (self.new ≡ insert self.old name.now bytes.now) }
        ensures err { OnErr result (self.new ≡ self.old) }
    {
        let Ok(file) = bytes.to_vec(self.alloc) else {
            return Err(NoMemory);
        };
        match self.hold(name, file) {
            Ok(()) => Ok(()),
            Err(_) => Err(NoMemory),
        }
    }

    // Adds bytes at the file's end, in place. An absent file is created first.
    pub fn append(&mut self, name: &Name, bytes: &[u8]) -> Result<(), NoMemory>
        ensures ok { OnOk result (self.new ≡ insert self.old name.now (unwrap_or (get self.old name.now) [] ++ bytes.now)) }
        ensures err { OnErr result (self.new ≡ self.old) }
    {
        let Some(file) = self.held.get_mut(name) else {
            return self.put(name, bytes);
        };
        match file.extend_from_slice(bytes) {
            Ok(()) => Ok(()),
            Err(_) => Err(NoMemory),
        }
    }

    // Gives the file the new name, in place of a file that had it.
    pub fn rename(&mut self, from: &Name, to: &Name) -> Result<bool, NoMemory>
        requires { from.now ≢ to.now }
        ensures ok { IfOk result (λ was. MatchBool was (self.new ≡ carried_out (Rename from.now to.now) self.old) (self.new ≡ self.old)) }
        ensures was { IfOk result (λ was. MatchBool was (IsSome (get self.old from.now)) (get self.old from.now ≡ None)) }
        ensures err { OnErr result (self.new ≡ self.old) }
    {
        let Some(file) = self.replace(from, Vec::new(self.alloc)) else {
            return Ok(false);
        };
        match self.hold(to, file) {
            Ok(()) => {
                self.remove(from);
                Ok(true)
            }
            Err(file) => {
                let _ = self.replace(from, file);
                Err(NoMemory)
            }
        }
    }

    // Puts the file under the name, or gives it back for want of memory.
    fn hold(&mut self, name: &Name, file: Vec<u8>) -> Result<(), Vec<u8>>
        ensures ok { OnOk result (self.new ≡ insert self.old name.now file.items) }
        ensures err { IfErr result (λ back. (self.new ≡ self.old) × (back ≡ file)) }
    {
        match self.held.insert(*name, file) {
            Ok(_) => Ok(()),
            Err(refused) => Err(refused.value.1),
        }
    }

    // Puts the file in place of one that has the name, and gives that one.
    fn replace(&mut self, name: &Name, file: Vec<u8>) -> Option<Vec<u8>>
        ensures was { get self.old name.now ≡ option_map items_of result }
        ensures there { OnSome result (self.new ≡ insert self.old name.now file.items) }
        ensures absent { IfNone result (self.new ≡ self.old) }
    {
        let Some(place) = self.held.get_mut(name) else {
            return None;
        };
        Some(mem::replace(place, file))
    }

    // What the step leaves, of names and their bytes.
    pub fn apply(&mut self, step: &Step) -> Result<(), NoMemory>
        ensures { OnOk result (self.new ≡ written step.now self.old) }
    {
        match step {
            Step::Create { name } => self.put(name, &[]),
            Step::Append { name, bytes } => self.append(name, bytes.items()),
            Step::Rename { from, to } => self.shift(from, to),
            Step::Remove { name } => {
                self.remove(name);
                Ok(())
            }
            Step::Settle => Ok(()),
            Step::Put { name, bytes } => self.put(name, bytes.items()),
        }
    }

    // What `from` holds, or nothing, is what `to` holds, and `from` is gone.
    fn shift(&mut self, from: &Name, to: &Name) -> Result<(), NoMemory>
        ensures { OnOk result (self.new ≡ carried_out (Rename from.now to.now) self.old) }
    {
        let Some(file) = self.take(from) else {
            self.remove(to);
            return Ok(());
        };
        match self.hold(to, file) {
            Ok(()) => Ok(()),
            Err(_) => Err(NoMemory),
        }
    }

    // Takes the file away from the name.
    fn take(&mut self, name: &Name) -> Option<Vec<u8>>
        ensures was { get self.old name.now ≡ option_map items_of result }
        ensures gone { self.new ≡ remove self.old name.now }
    {
        self.held.remove(name)
    }

    // The names that hold a file.
    pub fn names(&self, alloc: Global) -> Result<Vec<Name>, NoMemory>
        ensures { IfOk result (λ v. (q : List ℕ) → is_some (get self.now q) ≡ is_member same_name v.items q) }
    {
        keys_of(alloc, &self.held)
    }

    // Removes the name and its file, and says whether it was there.
    pub fn remove(&mut self, name: &Name) -> bool
        ensures gone { self.new ≡ remove self.old name.now }
        ensures was { MatchBool result (IsSome (get self.old name.now)) (get self.old name.now ≡ None) }
    {
        self.held.remove(name).is_some()
    }
}

// The keys of a map of files.
fn keys_of(alloc: Global, held: &BTreeMap<Name, Vec<u8>>) -> Result<Vec<Name>, NoMemory>
    ensures { IfOk result (λ v. (q : List ℕ) → is_some (tree.get (slice_cmp nat_cmp) held.now q) ≡ is_member same_name v.items q) }
{
    Ok(held.keys().copied().collect(alloc)?)
}
