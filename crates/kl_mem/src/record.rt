// The record of what was done to a disk, and beside it the files that the names hold now.
ghost use Rattle.std.specs.Prelude.{◌≡◌, ◌≢◌, ◌++◌, ◌∷◌, [], List, ℕ, OnOk, OnErr, IfOk, MatchBool, IsSome, None, option_copied};
ghost use Rattle.std.specs.FinMap.{get};
ghost use Rattle.kl_store.specs.Disk.{names_now};
ghost use Rattle.kl_mem.specs.Record.{disk_of};
ghost use Rattle.kl_mem.specs.declared.step.Step.TheVariants.{Create, Append, Rename, Remove, Settle, Put};

use crate::files::Files;
use crate::step::Step;
use kl_base::{Bytes, Name, NoMemory};
use std::alloc::Global;

#[derive(Drop)]
pub struct Record {
    alloc: Global,
    files: Files,
    steps: Vec<Step>,
    ghost same: { (q : List ℕ) → get files q ≡ get (names_now (disk_of steps.items)) q },
}

impl Record {
    // Nothing was done, and no file is there.
    pub fn new(alloc: Global) -> Self
        ensures { result.steps.items ≡ [] }
    {
        Record {
            alloc,
            files: Files::new(alloc),
            steps: Vec::new(alloc),
        }
    }

    // What the name holds, if it is there.
    pub fn get(&self, name: &Name) -> Option<&[u8]>
        ensures { option_copied result ≡ get (names_now (disk_of self.now.steps.items)) name.now }
    {
        self.files.get(name)
    }

    pub fn steps(&self) -> &[Step]
        ensures { result.now ≡ self.now.steps.items }
    {
        &self.steps
    }

    // Each of these notes its step, or leaves all as it was where it finds no memory.

    pub fn create(&mut self, name: &Name) -> Result<(), NoMemory>
        ensures ok { OnOk result (self.new.steps.items ≡ self.old.steps.items ++ Create name.now ∷ []) }
        ensures err { OnErr result (self.new.steps.items ≡ self.old.steps.items) }
    {
        self.steps.reserve(1)?;
        self.files.put(name, &[])?;
        self.steps.push_reserved(Step::Create { name: *name });
        Ok(())
    }

    pub fn append(&mut self, name: &Name, bytes: &[u8]) -> Result<(), NoMemory>
        ensures ok { OnOk result (self.new.steps.items ≡ self.old.steps.items ++ Append name.now bytes.now ∷ []) }
        ensures err { OnErr result (self.new.steps.items ≡ self.old.steps.items) }
    {
        let noted = Bytes::from_vec(bytes.to_vec(self.alloc)?);
        self.steps.reserve(1)?;
        self.files.append(name, bytes)?;
        self.steps.push_reserved(Step::Append {
            name: *name,
            bytes: noted,
        });
        Ok(())
    }

    // False where there is no such file.
    pub fn rename(&mut self, from: &Name, to: &Name) -> Result<bool, NoMemory>
        requires { from.now ≢ to.now }
        ensures there { IfOk result (λ was. MatchBool was (IsSome (get (names_now (disk_of self.old.steps.items)) from.now)) (get (names_now (disk_of self.old.steps.items)) from.now ≡ None)) }
        ensures ok { IfOk result (λ was. MatchBool was (self.new.steps.items ≡ self.old.steps.items ++ Rename from.now to.now ∷ []) (self.new.steps.items ≡ self.old.steps.items)) }
        ensures err { OnErr result (self.new.steps.items ≡ self.old.steps.items) }
    {
        self.steps.reserve(1)?;
        if self.files.rename(from, to)? {
            self.steps.push_reserved(Step::Rename {
                from: *from,
                to: *to,
            });
            Ok(true)
        } else {
            Ok(false)
        }
    }

    // False where there is no such file.
    pub fn remove(&mut self, name: &Name) -> Result<bool, NoMemory>
        ensures there { IfOk result (λ was. MatchBool was (IsSome (get (names_now (disk_of self.old.steps.items)) name.now)) (get (names_now (disk_of self.old.steps.items)) name.now ≡ None)) }
        ensures ok { IfOk result (λ was. MatchBool was (self.new.steps.items ≡ self.old.steps.items ++ Remove name.now ∷ []) (self.new.steps.items ≡ self.old.steps.items)) }
        ensures err { OnErr result (self.new.steps.items ≡ self.old.steps.items) }
    {
        self.steps.reserve(1)?;
        if self.files.remove(name) {
            self.steps.push_reserved(Step::Remove { name: *name });
            Ok(true)
        } else {
            Ok(false)
        }
    }

    pub fn settle(&mut self) -> Result<(), NoMemory>
        ensures ok { OnOk result (self.new.steps.items ≡ self.old.steps.items ++ Settle ∷ []) }
        ensures err { OnErr result (self.new.steps.items ≡ self.old.steps.items) }
    {
        self.steps.reserve(1)?;
        self.steps.push_reserved(Step::Settle);
        Ok(())
    }

    pub fn put(&mut self, name: &Name, bytes: &[u8]) -> Result<(), NoMemory>
        ensures ok { OnOk result (self.new.steps.items ≡ self.old.steps.items ++ Put name.now bytes.now ∷ []) }
        ensures err { OnErr result (self.new.steps.items ≡ self.old.steps.items) }
    {
        let noted = Bytes::from_vec(bytes.to_vec(self.alloc)?);
        self.steps.reserve(1)?;
        self.files.put(name, bytes)?;
        self.steps.push_reserved(Step::Put {
            name: *name,
            bytes: noted,
        });
        Ok(())
    }
}
