// What has to be synced, and what was synced because it was asked for.
ghost use Rattle.std.specs.Prelude.{◌≡◌, List, ℕ, [], true, OnOk};
ghost use Rattle.kl_host.specs.Notes.{files_to_sync, folders_to_sync, is_among, is_broken, is_checked, is_known, IsNoted, IsSettled, Keeps};

use crate::paths::is_same_folder;
use kl_base::Name;
use std::alloc::{AllocError, Global};

#[derive(Drop)]
pub struct Notes {
    // the names that were given a file or bytes since the last settle
    written: Vec<Name>,
    // the files and folders that were made, renamed or removed since then
    changed: Vec<Name>,
    // names of each folder that was asked for, and synced then
    asked: Vec<Name>,
    // names of files that were asked for, and synced then
    checked: Vec<Name>,
    // a sync has failed
    broken: bool,
}

impl Notes {
    pub fn new(alloc: Global) -> Self
        ensures { IsSettled result }
    {
        Notes {
            written: Vec::new(alloc),
            changed: Vec::new(alloc),
            asked: Vec::new(alloc),
            checked: Vec::new(alloc),
            broken: false,
        }
    }

    // Notes a name that gets a file.
    pub fn note_file(&mut self, name: &Name) -> Result<(), AllocError>
        ensures noted { OnOk result (IsNoted name.now self.new) }
        ensures keeps { Keeps self.old self.new }
    {
        add(&mut self.changed, name)?;
        add(&mut self.written, name)
    }

    // Notes a name whose file gets bytes.
    pub fn note_bytes(&mut self, name: &Name) -> Result<(), AllocError>
        ensures noted { OnOk result (is_among name.now (files_to_sync self.new) ≡ true) }
        ensures keeps { Keeps self.old self.new }
    {
        add(&mut self.written, name)
    }

    // Notes a name that is given or taken away in its folder.
    pub fn note_folder(&mut self, name: &Name) -> Result<(), AllocError>
        ensures noted { OnOk result (is_among name.now (folders_to_sync self.new) ≡ true) }
        ensures files { files_to_sync self.new ≡ files_to_sync self.old }
        ensures keeps { Keeps self.old self.new }
    {
        add(&mut self.changed, name)
    }

    // Whether the folder of the name was asked for.
    pub fn knows(&self, name: &Name) -> bool
        ensures { result ≡ is_known name.now self.now }
    {
        self.asked.iter().any(|other| is_same_folder(other, name))
    }

    // The folder of the name was asked for, and is synced.
    pub fn add_known(&mut self, name: &Name) -> Result<(), AllocError>
        ensures known { OnOk result (is_known name.now self.new ≡ true) }
        ensures keeps { Keeps self.old self.new }
    {
        self.asked.push(*name)?;
        Ok(())
    }

    // Whether the file of the name was asked for.
    pub fn has_checked(&self, name: &Name) -> bool
        ensures { result ≡ is_checked name.now self.now }
    {
        self.checked.contains(name)
    }

    // The file of the name was asked for, and is synced.
    pub fn add_checked(&mut self, name: &Name) -> Result<(), AllocError>
        ensures checked { OnOk result (is_checked name.now self.new ≡ true) }
        ensures keeps { Keeps self.old self.new }
    {
        self.checked.push(*name)?;
        Ok(())
    }

    pub fn is_broken(&self) -> bool
        ensures { result ≡ is_broken self.now }
    {
        self.broken
    }

    // A sync has failed.
    pub fn break_off(&mut self)
        ensures broken { is_broken self.new ≡ true }
        ensures keeps { Keeps self.old self.new }
    {
        self.broken = true;
    }

    // All that was noted is synced.
    pub fn clear(&mut self)
        ensures files { files_to_sync self.new ≡ [] }
        ensures folders { folders_to_sync self.new ≡ [] }
        ensures broken { is_broken self.new ≡ is_broken self.old }
    {
        self.written.clear();
        self.changed.clear();
    }

    pub fn written(&self) -> &[Name]
        ensures { result.now ≡ files_to_sync self.now }
    {
        &self.written
    }

    pub fn changed(&self) -> &[Name]
        ensures { result.now ≡ folders_to_sync self.now }
    {
        &self.changed
    }
}

// Adds the name, unless it is there.
fn add(names: &mut Vec<Name>, name: &Name) -> Result<(), AllocError>
    ensures added { OnOk result (is_among name.now names.new.items ≡ true) }
    ensures keeps { (other : List ℕ) → is_among other names.old.items ≡ true → is_among other names.new.items ≡ true }
{
    if names.contains(name) {
        return Ok(());
    }
    names.push(*name)?;
    Ok(())
}
