// The host's files below the starting folder, and what has to be synced to make them stable.
ghost use Rattle.std.specs.Prelude.{◌≡◌, ◌≤◌, length, true, false, IfOk, OnErr, OnOk};
ghost use Rattle.kl_host.specs.Notes.{files_to_sync, folders_to_sync, is_among, is_broken, is_checked, is_known, is_relied_on, IsAsked, IsNoted, IsSettled, Keeps};
ghost use Rattle.kl_host.specs.Disks.{notes_of};

use crate::failure::{Done, HostFailure, Spot, on};
use crate::notes::Notes;
use crate::paths::{folder_path, is_same_folder, path, target_path};
use kl_base::{Name, Slot};
use kl_intent::slot_name;
use std::alloc::Global;
use std::fs::{self, File, Metadata, OpenFile, OpenOptions};
use std::io::{self, Error, ErrorKind, Read, Seek, SeekFrom, Write};
use std::os::unix::fs::MetadataExt;
use std::rt::Files;

// A file that takes a name's place is made under this name of the same folder first.
const FRESH: &str = ".new.relink";

#[derive(Drop)]
pub struct Disk<R: Files + Drop> {
    rt: R,
    alloc: Global,
    notes: Notes,
}

impl<R: Files + Drop> Disk<R> {
    pub fn new(rt: R, alloc: Global) -> Self
        ensures { IsSettled (notes_of result) }
    {
        Disk {
            rt,
            alloc,
            notes: Notes::new(alloc),
        }
    }

    // The length of the file, if it is there.
    pub fn size(&mut self, name: &Name) -> Done<Option<u64>>
        ensures asked { OnOk result (IsAsked name.now (notes_of self.new)) }
        ensures keeps { Keeps (notes_of self.old) (notes_of self.new) }
    {
        self.ask(name)?;
        on(Spot::File(*name), self.length(name))
    }

    // Fills the buffer from the place on, as far as the file goes.
    pub fn read(&mut self, name: &Name, at: u64, buf: &mut [u8]) -> Done<usize>
        ensures bound { IfOk result (λ n. n ≤ length buf.old) }
        ensures asked { OnOk result (IsAsked name.now (notes_of self.new)) }
        ensures keeps { Keeps (notes_of self.old) (notes_of self.new) }
    {
        self.ask(name)?;
        if on(Spot::File(*name), self.length(name))?.is_none() || at > i64::MAX as u64 {
            return Ok(0);
        }
        on(Spot::File(*name), self.read_at(name, at, buf))
    }

    fn read_at(&self, name: &Name, at: u64, buf: &mut [u8]) -> io::Result<usize>
        ensures { IfOk result (λ n. n ≤ length buf.old) }
    {
        let mut file = fs::open(&self.rt, path(name))?;
        file.seek(SeekFrom::Start(at))?;
        let mut have = 0;
        while have < buf.len() {
            let count = file.read(&mut buf[have..])?;
            if count == 0 {
                break;
            }
            have += count;
        }
        Ok(have)
    }

    // Puts a new empty file under the name. A file that has the name is never cut short: the new one is
    // made beside it and renamed over it, so that the name holds the one or the other at every moment.
    pub fn create(&mut self, name: &Name) -> Done<()>
        ensures noted { OnOk result (IsNoted name.now (notes_of self.new)) }
        ensures asked { OnOk result (IsAsked name.now (notes_of self.new)) }
        ensures keeps { Keeps (notes_of self.old) (notes_of self.new) }
    {
        self.ask(name)?;
        self.make_folders(name)?;
        self.notes.note_file(name)?;
        on(Spot::File(*name), self.make(name))
    }

    fn make(&self, name: &Name) -> io::Result<()> {
        match File::create_new(&self.rt, path(name)) {
            Ok(_) => Ok(()),
            Err(e) if e.kind() == ErrorKind::AlreadyExists => self.replace(name),
            Err(e) => Err(e),
        }
    }

    fn replace(&self, name: &Name) -> io::Result<()> {
        let fresh = format!(in self.alloc; "{}/{FRESH}", folder_path(name))?;
        found(fs::remove_file(&self.rt, fresh.as_str()))?;
        File::create_new(&self.rt, fresh.as_str())?;
        let done = fs::rename(&self.rt, fresh.as_str(), path(name));
        if done.is_err() {
            let _ = fs::remove_file(&self.rt, fresh.as_str());
        }
        done
    }

    // Adds the bytes at the file's end, in place. An absent file is created first.
    pub fn append(&mut self, name: &Name, bytes: &[u8]) -> Done<()>
        ensures noted { OnOk result (is_among name.now (files_to_sync (notes_of self.new)) ≡ true) }
        ensures asked { OnOk result (IsAsked name.now (notes_of self.new)) }
        ensures keeps { Keeps (notes_of self.old) (notes_of self.new) }
    {
        if self.size(name)?.is_none() {
            self.create(name)?;
        }
        self.notes.note_bytes(name)?;
        on(Spot::File(*name), self.write_at_end(name, bytes))
    }

    fn write_at_end(&self, name: &Name, bytes: &[u8]) -> io::Result<()> {
        let mut file = OpenOptions::new().append(true).open(&self.rt, path(name))?;
        file.write_all(bytes)
    }

    // Gives the file the new name, and says whether it was there.
    pub fn rename(&mut self, from: &Name, to: &Name) -> Done<bool>
        ensures noted { IfOk result (λ was. was ≡ true → IsNoted to.now (notes_of self.new)) }
        ensures away { IfOk result (λ was. was ≡ true → is_among from.now (folders_to_sync (notes_of self.new)) ≡ true) }
        ensures asked { OnOk result (IsAsked from.now (notes_of self.new)) }
        ensures asked_to { IfOk result (λ was. was ≡ true → IsAsked to.now (notes_of self.new)) }
        ensures keeps { Keeps (notes_of self.old) (notes_of self.new) }
    {
        if self.size(from)?.is_none() {
            return Ok(false);
        }
        self.ask(to)?;
        self.make_folders(to)?;
        self.notes.note_folder(from)?;
        self.notes.note_file(to)?;
        on(Spot::File(*to), self.give_name(from, to))?;
        Ok(true)
    }

    // Gives the file the new name. Two names of one file stay both by rename(2), so the old one is removed then.
    fn give_name(&self, from: &Name, to: &Name) -> io::Result<()> {
        fs::rename(&self.rt, path(from), path(to))?;
        match found(fs::symlink_metadata(&self.rt, path(from)))? {
            None => Ok(()),
            Some(data) if data.nlink() > 1 => fs::remove_file(&self.rt, path(from)),
            // one entry under two paths
            Some(_) => Err(Error::from(ErrorKind::InvalidInput)),
        }
    }

    // Removes the file, and says whether it was there.
    pub fn remove(&mut self, name: &Name) -> Done<bool>
        ensures noted { OnOk result (is_among name.now (folders_to_sync (notes_of self.new)) ≡ true) }
        ensures asked { OnOk result (IsAsked name.now (notes_of self.new)) }
        ensures keeps { Keeps (notes_of self.old) (notes_of self.new) }
    {
        self.ask(name)?;
        self.notes.note_folder(name)?;
        let removed = found(fs::remove_file(&self.rt, path(name)));
        Ok(on(Spot::File(*name), removed)?.is_some())
    }

    // Syncs each file that was written and is still there, and then each folder in which a name was changed. A sync that
    // failed is never made again, since the next one might succeed although the bytes are lost.
    pub fn settle(&mut self) -> Done<()>
        ensures settled { OnOk result (IsSettled (notes_of self.new)) }
        ensures whole { OnOk result (is_broken (notes_of self.old) ≡ false) }
        ensures broken { OnErr result (is_broken (notes_of self.new) ≡ true) }
        ensures keeps { OnErr result (Keeps (notes_of self.old) (notes_of self.new)) }
    {
        if self.notes.is_broken() {
            return Err(HostFailure::of_kind(ErrorKind::Other));
        }
        match self.sync_noted() {
            Ok(()) => {
                self.notes.clear();
                Ok(())
            }
            Err(e) => {
                self.notes.break_off();
                Err(e)
            }
        }
    }

    fn sync_noted(&self) -> Done<()> {
        for name in self.notes.written() {
            on(Spot::File(*name), self.sync_file(path(name)))?;
        }
        let changed = self.notes.changed();
        for (number, name) in changed.iter().enumerate() {
            if !changed[..number]
                .iter()
                .any(|earlier| is_same_folder(earlier, name))
            {
                on(Spot::Folder(*name), self.sync_folder(name))?;
            }
        }
        Ok(())
    }

    // An earlier process may have left changes that aren't synced. So whatever is asked of a name, its folder and those
    // above it are synced first, and the file too where its bytes will be relied on.
    fn ask(&mut self, name: &Name) -> Done<()>
        ensures asked { OnOk result (IsAsked name.now (notes_of self.new)) }
        ensures keeps { Keeps (notes_of self.old) (notes_of self.new) }
    {
        self.ask_folders(name)?;
        self.ask_folder(name)?;
        self.ask_file(name)
    }

    fn ask_folders(&mut self, name: &Name) -> Done<()>
        ensures keeps { Keeps (notes_of self.old) (notes_of self.new) }
    {
        if self.notes.knows(name) {
            return Ok(());
        }
        let bytes = name.bytes();
        for (end, byte) in bytes.iter().enumerate() {
            if *byte != b'/' {
                continue;
            }
            if let Ok(folder) = Name::from_bytes(&bytes[..end]) {
                self.ask_folder(&folder)?;
            }
        }
        Ok(())
    }

    // Syncs the folder of the name, once.
    fn ask_folder(&mut self, name: &Name) -> Done<()>
        ensures known { OnOk result (is_known name.now (notes_of self.new) ≡ true) }
        ensures keeps { Keeps (notes_of self.old) (notes_of self.new) }
    {
        if self.notes.knows(name) {
            return Ok(());
        }
        if let Err(e) = on(Spot::Folder(*name), self.sync_folder(name)) {
            self.notes.break_off();
            return Err(e);
        }
        self.notes.add_known(name)?;
        Ok(())
    }

    // Syncs the file of a scratch name and the one whose temporary it is, or the file of a slot, once.
    fn ask_file(&mut self, name: &Name) -> Done<()>
        ensures checked { OnOk result (is_relied_on name.now ≡ true → is_checked name.now (notes_of self.new) ≡ true) }
        ensures keeps { Keeps (notes_of self.old) (notes_of self.new) }
    {
        if !is_relied_on(name) || self.notes.has_checked(name) {
            return Ok(());
        }
        if let Err(e) = self.sync_pair(name) {
            self.notes.break_off();
            return Err(e);
        }
        self.notes.add_checked(name)?;
        Ok(())
    }

    fn sync_pair(&self, name: &Name) -> Done<()> {
        if let Some(target) = target_path(name) {
            on(Spot::Target(*name), self.sync_file(target))?;
        }
        on(Spot::File(*name), self.sync_file(path(name)))
    }

    // Syncs the regular file of the path, if there is one.
    fn sync_file(&self, path: &str) -> io::Result<()> {
        match standing(fs::metadata(&self.rt, path))? {
            Some(data) if data.is_file() => fs::open(&self.rt, path)?.sync_all(),
            _ => Ok(()),
        }
    }

    // Syncs the folder of the name, if it is there.
    fn sync_folder(&self, name: &Name) -> io::Result<()> {
        let path = folder_path(name);
        match standing(fs::metadata(&self.rt, path))? {
            Some(data) if data.is_dir() => fs::open(&self.rt, path)?.sync_all(),
            _ => Ok(()),
        }
    }

    // The length of the regular file, if it is there. No other kind of file is ever opened.
    fn length(&self, name: &Name) -> io::Result<Option<u64>> {
        match found(fs::metadata(&self.rt, path(name)))? {
            None => Ok(None),
            Some(data) if data.is_file() => Ok(Some(data.len())),
            Some(data) if data.is_dir() => Err(Error::from(ErrorKind::IsADirectory)),
            Some(_) => Err(Error::other("not a regular file")),
        }
    }

    // Makes the missing folders of the name, the outermost first.
    fn make_folders(&mut self, name: &Name) -> Done<()>
        ensures keeps { Keeps (notes_of self.old) (notes_of self.new) }
    {
        let bytes = name.bytes();
        for (end, byte) in bytes.iter().enumerate() {
            if *byte != b'/' {
                continue;
            }
            if let Ok(folder) = Name::from_bytes(&bytes[..end]) {
                self.make_folder(&folder)?;
            }
        }
        Ok(())
    }

    fn make_folder(&mut self, folder: &Name) -> Done<()>
        ensures keeps { Keeps (notes_of self.old) (notes_of self.new) }
    {
        let data = found(fs::metadata(&self.rt, path(folder)));
        if on(Spot::File(*folder), data)?.is_some() {
            return Ok(());
        }
        self.notes.note_folder(folder)?;
        on(Spot::File(*folder), fs::create_dir(&self.rt, path(folder)))
    }
}

// Whether the bytes of a file of the name are relied on after a stop: those of a scratch name and of a slot.
fn is_relied_on(name: &Name) -> bool
    ensures { result ≡ is_relied_on name.now }
{
    target_path(name).is_some()
        || *name == slot_name(Slot::Kernel)
        || *name == slot_name(Slot::Libs)
}

// What stands at a path, or nothing where it is absent, also since a part of the path is no folder.
fn standing(answer: io::Result<Metadata>) -> io::Result<Option<Metadata>> {
    match answer {
        Err(e) if e.kind() == ErrorKind::NotADirectory => Ok(None),
        other => found(other),
    }
}

// What was found, or nothing where it is absent.
fn found<T: Drop>(answer: io::Result<T>) -> io::Result<Option<T>> {
    match answer {
        Ok(it) => Ok(Some(it)),
        Err(e) if e.kind() == ErrorKind::NotFound => Ok(None),
        Err(e) => Err(e),
    }
}
