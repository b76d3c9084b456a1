// The dynamic section of an image, and the tables that it names.
ghost use Rattle.std.specs.Prelude.{◌≡◌, ◌+◌, ◌*◌, ◌≤◌, ◌<◌, ◌^◌, ◌/◌, ◌==◌, ◌++◌, [], ℕ, Option, Some, false, find, fold, length, option_copied, IfOk, OnOk, IfErr, IfSome};
ghost use Rattle.kl_elf.specs.declared.records.Phdr.{Phdr};
ghost use Rattle.kl_elf.specs.declared.abi.TheConstants.{DT_HASH, PT_DYNAMIC};
ghost use Rattle.kl_model.specs.Memory.{Cell, segments};
ghost use Rattle.kl_model.specs.Loaded.{chain_count, dyn_entry, dyn_value, dyns_from, file_at, has_in_file, relas_in, strings_in, table_at, with_rela};
ghost use Rattle.kl_image.specs.Headers.{has_bytes_outside, segment_flaws};
ghost use Rattle.kl_image.specs.Dynamic.{bucket_count, dynamic_header, entry_flaws, hash_size, is_relocations, is_wrong_table, table_flaws, table_size};
ghost use Rattle.kl_image.specs.Sections.{IsSection};
ghost use Rattle.kl_image.specs.Flaws.{IsFirst};
ghost use Rattle.kl_image.specs.Placed.{IsOver, IsPlaced, table_entries};
ghost use Rattle.kl_image.specs.Resolvers.{number_of};
ghost use Rattle.kl_image.specs.Symbols.{IsSymbols};

use crate::header::E_PHOFF;
use crate::placed::Placed;
use crate::string::Strings;
use crate::symbol::Symbols;
use crate::{ImageFault, Resolver};
use kl_base::NoMemory;
use kl_elf::abi::{
    DT_HASH, DT_JMPREL, DT_NULL, DT_PLTRELSZ, DT_RELA, DT_RELASZ, DT_STRSZ, DT_STRTAB, DT_SYMTAB,
    PT_DYNAMIC, PT_LOAD,
};
use kl_elf::{Dyn, Phdr, Rela, Sym};
use kl_le::get;
use std::alloc::Global;
use std::collections::BTreeMap;

/// The size of a word of the hash table (gABI, "Hash Table").
pub(crate) const HASH_WORD: usize = 4;

/// The size of its first two words, the numbers of its buckets and of its chains.
pub(crate) const HASH_COUNTS: u64 = 8;

/// The dynamic section of an image.
#[derive(Clone, Copy)]
pub(crate) struct DynamicSection<'a> {
    bytes: &'a [u8],
    segments: &'a [Phdr],
    /// The first `PT_DYNAMIC` header.
    header: Phdr,
    /// Its entries up to the first `DT_NULL`.
    entries: &'a [Dyn],
}

/// Checks the tables of a shared object.
///
/// # Errors
///
/// The first flaw of them, or want of memory.
pub(crate) fn check_tables(alloc: Global, bytes: &[u8], headers: &[Phdr]) -> Result<(), ImageFault>
    requires headers { headers.now ≡ segments bytes.now }
    requires segments { segment_flaws bytes.now ≡ [] }
    ensures sound { OnOk result (table_flaws bytes.now ≡ []) }
    ensures flaw { IfErr result (IsFirst (table_flaws bytes.now)) }
{
    let Some(header) = dynamic_header(headers) else {
        return Err(ImageFault::Tables { at: E_PHOFF });
    };
    let entries = read_entries(alloc, bytes, header)?;
    let section = DynamicSection {
        bytes,
        segments: headers,
        header: *header,
        entries: &entries,
    };
    section.check_entries(alloc)?;
    if entries.len() as u64 >= header.filesz / Dyn::SIZE as u64 {
        return Err(ImageFault::Tables { at: E_PHOFF });
    }
    Ok(())
}

/// Carries out the relocation entries of a shared object, those of `DT_RELA`, then those of `DT_JMPREL`. Where memory runs out, what
/// was written is of no more use.
pub(crate) fn carry_out_entries<R: Resolver>(
    alloc: Global,
    headers: &[Phdr],
    image: &Placed,
    names: &R,
    written: &mut BTreeMap<u64, u8>,
) -> Result<(), NoMemory>
    requires headers { headers.now ≡ segments image.now.bytes.now }
    requires placed { IsPlaced image.now }
    ensures { (m : ℕ → Option Cell) → IsOver written.old m m → OnOk result (IsOver written.new m
        (fold (with_rela image.now.bytes.now image.now.base (number_of (R.numbers names.now))) m (table_entries image.now.bytes.now))) }
{
    let Some(header) = dynamic_header(headers) else {
        return Ok(());
    };
    let entries = read_entries(alloc, image.bytes, header)?;
    let section = DynamicSection {
        bytes: image.bytes,
        segments: headers,
        header: *header,
        entries: &entries,
    };
    let symbols = section.symbols(alloc)?;
    let relocations = section.relocations(alloc)?;
    for entry in &relocations {
        image.carry_out(&symbols, names, entry, written)?;
    }
    Ok(())
}

/// The first `PT_DYNAMIC` header.
fn dynamic_header(headers: &[Phdr]) -> Option<&Phdr>
    ensures { option_copied result ≡ find (λ s. s.kind == PT_DYNAMIC) headers.now }
{
    headers.iter().find(|header| header.kind == PT_DYNAMIC)
}

/// Reads the entries of a dynamic section up to the first `DT_NULL`.
fn read_entries(alloc: Global, bytes: &[u8], header: &Phdr) -> Result<Vec<Dyn>, NoMemory>
    requires { has_bytes_outside bytes.now header.now ≡ false }
    ensures { IfOk result (λ v. v.items ≡ dyns_from bytes.now header.now.offset (header.now.filesz / Dyn.SIZE)) }
{
    let mut entries = Vec::new(alloc);
    for number in 0..header.filesz as usize / Dyn::SIZE {
        let entry = Dyn::read(bytes, header.offset as usize + Dyn::SIZE * number);
        if entry.tag == DT_NULL {
            return Ok(entries);
        }
        entries.push(entry)?;
    }
    Ok(entries)
}

impl<'a> DynamicSection<'a> {
    /// Checks the tables that the entries name. Of two entries with one tag the first counts.
    fn check_entries(&self, alloc: Global) -> Result<(), ImageFault>
        requires { IsSection self.now }
        ensures sound { OnOk result (entry_flaws self.now.bytes.now self.now.header.offset ≡ []) }
        ensures flaw { IfErr result (IsFirst (entry_flaws self.now.bytes.now self.now.header.offset)) }
    {
        let mut seen = Vec::new(alloc);
        for (number, entry) in self.entries.iter().enumerate() {
            if seen.contains(&entry.tag) {
                continue;
            }
            let Some(size) = self.table_size(entry.tag) else {
                continue;
            };
            if self.is_wrong_table(entry, size) {
                return Err(ImageFault::Tables {
                    at: self.place_of(number),
                });
            }
            seen.push(entry.tag)?;
        }
        Ok(())
    }

    /// The place of an entry in the file.
    fn place_of(&self, number: usize) -> u64
        requires section { IsSection self.now }
        requires number { number < length self.now.entries.now }
        ensures { result ≡ self.now.header.offset + Dyn.SIZE * number }
    {
        self.header.offset + (Dyn::SIZE * number) as u64
    }

    /// The size of the table whose place an entry of this tag gives.
    #[tactic(auto, unfolding(crate::specs::Dynamic::table_size))]
    fn table_size(&self, tag: u64) -> Option<u64>
        requires { IsSection self.now }
        ensures { result ≡ table_size self.now.bytes.now tag }
    {
        match tag {
            DT_HASH => Some(self.hash_size()),
            DT_SYMTAB => Some(Sym::SIZE as u64 * self.chain_count()),
            DT_STRTAB => Some(self.value(DT_STRSZ)),
            DT_RELA => Some(self.value(DT_RELASZ)),
            DT_JMPREL => Some(self.value(DT_PLTRELSZ)),
            _ => None,
        }
    }

    /// Whether a table of this size isn't inside the bytes that one `PT_LOAD` header has in the file, or isn't of whole entries.
    fn is_wrong_table(&self, entry: &Dyn, size: u64) -> bool
        requires { IsSection self.now }
        ensures { result ≡ is_wrong_table self.now.bytes.now entry.now size }
    {
        size != 0 && self.file_at(entry.value, size).is_none()
            || is_relocations(entry.tag) && size % Rela::SIZE as u64 != 0
    }

    /// The relocation entries, those of `DT_RELA`, then those of `DT_JMPREL`.
    fn relocations(&self, alloc: Global) -> Result<Vec<Rela>, NoMemory>
        requires { IsSection self.now }
        ensures { IfOk result (λ v. v.items ≡ table_entries self.now.bytes.now) }
    {
        let mut relocations = Vec::new(alloc);
        self.read_table(DT_RELA, DT_RELASZ, &mut relocations)?;
        self.read_table(DT_JMPREL, DT_PLTRELSZ, &mut relocations)?;
        Ok(relocations)
    }

    /// Adds the relocation entries of the table that these tags name.
    fn read_table(&self, tag: u64, size: u64, relocations: &mut Vec<Rela>) -> Result<(), NoMemory>
        requires { IsSection self.now }
        ensures { OnOk result (relocations.new.items ≡ relocations.old.items ++ relas_in self.now.bytes.now tag size) }
    {
        let size = self.value(size);
        let Some(at) = self.table_at(tag, size) else {
            return Ok(());
        };
        for number in 0..size as usize / Rela::SIZE {
            relocations.push(Rela::read(self.bytes, at + Rela::SIZE * number))?;
        }
        Ok(())
    }

    /// The symbols that it names.
    fn symbols(&self, alloc: Global) -> Result<Symbols<'a>, NoMemory>
        requires { IsSection self.now }
        ensures symbols { IfOk result IsSymbols }
        ensures bytes { IfOk result (λ y. y.bytes.now ≡ self.now.bytes.now) }
    {
        let count = self.chain_count();
        Ok(Symbols {
            bytes: self.bytes,
            count,
            table: self.table_at(DT_SYMTAB, Sym::SIZE as u64 * count),
            strings: Strings::new(alloc, self.strings())?,
        })
    }

    /// The strings.
    fn strings(&self) -> &'a [u8]
        requires { IsSection self.now }
        ensures { result.now ≡ strings_in self.now.bytes.now }
    {
        let size = self.value(DT_STRSZ);
        match self.table_at(DT_STRTAB, size) {
            Some(at) if size != 0 => &self.bytes[at..at + size as usize],
            _ => &[],
        }
    }

    /// The size of the hash table: its two counts, its buckets and its chains.
    fn hash_size(&self) -> u64
        requires { IsSection self.now }
        ensures { result ≡ hash_size self.now.bytes.now }
    {
        HASH_COUNTS + HASH_WORD as u64 * (self.bucket_count() + self.chain_count())
    }

    /// How many buckets the hash table has.
    fn bucket_count(&self) -> u64
        requires { IsSection self.now }
        ensures count { result ≡ bucket_count self.now.bytes.now }
        ensures small { result < 2 ^ 32 }
    {
        match self.table_at(DT_HASH, HASH_COUNTS) {
            Some(place) => get::<HASH_WORD>(self.bytes, place),
            None => 0,
        }
    }

    /// How many chains it has: as many as there are symbols.
    fn chain_count(&self) -> u64
        requires { IsSection self.now }
        ensures count { result ≡ chain_count self.now.bytes.now }
        ensures small { result < 2 ^ 32 }
    {
        match self.table_at(DT_HASH, HASH_COUNTS) {
            Some(place) => get::<HASH_WORD>(self.bytes, place + HASH_WORD),
            None => 0,
        }
    }

    /// The place in the file of the table of so many bytes that the first entry of this tag names.
    fn table_at(&self, tag: u64, size: u64) -> Option<usize>
        requires { IsSection self.now }
        ensures place { result ≡ table_at self.now.bytes.now tag size }
        ensures lies { 0 < size → IfSome result (λ at. at + size ≤ length self.now.bytes.now) }
    {
        match self.entry(tag) {
            Some(entry) => self.file_at(entry.value, size),
            None => None,
        }
    }

    /// The value of the first entry of this tag, and 0 where there is none.
    fn value(&self, tag: u64) -> u64
        requires { IsSection self.now }
        ensures { result ≡ dyn_value self.now.bytes.now tag }
    {
        match self.entry(tag) {
            Some(entry) => entry.value,
            None => 0,
        }
    }

    /// The first entry of this tag.
    fn entry(&self, tag: u64) -> Option<&Dyn>
        requires { IsSection self.now }
        ensures { option_copied result ≡ dyn_entry self.now.bytes.now tag }
    {
        self.entries.iter().find(|entry| entry.tag == tag)
    }

    /// The place in the file of so many bytes of memory, where one `PT_LOAD` header has all of them in the file.
    fn file_at(&self, address: u64, size: u64) -> Option<usize>
        requires { IsSection self.now }
        ensures place { result ≡ file_at self.now.bytes.now address size }
        ensures lies { 0 < size → IfSome result (λ at. at + size ≤ length self.now.bytes.now) }
    {
        for segment in self.segments {
            if has_in_file(address, size, segment) {
                return Some((segment.offset + (address - segment.vaddr)) as usize);
            }
        }
        None
    }
}

/// Whether a `PT_LOAD` header has so many bytes of memory in the file.
fn has_in_file(address: u64, size: u64, segment: &Phdr) -> bool
    ensures { result ≡ has_in_file address size segment.now }
{
    let end = u128::from(segment.vaddr) + u128::from(segment.filesz);
    segment.kind == PT_LOAD
        && segment.vaddr <= address
        && u128::from(address) + u128::from(size) <= end
}

/// Whether a tag names a table of relocation entries.
fn is_relocations(tag: u64) -> bool
    ensures { result ≡ is_relocations tag }
{
    tag == DT_RELA || tag == DT_JMPREL
}
