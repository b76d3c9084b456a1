// An image at a base, and what its entries write there.
ghost use Rattle.std.specs.Prelude.{◌≡◌, ◌+◌, ◌≤◌, ◌<◌, ◌^◌, ℕ, Option, OnOk, option_map, length};
ghost use Rattle.kl_model.specs.Memory.{Cell, cell_in};
ghost use Rattle.kl_model.specs.Loaded.{is_covered, moved, name_in, rela_value, with_rela};
ghost use Rattle.kl_image.specs.Resolvers.{number_of};
ghost use Rattle.kl_image.specs.Placed.{HasWritten, IsOver, IsPlaced};
ghost use Rattle.kl_image.specs.Symbols.{IsSymbols};

use crate::Resolver;
use crate::cover::Cover;
use crate::symbol::Symbols;
use kl_base::NoMemory;
use kl_elf::abi::{R_X86_64_64, R_X86_64_GLOB_DAT, R_X86_64_JUMP_SLOT, R_X86_64_RELATIVE};
use kl_elf::{Phdr, Rela};
use std::collections::BTreeMap;

/// The size of the field that an entry writes, a `word64` (psABI, "Relocation Types").
const WORD64: u64 = 8;

/// An image at a base.
#[derive(Drop)]
pub(crate) struct Placed<'a> {
    pub(crate) bytes: &'a [u8],
    pub(crate) cover: Cover,
    pub(crate) base: u64,
}

impl<'a> Placed<'a> {
    /// The byte at an address before an entry is carried out, if it is mapped.
    pub(crate) fn byte(&self, address: u64) -> Option<u8>
        requires { IsPlaced self.now }
        ensures { result ≡ option_map (λ c. c.byte) (moved self.now.bytes.now self.now.base address) }
    {
        if address < self.base {
            return None;
        }
        let there = address - self.base;
        match self.cover.at(there) {
            Some(header) => Some(byte_in(self.bytes, &header, there)),
            None => None,
        }
    }

    /// Whether one `PT_LOAD` header covers the bytes that an entry writes.
    fn is_covered(&self, address: u64) -> bool
        requires { IsPlaced self.now }
        ensures { result ≡ is_covered self.now.bytes.now address }
    {
        match self.cover.at(address) {
            Some(header) => {
                let end = u128::from(header.vaddr) + u128::from(header.memsz);
                u128::from(address) + u128::from(WORD64) <= end
            }
            None => false,
        }
    }

    /// Carries out an entry: writes its number, where it has one and its place is covered. Where memory runs out, what was written
    /// is of no more use.
    pub(crate) fn carry_out<R: Resolver>(
        &self,
        symbols: &Symbols,
        names: &R,
        entry: &Rela,
        written: &mut BTreeMap<u64, u8>,
    ) -> Result<(), NoMemory>
        requires placed { IsPlaced self.now }
        requires symbols { IsSymbols symbols.now }
        requires same { symbols.now.bytes.now ≡ self.now.bytes.now }
        ensures { (m n : ℕ → Option Cell) → IsOver written.old m n → OnOk result (IsOver written.new m
            (with_rela self.now.bytes.now self.now.base (number_of (R.numbers names.now)) n entry.now)) }
    {
        if !self.is_covered(entry.offset) {
            return Ok(());
        }
        match entry_value(symbols, self.base, names, entry) {
            Some(value) => write_number(written, self.base + entry.offset, value),
            None => Ok(()),
        }
    }
}

/// The byte at an address that a program header covers.
fn byte_in(bytes: &[u8], header: &Phdr, address: u64) -> u8
    requires starts { header.now.vaddr ≤ address }
    requires in_file { 0 < header.now.filesz → header.now.offset + header.now.filesz ≤ length bytes.now }
    ensures { result ≡ (cell_in bytes.now address header.now).byte }
{
    let place = address - header.vaddr;
    if place >= header.filesz {
        return 0;
    }
    bytes[(header.offset + place) as usize]
}

/// The number that an entry writes (psABI, "Relocation Types"); `None` where its type is another, or its name isn't in the tables.
fn entry_value<R: Resolver>(symbols: &Symbols, base: u64, names: &R, entry: &Rela) -> Option<u64>
    requires { IsSymbols symbols.now }
    ensures { result ≡ rela_value symbols.now.bytes.now base (number_of (R.numbers names.now)) entry.now }
{
    let symbol = entry.info >> 32;
    let addend = entry.addend.cast_unsigned();
    match (entry.info % (1 << 32)) as u32 {
        R_X86_64_RELATIVE => Some(base.wrapping_add(addend)),
        R_X86_64_64 => match symbol_number(symbols, names, symbol) {
            Some(number) => Some(number.wrapping_add(addend)),
            None => None,
        },
        R_X86_64_GLOB_DAT | R_X86_64_JUMP_SLOT => symbol_number(symbols, names, symbol),
        _ => None,
    }
}

/// The number of a symbol's name.
fn symbol_number<R: Resolver>(symbols: &Symbols, names: &R, symbol: u64) -> Option<u64>
    requires { IsSymbols symbols.now }
    ensures { result ≡ option_map (number_of (R.numbers names.now)) (name_in symbols.now.bytes.now symbol) }
{
    match symbols.name(symbol) {
        Some(name) => Some(names.resolve(name)),
        None => None,
    }
}

/// Writes the bytes of a number, the low byte first. Where memory runs out, some are written.
fn write_number(written: &mut BTreeMap<u64, u8>, address: u64, number: u64) -> Result<(), NoMemory>
    requires { address + WORD64 ≤ 2 ^ 64 }
    ensures { OnOk result (HasWritten written.old written.new address number WORD64) }
{
    let bytes = number.to_le_bytes();
    for (place, byte) in bytes.iter().enumerate() {
        written.insert(address + place as u64, *byte)?;
    }
    Ok(())
}
