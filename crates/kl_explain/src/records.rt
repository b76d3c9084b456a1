// Records in the bytes of an object that may have any flaw.
ghost use Rattle.std.specs.Prelude.{◌+◌, ◌≤◌, length, IfSome};

use kl_elf::abi::{SHT_GROUP, SHT_RELA, SHT_SYMTAB};
use kl_elf::{Ehdr, Rela, Shdr, Sym};
use kl_text::split;

/// What stands at a place of an object, by numbers.
#[derive(Clone, Copy, Debug, PartialEq, Eq)]
pub enum Spot {
    /// A field of the file header.
    Header,
    /// A field of a section's header.
    Section { number: u64, field: u64 },
    /// A field of a symbol in the table of a section.
    Symbol { table: u64, number: u64, field: u64 },
    /// A field of a relocation entry in the table of a section.
    Entry { table: u64, number: u64, field: u64 },
    /// A word of a section group.
    Group { table: u64 },
    /// Nothing of these.
    Elsewhere,
}

/// The file header.
pub fn file_header(bytes: &[u8]) -> Option<Ehdr> {
    if bytes.len() < Ehdr::SIZE {
        return None;
    }
    Some(Ehdr::read(bytes, 0))
}

/// The place of an entry of a table that begins at a place, where the file has it whole.
fn entry_place(bytes: &[u8], table: u64, number: u64, size: usize) -> Option<usize>
    ensures { IfSome result (λ place. place + size ≤ length bytes.now) }
{
    let place = table.checked_add(number.checked_mul(size as u64)?)?;
    let end = place.checked_add(size as u64)?;
    if end > bytes.len() as u64 {
        return None;
    }
    Some(place as usize)
}

/// The header of a section.
pub fn section_header(bytes: &[u8], number: u64) -> Option<Shdr> {
    let head = file_header(bytes)?;
    if number >= u64::from(head.shnum) {
        return None;
    }
    let place = entry_place(bytes, head.shoff, number, Shdr::SIZE)?;
    Some(Shdr::read(bytes, place))
}

/// A symbol of the table of a section.
pub fn symbol(bytes: &[u8], table: u64, number: u64) -> Option<Sym> {
    let header = section_header(bytes, table)?;
    let place = entry_place(bytes, header.offset, number, Sym::SIZE)?;
    Some(Sym::read(bytes, place))
}

/// A relocation entry of the table of a section.
pub fn entry(bytes: &[u8], table: u64, number: u64) -> Option<Rela> {
    let header = section_header(bytes, table)?;
    let place = entry_place(bytes, header.offset, number, Rela::SIZE)?;
    Some(Rela::read(bytes, place))
}

/// The bytes from a place on up to a zero byte, or to the file's end.
fn string_at(bytes: &[u8], place: u64) -> &[u8] {
    let start = bytes.len().min(place as usize);
    let rest = &bytes[start..];
    match split(rest, 0) {
        Some((text, _)) => text,
        None => rest,
    }
}

/// The name of a section, or nothing where none can be found.
pub fn section_name(bytes: &[u8], number: u64) -> &[u8] {
    match (file_header(bytes), section_header(bytes, number)) {
        (Some(head), Some(header)) => string_in(bytes, u64::from(head.shstrndx), header.name),
        _ => b"",
    }
}

/// The name of a symbol of the table of a section, or nothing where none can be found.
pub fn symbol_name(bytes: &[u8], table: u64, number: u64) -> &[u8] {
    match (section_header(bytes, table), symbol(bytes, table, number)) {
        (Some(header), Some(symbol)) => string_in(bytes, u64::from(header.link), symbol.name),
        _ => b"",
    }
}

/// The text at a place of a string table.
fn string_in(bytes: &[u8], table: u64, place: u32) -> &[u8] {
    match section_header(bytes, table) {
        Some(names) => string_at(bytes, names.offset.saturating_add(u64::from(place))),
        None => b"",
    }
}

/// What stands at a place of an object.
pub fn spot_of(bytes: &[u8], at: u64) -> Spot {
    let Some(head) = file_header(bytes) else {
        return Spot::Elsewhere;
    };
    if at < Ehdr::SIZE as u64 {
        return Spot::Header;
    }
    let count = u64::from(head.shnum);
    if let Some(from) = at.checked_sub(head.shoff) {
        let (number, field) = (from / Shdr::SIZE as u64, from % Shdr::SIZE as u64);
        if number < count {
            return Spot::Section { number, field };
        }
    }
    for number in 0..count {
        if let Some(spot) = spot_in(bytes, number, at) {
            return spot;
        }
    }
    Spot::Elsewhere
}

/// What stands at a place of a section's bytes, where the place is one of them.
fn spot_in(bytes: &[u8], table: u64, at: u64) -> Option<Spot> {
    let header = section_header(bytes, table)?;
    let from = at.checked_sub(header.offset)?;
    if from >= header.size {
        return None;
    }
    match header.kind {
        SHT_SYMTAB => Some(Spot::Symbol {
            table,
            number: from / Sym::SIZE as u64,
            field: from % Sym::SIZE as u64,
        }),
        SHT_RELA => Some(Spot::Entry {
            table,
            number: from / Rela::SIZE as u64,
            field: from % Rela::SIZE as u64,
        }),
        SHT_GROUP => Some(Spot::Group { table }),
        _ => None,
    }
}
