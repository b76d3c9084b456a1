// The section header table of an object.
ghost use Rattle.std.specs.Prelude.{◌≡◌, ◌+◌, ◌*◌, ◌≤◌, ◌<◌, ◌^◌, length, nat_le, IfOk};
ghost use Rattle.std.specs.Option.{option_or};
ghost use Rattle.std.specs.Result.{result_err};
ghost use Rattle.kl_elf.specs.Records.{ehdr_at};
ghost use Rattle.kl_rel.specs.Flaws.{first_of};
ghost use Rattle.kl_rel.specs.Headers.{section, head_flaw, table_checks, range_flaw, ranges_flaw, header_place, null_header, IsTable};
ghost use Rattle.kl_base.specs.declared.limits.TheConstants.{INPUT_LIMIT};

use crate::fault::fault_at;
use crate::{Feature, ReadFault, ReadKind};
use kl_elf::abi::{SHN_XINDEX, SHT_NOBITS, SHT_NULL, SHT_STRTAB};
use kl_elf::{Ehdr, Shdr, read_ehdr};

/// The header of section 0.
const NULL_HEADER: Shdr = Shdr {
    name: 0,
    kind: SHT_NULL,
    flags: 0,
    addr: 0,
    offset: 0,
    size: 0,
    link: 0,
    info: 0,
    addralign: 0,
    entsize: 0,
};

/// The section header table of an object, which lies in its file.
#[derive(Clone, Copy, Debug)]
pub(crate) struct Table {
    /// Its place in the file.
    pub(crate) place: u64,
    /// The number of sections, section 0 among them.
    pub(crate) count: u32,
    /// The number of the string table of section names.
    pub(crate) names: u32,
}

impl Table {
    /// The place of a section's header.
    pub(crate) fn place_of(&self, number: u32) -> u64
        requires lies { self.now.place + Shdr.SIZE * self.now.count < 2 ^ 63 }
        requires number { number < self.now.count }
        ensures { result ≡ self.now.place + Shdr.SIZE * number }
    {
        self.place + Shdr::SIZE as u64 * u64::from(number)
    }

    /// The header of a section: the null header for number 0, and for a number that no section has.
    #[tactic(auto, unfolding(crate::specs::Headers::section))]
    pub(crate) fn section(&self, bytes: &[u8], number: u32) -> Shdr
        requires { IsTable bytes.now self.now }
        ensures { result ≡ section bytes.now number }
    {
        if number == 0 || number >= self.count {
            return NULL_HEADER;
        }
        Shdr::read(bytes, self.place_of(number) as usize)
    }
}

/// Reads the file header, and finds the section header table.
///
/// # Errors
///
/// The first flaw of the two.
pub(crate) fn read_table(bytes: &[u8]) -> Result<Table, ReadFault>
    requires { length bytes.now ≤ INPUT_LIMIT }
    ensures table { IfOk result (λ t. IsTable bytes.now t) }
    ensures flaw { result_err result ≡ option_or (head_flaw bytes.now) (first_of (table_checks bytes.now)) }
{
    match read_ehdr(bytes) {
        Ok(head) => table_of(bytes, &head),
        Err((fault, at)) => Err(fault_at(ReadKind::Head(fault), at)),
    }
}

/// The section header table that a file header names.
#[tactic(auto, unfolding(crate::specs::Headers::table_checks))]
fn table_of(bytes: &[u8], head: &Ehdr) -> Result<Table, ReadFault>
    requires long { length bytes.now ≤ INPUT_LIMIT }
    requires head { head.now ≡ ehdr_at bytes.now 0 }
    ensures table { IfOk result (λ t. IsTable bytes.now t) }
    ensures flaw { result_err result ≡ first_of (table_checks bytes.now) }
{
    if head.shnum == 0 && head.shoff != 0 {
        return Err(fault_at(ReadKind::Unsupported(Feature::Extended), Ehdr::E_SHNUM));
    }
    if head.shstrndx == SHN_XINDEX {
        return Err(fault_at(ReadKind::Unsupported(Feature::Extended), Ehdr::E_SHSTRNDX));
    }
    if head.shnum == 0 {
        return Err(fault_at(ReadKind::SectionTable, Ehdr::E_SHNUM));
    }
    if !lies_in(bytes, head.shoff, Shdr::SIZE as u64 * u64::from(head.shnum)) {
        return Err(fault_at(ReadKind::SectionTable, Ehdr::E_SHOFF));
    }
    let table = Table {
        place: head.shoff,
        count: u32::from(head.shnum),
        names: u32::from(head.shstrndx),
    };
    if table.section(bytes, table.names).kind != SHT_STRTAB {
        return Err(fault_at(ReadKind::SectionTable, Ehdr::E_SHSTRNDX));
    }
    Ok(table)
}

/// Whether `size` bytes from `offset` on lie in the file.
fn lies_in(bytes: &[u8], offset: u64, size: u64) -> bool
    ensures { result ≡ nat_le (offset + size) (length bytes.now) }
{
    match offset.checked_add(size) {
        Some(end) => end <= bytes.len() as u64,
        None => false,
    }
}

/// Checks that the bytes of each section lie in the file.
///
/// # Errors
///
/// The first that does not.
pub(crate) fn check_ranges(bytes: &[u8], table: &Table) -> Result<(), ReadFault>
    requires long { length bytes.now ≤ INPUT_LIMIT }
    requires table { IsTable bytes.now table.now }
    ensures { result_err result ≡ ranges_flaw bytes.now }
{
    for number in 1..table.count {
        check_range(bytes, table.place_of(number), &table.section(bytes, number))?;
    }
    Ok(())
}

/// Checks that the bytes of a section lie in the file; its header stands at `place`.
#[tactic(auto, unfolding(crate::specs::Headers::range_flaw))]
fn check_range(bytes: &[u8], place: u64, section: &Shdr) -> Result<(), ReadFault>
    requires { place < 2 ^ 63 }
    ensures { result_err result ≡ range_flaw bytes.now place section.now }
{
    let has_bytes = section.kind != SHT_NULL && section.kind != SHT_NOBITS;
    if has_bytes && !lies_in(bytes, section.offset, section.size) {
        return Err(fault_at(ReadKind::SectionRange, place + Shdr::SH_OFFSET));
    }
    Ok(())
}
