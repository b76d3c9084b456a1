// The relocation entries of an object.
ghost use Rattle.std.specs.Prelude.{◌≡◌, ◌≤◌, ◌<◌, ◌^◌, [], ◌&&◌, nat_le, if◌then◌else◌, length, AllPairs, IfOk, OnOk, IfErr, None, Some};
ghost use Rattle.std.specs.Result.{result_err};
ghost use Rattle.kl_rel.specs.Flaws.{IsAnswer, first_of};
ghost use Rattle.kl_rel.specs.Headers.{IsTable, ranges_flaw};
ghost use Rattle.kl_rel.specs.Sections.{is_allocated, sections_flaw};
ghost use Rattle.kl_rel.specs.SymbolTables.{IsSymbolTable};
ghost use Rattle.kl_model.specs.Fit.{ShareNoByte};
ghost use Rattle.kl_rel.specs.FieldScans.{IsScan, TellsFlaw};
ghost use Rattle.kl_rel.specs.Relocations.{relocations_flaw, fields_in, rela_checks, is_rela};
ghost use Rattle.kl_base.specs.declared.limits.TheConstants.{INPUT_LIMIT};

use crate::entry::Entries;
use crate::fault::fault_at;
use crate::first_flaw::{check_relocations, first_flaw};
use crate::scan::FieldScan;
use crate::symbol::SymbolTable;
use crate::table::Table;
use crate::{ReadError, ReadFault, ReadKind};
use kl_base::NoMemory;
use kl_elf::abi::{SHF_ALLOC, SHT_NOBITS, SHT_REL, SHT_RELA, SHT_SYMTAB};
use kl_elf::{Rela, Shdr};
use kl_model::RawFields;
use std::alloc::Global;

/// Reads the entries of the relocation sections of allocated sections.
///
/// # Errors
///
/// The first flaw of a relocation section or an entry, or want of memory.
pub(crate) fn read_relocations(
    alloc: Global,
    bytes: &[u8],
    table: &Table,
    symbol_table: &SymbolTable,
) -> Result<RawFields, ReadError>
    requires long { length bytes.now ≤ INPUT_LIMIT }
    requires table { IsTable bytes.now table.now }
    requires symbol_table { IsSymbolTable bytes.now symbol_table.now }
    requires ranges { ranges_flaw bytes.now ≡ None }
    requires sections { sections_flaw bytes.now ≡ None }
    ensures fields { IfOk result (λ fs. fs ≡ fields_in bytes.now) }
    ensures sound { OnOk result (relocations_flaw bytes.now ≡ None) }
    ensures flaw { IfErr result (IsAnswer (relocations_flaw bytes.now)) }
{
    let count = entry_count(bytes, table, bytes.len() as u64 / Rela::SIZE as u64);
    if count.is_none() {
        // Sections share ranges of the file: their fields are kept only where there is no flaw.
        check_relocations(alloc, bytes, table, symbol_table)?;
    }
    let mut scan = FieldScan::new(alloc, table.count, count.unwrap_or(0))?;
    let plain = plain_flaw(bytes, table, symbol_table, &mut scan)?;
    let found = if scan.has_overlap(alloc)? {
        first_flaw(alloc, bytes, table, symbol_table)?
    } else {
        plain
    };
    match found {
        Some(fault) => Err(fault.into()),
        None => Ok(scan.into_fields()),
    }
}

/// The number of entries that are read, as the headers tell, where it is at most `limit`.
pub(crate) fn entry_count(bytes: &[u8], table: &Table, limit: u64) -> Option<u64>
    requires { IsTable bytes.now table.now }
    ensures { result ≡ (if nat_le (length (fields_in bytes.now)) limit then Some (length (fields_in bytes.now)) else None) }
{
    let mut count = 0;
    for number in 1..table.count {
        let header = table.section(bytes, number);
        if is_read(&header, &table.section(bytes, header.info)) {
            let more = header.size / Rela::SIZE as u64;
            if more > limit - count {
                return None;
            }
            count += more;
        }
    }
    Some(count)
}

/// The first flaw that no two fields have a part in. Adds the fields up to it to none.
fn plain_flaw(
    bytes: &[u8],
    table: &Table,
    symbol_table: &SymbolTable,
    scan: &mut FieldScan,
) -> Result<Option<ReadFault>, NoMemory>
    requires long { length bytes.now ≤ INPUT_LIMIT }
    requires table { IsTable bytes.now table.now }
    requires symbol_table { IsSymbolTable bytes.now symbol_table.now }
    requires ranges { ranges_flaw bytes.now ≡ None }
    requires sections { sections_flaw bytes.now ≡ None }
    requires scan { IsScan scan.old }
    requires empty { scan.old.fields.items ≡ [] }
    requires count { length scan.old.ends.items ≡ table.now.count }
    ensures scan { IsScan scan.new }
    ensures flaw { IfOk result (λ found. AllPairs ShareNoByte scan.new.fields.items → found ≡ relocations_flaw bytes.now) }
    ensures fields { OnOk result (relocations_flaw bytes.now ≡ None → scan.new.fields.items ≡ fields_in bytes.now) }
{
    match scan_sections(bytes, table, symbol_table, scan) {
        Ok(()) => Ok(None),
        Err(ReadError::Flaw(fault)) => Ok(Some(fault)),
        Err(ReadError::NoMemory) => Err(NoMemory),
    }
}

/// Adds the fields of the relocation sections of allocated sections to none, up to the first flaw that no two fields have a part in.
///
/// # Errors
///
/// This flaw, or want of memory. It is the first of all flaws where no two of the fields share a byte.
fn scan_sections(
    bytes: &[u8],
    table: &Table,
    symbol_table: &SymbolTable,
    scan: &mut FieldScan,
) -> Result<(), ReadError>
    requires long { length bytes.now ≤ INPUT_LIMIT }
    requires table { IsTable bytes.now table.now }
    requires symbol_table { IsSymbolTable bytes.now symbol_table.now }
    requires ranges { ranges_flaw bytes.now ≡ None }
    requires sections { sections_flaw bytes.now ≡ None }
    requires scan { IsScan scan.old }
    requires empty { scan.old.fields.items ≡ [] }
    requires count { length scan.old.ends.items ≡ table.now.count }
    ensures fields { OnOk result (scan.new.fields.items ≡ fields_in bytes.now) }
    ensures scan { IsScan scan.new }
    ensures sound { OnOk result (AllPairs ShareNoByte scan.new.fields.items → relocations_flaw bytes.now ≡ None) }
    ensures flaw { IfErr result (λ e. AllPairs ShareNoByte scan.new.fields.items → IsAnswer (relocations_flaw bytes.now) e) }
    ensures told { IfErr result (TellsFlaw (relocations_flaw bytes.now)) }
{
    for number in 1..table.count {
        let header = table.section(bytes, number);
        check_form(bytes, table, table.place_of(number), &header)?;
        let target = table.section(bytes, header.info);
        if is_read(&header, &target) {
            let entries = Entries {
                number,
                header,
                symbols: symbol_table.count,
                size: target.size,
            };
            entries.scan(bytes, scan)?;
        }
    }
    Ok(())
}

/// Checks the form of a section, where it is a relocation section; its header stands at `place`.
#[tactic(auto, unfolding(crate::specs::Relocations::rela_checks))]
pub(crate) fn check_form(
    bytes: &[u8],
    table: &Table,
    place: u64,
    header: &Shdr,
) -> Result<(), ReadFault>
    requires table { IsTable bytes.now table.now }
    requires place { place < 2 ^ 63 }
    ensures { result_err result ≡ first_of (rela_checks bytes.now place header.now) }
{
    let target = table.section(bytes, header.info);
    if (header.kind == SHT_RELA || header.kind == SHT_REL) && header.info >= table.count {
        return Err(fault_at(ReadKind::RelaLink, place + Shdr::SH_INFO));
    }
    if header.kind == SHT_REL && is_allocated(&target) {
        return Err(fault_at(ReadKind::RelaKindForm, place + Shdr::SH_TYPE));
    }
    if !is_read(header, &target) {
        return Ok(());
    }
    if target.kind == SHT_NOBITS {
        return Err(fault_at(ReadKind::RelaLink, place + Shdr::SH_INFO));
    }
    if table.section(bytes, header.link).kind != SHT_SYMTAB {
        return Err(fault_at(ReadKind::RelaLink, place + Shdr::SH_LINK));
    }
    if header.entsize != Rela::SIZE as u64 {
        return Err(fault_at(ReadKind::RelaLink, place + Shdr::SH_ENTSIZE));
    }
    if header.size % Rela::SIZE as u64 != 0 {
        return Err(fault_at(ReadKind::RelaLink, place + Shdr::SH_SIZE));
    }
    Ok(())
}

fn is_allocated(header: &Shdr) -> bool
    ensures { result ≡ is_allocated header.now }
{
    header.flags & SHF_ALLOC != 0
}

/// Whether the entries of a section are read, which changes this one.
pub(crate) fn is_read(header: &Shdr, target: &Shdr) -> bool
    ensures { result ≡ (is_rela header.now && is_allocated target.now) }
{
    header.kind == SHT_RELA && is_allocated(target)
}
