// The first flaw of the relocation sections and entries of an object, found without keeping their fields.
ghost use Rattle.std.specs.Prelude.{◌≡◌, ◌+◌, ◌/◌, ◌≤◌, ◌<◌, ◌⊎◌, ◌==◌, ◌-◌, ◌&&◌, ◌||◌, ℕ, length, slice_index, nat_le, nat_lt, true, not, None, IfOk, OnOk, IfErr};
ghost use Rattle.std.specs.Bool.{OnTrue};
ghost use Rattle.std.specs.List.{list_any, range_with_len};
ghost use Rattle.std.specs.Result.{result_err};
ghost use Rattle.kl_rel.specs.Flaws.{IsAnswer};
ghost use Rattle.kl_rel.specs.Headers.{IsTable, ranges_flaw, section, head};
ghost use Rattle.kl_rel.specs.Sections.{sections_flaw};
ghost use Rattle.kl_rel.specs.SymbolTables.{IsSymbolTable, symbol_count};
ghost use Rattle.kl_rel.specs.EntryLists.{AreEntries};
ghost use Rattle.kl_rel.specs.Relocations.{relocations_flaw, rela_flaw_of, entries_flaw, is_read};
ghost use Rattle.kl_rel.specs.Chains.{IsChained, IsKnown, PassForms, ArePassed, AreStamped, AreOf, changes};
ghost use Rattle.kl_base.specs.declared.limits.TheConstants.{INPUT_LIMIT};

use crate::entry::Entries;
use crate::fault::fault_at;
use crate::relocation::{check_form, is_read};
use crate::symbol::SymbolTable;
use crate::table::Table;
use crate::{ReadError, ReadFault, ReadKind};
use kl_base::NoMemory;
use kl_elf::Rela;
use kl_model::width;
use std::alloc::Global;

/// Looks for the flaws of the relocation sections of an object and of their entries.
///
/// # Errors
///
/// The first flaw of them, or want of memory.
pub(crate) fn check_relocations(
    alloc: Global,
    bytes: &[u8],
    table: &Table,
    symbol_table: &SymbolTable,
) -> Result<(), ReadError>
    requires long { length bytes.now ≤ INPUT_LIMIT }
    requires table { IsTable bytes.now table.now }
    requires symbol_table { IsSymbolTable bytes.now symbol_table.now }
    requires ranges { ranges_flaw bytes.now ≡ None }
    requires sections { sections_flaw bytes.now ≡ None }
    ensures sound { OnOk result (relocations_flaw bytes.now ≡ None) }
    ensures flaw { IfErr result (IsAnswer (relocations_flaw bytes.now)) }
{
    match first_flaw(alloc, bytes, table, symbol_table)? {
        Some(fault) => Err(fault.into()),
        None => Ok(()),
    }
}

/// The first flaw of the relocation sections of an object and of their entries, or none. It takes memory by the length of the
/// file, however many entries its sections have.
pub(crate) fn first_flaw(
    alloc: Global,
    bytes: &[u8],
    table: &Table,
    symbol_table: &SymbolTable,
) -> Result<Option<ReadFault>, NoMemory>
    requires long { length bytes.now ≤ INPUT_LIMIT }
    requires table { IsTable bytes.now table.now }
    requires symbol_table { IsSymbolTable bytes.now symbol_table.now }
    requires ranges { ranges_flaw bytes.now ≡ None }
    requires sections { sections_flaw bytes.now ≡ None }
    ensures { IfOk result (λ found. found ≡ relocations_flaw bytes.now) }
{
    let mut known = first_form_flaw(bytes, table);
    let chains = Chains::new(alloc, bytes, table)?;
    let mut stamps = vec![in alloc; 0_u32; bytes.len()]?;
    for target in 1..table.count {
        chains.check(bytes, table, symbol_table, target, &mut known, &mut stamps);
    }
    Ok(known.fault)
}

/// The first flaw that is known: it stands in section `number`, or there is none and `number` is past all sections.
#[derive(Clone, Copy)]
struct Known {
    number: u32,
    fault: Option<ReadFault>,
}

/// The first flaw of the form of a relocation section.
fn first_form_flaw(bytes: &[u8], table: &Table) -> Known
    requires long { length bytes.now ≤ INPUT_LIMIT }
    requires table { IsTable bytes.now table.now }
    ensures known { IsKnown bytes.now result }
    ensures before { PassForms bytes.now result.number }
{
    for number in 1..table.count {
        let header = table.section(bytes, number);
        if let Err(fault) = check_form(bytes, table, table.place_of(number), &header) {
            return Known {
                number,
                fault: Some(fault),
            };
        }
    }
    Known {
        number: table.count,
        fault: None,
    }
}

/// The relocation sections that are read, by the section that they change, in ascending order. Number 0 stands for none.
#[derive(Drop)]
struct Chains {
    /// By section number, the first that changes it.
    first: Vec<u32>,
    /// By its number, the next that changes the same section.
    next: Vec<u32>,
}

impl Chains {
    /// Those of an object.
    fn new(alloc: Global, bytes: &[u8], table: &Table) -> Result<Self, NoMemory>
        requires long { length bytes.now ≤ INPUT_LIMIT }
        requires table { IsTable bytes.now table.now }
        ensures { IfOk result (λ chains. IsChained bytes.now 1 chains) }
    {
        let count = table.count as usize;
        let mut chains = Chains {
            first: vec![in alloc; 0; count]?,
            next: vec![in alloc; 0; count]?,
        };
        let mut number = table.count;
        while number > 1 {
            number -= 1;
            let header = table.section(bytes, number);
            if is_read(&header, &table.section(bytes, header.info)) {
                chains.next[number as usize] = chains.first[header.info as usize];
                chains.first[header.info as usize] = number;
            }
        }
        Ok(chains)
    }

    /// Finds the first flaw of the relocation sections that change a section, before the flaw that is known. No byte has the
    /// section's stamp before.
    fn check(
        &self,
        bytes: &[u8],
        table: &Table,
        symbol_table: &SymbolTable,
        target: u32,
        known: &mut Known,
        stamps: &mut [u32],
    )
        requires long { length bytes.now ≤ INPUT_LIMIT }
        requires table { IsTable bytes.now table.now }
        requires symbol_table { IsSymbolTable bytes.now symbol_table.now }
        requires ranges { ranges_flaw bytes.now ≡ None }
        requires sections { sections_flaw bytes.now ≡ None }
        requires chains { IsChained bytes.now 1 self.now }
        requires target { (1 ≤ target) × (target < table.now.count) }
        requires known { IsKnown bytes.now known.old }
        requires forms { PassForms bytes.now known.old.number }
        requires stamps { (x : ℕ) → slice_index stamps.old x < target }
        requires room { length stamps.old ≡ length bytes.now }
        ensures known { IsKnown bytes.now known.new }
        ensures earlier { known.new.number ≤ known.old.number }
        ensures passed { ArePassed bytes.now target known.new.number }
        ensures stamps { (x : ℕ) → slice_index stamps.new x ≤ target }
        ensures room { length stamps.new ≡ length stamps.old }
    {
        let size = table.section(bytes, target).size;
        let mut number = self.first[target as usize];
        while number != 0 && number < known.number {
            let entries = Entries {
                number,
                header: table.section(bytes, number),
                symbols: symbol_table.count,
                size,
            };
            if let Err(fault) = stamp(&entries, bytes, stamps) {
                *known = Known {
                    number,
                    fault: Some(fault),
                };
                return;
            }
            number = self.next[number as usize];
        }
    }
}

/// Stamps the bytes of the fields of a section's entries with the number of the section that they change.
///
/// # Errors
///
/// The first flaw of an entry.
fn stamp(entries: &Entries, bytes: &[u8], stamps: &mut [u32]) -> Result<(), ReadFault>
    requires long { length bytes.now ≤ INPUT_LIMIT }
    requires entries { AreEntries bytes.now entries.now }
    requires lies { entries.now.header.offset + entries.now.header.size ≤ length bytes.now }
    requires room { entries.now.size ≤ length stamps.old }
    requires short { length stamps.old ≤ INPUT_LIMIT }
    requires stamps { AreStamped bytes.now entries.now.number 0 stamps.old }
    ensures flaw { result_err result ≡ entries_flaw bytes.now entries.now.number }
    ensures stamps { OnOk result (AreStamped bytes.now entries.now.number (entries.now.header.size / Rela.SIZE) stamps.new) }
    ensures others { AreOf entries.now.header.info stamps.old stamps.new }
    ensures count { length stamps.new ≡ length stamps.old }
{
    for index in 0..entries.header.size / Rela::SIZE as u64 {
        let place = entries.header.offset + Rela::SIZE as u64 * index;
        let field = entries.field(bytes, index);
        entries.check(place, &field)?;
        if !mark(
            stamps,
            field.section,
            field.offset,
            field.offset + width(field.kind),
        ) {
            return Err(fault_at(ReadKind::FieldOverlap, place));
        }
    }
    Ok(())
}

/// Marks the bytes from `offset` up to `end` with a stamp, and says whether none of them had it.
fn mark(stamps: &mut [u32], stamp: u32, offset: u64, end: u64) -> bool
    requires order { offset ≤ end }
    requires room { end ≤ length stamps.old }
    ensures free { result ≡ not (list_any (λ x. slice_index stamps.old x == stamp) (range_with_len offset (end - offset))) }
    ensures marked { OnTrue result ((x : ℕ) → x < length stamps.old → (slice_index stamps.new x == stamp) ≡ ((slice_index stamps.old x == stamp) || (nat_le offset x && nat_lt x end))) }
    ensures others { AreOf stamp stamps.old stamps.new }
    ensures count { length stamps.new ≡ length stamps.old }
{
    for at in offset..end {
        if stamps[at as usize] == stamp {
            return false;
        }
        stamps[at as usize] = stamp;
    }
    true
}
