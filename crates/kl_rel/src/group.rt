// The section groups of an object.
ghost use Rattle.std.specs.Prelude.{◌≡◌, ◌+◌, ◌-◌, ◌*◌, ◌/◌, ◌≤◌, ◌<◌, ◌^◌, [], length, true, IsTrue, IfOk, OnOk, IfErr, None};
ghost use Rattle.std.specs.Result.{result_err};
ghost use Rattle.kl_rel.specs.Flaws.{IsAnswer, first_of};
ghost use Rattle.kl_rel.specs.Headers.{IsTable, ranges_flaw, section};
ghost use Rattle.kl_rel.specs.Sections.{sections_in};
ghost use Rattle.kl_rel.specs.SymbolTables.{symbols_in, symbols_flaw, symbol_count, is_in_section};
ghost use Rattle.kl_rel.specs.SectionGroups.{groups_flaw, groups_in, group_of, is_group, group_checks, group_form_checks, members_flaw, members, members_before, signature};
ghost use Rattle.kl_rel.specs.Grouped.{IsGrouped, is_free};
ghost use Rattle.kl_base.specs.declared.limits.TheConstants.{INPUT_LIMIT};

use crate::fault::fault_at;
use crate::symbol::is_in_section;
use crate::table::Table;
use crate::{ReadError, ReadFault, ReadKind};
use kl_base::{Listed, Range};
use kl_elf::Shdr;
use kl_elf::abi::{GRP_COMDAT, SHT_GROUP, SHT_SYMTAB, STT_SECTION};
use kl_le::get;
use kl_model::{Group, Groups, Members, Section, Symbol};
use std::alloc::Global;

/// Reads the section groups of an object, whose sections and symbols these are.
///
/// # Errors
///
/// The first flaw of a group, or want of memory.
pub(crate) fn read_groups(
    alloc: Global,
    bytes: &[u8],
    table: &Table,
    sections: &[Section],
    symbols: &[Symbol],
) -> Result<Groups, ReadError>
    requires long { length bytes.now ≤ INPUT_LIMIT }
    requires table { IsTable bytes.now table.now }
    requires ranges { ranges_flaw bytes.now ≡ None }
    requires sections { sections.now ≡ sections_in bytes.now }
    requires symbols { symbols.now ≡ symbols_in bytes.now }
    requires checked { symbols_flaw bytes.now ≡ None }
    ensures groups { IfOk result (λ gs. gs ≡ groups_in bytes.now) }
    ensures sound { OnOk result (groups_flaw bytes.now ≡ None) }
    ensures flaw { IfErr result (IsAnswer (groups_flaw bytes.now)) }
{
    let mut grouped = vec![in alloc; false; table.count as usize]?;
    read_each(alloc, bytes, table, sections, symbols, &mut grouped)
}

/// Reads the groups; `grouped` says by number which sections are in a group so far, at first none.
fn read_each(
    alloc: Global,
    bytes: &[u8],
    table: &Table,
    sections: &[Section],
    symbols: &[Symbol],
    grouped: &mut [bool],
) -> Result<Groups, ReadError>
    requires long { length bytes.now ≤ INPUT_LIMIT }
    requires table { IsTable bytes.now table.now }
    requires ranges { ranges_flaw bytes.now ≡ None }
    requires sections { sections.now ≡ sections_in bytes.now }
    requires symbols { symbols.now ≡ symbols_in bytes.now }
    requires checked { symbols_flaw bytes.now ≡ None }
    requires grouped { IsGrouped bytes.now grouped.old [] }
    ensures groups { IfOk result (λ gs. gs ≡ groups_in bytes.now) }
    ensures sound { OnOk result (groups_flaw bytes.now ≡ None) }
    ensures flaw { IfErr result (IsAnswer (groups_flaw bytes.now)) }
{
    let mut groups = Listed::new(alloc);
    for number in 1..table.count {
        if table.section(bytes, number).kind == SHT_GROUP {
            let group = read_group(alloc, bytes, table, sections, symbols, number, grouped)?;
            groups.push(group)?;
        }
    }
    Ok(groups)
}

/// Reads a group, and marks its members as grouped; `grouped` says by number which sections are in a group so far.
fn read_group(
    alloc: Global,
    bytes: &[u8],
    table: &Table,
    sections: &[Section],
    symbols: &[Symbol],
    number: u32,
    grouped: &mut [bool],
) -> Result<Group, ReadError>
    requires long { length bytes.now ≤ INPUT_LIMIT }
    requires table { IsTable bytes.now table.now }
    requires ranges { ranges_flaw bytes.now ≡ None }
    requires sections { sections.now ≡ sections_in bytes.now }
    requires symbols { symbols.now ≡ symbols_in bytes.now }
    requires checked { symbols_flaw bytes.now ≡ None }
    requires number { (1 ≤ number) × (number < table.now.count) }
    requires group { is_group (section bytes.now number) ≡ true }
    requires grouped { IsGrouped bytes.now grouped.old (members_before bytes.now number 1) }
    ensures group { IfOk result (λ g. g ≡ group_of bytes.now number) }
    ensures grouped { OnOk result (IsGrouped bytes.now grouped.new (members_before bytes.now (number + 1) 1)) }
    ensures sound { OnOk result (first_of (group_checks bytes.now number) ≡ None) }
    ensures flaw { IfErr result (IsAnswer (first_of (group_checks bytes.now number))) }
{
    let header = table.section(bytes, number);
    let place = table.place_of(number);
    check_form(bytes, table, symbols.len() as u64, place, &header)?;
    let members = read_members(alloc, bytes, number, &header, grouped)?;
    Ok(Group {
        section: number,
        comdat: get::<4>(bytes, header.offset as usize) == u64::from(GRP_COMDAT),
        signature: signature(sections, &symbols[header.info as usize]),
        members,
    })
}

/// Checks the form of a group, whose header stands at `place`, in an object of `symbols` symbols.
#[tactic(auto, unfolding(crate::specs::SectionGroups::group_form_checks))]
fn check_form(
    bytes: &[u8],
    table: &Table,
    symbols: u64,
    place: u64,
    header: &Shdr,
) -> Result<(), ReadFault>
    requires table { IsTable bytes.now table.now }
    requires symbols { symbols ≡ symbol_count bytes.now }
    requires place { place < 2 ^ 63 }
    requires long { length bytes.now ≤ INPUT_LIMIT }
    requires lies { header.now.offset + header.now.size ≤ length bytes.now }
    ensures { result_err result ≡ first_of (group_form_checks bytes.now place header.now) }
{
    if header.size < 4 || header.size % 4 != 0 {
        return Err(fault_at(ReadKind::GroupForm, place + Shdr::SH_SIZE));
    }
    if table.section(bytes, header.link).kind != SHT_SYMTAB {
        return Err(fault_at(ReadKind::GroupForm, place + Shdr::SH_LINK));
    }
    if header.info == 0 || u64::from(header.info) >= symbols {
        return Err(fault_at(ReadKind::GroupForm, place + Shdr::SH_INFO));
    }
    if get::<4>(bytes, header.offset as usize) > u64::from(GRP_COMDAT) {
        return Err(fault_at(ReadKind::GroupForm, header.offset));
    }
    Ok(())
}

/// Reads the members of a group, and marks each as grouped; `grouped` says by number which sections are in a group so far.
fn read_members(
    alloc: Global,
    bytes: &[u8],
    number: u32,
    header: &Shdr,
    grouped: &mut [bool],
) -> Result<Members, ReadError>
    requires long { length bytes.now ≤ INPUT_LIMIT }
    requires header { header.now ≡ section bytes.now number }
    requires size { 4 ≤ header.now.size }
    requires lies { header.now.offset + header.now.size ≤ length bytes.now }
    requires grouped { IsGrouped bytes.now grouped.old (members_before bytes.now number 1) }
    ensures members { IfOk result (λ ms. ms ≡ members bytes.now header.now) }
    ensures grouped { OnOk result (IsGrouped bytes.now grouped.new (members_before bytes.now number (header.now.size / 4))) }
    ensures sound { OnOk result (members_flaw bytes.now number ≡ None) }
    ensures flaw { IfErr result (IsAnswer (members_flaw bytes.now number)) }
{
    let mut members = Listed::new(alloc);
    for word in 1..header.size / 4 {
        let place = header.offset + 4 * word;
        let member = get::<4>(bytes, place as usize) as u32;
        if !is_free(grouped, number, member) {
            return Err(fault_at(ReadKind::GroupForm, place).into());
        }
        grouped[member as usize] = true;
        members.push(member)?;
    }
    Ok(members)
}

/// Whether a number is that of another section than the group's own, which is in no group so far.
fn is_free(grouped: &[bool], group: u32, member: u32) -> bool
    ensures { result ≡ is_free grouped.now group member }
{
    let index = member as usize;
    member != 0 && member != group && index < grouped.len() && !grouped[index]
}

/// The name of a group's signature symbol: its section's, where it is the symbol of a section.
fn signature(sections: &[Section], symbol: &Symbol) -> Range
    requires section { IsTrue (is_in_section symbol.now.section) → symbol.now.section ≤ length sections.now }
    ensures { result ≡ signature sections.now symbol.now }
{
    if symbol.kind == STT_SECTION && is_in_section(symbol.section) {
        sections[symbol.section as usize - 1].name
    } else {
        symbol.name
    }
}
