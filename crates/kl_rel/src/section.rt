// The sections of an object.
ghost use Rattle.std.specs.Prelude.{◌≡◌, ◌+◌, ◌≤◌, ◌<◌, ◌^◌, length, IfOk, OnOk, IfErr, None};
ghost use Rattle.std.specs.Result.{result_err};
ghost use Rattle.kl_rel.specs.Flaws.{IsAnswer, first_of};
ghost use Rattle.kl_rel.specs.StringTables.{IsIndexed};
ghost use Rattle.kl_rel.specs.Headers.{IsTable, table_checks, ranges_flaw};
ghost use Rattle.kl_rel.specs.Sections.{section_name, is_linked_type, has_priority, is_alignment, is_too_large, flags_checks, form_checks, section_checks, listed_section, sections_flaw, sections_in};
ghost use Rattle.kl_base.specs.declared.limits.TheConstants.{INPUT_LIMIT};

use crate::fault::fault_at;
use crate::string::{StringTable, text_at};
use crate::table::Table;
use crate::{Feature, ReadError, ReadFault, ReadKind};
use kl_base::{ALIGN_LIMIT, Listed, Range, SIZE_LIMIT};
use kl_elf::Shdr;
use kl_elf::abi::{
    SHF_ALLOC, SHF_COMPRESSED, SHF_EXECINSTR, SHF_TLS, SHF_WRITE, SHT_FINI_ARRAY, SHT_INIT_ARRAY,
    SHT_NOBITS, SHT_NOTE, SHT_NULL, SHT_PROGBITS, SHT_X86_64_UNWIND,
};
use kl_model::{Section, Sections};
use std::alloc::Global;

/// The name of a section without one.
pub(crate) const NO_NAME: Range = Range { at: 0, len: 0 };

/// Reads the sections of an object, from number 1 on.
///
/// # Errors
///
/// The first flaw of a section's name, flags, type, alignment or size, or want of memory.
pub(crate) fn read_sections(
    alloc: Global,
    bytes: &[u8],
    table: &Table,
) -> Result<Sections, ReadError>
    requires long { length bytes.now ≤ INPUT_LIMIT }
    requires table { IsTable bytes.now table.now }
    requires form { first_of (table_checks bytes.now) ≡ None }
    requires ranges { ranges_flaw bytes.now ≡ None }
    ensures sections { IfOk result (λ xs. xs ≡ sections_in bytes.now) }
    ensures sound { OnOk result (sections_flaw bytes.now ≡ None) }
    ensures flaw { IfErr result (IsAnswer (sections_flaw bytes.now)) }
{
    let names = StringTable::new(alloc, bytes, &table.section(bytes, table.names))?;
    let mut sections = Listed::from_vec(Vec::with_capacity(alloc, table.count as usize)?);
    for number in 1..table.count {
        let header = table.section(bytes, number);
        let section = read_section(bytes, &names, table.place_of(number), &header)?;
        sections.push(section)?;
    }
    Ok(sections)
}

/// Reads a section, whose header stands at `place`.
#[tactic(auto, unfolding(crate::specs::Sections::section_checks, crate::specs::Sections::listed_section))]
fn read_section(
    bytes: &[u8],
    names: &StringTable,
    place: u64,
    header: &Shdr,
) -> Result<Section, ReadFault>
    requires long { length bytes.now ≤ INPUT_LIMIT }
    requires names { IsIndexed bytes.now names.now }
    requires place { place < 2 ^ 63 }
    ensures section { IfOk result (λ s. s ≡ listed_section bytes.now names.now.header header.now) }
    ensures flaw { result_err result ≡ first_of (section_checks bytes.now names.now.header place header.now) }
{
    let Some(name) = section_name(bytes, names, header) else {
        return Err(fault_at(ReadKind::NameRange, place));
    };
    if header.flags & SHF_ALLOC != 0 {
        check_flags(place, header)?;
        check_form(bytes, place, &name, header)?;
    }
    Ok(Section {
        name,
        kind: header.kind,
        flags: header.flags,
        at: header.offset,
        size: header.size,
        align: header.addralign,
    })
}

/// The name of a section; `None` where no zero byte ends it.
fn section_name(bytes: &[u8], names: &StringTable, header: &Shdr) -> Option<Range>
    requires long { length bytes.now ≤ INPUT_LIMIT }
    requires names { IsIndexed bytes.now names.now }
    ensures { result ≡ section_name bytes.now names.now.header header.now }
{
    if header.kind == SHT_NULL {
        Some(NO_NAME)
    } else {
        names.string(bytes, header.name)
    }
}

/// Checks the flags of an allocated section.
#[tactic(auto, unfolding(crate::specs::Sections::flags_checks))]
fn check_flags(place: u64, header: &Shdr) -> Result<(), ReadFault>
    requires { place < 2 ^ 63 }
    ensures { result_err result ≡ first_of (flags_checks place header.now) }
{
    if header.flags & SHF_TLS != 0 {
        return Err(fault_at(ReadKind::Unsupported(Feature::Tls), place + Shdr::SH_FLAGS));
    }
    if header.flags & SHF_COMPRESSED != 0 {
        return Err(fault_at(
            ReadKind::Unsupported(Feature::Compressed),
            place + Shdr::SH_FLAGS,
        ));
    }
    if header.flags & SHF_WRITE != 0 && header.flags & SHF_EXECINSTR != 0 {
        return Err(fault_at(
            ReadKind::Unsupported(Feature::WriteExecute),
            place + Shdr::SH_FLAGS,
        ));
    }
    Ok(())
}

/// Checks the type, the name, the alignment and the size of an allocated section.
#[tactic(auto, unfolding(crate::specs::Sections::form_checks))]
fn check_form(bytes: &[u8], place: u64, name: &Range, header: &Shdr) -> Result<(), ReadFault>
    requires name { name.now.at + name.now.len ≤ length bytes.now }
    requires place { place < 2 ^ 63 }
    ensures { result_err result ≡ first_of (form_checks bytes.now place name.now header.now) }
{
    if !is_linked_type(header.kind) {
        return Err(fault_at(
            ReadKind::Unsupported(Feature::SectionType),
            place + Shdr::SH_TYPE,
        ));
    }
    if has_priority(text_at(bytes, name)) {
        return Err(fault_at(ReadKind::Unsupported(Feature::Priority), place));
    }
    if header.addralign != 0 && !is_alignment(header.addralign) {
        return Err(fault_at(ReadKind::Align, place + Shdr::SH_ADDRALIGN));
    }
    if is_too_large(header.size) {
        return Err(fault_at(ReadKind::SectionRange, place + Shdr::SH_SIZE));
    }
    Ok(())
}

/// Whether an allocated section of this type is linked.
fn is_linked_type(kind: u32) -> bool
    ensures { result ≡ is_linked_type kind }
{
    kind == SHT_PROGBITS
        || kind == SHT_NOTE
        || kind == SHT_NOBITS
        || kind == SHT_INIT_ARRAY
        || kind == SHT_FINI_ARRAY
        || kind == SHT_X86_64_UNWIND
}

/// Whether a section of this name has constructors or destructors that run in an order of their own.
fn has_priority(name: &[u8]) -> bool
    ensures { result ≡ has_priority name.now }
{
    name.starts_with(b".init_array.")
        || name.starts_with(b".fini_array.")
        || name.starts_with(b".ctors.")
        || name.starts_with(b".dtors.")
}

/// Whether this is a power of two up to the limit.
pub(crate) fn is_alignment(align: u64) -> bool
    ensures { result ≡ is_alignment align }
{
    align.is_power_of_two() && align <= ALIGN_LIMIT
}

/// Whether a size or a value in a section is past the limit.
pub(crate) fn is_too_large(size: u64) -> bool
    ensures { result ≡ is_too_large size }
{
    size > SIZE_LIMIT
}
