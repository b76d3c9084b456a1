// The symbol table of an object, and its symbols.
ghost use Rattle.std.specs.Prelude.{◌≡◌, ◌+◌, ◌*◌, ◌≤◌, ◌<◌, ◌^◌, length, slice_get, IfOk, OnOk, IfErr, None};
ghost use Rattle.std.specs.Result.{result_err};
ghost use Rattle.kl_rel.specs.Flaws.{IsAnswer, first_of};
ghost use Rattle.kl_rel.specs.StringTables.{IsIndexed};
ghost use Rattle.kl_rel.specs.Headers.{IsTable, ranges_flaw, head};
ghost use Rattle.kl_rel.specs.SymbolTables.{IsSymbolTable, symbol_tables, second_table_flaw, table_form_checks, symbol_table_checks, symbol_form_checks, symbol_place_checks, symbol_flaw_of, symbol_of, symbols_flaw, symbols_in, symbol_in, symbol_checks, is_local, is_unnamed, has_section, is_in_section, is_common, strings};
ghost use Rattle.kl_base.specs.declared.limits.TheConstants.{INPUT_LIMIT};

use crate::fault::fault_at;
use crate::section::{NO_NAME, is_alignment, is_too_large};
use crate::string::StringTable;
use crate::table::Table;
use crate::{Feature, ReadError, ReadFault, ReadKind};
use kl_base::{Listed, Range};
use kl_elf::abi::{
    SHN_ABS, SHN_COMMON, SHN_LORESERVE, SHN_UNDEF, SHN_XINDEX, SHT_STRTAB, SHT_SYMTAB, STB_LOCAL,
    STB_WEAK, STT_COMMON, STT_GNU_IFUNC, STT_NOTYPE, STT_TLS, STV_DEFAULT,
};
use kl_elf::{Shdr, Sym};
use kl_model::{Symbol, Symbols};
use std::alloc::Global;

/// Symbol 0.
const NO_SYMBOL: Symbol = Symbol {
    name: NO_NAME,
    binding: STB_LOCAL,
    kind: STT_NOTYPE,
    visibility: STV_DEFAULT,
    section: SHN_UNDEF as u32,
    value: 0,
    size: 0,
};

/// The symbol table of an object; one without symbols for an object that has none.
#[derive(Clone, Copy, Debug)]
pub(crate) struct SymbolTable {
    /// Its place in the file.
    pub(crate) place: u64,
    /// The number of symbols, symbol 0 among them.
    pub(crate) count: u64,
    /// How many of its first symbols are LOCAL.
    pub(crate) locals: u32,
    /// The number of the string table of its names.
    pub(crate) strings: u32,
}

/// Finds the symbol table.
///
/// # Errors
///
/// Its first flaw.
pub(crate) fn read_symbol_table(bytes: &[u8], table: &Table) -> Result<SymbolTable, ReadFault>
    requires long { length bytes.now ≤ INPUT_LIMIT }
    requires table { IsTable bytes.now table.now }
    requires ranges { ranges_flaw bytes.now ≡ None }
    ensures table { IfOk result (λ t. IsSymbolTable bytes.now t) }
    ensures flaw { result_err result ≡ first_of (symbol_table_checks bytes.now) }
{
    let number = find_symbol_table(bytes, table)?.unwrap_or(0);
    let header = table.section(bytes, number);
    if number != 0 {
        check_form(bytes, table, table.place_of(number), &header)?;
    }
    Ok(SymbolTable {
        place: header.offset,
        count: header.size / Sym::SIZE as u64,
        locals: header.info,
        strings: header.link,
    })
}

/// The number of the section that is the symbol table.
///
/// # Errors
///
/// A second one.
fn find_symbol_table(bytes: &[u8], table: &Table) -> Result<Option<u32>, ReadFault>
    requires long { length bytes.now ≤ INPUT_LIMIT }
    requires table { IsTable bytes.now table.now }
    ensures number { IfOk result (λ o. o ≡ slice_get (symbol_tables bytes.now) 0) }
    ensures flaw { result_err result ≡ second_table_flaw bytes.now }
{
    let mut found = None;
    for number in 1..table.count {
        if table.section(bytes, number).kind == SHT_SYMTAB {
            if found.is_some() {
                return Err(fault_at(
                    ReadKind::SymbolTable,
                    table.place_of(number) + Shdr::SH_TYPE,
                ));
            }
            found = Some(number);
        }
    }
    Ok(found)
}

/// Checks the form of the symbol table, whose header stands at `place`.
#[tactic(auto, unfolding(crate::specs::SymbolTables::table_form_checks))]
fn check_form(bytes: &[u8], table: &Table, place: u64, header: &Shdr) -> Result<(), ReadFault>
    requires table { IsTable bytes.now table.now }
    requires place { place < 2 ^ 63 }
    ensures { result_err result ≡ first_of (table_form_checks bytes.now place header.now) }
{
    if header.size == 0 || header.size % Sym::SIZE as u64 != 0 {
        return Err(fault_at(ReadKind::SymbolTable, place + Shdr::SH_SIZE));
    }
    if header.entsize != Sym::SIZE as u64 {
        return Err(fault_at(ReadKind::SymbolTable, place + Shdr::SH_ENTSIZE));
    }
    if table.section(bytes, header.link).kind != SHT_STRTAB {
        return Err(fault_at(ReadKind::SymbolTable, place + Shdr::SH_LINK));
    }
    if header.info == 0 || u64::from(header.info) > header.size / Sym::SIZE as u64 {
        return Err(fault_at(ReadKind::SymbolTable, place + Shdr::SH_INFO));
    }
    Ok(())
}

/// Reads the symbols of an object, from number 0 on.
///
/// # Errors
///
/// The first flaw of a symbol, or want of memory.
pub(crate) fn read_symbols(
    alloc: Global,
    bytes: &[u8],
    table: &Table,
    symbol_table: &SymbolTable,
) -> Result<Symbols, ReadError>
    requires long { length bytes.now ≤ INPUT_LIMIT }
    requires table { IsTable bytes.now table.now }
    requires symbol_table { IsSymbolTable bytes.now symbol_table.now }
    requires ranges { ranges_flaw bytes.now ≡ None }
    requires form { first_of (symbol_table_checks bytes.now) ≡ None }
    ensures symbols { IfOk result (λ ys. ys ≡ symbols_in bytes.now) }
    ensures sound { OnOk result (symbols_flaw bytes.now ≡ None) }
    ensures flaw { IfErr result (IsAnswer (symbols_flaw bytes.now)) }
{
    let mut symbols = Listed::from_vec(Vec::with_capacity(alloc, symbol_table.count as usize)?);
    if symbol_table.count == 0 {
        return Ok(symbols);
    }
    let strings = StringTable::new(alloc, bytes, &table.section(bytes, symbol_table.strings))?;
    symbols.push(NO_SYMBOL)?;
    for number in 1..symbol_table.count {
        let place = symbol_table.place + Sym::SIZE as u64 * number;
        let first = number < u64::from(symbol_table.locals);
        let symbol = read_symbol(bytes, table.count, &strings, first, place)?;
        symbols.push(symbol)?;
    }
    Ok(symbols)
}

/// Reads the symbol at `place`; `first` says whether it stands before the end of the LOCAL symbols.
#[tactic(auto, unfolding(crate::specs::SymbolTables::symbol_in, crate::specs::SymbolTables::symbol_checks))]
fn read_symbol(
    bytes: &[u8],
    count: u32,
    strings: &StringTable,
    first: bool,
    place: u64,
) -> Result<Symbol, ReadFault>
    requires long { length bytes.now ≤ INPUT_LIMIT }
    requires strings { IsIndexed bytes.now strings.now }
    requires place { place + Sym.SIZE ≤ length bytes.now }
    ensures symbol { IfOk result (λ y. y ≡ symbol_in bytes.now strings.now.header place) }
    ensures flaw { result_err result ≡ first_of (symbol_checks bytes.now count strings.now.header first place) }
{
    let symbol = Sym::read(bytes, place as usize);
    let name = strings.string(bytes, symbol.name);
    check_name(name, first, place, &symbol)?;
    check_place(count, place, &symbol)?;
    Ok(Symbol {
        name: name.unwrap_or(NO_NAME),
        binding: symbol.info / 16,
        kind: symbol.info % 16,
        visibility: symbol.other % 4,
        section: u32::from(symbol.shndx),
        value: symbol.value,
        size: symbol.size,
    })
}

/// Checks the name, the order and the type of a symbol, which stands at `place`.
#[tactic(auto, unfolding(crate::specs::SymbolTables::symbol_form_checks))]
fn check_name(name: Option<Range>, first: bool, place: u64, symbol: &Sym) -> Result<(), ReadFault>
    requires { place < 2 ^ 63 }
    ensures { result_err result ≡ first_of (symbol_form_checks name first place symbol.now) }
{
    let binding = symbol.info / 16;
    let kind = symbol.info % 16;
    if is_unnamed(name, symbol) {
        return Err(fault_at(ReadKind::NameRange, place));
    }
    if first != (binding == STB_LOCAL) {
        return Err(fault_at(ReadKind::SymbolTable, place + Sym::ST_INFO));
    }
    if binding > STB_WEAK {
        return Err(fault_at(
            ReadKind::Unsupported(Feature::Binding),
            place + Sym::ST_INFO,
        ));
    }
    if kind == STT_TLS {
        return Err(fault_at(ReadKind::Unsupported(Feature::Tls), place + Sym::ST_INFO));
    }
    if kind == STT_GNU_IFUNC {
        return Err(fault_at(ReadKind::Unsupported(Feature::Ifunc), place + Sym::ST_INFO));
    }
    if kind > STT_COMMON {
        return Err(fault_at(
            ReadKind::Unsupported(Feature::SymbolType),
            place + Sym::ST_INFO,
        ));
    }
    Ok(())
}

/// Checks the section, the value and the size of a symbol, which stands at `place`, in a file of `count` sections.
#[tactic(auto, unfolding(crate::specs::SymbolTables::symbol_place_checks))]
fn check_place(count: u32, place: u64, symbol: &Sym) -> Result<(), ReadFault>
    requires { place < 2 ^ 63 }
    ensures { result_err result ≡ first_of (symbol_place_checks count place symbol.now) }
{
    if symbol.shndx == SHN_XINDEX {
        return Err(fault_at(
            ReadKind::Unsupported(Feature::Extended),
            place + Sym::ST_SHNDX,
        ));
    }
    if !has_section(count, symbol) {
        return Err(fault_at(ReadKind::SymbolSection, place + Sym::ST_SHNDX));
    }
    if is_local(symbol) && (symbol.shndx == SHN_UNDEF || symbol.shndx == SHN_COMMON) {
        return Err(fault_at(ReadKind::SymbolSection, place + Sym::ST_SHNDX));
    }
    if symbol.shndx == SHN_COMMON && !is_alignment(symbol.value) {
        return Err(fault_at(ReadKind::Align, place + Sym::ST_VALUE));
    }
    if is_in_section(u32::from(symbol.shndx)) && is_too_large(symbol.value) {
        return Err(fault_at(ReadKind::SymbolSection, place + Sym::ST_VALUE));
    }
    if symbol.shndx == SHN_COMMON && is_too_large(symbol.size) {
        return Err(fault_at(ReadKind::SymbolSection, place + Sym::ST_SIZE));
    }
    Ok(())
}

fn is_local(symbol: &Sym) -> bool
    ensures { result ≡ is_local symbol.now }
{
    symbol.info / 16 == STB_LOCAL
}

/// Whether a symbol has no name, or an empty one though it isn't LOCAL.
fn is_unnamed(name: Option<Range>, symbol: &Sym) -> bool
    ensures { result ≡ is_unnamed name symbol.now }
{
    match name {
        None => true,
        Some(name) => !is_local(symbol) && name.len == 0,
    }
}

/// Whether a symbol is in one of so many sections, undefined, absolute or common.
fn has_section(count: u32, symbol: &Sym) -> bool
    ensures { result ≡ has_section count symbol.now }
{
    if symbol.shndx >= SHN_LORESERVE {
        symbol.shndx == SHN_ABS || symbol.shndx == SHN_COMMON
    } else {
        u32::from(symbol.shndx) < count
    }
}

/// Whether this is the number of a section.
pub(crate) fn is_in_section(number: u32) -> bool
    ensures { result ≡ is_in_section number }
{
    number != u32::from(SHN_UNDEF) && number < u32::from(SHN_LORESERVE)
}
