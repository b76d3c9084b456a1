//! Reads an ELF64 relocatable object: what stands in its bytes, or its first flaw.
#![tactic(auto)]

ghost use Rattle.std.specs.Prelude.{◌≡◌, ◌≤◌, ◌<◌, ◌^◌, length, IfOk, OnOk, IfErr, None};
ghost use Rattle.kl_model.specs.Fit.{IsFit};
ghost use Rattle.kl_model.specs.declared.object.Input.{Input};
ghost use Rattle.kl_rel.specs.Flaws.{IsAnswer};
ghost use Rattle.kl_rel.specs.Objects.{flaw, object};
ghost use Rattle.kl_rel.specs.Limits.{AreCounts, IsAnswerWithin};
ghost use Rattle.kl_base.specs.declared.limits.TheConstants.{INPUT_LIMIT};

mod display;
mod entry;
mod fault;
mod first_flaw;
mod group;
mod relocation;
mod scan;
mod section;
mod string;
mod symbol;
mod table;

pub use fault::{Feature, LimitError, ReadError, ReadFault, ReadKind};
use first_flaw::check_relocations;
use group::read_groups;
use kl_model::{Object, Section, Symbol};
use relocation::{entry_count, read_relocations};
use section::read_sections;
use std::alloc::Global;
use symbol::{read_symbol_table, read_symbols};
use table::{check_ranges, read_table};

/// Reads an object: its sections, symbols, relocation entries and section groups, by the gABI and the psABI.
///
/// # Errors
///
/// The first flaw of the bytes, with its place in the file, or want of memory.
pub fn read_object(alloc: Global, bytes: &[u8]) -> Result<Object, ReadError>
    requires { length bytes.now ≤ INPUT_LIMIT }
    ensures object { IfOk result (λ o. o ≡ object bytes.now) }
    ensures sound { OnOk result (flaw bytes.now ≡ None) }
    ensures flaw { IfErr result (IsAnswer (flaw bytes.now)) }
    ensures fit { IfOk result (λ o. (x : Input) → x.bytes ≡ bytes.now → x.object ≡ o → IsFit x) }
{
    let table = read_table(bytes)?;
    check_ranges(bytes, &table)?;
    let sections = read_sections(alloc, bytes, &table)?;
    let symbol_table = read_symbol_table(bytes, &table)?;
    let symbols = read_symbols(alloc, bytes, &table, &symbol_table)?;
    let fields = read_relocations(alloc, bytes, &table, &symbol_table)?;
    let groups = read_groups(alloc, bytes, &table, sections.items(), symbols.items())?;
    Ok(Object {
        sections,
        symbols,
        fields,
        groups,
    })
}

/// Reads an object of at most `limit` relocation entries. Of one that has more only the flaws are looked for, which takes memory
/// by the length of the file: its sections may name one range of it many times.
///
/// # Errors
///
/// The first flaw of the bytes, with its place in the file; too many entries, where there is none; or want of memory.
pub fn read_object_within(alloc: Global, bytes: &[u8], limit: u64) -> Result<Object, LimitError>
    requires { length bytes.now ≤ INPUT_LIMIT }
    ensures object { IfOk result (λ o. o ≡ object bytes.now) }
    ensures sound { OnOk result (flaw bytes.now ≡ None) }
    ensures few { OnOk result (length (object bytes.now).fields ≤ limit) }
    ensures refused { IfErr result (IsAnswerWithin (flaw bytes.now) (object bytes.now) limit) }
    ensures fit { IfOk result (λ o. (x : Input) → x.bytes ≡ bytes.now → x.object ≡ o → IsFit x) }
{
    let table = read_table(bytes)?;
    if entry_count(bytes, &table, limit).is_some() {
        return Ok(read_object(alloc, bytes)?);
    }
    let counts = check_object(alloc, bytes)?;
    Err(LimitError::TooManyFields {
        sections: counts.sections,
        symbols: counts.symbols,
    })
}

/// How many sections and symbols an object has.
#[derive(Clone, Copy)]
struct Counts {
    sections: usize,
    symbols: usize,
}

/// Looks for the flaws of an object, and counts its sections and symbols.
///
/// # Errors
///
/// The first flaw of the bytes, or want of memory.
fn check_object(alloc: Global, bytes: &[u8]) -> Result<Counts, ReadError>
    requires { length bytes.now ≤ INPUT_LIMIT }
    ensures counts { IfOk result (λ k. AreCounts (object bytes.now) k.sections k.symbols) }
    ensures sound { OnOk result (flaw bytes.now ≡ None) }
    ensures flaw { IfErr result (IsAnswer (flaw bytes.now)) }
{
    let table = read_table(bytes)?;
    check_ranges(bytes, &table)?;
    let sections = read_sections(alloc, bytes, &table)?;
    let symbol_table = read_symbol_table(bytes, &table)?;
    let symbols = read_symbols(alloc, bytes, &table, &symbol_table)?;
    check_relocations(alloc, bytes, &table, &symbol_table)?;
    read_groups(alloc, bytes, &table, sections.items(), symbols.items())?;
    Ok(Counts {
        sections: section_count(sections.items()),
        symbols: symbol_count(symbols.items()),
    })
}

/// How many sections a list has.
fn section_count(sections: &[Section]) -> usize
    ensures count { result ≡ length sections.now }
    ensures short { result < 2 ^ 63 }
{
    sections.len()
}

/// How many symbols a list has.
fn symbol_count(symbols: &[Symbol]) -> usize
    ensures count { result ≡ length symbols.now }
    ensures short { result < 2 ^ 63 }
{
    symbols.len()
}
