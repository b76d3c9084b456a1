// The dynamic section of a library.
ghost use Rattle.std.specs.Prelude.{List, ℕ, ◌≡◌, ◌+◌, ◌*◌, ◌^◌, ◌<◌, ◌≤◌, ◌++◌, [], if◌then◌else◌, length, flat_map, sum_by, None, IfOk, OnOk};
ghost use Rattle.kl_base.specs.declared.limits.TheConstants.{FIELD_COUNT_LIMIT, SPAN_LIMIT};
ghost use Rattle.kl_model.specs.Fit.{IsKit};
ghost use Rattle.kl_model.specs.Laid.{area_at};
ghost use Rattle.kl_model.specs.Sizes.{ended_size, tables_of};
ghost use Rattle.kl_model.specs.Slots.{jump_entries, rela_entries};
ghost use Rattle.kl_model.specs.Sound.{IsSoundGraph};
ghost use Rattle.kl_model.specs.Tables.{area_size as size_of_area, dynamic_of, needed_from};
ghost use Rattle.kl_model.specs.Written.{dyn_bytes};
ghost use Rattle.kl_model.specs.declared.area.TheConstants as area;
ghost use Rattle.kl_model.specs.declared.kit.Kit.{Kit};
ghost use Rattle.kl_model.specs.declared.kit.KitKind.TheVariants.{Library};
ghost use Rattle.kl_write.specs.LaidKits.{HasAreaAddresses, IsLaidKit};
ghost use Rattle.kl_dyn.specs.Rows.{function_tags, rows, table_tags};

use crate::bytes::push_dyn;
use crate::count::EntryCounts;
use crate::size::{has_bytes, names_size, soname_size, strings_size, table_parts, tag_count};
use kl_base::NoMemory;
use kl_elf::abi::{
    DF_BIND_NOW, DT_FINI, DT_FINI_ARRAY, DT_FINI_ARRAYSZ, DT_FLAGS, DT_HASH, DT_INIT,
    DT_INIT_ARRAY, DT_INIT_ARRAYSZ, DT_JMPREL, DT_NEEDED, DT_NULL, DT_PLTGOT, DT_PLTREL,
    DT_PLTRELSZ, DT_RELA, DT_RELAENT, DT_RELASZ, DT_SONAME, DT_STRSZ, DT_STRTAB, DT_SYMENT,
    DT_SYMTAB,
};
use kl_elf::{Dyn, Rela, Sym};
use kl_model::area::{FINI, FINI_ARRAY, GOT, INIT, INIT_ARRAY, TABLES};
use kl_model::{Graph, Kit, Placement, Word};
use std::alloc::Global;

/// An entry.
fn row(tag: u64, value: u64) -> Dyn
    ensures tag { result.tag ≡ tag }
    ensures value { result.value ≡ value }
{
    Dyn { tag, value }
}

/// The address at which an area starts.
fn area_start(placement: &Placement, area: u32) -> u64
    requires base { placement.now.base ≡ 0 }
    requires known { area < length placement.now.areas }
    ensures { result ≡ (area_at placement.now area).start }
{
    placement.areas.items()[area as usize].start
}

/// The size of an area, in bytes.
fn area_size(placement: &Placement, area: u32) -> u64
    requires base { placement.now.base ≡ 0 }
    requires known { area < length placement.now.areas }
    ensures { result ≡ size_of_area placement.now area }
{
    let placed = placement.areas.items()[area as usize];
    placed.end.saturating_sub(placed.start)
}

/// Pushes entries, if they are wanted.
fn push_if(entries: &mut Vec<Dyn>, wanted: bool, more: &[Dyn]) -> Result<(), NoMemory>
    ensures { OnOk result (entries.new.items ≡ entries.old.items ++ (if wanted then more.now else [])) }
{
    if wanted {
        entries.extend_from_slice(more)?;
    }
    Ok(())
}

/// Pushes the entries of the needed libraries, whose names stand in the strings from a place on.
fn push_needed(entries: &mut Vec<Dyn>, needed: &[Word], at: u64) -> Result<(), NoMemory>
    requires { at + sum_by ended_size needed.now ≤ 2 ^ 53 }
    ensures { OnOk result (entries.new.items ≡ entries.old.items ++ needed_from at needed.now) }
{
    let mut at = at;
    for name in needed {
        entries.push(row(DT_NEEDED, at))?;
        at += 1 + name.items().len() as u64;
    }
    Ok(())
}

/// Pushes the entries of the functions that run when the library is loaded and unloaded.
fn push_functions(
    entries: &mut Vec<Dyn>,
    graph: &Graph,
    placement: &Placement,
) -> Result<(), NoMemory>
    requires base { placement.now.base ≡ 0 }
    requires known { area.FIRST_RUN ≤ length placement.now.areas }
    ensures { OnOk result ((kit : Kit) → entries.new.items ≡ entries.old.items ++ rows kit graph.now placement.now (function_tags graph.now)) }
{
    let init = [row(DT_INIT, area_start(placement, INIT))];
    let fini = [row(DT_FINI, area_start(placement, FINI))];
    let init_array = [
        row(DT_INIT_ARRAY, area_start(placement, INIT_ARRAY)),
        row(DT_INIT_ARRAYSZ, area_size(placement, INIT_ARRAY)),
    ];
    let fini_array = [
        row(DT_FINI_ARRAY, area_start(placement, FINI_ARRAY)),
        row(DT_FINI_ARRAYSZ, area_size(placement, FINI_ARRAY)),
    ];
    push_if(entries, has_bytes(graph, INIT), &init)?;
    push_if(entries, has_bytes(graph, FINI), &fini)?;
    push_if(entries, has_bytes(graph, INIT_ARRAY), &init_array)?;
    push_if(entries, has_bytes(graph, FINI_ARRAY), &fini_array)
}

/// Pushes the entries of the tables: of the hash table, the symbols, the strings and the relocation entries.
fn push_tables(
    entries: &mut Vec<Dyn>,
    kit: &Kit,
    graph: &Graph,
    placement: &Placement,
    counts: EntryCounts,
) -> Result<(), NoMemory>
    requires kit { IsKit kit.now }
    requires sound { IsSoundGraph kit.now graph.now }
    requires relas { counts.relas ≡ length (rela_entries graph.now) }
    requires jumps { counts.jumps ≡ length (jump_entries graph.now) }
    requires few { counts.relas + counts.jumps ≤ 2 * FIELD_COUNT_LIMIT }
    requires base { placement.now.base ≡ 0 }
    requires known { area.FIRST_RUN ≤ length placement.now.areas }
    requires room { (area_at placement.now area.TABLES).start + (tables_of kit.now graph.now).stop ≤ SPAN_LIMIT }
    ensures { OnOk result (entries.new.items ≡ entries.old.items ++ rows kit.now graph.now placement.now (table_tags graph.now)) }
{
    let start = area_start(placement, TABLES);
    let parts = table_parts(kit, graph, counts);
    let names = [
        row(DT_HASH, start),
        row(DT_STRTAB, start + parts.strings),
        row(DT_SYMTAB, start + parts.symbols),
        row(DT_STRSZ, strings_size(kit, graph)),
        row(DT_SYMENT, Sym::SIZE as u64),
    ];
    let relas = [
        row(DT_RELA, start + parts.relas),
        row(DT_RELASZ, parts.jumps - parts.relas),
        row(DT_RELAENT, Rela::SIZE as u64),
    ];
    let jumps = [
        row(DT_JMPREL, start + parts.jumps),
        row(DT_PLTRELSZ, parts.stop - parts.jumps),
        row(DT_PLTREL, DT_RELA),
        row(DT_PLTGOT, area_start(placement, GOT)),
    ];
    entries.extend_from_slice(&names)?;
    push_if(entries, counts.relas != 0, &relas)?;
    push_if(entries, counts.jumps != 0, &jumps)
}

/// The entries of the dynamic section.
fn dynamic_entries(
    alloc: Global,
    kit: &Kit,
    graph: &Graph,
    placement: &Placement,
    counts: EntryCounts,
) -> Result<Vec<Dyn>, NoMemory>
    requires kit { IsKit kit.now }
    requires sound { IsSoundGraph kit.now graph.now }
    requires relas { counts.relas ≡ length (rela_entries graph.now) }
    requires jumps { counts.jumps ≡ length (jump_entries graph.now) }
    requires few { counts.relas + counts.jumps ≤ 2 * FIELD_COUNT_LIMIT }
    requires base { placement.now.base ≡ 0 }
    requires known { area.FIRST_RUN ≤ length placement.now.areas }
    requires room { (area_at placement.now area.TABLES).start + (tables_of kit.now graph.now).stop ≤ SPAN_LIMIT }
    ensures { IfOk result (λ v. v.items ≡ dynamic_of kit.now graph.now placement.now) }
{
    let needed = kit.needed.items();
    let names = names_size(kit, graph);
    let count = needed.len() + tag_count(kit, graph, counts) as usize;
    let mut entries = Vec::with_capacity(alloc, count)?;
    push_needed(&mut entries, needed, names + soname_size(kit))?;
    push_if(&mut entries, kit.soname.is_some(), &[row(DT_SONAME, names)])?;
    push_functions(&mut entries, graph, placement)?;
    push_tables(&mut entries, kit, graph, placement, counts)?;
    entries.extend_from_slice(&[row(DT_FLAGS, DF_BIND_NOW), row(DT_NULL, 0)])?;
    Ok(entries)
}

/// The bytes of entries.
fn bytes_of_entries(alloc: Global, entries: &[Dyn]) -> Result<Vec<u8>, NoMemory>
    ensures { IfOk result (λ v. v.items ≡ flat_map dyn_bytes entries.now) }
{
    let mut bytes = Vec::with_capacity(alloc, Dyn::SIZE * entries.len())?;
    for entry in entries {
        push_dyn(&mut bytes, entry)?;
    }
    Ok(bytes)
}

/// The bytes of the dynamic section of a library (gABI, "Dynamic Section"), whose tables have so many relocation entries. The only
/// error is want of memory.
pub fn dynamic_section(
    alloc: Global,
    kit: &Kit,
    graph: &Graph,
    placement: &Placement,
    counts: EntryCounts,
) -> Result<Vec<u8>, NoMemory>
    requires kit { IsKit kit.now }
    requires library { kit.now.kind ≡ Library }
    requires laid { (order : List ℕ) × IsLaidKit kit.now graph.now None order placement.now }
    requires addresses { HasAreaAddresses placement.now }
    requires relas { counts.relas ≡ length (rela_entries graph.now) }
    requires jumps { counts.jumps ≡ length (jump_entries graph.now) }
    requires few { counts.relas + counts.jumps ≤ 2 * FIELD_COUNT_LIMIT }
    ensures { IfOk result (λ v. v.items ≡ flat_map dyn_bytes (dynamic_of kit.now graph.now placement.now)) }
{
    let entries = dynamic_entries(alloc, kit, graph, placement, counts)?;
    bytes_of_entries(alloc, &entries)
}
