// The dynamic tables of a library and its dynamic section.
ghost use Rattle.std.specs.Prelude.{ℕ, List, ◌≡◌, flat_map, IfOk, None};
ghost use Rattle.kl_dyn.specs.Parts.{AreParts};
ghost use Rattle.kl_model.specs.Fit.{IsKit};
ghost use Rattle.kl_model.specs.Sizes.{tables_of};
ghost use Rattle.kl_model.specs.Slots.{jump_entries, rela_entries, slots, stubs};
ghost use Rattle.kl_model.specs.Tables.{dynamic_of, relas_of, tables_bytes};
ghost use Rattle.kl_model.specs.Written.{dyn_bytes};
ghost use Rattle.kl_model.specs.declared.kit.KitKind.TheVariants.{Library};
ghost use Rattle.kl_write.specs.LaidKits.{HasAreaAddresses, IsLaidKit};

use crate::bytes::pad_to;
use crate::count::entry_counts;
use crate::dynamic::dynamic_section;
use crate::entries::{Entries, push_relas, relocation_entries};
use crate::found::HashAt;
use crate::names::push_strings;
use crate::size::{Parts, table_parts};
use crate::symbols::push_symbols;
use crate::table::push_hash;
use kl_base::NoMemory;
use kl_model::{Graph, Input, Kit, Needs, Placement};
use std::alloc::Global;

/// The dynamic tables of a library, and its dynamic section.
#[derive(Debug, Drop)]
pub struct DynamicTables {
    /// The bytes of the tables: hash table, symbols, strings and the entries for the loader.
    pub tables: Vec<u8>,
    /// The bytes of the dynamic section.
    pub dynamic: Vec<u8>,
    /// Where the hash table, the symbols and the strings stand in the tables.
    pub hash: HashAt,
}

/// The bytes of the tables, whose parts stand at these places, with these entries for the loader.
fn table_bytes(
    alloc: Global,
    kit: &Kit,
    inputs: &[Input],
    graph: &Graph,
    placement: &Placement,
    parts: &Parts,
    entries: &Entries,
) -> Result<Vec<u8>, NoMemory>
    requires library { kit.now.kind ≡ Library }
    requires laid { (order : List ℕ) × IsLaidKit kit.now graph.now None order placement.now }
    requires addresses { HasAreaAddresses placement.now }
    requires parts { AreParts (tables_of kit.now graph.now) parts.now }
    requires relas { entries.now.relas.items ≡ relas_of placement.now graph.now (rela_entries graph.now) }
    requires jumps { entries.now.jumps.items ≡ relas_of placement.now graph.now (jump_entries graph.now) }
    ensures { IfOk result (λ v. v.items ≡ tables_bytes kit.now inputs.now graph.now placement.now) }
{
    let mut bytes = Vec::with_capacity(alloc, parts.stop as usize)?;
    push_hash(alloc, &mut bytes, inputs, graph)?;
    pad_to(&mut bytes, parts.symbols as usize)?;
    push_symbols(&mut bytes, graph, placement)?;
    push_strings(&mut bytes, kit, inputs, graph)?;
    pad_to(&mut bytes, parts.relas as usize)?;
    push_relas(&mut bytes, &entries.relas)?;
    push_relas(&mut bytes, &entries.jumps)?;
    Ok(bytes)
}

/// The dynamic tables and the dynamic section of a library that is laid out (gABI, "Dynamic Section"). `needs` has what its graph
/// needs.
pub fn tables(
    alloc: Global,
    kit: &Kit,
    inputs: &[Input],
    graph: &Graph,
    needs: &Needs,
    placement: &Placement,
) -> Result<DynamicTables, NoMemory>
    requires kit { IsKit kit.now }
    requires library { kit.now.kind ≡ Library }
    requires laid { (order : List ℕ) × IsLaidKit kit.now graph.now None order placement.now }
    requires addresses { HasAreaAddresses placement.now }
    requires slots { needs.now.slots ≡ slots graph.now }
    requires stubs { needs.now.stubs ≡ stubs graph.now }
    ensures tables { IfOk result (λ t. t.tables.items ≡ tables_bytes kit.now inputs.now graph.now placement.now) }
    ensures dynamic { IfOk result (λ t. t.dynamic.items ≡ flat_map dyn_bytes (dynamic_of kit.now graph.now placement.now)) }
    ensures hash { IfOk result (λ t. t.hash.hash ≡ 0) }
    ensures symbols { IfOk result (λ t. t.hash.symbols ≡ (tables_of kit.now graph.now).symbols) }
    ensures strings { IfOk result (λ t. t.hash.strings ≡ (tables_of kit.now graph.now).strings) }
{
    let counts = entry_counts(graph, needs);
    let parts = table_parts(kit, graph, counts);
    let entries = relocation_entries(alloc, graph, placement, needs)?;
    let tables = table_bytes(alloc, kit, inputs, graph, placement, &parts, &entries)?;
    let dynamic = dynamic_section(alloc, kit, graph, placement, counts)?;
    let hash = HashAt {
        hash: 0,
        symbols: parts.symbols,
        strings: parts.strings,
    };
    Ok(DynamicTables {
        tables,
        dynamic,
        hash,
    })
}
