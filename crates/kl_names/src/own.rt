// Where the name of each number is defined by symbols.
ghost use Rattle.std.specs.Prelude.{◌≡◌, [], List, ℕ, IfOk, IfSome, Some, length, map, slice_get, slice_index_or};
ghost use Rattle.kl_model.specs.Fit.{AreFit};
ghost use Rattle.kl_model.specs.Kept.{input_at, no_symbol};
ghost use Rattle.kl_model.specs.Names.{common_names, kept_numbers, occurrences};
ghost use Rattle.kl_model.specs.Names.{own_definition as own_definition_of};
ghost use Rattle.kl_model.specs.declared.kit.Kit.{Kit};
ghost use Rattle.kl_names.specs.Definitions.{Stands, common_target, symbol_place};
ghost use Rattle.kl_names.specs.Facts.{AreNotes, facts_of};
ghost use Rattle.kl_names.specs.Numbers.{AreNumbered};
ghost use Rattle.kl_names.specs.Tables.{piece_tables};

use crate::commons::Commons;
use crate::facts::{NameFacts, SymbolAt};
use crate::noted::{Notes, PieceTable};
use crate::numbers::Numbering;
use kl_base::NoMemory;
use kl_elf::abi::SHN_ABS;
use kl_model::{Input, Kit, Symbol, Target};
use std::alloc::Global;

/// Where a symbol of the input of this table leads, if it is absolute or in a kept section.
pub fn symbol_place(table: &PieceTable, symbol: &Symbol) -> Option<Target>
    ensures { result ≡ symbol_place table.now symbol.now }
{
    if symbol.section == u32::from(SHN_ABS) {
        return Some(Target::Abs(symbol.value));
    }
    match table.items().get(symbol.section as usize) {
        Some(Some(piece)) => Some(Target::Place {
            piece: *piece,
            offset: symbol.value,
        }),
        _ => None,
    }
}

/// Where the symbol at this place leads.
fn place_at(inputs: &[Input], tables: &[PieceTable], at: SymbolAt) -> Option<Target>
    requires stands { Stands inputs.now at }
    requires count { length tables.now ≡ length inputs.now }
    ensures { result ≡ symbol_place (slice_index_or tables.now at.input []) (slice_index_or (input_at inputs.now at.input).object.symbols at.number no_symbol) }
{
    let symbol = &inputs[at.input as usize].object.symbols.items()[at.number as usize];
    symbol_place(&tables[at.input as usize], symbol)
}

/// The definition of a name by symbols: its GLOBAL definition, its common, its first WEAK definition.
fn own_definition(
    inputs: &[Input],
    tables: &[PieceTable],
    facts: &NameFacts,
    common: Option<Target>,
) -> Option<Target>
    requires count { length tables.now ≡ length inputs.now }
    requires global { IfSome facts.now.global (Stands inputs.now) }
    requires weak { IfSome facts.now.weak (Stands inputs.now) }
    ensures { (kit : Kit) (name : List ℕ) → tables.now ≡ piece_tables kit inputs.now → facts.now ≡ facts_of kit inputs.now name → common ≡ common_target kit inputs.now name → result ≡ own_definition_of kit inputs.now name }
{
    match (facts.global, common, facts.weak) {
        (Some(at), _, _) => place_at(inputs, tables, at),
        (None, Some(target), _) => Some(target),
        (None, None, Some(at)) => place_at(inputs, tables, at),
        (None, None, None) => None,
    }
}

/// Where the common of each name leads, by the name's number. There are `kept` pieces of sections.
fn common_targets(
    alloc: Global,
    kit: &Kit,
    inputs: &[Input],
    numbering: &Numbering<'_>,
    commons: &[u32],
    kept: u32,
) -> Result<Vec<Option<Target>>, NoMemory>
    requires inputs { AreFit inputs.now }
    requires numbered { AreNumbered (occurrences inputs.now) numbering.now.index numbering.now.numbers.items }
    requires commons { map (slice_get numbering.now.index) commons.now ≡ map Some (common_names kit.now inputs.now) }
    requires kept { kept ≡ length (kept_numbers kit.now inputs.now) }
    ensures { IfOk result (λ t. t.items ≡ map (common_target kit.now inputs.now) numbering.now.index) }
{
    let mut targets = vec![in alloc; None; numbering.index.names().len()]?;
    for (k, number) in commons.iter().enumerate() {
        targets[*number as usize] = Some(Target::Place {
            piece: kept + k as u32,
            offset: 0,
        });
    }
    Ok(targets)
}

/// The definition of each name by symbols, by the name's number (gABI, "Symbol Table"). The kit's pieces are in the tables; there are
/// `kept` pieces of sections, and those of the commons follow them. The only error is want of memory.
pub fn own_definitions(
    alloc: Global,
    kit: &Kit,
    inputs: &[Input],
    tables: &[PieceTable],
    numbering: &Numbering<'_>,
    notes: &Notes,
    commons: &Commons,
    kept: u32,
) -> Result<Vec<Option<Target>>, NoMemory>
    requires inputs { AreFit inputs.now }
    requires tables { tables.now ≡ piece_tables kit.now inputs.now }
    requires numbered { AreNumbered (occurrences inputs.now) numbering.now.index numbering.now.numbers.items }
    requires notes { AreNotes kit.now inputs.now numbering.now.index notes.now }
    requires commons { map (slice_get numbering.now.index) commons.now.numbers.items ≡ map Some (common_names kit.now inputs.now) }
    requires kept { kept ≡ length (kept_numbers kit.now inputs.now) }
    ensures { IfOk result (λ d. d.items ≡ map (own_definition_of kit.now inputs.now) numbering.now.index) }
{
    let places = common_targets(alloc, kit, inputs, numbering, &commons.numbers, kept)?;
    let mut definitions = Vec::with_capacity(alloc, notes.facts.len())?;
    for (number, facts) in notes.facts.iter().enumerate() {
        definitions.push(own_definition(inputs, tables, facts, places[number]))?;
    }
    Ok(definitions)
}
