// What the symbols of each name say, and the first name with two GLOBAL definitions.
ghost use Rattle.std.specs.Prelude.{◌≡◌, ◌⊎◌, ◌+◌, ◌++◌, ◌<◌, ◌^◌, ◌&&◌, ◌==◌, [], false, true, get_or, is_none, is_some, length, map, slice_get, slice_set, Some, None, IfErr, IfOk, OnOk};
ghost use Rattle.kl_model.specs.Lists.{only_if};
ghost use Rattle.kl_model.specs.Names.{occurrences};
ghost use Rattle.kl_model.specs.Faults.{doubled};
ghost use Rattle.kl_model.specs.Fit.{AreFit};
ghost use Rattle.kl_names.specs.Facts.{AreNotes};
ghost use Rattle.kl_names.specs.Numbers.{AreNumbered};
ghost use Rattle.kl_names.specs.Noted.{AreNoted, IsDouble, defines, noted};
ghost use Rattle.kl_names.specs.Tables.{piece_table, piece_tables};
ghost use Rattle.kl_names.specs.Walked.{occurring_before};

use crate::facts::{NO_FACTS, NameFacts, SymbolAt, note};
use crate::numbers::{Numbering, symbol_name};
use kl_base::{Listed, NoMemory};
use kl_elf::abi::{SHN_ABS, SHN_COMMON, STB_GLOBAL, STB_LOCAL};
use kl_model::{Input, Kit, LinkFault, NameText, Symbol};
use std::alloc::Global;

/// The number of each section's piece, by section number, where the section is kept.
pub type PieceTable = Listed<Option<u32>>;

/// What the symbols of each name say.
#[derive(Drop)]
pub struct Notes {
    /// What they say of each name, by its number.
    pub facts: Vec<NameFacts>,
    /// The numbers of the names that have common symbols, in the order of the first of those.
    pub commons: Vec<u32>,
}

/// Notes while symbols are walked in kit order, and how many that aren't LOCAL were seen.
#[derive(Drop)]
struct Walk {
    facts: Vec<NameFacts>,
    commons: Vec<u32>,
    next: usize,
}

/// Whether a symbol of the input of this table is a definition: it is absolute, or in a kept section.
fn is_definition(table: &PieceTable, symbol: &Symbol) -> bool
    ensures { result ≡ defines table.now symbol.now }
{
    if symbol.section == u32::from(SHN_ABS) {
        return true;
    }
    if symbol.section == u32::from(SHN_COMMON) {
        return false;
    }
    matches!(table.items().get(symbol.section as usize), Some(Some(_)))
}

/// A copy of a name.
pub fn name_text(alloc: Global, name: &[u8]) -> Result<NameText, NoMemory>
    ensures { IfOk result (λ n. n ≡ name.now) }
{
    Ok(Listed::from_vec(Vec::from_slice(alloc, name)?))
}

/// What a name's symbols say with one more.
///
/// # Errors
///
/// `Doubled` where both it and an earlier one are GLOBAL definitions.
fn note_one(
    alloc: Global,
    facts: &NameFacts,
    name: &[u8],
    symbol: &Symbol,
    at: SymbolAt,
    defines: bool,
) -> Result<NameFacts, LinkFault>
    ensures noted { IfOk result (λ f. f ≡ noted facts.now symbol.now at defines) }
    ensures single { OnOk result (((symbol.now.binding == STB_GLOBAL) && defines ≡ false) ⊎ (facts.now.global ≡ None)) }
    ensures err { IfErr result (λ e. (e ≡ LinkFault.NoMemory) ⊎ (((symbol.now.binding == STB_GLOBAL) && defines ≡ true) × IsDouble name.now facts.now.global at e)) }
{
    if symbol.binding == STB_GLOBAL && defines {
        if let Some(first) = facts.global {
            return Err(LinkFault::Doubled {
                name: name_text(alloc, name)?,
                first: (first.input, first.number),
                second: (at.input, at.number),
            });
        }
    }
    Ok(note(facts, symbol, at, defines))
}

/// Puts what is said of a name in its place, after one symbol more.
fn put_facts(walk: &mut Walk, number: u32, facts: NameFacts) -> Result<(), NoMemory>
    requires place { number < length walk.old.facts.items }
    requires next { walk.old.next < 2 ^ 32 }
    ensures facts { OnOk result (walk.new.facts.items ≡ slice_set walk.old.facts.items number facts) }
    ensures commons { OnOk result (walk.new.commons.items ≡ walk.old.commons.items ++ only_if (is_none (get_or walk.old.facts.items number facts).common && is_some facts.common) number) }
    ensures next { OnOk result (walk.new.next ≡ walk.old.next + 1) }
{
    let place = number as usize;
    if walk.facts[place].common.is_none() && facts.common.is_some() {
        walk.commons.push(number)?;
    }
    walk.facts[place] = facts;
    walk.next += 1;
    Ok(())
}

/// Notes the symbols of input `i`, whose pieces are in the table. Those of the inputs before it are noted.
///
/// # Errors
///
/// The first name with two GLOBAL definitions, as `Doubled`.
fn note_input(
    alloc: Global,
    walk: &mut Walk,
    kit: &Kit,
    inputs: &[Input],
    numbering: &Numbering<'_>,
    i: usize,
    table: &PieceTable,
) -> Result<(), LinkFault>
    requires inputs { AreFit inputs.now }
    requires input { i < length inputs.now }
    requires table { table.now ≡ piece_table kit.now inputs.now i }
    requires numbered { AreNumbered (occurrences inputs.now) numbering.now.index numbering.now.numbers.items }
    requires before { AreNoted kit.now inputs.now (occurring_before inputs.now i) numbering.now.index walk.old.facts.items walk.old.commons.items walk.old.next }
    ensures noted { OnOk result (AreNoted kit.now inputs.now (occurring_before inputs.now (i + 1)) numbering.now.index walk.new.facts.items walk.new.commons.items walk.new.next) }
    ensures err { IfErr result (λ e. (e ≡ LinkFault.NoMemory) ⊎ (slice_get (doubled kit.now inputs.now) 0 ≡ Some e)) }
{
    let input = &inputs[i];
    for (number, symbol) in input.object.symbols.items().iter().enumerate() {
        if symbol.binding != STB_LOCAL {
            let place = numbering.numbers[walk.next];
            let at = SymbolAt {
                input: i as u32,
                number: number as u32,
            };
            let defines = is_definition(table, symbol);
            let name = symbol_name(input, symbol);
            let facts = note_one(
                alloc,
                &walk.facts[place as usize],
                name,
                symbol,
                at,
                defines,
            )?;
            put_facts(walk, place, facts)?;
        }
    }
    Ok(())
}

/// What the symbols of each name say, by its number. The kit's pieces are in the tables.
///
/// # Errors
///
/// The first name with two GLOBAL definitions, by the second in kit order, as `Doubled`.
pub fn note_symbols(
    alloc: Global,
    kit: &Kit,
    inputs: &[Input],
    numbering: &Numbering<'_>,
    tables: &[PieceTable],
) -> Result<Notes, LinkFault>
    requires inputs { AreFit inputs.now }
    requires tables { tables.now ≡ piece_tables kit.now inputs.now }
    requires numbered { AreNumbered (occurrences inputs.now) numbering.now.index numbering.now.numbers.items }
    ensures notes { IfOk result (AreNotes kit.now inputs.now numbering.now.index) }
    ensures single { OnOk result (doubled kit.now inputs.now ≡ []) }
    ensures err { IfErr result (λ e. (e ≡ LinkFault.NoMemory) ⊎ (slice_get (doubled kit.now inputs.now) 0 ≡ Some e)) }
{
    let mut walk = Walk {
        facts: vec![in alloc; NO_FACTS; numbering.index.names().len()]?,
        commons: Vec::new(alloc),
        next: 0,
    };
    for (i, table) in tables.iter().enumerate() {
        note_input(alloc, &mut walk, kit, inputs, numbering, i, table)?;
    }
    Ok(Notes {
        facts: walk.facts,
        commons: walk.commons,
    })
}
