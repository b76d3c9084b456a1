// What the dynamic symbol table says of each name.
ghost use Rattle.std.specs.Prelude.{◌≡◌, List, ℕ, map, slice_get, Some, IfOk, IfSome};
ghost use Rattle.std.specs.Option.{option_map};
ghost use Rattle.kl_model.specs.Dynamic.{dyn_name, dynamic_names, first_of};
ghost use Rattle.kl_model.specs.Graphs.{symbol_at as symbol_in};
ghost use Rattle.kl_model.specs.Names.{occurrences_of, own_definition};
ghost use Rattle.kl_model.specs.declared.kit.Kit.{Kit};
ghost use Rattle.kl_names.specs.Definitions.{Stands};
ghost use Rattle.kl_names.specs.Facts.{facts_of, stands_at};
ghost use Rattle.kl_sym.specs.Defined.{AreDefined};
ghost use Rattle.kl_sym.specs.Shows.{attributes_of, shown, shown_of};

use crate::names::DefinedNames;
use kl_base::{NoMemory, Range};
use kl_elf::abi::{STB_WEAK, STT_NOTYPE, STT_OBJECT};
use kl_model::{DynName, Input, Kit, Symbol, Target};
use kl_names::{NameFacts, SymbolAt};
use std::alloc::Global;

/// What the dynamic symbol table says of a name beside its value.
#[derive(Clone, Copy, Debug, PartialEq, Eq)]
struct Attributes {
    weak: bool,
    /// Its type, one of `STT_*`.
    kind: u8,
    /// In bytes.
    size: u64,
}

/// Where the text of a name stands: an input, and a place in its file.
#[derive(Clone, Copy, Debug, PartialEq, Eq)]
struct NamePlace {
    input: u32,
    name: Range,
}

/// The symbol at this place.
fn symbol_at(inputs: &[Input], at: SymbolAt) -> &Symbol
    requires { Stands inputs.now at }
    ensures { result.now ≡ symbol_in inputs.now at.input at.number }
{
    &inputs[at.input as usize].object.symbols.items()[at.number as usize]
}

/// The attributes of a name that the symbol at this place defines.
fn symbol_attributes(inputs: &[Input], at: SymbolAt) -> Attributes
    requires { Stands inputs.now at }
    ensures { result ≡ attributes_of (symbol_in inputs.now at.input at.number) }
{
    let symbol = symbol_at(inputs, at);
    Attributes {
        weak: symbol.binding == STB_WEAK,
        kind: symbol.kind,
        size: symbol.size,
    }
}

/// The attributes of a name, by what defines it: its GLOBAL definition, its common, its first WEAK definition. A common is GLOBAL; an
/// undefined name is WEAK where all its symbols are.
fn name_attributes(inputs: &[Input], facts: &NameFacts) -> Attributes
    requires global { IfSome facts.now.global (Stands inputs.now) }
    requires weak { IfSome facts.now.weak (Stands inputs.now) }
    ensures { (kit : Kit) (name : List ℕ) → facts.now ≡ facts_of kit inputs.now name → shown result ≡ shown_of kit inputs.now name }
{
    match (facts.global, facts.common, facts.weak) {
        (Some(at), _, _) => symbol_attributes(inputs, at),
        (None, Some(common), _) => Attributes {
            weak: false,
            kind: STT_OBJECT,
            size: common.size,
        },
        (None, None, Some(at)) => symbol_attributes(inputs, at),
        (None, None, None) => Attributes {
            weak: facts.all_weak,
            kind: STT_NOTYPE,
            size: 0,
        },
    }
}

/// Where the text of a name stands, by the first of its symbols that isn't LOCAL.
fn name_place(inputs: &[Input], first: Option<SymbolAt>) -> NamePlace
    requires { IfSome first (Stands inputs.now) }
    ensures input { (name : List ℕ) → first ≡ option_map stands_at (slice_get (occurrences_of inputs.now name) 0) → result.input ≡ (first_of inputs.now name).input }
    ensures name { (name : List ℕ) → first ≡ option_map stands_at (slice_get (occurrences_of inputs.now name) 0) → result.name ≡ (first_of inputs.now name).symbol.name }
{
    match first {
        Some(at) => NamePlace {
            input: at.input,
            name: symbol_at(inputs, at).name,
        },
        None => NamePlace {
            input: 0,
            name: Range { at: 0, len: 0 },
        },
    }
}

/// The dynamic name of which the symbols say this, and which they define there, if they do.
fn name_entry(inputs: &[Input], facts: &NameFacts, own: Option<Target>) -> DynName
    requires first { IfSome facts.now.first (Stands inputs.now) }
    requires global { IfSome facts.now.global (Stands inputs.now) }
    requires weak { IfSome facts.now.weak (Stands inputs.now) }
    ensures { (kit : Kit) (name : List ℕ) → facts.now ≡ facts_of kit inputs.now name → own ≡ own_definition kit inputs.now name → result ≡ dyn_name kit inputs.now name }
{
    let place = name_place(inputs, facts.first);
    let attributes = name_attributes(inputs, facts);
    DynName {
        input: place.input,
        name: place.name,
        exported: own,
        weak: attributes.weak,
        visibility: facts.visibility,
        kind: attributes.kind,
        size: attributes.size,
    }
}

/// The dynamic names of a library, which have these numbers. The only error is want of memory.
pub fn name_entries(
    alloc: Global,
    kit: &Kit,
    inputs: &[Input],
    names: &DefinedNames<'_>,
    numbers: &[u32],
) -> Result<Vec<DynName>, NoMemory>
    requires names { AreDefined kit.now inputs.now names.now }
    requires numbers { map (slice_get names.now.numbering.index) numbers.now ≡ map Some (dynamic_names kit.now inputs.now) }
    ensures { IfOk result (λ d. d.items ≡ map (dyn_name kit.now inputs.now) (dynamic_names kit.now inputs.now)) }
{
    let mut entries = Vec::with_capacity(alloc, numbers.len())?;
    for number in numbers {
        let number = *number as usize;
        entries.push(name_entry(inputs, &names.notes.facts[number], names.own[number]))?;
    }
    Ok(entries)
}
