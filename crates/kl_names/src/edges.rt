// The edges that a kit names, and the definition of each name.
ghost use Rattle.std.specs.Prelude.{◌≡◌, ◌⊎◌, [], IfErr, IfOk, OnOk, Some, find, is_some, ◌||◌, length, map, slice_get};
ghost use Rattle.std.specs.Option.{option_and_then, option_map};
ghost use Rattle.std.specs.Str.{bytes_eq};
ghost use Rattle.kl_model.specs.Faults.{clashes as clashes_of, no_entry};
ghost use Rattle.kl_model.specs.Names.{definition, edge_names, edge_of, occurrences, own_definition};
ghost use Rattle.kl_names.specs.Edges.{shown};
ghost use Rattle.kl_names.specs.Facts.{AreNotes};
ghost use Rattle.kl_names.specs.Numbers.{AreNumbered};

use crate::facts::NameFacts;
use crate::noted::{Notes, name_text};
use crate::numbers::Numbering;
use kl_base::NoMemory;
use kl_model::{Input, Kit, LinkFault, Target};
use std::alloc::Global;

/// A name that a kit gives to the start or the end of an area or a run.
#[derive(Clone, Copy, Debug)]
pub struct EdgeName<'a> {
    /// The name.
    pub name: &'a [u8],
    /// The edge.
    pub target: Target,
}

/// Whether a name has a GLOBAL definition or common symbols.
fn is_taken(facts: &NameFacts) -> bool
    ensures { result ≡ (is_some facts.now.global || is_some facts.now.common) }
{
    facts.global.is_some() || facts.common.is_some()
}

/// The edge of each name, by the name's number. The kit's edges are in line order.
///
/// # Errors
///
/// `EdgeClash` of the first edge by kit line whose name has a GLOBAL definition or a common.
pub fn edge_targets(
    alloc: Global,
    kit: &Kit,
    inputs: &[Input],
    numbering: &Numbering<'_>,
    notes: &Notes,
    edges: &[EdgeName<'_>],
) -> Result<Vec<Option<Target>>, LinkFault>
    requires numbered { AreNumbered (occurrences inputs.now) numbering.now.index numbering.now.numbers.items }
    requires notes { AreNotes kit.now inputs.now numbering.now.index notes.now }
    requires edges { shown edges.now ≡ edge_names kit.now }
    ensures ok { IfOk result (λ t. t.items ≡ map (edge_of kit.now) numbering.now.index) }
    ensures sound { OnOk result (clashes_of kit.now inputs.now ≡ []) }
    ensures err { IfErr result (λ e. (e ≡ LinkFault.NoMemory) ⊎ (slice_get (clashes_of kit.now inputs.now) 0 ≡ Some e)) }
{
    let mut targets = vec![in alloc; None; numbering.index.names().len()]?;
    for edge in edges {
        if let Some(number) = numbering.index.find(edge.name) {
            let number = number as usize;
            if is_taken(&notes.facts[number]) {
                return Err(LinkFault::EdgeClash {
                    name: name_text(alloc, edge.name)?,
                });
            }
            targets[number] = targets[number].or(Some(edge.target));
        }
    }
    Ok(targets)
}

/// The definition of each name, by the name's number: that by symbols, or else its edge. The only error is want of memory.
pub fn definitions(
    alloc: Global,
    kit: &Kit,
    inputs: &[Input],
    numbering: &Numbering<'_>,
    own: &[Option<Target>],
    edges: &[Option<Target>],
) -> Result<Vec<Option<Target>>, NoMemory>
    requires own { own.now ≡ map (own_definition kit.now inputs.now) numbering.now.index }
    requires edges { edges.now ≡ map (edge_of kit.now) numbering.now.index }
    ensures { IfOk result (λ d. d.items ≡ map (definition kit.now inputs.now) numbering.now.index) }
{
    let mut definitions = Vec::with_capacity(alloc, own.len())?;
    for (number, target) in own.iter().enumerate() {
        definitions.push(target.or(edges[number]))?;
    }
    Ok(definitions)
}

/// The first edge of a name.
fn first_edge(edges: &[EdgeName<'_>], name: &[u8]) -> Option<Target>
    ensures { result ≡ option_map (λ e. e.1) (find (λ e. bytes_eq e.0 name.now) (shown edges.now)) }
{
    for edge in edges {
        if edge.name == name {
            return Some(edge.target);
        }
    }
    None
}

/// The definition of a name, which may have no symbol.
fn lookup(
    kit: &Kit,
    inputs: &[Input],
    numbering: &Numbering<'_>,
    definitions: &[Option<Target>],
    edges: &[EdgeName<'_>],
    name: &[u8],
) -> Option<Target>
    requires numbered { AreNumbered (occurrences inputs.now) numbering.now.index numbering.now.numbers.items }
    requires definitions { definitions.now ≡ map (definition kit.now inputs.now) numbering.now.index }
    requires edges { shown edges.now ≡ edge_names kit.now }
    ensures { result ≡ definition kit.now inputs.now name.now }
{
    match numbering.index.find(name) {
        Some(number) => definitions[number as usize],
        None => first_edge(edges, name),
    }
}

/// Where the entry of a kit leads, if it has one.
///
/// # Errors
///
/// `NoEntry` where the entry's name has no definition.
pub fn entry_of(
    alloc: Global,
    kit: &Kit,
    inputs: &[Input],
    numbering: &Numbering<'_>,
    definitions: &[Option<Target>],
    edges: &[EdgeName<'_>],
) -> Result<Option<Target>, LinkFault>
    requires numbered { AreNumbered (occurrences inputs.now) numbering.now.index numbering.now.numbers.items }
    requires definitions { definitions.now ≡ map (definition kit.now inputs.now) numbering.now.index }
    requires edges { shown edges.now ≡ edge_names kit.now }
    ensures ok { IfOk result (λ t. t ≡ option_and_then (definition kit.now inputs.now) kit.now.entry) }
    ensures sound { OnOk result (no_entry kit.now inputs.now ≡ []) }
    ensures err { IfErr result (λ e. (e ≡ LinkFault.NoMemory) ⊎ (slice_get (no_entry kit.now inputs.now) 0 ≡ Some e)) }
{
    let Some(entry) = &kit.entry else {
        return Ok(None);
    };
    let name = entry.items();
    match lookup(kit, inputs, numbering, definitions, edges, name) {
        Some(target) => Ok(Some(target)),
        None => Err(LinkFault::NoEntry {
            name: name_text(alloc, name)?,
        }),
    }
}
