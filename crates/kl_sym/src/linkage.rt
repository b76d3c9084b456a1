// How the names of a library are seen by other images (gABI, "Symbol Visibility").
ghost use Rattle.std.specs.Prelude.{◌≡◌, List, ℕ, map, IfOk};
ghost use Rattle.kl_model.specs.Kits.{may_export as may_export_name};
ghost use Rattle.kl_model.specs.Names.{definition as definition_of};
ghost use Rattle.kl_model.specs.Names.{occurrences, own_definition};
ghost use Rattle.kl_model.specs.declared.kit.KitKind.TheVariants.{Library};
ghost use Rattle.kl_model.specs.declared.object.Input.{Input};
ghost use Rattle.kl_names.specs.Facts.{facts_of};
ghost use Rattle.kl_names.specs.Numbers.{AreNumbered};
ghost use Rattle.kl_sym.specs.Defined.{AreDefined};
ghost use Rattle.kl_sym.specs.Linkage.{linkage_of};

use crate::names::DefinedNames;
use kl_base::NoMemory;
use kl_elf::abi::{STV_DEFAULT, STV_PROTECTED};
use kl_model::{Input, Kit, Target};
use kl_names::{NameFacts, Numbering};
use std::alloc::Global;

/// How a name is seen by other images.
#[derive(Clone, Copy, Debug, PartialEq, Eq)]
pub struct Linkage {
    /// Other images may use it.
    pub exported: bool,
    /// Another image may define it in its place.
    pub replaceable: bool,
    /// It may be looked for in other images.
    pub importable: bool,
}

/// Whether a library may export each name, by the name's number: each, or where it has `export` lines those that they name. The
/// only error is want of memory.
fn exportable_names(
    alloc: Global,
    kit: &Kit,
    inputs: &[Input],
    numbering: &Numbering<'_>,
) -> Result<Vec<bool>, NoMemory>
    requires numbered { AreNumbered (occurrences inputs.now) numbering.now.index numbering.now.numbers.items }
    ensures { IfOk result (λ m. m.items ≡ map (may_export_name Library kit.now.exports) numbering.now.index) }
{
    let lines = kit.exports.items();
    let mut marks = vec![in alloc; lines.is_empty(); numbering.index.names().len()]?;
    for line in lines {
        if let Some(number) = numbering.index.find(line.items()) {
            marks[number as usize] = true;
        }
    }
    Ok(marks)
}

/// The linkage of a name of a library. `own` is its definition by symbols, and `definition` that one, or else its edge.
fn name_linkage(
    kit: &Kit,
    may_export: bool,
    facts: &NameFacts,
    own: Option<Target>,
    definition: Option<Target>,
) -> Linkage
    requires library { kit.now.kind ≡ Library }
    ensures { (inputs : List Input) (name : List ℕ) → may_export ≡ may_export_name Library kit.now.exports name → facts.now ≡ facts_of kit.now inputs name → own ≡ own_definition kit.now inputs name → definition ≡ definition_of kit.now inputs name → result ≡ linkage_of kit.now inputs name }
{
    let is_default = facts.visibility == STV_DEFAULT;
    let is_visible = is_default || facts.visibility == STV_PROTECTED;
    let exported = may_export && own.is_some() && is_visible;
    Linkage {
        exported,
        replaceable: !kit.symbolic && is_default && exported,
        importable: !kit.refuse && is_default && definition.is_none(),
    }
}

/// The linkage of each name of a library, by the name's number. The only error is want of memory.
pub fn linkages(
    alloc: Global,
    kit: &Kit,
    inputs: &[Input],
    names: &DefinedNames<'_>,
) -> Result<Vec<Linkage>, NoMemory>
    requires library { kit.now.kind ≡ Library }
    requires names { AreDefined kit.now inputs.now names.now }
    ensures { IfOk result (λ l. l.items ≡ map (linkage_of kit.now inputs.now) names.now.numbering.index) }
{
    let exportable = exportable_names(alloc, kit, inputs, &names.numbering)?;
    let mut linkages = Vec::with_capacity(alloc, exportable.len())?;
    for (number, may_export) in exportable.iter().enumerate() {
        linkages.push(name_linkage(
            kit,
            *may_export,
            &names.notes.facts[number],
            names.own[number],
            names.definitions[number],
        ))?;
    }
    Ok(linkages)
}
