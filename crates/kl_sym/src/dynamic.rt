// The dynamic names of a library, in ascending bytes, and the target of each of its names.
ghost use Rattle.std.specs.Prelude.{◌≡◌, ◌&&◌, ◌||◌, All, filter, map, slice_get, Some, IfOk};
ghost use Rattle.kl_model.specs.Dynamic.{dyn_name, dynamic_names, is_used, name_number};
ghost use Rattle.kl_model.specs.Fit.{AreFit};
ghost use Rattle.kl_model.specs.Names.{definition as definition_of};
ghost use Rattle.kl_model.specs.Names.{occurrences};
ghost use Rattle.kl_model.specs.declared.kit.KitKind.TheVariants.{Library};
ghost use Rattle.kl_names.specs.Numbers.{AreNumbered};
ghost use Rattle.kl_names.specs.Tables.{piece_tables};
ghost use Rattle.kl_sym.specs.Defined.{AreDefined};
ghost use Rattle.kl_sym.specs.Leads.{named_target, target_for as target_of};
ghost use Rattle.kl_sym.specs.Linkage.{is_dynamic, linkage_of};

use crate::entries::name_entries;
use crate::linkage::{Linkage, linkages};
use crate::names::DefinedNames;
use crate::used::used_names;
use kl_base::NoMemory;
use kl_model::{DynName, Input, Kit, Target};
use kl_names::{Numbering, PieceTable};
use std::alloc::Global;

/// The dynamic names of a library, and where each of its names leads.
#[derive(Drop)]
pub struct LibraryNames {
    /// The dynamic names, in ascending bytes.
    pub names: Vec<DynName>,
    /// The target of each name, by its number.
    pub targets: Vec<Option<Target>>,
}

/// A name, and its number.
type NumberedName<'a> = (&'a [u8], u32);

/// Whether a name of this linkage is a dynamic name: it is exported, or imported since a field uses it.
fn is_listed(linkage: Linkage, used: bool) -> bool
    ensures { result ≡ (linkage.exported || (linkage.importable && used)) }
{
    linkage.exported || linkage.importable && used
}

/// The dynamic names in order of number.
fn listed_names<'a>(
    alloc: Global,
    kit: &Kit,
    inputs: &[Input],
    numbering: &Numbering<'a>,
    linkages: &[Linkage],
    used: &[bool],
) -> Result<Vec<NumberedName<'a>>, NoMemory>
    requires inputs { AreFit inputs.now }
    requires numbered { AreNumbered (occurrences inputs.now) numbering.now.index numbering.now.numbers.items }
    requires linkages { linkages.now ≡ map (linkage_of kit.now inputs.now) numbering.now.index }
    requires used { used.now ≡ map (is_used kit.now inputs.now) numbering.now.index }
    ensures names { IfOk result (λ l. map (λ p. p.0.now) l.items ≡ filter (is_dynamic kit.now inputs.now) numbering.now.index) }
    ensures numbers { IfOk result (λ l. All (λ p. slice_get numbering.now.index p.1 ≡ Some p.0.now) l.items) }
{
    let names = numbering.index.names();
    let mut listed = Vec::with_capacity(alloc, names.len())?;
    for (number, linkage) in linkages.iter().enumerate() {
        if is_listed(*linkage, used[number]) {
            listed.push((names[number], number as u32))?;
        }
    }
    Ok(listed)
}

/// The numbers of the dynamic names, in ascending bytes of the names.
fn sorted_numbers(
    alloc: Global,
    kit: &Kit,
    inputs: &[Input],
    numbering: &Numbering<'_>,
    linkages: &[Linkage],
    used: &[bool],
) -> Result<Vec<u32>, NoMemory>
    requires inputs { AreFit inputs.now }
    requires numbered { AreNumbered (occurrences inputs.now) numbering.now.index numbering.now.numbers.items }
    requires linkages { linkages.now ≡ map (linkage_of kit.now inputs.now) numbering.now.index }
    requires used { used.now ≡ map (is_used kit.now inputs.now) numbering.now.index }
    ensures { IfOk result (λ n. map (slice_get numbering.now.index) n.items ≡ map Some (dynamic_names kit.now inputs.now)) }
{
    let mut listed = listed_names(alloc, kit, inputs, numbering, linkages, used)?;
    listed.sort_unstable();
    Ok(listed.iter().map(|listed| listed.1).collect(alloc)?)
}

/// The number of each name among the dynamic names, by the name's number; 0 where it isn't one of them. The only error is want of
/// memory.
fn name_numbers(
    alloc: Global,
    kit: &Kit,
    inputs: &[Input],
    numbering: &Numbering<'_>,
    numbers: &[u32],
) -> Result<Vec<u32>, NoMemory>
    requires inputs { AreFit inputs.now }
    requires numbered { AreNumbered (occurrences inputs.now) numbering.now.index numbering.now.numbers.items }
    requires numbers { map (slice_get numbering.now.index) numbers.now ≡ map Some (dynamic_names kit.now inputs.now) }
    ensures { IfOk result (λ p. p.items ≡ map (name_number kit.now inputs.now) numbering.now.index) }
{
    let mut places = vec![in alloc; 0; numbering.index.names().len()]?;
    for (place, number) in numbers.iter().enumerate() {
        places[*number as usize] = place as u32;
    }
    Ok(places)
}

/// The target of a name of this linkage: itself, its definition, or itself where it may be imported.
fn name_target(linkage: Linkage, definition: Option<Target>, name: Target) -> Option<Target>
    ensures { result ≡ target_of linkage.replaceable definition linkage.importable name }
{
    if linkage.replaceable {
        Some(name)
    } else if linkage.importable {
        definition.or(Some(name))
    } else {
        definition
    }
}

/// The target of each name of a library, by the name's number. The only error is want of memory.
fn name_targets(
    alloc: Global,
    kit: &Kit,
    inputs: &[Input],
    numbering: &Numbering<'_>,
    linkages: &[Linkage],
    definitions: &[Option<Target>],
    places: &[u32],
) -> Result<Vec<Option<Target>>, NoMemory>
    requires linkages { linkages.now ≡ map (linkage_of kit.now inputs.now) numbering.now.index }
    requires definitions { definitions.now ≡ map (definition_of kit.now inputs.now) numbering.now.index }
    requires places { places.now ≡ map (name_number kit.now inputs.now) numbering.now.index }
    ensures { IfOk result (λ t. t.items ≡ map (named_target kit.now inputs.now) numbering.now.index) }
{
    let mut targets = Vec::with_capacity(alloc, linkages.len())?;
    for (number, linkage) in linkages.iter().enumerate() {
        let name = Target::Name(places[number]);
        targets.push(name_target(*linkage, definitions[number], name))?;
    }
    Ok(targets)
}

/// The dynamic names of a library, and where each of its names leads. The kit's pieces are in the tables. The only error is want of
/// memory.
pub fn library_names(
    alloc: Global,
    kit: &Kit,
    inputs: &[Input],
    tables: &[PieceTable],
    names: &DefinedNames<'_>,
) -> Result<LibraryNames, NoMemory>
    requires library { kit.now.kind ≡ Library }
    requires inputs { AreFit inputs.now }
    requires tables { tables.now ≡ piece_tables kit.now inputs.now }
    requires names { AreDefined kit.now inputs.now names.now }
    ensures names { IfOk result (λ l. l.names.items ≡ map (dyn_name kit.now inputs.now) (dynamic_names kit.now inputs.now)) }
    ensures targets { IfOk result (λ l. l.targets.items ≡ map (named_target kit.now inputs.now) names.now.numbering.index) }
{
    let numbering = &names.numbering;
    let linkages = linkages(alloc, kit, inputs, names)?;
    let used = used_names(alloc, kit, inputs, numbering, tables)?;
    let numbers = sorted_numbers(alloc, kit, inputs, numbering, &linkages, &used)?;
    let places = name_numbers(alloc, kit, inputs, numbering, &numbers)?;
    Ok(LibraryNames {
        names: name_entries(alloc, kit, inputs, names, &numbers)?,
        targets: name_targets(
            alloc,
            kit,
            inputs,
            numbering,
            &linkages,
            &names.definitions,
            &places,
        )?,
    })
}
