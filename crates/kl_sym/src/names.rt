// Where each name of a kit is defined.
ghost use Rattle.std.specs.Prelude.{◌≡◌, ◌⊎◌, [], Some, map, slice_get, IfErr, IfOk, OnOk};
ghost use Rattle.std.specs.Option.{option_and_then};
ghost use Rattle.kl_model.specs.Fit.{AreFit, IsKit};
ghost use Rattle.kl_model.specs.Dynamic.{dyn_name, dynamic_names};
ghost use Rattle.kl_model.specs.Graphs.{common_pieces as pieces_of_commons};
ghost use Rattle.kl_model.specs.Graphs.{section_pieces as pieces_of_sections};
ghost use Rattle.kl_model.specs.Names.{definition, occurrences};
ghost use Rattle.kl_names.specs.Numbers.{AreNumbered};
ghost use Rattle.kl_names.specs.Tables.{piece_tables};
ghost use Rattle.kl_sym.specs.Defined.{AreDefined};
ghost use Rattle.kl_sym.specs.Leads.{named_target};
ghost use Rattle.kl_sym.specs.NameFaults.{name_faults};

use crate::dynamic::library_names;
use kl_model::{DynName, Input, Kit, KitKind, LinkFault, Piece, Target};
use kl_names::{
    Notes, Numbering, PieceTable, common_pieces, definitions, edge_names, edge_targets, entry_of,
    note_symbols, number_names, own_definitions,
};
use std::alloc::Global;

/// The names of a kit, what their symbols say and where each is defined.
#[derive(Drop)]
pub struct DefinedNames<'a> {
    /// The names by number.
    pub numbering: Numbering<'a>,
    /// What the symbols of each name say.
    pub notes: Notes,
    /// The pieces of the commons that hold.
    pub commons: Vec<Piece>,
    /// The definition of each name by symbols, by its number.
    pub own: Vec<Option<Target>>,
    /// The definition of each name, by its number.
    pub definitions: Vec<Option<Target>>,
    /// Where the entry leads.
    pub entry: Option<Target>,
}

/// The names of a kit, and where each leads.
#[derive(Drop)]
pub struct Names<'a> {
    /// The names by number.
    pub numbering: Numbering<'a>,
    /// The pieces of the commons that hold.
    pub commons: Vec<Piece>,
    /// The dynamic names, in ascending bytes.
    pub dynamic: Vec<DynName>,
    /// The target of each name, by its number.
    pub targets: Vec<Option<Target>>,
    /// Where the entry leads.
    pub entry: Option<Target>,
}

/// The definitions of the names of a kit, from the pieces of its sections and their tables (gABI, "Symbol Table").
///
/// # Errors
///
/// As `resolve_names`.
fn defined_names<'a>(
    alloc: Global,
    kit: &Kit,
    inputs: &'a [Input],
    pieces: &[Piece],
    tables: &[PieceTable],
) -> Result<DefinedNames<'a>, LinkFault>
    requires kit { IsKit kit.now }
    requires inputs { AreFit inputs.now }
    requires pieces { pieces.now ≡ pieces_of_sections kit.now inputs.now }
    requires tables { tables.now ≡ piece_tables kit.now inputs.now }
    ensures defined { IfOk result (AreDefined kit.now inputs.now) }
    ensures commons { IfOk result (λ n. n.commons.items ≡ pieces_of_commons kit.now inputs.now) }
    ensures entry { IfOk result (λ n. n.entry ≡ option_and_then (definition kit.now inputs.now) kit.now.entry) }
    ensures sound { OnOk result (name_faults kit.now inputs.now ≡ []) }
    ensures err { IfErr result (λ e. (e ≡ LinkFault.NoMemory) ⊎ (slice_get (name_faults kit.now inputs.now) 0 ≡ Some e)) }
{
    let numbering = number_names(alloc, inputs)?;
    let notes = note_symbols(alloc, kit, inputs, &numbering, tables)?;
    let commons = common_pieces(alloc, kit, inputs, &numbering, &notes)?;
    let edges = edge_names(alloc, kit)?;
    let targets = edge_targets(alloc, kit, inputs, &numbering, &notes, &edges)?;
    let kept = pieces.len() as u32;
    let own = own_definitions(
        alloc, kit, inputs, tables, &numbering, &notes, &commons, kept,
    )?;
    let definitions = definitions(alloc, kit, inputs, &numbering, &own, &targets)?;
    let entry = entry_of(alloc, kit, inputs, &numbering, &definitions, &edges)?;
    Ok(DefinedNames {
        numbering,
        notes,
        commons: commons.pieces,
        own,
        definitions,
        entry,
    })
}

/// Resolves the names of a kit, from the pieces of its sections and their tables (gABI, "Symbol Table"). A kernel has no dynamic
/// name.
///
/// # Errors
///
/// `Doubled` of the first name with two GLOBAL definitions, by the second in kit order; `EdgeClash` of the first edge by kit line
/// whose name has a GLOBAL definition or a common; `NoEntry` where the entry has no definition.
pub fn resolve_names<'a>(
    alloc: Global,
    kit: &Kit,
    inputs: &'a [Input],
    pieces: &[Piece],
    tables: &[PieceTable],
) -> Result<Names<'a>, LinkFault>
    requires kit { IsKit kit.now }
    requires inputs { AreFit inputs.now }
    requires pieces { pieces.now ≡ pieces_of_sections kit.now inputs.now }
    requires tables { tables.now ≡ piece_tables kit.now inputs.now }
    ensures numbered { IfOk result (λ n. AreNumbered (occurrences inputs.now) n.numbering.index n.numbering.numbers.items) }
    ensures commons { IfOk result (λ n. n.commons.items ≡ pieces_of_commons kit.now inputs.now) }
    ensures dynamic { IfOk result (λ n. n.dynamic.items ≡ map (dyn_name kit.now inputs.now) (dynamic_names kit.now inputs.now)) }
    ensures targets { IfOk result (λ n. n.targets.items ≡ map (named_target kit.now inputs.now) n.numbering.index) }
    ensures entry { IfOk result (λ n. n.entry ≡ option_and_then (definition kit.now inputs.now) kit.now.entry) }
    ensures sound { OnOk result (name_faults kit.now inputs.now ≡ []) }
    ensures err { IfErr result (λ e. (e ≡ LinkFault.NoMemory) ⊎ (slice_get (name_faults kit.now inputs.now) 0 ≡ Some e)) }
{
    let names = defined_names(alloc, kit, inputs, pieces, tables)?;
    match kit.kind {
        KitKind::Kernel => Ok(Names {
            numbering: names.numbering,
            commons: names.commons,
            dynamic: Vec::new(alloc),
            targets: names.definitions,
            entry: names.entry,
        }),
        KitKind::Library => {
            let library = library_names(alloc, kit, inputs, tables, &names)?;
            Ok(Names {
                numbering: names.numbering,
                commons: names.commons,
                dynamic: library.names,
                targets: library.targets,
                entry: names.entry,
            })
        }
    }
}
