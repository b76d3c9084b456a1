// The link graph of a kit.
ghost use Rattle.std.specs.Prelude.{◌≡◌, ◌⊎◌, map, None, Some, IfErr, IfOk, OnOk};
ghost use Rattle.kl_model.specs.Faults.{resolve_fault};
ghost use Rattle.kl_model.specs.Fit.{AreFit, IsKit};
ghost use Rattle.kl_model.specs.Graphs.{graph};
ghost use Rattle.kl_model.specs.Sound.{IsSoundGraph};

use crate::fields::fields;
use crate::names::resolve_names;
use crate::pieces::section_pieces;
use kl_base::Listed;
use kl_model::{Graph, Input, Kit, LinkFault, Part};
use std::alloc::{AllocError, Global};

/// The part of the kit in which each input stands.
fn parts_of(alloc: Global, inputs: &[Input]) -> Result<Vec<Part>, AllocError>
    ensures { IfOk result (λ v. v.items ≡ map (λ x. x.place) inputs.now) }
{
    inputs.iter().map(|input| input.place).collect(alloc)
}

/// Resolves the names of a kit (gABI, "Symbol Table"): the kept sections, the commons, where each kept field leads, and the dynamic
/// names, of which a kernel has none: those that a library exports, and those that its kept fields import. The graph is sound: each
/// number in it is one of its list, and each field lies in the bytes of a piece.
///
/// # Errors
///
/// The first fault that stands, in this order: `Doubled`, where a name has two GLOBAL definitions, by the second in kit order;
/// `EdgeClash`, where a name that the kit gives to an edge has a GLOBAL definition or a common, by kit line; `NoEntry`, where the
/// kit's entry has no definition; and the first field by input, relocation section and entry that has a fault: `Kind`, where its
/// type isn't linked, `Removed`, where it leads to a section that isn't kept, or `Undefined`, where its name has no definition and
/// isn't imported. Of a library's fields also `NotFixed`, where the value depends on the base and no dynamic relocation fits it
/// (psABI, "Relocation"), or `ReadOnlyField`, where the loader would have to write outside data.
pub fn resolve(alloc: Global, kit: &Kit, inputs: &[Input]) -> Result<Graph, LinkFault>
    requires kit { IsKit kit.now }
    requires inputs { AreFit inputs.now }
    ensures ok { IfOk result (λ g. g ≡ graph kit.now inputs.now) }
    ensures graph { IfOk result (IsSoundGraph kit.now) }
    ensures sound { OnOk result (resolve_fault kit.now inputs.now ≡ None) }
    ensures err { IfErr result (λ e. (e ≡ LinkFault.NoMemory) ⊎ (resolve_fault kit.now inputs.now ≡ Some e)) }
{
    let pieced = section_pieces(alloc, kit, inputs)?;
    let names = resolve_names(alloc, kit, inputs, &pieced.pieces, &pieced.tables)?;
    let fields = fields(
        alloc,
        kit,
        inputs,
        &pieced.tables,
        &names.numbering,
        &names.targets,
    )?;
    let mut pieces = pieced.pieces;
    pieces.extend_from_slice(&names.commons)?;
    Ok(Graph {
        pieces: Listed::from_vec(pieces),
        fields: Listed::from_vec(fields),
        names: Listed::from_vec(names.dynamic),
        entry: names.entry,
        parts: Listed::from_vec(parts_of(alloc, inputs)?),
    })
}
