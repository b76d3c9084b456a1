// What the linker makes in a library, and the image.
ghost use Rattle.std.specs.Prelude.{ℕ, List, Option, ◌≡◌, ◌⊎◌, [], slice_get, IfErr, IfOk, None, OnOk, Some};
ghost use Rattle.kl_loading.specs.TablesReadBack.{HasTexts};
ghost use Rattle.kl_model.specs.Faults.{range_faults};
ghost use Rattle.kl_model.specs.Fit.{IsKit};
ghost use Rattle.kl_model.specs.Image.{image_bytes};
ghost use Rattle.kl_model.specs.Slots.{slots as slots_of, stubs as stubs_of};
ghost use Rattle.kl_model.specs.Tables.{made_bytes as bytes_of_area};
ghost use Rattle.kl_model.specs.declared.area.TheConstants as area;
ghost use Rattle.kl_model.specs.declared.kit.KitKind.TheVariants.{Library};
ghost use Rattle.kl_write.specs.LaidKits.{HasAreaAddresses, HaveSources, IsLaidKit};

use crate::stubs::stub_area;
use kl_base::NoMemory;
use kl_dyn::tables;
use kl_layout::page;
use kl_model::{Graph, Input, Kit, LinkFault, Needs, Placement};
use kl_write::{MadeBytes, Plan, field_values, headers, image, slot_bytes};
use std::alloc::Global;

/// The bytes of the areas that the linker makes in a library: stubs, dynamic tables, global offset table and dynamic section.
fn made_bytes(
    alloc: Global,
    kit: &Kit,
    inputs: &[Input],
    graph: &Graph,
    placement: &Placement,
    needs: &Needs,
) -> Result<MadeBytes, NoMemory>
    requires kit { IsKit kit.now }
    requires library { kit.now.kind ≡ Library }
    requires laid { (order : List ℕ) × IsLaidKit kit.now graph.now None order placement.now }
    requires addresses { HasAreaAddresses placement.now }
    requires texts { HasTexts inputs.now graph.now }
    requires slots { needs.now.slots ≡ slots_of graph.now }
    requires stubs { needs.now.stubs ≡ stubs_of graph.now }
    ensures stubs { IfOk result (λ m. m.stubs.items ≡ bytes_of_area kit.now inputs.now graph.now placement.now area.STUBS) }
    ensures tables { IfOk result (λ m. m.tables.items ≡ bytes_of_area kit.now inputs.now graph.now placement.now area.TABLES) }
    ensures got { IfOk result (λ m. m.got.items ≡ bytes_of_area kit.now inputs.now graph.now placement.now area.GOT) }
    ensures dynamic { IfOk result (λ m. m.dynamic.items ≡ bytes_of_area kit.now inputs.now graph.now placement.now area.DYNAMIC) }
{
    let stubs = stub_area(alloc, graph, placement, needs)?;
    let got = slot_bytes(alloc, kit, graph, placement, needs.slots.items())?;
    let tables = tables(alloc, kit, inputs, graph, needs, placement)?;
    Ok(MadeBytes {
        stubs,
        tables: tables.tables,
        got,
        dynamic: tables.dynamic,
    })
}

/// The image of a library whose graph is laid out. `needs` has what the graph needs.
///
/// # Errors
///
/// `Range` of the first field whose value is out of the range of its type.
pub fn library_image(
    alloc: Global,
    kit: &Kit,
    inputs: &[Input],
    graph: &Graph,
    placement: &Placement,
    needs: &Needs,
) -> Result<Vec<u8>, LinkFault>
    requires kit { IsKit kit.now }
    requires library { kit.now.kind ≡ Library }
    requires laid { (order : List ℕ) × IsLaidKit kit.now graph.now None order placement.now }
    requires addresses { HasAreaAddresses placement.now }
    requires sources { HaveSources inputs.now graph.now }
    requires texts { HasTexts inputs.now graph.now }
    requires slots { needs.now.slots ≡ slots_of graph.now }
    requires stubs { needs.now.stubs ≡ stubs_of graph.now }
    ensures image { IfOk result (λ v. v.items ≡ image_bytes kit.now inputs.now graph.now None placement.now) }
    ensures sound { OnOk result (range_faults placement.now graph.now ≡ []) }
    ensures err { IfErr result (λ e. (e ≡ LinkFault.NoMemory) ⊎ (slice_get (range_faults placement.now graph.now) 0 ≡ Some e)) }
{
    let values = field_values(alloc, kit, graph, placement, needs)?;
    let plan = Plan {
        kit,
        graph,
        gaps: None,
        placement,
        head: headers(alloc, kit, graph, placement, page(kit, graph))?,
        made: made_bytes(alloc, kit, inputs, graph, placement, needs)?,
        values,
    };
    Ok(image(alloc, inputs, &plan)?)
}
