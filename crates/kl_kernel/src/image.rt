// What the linker makes in a kernel, and the image.
ghost use Rattle.std.specs.Prelude.{ℕ, List, Option, ◌≡◌, ◌⊎◌, ◌<◌, ◌^◌, [], length, slice_get, IfErr, IfOk, OnOk, Some};
ghost use Rattle.std.specs.Option.{option_copied};
ghost use Rattle.kl_model.specs.Faults.{range_faults};
ghost use Rattle.kl_model.specs.Image.{image_bytes};
ghost use Rattle.kl_model.specs.Sizes.{made_of};
ghost use Rattle.kl_model.specs.Slots.{slots as slots_of, stubs as stubs_of};
ghost use Rattle.kl_model.specs.Tables.{made_bytes as bytes_of_area};
ghost use Rattle.kl_model.specs.declared.area.TheConstants as area;
ghost use Rattle.kl_model.specs.declared.kit.KitKind.TheVariants.{Kernel};
ghost use Rattle.kl_model.specs.declared.object.Input.{Input};
ghost use Rattle.kl_model.specs.declared.place.Gaps.{Gaps};
ghost use Rattle.kl_write.specs.LaidKits.{HasAreaAddresses, HaveSources, IsLaidKit};

use kl_base::{NoMemory, PAGE};
use kl_model::{Gaps, Graph, Input, Kit, LinkFault, Made, Needs, Placement, Target};
use kl_write::{MadeBytes, Plan, SLOT_SIZE, field_values, headers, image, slot_bytes};
use std::alloc::Global;

/// The sizes of the areas that the linker makes in a kernel. `slots` has the targets that need a slot of the global offset table.
pub fn made_areas(slots: &[Target]) -> Made
    requires { length slots.now < 2 ^ 32 }
    ensures { (kit : Kit) (graph : Graph) → kit.kind ≡ Kernel → slots.now ≡ slots_of graph → result ≡ made_of kit graph }
{
    Made {
        stubs: 0,
        tables: 0,
        got: SLOT_SIZE as u64 * slots.len() as u64,
        dynamic: 0,
    }
}

/// The bytes of the areas that the linker makes in a kernel: only the global offset table has some.
fn made_bytes(
    alloc: Global,
    kit: &Kit,
    graph: &Graph,
    placement: &Placement,
    slots: &[Target],
) -> Result<MadeBytes, NoMemory>
    requires kernel { kit.now.kind ≡ Kernel }
    requires laid { (gaps : Option Gaps) × (order : List ℕ) × IsLaidKit kit.now graph.now gaps order placement.now }
    requires addresses { HasAreaAddresses placement.now }
    requires slots { slots.now ≡ slots_of graph.now }
    ensures stubs { IfOk result (λ m. (inputs : List Input) → m.stubs.items ≡ bytes_of_area kit.now inputs graph.now placement.now area.STUBS) }
    ensures tables { IfOk result (λ m. (inputs : List Input) → m.tables.items ≡ bytes_of_area kit.now inputs graph.now placement.now area.TABLES) }
    ensures got { IfOk result (λ m. (inputs : List Input) → m.got.items ≡ bytes_of_area kit.now inputs graph.now placement.now area.GOT) }
    ensures dynamic { IfOk result (λ m. (inputs : List Input) → m.dynamic.items ≡ bytes_of_area kit.now inputs graph.now placement.now area.DYNAMIC) }
{
    Ok(MadeBytes {
        stubs: Vec::new(alloc),
        tables: Vec::new(alloc),
        got: slot_bytes(alloc, kit, graph, placement, slots)?,
        dynamic: Vec::new(alloc),
    })
}

/// The image of a kernel whose graph is laid out. `needs` has what the graph needs.
///
/// # Errors
///
/// `Range` of the first field whose value is out of the range of its type.
pub fn kernel_image(
    alloc: Global,
    kit: &Kit,
    inputs: &[Input],
    gaps: Option<&Gaps>,
    graph: &Graph,
    placement: &Placement,
    needs: &Needs,
) -> Result<Vec<u8>, LinkFault>
    requires kernel { kit.now.kind ≡ Kernel }
    requires laid { (order : List ℕ) × IsLaidKit kit.now graph.now (option_copied gaps) order placement.now }
    requires addresses { HasAreaAddresses placement.now }
    requires sources { HaveSources inputs.now graph.now }
    requires slots { needs.now.slots ≡ slots_of graph.now }
    requires stubs { needs.now.stubs ≡ stubs_of graph.now }
    ensures image { IfOk result (λ v. v.items ≡ image_bytes kit.now inputs.now graph.now (option_copied gaps.entry) placement.now) }
    ensures sound { OnOk result (range_faults placement.now graph.now ≡ []) }
    ensures err { IfErr result (λ e. (e ≡ LinkFault.NoMemory) ⊎ (slice_get (range_faults placement.now graph.now) 0 ≡ Some e)) }
{
    let values = field_values(alloc, kit, graph, placement, needs)?;
    let plan = Plan {
        kit,
        graph,
        gaps: gaps.copied(),
        placement,
        head: headers(alloc, kit, graph, placement, PAGE)?,
        made: made_bytes(alloc, kit, graph, placement, needs.slots.items())?,
        values,
    };
    Ok(image(alloc, inputs, &plan)?)
}
