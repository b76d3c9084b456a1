// Links a library.
ghost use Rattle.std.specs.Prelude.{◌≡◌, ◌<◌, ◌^◌, ◌⊎◌, None, Some, length, map, IfErr, IfOk, OnOk};
ghost use Rattle.kl_model.specs.Carries.{Carries};
ghost use Rattle.kl_model.specs.Faults.{link_fault};
ghost use Rattle.kl_model.specs.Fit.{AreFit, IsKit};
ghost use Rattle.kl_model.specs.Graphs.{graph};
ghost use Rattle.kl_model.specs.Orders.{IsOrder, drawn_count};
ghost use Rattle.kl_model.specs.Roomy.{IsRoomy};
ghost use Rattle.kl_model.specs.declared.kit.KitKind.TheVariants.{Library};
ghost use Rattle.kl_steps.specs.RoomyLinks.{IsNoSpanOrRange};

use crate::image::library_image;
use kl_dyn::table_sizes;
use kl_got::needs;
use kl_layout::place;
use kl_model::{Input, Kit, LinkFault, Linked};
use kl_sym::resolve;
use std::alloc::Global;

/// Links a library (a shared object): `order` has the numbers of the drawn inputs in the order in which they stand. With `Ok` the image
/// and its placement carry the kit's link graph under that order: at every base that the library's page allows and for every resolver
/// of names each field leads to its target once a loader has carried out the image's relocation entries (gABI, "Dynamic Linking").
///
/// # Errors
///
/// The first fault that stands: `Doubled`, where a name has two GLOBAL definitions; `EdgeClash`, where a name that the kit gives to an
/// edge has a GLOBAL definition or a common; `NoEntry`, where the kit's entry has no definition; the first field by input, relocation
/// section and entry that has one of `Kind`, `Removed`, `Undefined`, `NotFixed`, where its value isn't the same at every base and no
/// entry for a loader fits it, and `ReadOnlyField`, where a loader would have to write outside data; `Span`, where the image would
/// span more memory than the limit; and the first field whose value is out of range, `Range`. A roomy kit has neither `Span` nor
/// `Range`, under any order.
pub fn link_library(
    alloc: Global,
    kit: &Kit,
    inputs: &[Input],
    order: &[u32],
) -> Result<Linked, LinkFault>
    requires kit { IsKit kit.now }
    requires library { kit.now.kind ≡ Library }
    requires inputs { AreFit inputs.now }
    requires order { IsOrder (drawn_count (map (λ x. x.place) inputs.now)) order.now }
    ensures ok { IfOk result (λ l. Carries l.image.items l.placement kit.now inputs.now None order.now) }
    ensures fields { IfOk result (λ l. l.fields ≡ length (graph kit.now inputs.now).fields) }
    ensures few { IfOk result (λ l. length l.placement.pieces < 2 ^ 32) }
    ensures sound { OnOk result (link_fault kit.now inputs.now None order.now ≡ None) }
    ensures err { IfErr result (λ e. (e ≡ LinkFault.NoMemory) ⊎ (link_fault kit.now inputs.now None order.now ≡ Some e)) }
    ensures roomy { IfErr result (λ e. IsRoomy kit.now (graph kit.now inputs.now) → IsNoSpanOrRange e) }
{
    let graph = resolve(alloc, kit, inputs)?;
    let needs = needs(alloc, kit, &graph)?;
    let made = table_sizes(kit, &graph, &needs);
    let placement = place(alloc, kit, &graph, None, order, &made)?;
    let image = library_image(alloc, kit, inputs, &graph, &placement, &needs)?;
    let fields = graph.fields.items().len() as u32;
    Ok(Linked {
        image,
        placement,
        fields,
    })
}
