// Links a kernel.
ghost use Rattle.std.specs.Prelude.{◌≡◌, ◌<◌, ◌^◌, ◌⊎◌, None, Some, length, map, IfErr, IfOk, IfSome, OnOk};
ghost use Rattle.std.specs.Option.{option_copied};
ghost use Rattle.kl_model.specs.Carries.{Carries};
ghost use Rattle.kl_model.specs.Faults.{link_fault};
ghost use Rattle.kl_model.specs.Fit.{AreFit, AreGaps, IsKit};
ghost use Rattle.kl_model.specs.Graphs.{graph};
ghost use Rattle.kl_model.specs.Orders.{IsOrder, drawn_count};
ghost use Rattle.kl_model.specs.Roomy.{IsRoomy};
ghost use Rattle.kl_model.specs.declared.kit.KitKind.TheVariants.{Kernel};
ghost use Rattle.kl_steps.specs.RoomyLinks.{IsNoSpanOrRange};

use crate::image::{kernel_image, made_areas};
use kl_got::needs;
use kl_layout::place;
use kl_model::{Gaps, Input, Kit, LinkFault, Linked};
use kl_sym::resolve;
use std::alloc::Global;

/// Links a kernel: `order` has the numbers of the drawn inputs in the order in which they stand, and `gaps` the sizes of the gaps, if
/// there are some. With `Ok` the image and its placement carry the kit's link graph under that order and those gaps.
///
/// # Errors
///
/// The first fault that stands: `Doubled`, where a name has two GLOBAL definitions; `EdgeClash`, where a name that the kit gives to an
/// edge has a GLOBAL definition or a common; `NoEntry`, where the kit's entry has no definition; the first field by input, relocation
/// section and entry that has one of `Kind`, `Removed` and `Undefined`; `Span`, where the image would span more memory than the limit;
/// and the first field whose value is out of range, `Range`. A roomy kit has neither `Span` nor `Range`, under any order and with any
/// gaps.
pub fn link_kernel(
    alloc: Global,
    kit: &Kit,
    inputs: &[Input],
    gaps: Option<&Gaps>,
    order: &[u32],
) -> Result<Linked, LinkFault>
    requires kit { IsKit kit.now }
    requires kernel { kit.now.kind ≡ Kernel }
    requires inputs { AreFit inputs.now }
    requires gaps { IfSome (option_copied gaps) AreGaps }
    requires order { IsOrder (drawn_count (map (λ x. x.place) inputs.now)) order.now }
    ensures ok { IfOk result (λ l. Carries l.image.items l.placement kit.now inputs.now (option_copied gaps.entry) order.now) }
    ensures fields { IfOk result (λ l. l.fields ≡ length (graph kit.now inputs.now).fields) }
    ensures few { IfOk result (λ l. length l.placement.pieces < 2 ^ 32) }
    ensures sound { OnOk result (link_fault kit.now inputs.now (option_copied gaps.entry) order.now ≡ None) }
    ensures err { IfErr result (λ e. (e ≡ LinkFault.NoMemory) ⊎ (link_fault kit.now inputs.now (option_copied gaps.entry) order.now ≡ Some e)) }
    ensures roomy { IfErr result (λ e. IsRoomy kit.now (graph kit.now inputs.now) → IsNoSpanOrRange e) }
{
    let graph = resolve(alloc, kit, inputs)?;
    let needs = needs(alloc, kit, &graph)?;
    let made = made_areas(needs.slots.items());
    let placement = place(alloc, kit, &graph, gaps, order, &made)?;
    let image = kernel_image(alloc, kit, inputs, gaps, &graph, &placement, &needs)?;
    let fields = graph.fields.items().len() as u32;
    Ok(Linked {
        image,
        placement,
        fields,
    })
}
