// Images that are read as soon as they are linked.
ghost use Rattle.std.specs.Prelude.{◌≡◌, ◌⊎◌, None, Some, map, IfErr, IfOk, IfSome};
ghost use Rattle.std.specs.Option.{option_copied};
ghost use Rattle.kl_model.specs.Faults.{link_fault};
ghost use Rattle.kl_model.specs.Fit.{AreFit, AreGaps, IsKit};
ghost use Rattle.kl_model.specs.Orders.{IsOrder, drawn_count};
ghost use Rattle.kl_model.specs.declared.kit.KitKind.TheVariants.{Kernel, Library};

use kl_image::{ImageFault, View, view};
use kl_kernel::link_kernel;
use kl_model::{Gaps, Input, Kit, LinkFault};
use kl_shared::link_library;
use std::alloc::Global;

/// Links a kernel, and reads the headers of its image.
///
/// # Errors
///
/// The first fault of the link; of the reader want of memory, and no flaw.
pub fn view_kernel(
    alloc: Global,
    kit: &Kit,
    inputs: &[Input],
    gaps: Option<&Gaps>,
    order: &[u32],
) -> Result<Result<View, ImageFault>, LinkFault>
    requires kit { IsKit kit.now }
    requires kernel { kit.now.kind ≡ Kernel }
    requires inputs { AreFit inputs.now }
    requires gaps { IfSome (option_copied gaps) AreGaps }
    requires order { IsOrder (drawn_count (map (λ x. x.place) inputs.now)) order.now }
    ensures ok { IfOk result (λ r. IfErr r (λ e. e ≡ ImageFault.NoMemory)) }
    ensures err { IfErr result (λ e. (e ≡ LinkFault.NoMemory) ⊎ (link_fault kit.now inputs.now (option_copied gaps.entry) order.now ≡ Some e)) }
{
    let linked = link_kernel(alloc, kit, inputs, gaps, order)?;
    Ok(view(alloc, &linked.image))
}

/// Links a library, and reads the headers of its image.
///
/// # Errors
///
/// The first fault of the link; of the reader want of memory, and no flaw.
pub fn view_library(
    alloc: Global,
    kit: &Kit,
    inputs: &[Input],
    order: &[u32],
) -> Result<Result<View, ImageFault>, LinkFault>
    requires kit { IsKit kit.now }
    requires library { kit.now.kind ≡ Library }
    requires inputs { AreFit inputs.now }
    requires order { IsOrder (drawn_count (map (λ x. x.place) inputs.now)) order.now }
    ensures ok { IfOk result (λ r. IfErr r (λ e. e ≡ ImageFault.NoMemory)) }
    ensures err { IfErr result (λ e. (e ≡ LinkFault.NoMemory) ⊎ (link_fault kit.now inputs.now None order.now ≡ Some e)) }
{
    let linked = link_library(alloc, kit, inputs, order)?;
    Ok(view(alloc, &linked.image))
}
