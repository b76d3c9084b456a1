// A kit, linked under a seed.
ghost use Rattle.std.specs.Prelude.{◌≡◌, ◌≤◌, ◌<◌, ◌-◌, ◌^◌, ◌⊎◌, None, Some, length, map, IfOk, IfErr, IfSome, OnOk};
ghost use Rattle.std.specs.Option.{option_copied};
ghost use Rattle.sha2.specs.Sha256.{sha256 as digest_of};
ghost use Rattle.kl_model.specs.Carries.{Carries, gap_names};
ghost use Rattle.kl_model.specs.Faults.{link_fault};
ghost use Rattle.kl_model.specs.Fit.{AreGaps};
ghost use Rattle.kl_model.specs.Graphs.{graph};
ghost use Rattle.kl_model.specs.Orders.{IsOrder, drawn_count};
ghost use Rattle.kl_model.specs.Roomy.{IsRoomy};
ghost use Rattle.kl_steps.specs.RoomyLinks.{IsNoSpanOrRange};
ghost use Rattle.kl_model.specs.declared.kit.KitKind.TheVariants.{Library};
ghost use Rattle.kl_link.specs.Links.{AreLinked, IsLinkable, fault_of, report_of};
ghost use Rattle.kl_link.specs.Plans.{gaps_of};

use crate::report::Report;
use kl_digest::sha256;
use kl_draw::{draw_gaps, draw_order, sub_seed};
use kl_kernel::link_kernel;
use kl_map::{Map, print_map};
use kl_model::{Gaps, Input, Kit, KitKind, LinkFault, Linked, Part};
use kl_shared::link_library;
use std::alloc::Global;

/// How many gaps a kernel has: one for each class.
const GAPS: usize = 4;

/// A linked kit.
#[derive(Debug, Drop)]
pub struct LinkedKit {
    /// The bytes of the image.
    pub image: Vec<u8>,
    /// The text of its map.
    pub map: Vec<u8>,
    /// What is told of it.
    pub report: Report,
}

/// How many inputs are drawn.
fn count_drawn(inputs: &[Input]) -> usize
    ensures count { result ≡ drawn_count (map (λ x. x.place) inputs.now) }
    ensures few { result ≤ length inputs.now }
{
    let mut count = 0;
    for input in inputs {
        if input.place == Part::Drawn {
            count += 1;
        }
    }
    count
}

/// The gaps of a kit under a seed: a kernel has some, a library none.
fn gaps_of(kit: &Kit, seed: &[u8; 32]) -> Option<Gaps>
    ensures drawn { result ≡ gaps_of seed.now kit.now }
    ensures sizes { IfSome result AreGaps }
{
    match kit.kind {
        KitKind::Kernel => Some(draw_gaps(&sub_seed(seed, kit.output.bytes(), b"gaps"))),
        KitKind::Library => None,
    }
}

/// Links a kit of either kind in an order, with gaps where it is a kernel's.
///
/// # Errors
///
/// The first fault of the kit under that order and those gaps, and `NoMemory`.
fn link_planned(
    alloc: Global,
    kit: &Kit,
    inputs: &[Input],
    gaps: Option<&Gaps>,
    order: &[u32],
) -> Result<Linked, LinkFault>
    requires linkable { IsLinkable kit.now inputs.now }
    requires gaps { IfSome (option_copied gaps) AreGaps }
    requires library { kit.now.kind ≡ Library → option_copied gaps ≡ None }
    requires order { IsOrder (drawn_count (map (λ x. x.place) inputs.now)) order.now }
    ensures ok { IfOk result (λ l. Carries l.image.items l.placement kit.now inputs.now (option_copied gaps.entry) order.now) }
    ensures fields { IfOk result (λ l. l.fields ≡ length (graph kit.now inputs.now).fields) }
    ensures few { IfOk result (λ l. length l.placement.pieces < 2 ^ 32) }
    ensures sound { OnOk result (link_fault kit.now inputs.now (option_copied gaps.entry) order.now ≡ None) }
    ensures err { IfErr result (λ e. (e ≡ LinkFault.NoMemory) ⊎ (link_fault kit.now inputs.now (option_copied gaps.entry) order.now ≡ Some e)) }
    ensures roomy { IfErr result (λ e. IsRoomy kit.now (graph kit.now inputs.now) → IsNoSpanOrRange e) }
{
    match kit.kind {
        KitKind::Kernel => link_kernel(alloc, kit, inputs, gaps, order),
        KitKind::Library => link_library(alloc, kit, inputs, order),
    }
}

/// What is told of an image whose placement names so many gaps.
fn report(linked: &Linked, gaps: usize) -> Report
    requires gaps { gaps ≤ length linked.now.placement.pieces }
    requires few { length linked.now.placement.pieces < 2 ^ 32 }
    ensures { result ≡ record {
      pieces = length linked.now.placement.pieces - gaps;
      fields = linked.now.fields;
      bytes = length linked.now.image.items;
      digest = digest_of linked.now.image.items;
    } }
{
    Report {
        pieces: (linked.placement.pieces.items().len() - gaps) as u32,
        fields: linked.fields,
        bytes: linked.image.len() as u64,
        digest: sha256(&linked.image),
    }
}

/// How many gaps a placement names.
fn count_gaps(gaps: Option<&Gaps>) -> usize
    ensures { result ≡ length (gap_names (option_copied gaps.entry)) }
{
    match gaps {
        Some(_) => GAPS,
        None => 0,
    }
}

/// Links a kit of either kind under a seed: its drawn inputs stand in the order, and the gaps of a kernel have the sizes, that are drawn
/// from the seed under the name of the kit's output.
///
/// # Errors
///
/// The first fault of the kit under that order and those gaps, and `NoMemory`. A roomy kit has neither `Span` nor `Range`, under any seed.
pub fn link_kit(
    alloc: Global,
    kit: &Kit,
    inputs: &[Input],
    seed: &[u8; 32],
) -> Result<LinkedKit, LinkFault>
    requires { IsLinkable kit.now inputs.now }
    ensures linked { IfOk result (λ l. AreLinked seed.now kit.now inputs.now l.image.items l.map.items) }
    ensures told { IfOk result (λ l. l.report ≡ report_of kit.now inputs.now l.image.items) }
    ensures sound { OnOk result (fault_of seed.now kit.now inputs.now ≡ None) }
    ensures err { IfErr result (λ e. (e ≡ LinkFault.NoMemory) ⊎ (fault_of seed.now kit.now inputs.now ≡ Some e)) }
    ensures roomy { IfErr result (λ e. IsRoomy kit.now (graph kit.now inputs.now) → IsNoSpanOrRange e) }
{
    let label = kit.output.bytes();
    let count = count_drawn(inputs) as u32;
    let order = draw_order(alloc, &sub_seed(seed, label, b"order"), count)?;
    let drawn_gaps = gaps_of(kit, seed);
    let gaps = drawn_gaps.as_ref();
    let linked = link_planned(alloc, kit, inputs, gaps, &order)?;
    let report = report(&linked, count_gaps(gaps));
    let map = Map {
        output: kit.output,
        seed: *seed,
        placement: linked.placement,
    };
    let map = print_map(alloc, &map)?;
    Ok(LinkedKit {
        image: linked.image,
        map,
        report,
    })
}
