// A kit of a folder, its inputs and its seed, and its link.
ghost use Rattle.std.specs.Prelude.{◌≡◌, ◌≢◌, ◌≤◌, ◌⊎◌, [], None, Some, length, IfOk, IfErr, OnOk, IsErrOf};
ghost use Rattle.std.specs.Option.{ForSome};
ghost use Rattle.std.specs.List.{AllByRecursion};
ghost use Rattle.kl_base.specs.declared.limits.TheConstants.{FILE_LIMIT};
ghost use Rattle.kl_store.specs.Calls.{Rose, Stays};
ghost use Rattle.kl_model.specs.Fit.{IsKit};
ghost use Rattle.kl_model.specs.declared.kit.KitKind.TheVariants.{Kernel};
ghost use Rattle.kl_kit.specs.Forms.{HasFile};
ghost use Rattle.kl_link.specs.Links.{AreLinked, IsLinkable, report_of};
ghost use Rattle.kl_batch.specs.declared.names.TheConstants.{KERNEL};
ghost use Rattle.kl_jobs.specs.Reading.{inputs_in, kind_refusal, kit_order as lines_in_kit_order, lines_refusal, text_refusal};
ghost use Rattle.kl_jobs.specs.Refusals.{IsJobRefusal, IsRefusal, Refuses, RefusesJob, kit_refusal, late_refusal};
ghost use Rattle.kl_jobs.specs.Seeds.{Draws, IsSeed, NoneDrawn};
ghost use Rattle.kl_jobs.specs.Links.{IsKitOf};

use crate::cause::Cause;
use crate::reading::{kit_order, read_inputs, read_text};
use crate::seed::draw_seed;
use kl_base::Name;
use kl_link::{LinkedKit, link_kit};
use kl_model::{Input, Kit, KitKind, LinkFault};
use kl_store::{Entropy, Store};
use std::alloc::Global;

/// A kit, its inputs in kit order, and the seed of its link.
#[derive(Drop)]
pub struct Source {
    pub kit: Kit,
    pub inputs: Vec<Input>,
    pub seed: [u8; 32],
}

/// The image of a kit under its seed, its map, and what is told of it.
///
/// # Errors
///
/// `Link` with the first fault of the kit, and `NoMemory`.
pub fn link_source(alloc: Global, source: &Source) -> Result<LinkedKit, Cause>
    requires { IsLinkable source.now.kit source.now.inputs.items }
    ensures linked { IfOk result (λ l. AreLinked source.now.seed source.now.kit source.now.inputs.items l.image.items l.map.items) }
    ensures told { IfOk result (λ l. l.report ≡ report_of source.now.kit source.now.inputs.items l.image.items) }
    ensures sound { OnOk result (kit_refusal source.now.seed source.now.kit source.now.inputs.items ≡ None) }
    ensures err { IfErr result (λ c. (c ≡ Cause.NoMemory) ⊎ (kit_refusal source.now.seed source.now.kit source.now.inputs.items ≡ Some c)) }
    ensures refusal { IfErr result IsRefusal }
    ensures no_store { IfErr result (λ c. c ≢ Cause.Store) }
{
    match link_kit(alloc, &source.kit, &source.inputs, &source.seed) {
        Ok(linked) => Ok(linked),
        Err(LinkFault::NoMemory) => Err(Cause::NoMemory),
        Err(fault) => Err(Cause::Link(fault)),
    }
}

/// Reads the inputs of a kit of a folder. What is left to refuse is the fault of its link.
fn read_lines<S: Store>(
    alloc: Global,
    dir: &Name,
    kit: &Kit,
    store: &mut S,
) -> Result<Vec<Input>, Cause>
    requires dir { length dir.now ≤ FILE_LIMIT }
    requires form { IsKit kit.now }
    requires inputs { AllByRecursion HasFile kit.now.inputs }
    ensures reads { IfOk result (λ v. ForSome (S.meaning store.old).names (λ m. v.items ≡ inputs_in m dir.now (lines_in_kit_order kit.now.inputs))) }
    ensures stands { OnOk result (ForSome (S.meaning store.old).names (λ m. lines_refusal m dir.now [] (lines_in_kit_order kit.now.inputs) ≡ None)) }
    ensures linkable { IfOk result (λ v. IsLinkable kit.now v.items) }
    ensures refused { IfErr result (Refuses (S.meaning store.old) (λ m. lines_refusal m dir.now [] (lines_in_kit_order kit.now.inputs))) }
    ensures refusal { IfErr result IsRefusal }
    ensures failed { IsErrOf result Cause.Store → Rose (S.faults store.old) (S.faults store.new) }
    ensures faults { S.faults store.old ≤ S.faults store.new }
    ensures still { Stays (S.meaning store.old) (S.meaning store.new) }
{
    let lines = kit_order(alloc, kit.inputs.items())?;
    let inputs = read_inputs(alloc, store, dir, &lines)?;
    Ok(inputs)
}

/// Reads the kit of a folder, of a kind that is wanted or of either, draws its seed where none is given, and reads its inputs. What is left
/// to refuse is the fault of its link.
pub fn read_source<S: Store, E: Entropy>(
    alloc: Global,
    dir: &Name,
    wanted: Option<KitKind>,
    seed: Option<[u8; 32]>,
    store: &mut S,
    entropy: &mut E,
) -> Result<Source, Cause>
    requires { length dir.now ≤ FILE_LIMIT }
    ensures reads { IfOk result (λ s. ForSome (S.meaning store.old).names (λ m. IsKitOf wanted m dir.now s.kit s.inputs.items)) }
    ensures seed { IfOk result (λ s. IsSeed seed (E.meaning entropy.old) (E.meaning entropy.new) s.seed) }
    ensures linkable { IfOk result (λ s. IsLinkable s.kit s.inputs.items) }
    ensures kind { IfOk result (λ s. kind_refusal wanted s.kit.kind ≡ None) }
    ensures output { IfOk result (λ s. s.kit.kind ≡ Kernel → s.kit.output ≡ KERNEL) }
    ensures refused { IfErr result (RefusesJob seed (E.meaning entropy.old) (E.meaning entropy.new) (S.meaning store.old)
        (λ m. text_refusal wanted m dir.now) (λ m. late_refusal m dir.now)) }
    ensures refusal { IfErr result IsJobRefusal }
    ensures failed { IsErrOf result Cause.Store → Rose (S.faults store.old) (S.faults store.new) }
    ensures draws { Draws seed (E.meaning entropy.old) (E.meaning entropy.new) }
    ensures undrawn { IsErrOf result Cause.Entropy → NoneDrawn seed (E.meaning entropy.old) (E.meaning entropy.new) }
    ensures entropy { IsErrOf result Cause.Entropy → Rose (E.faults entropy.old) (E.faults entropy.new) }
    ensures faults { S.faults store.old ≤ S.faults store.new }
    ensures still { Stays (S.meaning store.old) (S.meaning store.new) }
{
    let kit = read_text(alloc, dir, wanted, store)?;
    let seed = draw_seed(seed, entropy)?;
    let inputs = read_lines(alloc, dir, &kit, store)?;
    Ok(Source { kit, inputs, seed })
}
