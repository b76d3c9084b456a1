// `link DIR`: one kit, linked into the kit's own folder.
ghost use Rattle.std.specs.Prelude.{◌≡◌, ◌≤◌, ◌⊎◌, None, length, IfOk, IfErr, OnOk};
ghost use Rattle.std.specs.Option.{ForSome};
ghost use Rattle.kl_store.specs.Calls.{HasCause, Rose, Stays};
ghost use Rattle.kl_store.specs.Files.{HasFiles, SameFiles};
ghost use Rattle.kl_store.specs.Images.{Ends, LeavesOfDisk};
ghost use Rattle.kl_jobs.specs.Reading.{text_refusal};
ghost use Rattle.kl_jobs.specs.Refusals.{EndsUnder, IsJobRefusal, RefusesJob, late_refusal};
ghost use Rattle.kl_jobs.specs.Seeds.{Draws, NoneDrawn};
ghost use Rattle.kl_jobs.specs.Links.{LinksUnder};
ghost use Rattle.kl_jobs.specs.Writing.{IsPutPair};
ghost use Rattle.kl_jobs.specs.declared.cause.Cause.TheVariants as cause;
ghost use Rattle.kl_base.specs.declared.limits.TheConstants.{FILE_LIMIT};

use crate::fault::JobFault;
use crate::files::file_in;
use crate::source::{link_source, read_source};
use kl_base::Name;
use kl_link::Report;
use kl_store::{Entropy, Failed, Store, write_whole};
use std::alloc::Global;

/// Links the kit whose text is `DIR/link.conf`, in the order and with the gaps that are drawn from the seed: writes the image to
/// `DIR/linked.relink` and the map of its placement to `DIR/linked.map.relink`, and settles. Without a seed it draws one, a block of
/// the source of random bytes, when the kit text is read.
///
/// # Errors
///
/// The first that stands: of the kit text, of the source of random bytes, of the inputs in kit order, of the link, of the store.
pub fn link_only<S: Store, E: Entropy>(
    alloc: Global,
    dir: &Name,
    seed: Option<[u8; 32]>,
    store: &mut S,
    entropy: &mut E,
) -> Result<Report, JobFault>
    requires { length dir.now ≤ FILE_LIMIT }
    ensures done { IfOk result (LinksUnder dir.now seed (E.meaning entropy.old) (E.meaning entropy.new) (S.meaning store.old) (S.meaning store.new)) }
    ensures stands { OnOk result (ForSome (S.meaning store.old).names
        (λ m. EndsUnder seed (E.meaning entropy.old) (E.meaning entropy.new) (text_refusal None m dir.now) (late_refusal m dir.now) None)) }
    ensures refused { IfErr result (λ f. RefusesJob seed (E.meaning entropy.old) (E.meaning entropy.new) (S.meaning store.old)
        (λ m. text_refusal None m dir.now) (λ m. late_refusal m dir.now) f.cause) }
    ensures refusal { IfErr result (λ f. IsJobRefusal f.cause) }
    ensures batches { IfErr result (λ f. f.batches ≡ 0) }
    ensures failed { IfErr result (λ f. f.cause ≡ cause.Store → Rose (S.faults store.old) (S.faults store.new)) }

    // It takes one block at most, none with a seed, and none where the source failed.
    ensures draws { Draws seed (E.meaning entropy.old) (E.meaning entropy.new) }
    ensures undrawn { IfErr result (λ f. f.cause ≡ cause.Entropy → NoneDrawn seed (E.meaning entropy.old) (E.meaning entropy.new)) }
    ensures entropy { IfErr result (λ f. f.cause ≡ cause.Entropy → Rose (E.faults entropy.old) (E.faults entropy.new)) }

    // A refusal changes no name. Whatever the answer, no file has changed, and a crash leaves no file changed.
    ensures untouched { IfErr result (λ f. (f.cause ≡ cause.Store) ⊎ Stays (S.meaning store.old) (S.meaning store.new)) }
    ensures images { LeavesOfDisk (S.meaning store.old) (S.meaning store.new) HasFiles }
    ensures files { SameFiles (S.meaning store.old) (S.meaning store.new) }
{
    let source = read_source(alloc, dir, None, seed, store, entropy)?;
    let linked = link_source(alloc, &source)?;
    write_pair(store, dir, &linked.image, &linked.map)?;
    Ok(linked.report)
}

/// Writes the image and the map of a folder, and settles.
fn write_pair<S: Store>(store: &mut S, dir: &Name, image: &[u8], map: &[u8]) -> Result<(), Failed>
    requires { length dir.now ≤ FILE_LIMIT }
    ensures done { Ends (S.meaning store.old) (S.meaning store.new) result (IsPutPair dir.now image.now map.now) }
    ensures images { LeavesOfDisk (S.meaning store.old) (S.meaning store.new) HasFiles }
    ensures files { SameFiles (S.meaning store.old) (S.meaning store.new) }
    ensures cause { HasCause (S.faults store.old) (S.faults store.new) result }
{
    write_whole(store, &file_in(dir, b"linked.relink"), image)?;
    write_whole(store, &file_in(dir, b"linked.map.relink"), map)?;
    store.settle()
}
