// A made kit, linked.
ghost use Rattle.std.specs.Prelude.{◌≡◌, ◌≤◌, ◌*◌, IfOk};
ghost use Rattle.kl_generate.specs.Generated.{IsGenerated};
ghost use Rattle.kl_generate.specs.declared.limits.TheConstants.{MADE_LIMIT};

use crate::input::made_inputs;
use crate::kit::made_kit;
use kl_base::NoMemory;
use kl_link::{Report, link_kit};
use kl_model::LinkFault;
use std::alloc::Global;

/// The only way in which a made kit isn't linked.
fn want_of_memory(fault: LinkFault) -> NoMemory
    requires { fault ≡ LinkFault.NoMemory }
{
    NoMemory
}

/// Makes the kit of a kernel of `count` objects and its inputs, links them under a seed, and answers what is told of the image. The only
/// error is want of memory.
pub fn generate(alloc: Global, count: u32, seed: &[u8; 32]) -> Result<Report, NoMemory>
    requires some { 1 ≤ count }
    requires few { count ≤ MADE_LIMIT }
    ensures generated { IfOk result (IsGenerated seed.now count) }
    ensures pieces { IfOk result (λ r. r.pieces ≡ 2 * count) }
    ensures fields { IfOk result (λ r. r.fields ≡ 2 * count) }
{
    let kit = made_kit(alloc, count)?;
    let inputs = made_inputs(alloc, count)?;
    match link_kit(alloc, &kit, &inputs, seed) {
        Ok(linked) => Ok(linked.report),
        Err(fault) => Err(want_of_memory(fault)),
    }
}
