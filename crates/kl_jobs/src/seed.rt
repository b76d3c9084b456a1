// The seed of a command.
ghost use Rattle.std.specs.Prelude.{◌≡◌, IfErr, IfOk, OnErr};
ghost use Rattle.kl_store.specs.Calls.{HasCause};
ghost use Rattle.kl_jobs.specs.Seeds.{Draws, IsSeed, NoneDrawn};

use crate::cause::Cause;
use kl_store::Entropy;

/// The seed of a command: the given one, or else the next block of the source of random bytes. The only error is `Entropy`.
pub fn draw_seed<E: Entropy>(given: Option<[u8; 32]>, entropy: &mut E) -> Result<[u8; 32], Cause>
    ensures seed { IfOk result (IsSeed given (E.meaning entropy.old) (E.meaning entropy.new)) }
    ensures none { OnErr result (NoneDrawn given (E.meaning entropy.old) (E.meaning entropy.new)) }
    ensures err { IfErr result (λ c. c ≡ Cause.Entropy) }
    ensures draws { Draws given (E.meaning entropy.old) (E.meaning entropy.new) }
    ensures cause { HasCause (E.faults entropy.old) (E.faults entropy.new) result }
{
    if let Some(seed) = given {
        return Ok(seed);
    }
    let mut seed = [0; 32];
    match entropy.fill(&mut seed) {
        Ok(()) => Ok(seed),
        Err(_) => Err(Cause::Entropy),
    }
}
