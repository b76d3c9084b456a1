// How the failures of the host are counted.
ghost use Rattle.std.specs.Prelude.{◌≡◌, IfOk, IsErr};
ghost use Rattle.kl_store.specs.Calls.{HasCause};

use kl_store::Failed;

// The answer of the host, with its failure counted.
pub fn counted<T: Drop, E: Drop>(faults: &mut u64, done: Result<T, E>) -> Result<T, Failed>
    ensures cause { HasCause faults.old faults.new result }
    ensures ok { IfOk result (λ value. done ≡ Ok value) }
    ensures err { IsErr result → IsErr done }
{
    match done {
        Ok(value) => Ok(value),
        Err(_) => {
            *faults = faults.saturating_add(1);
            Err(Failed)
        }
    }
}
