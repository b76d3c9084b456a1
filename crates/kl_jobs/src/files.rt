// Files of a kit.
ghost use Rattle.std.specs.Prelude.{◌≡◌, ◌≤◌, ◌++◌, ◌∷◌, None, Some, length, IfOk, IfErr, IsErrOf};
ghost use Rattle.kl_store.specs.Calls.{Holds, Rose, Stays};
ghost use Rattle.kl_base.specs.Names.{name_fault};
ghost use Rattle.kl_base.specs.declared.limits.TheConstants.{FILE_LIMIT};
ghost use Rattle.kl_jobs.specs.Reading.{file_fault};
ghost use Rattle.kl_jobs.specs.Refusals.{IsRefusal, Refuses};

use crate::cause::{Cause, KitCause};
use kl_base::Name;
use kl_store::{Store, WholeFault, read_whole};
use std::alloc::Global;

/// The bytes of a file of a kit, which has at most `limit` of them.
pub fn read_file<S: Store>(
    alloc: Global,
    store: &mut S,
    name: &Name,
    limit: u64,
) -> Result<Vec<u8>, Cause>
    ensures bytes { IfOk result (λ v. Holds (S.meaning store.old) name.now (λ file. file ≡ Some v.items)) }
    ensures within { IfOk result (λ v. length v.items ≤ limit) }
    ensures refused { IfErr result (Refuses (S.meaning store.old) (λ m. file_fault m name.now limit)) }
    ensures refusal { IfErr result IsRefusal }
    ensures failed { IsErrOf result Cause.Store → Rose (S.faults store.old) (S.faults store.new) }
    ensures faults { S.faults store.old ≤ S.faults store.new }
    ensures still { Stays (S.meaning store.old) (S.meaning store.new) }
{
    match read_whole(alloc, store, name, limit) {
        Ok(bytes) => Ok(bytes),
        Err(WholeFault::Missing) => Err(Cause::Kit(KitCause::Absent(*name))),
        Err(WholeFault::TooLong { .. }) => Err(Cause::Kit(KitCause::TooLong(*name))),
        Err(WholeFault::Failed) => Err(Cause::Store),
        Err(WholeFault::NoMemory) => Err(Cause::NoMemory),
    }
}

/// The name of a file in a folder.
pub fn file_in(dir: &Name, file: &[u8]) -> Name
    requires dir { length dir.now ≤ FILE_LIMIT }
    requires file { length file.now ≤ FILE_LIMIT }
    requires name { name_fault (47 ∷ file.now) ≡ None }
    ensures { result ≡ dir.now ++ 47 ∷ file.now }
{
    dir.join(&Name::at_root(file).unwrap())
}
