// Files that are read and written as a whole.
ghost use Rattle.std.specs.Prelude.{◌≡◌, ◌≢◌, ◌<◌, ◌≤◌, ℕ, length, Some, None, option_map, IfOk, IsErrOf};
ghost use Rattle.kl_store.specs.Calls.{Rose, HasCause, Stays, Holds, HasLength, FitsIn, Reads};
ghost use Rattle.kl_store.specs.Disk.{with_file, IsNear};
ghost use Rattle.kl_store.specs.Images.{Becomes, LeavesOfDisk};
ghost use Rattle.kl_store.specs.Files.{KeepsNames};

use crate::{Failed, Store};
use kl_base::Name;
use std::alloc::{AllocError, Global};

/// Why a file couldn't be read as a whole.
#[derive(Clone, Copy, Debug, PartialEq, Eq)]
pub enum WholeFault {
    /// There is no file of the name.
    Missing,
    /// The file has `size` bytes, which is past the limit.
    TooLong { size: u64 },
    /// A call of the store failed.
    Failed,
    /// The file is within the limit, and there is no memory for it.
    NoMemory,
}

impl From<Failed> for WholeFault {
    ghost use Rattle.kl_store.specs.declared.whole.WholeFault.TheVariants.{Failed};

    ghost from_gives = { λ _ e. e ≡ Failed };

    fn from(_: Failed) -> Self {
        WholeFault::Failed
    }
}

impl From<AllocError> for WholeFault {
    ghost use Rattle.kl_store.specs.declared.whole.WholeFault.TheVariants.{NoMemory};

    ghost from_gives = { λ _ e. e ≡ NoMemory };

    fn from(_: AllocError) -> Self {
        WholeFault::NoMemory
    }
}

/// The bytes of the file of the name, if it has at most `limit` of them. It asks the size, and then
/// reads until it has that many bytes or the file ends. It changes nothing, whatever it answers.
pub fn read_whole<S: Store>(
    alloc: Global,
    store: &mut S,
    name: &Name,
    limit: u64,
) -> Result<Vec<u8>, WholeFault>
    ensures bytes { IfOk result (λ v. Holds (S.meaning store.old) name.now (λ file. file ≡ Some v.items)) }
    ensures within { IfOk result (λ v. length v.items ≤ limit) }

    // Each fault comes only where it says so.
    ensures missing { IsErrOf result WholeFault.Missing → Holds (S.meaning store.old) name.now (λ file. file ≡ None) }
    ensures too_long { (n : ℕ) → IsErrOf result (WholeFault.TooLong n) → limit < n }
    ensures size { (n : ℕ) → IsErrOf result (WholeFault.TooLong n) → Holds (S.meaning store.old) name.now (HasLength n) }
    ensures failed { IsErrOf result WholeFault.Failed → Rose (S.faults store.old) (S.faults store.new) }
    ensures memory { IsErrOf result WholeFault.NoMemory → Holds (S.meaning store.old) name.now (FitsIn limit) }

    ensures faults { S.faults store.old ≤ S.faults store.new }
    ensures still { Stays (S.meaning store.old) (S.meaning store.new) }
{
    let Some(size) = store.size(name)? else {
        return Err(WholeFault::Missing);
    };
    if size > limit {
        return Err(WholeFault::TooLong { size });
    }
    let mut bytes = vec![in alloc; 0; size as usize]?;
    let have = read_to(store, name, &mut bytes)?;
    bytes.truncate(have);
    Ok(bytes)
}

// Reads until the buffer is full or the file ends, and says how many bytes it has.
fn read_to<S: Store>(store: &mut S, name: &Name, buf: &mut [u8]) -> Result<usize, Failed>
    ensures bound { IfOk result (λ n. n ≤ length buf.new) }
    ensures bytes { IfOk result (λ n. Holds (S.meaning store.old) name.now (Reads 0 n buf.old buf.new)) }
    ensures still { Stays (S.meaning store.old) (S.meaning store.new) }
    ensures cause { HasCause (S.faults store.old) (S.faults store.new) result }
{
    let mut have = 0;
    while have < buf.len() {
        let count = store.read(name, have as u64, &mut buf[have..])?;
        if count == 0 {
            break;
        }
        have += count;
    }
    Ok(have)
}

/// Puts a new file of these bytes under the name, in place of one that had it. It isn't stable before the next settle.
/// Whatever the answer, no other name changes, and a crash leaves what one before might, but for this name.
pub fn write_whole<S: Store>(store: &mut S, name: &Name, bytes: &[u8]) -> Result<(), Failed>
    ensures done { Becomes (S.meaning store.old) (S.meaning store.new) result (with_file name.now bytes.now) }
    ensures images { LeavesOfDisk (S.meaning store.old) (S.meaning store.new) (IsNear name.now) }
    ensures others { KeepsNames (λ n. n ≢ name.now) (S.meaning store.old) (S.meaning store.new) }
    ensures cause { HasCause (S.faults store.old) (S.faults store.new) result }
{
    store.create(name)?;
    store.append(name, bytes)
}
