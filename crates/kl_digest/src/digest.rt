// The digests of bytes and of files.
ghost use Rattle.std.specs.Prelude.{◌≡◌, ◌<◌, length, option_map, IfOk};
ghost use Rattle.kl_store.specs.Calls.{HasCause, Stays, Holds};
ghost use Rattle.sha2.specs.Sha256 as spec;

use kl_base::Name;
use kl_store::{Failed, Store};
use sha2::{Digest, Sha256};

/// The SHA-256 digest of the bytes, as FIPS 180-4 defines it.
pub fn sha256(bytes: &[u8]) -> [u8; 32]
    ensures { result ≡ spec.sha256 bytes.now }
{
    Sha256::digest(bytes)
}

/// The digest of the file of that name, or None where the name is absent. It reads the file in pieces of
/// at most the buffer's length, and no byte past the size that it asked first. It changes nothing.
pub fn digest_file<S: Store>(
    store: &mut S,
    name: &Name,
    buf: &mut [u8],
) -> Result<Option<[u8; 32]>, Failed>
    requires { 0 < length buf.old }
    ensures digest { IfOk result (λ d. Holds (S.meaning store.old) name.now (λ file. d ≡ option_map spec.sha256 file)) }
    ensures still { Stays (S.meaning store.old) (S.meaning store.new) }
    ensures cause { HasCause (S.faults store.old) (S.faults store.new) result }
{
    let Some(size) = store.size(name)? else {
        return Ok(None);
    };
    let mut hasher = Sha256::new();
    let mut at = 0;
    while at < size {
        let room = (size - at).min(buf.len() as u64) as usize;
        let piece = &mut buf[..room];
        let count = store.read(name, at, piece)?;
        if count == 0 {
            break;
        }
        hasher.update(&piece[..count]);
        at += count as u64;
    }
    Ok(Some(hasher.finalize()))
}
