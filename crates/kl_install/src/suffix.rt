// Names with an end behind them.
ghost use Rattle.std.specs.Prelude.{◌≡◌, ◌≤◌, ◌+◌, ◌++◌, length, take, true};
ghost use Rattle.kl_install.specs.Suffix.{is_suffix};

use kl_base::{NAME_LIMIT, Name};

/// The name with a suffix behind it, which is a dot and more bytes of a file's name: as `.relink` or `.map`.
pub fn with_suffix(name: &Name, suffix: &[u8]) -> Name
    requires suffix { is_suffix suffix.now ≡ true }
    requires short { length name.now + length suffix.now ≤ NAME_LIMIT }
    ensures { result ≡ name.now ++ suffix.now }
{
    let mut bytes = [0; NAME_LIMIT];
    let at = put(&mut bytes, 0, name.bytes());
    let end = put(&mut bytes, at, suffix);
    Name::from_bytes(&bytes[..end]).unwrap()
}

/// Puts the bytes from that place on, and gives the place behind them.
fn put(out: &mut [u8; NAME_LIMIT], at: usize, bytes: &[u8]) -> usize
    requires { at + length bytes.now ≤ NAME_LIMIT }
    ensures end { result ≡ at + length bytes.now }
    ensures text { take result out.new ≡ take at out.old ++ bytes.now }
{
    let end = at + bytes.len();
    out[at..end].copy_from_slice(bytes);
    end
}
