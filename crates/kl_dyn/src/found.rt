// Symbols found through a hash table (gABI, "Hash Table"). What lies past the end of the bytes reads as zero.
ghost use Rattle.std.specs.Prelude.{◌≡◌, ◌+◌, ◌*◌, ◌<◌, ◌^◌, ◌&&◌, ◌==◌, not, if◌then◌else◌, Some, None, IsTrue, drop, position};
ghost use Rattle.std.specs.Str.{bytes_eq};
ghost use Rattle.kl_le.specs.Bytes.{is_width, num, text};
ghost use Rattle.kl_model.specs.Found.{found_at};
ghost use Rattle.kl_dyn.specs.LookUp.{defined_value};

use crate::hash::symbol_hash;
use kl_elf::Sym;
use kl_elf::abi::SHN_UNDEF;
use kl_le::get;

/// Where a hash table, its symbols and their strings stand in some bytes.
#[derive(Clone, Copy, Debug)]
pub struct HashAt {
    /// The place of the hash table.
    pub hash: u64,
    /// The place of the symbols.
    pub symbols: u64,
    /// The place of the strings.
    pub strings: u64,
}

/// The bytes from a place on.
fn bytes_from(bytes: &[u8], at: u64) -> &[u8]
    ensures { result.now ≡ drop at bytes.now }
{
    &bytes[bytes.len().min(at as usize)..]
}

/// The little-endian number of `W` bytes, `offset` bytes behind a place.
fn number<const W: usize>(bytes: &[u8], at: u64, offset: u64) -> u64
    requires { IsTrue (is_width W) }
    ensures number { result ≡ num bytes.now (at + offset) W }
    ensures fits { result < 256 ^ W }
{
    let rest = bytes_from(bytes_from(bytes, at), offset);
    let mut field = [0; W];
    let len = rest.len().min(W);
    field[..len].copy_from_slice(&rest[..len]);
    get::<W>(&field, 0)
}

/// The place of the first zero byte.
fn first_zero(bytes: &[u8]) -> Option<usize>
    ensures { result ≡ position (λ c. c == 0) bytes.now }
{
    bytes.iter().position(|c| *c == 0)
}

/// The bytes up to the first zero byte.
fn before_zero(bytes: &[u8]) -> &[u8]
    ensures { result.now ≡ text bytes.now 0 }
{
    let len = first_zero(bytes).unwrap_or(bytes.len());
    &bytes[..len]
}

/// Whether the bytes up to the first zero byte are a name. Looks at no more bytes than the name has, and one.
fn is_text(bytes: &[u8], name: &[u8]) -> bool
    ensures { result ≡ bytes_eq (text bytes.now 0) name.now }
{
    let head = &bytes[..bytes.len().min(name.len() + 1)];
    before_zero(head) == name
}

/// The value of a symbol, where it is defined and has a name.
fn defined_value(tables: &[u8], at: &HashAt, symbol: u64, name: &[u8]) -> Option<u64>
    requires { symbol < 2 ^ 32 }
    ensures { result ≡ defined_value tables.now at.now.symbols at.now.strings name.now symbol }
{
    let place = Sym::SIZE as u64 * symbol;
    if number::<2>(tables, at.symbols, place + Sym::ST_SHNDX) == u64::from(SHN_UNDEF) {
        return None;
    }
    let text = number::<4>(tables, at.symbols, place);
    if is_text(bytes_from(bytes_from(tables, at.strings), text), name) {
        Some(number::<8>(tables, at.symbols, place + Sym::ST_VALUE))
    } else {
        None
    }
}

/// The value of the symbol of a name, found through a hash table.
pub fn find(tables: &[u8], at: &HashAt, name: &[u8]) -> Option<u64>
    ensures { result ≡ found_at tables.now at.now.hash at.now.symbols at.now.strings name.now }
{
    let buckets = number::<4>(tables, at.hash, 0);
    let hash = u64::from(symbol_hash(name));
    let bucket = hash.checked_rem(buckets).unwrap_or(hash);
    let mut symbol = number::<4>(tables, at.hash, 8 + 4 * bucket);
    for _ in 0..number::<4>(tables, at.hash, 4) {
        if symbol == 0 {
            return None;
        }
        if let Some(value) = defined_value(tables, at, symbol, name) {
            return Some(value);
        }
        symbol = number::<4>(tables, at.hash, 8 + 4 * (buckets + symbol));
    }
    None
}
