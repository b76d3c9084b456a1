// The hash function of the symbol hash table.
ghost use Rattle.std.specs.Prelude.{◌≡◌};
ghost use Rattle.kl_model.specs.Tables.{hash_step, symbol_hash};

/// The four highest bits of a hash.
const HIGH_BITS: u32 = 0xf000_0000;

/// The hash of a text with one byte more: the four highest bits are folded into the low ones, and then cleared.
fn hash_step(hash: u32, byte: u8) -> u32
    ensures { result ≡ hash_step hash byte }
{
    let sum = hash.wrapping_mul(16).wrapping_add(u32::from(byte));
    let high = sum & HIGH_BITS;
    (sum ^ (high >> 24)).saturating_sub(high)
}

/// The hash of a name in the symbol hash table (gABI, "Hash Table").
pub fn symbol_hash(name: &[u8]) -> u32
    ensures { result ≡ symbol_hash name.now }
{
    name.iter().fold(0, |hash, byte| hash_step(hash, *byte))
}
