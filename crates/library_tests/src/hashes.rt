// The hash function of the symbol hash table (gABI, "Hash Table").
use kl_dyn::symbol_hash;

/// The hash of a name.
fn hash(name: &[u8]) -> u32 {
    symbol_hash(name)
}

#[test]
fn hashes_names(rt: HostRuntime) {
    assert_eq!(rt; hash(b""), 0);
    assert_eq!(rt; hash(b"a"), 0x61);
    assert_eq!(rt; hash(b"exit"), 0x0006_cf04);
    assert_eq!(rt; hash(b"printf"), 0x0779_05a6);
}
