// Symbols found through the tables of a library that GNU ld 2.40 made with `--hash-style=sysv`.
use kl_dyn::{HashAt, find};

/// The hash table with three buckets, and seven symbols; then the symbols and the strings.
const TABLES: [u8; 254] = *b"\
    \x03\0\0\0\x07\0\0\0\x06\0\0\0\0\0\0\0\x05\0\0\0\
    \0\0\0\0\0\0\0\0\x01\0\0\0\0\0\0\0\x03\0\0\0\x02\0\0\0\x04\0\0\0\
    \0\0\0\0\0\0\0\0\0\0\0\0\0\0\0\0\0\0\0\0\0\0\0\0\
    \x07\0\0\0\x12\0\x05\0\0\x10\0\0\0\0\0\0\0\0\0\0\0\0\0\0\
    \x0d\0\0\0\x12\0\x05\0\x01\x10\0\0\0\0\0\0\0\0\0\0\0\0\0\0\
    \x20\0\0\0\x10\0\xf1\xff\x2a\0\0\0\0\0\0\0\0\0\0\0\0\0\0\0\
    \x01\0\0\0\x10\0\0\0\0\0\0\0\0\0\0\0\0\0\0\0\0\0\0\0\
    \x19\0\0\0\x10\0\0\0\0\0\0\0\0\0\0\0\0\0\0\0\0\0\0\0\
    \x14\0\0\0\x10\0\x08\0\0\x30\0\0\0\0\0\0\0\0\0\0\0\0\0\0\
    \0exit2\0print\0printf\0prin\0malloc\0limit\0";

/// Their places.
const AT: HashAt = HashAt {
    hash: 0,
    symbols: 48,
    strings: 216,
};

#[test]
fn finds_exported_names(rt: HostRuntime) {
    assert_eq!(rt; find(&TABLES, &AT, b"print"), Some(0x1000));
    assert_eq!(rt; find(&TABLES, &AT, b"printf"), Some(0x1001));
    assert_eq!(rt; find(&TABLES, &AT, b"prin"), Some(0x3000));
    assert_eq!(rt; find(&TABLES, &AT, b"limit"), Some(0x2a));
}

#[test]
fn finds_no_other_name(rt: HostRuntime) {
    assert_eq!(rt; find(&TABLES, &AT, b"malloc"), None);
    assert_eq!(rt; find(&TABLES, &AT, b"exit2"), None);
    assert_eq!(rt; find(&TABLES, &AT, b"pri"), None);
    assert_eq!(rt; find(&TABLES, &AT, b"prin\0"), None);
    assert_eq!(rt; find(&TABLES, &AT, b""), None);
}

#[test]
fn reads_zero_past_the_end(rt: HostRuntime) {
    let nowhere = HashAt {
        hash: u64::MAX,
        symbols: u64::MAX,
        strings: u64::MAX,
    };
    assert_eq!(rt; find(&TABLES, &nowhere, b"print"), None);
    assert_eq!(rt; find(&[], &AT, b"print"), None);
    assert_eq!(rt; find(&TABLES[..253], &AT, b"limit"), Some(0x2a));
    assert_eq!(rt; find(&TABLES[..252], &AT, b"limit"), None);
}
