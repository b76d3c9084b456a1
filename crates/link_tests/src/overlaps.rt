use crate::objects::OBJECT;
use kl_rel::ReadKind::{FieldOverlap, RelaLink, RelaPlace};
use kl_rel::{LimitError, ReadError, ReadFault, ReadKind, read_object, read_object_within};

/// The offset, the relocation type and the symbol of an entry.
type Entry = (u8, u8, u8);

/// The object with four entries at 712, 736, 760 and 784 in place of its own. They are those of section 2, or where they are
/// split the last two are those of section 6, which is no group then.
fn with_entries(entries: &[Entry; 4], split: bool) -> [u8; 808] {
    let mut bytes = [0; 808];
    bytes[..712].copy_from_slice(&OBJECT);
    for index in 0..4 {
        let (offset, kind, symbol) = entries[index];
        bytes[712 + 24 * index] = offset;
        bytes[712 + 24 * index + 8] = kind;
        bytes[712 + 24 * index + 12] = symbol;
    }
    let (first, second): (u64, u64) = if split { (48, 48) } else { (96, 0) };
    bytes[416..424].copy_from_slice(&712_u64.to_le_bytes());
    bytes[424..432].copy_from_slice(&first.to_le_bytes());
    bytes[652] = 4;
    bytes[672..680].copy_from_slice(&760_u64.to_le_bytes());
    bytes[680..688].copy_from_slice(&second.to_le_bytes());
    bytes[704] = 24;
    bytes
}

/// Fields of 4 bytes are of type 2 (PC32), of 8 of type 1 (64), of 1 of type 14 (8) and of none of type 0 (NONE).
#[test]
fn reads_fields_in_any_order_that_share_no_byte(rt: HostRuntime) {
    let rows = [
        // one run, and two that meet in each gap
        [(0, 2, 1), (4, 2, 1), (8, 2, 1), (12, 2, 1)],
        [(0, 2, 1), (8, 2, 1), (4, 2, 1), (12, 2, 1)],
        [(12, 2, 1), (8, 2, 1), (4, 2, 1), (0, 2, 1)],
        // fields without a byte, in a field and at the end
        [(0, 2, 1), (16, 0, 1), (2, 0, 1), (4, 2, 1)],
        [(2, 0, 1), (2, 0, 1), (8, 1, 1), (0, 1, 1)],
    ];
    for entries in &rows {
        for split in [false, true] {
            let read = read_object(rt.alloc(), &with_entries(entries, split));
            assert!(rt; read.is_ok());
            if let Ok(object) = read {
                let fields = object.fields.items();
                assert_eq!(rt; fields.len(), 4);
                for (field, (offset, _, _)) in fields.iter().zip(entries) {
                    assert_eq!(rt; field.offset, u64::from(*offset));
                }
            }
        }
    }
}

/// Four entries, and the first flaw that they have: its kind and place.
type Row = ([Entry; 4], ReadKind, u64);

#[test]
fn tells_the_first_flaw_of_fields_in_any_order(rt: HostRuntime) {
    let rows: [Row; 10] = [
        // a field of the second run shares its last byte with one of the first, its first byte, or all
        (
            [(0, 2, 1), (8, 2, 1), (5, 2, 1), (12, 2, 1)],
            FieldOverlap,
            760,
        ),
        (
            [(0, 2, 1), (8, 2, 1), (3, 2, 1), (12, 2, 1)],
            FieldOverlap,
            760,
        ),
        (
            [(0, 1, 1), (12, 2, 1), (7, 14, 1), (8, 2, 1)],
            FieldOverlap,
            760,
        ),
        (
            [(4, 2, 1), (12, 2, 1), (0, 2, 1), (4, 2, 1)],
            FieldOverlap,
            784,
        ),
        // the first of two in the file, not in the section
        (
            [(8, 2, 1), (9, 2, 1), (0, 2, 1), (1, 2, 1)],
            FieldOverlap,
            736,
        ),
        // a field without a byte before one that shares some
        (
            [(4, 1, 1), (5, 0, 1), (0, 2, 1), (3, 14, 1)],
            FieldOverlap,
            784,
        ),
        // an overlap before another flaw, and after one
        (
            [(8, 2, 1), (8, 2, 1), (0, 2, 3), (4, 2, 1)],
            FieldOverlap,
            736,
        ),
        (
            [(8, 2, 1), (7, 2, 1), (13, 2, 1), (0, 2, 1)],
            FieldOverlap,
            736,
        ),
        ([(8, 2, 1), (0, 2, 3), (8, 2, 1), (4, 2, 1)], RelaLink, 744),
        (
            [(13, 2, 1), (8, 2, 1), (8, 2, 1), (4, 2, 1)],
            RelaPlace,
            712,
        ),
    ];
    for (entries, kind, at) in &rows {
        for split in [false, true] {
            let read = read_object(rt.alloc(), &with_entries(entries, split));
            let fault = ReadFault {
                kind: *kind,
                at: *at,
            };
            assert_eq!(rt; read.err(), Some(ReadError::Flaw(fault)));
        }
    }
}

/// With a limit of three of the four entries, an object is told by its first flaw, or else by their number.
#[test]
fn tells_the_first_flaw_of_more_fields_than_the_limit(rt: HostRuntime) {
    let rows: [(&[Entry; 4], Option<(ReadKind, u64)>); 9] = [
        (&[(0, 2, 1), (4, 2, 1), (8, 2, 1), (12, 2, 1)], None),
        (&[(12, 2, 1), (8, 2, 1), (4, 2, 1), (0, 2, 1)], None),
        (&[(0, 2, 1), (16, 0, 1), (2, 0, 1), (4, 2, 1)], None),
        (
            &[(0, 2, 1), (8, 2, 1), (5, 2, 1), (12, 2, 1)],
            Some((FieldOverlap, 760)),
        ),
        (
            &[(8, 2, 1), (9, 2, 1), (0, 2, 1), (1, 2, 1)],
            Some((FieldOverlap, 736)),
        ),
        (
            &[(4, 1, 1), (5, 0, 1), (0, 2, 1), (3, 14, 1)],
            Some((FieldOverlap, 784)),
        ),
        (
            &[(8, 2, 1), (8, 2, 1), (0, 2, 3), (4, 2, 1)],
            Some((FieldOverlap, 736)),
        ),
        (
            &[(8, 2, 1), (0, 2, 3), (8, 2, 1), (4, 2, 1)],
            Some((RelaLink, 744)),
        ),
        (
            &[(13, 2, 1), (8, 2, 1), (8, 2, 1), (4, 2, 1)],
            Some((RelaPlace, 712)),
        ),
    ];
    for (entries, flaw) in &rows {
        for split in [false, true] {
            let bytes = with_entries(entries, split);
            let read = read_object_within(rt.alloc(), &bytes, 3);
            let refusal = match flaw {
                Some((kind, at)) => LimitError::Flaw(ReadFault {
                    kind: *kind,
                    at: *at,
                }),
                None => LimitError::TooManyFields {
                    sections: 6,
                    symbols: 3,
                },
            };
            assert_eq!(rt; read.err(), Some(refusal));
            let whole = read_object_within(rt.alloc(), &bytes, 4);
            assert_eq!(rt; whole.is_ok(), flaw.is_none());
        }
    }
}

/// A section named by two relocation sections that name one range of the file: its entries are there twice.
#[test]
fn tells_entries_that_are_named_twice(rt: HostRuntime) {
    let entries = [(0, 2, 1), (4, 2, 1), (8, 2, 1), (12, 2, 1)];
    let mut bytes = with_entries(&entries, true);
    // 712 in place of 760
    bytes[672] = 0xc8;
    let fault = ReadFault {
        kind: FieldOverlap,
        at: 712,
    };
    let read = read_object(rt.alloc(), &bytes);
    assert_eq!(rt; read.err(), Some(ReadError::Flaw(fault)));
    let read = read_object_within(rt.alloc(), &bytes, 3);
    assert_eq!(rt; read.err(), Some(LimitError::Flaw(fault)));
}
