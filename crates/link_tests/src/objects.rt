use kl_base::Range;
use kl_elf::HeadFault;
use kl_model::{RawField, Section, Symbol};
use kl_rel::ReadKind::{
    Align, FieldOverlap, GroupForm, Head, NameRange, RelaKindForm, RelaLink, RelaPlace,
    SectionRange, SectionTable, SymbolSection, SymbolTable, Unsupported,
};
use kl_rel::{Feature, ReadError, ReadFault, ReadKind, read_object};
use std::alloc::Global;
use std::process::Abort;

/// An object as `readelf` shows it: a text of 16 bytes with two relocation entries, a COMDAT group that holds it, and the
/// tables of symbols and names. What stands at each place is said above it.
pub(crate) const OBJECT: [u8; 712] = [
    // the file header
    0x7f, 0x45, 0x4c, 0x46, 2, 1, 1, 0, 0, 0, 0, 0, 0, 0, 0, 0, 1, 0, 0x3e, 0, 1, 0, 0, 0, 0, 0, 0,
    0, 0, 0, 0, 0, 0, 0, 0, 0, 0, 0, 0, 0, 8, 1, 0, 0, 0, 0, 0, 0, 0, 0, 0, 0, 0x40, 0, 0, 0, 0, 0,
    0x40, 0, 7, 0, 5, 0,
    // 64: the text
    0xe8, 0, 0, 0, 0, 0xc3, 0x90, 0x90, 0, 0, 0, 0, 0, 0, 0, 0,
    // 80: its relocation entries, PLT32 at 1 and 64 at 8
    1, 0, 0, 0, 0, 0, 0, 0, 4, 0, 0, 0, 2, 0, 0, 0, 0xfc, 0xff, 0xff, 0xff, 0xff, 0xff, 0xff, 0xff,
    8, 0, 0, 0, 0, 0, 0, 0, 1, 0, 0, 0, 1, 0, 0, 0, 5, 0, 0, 0, 0, 0, 0, 0,
    // 128: the symbols: number 0, that of the text section, and `start`
    0, 0, 0, 0, 0, 0, 0, 0, 0, 0, 0, 0, 0, 0, 0, 0, 0, 0, 0, 0, 0, 0, 0, 0, 0, 0, 0, 0, 3, 0, 1, 0,
    0, 0, 0, 0, 0, 0, 0, 0, 0, 0, 0, 0, 0, 0, 0, 0, 1, 0, 0, 0, 0x12, 2, 1, 0, 0, 0, 0, 0, 0, 0, 0,
    0, 6, 0, 0, 0, 0, 0, 0, 0,
    // 200: the names of symbols
    0, 0x73, 0x74, 0x61, 0x72, 0x74, 0, 0,
    // 208: the names of sections
    0, 0x2e, 0x72, 0x65, 0x6c, 0x61, 0x2e, 0x74, 0x65, 0x78, 0x74, 0, 0x2e, 0x73, 0x79, 0x6d, 0x74,
    0x61, 0x62, 0, 0x2e, 0x73, 0x74, 0x72, 0x74, 0x61, 0x62, 0, 0x2e, 0x73, 0x68, 0x73, 0x74, 0x72,
    0x74, 0x61, 0x62, 0, 0x2e, 0x67, 0x72, 0x6f, 0x75, 0x70, 0, 0, 0, 0,
    // 256: the group, of GRP_COMDAT and section 1
    1, 0, 0, 0, 1, 0, 0, 0,
    // 264: section 0
    0, 0, 0, 0, 0, 0, 0, 0, 0, 0, 0, 0, 0, 0, 0, 0, 0, 0, 0, 0, 0, 0, 0, 0, 0, 0, 0, 0, 0, 0, 0, 0,
    0, 0, 0, 0, 0, 0, 0, 0, 0, 0, 0, 0, 0, 0, 0, 0, 0, 0, 0, 0, 0, 0, 0, 0, 0, 0, 0, 0, 0, 0, 0, 0,
    // 328: .text
    6, 0, 0, 0, 1, 0, 0, 0, 6, 2, 0, 0, 0, 0, 0, 0, 0, 0, 0, 0, 0, 0, 0, 0, 0x40, 0, 0, 0, 0, 0, 0,
    0, 0x10, 0, 0, 0, 0, 0, 0, 0, 0, 0, 0, 0, 0, 0, 0, 0, 0x10, 0, 0, 0, 0, 0, 0, 0, 0, 0, 0, 0, 0,
    0, 0, 0,
    // 392: .rela.text
    1, 0, 0, 0, 4, 0, 0, 0, 0x40, 0, 0, 0, 0, 0, 0, 0, 0, 0, 0, 0, 0, 0, 0, 0, 0x50, 0, 0, 0, 0, 0,
    0, 0, 0x30, 0, 0, 0, 0, 0, 0, 0, 3, 0, 0, 0, 1, 0, 0, 0, 8, 0, 0, 0, 0, 0, 0, 0, 0x18, 0, 0, 0,
    0, 0, 0, 0,
    // 456: .symtab
    0x0c, 0, 0, 0, 2, 0, 0, 0, 0, 0, 0, 0, 0, 0, 0, 0, 0, 0, 0, 0, 0, 0, 0, 0, 0x80, 0, 0, 0, 0, 0,
    0, 0, 0x48, 0, 0, 0, 0, 0, 0, 0, 4, 0, 0, 0, 2, 0, 0, 0, 8, 0, 0, 0, 0, 0, 0, 0, 0x18, 0, 0, 0,
    0, 0, 0, 0,
    // 520: .strtab
    0x14, 0, 0, 0, 3, 0, 0, 0, 0, 0, 0, 0, 0, 0, 0, 0, 0, 0, 0, 0, 0, 0, 0, 0, 0xc8, 0, 0, 0, 0, 0,
    0, 0, 8, 0, 0, 0, 0, 0, 0, 0, 0, 0, 0, 0, 0, 0, 0, 0, 1, 0, 0, 0, 0, 0, 0, 0, 0, 0, 0, 0, 0, 0,
    0, 0,
    // 584: .shstrtab
    0x1c, 0, 0, 0, 3, 0, 0, 0, 0, 0, 0, 0, 0, 0, 0, 0, 0, 0, 0, 0, 0, 0, 0, 0, 0xd0, 0, 0, 0, 0, 0,
    0, 0, 0x2d, 0, 0, 0, 0, 0, 0, 0, 0, 0, 0, 0, 0, 0, 0, 0, 1, 0, 0, 0, 0, 0, 0, 0, 0, 0, 0, 0, 0,
    0, 0, 0,
    // 648: .group
    0x26, 0, 0, 0, 0x11, 0, 0, 0, 0, 0, 0, 0, 0, 0, 0, 0, 0, 0, 0, 0, 0, 0, 0, 0, 0, 1, 0, 0, 0, 0,
    0, 0, 8, 0, 0, 0, 0, 0, 0, 0, 3, 0, 0, 0, 1, 0, 0, 0, 4, 0, 0, 0, 0, 0, 0, 0, 4, 0, 0, 0, 0, 0,
    0, 0,
];

/// `call start`, aligned to 16, as `as --64 -mx86-used-note=no` and `objcopy -R .data -R .bss` write it: the entry at 128 has
/// its field in the last four of five bytes.
const CALL: [u8; 576] = *b"\
    \x7fELF\x02\x01\x01\0\0\0\0\0\0\0\0\0\x01\0>\0\x01\0\0\0\0\0\0\0\0\0\0\0\0\0\0\0\0\0\0\0\xc0\0\0\0\0\0\0\0\0\0\
    \0\0@\0\0\0\0\0@\0\x06\0\x05\0\
    \xe8\0\0\0\0\0\0\0\0\0\0\0\0\0\0\0\0\0\0\0\0\0\0\0\0\0\0\0\0\0\0\0\x01\0\0\0\x10\0\0\0\0\0\0\0\0\0\0\0\0\0\0\0\
    \0\0\0\0\0start\0\0\
    \x01\0\0\0\0\0\0\0\x04\0\0\0\x01\0\0\0\xfc\xff\xff\xff\xff\xff\xff\xff\0.symtab\0.strtab\0.shstrtab\0.rela.tex\
    t\0\0\0\
    \0\0\0\0\0\0\0\0\0\0\0\0\0\0\0\0\0\0\0\0\0\0\0\0\0\0\0\0\0\0\0\0\0\0\0\0\0\0\0\0\0\0\0\0\0\0\0\0\0\0\0\0\0\0\0\
    \0\0\0\0\0\0\0\0\0\
    \x20\0\0\0\x01\0\0\0\x06\0\0\0\0\0\0\0\0\0\0\0\0\0\0\0@\0\0\0\0\0\0\0\x05\0\0\0\0\0\0\0\0\0\0\0\0\0\0\0\x10\0\
    \0\0\0\0\0\0\0\0\0\0\0\0\0\0\
    \x1b\0\0\0\x04\0\0\0@\0\0\0\0\0\0\0\0\0\0\0\0\0\0\0\x80\0\0\0\0\0\0\0\x18\0\0\0\0\0\0\0\x03\0\0\0\x01\0\0\0\
    \x08\0\0\0\0\0\0\0\x18\0\0\0\0\0\0\0\
    \x01\0\0\0\x02\0\0\0\0\0\0\0\0\0\0\0\0\0\0\0\0\0\0\0H\0\0\0\0\0\0\00\0\0\0\0\0\0\0\x04\0\0\0\x01\0\0\0\x08\0\0\
    \0\0\0\0\0\x18\0\0\0\0\0\0\0\
    \x09\0\0\0\x03\0\0\0\0\0\0\0\0\0\0\0\0\0\0\0\0\0\0\0x\0\0\0\0\0\0\0\x07\0\0\0\0\0\0\0\0\0\0\0\0\0\0\0\x01\0\0\
    \0\0\0\0\0\0\0\0\0\0\0\0\0\
    \x11\0\0\0\x03\0\0\0\0\0\0\0\0\0\0\0\0\0\0\0\0\0\0\0\x98\0\0\0\0\0\0\0&\0\0\0\0\0\0\0\0\0\0\0\0\0\0\0\x01\0\0\
    \0\0\0\0\0\0\0\0\0\0\0\0\0";

/// The object with some of its bytes changed.
fn changed(changes: &[(usize, u8)]) -> [u8; 712] {
    let mut bytes = OBJECT;
    for (at, byte) in changes {
        if *at < bytes.len() {
            bytes[*at] = *byte;
        }
    }
    bytes
}

#[test]
fn reads_the_sections_and_symbols_of_an_object(rt: HostRuntime) {
    let read = read_object(rt.alloc(), &OBJECT);
    assert!(rt; read.is_ok());
    if let Ok(object) = read {
        let sections = object.sections.items();
        assert_eq!(rt; sections.len(), 6);
        assert_eq!(rt;
            sections.first().copied(),
            Some(Section {
                name: Range { at: 214, len: 5 },
                kind: 1,
                flags: 0x206,
                at: 64,
                size: 16,
                align: 16,
            })
        );
        let symbols = object.symbols.items();
        assert_eq!(rt; symbols.len(), 3);
        assert_eq!(rt;
            symbols.last().copied(),
            Some(Symbol {
                name: Range { at: 201, len: 5 },
                binding: 1,
                kind: 2,
                visibility: 2,
                section: 1,
                value: 0,
                size: 6,
            })
        );
    }
}

#[test]
fn reads_the_fields_and_groups_of_an_object(rt: HostRuntime) {
    let read = read_object(rt.alloc(), &OBJECT);
    assert!(rt; read.is_ok());
    if let Ok(object) = read {
        let field = RawField {
            rela: 2,
            index: 0,
            section: 1,
            offset: 1,
            kind: 4,
            symbol: 2,
            addend: -4,
        };
        let last = RawField {
            rela: 2,
            index: 1,
            section: 1,
            offset: 8,
            kind: 1,
            symbol: 1,
            addend: 5,
        };
        assert_eq!(rt; object.fields.items(), [field, last].as_slice());
        let groups = object.groups.items();
        assert_eq!(rt; groups.len(), 1);
        for group in groups {
            assert_eq!(rt; (group.section, group.comdat), (6, true));
            assert_eq!(rt; group.signature, Range { at: 214, len: 5 });
            assert_eq!(rt; group.members.items(), [1].as_slice());
        }
    }
}

#[test]
fn tells_an_object_that_is_cut_short(rt: HostRuntime) {
    for object in [OBJECT.as_slice(), CALL.as_slice()] {
        for len in 0..object.len() {
            let flaw = if len < 64 {
                flaw(Head(HeadFault::Truncated), len as u64)
            } else {
                flaw(SectionTable, 40)
            };
            let read = read_object(rt.alloc(), &object[..len]);
            assert_eq!(rt; read.err(), flaw.map(ReadError::Flaw));
        }
    }
}

#[test]
fn tells_a_field_that_passes_its_section(rt: HostRuntime) {
    let mut bytes = CALL;
    assert!(rt; read_object(rt.alloc(), &bytes).is_ok());
    bytes[128] = 2;
    let read = read_object(rt.alloc(), &bytes);
    assert_eq!(rt; read.err(), flaw(RelaPlace, 128).map(ReadError::Flaw));
}

/// Bytes of the object that are changed, and the first flaw that it has then: its kind and place.
type Row<'a> = (&'a [(usize, u8)], ReadKind, u64);

/// Asserts the flaw of each row.
fn assert_flaws(rt: &impl Abort, alloc: Global, rows: &[Row]) {
    for (changes, kind, at) in rows {
        let read = read_object(alloc, &changed(changes));
        assert_eq!(rt; read.err(), flaw(*kind, *at).map(ReadError::Flaw));
    }
}

#[test]
fn tells_a_flaw_of_the_file_header(rt: HostRuntime) {
    let extended = Unsupported(Feature::Extended);
    let rows: [Row; 10] = [
        (&[(18, 3)], Head(HeadFault::Machine), 18),
        (&[(60, 0)], extended, 60),
        (&[(62, 0xff), (63, 0xff)], extended, 62),
        (&[(40, 0), (41, 0), (60, 0)], SectionTable, 60),
        (&[(40, 9)], SectionTable, 40),
        (&[(47, 0xff)], SectionTable, 40),
        (&[(60, 8)], SectionTable, 40),
        (&[(62, 0)], SectionTable, 62),
        (&[(62, 7)], SectionTable, 62),
        (&[(62, 1)], SectionTable, 62),
    ];
    assert_flaws(&rt, rt.alloc(), &rows);
}

#[test]
fn tells_a_section_that_passes_the_end_of_the_file(rt: HostRuntime) {
    let rows: [Row; 2] = [
        // one at 2^64 - 1, and one that ends past the file
        (
            &[
                (352, 0xff),
                (353, 0xff),
                (354, 0xff),
                (355, 0xff),
                (356, 0xff),
                (357, 0xff),
                (358, 0xff),
                (359, 0xff),
            ],
            SectionRange,
            352,
        ),
        (&[(617, 2)], SectionRange, 608),
    ];
    assert_flaws(&rt, rt.alloc(), &rows);
}

#[test]
fn tells_a_flaw_of_a_section(rt: HostRuntime) {
    let section_type = Unsupported(Feature::SectionType);
    let rows: [Row; 11] = [
        (&[(328, 48)], NameRange, 328),
        (&[(337, 6)], Unsupported(Feature::Tls), 336),
        (&[(337, 10)], Unsupported(Feature::Compressed), 336),
        (&[(336, 7)], Unsupported(Feature::WriteExecute), 336),
        (&[(332, 3)], section_type, 332),
        (&[(332, 0)], section_type, 332),
        (&[(460, 9), (464, 2)], section_type, 460),
        // the name .dtors.symtab
        (
            &[
                (215, b'd'),
                (216, b't'),
                (217, b'o'),
                (218, b'r'),
                (219, b's'),
            ],
            Unsupported(Feature::Priority),
            328,
        ),
        (&[(376, 3)], Align, 376),
        (&[(376, 0), (378, 0x40)], Align, 376),
        (&[(332, 8), (363, 0x40)], SectionRange, 360),
    ];
    assert_flaws(&rt, rt.alloc(), &rows);
}

#[test]
fn tells_a_flaw_of_the_symbol_table(rt: HostRuntime) {
    let rows: [Row; 7] = [
        (&[(524, 2)], SymbolTable, 524),
        (&[(488, 0)], SymbolTable, 488),
        (&[(488, 71)], SymbolTable, 488),
        (&[(512, 23)], SymbolTable, 512),
        (&[(496, 1)], SymbolTable, 496),
        (&[(500, 0)], SymbolTable, 500),
        (&[(500, 4)], SymbolTable, 500),
    ];
    assert_flaws(&rt, rt.alloc(), &rows);
}

#[test]
fn tells_a_flaw_of_a_symbol(rt: HostRuntime) {
    let extended = Unsupported(Feature::Extended);
    let rows: [Row; 16] = [
        // the name, the order and the type
        (&[(176, 8)], NameRange, 176),
        (&[(176, 0)], NameRange, 176),
        (&[(180, 2)], SymbolTable, 180),
        (&[(500, 3)], SymbolTable, 180),
        (&[(500, 1)], SymbolTable, 156),
        (&[(180, 0x32)], Unsupported(Feature::Binding), 180),
        (&[(180, 0x16)], Unsupported(Feature::Tls), 180),
        (&[(180, 0x1a)], Unsupported(Feature::Ifunc), 180),
        (&[(180, 0x17)], Unsupported(Feature::SymbolType), 180),
        // the section, the value and the size
        (&[(182, 0xff), (183, 0xff)], extended, 182),
        (&[(182, 7)], SymbolSection, 182),
        (&[(182, 0), (183, 0xff)], SymbolSection, 182),
        (&[(158, 0)], SymbolSection, 158),
        (&[(182, 0xf2), (183, 0xff)], Align, 184),
        (&[(184, 1), (187, 0x40)], SymbolSection, 184),
        (
            &[(182, 0xf2), (183, 0xff), (184, 8), (195, 0x41)],
            SymbolSection,
            192,
        ),
    ];
    assert_flaws(&rt, rt.alloc(), &rows);
}

#[test]
fn tells_a_flaw_of_a_relocation_section_or_entry(rt: HostRuntime) {
    let rows: [Row; 11] = [
        (&[(436, 7)], RelaLink, 436),
        (&[(396, 9)], RelaKindForm, 396),
        (&[(332, 8)], RelaLink, 436),
        (&[(432, 4)], RelaLink, 432),
        (&[(448, 16)], RelaLink, 448),
        (&[(424, 47)], RelaLink, 424),
        // the entries
        (&[(92, 3)], RelaLink, 88),
        (&[(80, 13)], RelaPlace, 80),
        (&[(87, 0xff)], RelaPlace, 80),
        (&[(80, 5)], FieldOverlap, 104),
        (&[(80, 12), (104, 5)], FieldOverlap, 104),
    ];
    assert_flaws(&rt, rt.alloc(), &rows);
}

#[test]
fn tells_a_flaw_of_a_group(rt: HostRuntime) {
    let rows: [Row; 10] = [
        (&[(680, 7)], GroupForm, 680),
        (&[(680, 3)], GroupForm, 680),
        (&[(688, 4)], GroupForm, 688),
        (&[(692, 0)], GroupForm, 692),
        (&[(692, 3)], GroupForm, 692),
        (&[(256, 2)], GroupForm, 256),
        // the members
        (&[(260, 0)], GroupForm, 260),
        (&[(260, 7)], GroupForm, 260),
        (&[(260, 6)], GroupForm, 260),
        (&[(680, 12), (264, 1)], GroupForm, 264),
    ];
    assert_flaws(&rt, rt.alloc(), &rows);
}

#[test]
fn reads_what_has_no_flaw(rt: HostRuntime) {
    // a field of 4 bytes at 12 and then one of 8 at 4, an entry of no width at the end, an alignment of 0, a common
    // symbol, a symbol at 2^30, the bytes of section 0 and of symbol 0, and no symbol table
    let rows: [&[(usize, u8)]; 8] = [
        &[(80, 12), (104, 4)],
        &[(88, 0), (80, 16)],
        &[(376, 0)],
        &[(182, 0xf2), (183, 0xff), (184, 8)],
        &[(187, 0x40)],
        &[(268, 2), (272, 7)],
        &[(128, 9), (132, 0xff)],
        &[(396, 1), (460, 1), (652, 1)],
    ];
    for changes in rows {
        let read = read_object(rt.alloc(), &changed(changes));
        assert!(rt; read.is_ok());
    }
}

/// Where a field of a header is 0, 1, the file's length and 2^64 - 1, cut to its width: the flaws of the four.
type Flaws = [Option<ReadFault>; 4];

fn flaw(kind: ReadKind, at: u64) -> Option<ReadFault> {
    Some(ReadFault { kind, at })
}

/// The same flaw of all four.
fn any(kind: ReadKind, at: u64) -> Flaws {
    [flaw(kind, at); 4]
}

/// A flaw of the two large ones.
fn large(kind: ReadKind, at: u64) -> Flaws {
    [None, None, flaw(kind, at), flaw(kind, at)]
}

/// A flaw of all but 1.
fn not_one(kind: ReadKind, at: u64) -> Flaws {
    [flaw(kind, at), None, flaw(kind, at), flaw(kind, at)]
}

/// Storage of threads, as the flaw of the largest.
fn tls(at: u64) -> Flaws {
    [None, None, None, flaw(Unsupported(Feature::Tls), at)]
}

/// A flaw of 0, one of 1, and of the two large ones that the section passes the end of the file at `at`.
fn range(zero: ReadKind, at_zero: u64, one: ReadKind, at_one: u64, at: u64) -> Flaws {
    let past = flaw(SectionRange, at);
    [flaw(zero, at_zero), flaw(one, at_one), past, past]
}

/// Asserts the flaws of fields of headers, each given by its place and width.
fn assert_field_flaws(rt: &impl Abort, alloc: Global, rows: &[(usize, usize, Flaws)]) {
    for (place, width, flaws) in rows {
        assert!(rt; *place <= 704 && *width <= 8);
        for (value, flaw) in [0, 1, 712, u64::MAX].iter().zip(flaws) {
            let mut bytes = OBJECT;
            bytes[*place..*place + *width].copy_from_slice(&value.to_le_bytes()[..*width]);
            let read = read_object(alloc, &bytes);
            assert_eq!(rt; read.err(), flaw.map(ReadError::Flaw));
        }
    }
}

#[test]
fn tells_a_field_of_the_file_header_that_is_off(rt: HostRuntime) {
    let extended = Unsupported(Feature::Extended);
    let table = |at: u64| flaw(SectionTable, at);
    let rows = [
        (16, 2, not_one(Head(HeadFault::FileType), 16)),
        (18, 2, any(Head(HeadFault::Machine), 18)),
        (20, 4, not_one(Head(HeadFault::FileVersion), 20)),
        (24, 8, [None; 4]),
        (32, 8, [None; 4]),
        (40, 8, [table(62), table(62), table(40), table(40)]),
        (48, 4, [None; 4]),
        (52, 2, any(Head(HeadFault::HeadSize), 52)),
        (54, 2, [None; 4]),
        (56, 2, [None; 4]),
        (58, 2, any(Head(HeadFault::SectionSize), 58)),
        (60, 2, [flaw(extended, 60), table(62), table(40), table(40)]),
        (62, 2, [table(62), table(62), table(62), flaw(extended, 62)]),
    ];
    assert_field_flaws(&rt, rt.alloc(), &rows);
}

#[test]
fn reads_any_values_in_the_header_of_section_0(rt: HostRuntime) {
    let rows = [
        (268, 4, [None; 4]),
        (272, 8, [None; 4]),
        (288, 8, [None; 4]),
        (296, 8, [None; 4]),
    ];
    assert_field_flaws(&rt, rt.alloc(), &rows);
}

#[test]
fn tells_a_field_of_the_header_of_text_that_is_off(rt: HostRuntime) {
    let rows = [
        (328, 4, large(NameRange, 328)),
        (332, 4, not_one(Unsupported(Feature::SectionType), 332)),
        (336, 8, tls(336)),
        (344, 8, [None; 4]),
        (352, 8, large(SectionRange, 352)),
        (360, 8, range(RelaPlace, 80, RelaPlace, 80, 352)),
        (368, 4, [None; 4]),
        (372, 4, [None; 4]),
        (376, 8, large(Align, 376)),
        (384, 8, [None; 4]),
    ];
    assert_field_flaws(&rt, rt.alloc(), &rows);
}

#[test]
fn tells_a_field_of_the_header_of_relocations_that_is_off(rt: HostRuntime) {
    let past = flaw(SectionRange, 416);
    let rows = [
        (392, 4, large(NameRange, 392)),
        (396, 4, [None; 4]),
        (400, 8, tls(400)),
        (416, 8, range(RelaPlace, 0, RelaLink, 9, 416)),
        (424, 8, [None, flaw(RelaLink, 424), past, past]),
        (432, 4, any(RelaLink, 432)),
        (436, 4, large(RelaLink, 436)),
        (448, 8, any(RelaLink, 448)),
    ];
    assert_field_flaws(&rt, rt.alloc(), &rows);
}

#[test]
fn tells_a_field_of_the_header_of_symbols_that_is_off(rt: HostRuntime) {
    let locals = flaw(SymbolTable, 500);
    let rows = [
        (456, 4, large(NameRange, 456)),
        (460, 4, any(RelaLink, 432)),
        (464, 8, tls(464)),
        (480, 8, range(SymbolSection, 30, SymbolSection, 31, 480)),
        (488, 8, range(SymbolTable, 488, SymbolTable, 488, 480)),
        (496, 4, any(SymbolTable, 496)),
        (500, 4, [locals, flaw(SymbolTable, 156), locals, locals]),
        (512, 8, any(SymbolTable, 512)),
    ];
    assert_field_flaws(&rt, rt.alloc(), &rows);
}

#[test]
fn tells_a_field_of_the_headers_of_string_tables_that_is_off(rt: HostRuntime) {
    let rows = [
        // .strtab
        (520, 4, large(NameRange, 520)),
        (524, 4, any(SymbolTable, 496)),
        (544, 8, large(SectionRange, 544)),
        (552, 8, range(NameRange, 152, NameRange, 176, 544)),
        // .shstrtab
        (588, 4, any(SectionTable, 62)),
        (608, 8, large(SectionRange, 608)),
        (616, 8, range(NameRange, 328, NameRange, 328, 608)),
    ];
    assert_field_flaws(&rt, rt.alloc(), &rows);
}

#[test]
fn tells_a_field_of_the_header_of_a_group_that_is_off(rt: HostRuntime) {
    let rows = [
        (652, 4, [None; 4]),
        (672, 8, range(GroupForm, 0, GroupForm, 1, 672)),
        (680, 8, range(GroupForm, 680, GroupForm, 680, 672)),
        (688, 4, any(GroupForm, 688)),
        (692, 4, not_one(GroupForm, 692)),
    ];
    assert_field_flaws(&rt, rt.alloc(), &rows);
}
