use kl_elf::{Ehdr, Phdr, write_headers};
use kl_image::ImageFault::{Head, Segment, Tables};
use kl_image::{ImageFault, view};
use std::alloc::Global;

/// The headers of a linked kernel, as `readelf` shows them.
const HEADERS: [u8; 120] = [
    // the file header
    0x7f, 0x45, 0x4c, 0x46, 2, 1, 1, 0, 0, 0, 0, 0, 0, 0, 0, 0, 2, 0, 0x3e, 0, 1, 0, 0, 0, 0, 0, 0,
    0x81, 0xff, 0xff, 0xff, 0xff, 0x40, 0, 0, 0, 0, 0, 0, 0, 0, 0, 0, 0, 0, 0, 0, 0, 0, 0, 0, 0,
    0x40, 0, 0x38, 0, 1, 0, 0, 0, 0, 0, 0, 0,
    // 64: PT_LOAD, three bytes at the base
    1, 0, 0, 0, 5, 0, 0, 0, 0, 0x10, 0, 0, 0, 0, 0, 0, 0, 0, 0, 0x81, 0xff, 0xff, 0xff, 0xff, 0, 0,
    0, 0x81, 0xff, 0xff, 0xff, 0xff, 3, 0, 0, 0, 0, 0, 0, 0, 3, 0, 0, 0, 0, 0, 0, 0, 0, 0x10, 0, 0,
    0, 0, 0, 0,
];

/// A kernel of the instructions `hlt` and `jmp` to it, which stand at 4096.
fn kernel() -> [u8; 4099] {
    let mut bytes = [0; 4099];
    bytes[..120].copy_from_slice(&HEADERS);
    bytes[4096..].copy_from_slice(&[0xf4, 0xeb, 0xfd]);
    bytes
}

/// A shared object, as `readelf` shows it. What stands at each place is said above it.
const LIBRARY: [u8; 360] = [
    // the file header
    0x7f, 0x45, 0x4c, 0x46, 2, 1, 1, 0, 0, 0, 0, 0, 0, 0, 0, 0, 3, 0, 0x3e, 0, 1, 0, 0, 0, 0, 0, 0,
    0, 0, 0, 0, 0, 0x40, 0, 0, 0, 0, 0, 0, 0, 0, 0, 0, 0, 0, 0, 0, 0, 0, 0, 0, 0, 0x40, 0, 0x38, 0,
    2, 0, 0, 0, 0, 0, 0, 0,
    // 64: PT_LOAD, the whole file at 0
    1, 0, 0, 0, 6, 0, 0, 0, 0, 0, 0, 0, 0, 0, 0, 0, 0, 0, 0, 0, 0, 0, 0, 0, 0, 0, 0, 0, 0, 0, 0, 0,
    0x68, 1, 0, 0, 0, 0, 0, 0, 0x68, 1, 0, 0, 0, 0, 0, 0, 0, 0x10, 0, 0, 0, 0, 0, 0,
    // 120: PT_DYNAMIC, the entries
    2, 0, 0, 0, 6, 0, 0, 0, 0xb0, 0, 0, 0, 0, 0, 0, 0, 0xb0, 0, 0, 0, 0, 0, 0, 0, 0xb0, 0, 0, 0, 0,
    0, 0, 0, 0x70, 0, 0, 0, 0, 0, 0, 0, 0x70, 0, 0, 0, 0, 0, 0, 0, 8, 0, 0, 0, 0, 0, 0, 0,
    // 176: DT_HASH, DT_STRTAB, DT_SYMTAB, DT_STRSZ, DT_RELA, DT_RELASZ, DT_NULL
    4, 0, 0, 0, 0, 0, 0, 0, 0x20, 1, 0, 0, 0, 0, 0, 0, 5, 0, 0, 0, 0, 0, 0, 0, 0x48, 1, 0, 0, 0, 0,
    0, 0, 6, 0, 0, 0, 0, 0, 0, 0, 0x30, 1, 0, 0, 0, 0, 0, 0, 0x0a, 0, 0, 0, 0, 0, 0, 0, 1, 0, 0, 0,
    0, 0, 0, 0, 7, 0, 0, 0, 0, 0, 0, 0, 0x50, 1, 0, 0, 0, 0, 0, 0, 8, 0, 0, 0, 0, 0, 0, 0, 0x18, 0,
    0, 0, 0, 0, 0, 0, 0, 0, 0, 0, 0, 0, 0, 0, 0, 0, 0, 0, 0, 0, 0, 0,
    // 288: the hash table: a bucket and a chain
    1, 0, 0, 0, 1, 0, 0, 0, 0, 0, 0, 0, 0, 0, 0, 0,
    // 304: symbol 0
    0, 0, 0, 0, 0, 0, 0, 0, 0, 0, 0, 0, 0, 0, 0, 0, 0, 0, 0, 0, 0, 0, 0, 0,
    // 328: the strings, of one byte
    0, 0, 0, 0, 0, 0, 0, 0,
    // 336: a relocation entry, RELATIVE at 352
    0x60, 1, 0, 0, 0, 0, 0, 0, 8, 0, 0, 0, 0, 0, 0, 0, 0, 0, 0, 0, 0, 0, 0, 0,
];

/// Bytes with some of them changed.
pub(crate) fn change(bytes: &mut [u8], changes: &[(usize, u8)]) {
    for (at, byte) in changes {
        if *at < bytes.len() {
            bytes[*at] = *byte;
        }
    }
}

/// Bytes of an image that are changed, and the first flaw that it has then.
type Row<'a> = (&'a [(usize, u8)], Option<ImageFault>);

/// The first flaw of an image, if it has one.
fn first_flaw(alloc: Global, bytes: &[u8]) -> Option<ImageFault> {
    view(alloc, bytes).err()
}

#[test]
fn views_the_headers_of_a_kernel(rt: HostRuntime) {
    let image = kernel();
    let read = view(rt.alloc(), &image);
    assert!(rt; read.is_ok());
    if let Ok(view) = read {
        assert_eq!(rt; view.head.entry, 0xffff_ffff_8100_0000);
        let segment = Phdr {
            kind: 1,
            flags: 5,
            offset: 4096,
            vaddr: 0xffff_ffff_8100_0000,
            paddr: 0xffff_ffff_8100_0000,
            filesz: 3,
            memsz: 3,
            align: 4096,
        };
        assert_eq!(rt; view.segments.items(), [segment].as_slice());
    }
}

#[test]
fn tells_an_image_that_is_cut_short(rt: HostRuntime) {
    let image = kernel();
    let rows = [
        (0, Some(Head { at: 0 })),
        (63, Some(Head { at: 63 })),
        (64, Some(Head { at: 32 })),
        (119, Some(Head { at: 32 })),
        (120, Some(Segment { index: 0 })),
        (4098, Some(Segment { index: 0 })),
        (4099, None),
    ];
    for (len, flaw) in rows {
        assert_eq!(rt; first_flaw(rt.alloc(), &image[..len]), flaw);
    }
}

#[test]
fn tells_each_flaw_of_a_kernel(rt: HostRuntime) {
    let rows: [Row; 15] = [
        (&[(0, 0x7e)], Some(Head { at: 0 })),
        (&[(6, 2)], Some(Head { at: 0 })),
        // an ABI and what stands behind it say nothing
        (&[(7, 3), (15, 1)], None),
        (&[(18, 3)], Some(Head { at: 18 })),
        (&[(20, 2)], Some(Head { at: 20 })),
        (&[(52, 52)], Some(Head { at: 52 })),
        (&[(54, 64)], Some(Head { at: 54 })),
        (&[(16, 1)], Some(Head { at: 16 })),
        // the type is asked behind the other fields
        (&[(16, 1), (54, 64)], Some(Head { at: 54 })),
        (&[(39, 0xff)], Some(Head { at: 32 })),
        // a shared object has a dynamic section
        (&[(16, 3)], Some(Tables { at: 32 })),
        // more bytes than memory; alignments of 0 and of 12288; an address at another place of its page
        (&[(104, 2)], Some(Segment { index: 0 })),
        (&[(113, 0)], Some(Segment { index: 0 })),
        (&[(113, 0x30)], Some(Segment { index: 0 })),
        (&[(80, 1)], Some(Segment { index: 0 })),
    ];
    for (changes, flaw) in rows {
        let mut image = kernel();
        change(&mut image, changes);
        assert_eq!(rt; first_flaw(rt.alloc(), &image), flaw);
    }
}

#[test]
fn tells_each_flaw_of_a_library(rt: HostRuntime) {
    let rows: [Row; 14] = [
        (&[], None),
        // PT_NOTE in place of PT_DYNAMIC; one entry less
        (&[(120, 4)], Some(Tables { at: 32 })),
        (&[(152, 0x60)], Some(Tables { at: 32 })),
        // a PT_LOAD in its place meets the first
        (&[(120, 1)], Some(Segment { index: 1 })),
        // tables past the segment's bytes: hash, strings, symbols, relocation entries
        (&[(185, 2)], Some(Tables { at: 176 })),
        (&[(288, 2)], None),
        (&[(288, 0x20)], Some(Tables { at: 176 })),
        (&[(292, 3)], Some(Tables { at: 208 })),
        (&[(232, 0x21)], Some(Tables { at: 192 })),
        (&[(249, 2)], Some(Tables { at: 240 })),
        // no whole number of relocation entries
        (&[(264, 0x10)], Some(Tables { at: 240 })),
        // without their size they have no bytes
        (&[(256, 9), (249, 2)], None),
        // of two entries with one tag the first counts
        (&[(256, 7), (265, 9)], None),
        // an executable has no tables
        (&[(16, 2), (185, 2)], None),
    ];
    for (changes, flaw) in rows {
        let mut image = LIBRARY;
        change(&mut image, changes);
        assert_eq!(rt; first_flaw(rt.alloc(), &image), flaw);
    }
}

/// An image whose program headers take up memory from these addresses on, of these sizes, and have no bytes in the file.
fn image_of(memory: &[(u64, u64); 3]) -> [u8; 232] {
    let mut bytes = [0; 232];
    let segments = memory.map(|(vaddr, memsz)| Phdr {
        kind: 1,
        flags: 4,
        offset: 0,
        vaddr,
        paddr: vaddr,
        filesz: 0,
        memsz,
        align: 1,
    });
    let head = Ehdr {
        phnum: 3,
        ..Ehdr::read(&HEADERS, 0)
    };
    write_headers(&mut bytes, &head, &segments);
    bytes
}

#[test]
fn tells_segments_that_share_memory(rt: HostRuntime) {
    let rows = [
        ([(0x3000, 0x1000), (0x2000, 0x1000), (0x1000, 0x1000)], None),
        ([(0x1000, 0x1000), (0x3000, 0x1000), (0x1fff, 1)], Some(2)),
        ([(0x1000, 0x5000), (0x7000, 1), (0x2000, 1)], Some(2)),
        ([(0x2000, 1), (0x1000, 0x2000), (0x2000, 1)], Some(1)),
        ([(0x1000, 0x1000), (0x1800, 0), (0x1000, 0)], None),
        ([(u64::MAX, 2), (0, 1), (u64::MAX - 1, 1)], None),
        ([(u64::MAX, 1), (0, 1), (u64::MAX, 1)], Some(2)),
    ];
    for (memory, index) in rows {
        let flaw = index.map(|index| Segment { index });
        assert_eq!(rt; first_flaw(rt.alloc(), &image_of(&memory)), flaw);
    }
}
