use kl_elf::abi::{PF_R, PF_X, PT_LOAD};
use kl_elf::{Dyn, Ehdr, HeadFault, Phdr, Rela, Shdr, Sym, read_ehdr, write_headers};
use std::test::Fail;

/// The header of an object that has no flaw, as the gABI lays it out.
const OBJECT: [u8; 64] = [
    0x7f, b'E', b'L', b'F', 2, 1, 1, 0, 0, 0, 0, 0, 0, 0, 0, 0, // e_ident
    1, 0, 62, 0, 1, 0, 0, 0, // e_type, e_machine, e_version
    0, 0, 0, 0, 0, 0, 0, 0, // e_entry
    0, 0, 0, 0, 0, 0, 0, 0, // e_phoff
    0x40, 2, 0, 0, 0, 0, 0, 0, // e_shoff
    0, 0, 0, 0, 64, 0, 0, 0, 0, 0, // e_flags, e_ehsize, e_phentsize, e_phnum
    64, 0, 9, 0, 8, 0, // e_shentsize, e_shnum, e_shstrndx
];

#[test]
fn reads_the_header_of_an_object(rt: HostRuntime) {
    let read = read_ehdr(&OBJECT);
    assert_eq!(rt; read.is_ok(), true);
    if let Ok(head) = read {
        assert_eq!(rt; (head.kind, head.machine, head.version), (1, 62, 1));
        assert_eq!(rt; (head.shoff, head.shnum, head.shstrndx), (0x240, 9, 8));
    }
}

#[test]
fn tells_a_header_that_is_cut_short(rt: HostRuntime) {
    for len in 0..64 {
        assert_eq!(rt;
            read_ehdr(&OBJECT[..len]),
            Err((HeadFault::Truncated, len as u64))
        );
    }
}

#[test]
fn tells_each_byte_that_differs(rt: HostRuntime) {
    let rows = [
        (0, HeadFault::Magic, 0),
        (1, HeadFault::Magic, 1),
        (2, HeadFault::Magic, 2),
        (3, HeadFault::Magic, 3),
        (4, HeadFault::IdentClass, 4),
        (5, HeadFault::IdentOrder, 5),
        (6, HeadFault::IdentVersion, 6),
        (16, HeadFault::FileType, 16),
        (17, HeadFault::FileType, 16),
        (18, HeadFault::Machine, 18),
        (19, HeadFault::Machine, 18),
        (20, HeadFault::FileVersion, 20),
        (23, HeadFault::FileVersion, 20),
        (52, HeadFault::HeadSize, 52),
        (53, HeadFault::HeadSize, 52),
        (58, HeadFault::SectionSize, 58),
        (59, HeadFault::SectionSize, 58),
    ];
    for (at, fault, place) in rows {
        let mut bytes = OBJECT;
        assert!(rt; at < bytes.len());
        bytes[at] ^= 0x80;
        assert_eq!(rt; read_ehdr(&bytes), Err((fault, place)));
    }
}

#[test]
fn writes_and_reads_each_record(rt: HostRuntime) {
    let mut bytes = [0; 72];
    let section = Shdr {
        name: 1,
        kind: 2,
        flags: 3,
        addr: 4,
        offset: 5,
        size: 6,
        link: 7,
        info: 8,
        addralign: 9,
        entsize: 10,
    };
    section.write(&mut bytes, 4);
    assert_eq!(rt; Shdr::read(&bytes, 4), section);
    let symbol = Sym {
        name: 1,
        info: 0x12,
        other: 2,
        shndx: 3,
        value: 4,
        size: 5,
    };
    symbol.write(&mut bytes, 0);
    assert_eq!(rt; Sym::read(&bytes, 0), symbol);
    let relocation = Rela {
        offset: 1,
        info: 0x3_0000_0002,
        addend: -4,
    };
    relocation.write(&mut bytes, 24);
    assert_eq!(rt; Rela::read(&bytes, 24), relocation);
    assert_eq!(rt;
        &bytes[40..48],
        [0xfc, 0xff, 0xff, 0xff, 0xff, 0xff, 0xff, 0xff].as_slice()
    );
    let entry = Dyn { tag: 5, value: 6 };
    entry.write(&mut bytes, 56);
    assert_eq!(rt; Dyn::read(&bytes, 56), entry);
}

#[test]
fn writes_the_headers_of_an_image(rt: HostRuntime) {
    let mut image = [0xcc; 121];
    let head = Ehdr::read(&OBJECT, 0);
    let load = Phdr {
        kind: PT_LOAD,
        flags: PF_R | PF_X,
        offset: 0x1000,
        vaddr: 0x40_1000,
        paddr: 0x40_1000,
        filesz: 3,
        memsz: 3,
        align: 0x1000,
    };
    write_headers(&mut image, &head, &[load]);
    assert!(rt; image.starts_with(&OBJECT));
    assert_eq!(rt; Phdr::read(&image, 64), load);
    assert_eq!(rt; (image[64], image[68], image[120]), (1, 5, 0xcc));
}
