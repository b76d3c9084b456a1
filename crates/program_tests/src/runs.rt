use kl_ar::ArFault;
use kl_base::{Listed, Name};
use kl_cli::{Exit, run};
use kl_elf::HeadFault;
use kl_jobs::{Cause, KitCause, ObjectCause};
use kl_kit::{KitFault, Needed};
use kl_mem::{ListEntropy, MemStore, VecSink};
use kl_model::LinkFault;
use kl_rel::{Feature, ReadFault, ReadKind};
use kl_store::Store;
use std::alloc::Global;
use std::test::Fail;

/// An object as `as` writes it, in hexadecimal digits: `.text` of f4 eb fd, aligned to 16, with GLOBAL `start` at 0.
pub(crate) const OBJECT: &[u8] = b"\
    7f454c4602010100000000000000000001003e000100000000000000000000000000000000000000a0000000000000000000000040000000\
    0000400005000400f4ebfd000000000000000000000000000000000000000000000000000000000001000000100001000000000000000000\
    000000000000000000737461727400002e73796d746162002e737472746162002e7368737472746162002e74657874000000000000000000\
    0000000000000000000000000000000000000000000000000000000000000000000000000000000000000000000000000000000000000000\
    1b00000001000000060000000000000000000000000000004000000000000000030000000000000000000000000000001000000000000000\
    0000000000000000010000000200000000000000000000000000000000000000480000000000000030000000000000000300000001000000\
    0800000000000000180000000000000009000000030000000000000000000000000000000000000078000000000000000700000000000000\
    0000000000000000010000000000000000000000000000001100000003000000000000000000000000000000000000007f00000000000000\
    2100000000000000000000000000000001000000000000000000000000000000";

/// Another one, of `call start` alone, aligned to 16.
pub(crate) const CALL: &[u8] = b"\
    7f454c4602010100000000000000000001003e000100000000000000000000000000000000000000c0000000000000000000000040000000\
    0000400006000500e80000000000000000000000000000000000000000000000000000000000000001000000100000000000000000000000\
    0000000000000000007374617274000001000000000000000400000001000000fcffffffffffffff002e73796d746162002e737472746162\
    002e7368737472746162002e72656c612e746578740000000000000000000000000000000000000000000000000000000000000000000000\
    0000000000000000000000000000000000000000000000000000000000000000200000000100000006000000000000000000000000000000\
    400000000000000005000000000000000000000000000000100000000000000000000000000000001b000000040000004000000000000000\
    0000000000000000800000000000000018000000000000000300000001000000080000000000000018000000000000000100000002000000\
    0000000000000000000000000000000048000000000000003000000000000000040000000100000008000000000000001800000000000000\
    0900000003000000000000000000000000000000000000007800000000000000070000000000000000000000000000000100000000000000\
    0000000000000000110000000300000000000000000000000000000000000000980000000000000026000000000000000000000000000000\
    01000000000000000000000000000000";

const KIT: &[u8] = b"kind kernel\noutput /bsd\nentry start\nhead k.o\n";

/// A name of 128 bytes.
const LONG: &[u8] =
    b"/aaaaaaaaaaaaaaaaaaaaaaaaaaaaaaaaaaaaaaaaaaaaaaaaaaaaaaaaaaaaaaaaaaaaaaaaaaaaaaaaaaaaaaaaaaaaaaaaaaaaaaaaaaaaaaaaaaaaaaaaaaaaaaa";

const USAGE: &[u8] =
    b"usage: relink link DIR | reorder_kernel | reorder_libs | recover | generate N; --seed HEX may end all but recover\n";

/// A seed, and the digits of it. `examples/order/order.py` draws from it for `/bsd` gaps of 0x7a50, 0x2be90, 0xdf40 and 0x9590 bytes, and
/// of three inputs the order 1, 2, 0.
const SEED: [u8; 32] = [
    0x01, 0x23, 0x45, 0x67, 0x89, 0xab, 0xcd, 0xef, 0x01, 0x23, 0x45, 0x67, 0x89, 0xab, 0xcd, 0xef,
    0x01, 0x23, 0x45, 0x67, 0x89, 0xab, 0xcd, 0xef, 0x01, 0x23, 0x45, 0x67, 0x89, 0xab, 0xcd, 0xef,
];

const DIGITS: &[u8] = b"0123456789abcdef0123456789ABCDEF0123456789abcdef0123456789ABCDEF";

const MAP: &[u8] = b"relink map 1
output /bsd
seed 0123456789abcdef0123456789abcdef0123456789abcdef0123456789abcdef
base 0xffffffff81000000
area text 0xffffffff81000000 0xffffffff81007a60
area rodata 0xffffffff81008000 0xffffffff81033e90
area data 0xffffffff81034000 0xffffffff81041f40
area bss 0xffffffff81042000 0xffffffff8104b590
area init 0xffffffff81007a60 0xffffffff81007a60
area fini 0xffffffff81007a60 0xffffffff81007a60
area stubs 0xffffffff81007a60 0xffffffff81007a60
area eh_frame 0xffffffff81033e90 0xffffffff81033e90
area tables 0xffffffff81033e90 0xffffffff81033e90
area ctors 0xffffffff81041f40 0xffffffff81041f40
area dtors 0xffffffff81041f40 0xffffffff81041f40
area init_array 0xffffffff81041f40 0xffffffff81041f40
area fini_array 0xffffffff81041f40 0xffffffff81041f40
area got 0xffffffff81033e90 0xffffffff81033e90
area dynamic 0xffffffff81041f40 0xffffffff81041f40
piece 0 1 0xffffffff81000000 0x0000000000000003
gap text 0xffffffff81000010 0x0000000000007a50
gap rodata 0xffffffff81008000 0x000000000002be90
gap data 0xffffffff81034000 0x000000000000df40
gap bss 0xffffffff81042000 0x0000000000009590
end
";

/// The line of that link: the digest is that of an image which a script put together from the gABI.
const LINE: &[u8] =
    b"/kit linked pieces 1 fields 0 bytes 274240 sha256 29e2eb85fc84868314337aebe187028c551e61fb8370ba8a3d7e06d7f37879eb\n";

pub(crate) fn named(bytes: &[u8]) -> Result<Name, Fail> {
    Ok(Name::from_bytes(bytes)?)
}

fn object(alloc: Global) -> Result<Vec<u8>, Fail> {
    Ok(hex::decode(alloc, OBJECT)?)
}

/// The answer to words over a store, with a source of these blocks and a sink that takes so many calls, and what was written.
pub(crate) fn answer_with<S: Store>(
    alloc: Global,
    words: &[&[u8]],
    store: &mut S,
    blocks: &[[u8; 32]],
    writes: u64,
) -> Result<(Exit, VecSink), Fail> {
    let mut given = Vec::new(alloc);
    for word in words {
        given.push(Vec::from_slice(alloc, word)?)?;
    }
    let mut entropy = ListEntropy::new(Vec::from_slice(alloc, blocks)?);
    let mut out = VecSink::new(alloc);
    out.fail_from(writes);
    let exit = run(alloc, &given, store, &mut entropy, &mut out);
    Ok((exit, out))
}

/// The answer to words over a store, with a source that gives `SEED` once.
pub(crate) fn answer<S: Store>(
    alloc: Global,
    words: &[&[u8]],
    store: &mut S,
) -> Result<(Exit, VecSink), Fail> {
    answer_with(alloc, words, store, &[SEED], u64::MAX)
}

/// A store with a kit text and an object in the folder `/kit`.
fn kit_store(alloc: Global, text: &[u8], object: &[u8]) -> Result<MemStore, Fail> {
    let mut store = MemStore::new(alloc);
    store.put(&named(b"/kit/link.conf")?, text)?;
    store.put(&named(b"/kit/k.o")?, object)?;
    Ok(store)
}

/// A store with a kit text, an object `k.o` and another file in the folder `/kit`.
fn two_store(
    alloc: Global,
    text: &[u8],
    object: &[u8],
    name: &[u8],
    other: &[u8],
) -> Result<MemStore, Fail> {
    let mut store = MemStore::new(alloc);
    store.put(&named(b"/kit/link.conf")?, text)?;
    store.put(&named(b"/kit/k.o")?, object)?;
    store.put(&named(name)?, other)?;
    Ok(store)
}

/// Whether a store has the files that a link of `KIT` leaves.
fn is_linked(store: &MemStore) -> Result<bool, Fail> {
    let image = store.get(&named(b"/kit/linked.relink")?).ok_or("an image")?;
    let map = store
        .get(&named(b"/kit/linked.map.relink")?)
        .ok_or("a map")?;
    let entry: &[u8] = &[0, 0, 0, 0x81, 0xff, 0xff, 0xff, 0xff];
    let text: &[u8] = b"\xf4\xeb\xfd\xcc";
    Ok(
        image.len() == 274_240
            && &image[24..32] == entry
            && &image[4096..4100] == text
            && map == MAP
            && store.get(&named(b"/kit/link.conf")?) == Some(KIT),
    )
}

#[test]
fn links_by_a_given_seed_or_a_block(rt: HostRuntime) -> Result<(), Fail> {
    let alloc = rt.alloc();
    let given: [&[u8]; 4] = [b"link", b"/kit", b"--seed", DIGITS];
    let rows: [(usize, &[[u8; 32]]); 2] = [(4, &[]), (2, &[SEED])];
    for (count, blocks) in rows {
        let mut store = kit_store(alloc, KIT, &object(alloc)?)?;
        let (exit, out) = answer_with(alloc, &given[..count], &mut store, blocks, u64::MAX)?;
        assert_eq!(rt;
            (exit.status, exit.cause, exit.batches),
            (0, Cause::Done, 0)
        );
        assert_eq!(rt; out.bytes(), LINE);
        // the crash that carries out no change which isn't settled
        assert!(rt; is_linked(&store.crash(alloc, 0)?)?);
    }
    Ok(())
}

#[test]
fn tells_faults_of_the_source_and_the_sink(rt: HostRuntime) -> Result<(), Fail> {
    let alloc = rt.alloc();
    let mut store = kit_store(alloc, KIT, &object(alloc)?)?;
    let (exit, out) = answer_with(alloc, &[b"link", b"/kit"], &mut store, &[], u64::MAX)?;
    assert_eq!(rt; (exit.status, exit.cause), (5, Cause::Entropy));
    assert_eq!(rt; out.bytes(), b"relink: entropy fault\n".as_slice());
    assert_eq!(rt; store.get(&named(b"/kit/linked.relink")?), None);
    let (exit, out) = answer_with(alloc, &[b"link", b"/kit"], &mut store, &[SEED], 0)?;
    assert_eq!(rt; (exit.status, exit.cause), (6, Cause::Sink));
    assert_eq!(rt; out.bytes(), b"".as_slice());
    assert!(rt; is_linked(&store.crash(alloc, 0)?)?);
    Ok(())
}

/// A store with a kit of three drawn objects in the folder `/kit`.
fn drawn_store(alloc: Global) -> Result<MemStore, Fail> {
    let text =
        b"kind kernel\noutput /bsd\nentry start\nobject a.o\nhead k.o\nobject b.o\nobject c.o\n";
    let call = hex::decode(alloc, CALL)?;
    let mut store = MemStore::new(alloc);
    store.put(&named(b"/kit/link.conf")?, text)?;
    store.put(&named(b"/kit/k.o")?, &object(alloc)?)?;
    store.put(&named(b"/kit/a.o")?, &call)?;
    store.put(&named(b"/kit/b.o")?, &call)?;
    store.put(&named(b"/kit/c.o")?, &call)?;
    Ok(store)
}

#[test]
fn links_in_the_drawn_order(rt: HostRuntime) -> Result<(), Fail> {
    let alloc = rt.alloc();
    let mut store = drawn_store(alloc)?;
    let (exit, _) = answer(alloc, &[b"link", b"/kit"], &mut store)?;
    assert_eq!(rt; (exit.status, exit.cause), (0, Cause::Done));
    let map = store
        .get(&named(b"/kit/linked.map.relink")?)
        .ok_or("a map")?;
    // behind the gap, whose end is 0x7a60 behind the base, stand b.o, c.o and a.o
    let pieces: [&[u8]; 4] = [
        b"\npiece 0 1 0xffffffff81000000 ",
        b"\npiece 1 1 0xffffffff81007a80 ",
        b"\npiece 2 1 0xffffffff81007a60 ",
        b"\npiece 3 1 0xffffffff81007a70 ",
    ];
    for piece in pieces {
        let found = map.windows(piece.len()).any(|part| part == piece);
        assert!(rt; found, "{piece:?}");
    }
    Ok(())
}

#[test]
fn tells_usage(rt: HostRuntime) -> Result<(), Fail> {
    let alloc = rt.alloc();
    let cases: [&[&[u8]]; 19] = [
        &[],
        &[b"link"],
        &[b"link", b"kit"],
        &[b"link", b"/a/../b"],
        &[b"link", LONG],
        &[b"link", b"/kit", b"/kit"],
        &[b"reorder_kernel", b"/kit"],
        &[b"reorder_kernel", b"--seed", &DIGITS[1..]],
        &[b"recover", b"--seed", DIGITS],
        &[b"link", b"/kit", b"--seed"],
        &[b"link", b"/kit", b"--seed", &DIGITS[1..]],
        &[b"link", b"/kit", b"--seed", LONG],
        &[b"link", b"--seed", DIGITS, b"/kit"],
        &[b"link", b"/kit", b"--seed", DIGITS, b"/kit"],
        &[b"generate"],
        &[b"generate", b"0"],
        &[b"generate", b"01"],
        &[b"generate", b"4097"],
        &[b"generate", b"1", b"--seed", b"00"],
    ];
    for words in cases {
        let mut store = MemStore::new(alloc);
        store.fail_at(0, false)?;
        let (exit, out) = answer(alloc, words, &mut store)?;
        assert_eq!(rt;
            (exit.status, exit.cause),
            (2, Cause::Usage),
            "at {words:?}"
        );
        assert_eq!(rt; out.bytes(), USAGE);
    }
    Ok(())
}

#[test]
fn links_in_kit_order(rt: HostRuntime) -> Result<(), Fail> {
    let alloc = rt.alloc();
    let text = b"# two objects\nkind kernel\n\noutput /bsd\nentry\tstart\n  tail sub/l.o\nhead k.o";
    let call = hex::decode(alloc, CALL)?;
    let mut store = two_store(alloc, text, &object(alloc)?, b"/kit/sub/l.o", &call)?;
    let (exit, _) = answer(alloc, &[b"link", b"/kit"], &mut store)?;
    assert_eq!(rt; (exit.status, exit.cause), (0, Cause::Done));
    let image = store.get(&named(b"/kit/linked.relink")?).ok_or("an image")?;
    assert_eq!(rt; image.len(), 274_240);

    // the call stands behind the gap, 0x7a60 behind the base
    assert_eq!(rt; &image[0x1000..0x1004], b"\xf4\xeb\xfd\xcc".as_slice());
    assert_eq!(rt;
        &image[0x8a5f..0x8a65],
        b"\xcc\xe8\x9b\x85\xff\xff".as_slice()
    );
    Ok(())
}

#[test]
fn tells_faults_of_a_kit_text(rt: HostRuntime) -> Result<(), Fail> {
    let alloc = rt.alloc();
    let good = object(alloc)?;
    let rows: [(&[u8], KitFault, &[u8]); 9] = [
        (
            b"",
            KitFault::Missing { what: Needed::Kind },
            b"relink: kit fault 9 line 0\n",
        ),
        (
            b"kind kernel\r\n",
            KitFault::Byte { line: 1 },
            b"relink: kit fault 1 line 1\n",
        ),
        (
            b"kind kernel\nobjct k.o\n",
            KitFault::Keyword { line: 2 },
            b"relink: kit fault 2 line 2\n",
        ),
        (
            b"output /bsd\n",
            KitFault::Misplaced { line: 1 },
            b"relink: kit fault 3 line 1\n",
        ),
        (
            b"kind kernel\nhead\n",
            KitFault::Count { line: 2 },
            b"relink: kit fault 4 line 2\n",
        ),
        (
            b"kind kernel\nhead ../k.o\n",
            KitFault::Value { line: 2 },
            b"relink: kit fault 5 line 2\n",
        ),
        (
            b"kind library\noutput /bsd\n",
            KitFault::Reserved { line: 2 },
            b"relink: kit fault 6 line 2\n",
        ),
        (
            b"kind kernel\nhead k.o\nhead k.o\n",
            KitFault::Twice { line: 3 },
            b"relink: kit fault 7 line 3\n",
        ),
        (
            b"kind kernel\noutput /bsd\nhead k.o\n",
            KitFault::Missing {
                what: Needed::Entry,
            },
            b"relink: kit fault 9 line 0\n",
        ),
    ];
    for (text, fault, line) in rows {
        let mut store = kit_store(alloc, text, &good)?;
        let (exit, out) = answer(alloc, &[b"link", b"/kit"], &mut store)?;
        assert_eq!(rt;
            (exit.status, exit.cause),
            (12, Cause::Kit(KitCause::Text(fault)))
        );
        assert_eq!(rt; out.bytes(), line);
    }
    Ok(())
}

/// Whether an image is a shared object whose text begins a page behind its start with that of `OBJECT`.
fn is_library(image: &[u8]) -> bool {
    let shared_object: &[u8] = &[3, 0, 62, 0];
    let text: &[u8] = b"\xf4\xeb\xfd\xcc";
    image.len() > 4100 && &image[16..20] == shared_object && &image[4096..4100] == text
}

/// A call of an exported name takes a stub, a slot and an entry `JUMP_SLOT`.
#[test]
fn links_a_library(rt: HostRuntime) -> Result<(), Fail> {
    let alloc = rt.alloc();
    let text = b"kind library\noutput /usr/lib/libk.so.1\nsoname libk.so.1\nhead k.o\nobject c.o\n";
    let call = hex::decode(alloc, CALL)?;
    let mut store = two_store(alloc, text, &object(alloc)?, b"/kit/c.o", &call)?;
    let (exit, out) = answer(alloc, &[b"link", b"/kit"], &mut store)?;
    assert_eq!(rt; (exit.status, exit.cause), (0, Cause::Done));
    let line: &[u8] = b"/kit linked pieces 2 fields 1 bytes ";
    assert!(rt; out.bytes().starts_with(line));
    let image = store.get(&named(b"/kit/linked.relink")?).ok_or("an image")?;
    assert!(rt; is_library(image));
    Ok(())
}

/// An archive as `ar` writes it: `OBJECT`, and other bytes whose size is this text.
fn archive(alloc: Global, size: &[u8; 10], other: &[u8]) -> Result<Vec<u8>, Fail> {
    let mut bytes = Vec::new(alloc);
    bytes.extend_from_slice(b"!<arch>\nk.o/            ")?;
    bytes.extend_from_slice(b"0           0     0     644     480       `\n")?;
    bytes.extend_from_slice(&object(alloc)?)?;
    bytes.extend_from_slice(b"c.o/            ")?;
    bytes.extend_from_slice(b"0           0     0     644     ")?;
    bytes.extend_from_slice(size)?;
    bytes.extend_from_slice(b"`\n")?;
    bytes.extend_from_slice(other)?;
    Ok(bytes)
}

/// A library's kit of an archive alone.
const ARCHIVE_KIT: &[u8] = b"kind library\noutput /usr/lib/libk.so.1\nobject l.a\n";

/// A store with that kit and these bytes as its archive.
fn archive_store(alloc: Global, archive: &[u8]) -> Result<MemStore, Fail> {
    let mut store = MemStore::new(alloc);
    store.put(&named(b"/kit/link.conf")?, ARCHIVE_KIT)?;
    store.put(&named(b"/kit/l.a")?, archive)?;
    Ok(store)
}

/// Each member of an archive is an input.
#[test]
fn links_the_members_of_an_archive(rt: HostRuntime) -> Result<(), Fail> {
    let alloc = rt.alloc();
    let mut call = hex::decode(alloc, CALL)?;
    let mut store = archive_store(alloc, &archive(alloc, b"576       ", &call)?)?;
    let (exit, _) = answer(alloc, &[b"link", b"/kit"], &mut store)?;
    assert_eq!(rt; (exit.status, exit.cause), (0, Cause::Done));
    let map = store
        .get(&named(b"/kit/linked.map.relink")?)
        .ok_or("a map")?;
    let pieces: [&[u8]; 2] = [b"\npiece 0 1 ", b"\npiece 1 1 "];
    for piece in pieces {
        assert!(rt;
            map.windows(piece.len()).any(|part| part == piece),
            "{piece:?}"
        );
    }
    assert!(rt; !call.is_empty());
    call[0] = 0;
    let mut store = archive_store(alloc, &archive(alloc, b"576       ", &call)?)?;
    let (exit, _) = answer(alloc, &[b"link", b"/kit"], &mut store)?;
    let fault = ReadFault {
        kind: ReadKind::Head(HeadFault::Magic),
        at: 0,
    };
    let cause = Cause::Object {
        input: 1,
        line: 3,
        fault: ObjectCause::Elf(fault),
    };
    assert_eq!(rt; (exit.status, exit.cause), (13, cause));
    Ok(())
}

/// The fault of an archive is told before any flaw of its members, at the number of its first one.
#[test]
fn tells_the_fault_of_an_archive(rt: HostRuntime) -> Result<(), Fail> {
    let alloc = rt.alloc();
    let text = b"kind kernel\noutput /bsd\nentry start\nobject k.o\nobject l.a\n";
    let mut bad = archive(alloc, b"12x       ", b"no object")?;
    assert!(rt; bad.len() > 68);
    bad[68] = 0;
    let rows: [(&[u8], ArFault); 2] = [
        (&bad, ArFault::SizeText { at: 596 }),
        (b"!<thin>\n", ArFault::Thin),
    ];
    for (archive, fault) in rows {
        let mut store = two_store(alloc, text, &object(alloc)?, b"/kit/l.a", archive)?;
        let (exit, out) = answer(alloc, &[b"link", b"/kit"], &mut store)?;
        let cause = Cause::Object {
            input: 1,
            line: 5,
            fault: ObjectCause::Ar(fault),
        };
        assert_eq!(rt; (exit.status, exit.cause), (13, cause));
        assert_eq!(rt; out.bytes(), b"relink: object 1 line 5\n".as_slice());
    }
    Ok(())
}

#[test]
fn tells_flaws_of_an_object(rt: HostRuntime) -> Result<(), Fail> {
    let alloc = rt.alloc();
    // the machine; an allocated symbol table
    let flips = [
        (18, 3, ReadKind::Head(HeadFault::Machine), 18),
        (296, 2, ReadKind::Unsupported(Feature::SectionType), 292),
    ];
    for (place, byte, kind, at) in flips {
        let mut bad = object(alloc)?;
        assert!(rt; place < bad.len());
        bad[place] = byte;
        let mut store = kit_store(alloc, KIT, &bad)?;
        let (exit, out) = answer(alloc, &[b"link", b"/kit"], &mut store)?;
        let fault = ObjectCause::Elf(ReadFault { kind, at });
        let cause = Cause::Object {
            input: 0,
            line: 4,
            fault,
        };
        assert_eq!(rt; (exit.status, exit.cause), (13, cause));
        assert_eq!(rt; out.bytes(), b"relink: object 0 line 4\n".as_slice());
        assert_eq!(rt; store.get(&named(b"/kit/linked.relink")?), None);
    }
    Ok(())
}

#[test]
fn tells_the_first_input_in_kit_order(rt: HostRuntime) -> Result<(), Fail> {
    let alloc = rt.alloc();
    let text = b"kind kernel\noutput /bsd\nentry start\ntail absent.o\nobject bad.o\nhead k.o\n";
    let mut store = two_store(alloc, text, &object(alloc)?, b"/kit/bad.o", b"no object")?;
    let (exit, _) = answer(alloc, &[b"link", b"/kit"], &mut store)?;
    let fault = ReadFault {
        kind: ReadKind::Head(HeadFault::Truncated),
        at: 9,
    };
    let cause = Cause::Object {
        input: 1,
        line: 5,
        fault: ObjectCause::Elf(fault),
    };
    assert_eq!(rt; (exit.status, exit.cause), (13, cause));
    let call = hex::decode(alloc, CALL)?;
    let mut store = two_store(alloc, text, &object(alloc)?, b"/kit/bad.o", &call)?;
    let (exit, _) = answer(alloc, &[b"link", b"/kit"], &mut store)?;
    let absent = KitCause::Absent(named(b"/kit/absent.o")?);
    assert_eq!(rt; (exit.status, exit.cause), (12, Cause::Kit(absent)));
    Ok(())
}

#[test]
fn tells_the_fault_of_a_link(rt: HostRuntime) -> Result<(), Fail> {
    let alloc = rt.alloc();
    let text = b"kind kernel\noutput /bsd\nentry st\\art~\nhead k.o\n";
    let mut store = kit_store(alloc, text, &object(alloc)?)?;
    let (exit, out) = answer(alloc, &[b"link", b"/kit"], &mut store)?;
    let name = Listed::from_vec(Vec::from_slice(alloc, b"st\\art~")?);
    assert_eq!(rt;
        (exit.status, exit.cause),
        (14, Cause::Link(LinkFault::NoEntry { name }))
    );
    assert_eq!(rt;
        out.bytes(),
        b"relink: link fault 8 st\\x5cart~\n".as_slice()
    );
    Ok(())
}

/// How a link of a store's kit ends where a file isn't read, with the line of it.
fn file_cause(alloc: Global, store: &mut MemStore, line: &[u8]) -> Result<(Cause, bool), Fail> {
    let (exit, out) = answer(alloc, &[b"link", b"/kit"], store)?;
    Ok((exit.cause, exit.status == 12 && out.bytes() == line))
}

#[test]
fn tells_absent_and_long_files(rt: HostRuntime) -> Result<(), Fail> {
    let alloc = rt.alloc();
    let conf = named(b"/kit/link.conf")?;
    let mut store = MemStore::new(alloc);
    assert_eq!(rt;
        file_cause(alloc, &mut store, b"relink: absent /kit/link.conf\n")?,
        (Cause::Kit(KitCause::Absent(conf)), true)
    );
    let mut store = MemStore::new(alloc);
    store.put(&conf, KIT)?;
    let absent = KitCause::Absent(named(b"/kit/k.o")?);
    assert_eq!(rt;
        file_cause(alloc, &mut store, b"relink: absent /kit/k.o\n")?,
        (Cause::Kit(absent), true)
    );
    let mut store = MemStore::new(alloc);
    store.put(&conf, &vec![in alloc; b'#'; 4_194_305]?)?;
    assert_eq!(rt;
        file_cause(alloc, &mut store, b"relink: too long /kit/link.conf\n")?,
        (Cause::Kit(KitCause::TooLong(conf)), true)
    );
    Ok(())
}

#[test]
fn tells_store_faults(rt: HostRuntime) -> Result<(), Fail> {
    let alloc = rt.alloc();
    for call in 0..9 {
        let mut store = kit_store(alloc, KIT, &object(alloc)?)?;
        store.fail_at(call, true)?;
        let (exit, out) = answer(alloc, &[b"link", b"/kit"], &mut store)?;
        assert_eq!(rt;
            (exit.status, exit.cause),
            (4, Cause::Store),
            "at call {call}"
        );
        assert_eq!(rt; out.bytes(), b"relink: store fault\n".as_slice());
        assert_eq!(rt; store.get(&named(b"/kit/link.conf")?), Some(KIT));
    }
    Ok(())
}
