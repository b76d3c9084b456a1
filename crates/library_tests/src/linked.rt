// Libraries that the program links, as a loader reads them: what their hash tables find, and the slot of an exported name at two bases.
ghost use Rattle.std.specs.Prelude.{◌≡◌};
ghost use Rattle.std.specs.FinMap.{empty, insert};

use kl_base::Name;
use kl_cli::run;
use kl_dyn::{HashAt, find};
use kl_image::{Loaded, Resolver, load, view};
use kl_mem::{ListEntropy, MemStore, VecSink};
use std::alloc::Global;
use std::test::Fail;

/// `nop`, `exit: mov exit@GOTPCREL(%rip), %rax`, `ret`, and `secret: ret`, which is HIDDEN; in hexadecimal digits, as
/// `as --64 -mx86-used-note=no -mrelax-relocations=no` and `objcopy -R .data -R .bss` write it.
const EXIT: &[u8] = b"\
    7f454c4602010100000000000000000001003e00010000000000000000000000000000000000000018010000000000000000000040000000\
    000040000600050090488b0500000000c3c30000000000000000000000000000000000000000000000000000000000000100000012000100\
    010000000000000000000000000000000600000010020100090000000000000000000000000000000d000000100000000000000000000000\
    0000000000000000006578697400736563726574005f474c4f42414c5f4f46465345545f5441424c455f0000000000000400000000000000\
    0900000001000000fcffffffffffffff002e73796d746162002e737472746162002e7368737472746162002e72656c612e74657874000000\
    0000000000000000000000000000000000000000000000000000000000000000000000000000000000000000000000000000000000000000\
    000000000000000020000000010000000600000000000000000000000000000040000000000000000a000000000000000000000000000000\
    010000000000000000000000000000001b0000000400000040000000000000000000000000000000d8000000000000001800000000000000\
    0300000001000000080000000000000018000000000000000100000002000000000000000000000000000000000000005000000000000000\
    6000000000000000040000000100000008000000000000001800000000000000090000000300000000000000000000000000000000000000\
    b000000000000000230000000000000000000000000000000100000000000000000000000000000011000000030000000000000000000000\
    0000000000000000f0000000000000002600000000000000000000000000000001000000000000000000000000000000";

/// `ret`, without a name.
const BARE: &[u8] = b"\
    7f454c4602010100000000000000000001003e00010000000000000000000000000000000000000058000000000000000000000040000000\
    0000400003000200c3002e7368737472746162002e7465787400000000000000000000000000000000000000000000000000000000000000\
    000000000000000000000000000000000000000000000000000000000000000000000000000000000b000000010000000600000000000000\
    0000000000000000400000000000000001000000000000000000000000000000010000000000000000000000000000000100000003000000\
    0000000000000000000000000000000041000000000000001100000000000000000000000000000001000000000000000000000000000000";

/// Where the tables of both stand, behind a page of headers and one of text.
const TABLES: u64 = 0x2000;

/// The tables of `EXIT`, with two buckets and two symbols.
const EXIT_AT: HashAt = HashAt {
    hash: TABLES,
    symbols: TABLES + 24,
    strings: TABLES + 72,
};

/// The one slot of `EXIT`.
const SLOT: u64 = 0x3000;

/// A resolver that answers 0x1234 for `exit`.
#[derive(Drop)]
struct Exits<'a> {
    name: &'a [u8],
}

impl<'a> Resolver for Exits<'a> {
    ghost numbers = { λ s. insert empty s.name.now 0x1234 };

    fn resolve(&self, name: &[u8]) -> u64 {
        if name == self.name { 0x1234 } else { 0 }
    }
}

/// The library of an object, linked by `relink link`.
fn linked(alloc: Global, object: &[u8]) -> Result<Vec<u8>, Fail> {
    let mut store = MemStore::new(alloc);
    let text = b"kind library\noutput /usr/lib/libx.so.1.0\nobject k.o\n";
    store.put(&Name::from_bytes(b"/kit/link.conf")?, text)?;
    store.put(
        &Name::from_bytes(b"/kit/k.o")?,
        &hex::decode(alloc, object)?,
    )?;
    let mut words = Vec::new(alloc);
    words.push(Vec::from_slice(alloc, b"link")?)?;
    words.push(Vec::from_slice(alloc, b"/kit")?)?;
    let mut entropy = ListEntropy::new(Vec::from_slice(alloc, &[[0; 32]])?);
    let mut out = VecSink::new(alloc);
    if run(alloc, &words, &mut store, &mut entropy, &mut out).status != 0 {
        return Err(Fail::from("no library"));
    }
    let image = store
        .get(&Name::from_bytes(b"/kit/linked.relink")?)
        .ok_or("an image")?;
    Ok(Vec::from_slice(alloc, image)?)
}

/// The number in eight bytes, the low byte first, where all of them are mapped.
fn number_at(loaded: &Loaded, address: u64) -> Option<u64> {
    let mut bytes = [0; 8];
    for (place, byte) in (0..8).zip(bytes.iter_mut()) {
        *byte = loaded.byte(address.wrapping_add(place))?;
    }
    Some(u64::from_le_bytes(bytes))
}

/// What the slot of `exit` holds at a base.
fn slot_at(alloc: Global, image: &[u8], base: u64) -> Result<Option<u64>, Fail> {
    let Ok(read) = view(alloc, image) else {
        return Err(Fail::from("a flaw"));
    };
    if !read.is_base(base) {
        return Err(Fail::from("no base"));
    }
    let loaded = load(alloc, image, &read, base, &Exits { name: b"exit" })?;
    Ok(number_at(&loaded, base.wrapping_add(SLOT)))
}

#[test]
fn finds_what_a_linked_library_exports(rt: HostRuntime) -> Result<(), Fail> {
    let image = linked(rt.alloc(), EXIT)?;
    assert_eq!(rt; find(&image, &EXIT_AT, b"exit"), Some(0x1001));
    assert_eq!(rt; find(&image, &EXIT_AT, b"secret"), None);
    Ok(())
}

#[test]
fn resolves_an_exported_name_at_each_base(rt: HostRuntime) -> Result<(), Fail> {
    let alloc = rt.alloc();
    let image = linked(alloc, EXIT)?;
    for base in [0, 0x7f00_0000_0000] {
        assert_eq!(rt; slot_at(alloc, &image, base)?, Some(0x1234));
    }
    Ok(())
}

#[test]
fn makes_one_bucket_and_one_chain_without_names(rt: HostRuntime) -> Result<(), Fail> {
    let image = linked(rt.alloc(), BARE)?;
    let words: &[u8] = b"\x01\0\0\0\x01\0\0\0\0\0\0\0\0\0\0\0";
    assert!(rt; image.len() > 0x2010 && &image[0x2000..0x2010] == words);
    Ok(())
}
