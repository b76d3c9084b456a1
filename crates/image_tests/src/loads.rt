ghost use Rattle.std.specs.Prelude.{◌≡◌};
ghost use Rattle.std.specs.FinMap.{empty, insert};

use crate::views::change;
use kl_image::{Loaded, Resolver, load, view};
use std::alloc::Global;

/// A shared object as `ld -shared` makes one, with an entry of each type, as `readelf` shows it.
const LIBRARY: [u8; 600] = [
    // the file header
    0x7f, 0x45, 0x4c, 0x46, 2, 1, 1, 0, 0, 0, 0, 0, 0, 0, 0, 0, 3, 0, 0x3e, 0, 1, 0, 0, 0, 0, 0, 0,
    0, 0, 0, 0, 0, 0x40, 0, 0, 0, 0, 0, 0, 0, 0, 0, 0, 0, 0, 0, 0, 0, 0, 0, 0, 0, 0x40, 0, 0x38, 0,
    2, 0, 0, 0, 0, 0, 0, 0,
    // 64: PT_LOAD, the whole file at 4096, and eight zero bytes behind it
    1, 0, 0, 0, 6, 0, 0, 0, 0, 0, 0, 0, 0, 0, 0, 0, 0, 0x10, 0, 0, 0, 0, 0, 0, 0, 0x10, 0, 0, 0, 0,
    0, 0, 0x58, 2, 0, 0, 0, 0, 0, 0, 0x60, 2, 0, 0, 0, 0, 0, 0, 0, 0x10, 0, 0, 0, 0, 0, 0,
    // 120: PT_DYNAMIC, the entries
    2, 0, 0, 0, 6, 0, 0, 0, 0xb0, 0, 0, 0, 0, 0, 0, 0, 0xb0, 0x10, 0, 0, 0, 0, 0, 0, 0xb0, 0x10, 0,
    0, 0, 0, 0, 0, 0xc0, 0, 0, 0, 0, 0, 0, 0, 0xc0, 0, 0, 0, 0, 0, 0, 0, 8, 0, 0, 0, 0, 0, 0, 0,
    // 176: DT_HASH, DT_STRTAB, DT_SYMTAB, DT_STRSZ, DT_SYMENT
    4, 0, 0, 0, 0, 0, 0, 0, 0x70, 0x11, 0, 0, 0, 0, 0, 0, 5, 0, 0, 0, 0, 0, 0, 0, 0xd0, 0x11, 0, 0,
    0, 0, 0, 0, 6, 0, 0, 0, 0, 0, 0, 0, 0x88, 0x11, 0, 0, 0, 0, 0, 0, 0x0a, 0, 0, 0, 0, 0, 0, 0, 5,
    0, 0, 0, 0, 0, 0, 0, 0x0b, 0, 0, 0, 0, 0, 0, 0, 0x18, 0, 0, 0, 0, 0, 0, 0,
    // 256: DT_RELA, DT_RELASZ, DT_RELAENT, DT_JMPREL, DT_PLTRELSZ, DT_PLTREL, DT_NULL
    7, 0, 0, 0, 0, 0, 0, 0, 0xd8, 0x11, 0, 0, 0, 0, 0, 0, 8, 0, 0, 0, 0, 0, 0, 0, 0x48, 0, 0, 0, 0,
    0, 0, 0, 9, 0, 0, 0, 0, 0, 0, 0, 0x18, 0, 0, 0, 0, 0, 0, 0, 0x17, 0, 0, 0, 0, 0, 0, 0, 0x20,
    0x12, 0, 0, 0, 0, 0, 0, 2, 0, 0, 0, 0, 0, 0, 0, 0x18, 0, 0, 0, 0, 0, 0, 0, 0x14, 0, 0, 0, 0, 0,
    0, 0, 7, 0, 0, 0, 0, 0, 0, 0, 0, 0, 0, 0, 0, 0, 0, 0, 0, 0, 0, 0, 0, 0, 0, 0,
    // 368: the hash table: a bucket and three chains
    1, 0, 0, 0, 3, 0, 0, 0, 1, 0, 0, 0, 0, 0, 0, 0, 2, 0, 0, 0, 0, 0, 0, 0,
    // 392: symbol 0, `f` and `d`
    0, 0, 0, 0, 0, 0, 0, 0, 0, 0, 0, 0, 0, 0, 0, 0, 0, 0, 0, 0, 0, 0, 0, 0, 1, 0, 0, 0, 0x12, 0, 0,
    0, 0, 0, 0, 0, 0, 0, 0, 0, 0, 0, 0, 0, 0, 0, 0, 0, 3, 0, 0, 0, 0x11, 0, 0, 0, 0, 0, 0, 0, 0, 0,
    0, 0, 0, 0, 0, 0, 0, 0, 0, 0,
    // 464: the strings
    0, 0x66, 0, 0x64, 0, 0, 0, 0,
    // 472: relocation entries: RELATIVE, 64 of `d` less 8, GLOB_DAT of `d`
    0x38, 0x12, 0, 0, 0, 0, 0, 0, 8, 0, 0, 0, 0, 0, 0, 0, 0x58, 0x12, 0, 0, 0, 0, 0, 0, 0x40, 0x12,
    0, 0, 0, 0, 0, 0, 1, 0, 0, 0, 2, 0, 0, 0, 0xf8, 0xff, 0xff, 0xff, 0xff, 0xff, 0xff, 0xff, 0x48,
    0x12, 0, 0, 0, 0, 0, 0, 6, 0, 0, 0, 2, 0, 0, 0, 0, 0, 0, 0, 0, 0, 0, 0,
    // 544: JUMP_SLOT of `f`
    0x50, 0x12, 0, 0, 0, 0, 0, 0, 7, 0, 0, 0, 1, 0, 0, 0, 0, 0, 0, 0, 0, 0, 0, 0,
    // 568: the places that they write
    0, 0, 0, 0, 0, 0, 0, 0, 0, 0, 0, 0, 0, 0, 0, 0, 0, 0, 0, 0, 0, 0, 0, 0, 0x40, 0x10, 0, 0, 0, 0,
    0, 0,
];

/// The addresses of the places that the entries write, and of the zero bytes behind them.
const PLACES: [u64; 5] = [0x1238, 0x1240, 0x1248, 0x1250, 0x1258];

/// A resolver that knows one name.
#[derive(Drop)]
struct One<'a> {
    name: &'a [u8],
    number: u64,
}

impl<'a> Resolver for One<'a> {
    ghost numbers = { λ s. insert empty s.name.now s.number };

    fn resolve(&self, name: &[u8]) -> u64 {
        if name == self.name { self.number } else { 0 }
    }
}

/// The image at a base, if it can be loaded there.
fn load_at<'a>(alloc: Global, image: &'a [u8], base: u64, names: &One) -> Option<Loaded<'a>> {
    let Ok(read) = view(alloc, image) else {
        return None;
    };
    if !read.is_base(base) {
        return None;
    }
    load(alloc, image, &read, base, names).ok()
}

/// The number in eight bytes, the low byte first, where all of them are mapped.
fn number_at(loaded: &Loaded, address: u64) -> Option<u64> {
    let mut bytes = [0; 8];
    for (place, byte) in (0..8).zip(bytes.iter_mut()) {
        *byte = loaded.byte(address.wrapping_add(place))?;
    }
    Some(u64::from_le_bytes(bytes))
}

/// The numbers that the entries leave at a base, and that behind them.
fn numbers(alloc: Global, image: &[u8], base: u64, names: &One) -> Option<[u64; 5]> {
    let loaded = load_at(alloc, image, base, names)?;
    let mut numbers = [0; 5];
    for (place, number) in PLACES.iter().zip(numbers.iter_mut()) {
        *number = number_at(&loaded, base.wrapping_add(*place))?;
    }
    Some(numbers)
}

#[test]
fn carries_out_the_entries(rt: HostRuntime) {
    let rows: [(u64, &[u8], u64, [u64; 5]); 3] = [
        // base + A; S + A, where A is -8; S; S. A name without a number has 0
        (0, b"d", 0x5000, [0x1258, 0x4ff8, 0x5000, 0, 0]),
        (
            0x7fff_f7fc_0000,
            b"f",
            0x1122_3344_5566_7788,
            [0x7fff_f7fc_1258, u64::MAX - 7, 0, 0x1122_3344_5566_7788, 0],
        ),
        (0x1_0000, b"d", 7, [0x1_1258, u64::MAX, 7, 0, 0]),
    ];
    for (base, name, number, wanted) in rows {
        let found = numbers(rt.alloc(), &LIBRARY, base, &One { name, number });
        assert_eq!(rt; found, Some(wanted));
    }
}

#[test]
fn passes_over_what_has_no_place_or_number(rt: HostRuntime) {
    let rows: [(&[(usize, u8)], [u64; 5]); 8] = [
        // another type; a place that ends behind the memory, and one that ends with it
        (&[(480, 37)], [0, u64::MAX - 7, 0, 0x77, 0]),
        (&[(472, 0x59)], [0, u64::MAX - 7, 0, 0x77, 0]),
        (&[(472, 0x58)], [0, u64::MAX - 7, 0, 0x77, 0x1258]),
        // a symbol past the table, a name past the strings, and one that no zero byte ends
        (&[(556, 3)], [0x1258, u64::MAX - 7, 0, 0x1040, 0]),
        (&[(416, 5)], [0x1258, u64::MAX - 7, 0, 0x1040, 0]),
        (&[(232, 2)], [0x1258, 0, 0, 0x1040, 0]),
        // the last entry at a place stands; here in four bytes of each of two places
        (
            &[(544, 0x3c)],
            [0x77_0000_1258, 0xffff_ffff_0000_0000, 0, 0x1040, 0],
        ),
        // an executable has no entries
        (&[(16, 2)], [0, 0, 0, 0x1040, 0]),
    ];
    for (changes, wanted) in rows {
        let mut image = LIBRARY;
        change(&mut image, changes);
        let names = One {
            name: b"f",
            number: 0x77,
        };
        assert_eq!(rt; numbers(rt.alloc(), &image, 0, &names), Some(wanted));
    }
}

#[test]
fn maps_the_memory_of_its_headers_alone(rt: HostRuntime) {
    let names = One {
        name: b"d",
        number: 0,
    };
    let rows = [
        (0x1000, None),
        (0x1_0fff, None),
        (0x1_1000, Some(0x7f)),
        (0x1_1000 + 607, Some(0)),
        (0x1_1000 + 608, None),
    ];
    let loaded = load_at(rt.alloc(), &LIBRARY, 0x1_0000, &names);
    assert!(rt; loaded.is_some());
    if let Some(loaded) = loaded {
        for (address, byte) in rows {
            assert_eq!(rt; loaded.byte(address), byte);
        }
    }
}

#[test]
fn tells_a_base(rt: HostRuntime) {
    let rows = [
        (3, 0x1000, true),
        (3, 0x1800, false),
        (3, 0xffff_ffff_ffff_e000, true),
        (3, 0xffff_ffff_ffff_f000, false),
        (2, 0, true),
        (2, 0x1000, false),
    ];
    for (kind, base, is_base) in rows {
        let mut image = LIBRARY;
        change(&mut image, &[(16, kind)]);
        let read = view(rt.alloc(), &image);
        assert!(rt; read.is_ok_and(|read| read.is_base(base) == is_base));
    }
}
