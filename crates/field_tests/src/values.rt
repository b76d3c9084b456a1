// The values of fields and their bytes. The rows are the psABI's table "Relocation Types".
ghost use Rattle.std.specs.Prelude.{IsTrue};
ghost use Rattle.kl_model.specs.Relocations.{is_kind};

use kl_model::is_linked;
use kl_reloc::{Patch, RangeFault, apply, value_of};

/// Ten bytes cc with a field of the type `kind` from the second on, where its value is in range.
fn field(kind: u8, s: u64, a: i64, p: u64) -> Option<[u8; 10]>
    requires { IsTrue (is_kind kind) }
{
    match value_of(kind, s, a, p) {
        Ok(patch) => {
            let mut bytes = [0xcc; 10];
            apply(&mut bytes, 1, &patch);
            Some(bytes)
        }
        Err(RangeFault) => None,
    }
}

/// Whether the value of a field of the type `kind` is in range.
fn is_in_range(kind: u8, s: u64, p: u64) -> bool
    requires { IsTrue (is_kind kind) }
{
    value_of(kind, s, 0, p).is_ok()
}

#[test]
fn writes_fields(rt: HostRuntime) {
    let rows = [
        // NONE, 64, PC32, PLT32
        (0, 0x1234, 5, 6, b"\xcc\xcc\xcc\xcc\xcc\xcc\xcc\xcc\xcc\xcc"),
        (
            1,
            0x8000_0000_0000_0001,
            -2,
            6,
            b"\xcc\xff\xff\xff\xff\xff\xff\xff\x7f\xcc",
        ),
        (
            2,
            0x1000,
            -4,
            0x2000,
            b"\xcc\xfc\xef\xff\xff\xcc\xcc\xcc\xcc\xcc",
        ),
        (
            4,
            0x2000,
            -4,
            0x1000,
            b"\xcc\xfc\x0f\x00\x00\xcc\xcc\xcc\xcc\xcc",
        ),
        // GOTPCREL, GOTPCRELX, REX_GOTPCRELX
        (
            9,
            0x2000,
            -4,
            0x1003,
            b"\xcc\xf9\x0f\x00\x00\xcc\xcc\xcc\xcc\xcc",
        ),
        (
            41,
            0x2000,
            -4,
            0x1003,
            b"\xcc\xf9\x0f\x00\x00\xcc\xcc\xcc\xcc\xcc",
        ),
        (
            42,
            0x2000,
            -4,
            0x1003,
            b"\xcc\xf9\x0f\x00\x00\xcc\xcc\xcc\xcc\xcc",
        ),
        // 32, 32S, 16, PC16, 8, PC8, PC64
        (
            10,
            0x8000_0000,
            1,
            6,
            b"\xcc\x01\x00\x00\x80\xcc\xcc\xcc\xcc\xcc",
        ),
        (
            11,
            0xffff_ffff_8000_0000,
            1,
            6,
            b"\xcc\x01\x00\x00\x80\xcc\xcc\xcc\xcc\xcc",
        ),
        (
            12,
            0xfffe,
            1,
            6,
            b"\xcc\xff\xff\xcc\xcc\xcc\xcc\xcc\xcc\xcc",
        ),
        (
            13,
            0x1000,
            0,
            0x9000,
            b"\xcc\x00\x80\xcc\xcc\xcc\xcc\xcc\xcc\xcc",
        ),
        (14, 0xff, 0, 0, b"\xcc\xff\xcc\xcc\xcc\xcc\xcc\xcc\xcc\xcc"),
        (
            14,
            0xffff_ffff_ffff_ff80,
            0,
            0,
            b"\xcc\x80\xcc\xcc\xcc\xcc\xcc\xcc\xcc\xcc",
        ),
        (
            15,
            0x1000,
            1,
            0x1002,
            b"\xcc\xff\xcc\xcc\xcc\xcc\xcc\xcc\xcc\xcc",
        ),
        (24, 1, 0, 2, b"\xcc\xff\xff\xff\xff\xff\xff\xff\xff\xcc"),
    ];
    for (kind, s, a, p, bytes) in rows {
        assert!(rt; is_linked(u32::from(kind)));
        assert_eq!(rt; field(kind, s, a, p), Some(*bytes), "type {kind}");
    }
}

#[test]
fn tells_values_out_of_range(rt: HostRuntime) {
    // The type, what is subtracted, and the least and the greatest value that is out of range.
    let rows = [
        (2, 0x9000, 0x8000_0000, 0xffff_ffff_7fff_ffff),
        (4, 0x9000, 0x8000_0000, 0xffff_ffff_7fff_ffff),
        (9, 0x9000, 0x8000_0000, 0xffff_ffff_7fff_ffff),
        (10, 0, 0x1_0000_0000, 0xffff_ffff_ffff_ffff),
        (11, 0, 0x8000_0000, 0xffff_ffff_7fff_ffff),
        (12, 0, 0x1_0000, 0xffff_ffff_ffff_7fff),
        (13, 0x9000, 0x8000, 0xffff_ffff_ffff_7fff),
        (14, 0, 0x100, 0xffff_ffff_ffff_ff7f),
        (15, 0x9000, 0x80, 0xffff_ffff_ffff_ff7f),
        (41, 0x9000, 0x8000_0000, 0xffff_ffff_7fff_ffff),
        (42, 0x9000, 0x8000_0000, 0xffff_ffff_7fff_ffff),
    ];
    for (kind, less, first, last) in rows {
        assert!(rt; is_linked(u32::from(kind)));
        let s: u64 = first;
        let s = s.wrapping_add(less);
        let end: u64 = last;
        let end = end.wrapping_add(less);
        assert!(rt; is_in_range(kind, s.wrapping_sub(1), 0x9000), "type {kind}");
        assert!(rt; !is_in_range(kind, s, 0x9000), "type {kind}");
        assert!(rt; !is_in_range(kind, end, 0x9000), "type {kind}");
        assert!(rt;
            is_in_range(kind, end.wrapping_add(1), 0x9000),
            "type {kind}"
        );
    }
    for kind in [0, 1, 24] {
        assert!(rt; is_linked(u32::from(kind)));
        for s in [
            0,
            0x7fff_ffff_ffff_ffff,
            0x8000_0000_0000_0000,
            0xffff_ffff_ffff_ffff,
        ] {
            assert!(rt; is_in_range(kind, s, 0), "type {kind}");
        }
    }
}

#[test]
fn writes_each_width_alone(rt: HostRuntime) {
    let rows = [
        (0, b"\xcc\xcc\xcc\xcc\xcc\xcc\xcc\xcc\xcc\xcc"),
        (1, b"\xcc\x08\xcc\xcc\xcc\xcc\xcc\xcc\xcc\xcc"),
        (2, b"\xcc\x08\x07\xcc\xcc\xcc\xcc\xcc\xcc\xcc"),
        (4, b"\xcc\x08\x07\x06\x05\xcc\xcc\xcc\xcc\xcc"),
        (8, b"\xcc\x08\x07\x06\x05\x04\x03\x02\x01\xcc"),
    ];
    for (width, bytes) in rows {
        let mut found = [0xcc; 10];
        let patch = Patch {
            value: 0x0102_0304_0506_0708,
            width,
        };
        assert!(rt; matches!(width, 0 | 1 | 2 | 4 | 8));
        apply(&mut found, 1, &patch);
        assert_eq!(rt; found, *bytes, "width {width}");
    }
}
