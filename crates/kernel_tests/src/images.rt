// Images of kernels with pieces of each class: where areas, runs, commons and edges stand, and what lies between them.
ghost use Rattle.std.specs.Prelude.{◌≡◌, ◌≤◌, All, AllPairs, length};
ghost use Rattle.kernel_tests.specs.Small.{IsSmall};
ghost use Rattle.kl_model.specs.Fit.{IsFit, IsKit};
ghost use Rattle.kl_model.specs.Kept.{part_number};
ghost use Rattle.kl_model.specs.Orders.{IsOrder};
ghost use Rattle.kl_model.specs.declared.kit.KitKind.TheVariants.{Kernel};

use crate::kernels::{BASE, bytes_at, inputs, link_kit};
use crate::objects::{AREAS, BLANK, INIT, LARGE};
use crate::resolution::kit;
use kl_model::area::BSS;
use kl_model::{AreaAt, Input, Kit, Linked};
use std::alloc::Global;
use std::test::Fail;

const HOOKS: &[u8] = b"entry start
run .hooks data first_hook last_hook
edge no_dtors dtors start
edge after_dtors dtors end
edge memory_end bss end
";

/// Where the areas stand from the base on, by number, and behind them the run.
const HOOKS_AT: [(u64, u64); 16] = [
    (0, 0x3d),
    (0x1000, 0x1003),
    (0x2000, 0x2020),
    (0x3000, 0x3018),
    (0x34, 0x39),
    (0x3c, 0x3d),
    (0x3d, 0x3d),
    (0x1003, 0x1003),
    (0x1003, 0x1003),
    (0x2010, 0x2018),
    (0x2018, 0x2018),
    (0x2018, 0x2020),
    (0x2020, 0x2020),
    (0x1003, 0x1003),
    (0x2020, 0x2020),
    (0x2008, 0x2010),
];

/// The text: the entry, the addresses of edges and of the common, `init` and `fini`.
const HOOKS_TEXT: &[u8] = b"\xf4\
    \x08\x20\x00\x81\xff\xff\xff\xff\x10\x20\x00\x81\xff\xff\xff\xff\
    \x18\x20\x00\x81\xff\xff\xff\xff\x18\x20\x00\x81\xff\xff\xff\xff\
    \x08\x30\x00\x81\xff\xff\xff\xff\x18\x30\x00\x81\xff\xff\xff\xff\
    \xcc\xcc\xcc\x55\x90\x90\x90\x56\xcc\xcc\xcc\x5d\x00";

/// The data: the ordinary piece, the run, `ctors` and `init_array`.
const HOOKS_DATA: &[u8] = b"\x01\x02\x03\x04\x05\x00\x00\x00\
    \x00\x00\x00\x81\xff\xff\xff\xff\x00\x00\x00\x81\xff\xff\xff\xff\x00\x00\x00\x81\xff\xff\xff\xff";

/// The kernel of a kit.
fn linked_of(alloc: Global, kit: &Kit, inputs: &[Input], order: &[u32]) -> Result<Linked, Fail>
    requires form { IsKit kit.now }
    requires kernel { kit.now.kind ≡ Kernel }
    requires fit { All IsFit inputs.now }
    requires small { All IsSmall inputs.now }
    requires places { AllPairs (λ x y. part_number x.place ≤ part_number y.place) inputs.now }
    requires order { IsOrder (length order.now) order.now }
{
    Ok(
        link_kit(alloc, kit, inputs, None, order)?
            .ok()
            .ok_or("a kernel")?,
    )
}

/// Where areas stand from a base on.
fn places(alloc: Global, areas: &[AreaAt], base: u64) -> Result<Vec<(u64, u64)>, Fail> {
    let mut found = Vec::new(alloc);
    for area in areas {
        found.push((area.start.wrapping_sub(base), area.end.wrapping_sub(base)))?;
    }
    Ok(found)
}

#[test]
fn lays_out_areas_runs_and_commons(rt: HostRuntime) -> Result<(), Fail> {
    let alloc = rt.alloc();
    let inputs = inputs(alloc, &[AREAS, INIT])?;
    let linked = linked_of(alloc, &kit(alloc, HOOKS)?, &inputs, &[0])?;
    let found = places(alloc, linked.placement.areas.items(), BASE)?;
    assert_eq!(rt; found.as_slice(), HOOKS_AT.as_slice());
    assert_eq!(rt; (linked.fields, linked.image.len()), (9, 4096 + 0x2020));
    assert_eq!(rt; bytes_at(&linked.image, 4096, 0x3e), HOOKS_TEXT);
    assert_eq!(rt;
        bytes_at(&linked.image, 4096 + 0x1000, 4),
        b"\x01\x02\x03\x00".as_slice()
    );
    assert_eq!(rt; bytes_at(&linked.image, 4096 + 0x2000, 0x20), HOOKS_DATA);
    Ok(())
}

#[test]
fn aligns_what_has_no_bytes(rt: HostRuntime) -> Result<(), Fail> {
    let alloc = rt.alloc();
    let inputs = inputs(alloc, &[BLANK])?;
    let linked = linked_of(alloc, &kit(alloc, b"entry start\n")?, &inputs, &[])?;
    let found = places(alloc, linked.placement.areas.items(), BASE)?;
    assert_eq!(rt;
        found.get(..4).unwrap_or(&[]),
        [
            (0, 1),
            (0x1000, 0x1041),
            (0x2000, 0x2000),
            (0x20_0000, 0x20_0001)
        ]
        .as_slice()
    );
    let mut pieces = Vec::new(alloc);
    for piece in linked.placement.pieces.items() {
        pieces.push((piece.address.wrapping_sub(BASE), piece.size))?;
    }
    assert_eq!(rt;
        pieces.as_slice(),
        [
            (0, 1),
            (0x1000, 3),
            (0x1040, 0),
            (0x1040, 1),
            (0x20_0000, 1)
        ]
        .as_slice()
    );
    Ok(())
}

/// A kernel of 512 MiB at the highest base ends where the addresses end: its end is kept as 0.
#[test]
fn ends_where_addresses_end(rt: HostRuntime) -> Result<(), Fail> {
    let alloc = rt.alloc();
    let inputs = inputs(alloc, &[LARGE])?;
    let lines = b"entry start\nbase 0xffffffffe0000000\n";
    let linked = linked_of(alloc, &kit(alloc, lines)?, &inputs, &[])?;
    match linked.placement.areas.items().get(BSS as usize) {
        Some(area) => assert_eq!(rt; (area.start, area.end), (0xffff_ffff_e000_0000, 0)),
        None => return Err(Fail::from("no bss")),
    }
    Ok(())
}
