// The slots and stubs of a small library.
ghost use Rattle.std.specs.Prelude.{◌≡◌, IfOk};
ghost use Rattle.field_tests.specs.Small.{small_graph};
ghost use Rattle.kl_model.specs.declared.kit.KitKind.TheVariants.{Library};

use crate::small::{FIELDS, NAMES, PIECES};
use kl_base::{Listed, Name};
use kl_got::{SlotIndex, needs, stub_bytes};
use kl_model::{Graph, Kit, KitKind, Needs, Part, Target, Word};
use std::alloc::Global;
use std::test::Fail;

/// The graph of the small library.
fn graph(alloc: Global) -> Result<Graph, Fail>
    ensures { IfOk result (λ g. g ≡ small_graph) }
{
    let mut parts = Listed::new(alloc);
    parts.push(Part::Drawn)?;
    Ok(Graph {
        pieces: Listed::from_vec(Vec::from_slice(alloc, &PIECES)?),
        fields: Listed::from_vec(Vec::from_slice(alloc, &FIELDS)?),
        names: Listed::from_vec(Vec::from_slice(alloc, &NAMES)?),
        entry: None,
        parts,
    })
}

/// A library's kit.
fn library(alloc: Global) -> Result<Kit, Fail>
    ensures { IfOk result (λ k. k.kind ≡ Library) }
{
    let output = Name::from_bytes(b"/usr/lib/libc.so").ok().ok_or("a name")?;
    let mut kit = Kit::kernel(alloc, output, 0, Word::new(alloc), Listed::new(alloc));
    kit.kind = KitKind::Library;
    Ok(kit)
}

/// What the graph needs.
fn small_needs(alloc: Global) -> Result<Needs, Fail> {
    let kit = library(alloc)?;
    let graph = graph(alloc)?;
    Ok(needs(alloc, &kit, &graph)?)
}

#[test]
fn makes_each_slot_and_stub_once(rt: HostRuntime) -> Result<(), Fail> {
    let made = small_needs(rt.alloc())?;
    let slots = [
        Target::Name(1),
        Target::Name(0),
        Target::Place {
            piece: 0,
            offset: 8,
        },
    ];
    assert_eq!(rt; made.slots.items(), slots.as_slice());
    assert_eq!(rt; made.stubs.items(), [0].as_slice());
    Ok(())
}

#[test]
fn numbers_targets(rt: HostRuntime) -> Result<(), Fail> {
    let mut index = SlotIndex::new(rt.alloc());
    let first = Target::Place {
        piece: 3,
        offset: 8,
    };
    let second = Target::Place {
        piece: 3,
        offset: 9,
    };
    assert_eq!(rt; index.find(first), None);
    assert_eq!(rt; index.number(first)?, 0);
    assert_eq!(rt; index.number(second)?, 1);
    assert_eq!(rt; index.number(first)?, 0);
    assert_eq!(rt; index.find(second), Some(1));
    assert_eq!(rt; index.find(Target::Abs(3)), None);
    assert_eq!(rt; index.into_targets().items(), [first, second].as_slice());
    let again = SlotIndex::of(rt.alloc(), &[second, first])?;
    assert_eq!(rt; again.find(first), Some(1));
    Ok(())
}

#[test]
fn writes_stubs(rt: HostRuntime) {
    let rows = [
        (0x2000, 0x4010, b"\xff\x25\x0a\x20\x00\x00"),
        (0x4010, 0x2000, b"\xff\x25\xea\xdf\xff\xff"),
        (0x1000, 0x1000, b"\xff\x25\xfa\xff\xff\xff"),
    ];
    for (stub, slot, jump) in rows {
        assert!(rt; stub < 0x10000 && slot < 0x10000);
        let bytes = stub_bytes(stub, slot);
        assert_eq!(rt; bytes[..6], jump[..]);
        assert_eq!(rt; bytes[6..], [0xcc; 10][..]);
    }
}
