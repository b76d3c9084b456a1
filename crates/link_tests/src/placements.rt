ghost use Rattle.std.specs.Prelude.{ℕ, ◌≡◌, ◌*◌, ◌<◌, ◌≤◌, ◌^◌, length, IfOk, All};
ghost use Rattle.kl_model.specs.Sound.{IsSoundGraph};
ghost use Rattle.link_tests.specs.SoundAmong.{IsSoundAmong};
ghost use Rattle.kl_model.specs.declared.kit.Kit.{Kit};
ghost use Rattle.kl_base.specs.declared.limits.TheConstants.{BASE_LIMIT, SIZE_LIMIT};

use kl_base::{Class, Listed, Name, NoMemory, PAGE, Range};
use kl_layout::{LayoutFault, place};
use kl_model::{AreaAt, Gaps, Graph, Kit, Made, Part, Piece, PieceId, Placement, Word};
use std::alloc::Global;
use std::test::Fail;

const NO_MADE: Made = Made {
    stubs: 0,
    tables: 0,
    got: 0,
    dynamic: 0,
};

// A kernel's kit whose base is a page of this number.
fn kernel(alloc: Global, page: u64) -> Result<Kit, Fail>
    requires { page ≤ 0xffffffffe0000 }
    ensures { IfOk result (λ kit. kit.base ≤ BASE_LIMIT) }
{
    let output = Name::from_bytes(b"/bsd").ok().ok_or("a name")?;
    Ok(Kit::kernel(
        alloc,
        output,
        PAGE * page,
        Word::new(alloc),
        Listed::new(alloc),
    ))
}

// The `.text` of an input, aligned to 16 bytes.
fn text(input: u32, size: u64) -> Piece
    requires { size ≤ SIZE_LIMIT }
    ensures { (inputs : ℕ) → input < inputs → IsSoundAmong inputs result }
{
    Piece {
        id: PieceId::Section { input, section: 1 },
        class: Class::Text,
        area: 0,
        size,
        align: 16,
        bytes: Range { at: 64, len: size },
    }
}

// A graph of inputs with one text section each.
fn graph(alloc: Global, parts: Vec<Part>, sizes: &[u64]) -> Result<Graph, NoMemory>
    requires count { length sizes.now ≡ length parts.items }
    requires few { length sizes.now ≤ 16 }
    requires sizes { All (λ n. n ≤ SIZE_LIMIT) sizes.now }
    ensures sound { IfOk result (λ g. (kit : Kit) → IsSoundGraph kit g) }
    ensures parts { IfOk result (λ g. g.parts ≡ parts.items) }
{
    let mut pieces = Listed::new(alloc);
    for (input, size) in sizes.iter().enumerate() {
        pieces.push(text(input as u32, *size))?;
    }
    Ok(Graph {
        pieces,
        fields: Listed::new(alloc),
        names: Listed::new(alloc),
        entry: None,
        parts: Listed::from_vec(parts),
    })
}

// The addresses of the pieces, in the graph's order.
fn addresses(alloc: Global, placement: &Placement) -> Result<Vec<u64>, NoMemory> {
    let mut found = Vec::new(alloc);
    for piece in placement.pieces.items() {
        found.push(piece.address)?;
    }
    Ok(found)
}

#[test]
fn places_two_objects(rt: HostRuntime) -> Result<(), Fail> {
    let alloc = rt.alloc();
    let kit = kernel(alloc, 0xf_ffff_fff8_1000)?;
    let parts = vec![in alloc; Part::Head, Part::Drawn]?;
    let graph = graph(alloc, parts, &[1, 5])?;
    let placement = place(alloc, &kit, &graph, None, &[0], &NO_MADE)
        .ok()
        .ok_or("no memory")?;
    assert_eq!(rt; placement.base, 0xffff_ffff_8100_0000);
    assert_eq!(rt;
        addresses(alloc, &placement)?.as_slice(),
        [0xffff_ffff_8100_0000, 0xffff_ffff_8100_0010].as_slice()
    );
    let text = AreaAt {
        start: 0xffff_ffff_8100_0000,
        end: 0xffff_ffff_8100_0015,
    };
    let at_end = AreaAt {
        start: 0xffff_ffff_8100_0015,
        end: 0xffff_ffff_8100_0015,
    };
    let at_next = AreaAt {
        start: 0xffff_ffff_8100_1000,
        end: 0xffff_ffff_8100_1000,
    };
    assert_eq!(rt;
        placement.areas.items(),
        [
            text, at_next, at_next, at_next, at_end, at_end, at_end, at_next, at_next, at_next,
            at_next, at_next, at_next, at_next, at_next,
        ]
        .as_slice()
    );
    Ok(())
}

// The gap stands behind head inputs, and each class has one.
#[test]
fn places_gaps(rt: HostRuntime) -> Result<(), Fail> {
    let alloc = rt.alloc();
    let kit = kernel(alloc, 0xf_ffff_fff8_1000)?;
    let parts = vec![in alloc; Part::Head, Part::Drawn]?;
    let graph = graph(alloc, parts, &[1, 5])?;
    let gaps = Gaps {
        text: 32,
        rodata: 16,
        rwdata: 16,
        bss: 16,
    };
    let placement = place(alloc, &kit, &graph, Some(&gaps), &[0], &NO_MADE)
        .ok()
        .ok_or("no memory")?;
    assert_eq!(rt;
        addresses(alloc, &placement)?.as_slice(),
        [
            0xffff_ffff_8100_0000,
            0xffff_ffff_8100_0030,
            0xffff_ffff_8100_0010,
            0xffff_ffff_8100_1000,
            0xffff_ffff_8100_2000,
            0xffff_ffff_8100_3000,
        ]
        .as_slice()
    );
    Ok(())
}

#[test]
fn places_drawn_inputs_in_both_orders(rt: HostRuntime) -> Result<(), Fail> {
    let alloc = rt.alloc();
    let kit = kernel(alloc, 0xf_ffff_fff8_1000)?;
    let parts = vec![in alloc; Part::Head, Part::Drawn, Part::Drawn, Part::Tail]?;
    let graph = graph(alloc, parts, &[1, 0x21, 5, 2])?;
    let first = place(alloc, &kit, &graph, None, &[0, 1], &NO_MADE)
        .ok()
        .ok_or("no memory")?;
    assert_eq!(rt;
        addresses(alloc, &first)?.as_slice(),
        [
            0xffff_ffff_8100_0000,
            0xffff_ffff_8100_0010,
            0xffff_ffff_8100_0040,
            0xffff_ffff_8100_0050,
        ]
        .as_slice()
    );
    let second = place(alloc, &kit, &graph, None, &[1, 0], &NO_MADE)
        .ok()
        .ok_or("no memory")?;
    assert_eq!(rt;
        addresses(alloc, &second)?.as_slice(),
        [
            0xffff_ffff_8100_0000,
            0xffff_ffff_8100_0020,
            0xffff_ffff_8100_0010,
            0xffff_ffff_8100_0050,
        ]
        .as_slice()
    );
    Ok(())
}

// The greatest span, from the highest base on, ends at 2^64. One byte more takes one page more.
#[test]
fn refuses_a_page_too_many(rt: HostRuntime) -> Result<(), Fail> {
    let alloc = rt.alloc();
    let kit = kernel(alloc, 0xf_ffff_fffe_0000)?;
    let parts = vec![in alloc; Part::Head, Part::Head]?;
    let greatest = graph(alloc, parts, &[536_870_896, 16])?;
    let placement = place(alloc, &kit, &greatest, None, &[], &NO_MADE)
        .ok()
        .ok_or("no memory")?;
    let text = AreaAt {
        start: 0xffff_ffff_e000_0000,
        end: 0,
    };
    assert_eq!(rt; placement.areas.items().first(), Some(&text));
    let parts = vec![in alloc; Part::Head, Part::Head]?;
    let too_long = graph(alloc, parts, &[536_870_896, 17])?;
    let fault = LayoutFault::Span {
        found: 536_875_008,
        limit: 536_870_912,
    };
    assert_eq!(rt;
        place(alloc, &kit, &too_long, None, &[], &NO_MADE).err(),
        Some(fault)
    );
    Ok(())
}
