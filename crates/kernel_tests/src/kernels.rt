// Kernels of several objects, from the bytes of the objects to the bytes of the image.
ghost use Rattle.std.specs.Prelude.{ℕ, ◌≡◌, ◌+◌, ◌<◌, ◌≤◌, ◌∷◌, [], length, map, All, AllPairs, IfOk, IfSome};
ghost use Rattle.std.specs.Option.{option_copied};
ghost use Rattle.std.specs.List.{range_with_len};
ghost use Rattle.kl_model.specs.Fit.{AreGaps, IsFit, IsGap, IsKit};
ghost use Rattle.kl_model.specs.Kept.{part_number};
ghost use Rattle.kl_model.specs.Orders.{IsOrder, drawn_count};
ghost use Rattle.kl_model.specs.declared.kit.KitKind.TheVariants.{Kernel};
ghost use Rattle.kernel_tests.specs.Small.{IsSmall};

use crate::objects::{
    CALL, FAR, GONE, GOT, LARGE, LARGER, LOCORE, NOWHERE, ONE, QUAD, RING, SLOT, THREE, TWO, X,
};
use kl_base::{Listed, Name};
use kl_kernel::link_kernel;
use kl_model::{FieldAt, Gaps, Input, Kit, LinkFault, Linked, Part, Word};
use kl_rel::read_object;
use std::alloc::Global;
use std::test::Fail;

/// Where the names stand in `RING`.
const FUNCTION: usize = 177;

const FIRST: usize = 182;

const SECOND: usize = 187;

pub(crate) const BASE: u64 = 0xffff_ffff_8100_0000;

/// A kernel's kit whose entry is `start`.
fn kernel(alloc: Global) -> Result<Kit, Fail>
    ensures form { IfOk result IsKit }
    ensures kernel { IfOk result (λ kit. kit.kind ≡ Kernel) }
{
    let output = Name::from_bytes(b"/bsd").ok().ok_or("a name")?;
    let entry = Word::from_vec(Vec::from_slice(alloc, b"start")?);
    Ok(Kit::kernel(alloc, output, BASE, entry, Listed::new(alloc)))
}

/// The input of an object with at most 4,096 bytes.
fn input(alloc: Global, place: Part, bytes: Vec<u8>) -> Result<Input, Fail>
    ensures fit { IfOk result IsFit }
    ensures place { IfOk result (λ x. x.place ≡ place) }
    ensures small { IfOk result IsSmall }
{
    if bytes.len() > 4096 {
        return Err(Fail::from("a long object"));
    }
    let Ok(object) = read_object(alloc, &bytes) else {
        return Err(Fail::from("no object"));
    };
    if object.symbols.items().len() > 64 {
        return Err(Fail::from("too many symbols"));
    }
    if object.sections.items().len() > 64 || object.fields.items().len() > 64 {
        return Err(Fail::from("too many sections or fields"));
    }
    Ok(Input {
        place,
        bytes: Listed::from_vec(bytes),
        object,
    })
}

/// The inputs of objects in hexadecimal digits: the first in the head, the others drawn.
pub(crate) fn inputs(alloc: Global, objects: &[&[u8]]) -> Result<Vec<Input>, Fail>
    ensures fit { IfOk result (λ xs. All IsFit xs.items) }
    ensures small { IfOk result (λ xs. All IsSmall xs.items) }
    ensures places { IfOk result (λ xs. AllPairs (λ x y. part_number x.place ≤ part_number y.place) xs.items) }
    ensures no_tail { IfOk result (λ xs. All (λ x. part_number x.place ≤ 1) xs.items) }
{
    let mut found = Vec::new(alloc);
    let mut place = Part::Head;
    for digits in objects {
        found.push(input(alloc, place, hex::decode(alloc, digits)?)?)?;
        place = Part::Drawn;
    }
    Ok(found)
}

/// How many inputs are drawn.
fn drawn(inputs: &[Input]) -> usize
    ensures { result ≡ drawn_count (map (λ x. x.place) inputs.now) }
{
    let mut count = 0;
    for input in inputs {
        if input.place == Part::Drawn {
            count += 1;
        }
    }
    count
}

/// Links a kit whose drawn inputs stand in an order, with gaps, if there are some.
pub(crate) fn link_kit(
    alloc: Global,
    kit: &Kit,
    inputs: &[Input],
    gaps: Option<&Gaps>,
    order: &[u32],
) -> Result<Result<Linked, LinkFault>, Fail>
    requires form { IsKit kit.now }
    requires kernel { kit.now.kind ≡ Kernel }
    requires fit { All IsFit inputs.now }
    requires small { All IsSmall inputs.now }
    requires places { AllPairs (λ x y. part_number x.place ≤ part_number y.place) inputs.now }
    requires gaps { IfSome (option_copied gaps) AreGaps }
    requires order { IsOrder (length order.now) order.now }
{
    if inputs.len() > 301 || drawn(inputs) != order.len() {
        return Err(Fail::from("another number of inputs"));
    }
    Ok(link_kernel(alloc, kit, inputs, gaps, order))
}

/// Links a kernel of the default base with the entry `start`.
fn link_with(
    alloc: Global,
    inputs: &[Input],
    gaps: Option<&Gaps>,
    order: &[u32],
) -> Result<Result<Linked, LinkFault>, Fail>
    requires fit { All IsFit inputs.now }
    requires small { All IsSmall inputs.now }
    requires places { AllPairs (λ x y. part_number x.place ≤ part_number y.place) inputs.now }
    requires gaps { IfSome (option_copied gaps) AreGaps }
    requires order { IsOrder (length order.now) order.now }
{
    let kit = kernel(alloc)?;
    link_kit(alloc, &kit, inputs, gaps, order)
}

/// Links a kernel without gaps.
fn link(alloc: Global, inputs: &[Input], order: &[u32]) -> Result<Result<Linked, LinkFault>, Fail>
    requires fit { All IsFit inputs.now }
    requires small { All IsSmall inputs.now }
    requires places { AllPairs (λ x y. part_number x.place ≤ part_number y.place) inputs.now }
    requires order { IsOrder (length order.now) order.now }
{
    link_with(alloc, inputs, None, order)
}

/// The bytes of an image from a place on, as far as it has them.
pub(crate) fn bytes_at(image: &[u8], at: usize, len: usize) -> &[u8] {
    let rest = &image[image.len().min(at)..];
    &rest[..rest.len().min(len)]
}

/// Where the `.text` of an input stands in the image.
fn place_of(linked: &Linked, input: usize) -> usize {
    match linked.placement.pieces.items().get(input) {
        Some(piece) => piece.address.wrapping_sub(BASE).wrapping_add(4096) as usize,
        None => 0,
    }
}

/// Where the field of four bytes at an offset of an input leads in the image.
fn target(linked: &Linked, input: usize, offset: usize) -> usize {
    let field = place_of(linked, input).wrapping_add(offset);
    let distance = match bytes_at(&linked.image, field, 4) {
        [a, b, c, d] => i32::from_le_bytes([*a, *b, *c, *d]),
        _ => 0,
    };
    field.wrapping_add(4).wrapping_add_signed(distance as isize)
}

#[test]
fn calls_the_head_from_a_drawn_object(rt: HostRuntime) -> Result<(), Fail> {
    let alloc = rt.alloc();
    let inputs = inputs(alloc, &[LOCORE, CALL])?;
    let linked = link(alloc, &inputs, &[0])?.ok().ok_or("a kernel")?;
    let image = &linked.image;
    assert_eq!(rt; (linked.fields, image.len()), (1, 4117));
    assert_eq!(rt; place_of(&linked, 1), 4096 + 0x10);
    assert_eq!(rt;
        bytes_at(image, 4096, 16),
        b"\xc3\xcc\xcc\xcc\xcc\xcc\xcc\xcc\xcc\xcc\xcc\xcc\xcc\xcc\xcc\xcc".as_slice()
    );
    assert_eq!(rt;
        bytes_at(image, 4096 + 0x10, 8),
        b"\xe8\xeb\xff\xff\xff".as_slice()
    );
    Ok(())
}

#[test]
fn writes_an_address(rt: HostRuntime) -> Result<(), Fail> {
    let alloc = rt.alloc();
    let inputs = inputs(alloc, &[LOCORE, QUAD])?;
    let linked = link(alloc, &inputs, &[0])?.ok().ok_or("a kernel")?;
    assert_eq!(rt;
        bytes_at(&linked.image, 4096 + 0x11, 8),
        b"\x00\x00\x00\x81\xff\xff\xff\xff".as_slice()
    );
    Ok(())
}

#[test]
fn leads_through_a_slot(rt: HostRuntime) -> Result<(), Fail> {
    let alloc = rt.alloc();
    let inputs = inputs(alloc, &[SLOT])?;
    let linked = link(alloc, &inputs, &[])?.ok().ok_or("a kernel")?;
    assert_eq!(rt; (linked.fields, linked.image.len()), (1, 8200));
    assert_eq!(rt;
        bytes_at(&linked.image, 4096, 7),
        b"\x48\x8b\x05\xf9\x0f\x00\x00".as_slice()
    );
    assert_eq!(rt;
        bytes_at(&linked.image, 2 * 4096, 8),
        b"\x00\x00\x00\x81\xff\xff\xff\xff".as_slice()
    );
    Ok(())
}

/// A head and a drawn call of it, with a gap of so many bytes in text and gaps of 16 bytes elsewhere.
fn call_behind(alloc: Global, text: u64) -> Result<Linked, Fail>
    requires { IsGap text }
{
    let inputs = inputs(alloc, &[LOCORE, CALL])?;
    let gaps = Gaps {
        text,
        rodata: 16,
        rwdata: 16,
        bss: 16,
    };
    Ok(
        link_with(alloc, &inputs, Some(&gaps), &[0])?
            .ok()
            .ok_or("a kernel")?,
    )
}

#[test]
fn moves_drawn_objects_by_the_gap(rt: HostRuntime) -> Result<(), Fail> {
    let alloc = rt.alloc();
    let linked = call_behind(alloc, 16)?;
    assert_eq!(rt;
        (place_of(&linked, 1), linked.image.len()),
        (4096 + 0x20, 12_304)
    );
    assert_eq!(rt;
        bytes_at(&linked.image, 4096 + 0x20, 5),
        b"\xe8\xdb\xff\xff\xff".as_slice()
    );
    let linked = call_behind(alloc, 32)?;
    assert_eq!(rt; place_of(&linked, 1), 4096 + 0x30);
    assert_eq!(rt;
        bytes_at(&linked.image, 4096 + 0x30, 5),
        b"\xe8\xcb\xff\xff\xff".as_slice()
    );
    Ok(())
}

/// The fault of a kit that doesn't link.
fn fault(alloc: Global, inputs: &[Input], order: &[u32]) -> Result<LinkFault, Fail>
    requires fit { All IsFit inputs.now }
    requires small { All IsSmall inputs.now }
    requires places { AllPairs (λ x y. part_number x.place ≤ part_number y.place) inputs.now }
    requires order { IsOrder (length order.now) order.now }
{
    match link(alloc, inputs, order)? {
        Ok(_) => Err(Fail::from("a kit without a fault")),
        Err(fault) => Ok(fault),
    }
}

#[test]
fn names_what_is_undefined(rt: HostRuntime) -> Result<(), Fail> {
    let alloc = rt.alloc();
    let inputs = inputs(alloc, &[LOCORE, NOWHERE])?;
    match fault(alloc, &inputs, &[0])? {
        LinkFault::Undefined { name, from } => {
            assert_eq!(rt; name.items(), b"nowhere".as_slice());
            assert_eq!(rt; (from.input, from.index), (1, 0));
        }
        _ => return Err(Fail::from("another fault")),
    }
    Ok(())
}

#[test]
fn names_what_is_doubled(rt: HostRuntime) -> Result<(), Fail> {
    let alloc = rt.alloc();
    let inputs = inputs(alloc, &[LOCORE, X, X])?;
    for found in [
        fault(alloc, &inputs, &[0, 1])?,
        fault(alloc, &inputs, &[1, 0])?,
    ] {
        match found {
            LinkFault::Doubled {
                name,
                first,
                second,
            } => {
                assert_eq!(rt; name.items(), b"x".as_slice());
                assert_eq!(rt; (first, second), ((1, 1), (2, 1)));
            }
            _ => return Err(Fail::from("another fault")),
        }
    }
    Ok(())
}

/// Whether a drawn object behind a head has this fault.
fn has_fault(alloc: Global, object: &[u8], expected: LinkFault) -> Result<bool, Fail> {
    let inputs = inputs(alloc, &[LOCORE, object])?;
    Ok(fault(alloc, &inputs, &[0])? == expected)
}

#[test]
fn names_a_field_that_does_not_link(rt: HostRuntime) -> Result<(), Fail> {
    let alloc = rt.alloc();
    let from = FieldAt {
        input: 1,
        section: 2,
        index: 0,
    };
    let range = LinkFault::Range {
        from,
        s: BASE,
        a: 0x8000_0010,
        p: BASE + 0x10,
    };
    assert!(rt; has_fault(alloc, FAR, range)?);
    assert!(rt; has_fault(alloc, GOT, LinkFault::Kind { from, number: 3 })?);
    assert!(rt; has_fault(alloc, GONE, LinkFault::Removed { from })?);
    Ok(())
}

#[test]
fn spans_no_more_than_the_limit(rt: HostRuntime) -> Result<(), Fail> {
    let alloc = rt.alloc();
    let large = inputs(alloc, &[LARGE])?;
    let linked = link(alloc, &large, &[])?.ok().ok_or("a kernel")?;
    // One program header, of type PT_LOAD and with p_filesz 0 (gABI, "Program Header").
    assert_eq!(rt;
        (linked.image.len(), bytes_at(&linked.image, 56, 2)),
        (64 + 56, b"\x01\x00".as_slice())
    );
    assert_eq!(rt;
        bytes_at(&linked.image, 64, 4),
        b"\x01\x00\x00\x00".as_slice()
    );
    assert_eq!(rt;
        bytes_at(&linked.image, 64 + 32, 16),
        b"\x00\x00\x00\x00\x00\x00\x00\x00\x00\x00\x00\x20\x00\x00\x00\x00".as_slice()
    );
    let larger = inputs(alloc, &[LARGER])?;
    let span = LinkFault::Span {
        found: 536_870_913,
        limit: 536_870_912,
    };
    assert!(rt; fault(alloc, &larger, &[])? == span);
    Ok(())
}

/// Whether each field of `ONE`, `TWO` and `THREE` leads to the `mov $N, %eax` of its function.
fn leads_to_functions(alloc: Global, inputs: &[Input], order: &[u32]) -> Result<bool, Fail>
    requires fit { All IsFit inputs.now }
    requires small { All IsSmall inputs.now }
    requires places { AllPairs (λ x y. part_number x.place ≤ part_number y.place) inputs.now }
    requires order { IsOrder (length order.now) order.now }
{
    let linked = link(alloc, inputs, order)?.ok().ok_or("a kernel")?;
    for (input, field, function) in [(1, 6, 2), (2, 7, 3), (2, 12, 1), (3, 6, 1), (3, 13, 2)] {
        let code = bytes_at(&linked.image, target(&linked, input, field), 5);
        if code != [0xb8, function, 0, 0, 0].as_slice() {
            return Ok(false);
        }
    }
    let table = match bytes_at(&linked.image, place_of(&linked, 3).wrapping_add(27), 8) {
        [a, b, c, d, e, f, g, h] => u64::from_le_bytes([*a, *b, *c, *d, *e, *f, *g, *h]),
        _ => 0,
    };
    let two = bytes_at(
        &linked.image,
        table.wrapping_sub(BASE).wrapping_add(4096) as usize,
        5,
    );
    Ok(two == b"\xb8\x02\x00\x00\x00".as_slice())
}

/// Whether they do in all six orders.
fn leads_in_all_orders(alloc: Global, inputs: &[Input]) -> Result<bool, Fail>
    requires fit { All IsFit inputs.now }
    requires small { All IsSmall inputs.now }
    requires places { AllPairs (λ x y. part_number x.place ≤ part_number y.place) inputs.now }
{
    Ok(
        leads_to_functions(alloc, inputs, &[0, 1, 2])?
            && leads_to_functions(alloc, inputs, &[0, 2, 1])?
            && leads_to_functions(alloc, inputs, &[1, 0, 2])?
            && leads_to_functions(alloc, inputs, &[1, 2, 0])?
            && leads_to_functions(alloc, inputs, &[2, 0, 1])?
            && leads_to_functions(alloc, inputs, &[2, 1, 0])?,
    )
}

#[test]
fn leads_to_functions_in_all_six_orders(rt: HostRuntime) -> Result<(), Fail> {
    let alloc = rt.alloc();
    let inputs = inputs(alloc, &[LOCORE, ONE, TWO, THREE])?;
    assert!(rt; leads_in_all_orders(alloc, &inputs)?);
    Ok(())
}

/// Writes `f` and three digits.
fn rename(bytes: &mut [u8], at: usize, number: usize)
    requires { at + 4 ≤ length bytes.old }
    ensures { length bytes.new ≡ length bytes.old }
{
    let digit = |place: usize| b'0' + (number / place % 10) as u8;
    bytes[at..at + 4].copy_from_slice(&[b'f', digit(100), digit(10), digit(1)]);
}

/// A head and `count` drawn objects, each with a call of the next one and of the seventh after it.
fn ring(alloc: Global, count: usize) -> Result<Vec<Input>, Fail>
    requires some { 0 < count }
    requires few { count ≤ 300 }
    ensures fit { IfOk result (λ xs. All IsFit xs.items) }
    ensures small { IfOk result (λ xs. All IsSmall xs.items) }
    ensures places { IfOk result (λ xs. AllPairs (λ x y. part_number x.place ≤ part_number y.place) xs.items) }
{
    let mut found = inputs(alloc, &[LOCORE])?;
    for number in 0..count {
        let mut bytes = hex::decode(alloc, RING)?;
        if bytes.len() < SECOND + 4 {
            return Err(Fail::from("a short object"));
        }
        rename(&mut bytes, FUNCTION, number);
        rename(&mut bytes, FIRST, (number + 1) % count);
        rename(&mut bytes, SECOND, (number + 7) % count);
        found.push(input(alloc, Part::Drawn, bytes)?)?;
    }
    Ok(found)
}

/// The order in which inputs stand in the kit.
fn kit_order(alloc: Global, count: u32) -> Result<Vec<u32>, Fail>
    ensures { IfOk result (λ order. order.items ≡ range_with_len 0 count) }
{
    let mut order = Vec::new(alloc);
    for number in 0..count {
        order.push(number)?;
    }
    Ok(order)
}

#[test]
fn links_three_hundred_objects(rt: HostRuntime) -> Result<(), Fail> {
    let alloc = rt.alloc();
    let inputs = ring(alloc, 300)?;
    let order = kit_order(alloc, 300)?;
    let linked = link(alloc, &inputs, &order)?.ok().ok_or("a kernel")?;
    assert_eq!(rt;
        (linked.fields, linked.image.len()),
        (600, 4096 + 300 * 16 + 11)
    );
    for number in 0..300 {
        let (next, seventh) = ((number + 1) % 300, (number + 7) % 300);
        assert_eq!(rt; target(&linked, number + 1, 1), place_of(&linked, next + 1));
        assert_eq!(rt;
            target(&linked, number + 1, 6),
            place_of(&linked, seventh + 1)
        );
    }
    Ok(())
}
