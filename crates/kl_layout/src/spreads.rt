// The parts of an image by spread.
ghost use Rattle.std.specs.Prelude.{ℕ, ◌≡◌, ◌<◌, ◌≤◌, ◌==◌, cond, if◌then◌else◌, true, [], length, slice_index_or, Some, None, IfOk, OnOk, All};
ghost use Rattle.std.specs.Option.{option_copied};
ghost use Rattle.kl_model.specs.Line.{inputs_in, piece_part};
ghost use Rattle.kl_model.specs.declared.object.Part.TheVariants.{Head};
ghost use Rattle.kl_model.specs.Lists.{only_if};
ghost use Rattle.kl_model.specs.Areas.{class_number};
ghost use Rattle.kl_model.specs.declared.place.Body.TheVariants as body;
ghost use Rattle.kl_model.specs.Orders.{drawn_count, IsOrder};
ghost use Rattle.kl_model.specs.Sound.{IsSoundGraph};
ghost use Rattle.kl_layout.specs.Once.{is_known_id, later_inputs};
ghost use Rattle.kl_layout.specs.Spreads.{AreSpreads, Extends, gap_of, is_by_input, is_in_order, made_in, made_one, numbered_parts, numbers_of, parts_in_order, parts_of_inputs, parts_of_spread, spread_number};
ghost use Rattle.kl_base.specs.declared.limits.TheConstants.{FIELD_COUNT_LIMIT, INPUT_COUNT_LIMIT};
ghost use Rattle.kl_model.specs.declared.area.TheConstants as area;

use crate::sequence::{inputs_of, later_inputs};
use kl_base::{Class, Listed, NoMemory};
use kl_model::{Body, Gaps, Graph, Kit, LinePart, Made, Part, Piece, PieceId, area};
use std::alloc::Global;

/// What a gap is aligned to, in bytes.
const GAP_ALIGN: u64 = 16;

/// What the area of stubs is aligned to, in bytes.
const STUB_ALIGN: u64 = 16;

/// What the other areas are aligned to that a linker makes.
const MADE_ALIGN: u64 = 8;

/// Whether a spread stands by the sequence of the inputs: the ordinary pieces of a class, and the runs.
fn is_by_input(number: u32) -> bool
    ensures { result ≡ is_by_input number }
{
    number < area::INIT || number >= area::FIRST_RUN
}

/// So many empty lists of parts.
fn no_parts(alloc: Global, count: usize) -> Result<Vec<Listed<LinePart>>, NoMemory>
    ensures count { IfOk result (λ v. length v.items ≡ count) }
    ensures empty { IfOk result (λ v. (n : ℕ) → slice_index_or v.items n [] ≡ []) }
{
    let mut lists = Vec::with_capacity(alloc, count)?;
    for _ in 0..count {
        lists.push(Listed::new(alloc))?;
    }
    Ok(lists)
}

/// So many empty lists of numbers.
fn no_numbers(alloc: Global, count: usize) -> Result<Vec<Listed<u32>>, NoMemory>
    ensures count { IfOk result (λ v. length v.items ≡ count) }
    ensures empty { IfOk result (λ v. (i : ℕ) → slice_index_or v.items i [] ≡ []) }
{
    let mut lists = Vec::with_capacity(alloc, count)?;
    for _ in 0..count {
        lists.push(Listed::new(alloc))?;
    }
    Ok(lists)
}

/// The numbers of the pieces of each input that stand by the sequence of the inputs.
fn numbers_by_input(alloc: Global, graph: &Graph) -> Result<Vec<Listed<u32>>, NoMemory>
    requires from { All (λ x. is_known_id (length graph.now.parts) x.id ≡ true) graph.now.pieces }
    requires count { length graph.now.pieces < FIELD_COUNT_LIMIT }
    ensures count { IfOk result (λ v. length v.items ≡ length graph.now.parts) }
    ensures numbers { IfOk result (λ v. (i : ℕ) → i < length graph.now.parts → slice_index_or v.items i [] ≡ numbers_of graph.now i) }
{
    let mut lists = no_numbers(alloc, graph.parts.items().len())?;
    for (number, piece) in graph.pieces.items().iter().enumerate() {
        if let PieceId::Section { input, .. } = piece.id {
            if is_by_input(piece.area) {
                lists[input as usize].push(number as u32)?;
            }
        }
    }
    Ok(lists)
}

/// A piece as a part.
fn piece_part(number: u32, piece: &Piece) -> LinePart
    ensures { result ≡ piece_part number piece.now }
{
    LinePart {
        body: Body::Piece(number),
        size: piece.size,
        align: piece.align,
    }
}

/// Adds a part at the end of one of the lists.
fn push_part(lists: &mut [Listed<LinePart>], number: usize, part: LinePart) -> Result<(), NoMemory>
    requires { number < length lists.old }
    ensures count { length lists.new ≡ length lists.old }
    ensures pushed { OnOk result (Extends lists.old (λ n. only_if (number == n) part) lists.new) }
{
    lists[number].push(part)
}

/// Adds the pieces of these numbers to the lists of their areas, in the order of the numbers.
fn push_pieces(
    graph: &Graph,
    numbers: &[u32],
    lists: &mut [Listed<LinePart>],
) -> Result<(), NoMemory>
    requires known { All (λ m. m < length graph.now.pieces) numbers.now }
    requires areas { All (λ x. x.area < length lists.old) graph.now.pieces }
    ensures count { length lists.new ≡ length lists.old }
    ensures pushed { OnOk result (Extends lists.old (λ n. numbered_parts graph.now n numbers.now) lists.new) }
{
    for number in numbers {
        let piece = &graph.pieces.items()[*number as usize];
        push_part(lists, piece.area as usize, piece_part(*number, piece))?;
    }
    Ok(())
}

/// Adds the pieces of inputs, in turn, to the lists of their areas. `numbers` has the numbers of the pieces of each input.
fn push_inputs(
    graph: &Graph,
    numbers: &[Listed<u32>],
    inputs: &[u32],
    lists: &mut [Listed<LinePart>],
) -> Result<(), NoMemory>
    requires count { length numbers.now ≡ length graph.now.parts }
    requires numbers { (i : ℕ) → i < length graph.now.parts → slice_index_or numbers.now i [] ≡ numbers_of graph.now i }
    requires known { All (λ i. i < length graph.now.parts) inputs.now }
    requires areas { All (λ x. x.area < length lists.old) graph.now.pieces }
    ensures count { length lists.new ≡ length lists.old }
    ensures pushed { OnOk result (Extends lists.old (λ n. parts_of_inputs graph.now n inputs.now) lists.new) }
{
    for input in inputs {
        push_pieces(graph, numbers[*input as usize].items(), lists)?;
    }
    Ok(())
}

/// The spread of a piece that stands in the graph's order, where `commons` is the number of the commons.
fn spread_in_order(piece: &Piece, commons: usize) -> Option<usize>
    ensures { result ≡ (if is_in_order piece.now then Some (spread_number commons piece.now) else None) }
{
    if let PieceId::Common(_) = piece.id {
        return Some(commons);
    }
    if is_by_input(piece.area) {
        return None;
    }
    Some(piece.area as usize)
}

/// Adds the pieces that stand in the graph's order.
fn push_in_order(
    graph: &Graph,
    commons: usize,
    lists: &mut [Listed<LinePart>],
) -> Result<(), NoMemory>
    requires areas { All (λ x. x.area < length lists.old) graph.now.pieces }
    requires commons { commons < length lists.old }
    requires count { length graph.now.pieces < FIELD_COUNT_LIMIT }
    ensures count { length lists.new ≡ length lists.old }
    ensures pushed { OnOk result (Extends lists.old (parts_in_order graph.now commons) lists.new) }
{
    for (number, piece) in graph.pieces.items().iter().enumerate() {
        if let Some(spread) = spread_in_order(piece, commons) {
            push_part(lists, spread, piece_part(number as u32, piece))?;
        }
    }
    Ok(())
}

/// Adds the gap of a class.
fn push_gap(class: Class, size: u64, lists: &mut [Listed<LinePart>]) -> Result<(), NoMemory>
    requires { area.FIRST_RUN < length lists.old }
    ensures count { length lists.new ≡ length lists.old }
    ensures pushed { OnOk result (Extends lists.old (λ n. only_if (class_number class == n) (record { body = body.Gap class; size = size; align = 16 })) lists.new) }
{
    let part = LinePart {
        body: Body::Gap(class),
        size,
        align: GAP_ALIGN,
    };
    push_part(lists, area::class_number(class) as usize, part)
}

/// Adds the gaps, where there are any.
fn push_gaps(gaps: Option<&Gaps>, lists: &mut [Listed<LinePart>]) -> Result<(), NoMemory>
    requires { area.FIRST_RUN < length lists.old }
    ensures count { length lists.new ≡ length lists.old }
    ensures pushed { OnOk result (Extends lists.old (gap_of (option_copied gaps.entry)) lists.new) }
{
    if let Some(gaps) = gaps {
        push_gap(Class::Text, gaps.text, lists)?;
        push_gap(Class::Rodata, gaps.rodata, lists)?;
        push_gap(Class::Rwdata, gaps.rwdata, lists)?;
        push_gap(Class::Bss, gaps.bss, lists)?;
    }
    Ok(())
}

/// Adds an area that the linker makes, where it isn't empty.
fn push_area(
    number: u32,
    size: u64,
    align: u64,
    lists: &mut [Listed<LinePart>],
) -> Result<(), NoMemory>
    requires { number < length lists.old }
    ensures count { length lists.new ≡ length lists.old }
    ensures pushed { OnOk result (Extends lists.old (made_one number size align) lists.new) }
{
    if size != 0 {
        let part = LinePart {
            body: Body::Area(number),
            size,
            align,
        };
        push_part(lists, number as usize, part)?;
    }
    Ok(())
}

/// Adds the areas that the linker makes.
fn push_made(made: &Made, lists: &mut [Listed<LinePart>]) -> Result<(), NoMemory>
    requires { area.FIRST_RUN < length lists.old }
    ensures count { length lists.new ≡ length lists.old }
    ensures pushed { OnOk result (Extends lists.old (made_in made.now) lists.new) }
{
    push_area(area::STUBS, made.stubs, STUB_ALIGN, lists)?;
    push_area(area::TABLES, made.tables, MADE_ALIGN, lists)?;
    push_area(area::GOT, made.got, MADE_ALIGN, lists)?;
    push_area(area::DYNAMIC, made.dynamic, MADE_ALIGN, lists)
}

/// The inputs of a graph, those that stand before the gap and those behind, and the numbers of the pieces of each.
#[derive(Drop)]
struct InputPieces {
    head: Vec<u32>,
    later: Vec<u32>,
    numbers: Vec<Listed<u32>>,
}

/// The inputs in the order in which they stand, with their pieces.
fn input_pieces(alloc: Global, graph: &Graph, order: &[u32]) -> Result<InputPieces, NoMemory>
    requires from { All (λ x. is_known_id (length graph.now.parts) x.id ≡ true) graph.now.pieces }
    requires count { length graph.now.pieces < FIELD_COUNT_LIMIT }
    requires inputs { length graph.now.parts ≤ INPUT_COUNT_LIMIT }
    requires order { IsOrder (drawn_count graph.now.parts) order.now }
    ensures head { IfOk result (λ p. p.head.items ≡ inputs_in graph.now Head) }
    ensures later { IfOk result (λ p. p.later.items ≡ later_inputs graph.now order.now) }
    ensures count { IfOk result (λ p. length p.numbers.items ≡ length graph.now.parts) }
    ensures numbers { IfOk result (λ p. (i : ℕ) → i < length graph.now.parts → slice_index_or p.numbers.items i [] ≡ numbers_of graph.now i) }
{
    Ok(InputPieces {
        head: inputs_of(alloc, graph, Part::Head)?,
        later: later_inputs(alloc, graph, order)?,
        numbers: numbers_by_input(alloc, graph)?,
    })
}

/// Adds all parts to the lists of their spreads, where `commons` is the number of the commons.
fn push_all(
    graph: &Graph,
    inputs: &InputPieces,
    gaps: Option<&Gaps>,
    made: &Made,
    commons: usize,
    lists: &mut [Listed<LinePart>],
) -> Result<(), NoMemory>
    requires count { length inputs.now.numbers.items ≡ length graph.now.parts }
    requires numbers { (i : ℕ) → i < length graph.now.parts → slice_index_or inputs.now.numbers.items i [] ≡ numbers_of graph.now i }
    requires head { All (λ i. i < length graph.now.parts) inputs.now.head.items }
    requires later { All (λ i. i < length graph.now.parts) inputs.now.later.items }
    requires areas { All (λ x. x.area < length lists.old) graph.now.pieces }
    requires commons { commons < length lists.old }
    requires last { area.FIRST_RUN < length lists.old }
    requires pieces { length graph.now.pieces < FIELD_COUNT_LIMIT }
    ensures count { length lists.new ≡ length lists.old }
    ensures pushed { OnOk result (Extends lists.old (parts_of_spread graph.now inputs.now.head.items inputs.now.later.items (option_copied gaps.entry) made.now commons) lists.new) }
{
    push_inputs(graph, &inputs.numbers, &inputs.head, lists)?;
    push_gaps(gaps, lists)?;
    push_inputs(graph, &inputs.numbers, &inputs.later, lists)?;
    push_in_order(graph, commons, lists)?;
    push_made(made, lists)
}

/// The parts of each spread.
pub(crate) fn spread_lists(
    alloc: Global,
    kit: &Kit,
    graph: &Graph,
    gaps: Option<&Gaps>,
    order: &[u32],
    made: &Made,
) -> Result<Vec<Listed<LinePart>>, NoMemory>
    requires sound { IsSoundGraph kit.now graph.now }
    requires order { IsOrder (drawn_count graph.now.parts) order.now }
    ensures { IfOk result (λ v. AreSpreads kit.now graph.now (option_copied gaps.entry) order.now made.now v.items) }
{
    let inputs = input_pieces(alloc, graph, order)?;
    let commons = area::FIRST_RUN as usize + kit.runs.items().len();
    let mut lists = no_parts(alloc, commons + 1)?;
    push_all(graph, &inputs, gaps, made, commons, &mut lists)?;
    Ok(lists)
}
