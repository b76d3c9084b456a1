// The placement of a graph.
ghost use Rattle.std.specs.Prelude.{◌≡◌, ◌+◌, ◌++◌, ◌∷◌, [], ◌<◌, ◌≤◌, ◌⊎◌, ◌^◌, Some, flat_map, length, IfOk, IfErr, IfSome, OnOk, All};
ghost use Rattle.std.specs.Option.{option_copied};
ghost use Rattle.kl_base.specs.declared.class.Class.{Class};
ghost use Rattle.kl_base.specs.declared.class.Class.TheVariants.{Bss};
ghost use Rattle.kl_base.specs.declared.limits.TheConstants.{BASE_LIMIT};
ghost use Rattle.kl_model.specs.Areas.{class_number};
ghost use Rattle.kl_model.specs.Carries.{NamesPieces};
ghost use Rattle.kl_model.specs.Laid.{Laid, reach, span};
ghost use Rattle.kl_model.specs.Line.{classes};
ghost use Rattle.kl_model.specs.Orders.{drawn_count, IsOrder};
ghost use Rattle.kl_model.specs.Placed.{placed};
ghost use Rattle.kl_model.specs.Sound.{IsSoundGraph};
ghost use Rattle.kl_model.specs.declared.area.TheConstants as area;
ghost use Rattle.kl_layout.specs.Once.{AreOnce};
ghost use Rattle.kl_model.specs.Fit.{AreGaps};
ghost use Rattle.kl_layout.specs.Spans.{AreSmall, layout_fault};
ghost use Rattle.kl_layout.specs.Stops.{AreListed, IsPart, IsStep, laid_gap, laid_gaps, laid_pieces, listed_from, listed_line, room};

use crate::LayoutFault;
use crate::layout::lay_classes;
use crate::spreads::spread_lists;
use crate::stops::FIRST_PIECE;
use kl_base::{Class, Listed, NoMemory, SPAN_LIMIT};
use kl_model::{
    AreaAt, Gaps, Graph, Kit, LinePart, Made, PieceId, Placed, PlacedList, Placement, area,
};
use std::alloc::Global;

/// Where everything is laid: the address of each part by its body's number, where each spread starts and ends, and the place at which
/// the image ends, in bytes from the base.
#[derive(Drop)]
struct Stops {
    addresses: Vec<u64>,
    areas: Vec<AreaAt>,
    end: u64,
}

/// Lays everything that the lists of the spreads have.
fn lay_lists(
    alloc: Global,
    kit: &Kit,
    graph: &Graph,
    lists: &[Listed<LinePart>],
) -> Result<Stops, NoMemory>
    requires steps { All (λ x. IsStep x.align) graph.now.pieces }
    requires parts { (c : Class) → All (IsPart (FIRST_PIECE + length graph.now.pieces)) (listed_line kit.now lists.now c) }
    requires once { AreOnce (flat_map (listed_line kit.now lists.now) classes) }
    requires room { room (flat_map (listed_line kit.now lists.now) classes) < 2 ^ 62 }
    requires lists { length lists.now ≡ area.FIRST_RUN + (length kit.now.runs + 1) }
    ensures addresses { IfOk result (λ s. length s.addresses.items ≡ FIRST_PIECE + length graph.now.pieces) }
    ensures areas { IfOk result (λ s. length s.areas.items ≡ length lists.now) }
    ensures end { IfOk result (λ s. kit.now.base + s.end ≡ reach (listed_from kit.now graph.now lists.now Bss) (listed_line kit.now lists.now Bss)) }
    ensures laid { IfOk result (λ s. AreListed kit.now graph.now lists.now s.addresses.items s.areas.items) }
{
    let mut addresses = vec![in alloc; 0; FIRST_PIECE + graph.pieces.items().len()]?;
    let mut areas = vec![in alloc; AreaAt { start: 0, end: 0 }; lists.len()]?;
    let end = lay_classes(alloc, kit, graph, lists, &mut addresses, &mut areas)?;
    Ok(Stops {
        addresses,
        areas,
        end,
    })
}

/// The gap of a class at its address.
fn placed_gap(class: Class, size: u64, addresses: &[u64]) -> Placed
    requires { area.BSS < length addresses.now }
    ensures { result ≡ laid_gap addresses.now class size }
{
    Placed {
        id: PieceId::Gap(class),
        address: addresses[area::class_number(class) as usize],
        size,
    }
}

/// Adds the gaps at their addresses, where there are any.
fn push_gaps(
    placed: &mut Vec<Placed>,
    gaps: Option<&Gaps>,
    addresses: &[u64],
) -> Result<(), NoMemory>
    requires { area.BSS < length addresses.now }
    ensures { OnOk result (placed.new.items ≡ placed.old.items ++ laid_gaps addresses.now (option_copied gaps.entry)) }
{
    if let Some(gaps) = gaps {
        placed.push(placed_gap(Class::Text, gaps.text, addresses))?;
        placed.push(placed_gap(Class::Rodata, gaps.rodata, addresses))?;
        placed.push(placed_gap(Class::Rwdata, gaps.rwdata, addresses))?;
        placed.push(placed_gap(Class::Bss, gaps.bss, addresses))?;
    }
    Ok(())
}

/// The pieces of a graph and the gaps at their addresses.
fn placed_pieces(
    alloc: Global,
    graph: &Graph,
    gaps: Option<&Gaps>,
    addresses: &[u64],
) -> Result<PlacedList, NoMemory>
    requires { length addresses.now ≡ FIRST_PIECE + length graph.now.pieces }
    ensures { IfOk result (λ l. l ≡ laid_pieces graph.now (option_copied gaps.entry) addresses.now) }
{
    let mut placed = Vec::with_capacity(alloc, graph.pieces.items().len())?;
    for (number, piece) in graph.pieces.items().iter().enumerate() {
        placed.push(Placed {
            id: piece.id,
            address: addresses[FIRST_PIECE + number],
            size: piece.size,
        })?;
    }
    push_gaps(&mut placed, gaps, addresses)?;
    Ok(Listed::from_vec(placed))
}

/// Where everything in a graph stands. `order` has the numbers of the drawn inputs in the order in which they stand; `made` has the
/// sizes of the areas that the linker makes, in bytes.
///
/// Text is laid from a kernel's base on, or a page behind a library's, and every other class from the next page on. The sequence of
/// inputs is: head inputs, the gap, drawn inputs, tail inputs; ordinary pieces of a class stand by it, then those of each run, then
/// the areas of the class, and commons in bss.
///
/// # Errors
///
/// `Span`, where the span is more than `SPAN_LIMIT` bytes, with it.
pub fn place(
    alloc: Global,
    kit: &Kit,
    graph: &Graph,
    gaps: Option<&Gaps>,
    order: &[u32],
    made: &Made,
) -> Result<Placement, LayoutFault>
    requires kit { kit.now.base ≤ BASE_LIMIT }
    requires sound { IsSoundGraph kit.now graph.now }
    requires order { IsOrder (drawn_count graph.now.parts) order.now }
    requires gaps { IfSome (option_copied gaps) AreGaps }
    requires made { AreSmall made.now }
    ensures laid { IfOk result (λ p. Laid p kit.now graph.now (option_copied gaps.entry) order.now made.now) }
    ensures names { IfOk result (λ p. NamesPieces p graph.now (option_copied gaps.entry)) }
    ensures placed { IfOk result (λ p. p ≡ placed kit.now graph.now (option_copied gaps.entry) order.now made.now) }
    ensures small { OnOk result (span kit.now graph.now (option_copied gaps.entry) order.now made.now ≤ SPAN_LIMIT) }
    ensures err { IfErr result (λ e. (e ≡ LayoutFault.NoMemory)
        ⊎ (layout_fault (span kit.now graph.now (option_copied gaps.entry) order.now made.now) ≡ Some e)) }
{
    let lists = spread_lists(alloc, kit, graph, gaps, order, made)?;
    let mut stops = lay_lists(alloc, kit, graph, &lists)?;
    if stops.end > SPAN_LIMIT {
        return Err(LayoutFault::Span {
            found: stops.end,
            limit: SPAN_LIMIT,
        });
    }
    let pieces = placed_pieces(alloc, graph, gaps, &stops.addresses)?;
    stops.areas.truncate(lists.len() - 1);
    Ok(Placement {
        base: kit.base,
        areas: Listed::from_vec(stops.areas),
        pieces,
    })
}
