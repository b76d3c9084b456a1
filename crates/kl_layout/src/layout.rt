// Lays the four classes.
ghost use Rattle.std.specs.Prelude.{◌≡◌, ◌+◌, ◌<◌, ◌≤◌, ◌^◌, flat_map, length, IfOk, OnOk, All};
ghost use Rattle.kl_base.specs.declared.class.Class.{Class};
ghost use Rattle.kl_base.specs.declared.class.Class.TheVariants.{Bss};
ghost use Rattle.kl_model.specs.declared.kit.KitKind.TheVariants.{Library};
ghost use Rattle.kl_base.specs.declared.limits.TheConstants.{ALIGN_LIMIT};
ghost use Rattle.kl_model.specs.Laid.{reach};
ghost use Rattle.kl_model.specs.Line.{classes};
ghost use Rattle.kl_model.specs.Lists.{up};
ghost use Rattle.kl_model.specs.Sizes.{page_for, page_of, text_from};
ghost use Rattle.kl_model.specs.Sound.{IsSoundGraph};
ghost use Rattle.kl_model.specs.declared.area.TheConstants as area;
ghost use Rattle.kl_layout.specs.Once.{AreOnce};
ghost use Rattle.kl_layout.specs.Stops.{AreListed, IsPart, IsStep, listed_from, listed_line, room};

use crate::class::lay_class;
use crate::stops::padding;
use kl_base::{Class, Listed, NoMemory, PAGE};
use kl_model::{AreaAt, Graph, Kit, KitKind, LinePart};
use std::alloc::Global;

/// The page of a kit, whose pieces are aligned to powers of two.
fn page_of(kit: &Kit, graph: &Graph) -> u64
    requires { All (λ x. IsStep x.align) graph.now.pieces }
    ensures value { result ≡ page_of kit.now graph.now }
    ensures step { IsStep result }
{
    match kit.kind {
        KitKind::Kernel => PAGE,
        KitKind::Library => greatest_align(graph),
    }
}

/// The page of a kit, in bytes: `PAGE`, in a library the greatest alignment of a piece, where that is more.
pub fn page(kit: &Kit, graph: &Graph) -> u64
    requires { IsSoundGraph kit.now graph.now }
    ensures { result ≡ page_of kit.now graph.now }
{
    page_of(kit, graph)
}

/// The greatest alignment of a piece, and a page at least.
fn greatest_align(graph: &Graph) -> u64
    requires { All (λ x. IsStep x.align) graph.now.pieces }
    ensures value { result ≡ page_for Library graph.now }
    ensures step { IsStep result }
{
    let mut page = PAGE;
    for piece in graph.pieces.items() {
        page = page.max(piece.align);
    }
    page
}

/// How far behind the base text is laid: in a library a page, since its headers stand there.
fn text_place(kit: &Kit, graph: &Graph) -> u64
    requires { All (λ x. IsStep x.align) graph.now.pieces }
    ensures value { kit.now.base + result ≡ text_from kit.now graph.now }
    ensures small { result ≤ ALIGN_LIMIT }
{
    match kit.kind {
        KitKind::Kernel => 0,
        KitKind::Library => greatest_align(graph),
    }
}

/// The next page from a place on, in bytes from the base.
fn next_page(base: u64, place: u64, page: u64) -> u64
    requires step { IsStep page }
    requires small { place < 2 ^ 63 }
    ensures value { base + result ≡ up (base + place) page }
    ensures near { result ≤ place + page }
{
    place + padding(base.wrapping_add(place), page)
}

/// Lays the four classes. Writes the address of each part, and where each area and each class start and end. Gives the place at which
/// bss ends, in bytes from the base.
pub(crate) fn lay_classes(
    alloc: Global,
    kit: &Kit,
    graph: &Graph,
    lists: &[Listed<LinePart>],
    addresses: &mut [u64],
    areas: &mut [AreaAt],
) -> Result<u64, NoMemory>
    requires steps { All (λ x. IsStep x.align) graph.now.pieces }
    requires parts { (c : Class) → All (IsPart (length addresses.old)) (listed_line kit.now lists.now c) }
    requires once { AreOnce (flat_map (listed_line kit.now lists.now) classes) }
    requires room { room (flat_map (listed_line kit.now lists.now) classes) < 2 ^ 62 }
    requires lists { length lists.now ≡ area.FIRST_RUN + (length kit.now.runs + 1) }
    requires areas { length areas.old ≡ length lists.now }
    ensures addresses_count { length addresses.new ≡ length addresses.old }
    ensures areas_count { length areas.new ≡ length areas.old }
    ensures reach { IfOk result (λ n. kit.now.base + n ≡ reach (listed_from kit.now graph.now lists.now Bss) (listed_line kit.now lists.now Bss)) }
    ensures laid { OnOk result (AreListed kit.now graph.now lists.now addresses.new areas.new) }
{
    let page = page_of(kit, graph);
    let from = text_place(kit, graph);
    let text = lay_class(alloc, kit, lists, Class::Text, from, addresses, areas)?;
    let from = next_page(kit.base, text, page);
    let rodata = lay_class(alloc, kit, lists, Class::Rodata, from, addresses, areas)?;
    let from = next_page(kit.base, rodata, page);
    let rwdata = lay_class(alloc, kit, lists, Class::Rwdata, from, addresses, areas)?;
    let from = next_page(kit.base, rwdata, page);
    let end = lay_class(alloc, kit, lists, Class::Bss, from, addresses, areas)?;
    Ok(end)
}
