// The padding of an image.
ghost use Rattle.std.specs.Prelude.{◌≡◌, ◌+◌, ◌-◌, ◌<◌, ◌≤◌, ◌^◌, ◌∷◌, [], length, IfSome, Some};
ghost use Rattle.kl_model.specs.Carries.{padding as padding_of};
ghost use Rattle.kl_model.specs.Laid.{place_of};
ghost use Rattle.kl_model.specs.Line.{gap_size};
ghost use Rattle.kl_model.specs.declared.place.Body.TheVariants as body;
ghost use Rattle.kl_model.specs.declared.area.TheConstants as area;
ghost use Rattle.kl_write.specs.InSpan.{AreGapsInSpan, IsAreaInSpan};
ghost use Rattle.kl_write.specs.Windows.{Shows, same_from};
ghost use Rattle.kl_write.specs.Writes.{area_write, file_place as place_in_file, gap_writes, padding_writes};

use crate::place::file_place;
use crate::window::fill_window;
use kl_base::Class;
use kl_model::area::{FINI, INIT, INT3, NOP, TEXT, class_number as number_of};
use kl_model::{Gaps, Graph, KitKind, Placement};

/// Pads an area of text.
fn pad_area(out: &mut [u8], at: usize, kind: KitKind, placement: &Placement, number: u32, byte: u8)
    requires area { IsAreaInSpan placement.now number }
    requires window { at + length out.old < 2 ^ 63 }
    ensures { Shows out.old out.new at (area_write kind placement.now number byte ∷ []) }
{
    let area = placement.areas.items()[number as usize];
    let from = file_place(kind, placement, area.start);
    let to = file_place(kind, placement, area.end);
    fill_window(out, at, from, to - from, byte);
}

/// One byte from a place up to another, and zeros before and behind.
fn pad_between(out: &mut [u8], at: usize, from: usize, to: usize, byte: u8)
    requires order { from ≤ to }
    requires small { to < 2 ^ 62 }
    requires window { at + length out.old < 2 ^ 63 }
    ensures { Shows out.old out.new at (same_from at (length out.old) 0 ∷ same_from from (to - from) byte ∷ []) }
{
    let rest = (at + out.len()).saturating_sub(to);
    fill_window(out, at, 0, from, 0);
    fill_window(out, at, from, to - from, byte);
    fill_window(out, at, to, rest, 0);
}

/// Zeros before text and behind it, and the padding of text.
fn pad_text(out: &mut [u8], at: usize, kind: KitKind, placement: &Placement)
    requires text { IsAreaInSpan placement.now area.TEXT }
    requires window { at + length out.old < 2 ^ 63 }
    ensures { Shows out.old out.new at (same_from at (length out.old) 0 ∷ area_write kind placement.now area.TEXT area.INT3 ∷ []) }
{
    let text = placement.areas.items()[TEXT as usize];
    let from = file_place(kind, placement, text.start);
    let to = file_place(kind, placement, text.end);
    pad_between(out, at, from, to, INT3);
}

/// Zeros, and the padding of text and of its areas `init` and `fini`.
pub fn pad(out: &mut [u8], at: usize, kind: KitKind, placement: &Placement)
    requires text { IsAreaInSpan placement.now area.TEXT }
    requires init { IsAreaInSpan placement.now area.INIT }
    requires fini { IsAreaInSpan placement.now area.FINI }
    requires window { at + length out.old < 2 ^ 63 }
    ensures { Shows out.old out.new at (same_from at (length out.old) 0 ∷ padding_writes kind placement.now) }
{
    pad_text(out, at, kind, placement);
    pad_area(out, at, kind, placement, INIT, NOP);
    pad_area(out, at, kind, placement, FINI, NOP);
}

/// The byte by which a class is padded.
fn padding(class: Class) -> u8
    ensures { result ≡ padding_of class }
{
    match class {
        Class::Text => INT3,
        Class::Rodata | Class::Rwdata | Class::Bss => 0,
    }
}

/// The size of the gap of a class.
fn size_of(gaps: &Gaps, class: Class) -> u64
    ensures { result ≡ gap_size gaps.now class }
{
    match class {
        Class::Text => gaps.text,
        Class::Rodata => gaps.rodata,
        Class::Rwdata => gaps.rwdata,
        Class::Bss => gaps.bss,
    }
}

/// Pads the gap of a class.
fn pad_gap(
    out: &mut [u8],
    at: usize,
    graph: &Graph,
    gaps: &Gaps,
    kind: KitKind,
    placement: &Placement,
    class: Class,
)
    requires span { AreGapsInSpan graph.now gaps.now placement.now }
    requires window { at + length out.old < 2 ^ 63 }
    ensures { Shows out.old out.new at (same_from (place_in_file kind placement.now (place_of placement.now graph.now (body.Gap class))) (gap_size gaps.now class) (padding_of class) ∷ []) }
{
    let index = graph.pieces.items().len() + number_of(class) as usize;
    let place = file_place(kind, placement, placement.pieces.items()[index].address);
    fill_window(
        out,
        at,
        place,
        size_of(gaps, class) as usize,
        padding(class),
    );
}

/// Pads the gaps of the classes that have bytes in the file, if there are gaps.
pub fn pad_gaps(
    out: &mut [u8],
    at: usize,
    graph: &Graph,
    gaps: Option<Gaps>,
    kind: KitKind,
    placement: &Placement,
)
    requires span { IfSome gaps (λ z. AreGapsInSpan graph.now z placement.now) }
    requires window { at + length out.old < 2 ^ 63 }
    ensures { Shows out.old out.new at (gap_writes kind graph.now gaps placement.now) }
{
    if let Some(gaps) = gaps {
        pad_three(out, at, graph, &gaps, kind, placement);
    }
}

/// Pads the gaps of text, rodata and data.
fn pad_three(
    out: &mut [u8],
    at: usize,
    graph: &Graph,
    gaps: &Gaps,
    kind: KitKind,
    placement: &Placement,
)
    requires span { AreGapsInSpan graph.now gaps.now placement.now }
    requires window { at + length out.old < 2 ^ 63 }
    ensures { Shows out.old out.new at (gap_writes kind graph.now (Some gaps.now) placement.now) }
{
    pad_gap(out, at, graph, gaps, kind, placement, Class::Text);
    pad_gap(out, at, graph, gaps, kind, placement, Class::Rodata);
    pad_gap(out, at, graph, gaps, kind, placement, Class::Rwdata);
}
