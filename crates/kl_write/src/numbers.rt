// The values of fields, written.
ghost use Rattle.std.specs.Prelude.{◌≡◌, ◌+◌, ◌*◌, ◌<◌, ◌≤◌, ◌^◌, ◌∷◌, [], length, slice_index_or};
ghost use Rattle.kl_model.specs.Lists.{each};
ghost use Rattle.kl_model.specs.Relocations.{width as field_width};
ghost use Rattle.kl_write.specs.InSpan.{AreFieldsInside, ArePiecesInSpan};
ghost use Rattle.kl_write.specs.Windows.{Shows};
ghost use Rattle.kl_write.specs.Writes.{no_field, nth_value_write, value_write};

use crate::place::file_place;
use crate::window::put_number;
use kl_model::{Graph, KitKind, Placement, width};

/// The width of the field of a relocation type, in bytes.
fn width_of(kind: u8) -> usize
    ensures width { result ≡ field_width kind }
    ensures small { result ≤ 8 }
{
    width(u32::from(kind)) as usize
}

/// Writes a value into field `number`.
fn write_field(
    out: &mut [u8],
    at: usize,
    graph: &Graph,
    kind: KitKind,
    placement: &Placement,
    number: usize,
    value: u64,
)
    requires number { number < length graph.now.fields }
    requires fields { AreFieldsInside graph.now }
    requires span { ArePiecesInSpan graph.now placement.now }
    requires window { at + length out.old < 2 ^ 63 }
    ensures { Shows out.old out.new at (value_write kind graph.now placement.now (slice_index_or graph.now.fields number no_field) value ∷ []) }
{
    let field = &graph.fields.items()[number];
    let address = placement.pieces.items()[field.piece as usize].address;
    let place = file_place(kind, placement, address) + field.offset as usize;
    put_number(out, at, place, width_of(field.kind), value);
}

/// Writes a value into each field.
pub fn write_fields(
    out: &mut [u8],
    at: usize,
    graph: &Graph,
    kind: KitKind,
    placement: &Placement,
    values: &[u64],
)
    requires values { length values.now ≡ length graph.now.fields }
    requires fields { AreFieldsInside graph.now }
    requires span { ArePiecesInSpan graph.now placement.now }
    requires window { at + length out.old < 2 ^ 63 }
    ensures { Shows out.old out.new at (each graph.now.fields (nth_value_write kind graph.now placement.now values.now)) }
{
    for number in 0..graph.fields.items().len() {
        write_field(out, at, graph, kind, placement, number, values[number]);
    }
}
