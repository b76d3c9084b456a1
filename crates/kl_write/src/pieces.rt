// The bytes of pieces.
ghost use Rattle.std.specs.Prelude.{ℕ, ◌≡◌, ◌+◌, ◌<◌, ◌^◌, length, slice_index};
ghost use Rattle.kl_model.specs.Carries.{piece_at, source};
ghost use Rattle.kl_model.specs.Sound.{HasSource};
ghost use Rattle.kl_write.specs.InSpan.{ArePiecesInSpan, AreShort};
ghost use Rattle.kl_write.specs.LaidKits.{HaveSources};
ghost use Rattle.kl_write.specs.Windows.{Shows};
ghost use Rattle.kl_write.specs.Writes.{piece_write, piece_writes};

use crate::place::file_place;
use crate::window::put_padded;
use kl_base::Class;
use kl_model::{Graph, Input, KitKind, Piece, PieceId, Placement};

/// The bytes of a piece in the file of its input, if it has some.
fn bytes_of<'a>(inputs: &'a [Input], piece: &Piece) -> &'a [u8]
    requires source { 0 < piece.now.bytes.len → HasSource inputs.now piece.now.bytes piece.now.id }
    ensures long { length result.now ≡ piece.now.bytes.len }
    ensures bytes { (k : ℕ) → k < piece.now.bytes.len → slice_index result.now k ≡ slice_index (source inputs.now piece.now.id) (piece.now.bytes.at + k) }
{
    if piece.bytes.len == 0 {
        return &[];
    }
    match piece.id {
        PieceId::Section { input, .. } => inputs[input as usize].text(piece.bytes),
        PieceId::Common(_) | PieceId::Gap(_) => &[],
    }
}

/// Writes piece `number`, if its class has bytes in the file.
fn write_piece(
    out: &mut [u8],
    at: usize,
    inputs: &[Input],
    graph: &Graph,
    kind: KitKind,
    placement: &Placement,
    number: usize,
)
    requires number { number < length graph.now.pieces }
    requires sources { HaveSources inputs.now graph.now }
    requires short { AreShort graph.now }
    requires span { ArePiecesInSpan graph.now placement.now }
    requires window { at + length out.old < 2 ^ 63 }
    ensures { Shows out.old out.new at (piece_write kind inputs.now graph.now placement.now number (piece_at graph.now number)) }
{
    let piece = &graph.pieces.items()[number];
    if piece.class == Class::Bss {
        return;
    }
    let place = file_place(kind, placement, placement.pieces.items()[number].address);
    put_padded(out, at, place, piece.size as usize, bytes_of(inputs, piece));
}

/// Writes the pieces of the classes that have bytes in the file.
pub fn write_pieces(
    out: &mut [u8],
    at: usize,
    inputs: &[Input],
    graph: &Graph,
    kind: KitKind,
    placement: &Placement,
)
    requires sources { HaveSources inputs.now graph.now }
    requires short { AreShort graph.now }
    requires span { ArePiecesInSpan graph.now placement.now }
    requires window { at + length out.old < 2 ^ 63 }
    ensures { Shows out.old out.new at (piece_writes kind inputs.now graph.now placement.now) }
{
    for number in 0..graph.pieces.items().len() {
        write_piece(out, at, inputs, graph, kind, placement, number);
    }
}
