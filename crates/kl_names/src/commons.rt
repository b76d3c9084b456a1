// The pieces of common symbols (gABI, `SHN_COMMON`).
ghost use Rattle.std.specs.Prelude.{◌≡◌, if◌then◌else◌, is_none, map, slice_get, None, Some, IfOk};
ghost use Rattle.kl_model.specs.Fit.{AreFit};
ghost use Rattle.kl_model.specs.Graphs.{common_pieces as pieces_of_commons};
ghost use Rattle.kl_model.specs.Names.{common_names};
ghost use Rattle.kl_names.specs.Commons.{piece_of_common};
ghost use Rattle.kl_names.specs.Facts.{AreNotes};

use crate::facts::{Common, NameFacts};
use crate::noted::Notes;
use crate::numbers::Numbering;
use kl_base::{Class, NoMemory, Range};
use kl_model::area::BSS;
use kl_model::{Input, Kit, Piece, PieceId};
use std::alloc::Global;

/// The commons that hold: those of names without a GLOBAL definition.
#[derive(Drop)]
pub struct Commons {
    /// Their pieces, by common number.
    pub pieces: Vec<Piece>,
    /// The numbers of their names, by common number.
    pub numbers: Vec<u32>,
}

/// The piece of common `number`.
fn common_piece(number: u32, common: Common) -> Piece
    ensures { result ≡ piece_of_common number common }
{
    Piece {
        id: PieceId::Common(number),
        class: Class::Bss,
        area: BSS,
        size: common.size,
        align: common.align,
        bytes: Range { at: 0, len: 0 },
    }
}

/// What the commons of a name ask for, where they hold.
fn holding(facts: &NameFacts) -> Option<Common>
    ensures { result ≡ (if is_none facts.now.global then facts.now.common else None) }
{
    if facts.global.is_none() {
        facts.common
    } else {
        None
    }
}

/// The commons that hold, in the order of each name's first common symbol. The only error is want of memory.
pub fn common_pieces(
    alloc: Global,
    kit: &Kit,
    inputs: &[Input],
    numbering: &Numbering<'_>,
    notes: &Notes,
) -> Result<Commons, NoMemory>
    requires inputs { AreFit inputs.now }
    requires notes { AreNotes kit.now inputs.now numbering.now.index notes.now }
    ensures pieces { IfOk result (λ c. c.pieces.items ≡ pieces_of_commons kit.now inputs.now) }
    ensures numbers { IfOk result (λ c. map (slice_get numbering.now.index) c.numbers.items ≡ map Some (common_names kit.now inputs.now)) }
{
    let mut pieces = Vec::with_capacity(alloc, notes.commons.len())?;
    let mut numbers = Vec::with_capacity(alloc, notes.commons.len())?;
    for number in &notes.commons {
        if let Some(common) = holding(&notes.facts[*number as usize]) {
            pieces.push(common_piece(pieces.len() as u32, common))?;
            numbers.push(*number)?;
        }
    }
    Ok(Commons { pieces, numbers })
}
