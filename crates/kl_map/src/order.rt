// Which line may follow which.
ghost use Rattle.std.specs.Prelude.{◌≡◌};
ghost use Rattle.kl_map.specs.Reading.{after_common, after_gap, after_section, is_ended, last_id, may_begin, may_end, may_follow};

use kl_base::Class;
use kl_model::area::{BSS, TEXT, class_number};
use kl_model::{AREAS, PieceId, Placed, Placement};

/// Whether this may stand behind the last of the pieces, commons and gaps so far.
pub(crate) fn may_follow(last: Option<PieceId>, id: PieceId) -> bool
    ensures { result ≡ may_follow last id }
{
    match last {
        Some(PieceId::Section { input, section }) => after_section(input, section, id),
        Some(PieceId::Common(number)) => after_common(number, id),
        Some(PieceId::Gap(class)) => after_gap(class, id),
        None => may_begin(id),
    }
}

/// Whether this may stand first.
fn may_begin(id: PieceId) -> bool
    ensures { result ≡ may_begin id }
{
    match id {
        PieceId::Section { .. } => true,
        PieceId::Common(number) => number == 0,
        PieceId::Gap(class) => class_number(class) == TEXT,
    }
}

fn after_section(input: u32, section: u32, id: PieceId) -> bool
    ensures { result ≡ after_section input section id }
{
    match id {
        PieceId::Section {
            input: next,
            section: behind,
        } => input < next || input == next && section < behind,
        _ => may_begin(id),
    }
}

fn after_common(number: u32, id: PieceId) -> bool
    ensures { result ≡ after_common number id }
{
    match id {
        PieceId::Section { .. } => false,
        PieceId::Common(next) => u64::from(next) == u64::from(number) + 1,
        PieceId::Gap(_) => may_begin(id),
    }
}

fn after_gap(class: Class, id: PieceId) -> bool
    ensures { result ≡ after_gap class id }
{
    match id {
        PieceId::Gap(next) => class_number(next) == class_number(class) + 1,
        _ => false,
    }
}

/// Whether nothing is missing before the end.
pub(crate) fn is_ended(placement: &Placement) -> bool
    ensures { result ≡ is_ended placement.now }
{
    placement.areas.items().len() >= AREAS.len() && may_end(last_id(placement.pieces.items()))
}

fn may_end(last: Option<PieceId>) -> bool
    ensures { result ≡ may_end last }
{
    match last {
        Some(PieceId::Gap(class)) => class_number(class) == BSS,
        _ => true,
    }
}

pub(crate) fn last_id(pieces: &[Placed]) -> Option<PieceId>
    ensures { result ≡ last_id pieces.now }
{
    match pieces.last() {
        Some(placed) => Some(placed.id),
        None => None,
    }
}
