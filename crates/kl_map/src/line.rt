// The lines of a map.
ghost use Rattle.std.specs.Prelude.{◌≡◌, codes};
ghost use Rattle.std.specs.Option.{option_map};
ghost use Rattle.kl_map.specs.Reading.{address_of, area_of, bytes_of, common_of, gap_of, head_of, id_of, name_of, placed_of, section_of};

use crate::words::{address_of, class_of, is_area_name, name_of, seed_of, sizes_of};
use kl_base::Name;
use kl_model::{AreaAt, PieceId, Placed};
use kl_text::{first_line, number_of, split};

/// The image's name, and what follows its line.
pub(crate) fn output_line(text: &[u8]) -> Option<(Name, &[u8])>
    ensures { option_map (λ x. (x.0, x.1.now)) result ≡ head_of (codes "output ") name_of text.now }
{
    let (line, rest) = first_line(text)?;
    let output = name_of(line.strip_prefix(b"output ")?)?;
    Some((output, rest))
}

/// The seed, and what follows its line.
pub(crate) fn seed_line(text: &[u8]) -> Option<([u8; 32], &[u8])>
    ensures { option_map (λ x. (x.0, x.1.now)) result ≡ head_of (codes "seed ") (bytes_of 32) text.now }
{
    let (line, rest) = first_line(text)?;
    let seed = seed_of(line.strip_prefix(b"seed ")?)?;
    Some((seed, rest))
}

/// The address at which the image begins, and what follows its line.
pub(crate) fn base_line(text: &[u8]) -> Option<(u64, &[u8])>
    ensures { option_map (λ x. (x.0, x.1.now)) result ≡ head_of (codes "base ") address_of text.now }
{
    let (line, rest) = first_line(text)?;
    let base = address_of(line.strip_prefix(b"base ")?)?;
    Some((base, rest))
}

/// The area of a line, where the line has the name of the area of this number.
#[tactic(auto, unfolding(crate::specs::Reading::area_of))]
pub(crate) fn area_of(number: usize, line: &[u8]) -> Option<AreaAt>
    ensures { result ≡ area_of number line.now }
{
    let (name, sizes) = split(line.strip_prefix(b"area ")?, b' ')?;
    if !is_area_name(number, name) {
        return None;
    }
    let (start, end) = sizes_of(sizes)?;
    Some(AreaAt { start, end })
}

/// The piece, common or gap of a line.
#[tactic(auto, unfolding(crate::specs::Reading::placed_of))]
pub(crate) fn placed_of(line: &[u8]) -> Option<Placed>
    ensures { result ≡ placed_of line.now }
{
    let (id, sizes) = id_of(line)?;
    let (address, size) = sizes_of(sizes)?;
    Some(Placed { id, address, size })
}

/// Which piece, common or gap a line tells, and what follows that.
#[tactic(auto, unfolding(crate::specs::Reading::id_of))]
fn id_of(line: &[u8]) -> Option<(PieceId, &[u8])>
    ensures { option_map (λ x. (x.0, x.1.now)) result ≡ id_of line.now }
{
    if let Some(words) = line.strip_prefix(b"piece ") {
        section_of(words)
    } else if let Some(words) = line.strip_prefix(b"common ") {
        common_of(words)
    } else {
        gap_of(line.strip_prefix(b"gap ")?)
    }
}

#[tactic(auto, unfolding(crate::specs::Reading::section_of))]
fn section_of(words: &[u8]) -> Option<(PieceId, &[u8])>
    ensures { option_map (λ x. (x.0, x.1.now)) result ≡ section_of words.now }
{
    let (input, rest) = split(words, b' ')?;
    let (section, sizes) = split(rest, b' ')?;
    let input = number_of(input)?;
    let section = number_of(section)?;
    Some((PieceId::Section { input, section }, sizes))
}

#[tactic(auto, unfolding(crate::specs::Reading::common_of))]
fn common_of(words: &[u8]) -> Option<(PieceId, &[u8])>
    ensures { option_map (λ x. (x.0, x.1.now)) result ≡ common_of words.now }
{
    let (number, sizes) = split(words, b' ')?;
    Some((PieceId::Common(number_of(number)?), sizes))
}

#[tactic(auto, unfolding(crate::specs::Reading::gap_of))]
fn gap_of(words: &[u8]) -> Option<(PieceId, &[u8])>
    ensures { option_map (λ x. (x.0, x.1.now)) result ≡ gap_of words.now }
{
    let (class, sizes) = split(words, b' ')?;
    Some((PieceId::Gap(class_of(class)?), sizes))
}
