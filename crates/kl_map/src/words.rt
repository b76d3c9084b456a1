// The words of a map's lines.
ghost use Rattle.std.specs.Prelude.{ℕ, ◌≡◌, ◌<◌, ◌^◌, decimal, Some};
ghost use Rattle.std.specs.Str.{bytes_eq};
ghost use Rattle.kl_map.specs.MapText.{area_name};
ghost use Rattle.kl_map.specs.Reading.{address_of, bytes_of, class_of, name_of, sizes_of};

use itoa::Buffer;
use kl_base::{Class, Name};
use kl_model::AREAS;
use kl_model::area::map_name;
use kl_text::split;

pub(crate) fn name_of(word: &[u8]) -> Option<Name>
    ensures { result ≡ name_of word.now }
{
    Name::from_bytes(word).ok()
}

/// The bytes of 64 lower-case digits.
pub(crate) fn seed_of(word: &[u8]) -> Option<[u8; 32]>
    ensures { result ≡ bytes_of 32 word.now }
{
    let mut seed = [0; 32];
    if hex::decode_to_slice(word, &mut seed).is_err() {
        return None;
    }
    let mut digits = [0; 64];
    hex::encode_to_slice(&seed, &mut digits).unwrap();
    if digits.as_slice() == word {
        Some(seed)
    } else {
        None
    }
}

/// The bytes of 16 lower-case digits.
fn eight_bytes(word: &[u8]) -> Option<[u8; 8]>
    ensures { result ≡ bytes_of 8 word.now }
{
    let mut bytes = [0; 8];
    if hex::decode_to_slice(word, &mut bytes).is_err() {
        return None;
    }
    let mut spelling = [0; 16];
    hex::encode_to_slice(&bytes, &mut spelling).unwrap();
    if spelling.as_slice() == word {
        Some(bytes)
    } else {
        None
    }
}

/// The address or size of a word.
#[tactic(auto, unfolding(crate::specs::Reading::address_of))]
pub(crate) fn address_of(word: &[u8]) -> Option<u64>
    ensures { result ≡ address_of word.now }
{
    let bytes = eight_bytes(word.strip_prefix(b"0x")?)?;
    Some(u64::from_be_bytes(bytes))
}

/// Two addresses or sizes, parted by a space.
#[tactic(auto, unfolding(crate::specs::Reading::sizes_of))]
pub(crate) fn sizes_of(text: &[u8]) -> Option<(u64, u64)>
    ensures { result ≡ sizes_of text.now }
{
    let (first, second) = split(text, b' ')?;
    Some((address_of(first)?, address_of(second)?))
}

/// Whether the word is the name of the area of this number.
#[tactic(auto, unfolding(crate::specs::MapText::area_name))]
pub(crate) fn is_area_name(number: usize, word: &[u8]) -> bool
    ensures { result ≡ bytes_eq word.now (area_name number) }
{
    match map_name(number) {
        Some(name) => word == name,
        None => match word.strip_prefix(b"run") {
            Some(digits) => digits == Buffer::new().format(number - AREAS.len()).as_bytes(),
            None => false,
        },
    }
}

pub(crate) fn class_of(word: &[u8]) -> Option<Class>
    ensures { result ≡ class_of word.now }
{
    if word == b"text".as_slice() {
        Some(Class::Text)
    } else if word == b"rodata".as_slice() {
        Some(Class::Rodata)
    } else if word == b"data".as_slice() {
        Some(Class::Rwdata)
    } else if word == b"bss".as_slice() {
        Some(Class::Bss)
    } else {
        None
    }
}
