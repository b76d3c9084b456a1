// The forms of words.
ghost use Rattle.std.specs.Prelude.{◌≡◌, ◌≤◌, ◌&&◌, find, length, IfOk, IfSome};
ghost use Rattle.std.specs.Option.{option_copied};
ghost use Rattle.std.specs.Str.{bytes_eq};
ghost use Rattle.hex.specs.Hex.{hex_digit_value};
ghost use Rattle.kl_kit.specs.Forms.{area_of, base_if, base_of, class_of, digits_number, dir_of, end_of, file_of, is_file, is_kernel_output, is_reserved, is_word, kind_of, name_of, number_of, refuse_of, word_of};

use kl_base::{
    BASE_LIMIT, Class, FILE_LIMIT, Name, NoMemory, OUTPUT_LIMIT, PAGE, SCRATCH_SUFFIX, WORD_LIMIT,
    are_path_bytes,
};
use kl_model::{AREAS, AreaForm, KitKind, Word};
use std::alloc::Global;

/// How many hexadecimal digits a base has at most.
pub(crate) const BASE_DIGITS: usize = 16;

/// The base of hexadecimal numbers.
pub(crate) const RADIX: u64 = 16;

/// The word, where it is a SYMBOL, SECTION or TEXT.
pub(crate) fn word_of(alloc: Global, word: &[u8]) -> Result<Option<Word>, NoMemory>
    ensures { IfOk result (λ o. o ≡ word_of word.now) }
{
    if is_word(word) {
        Ok(Some(Word::from_vec(Vec::from_slice(alloc, word)?)))
    } else {
        Ok(None)
    }
}

fn is_word(word: &[u8]) -> bool
    ensures { result ≡ is_word word.now }
{
    !word.is_empty() && word.len() <= WORD_LIMIT && are_path_bytes(word)
}

/// The word, where it is a FILE.
pub(crate) fn file_of(alloc: Global, word: &[u8]) -> Result<Option<Word>, NoMemory>
    ensures { IfOk result (λ o. o ≡ file_of word.now) }
{
    if is_file(word) {
        Ok(Some(Word::from_vec(Vec::from_slice(alloc, word)?)))
    } else {
        Ok(None)
    }
}

fn is_file(file: &[u8]) -> bool
    ensures { result ≡ is_file file.now }
{
    file.len() <= FILE_LIMIT
        && Name::at_root(file).is_ok()
        && file != b"link.conf".as_slice()
        && !file.ends_with(&SCRATCH_SUFFIX)
}

/// The word, where it is a NAME.
pub(crate) fn name_of(word: &[u8]) -> Option<Name>
    ensures { result ≡ name_of word.now }
{
    Name::from_bytes(word).ok()
}

/// The word, where it is a DIR: a name below the folder of all kits.
pub(crate) fn dir_of(word: &[u8]) -> Option<Name>
    ensures { result ≡ dir_of word.now }
{
    if word.len() <= FILE_LIMIT && word.starts_with(b"/usr/share/relink/") {
        name_of(word)
    } else {
        None
    }
}

pub(crate) fn kind_of(word: &[u8]) -> Option<KitKind>
    ensures { result ≡ kind_of word.now }
{
    if word == b"kernel".as_slice() {
        Some(KitKind::Kernel)
    } else if word == b"library".as_slice() {
        Some(KitKind::Library)
    } else {
        None
    }
}

pub(crate) fn class_of(word: &[u8]) -> Option<Class>
    ensures { result ≡ class_of word.now }
{
    if word == b"text".as_slice() {
        Some(Class::Text)
    } else if word == b"rodata".as_slice() {
        Some(Class::Rodata)
    } else if word == b"data".as_slice() {
        Some(Class::Rwdata)
    } else if word == b"bss".as_slice() {
        Some(Class::Bss)
    } else {
        None
    }
}

/// The number of the area of this name, which an edge may name.
#[tactic(auto, unfolding(crate::specs::Forms::area_of))]
pub(crate) fn area_of(word: &[u8]) -> Option<u32>
    ensures { result ≡ area_of word.now }
{
    match edge_area(&AREAS, word) {
        Some(area) => Some(area.number),
        None => None,
    }
}

/// The row of an area by its name, where an edge may name it.
fn edge_area<'a>(rows: &'a [AreaForm], name: &[u8]) -> Option<&'a AreaForm>
    ensures { option_copied result ≡ find (λ row. row.edge && bytes_eq name.now row.name.now) rows.now }
{
    rows.iter().find(|row| row.edge && name == row.name)
}

/// Whether an edge is the end of its area.
pub(crate) fn end_of(word: &[u8]) -> Option<bool>
    ensures { result ≡ end_of word.now }
{
    if word == b"start".as_slice() {
        Some(false)
    } else if word == b"end".as_slice() {
        Some(true)
    } else {
        None
    }
}

/// Whether undefined names are refused.
pub(crate) fn refuse_of(word: &[u8]) -> Option<bool>
    ensures { result ≡ refuse_of word.now }
{
    if word == b"refuse".as_slice() {
        Some(true)
    } else if word == b"allow".as_slice() {
        Some(false)
    } else {
        None
    }
}

/// The address of a base.
#[tactic(auto, unfolding(crate::specs::Forms::base_of))]
pub(crate) fn base_of(word: &[u8]) -> Option<u64>
    ensures { result ≡ base_of word.now }
{
    let number = digits_number(word.strip_prefix(b"0x")?)?;
    if number % PAGE == 0 && number <= BASE_LIMIT {
        Some(number)
    } else {
        None
    }
}

fn digits_number(digits: &[u8]) -> Option<u64>
    ensures { result ≡ digits_number digits.now }
{
    if digits.is_empty() || digits.len() > BASE_DIGITS {
        return None;
    }
    number_of(digits)
}

fn number_of(digits: &[u8]) -> Option<u64>
    requires { length digits.now ≤ BASE_DIGITS }
    ensures { result ≡ number_of digits.now }
{
    let mut number = 0;
    for digit in digits {
        number = RADIX * number + digit_of(*digit)? as u64;
    }
    Some(number)
}

/// The value of a hexadecimal digit.
fn digit_of(byte: u8) -> Option<u8>
    ensures value { result ≡ hex_digit_value byte }
    ensures small { IfSome result (λ d. d ≤ 15) }
{
    match byte {
        b'0'..=b'9' => Some(byte - b'0'),
        b'a'..=b'f' => Some(byte - b'a' + 10),
        b'A'..=b'F' => Some(byte - b'A' + 10),
        _ => None,
    }
}

/// Whether this is a kernel's output.
pub(crate) fn is_kernel_output(name: &[u8]) -> bool
    ensures { result ≡ is_kernel_output name.now }
{
    name == b"/bsd".as_slice()
}

/// Whether no kit but a kernel's may have this output.
pub(crate) fn is_reserved(name: &[u8]) -> bool
    ensures { result ≡ is_reserved name.now }
{
    name.len() > OUTPUT_LIMIT
        || name == b"/bsd".as_slice()
        || name == b"/obsd".as_slice()
        || name.starts_with(b"/usr/share/relink/")
        || name.starts_with(b"/var/db/")
        || name.ends_with(&SCRATCH_SUFFIX)
        || name.ends_with(b".map")
        || name.ends_with(b"/linked")
}
