// The fields of a header: texts that spaces fill up, and decimal numbers.
ghost use Rattle.std.specs.Prelude.{◌≡◌, ◌≤◌, ◌<◌, ◌^◌, length, IfSome};
ghost use Rattle.kl_ar.specs.Fields.{decimal_of, text_of, without_end};
ghost use Rattle.kl_ar.specs.declared.format.TheConstants.{NAME_LEN, RADIX};

use crate::format::{NAME_LEN, RADIX};
use bstr::ByteSlice;

/// The text of a field, without the spaces behind it.
#[tactic(auto, unfolding(crate::specs::Fields::text_of))]
pub(crate) fn text_of(field: &[u8]) -> &[u8]
    ensures text { result.now ≡ text_of field.now }
    ensures within { length result.now ≤ length field.now }
{
    without_end(field, b' ')
}

/// Bytes without those at their end that are this byte.
pub(crate) fn without_end(bytes: &[u8], byte: u8) -> &[u8]
    ensures bytes { result.now ≡ without_end byte bytes.now }
    ensures within { length result.now ≤ length bytes.now }
{
    match bytes.rfind_not_byteset(&[byte]) {
        Some(last) => &bytes[..last + 1],
        None => b"",
    }
}

/// The number of a text of decimal digits and nothing else.
#[tactic(auto, unfolding(crate::specs::Fields::decimal_of))]
pub(crate) fn decimal_of(text: &[u8]) -> Option<u64>
    requires { length text.now ≤ NAME_LEN }
    ensures { result ≡ decimal_of text.now }
{
    if text.is_empty() {
        return None;
    }
    let mut number = 0;
    for byte in text {
        if !byte.is_ascii_digit() {
            return None;
        }
        number = RADIX * number + u64::from(*byte - b'0');
    }
    Some(number)
}
