// Lines, and the words of a line.
ghost use Rattle.std.specs.Prelude.{◌≡◌, ◌==◌, ◌<◌, ◌∷◌, [], length, true, IfSome, IfNone};
ghost use Rattle.std.specs.Option.{option_map};
ghost use Rattle.std.specs.List.{list_all};
ghost use Rattle.kl_text.specs.Lines.{in_word, lines, words};
ghost use Rattle.kl_kit.specs.KitLines.{is_text_byte, line_of, word_at};
ghost use Rattle.kl_kit.specs.Readers.{said_line};

use bstr::ByteSlice;
use kl_text::first_line;

/// What parts words: a space or a tab.
const BLANKS: &[u8] = b" \t";

/// A line that says something: its number, its first word, and the bytes behind that.
#[derive(Clone, Copy)]
pub(crate) struct Line<'a> {
    pub(crate) number: u32,
    pub(crate) keyword: &'a [u8],
    pub(crate) rest: &'a [u8],
}

impl<'a> Line<'a> {
    /// The line of this number with these bytes; `None` where it says nothing.
    pub(crate) fn new(number: u32, bytes: &'a [u8]) -> Option<Self>
        ensures { option_map said_line result ≡ line_of number (words bytes.now) }
    {
        let (keyword, rest) = next_word(bytes)?;
        if keyword.starts_with(b"#") {
            None
        } else {
            Some(Line {
                number,
                keyword,
                rest,
            })
        }
    }

    /// A word behind the first, by its place; no bytes where there is none.
    pub(crate) fn word(&self, place: usize) -> &'a [u8]
        ensures { result.now ≡ word_at (words self.now.rest.now) place }
    {
        let mut rest = self.rest;
        for _ in 0..place {
            match next_word(rest) {
                Some((_, more)) => rest = more,
                None => return b"",
            }
        }
        match next_word(rest) {
            Some((word, _)) => word,
            None => b"",
        }
    }

    /// Whether so many words stand behind the first.
    pub(crate) fn has_words(&self, count: usize) -> bool
        ensures { result ≡ (length (words self.now.rest.now) == count) }
    {
        let mut rest = self.rest;
        for _ in 0..count {
            match next_word(rest) {
                Some((_, more)) => rest = more,
                None => return false,
            }
        }
        next_word(rest).is_none()
    }
}

/// The first word, and the bytes behind it; `None` where there is no word.
fn next_word(bytes: &[u8]) -> Option<(&[u8], &[u8])>
    ensures some { IfSome result (λ x. words bytes.now ≡ x.0.now ∷ words x.1.now) }
    ensures none { IfNone result (words bytes.now ≡ []) }
{
    let bytes = skip_blanks(bytes)?;
    Some(cut_word(bytes))
}

/// The bytes from the first word on.
fn skip_blanks(bytes: &[u8]) -> Option<&[u8]>
    ensures word { IfSome result (λ x. in_word x.now ≡ true) }
    ensures words { IfSome result (λ x. words bytes.now ≡ words x.now) }
    ensures none { IfNone result (words bytes.now ≡ []) }
{
    let start = bytes.find_not_byteset(BLANKS)?;
    Some(&bytes[start..])
}

/// The word with which the bytes begin, and those behind it.
fn cut_word(bytes: &[u8]) -> (&[u8], &[u8])
    requires { in_word bytes.now ≡ true }
    ensures { words bytes.now ≡ result.0.now ∷ words result.1.now }
{
    match bytes.find_byteset(BLANKS) {
        Some(end) => (&bytes[..end], &bytes[end..]),
        None => (bytes, b""),
    }
}

/// The first line of a text, without its newline, and the text behind it. The last line may lack a newline.
pub(crate) fn next_line(text: &[u8]) -> (&[u8], &[u8])
    requires { 0 < length text.now }
    ensures lines { lines text.now ≡ result.0.now ∷ lines result.1.now }
    ensures shorter { length result.1.now < length text.now }
{
    match first_line(text) {
        Some(parts) => parts,
        None => (text, b""),
    }
}

/// Whether each byte may stand in a line.
pub(crate) fn is_text(bytes: &[u8]) -> bool
    ensures { result ≡ list_all is_text_byte bytes.now }
{
    bytes.iter().all(|byte| is_text_byte(*byte))
}

/// A tab, or from 0x20 to 0x7e.
fn is_text_byte(byte: u8) -> bool
    ensures { result ≡ is_text_byte byte }
{
    byte == b'\t' || 0x20 <= byte && byte <= 0x7e
}
