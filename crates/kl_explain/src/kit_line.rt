// Lines of a kit text, and their words.
ghost use Rattle.std.specs.Prelude.{◌<◌, length};

use bstr::ByteSlice;
use kl_base::NoMemory;
use kl_text::first_line;
use std::alloc::Global;

/// What parts words: a space or a tab.
const BLANKS: &[u8] = b" \t";

/// A line of a kit text.
#[derive(Clone, Copy, Debug)]
pub struct Line<'a> {
    /// Its number, from 1.
    pub number: u32,
    /// Its bytes, without the newline.
    pub bytes: &'a [u8],
    /// Whether a newline ends it.
    pub ended: bool,
}

impl<'a> Line<'a> {
    /// A word of the line, by its place from 0; no bytes where there is none.
    pub fn word(&self, place: usize) -> &'a [u8] {
        let mut rest = self.bytes;
        for _ in 0..place {
            rest = cut_word(rest).1;
        }
        cut_word(rest).0
    }

    /// Whether this is its first word.
    pub fn begins(&self, word: &[u8]) -> bool {
        self.word(0) == word
    }

    /// Whether it names an input.
    pub fn is_input(&self) -> bool {
        self.begins(b"head") || self.begins(b"object") || self.begins(b"tail")
    }

    /// Whether it has a word, and is no comment.
    pub fn says(&self) -> bool {
        let word = self.word(0);
        !word.is_empty() && !word.starts_with(b"#")
    }
}

/// The first word, and the bytes behind it; no bytes where there is no word.
fn cut_word(bytes: &[u8]) -> (&[u8], &[u8]) {
    let Some(start) = bytes.find_not_byteset(BLANKS) else {
        return (b"", b"");
    };
    let rest = &bytes[start..];
    match rest.find_byteset(BLANKS) {
        Some(end) => (&rest[..end], &rest[end..]),
        None => (rest, b""),
    }
}

/// The first line of a text that isn't empty, whether a newline ends it, and the text behind it.
fn cut_line(text: &[u8]) -> (&[u8], bool, &[u8])
    requires { 0 < length text.now }
    ensures { length result.2.now < length text.now }
{
    match first_line(text) {
        Some((line, rest)) => (line, true, rest),
        None => (text, false, b""),
    }
}

/// The lines of a text that say something, up to the line of a number.
pub fn lines_to(alloc: Global, text: &[u8], last: u32) -> Result<Vec<Line<'_>>, NoMemory> {
    let mut lines = Vec::new(alloc);
    let mut rest = text;
    for number in 1..=last {
        if rest.is_empty() {
            break;
        }
        let (bytes, ended, behind) = cut_line(rest);
        let line = Line {
            number,
            bytes,
            ended,
        };
        if number == last || line.says() {
            lines.push(line)?;
        }
        rest = behind;
    }
    Ok(lines)
}
