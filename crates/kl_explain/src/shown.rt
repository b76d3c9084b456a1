// Bytes of files and words, as they are shown.
use std::fmt;

/// How many bytes of a name or a word are shown.
const SHOWN: usize = 200;

/// Bytes as they are shown: those from 20 to 7e but the backslash as they are, each other one as `\x` and two digits, so that no
/// byte of a file reaches a terminal unseen. What is longer than `SHOWN` ends in three dots.
#[derive(Clone, Copy, Debug)]
pub struct Shown<'a>(pub &'a [u8]);

impl fmt::Display for Shown<'_> {
    fn fmt<W: fmt::Write>(&self, f: &mut fmt::Formatter<W>) -> fmt::Result {
        for byte in self.0.iter().take(SHOWN) {
            show(f, *byte)?;
        }
        if self.0.len() > SHOWN {
            f.write_str("...")?;
        }
        Ok(())
    }
}

fn show<W: fmt::Write>(f: &mut fmt::Formatter<W>, byte: u8) -> fmt::Result {
    if 0x20 <= byte && byte <= 0x7e && byte != b'\\' {
        f.write_char(char::from(byte))
    } else {
        write!(f, "\\x{byte:02x}")
    }
}

/// The name of a section, as it is shown: two quotes where it is empty.
#[derive(Clone, Copy, Debug)]
pub struct SectionName<'a>(pub &'a [u8]);

impl fmt::Display for SectionName<'_> {
    fn fmt<W: fmt::Write>(&self, f: &mut fmt::Formatter<W>) -> fmt::Result {
        let name = Shown(self.0);
        if self.0.is_empty() {
            f.write_str("''")
        } else {
            write!(f, "{name}")
        }
    }
}
