// Names of symbols as they are printed.
ghost use Rattle.std.specs.Prelude.{◌≡◌, ◌≤◌, ◌+◌, ◌*◌, ◌++◌, length, take};
ghost use Rattle.kl_store.specs.Calls.{HasCause};
ghost use Rattle.kl_store.specs.Outside.{Writes};
ghost use Rattle.kl_lines.specs.Escaped.{escaped, escaped_byte, is_plain};

use kl_store::{Failed, Sink};

/// How many bytes of a name are written at once.
const CHUNK: usize = 64;

/// How many bytes a byte of a name has at most when it is printed.
const WIDEST: usize = 4;

/// Whether a byte is printed as it is.
fn is_plain(byte: u8) -> bool
    ensures { result ≡ is_plain byte }
{
    byte.is_ascii_graphic() && byte != b'\\'
}

/// Puts a byte into the text from `at` on as it is printed, and answers where it ends.
fn put_byte(text: &mut [u8; WIDEST * CHUNK], at: usize, byte: u8) -> usize
    requires { at + WIDEST ≤ WIDEST * CHUNK }
    ensures text { take result text.new ≡ take at text.old ++ escaped_byte byte }
    ensures end { result ≤ at + WIDEST }
    ensures begin { at ≤ result }
{
    if is_plain(byte) {
        text[at] = byte;
        return at + 1;
    }
    text[at] = b'\\';
    text[at + 1] = b'x';
    hex::encode_to_slice([byte], &mut text[at + 2..at + WIDEST]).unwrap();
    at + WIDEST
}

/// Writes some bytes of a name.
fn write_chunk<K: Sink>(out: &mut K, chunk: &[u8]) -> Result<(), Failed>
    requires { length chunk.now ≤ CHUNK }
    ensures writes { Writes (escaped chunk.now) (K.meaning out.old) (K.meaning out.new) result }
    ensures cause { HasCause (K.faults out.old) (K.faults out.new) result }
{
    let mut text = [0; WIDEST * CHUNK];
    let mut end = 0;
    for byte in chunk {
        end = put_byte(&mut text, end, *byte);
    }
    out.write(&text[..end])
}

/// Writes the name of a symbol: visible ASCII but for the backslash as it is, every other byte as `\x` and two hexadecimal digits.
pub fn write_escaped<K: Sink>(out: &mut K, name: &[u8]) -> Result<(), Failed>
    ensures writes { Writes (escaped name.now) (K.meaning out.old) (K.meaning out.new) result }
    ensures cause { HasCause (K.faults out.old) (K.faults out.new) result }
{
    let mut rest = name;
    while !rest.is_empty() {
        let (chunk, after) = rest.split_at(rest.len().min(CHUNK));
        write_chunk(out, chunk)?;
        rest = after;
    }
    Ok(())
}
