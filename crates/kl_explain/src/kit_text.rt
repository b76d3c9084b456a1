// What is wrong with a line of a kit text, and what is wanted there.
use crate::kit_line::{Line, lines_to};
use crate::kit_twice::tell_twice;
use crate::kit_value::{tell_reserved, tell_value};
use crate::shown::Shown;
use kl_base::{INPUT_COUNT_LIMIT, NoMemory};
use kl_kit::{KitFault, Needed};
use std::fmt::Write;

/// The forms of lines, each by its first word.
const FORMS: [&str; 15] = [
    "kind kernel|library",
    "output NAME",
    "base 0xHEX",
    "entry SYMBOL",
    "head FILE",
    "object FILE",
    "tail FILE",
    "run SECTION CLASS START END",
    "edge SYMBOL AREA start|end",
    "drop SECTION",
    "soname TEXT",
    "needed TEXT",
    "export SYMBOL",
    "symbolic",
    "undefined refuse|allow",
];

/// The mark with which some editors begin a text of UTF-8.
const BYTE_ORDER_MARK: &[u8] = b"\xef\xbb\xbf";

/// Tells the first fault of a kit text, behind the name of its file: the line, what stands there and what is wanted.
pub fn tell_kit_text(text: &mut String, kit_text: &[u8], fault: &KitFault) -> Result<(), NoMemory> {
    let number = match fault {
        KitFault::Missing { what } => return tell_missing(text, *what),
        KitFault::Byte { line }
        | KitFault::Keyword { line }
        | KitFault::Misplaced { line }
        | KitFault::Count { line }
        | KitFault::Value { line }
        | KitFault::Reserved { line }
        | KitFault::Twice { line }
        | KitFault::Limit { line } => *line,
    };
    let lines = lines_to(*text.allocator(), kit_text, number)?;
    match lines.split_last() {
        Some((line, before)) if line.number == number => {
            write!(text, "line {number}: ")?;
            tell_line(text, before, line, fault)
        }
        _ => {
            write!(text, "{fault}")?;
            Ok(())
        }
    }
}

/// Tells the line that a text lacks.
fn tell_missing(text: &mut String, what: Needed) -> Result<(), NoMemory> {
    let line = match what {
        Needed::Kind => "the line 'kind kernel' or 'kind library'",
        Needed::Output => "the line 'output NAME', which is 'output /bsd' for a kernel,",
        Needed::Entry => "the line 'entry SYMBOL'",
        Needed::Input => "a line 'head FILE', 'object FILE' or 'tail FILE'",
        Needed::Library => "a line 'library'",
    };
    write!(text, "{line} is missing")?;
    Ok(())
}

/// Tells the fault of a line, behind its number. Those before it have none.
fn tell_line(
    text: &mut String,
    before: &[Line<'_>],
    line: &Line<'_>,
    fault: &KitFault,
) -> Result<(), NoMemory> {
    match fault {
        KitFault::Byte { .. } => tell_byte(text, line),
        KitFault::Misplaced { .. } => tell_misplaced(text, before, line),
        KitFault::Count { .. } => tell_count(text, line),
        KitFault::Value { .. } => tell_value(text, is_of_library(before), line),
        KitFault::Reserved { .. } => tell_reserved(text, line.word(1)),
        KitFault::Twice { .. } => tell_twice(text, before, line),
        KitFault::Limit { .. } => {
            write!(
                text,
                "a kit has at most {INPUT_COUNT_LIMIT} inputs, and this is one more"
            )?;
            Ok(())
        }
        _ => {
            let word = Shown(line.word(0));
            write!(text, "no such directive '{word}'")?;
            Ok(())
        }
    }
}

/// Tells the first byte that may not stand in a line.
fn tell_byte(text: &mut String, line: &Line<'_>) -> Result<(), NoMemory> {
    let Some(place) = line.bytes.iter().position(|byte| !is_text_byte(*byte)) else {
        write!(text, "a byte stands in it that may not")?;
        return Ok(());
    };
    let rest = &line.bytes[place..];
    if rest == b"\r".as_slice() && line.ended {
        write!(
            text,
            "it ends with CR LF: end each line with a newline (0a) alone"
        )?;
    } else if rest.starts_with(BYTE_ORDER_MARK) {
        write!(
            text,
            "a byte order mark (ef bb bf) stands in it: save the text without one"
        )?;
    } else {
        let byte = rest[0];
        write!(
            text,
            "the byte {byte:#04x} stands in it, and only printable characters of ASCII, spaces and tabs are read"
        )?;
    }
    Ok(())
}

fn is_text_byte(byte: u8) -> bool {
    byte == b'\t' || 0x20 <= byte && byte <= 0x7e
}

/// Whether the lines begin the text of a library's kit.
fn is_of_library(lines: &[Line<'_>]) -> bool {
    match lines.first() {
        Some(line) => line.word(1) == b"library".as_slice(),
        None => false,
    }
}

/// Tells what stands out of its place.
fn tell_misplaced(text: &mut String, before: &[Line<'_>], line: &Line<'_>) -> Result<(), NoMemory> {
    let word = Shown(line.word(0));
    match before.first() {
        None => write!(
            text,
            "a kit begins with 'kind kernel' or 'kind library', and not with '{word}'"
        )?,
        Some(first) if line.begins(b"kind") => {
            let number = first.number;
            write!(
                text,
                "'kind' comes once, and stands in line {number} already"
            )?;
        }
        Some(_) if is_of_library(before) => write!(
            text,
            "'{word}' is a line of a kernel's kit, and this is a library's"
        )?,
        Some(_) => write!(
            text,
            "'{word}' is a line of a library's kit, and this is a kernel's"
        )?,
    }
    Ok(())
}

/// Tells that words are missing, or the first that is too many.
fn tell_count(text: &mut String, line: &Line<'_>) -> Result<(), NoMemory> {
    let Some(form) = form_of(line.word(0)) else {
        write!(text, "it has too few or too many words")?;
        return Ok(());
    };
    let more = line.word(form.split(' ').count());
    let word = Shown(more);
    write!(text, "'{form}' is wanted, ")?;
    if more.is_empty() {
        write!(text, "and a word is missing")?;
    } else if more.starts_with(b"#") {
        write!(text, "and a comment stands in a line of its own")?;
    } else {
        write!(text, "and '{word}' is a word too many")?;
    }
    Ok(())
}

/// The form of the lines that begin with a word.
fn form_of(word: &[u8]) -> Option<&'static str> {
    FORMS.iter().copied().find(|form| form.split(' ').next().map(str::as_bytes) == Some(word))
}
