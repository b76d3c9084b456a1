// Which word of a line of a kit text isn't in its form.
use crate::kit_line::Line;
use crate::name::tell_name;
use crate::shown::Shown;
use kl_base::{
    BASE_LIMIT, FILE_LIMIT, KERNEL_BASE, Name, NoMemory, OUTPUT_LIMIT, PAGE, SCRATCH_SUFFIX,
    WORD_LIMIT,
};
use kl_model::AREAS;
use std::fmt::Write;

/// The most hexadecimal digits of a base.
const BASE_DIGITS: usize = 16;

/// How many of the last hexadecimal digits of a multiple of a page are zero.
const PAGE_DIGITS: usize = 3;

/// The classes of a `run` line.
const CLASSES: [&[u8]; 4] = [b"text", b"rodata", b"data", b"bss"];

/// The beginnings of names that no library's output has.
const KEPT_FOLDERS: [&str; 2] = ["/usr/share/relink/", "/var/db/"];

/// The ends of names that no library's output has.
const KEPT_ENDS: [&[u8]; 3] = [&SCRATCH_SUFFIX, b".map", b"/linked"];

/// Tells the word of a line that isn't in its form, and what is wanted.
pub fn tell_value(text: &mut String, of_library: bool, line: &Line<'_>) -> Result<(), NoMemory> {
    let word = line.word(1);
    let shown = Shown(word);
    if line.begins(b"kind") {
        write!(
            text,
            "'{shown}' is no kind of kit: 'kind kernel' or 'kind library' is wanted"
        )?;
    } else if line.begins(b"undefined") {
        write!(
            text,
            "'undefined refuse' or 'undefined allow' is wanted, and not '{shown}'"
        )?;
    } else if line.begins(b"output") {
        return tell_output(text, of_library, word);
    } else if line.begins(b"base") {
        return tell_base(text, word);
    } else if line.is_input() {
        return tell_file(text, word);
    } else if line.begins(b"run") {
        return tell_run(text, line);
    } else if line.begins(b"edge") {
        return tell_edge(text, line);
    } else if line.begins(b"entry") || line.begins(b"export") {
        return tell_long(text, "symbol", word);
    } else {
        return tell_long(text, "name", word);
    }
    Ok(())
}

/// Tells that a word is too long.
fn tell_long(text: &mut String, what: &str, word: &[u8]) -> Result<(), NoMemory> {
    let (shown, count) = (Shown(word), word.len());
    write!(
        text,
        "the {what} '{shown}' has {count} bytes, and at most {WORD_LIMIT} are taken"
    )?;
    Ok(())
}

/// What is wrong with the name of the image.
fn tell_output(text: &mut String, of_library: bool, name: &[u8]) -> Result<(), NoMemory> {
    let shown = Shown(name);
    if !of_library {
        write!(text, "the output of a kernel is '/bsd', and not '{shown}'")?;
        return Ok(());
    }
    write!(text, "the output '{shown}' ")?;
    match Name::from_bytes(name) {
        _ if !name.starts_with(b"/") => write!(
            text,
            "doesn't begin with a slash, as in '/usr/lib/libc.so.1'"
        )?,
        Err(fault) => return tell_name(text, name, fault),
        Ok(_) => write!(text, "isn't taken")?,
    }
    Ok(())
}

/// Why a library may not have this output.
pub fn tell_reserved(text: &mut String, name: &[u8]) -> Result<(), NoMemory> {
    let (shown, count) = (Shown(name), name.len());
    write!(text, "the output '{shown}' ")?;
    if count > OUTPUT_LIMIT {
        write!(
            text,
            "has {count} bytes, and a library's has at most {OUTPUT_LIMIT}"
        )?;
        return Ok(());
    }
    write!(text, "is kept for other files")?;
    for folder in KEPT_FOLDERS {
        if name.starts_with(folder.as_bytes()) {
            write!(text, ", as each name that begins with '{folder}'")?;
        }
    }
    for end in KEPT_ENDS {
        if name.ends_with(end) {
            let end = Shown(end);
            write!(text, ", as each name that ends in '{end}'")?;
        }
    }
    Ok(())
}

/// What is wrong with the base.
fn tell_base(text: &mut String, base: &[u8]) -> Result<(), NoMemory> {
    let shown = Shown(base);
    write!(text, "the base '{shown}' ")?;
    let Some(digits) = base.strip_prefix(b"0x") else {
        write!(text, "doesn't begin with 0x, as in 'base {KERNEL_BASE:#x}'")?;
        return Ok(());
    };
    let count = digits.len();
    let low = &digits[count.saturating_sub(PAGE_DIGITS)..];
    if count == 0 || count > BASE_DIGITS {
        write!(
            text,
            "has {count} digits behind 0x, and 1 to {BASE_DIGITS} are taken"
        )?;
    } else if digits.iter().any(|digit| !digit.is_ascii_hexdigit()) {
        write!(text, "has a byte that is no hexadecimal digit")?;
    } else if low.iter().any(|digit| *digit != b'0') {
        write!(text, "is no multiple of {PAGE} ({PAGE:#x})")?;
    } else {
        write!(text, "is above {BASE_LIMIT:#x}")?;
    }
    Ok(())
}

/// What is wrong with a `run` line.
fn tell_run(text: &mut String, line: &Line<'_>) -> Result<(), NoMemory> {
    let (section, class, start, end) = (line.word(1), line.word(2), line.word(3), line.word(4));
    if section.len() > WORD_LIMIT {
        tell_long(text, "name", section)
    } else if !CLASSES.contains(&class) {
        let shown = Shown(class);
        write!(
            text,
            "'{shown}' is no class: 'text', 'rodata', 'data' or 'bss' is wanted"
        )?;
        Ok(())
    } else if start.len() > WORD_LIMIT {
        tell_long(text, "symbol", start)
    } else {
        tell_long(text, "symbol", end)
    }
}

/// What is wrong with an `edge` line.
fn tell_edge(text: &mut String, line: &Line<'_>) -> Result<(), NoMemory> {
    let (symbol, area, end) = (line.word(1), line.word(2), line.word(3));
    if symbol.len() > WORD_LIMIT {
        return tell_long(text, "symbol", symbol);
    }
    if AREAS.iter().any(|row| row.edge && row.name == area) {
        let shown = Shown(end);
        write!(text, "'start' or 'end' is wanted, and not '{shown}'")?;
        return Ok(());
    }
    let shown = Shown(area);
    write!(text, "'{shown}' is no area: one of these is wanted:")?;
    for row in &AREAS {
        if row.edge {
            let name = Shown(row.name);
            write!(text, " {name}")?;
        }
    }
    Ok(())
}

/// What is wrong with the name of an input's file.
fn tell_file(text: &mut String, file: &[u8]) -> Result<(), NoMemory> {
    let word = Shown(file);
    write!(text, "the file '{word}' ")?;
    if file.len() > FILE_LIMIT {
        let count = file.len();
        write!(
            text,
            "has {count} bytes, and at most {FILE_LIMIT} are taken"
        )?;
    } else if file == b"link.conf".as_slice() {
        write!(text, "is the kit text itself")?;
    } else if file.ends_with(&SCRATCH_SUFFIX) {
        write!(text, "ends in .relink, as only files that relink writes do")?;
    } else if file.starts_with(b"/") {
        write!(
            text,
            "begins with a slash: it is named below the kit's folder, as in 'head kernel.o'"
        )?;
    } else if let Err(fault) = Name::at_root(file) {
        return tell_name(text, file, fault);
    } else {
        write!(text, "isn't taken")?;
    }
    Ok(())
}
