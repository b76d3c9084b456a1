// What comes again in a kit text, and where it stood first.
use crate::kit_line::Line;
use crate::shown::Shown;
use kl_base::NoMemory;
use std::fmt::Write;

/// Tells what of a line stands in an earlier one, and in which.
pub fn tell_twice(text: &mut String, before: &[Line<'_>], line: &Line<'_>) -> Result<(), NoMemory> {
    let earlier = before.iter().find(|earlier| comes_again(earlier, line));
    match earlier {
        Some(earlier) => tell_again(text, line, earlier.number),
        None => tell_symbol(text, before, line),
    }
}

/// Whether what a line is of stands in an earlier one, the symbols of edges aside.
fn comes_again(earlier: &Line<'_>, line: &Line<'_>) -> bool {
    let (first, second) = (line.word(1), line.word(2));
    if line.is_input() {
        earlier.is_input() && earlier.word(1) == first
    } else if !earlier.begins(line.word(0)) || line.begins(b"edge") {
        false
    } else if line.begins(b"run") {
        earlier.word(1) == first && earlier.word(2) == second
    } else {
        comes_once(line) || earlier.word(1) == first
    }
}

/// Whether a kit has at most one line of this first word.
fn comes_once(line: &Line<'_>) -> bool {
    let many: [&[u8]; 3] = [b"drop", b"needed", b"export"];
    !many.contains(&line.word(0))
}

/// Tells what stands in the line of this number already.
fn tell_again(text: &mut String, line: &Line<'_>, number: u32) -> Result<(), NoMemory> {
    let (word, first, second) = (
        Shown(line.word(0)),
        Shown(line.word(1)),
        Shown(line.word(2)),
    );
    if line.is_input() {
        write!(
            text,
            "the file '{first}' is the input of line {number} already"
        )?;
    } else if line.begins(b"run") {
        write!(
            text,
            "line {number} has a run of section '{first}' and class '{second}' already"
        )?;
    } else if comes_once(line) {
        write!(
            text,
            "'{word}' comes once, and stands in line {number} already"
        )?;
    } else {
        write!(text, "'{word} {first}' stands in line {number} already")?;
    }
    Ok(())
}

/// Tells the symbol of a `run` or `edge` line that is given already.
fn tell_symbol(text: &mut String, before: &[Line<'_>], line: &Line<'_>) -> Result<(), NoMemory> {
    let [first, second] = symbols_of(line);
    if let Some(number) = giver(before, first) {
        let symbol = Shown(first);
        write!(text, "line {number} gives the symbol '{symbol}' already")?;
    } else if let Some(number) = giver(before, second) {
        let symbol = Shown(second);
        write!(text, "line {number} gives the symbol '{symbol}' already")?;
    } else {
        let symbol = Shown(first);
        write!(text, "the START and the END are both '{symbol}'")?;
    }
    Ok(())
}

/// The symbols that a line gives to edges; no bytes in place of one that it doesn't.
fn symbols_of<'a>(line: &Line<'a>) -> [&'a [u8]; 2] {
    if line.begins(b"run") {
        [line.word(3), line.word(4)]
    } else if line.begins(b"edge") {
        [line.word(1), b""]
    } else {
        [b"", b""]
    }
}

/// The number of the line that gives a symbol to an edge.
fn giver(lines: &[Line<'_>], symbol: &[u8]) -> Option<u32> {
    let line = lines.iter().find(|line| !symbol.is_empty() && symbols_of(line).contains(&symbol))?;
    Some(line.number)
}
