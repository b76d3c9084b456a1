// The reader of the index of libraries.
ghost use Rattle.std.specs.Prelude.{◌≡◌, ◌≤◌, ◌++◌, [], List, length, slice_get, option_to_list, IfOk, IfErr, OnOk, Some};
ghost use Rattle.std.specs.Result.{result_err};
ghost use Rattle.std.specs.List.{list_any};
ghost use Rattle.kl_text.specs.Lines.{words};
ghost use Rattle.kl_kit.specs.IndexTexts.{index_faults, index_line_faults, index_of, libraries, library_faults, library_line_faults, library_of, line_library, missing_library, share_name};
ghost use Rattle.kl_kit.specs.Indexes.{IsIndex, IsIndexText};
ghost use Rattle.kl_kit.specs.KitLines.{KitLine, line_of};
ghost use Rattle.kl_kit.specs.Readers.{IsFirst, said_line};
ghost use Rattle.kl_kit.specs.TextFaults.{bytes_faults};
ghost use Rattle.kl_kit.specs.declared.fault.KitError.TheVariants as error;

use crate::form::{dir_of, is_reserved, name_of};
use crate::line::{Line, is_text, next_line};
use crate::{KitError, KitFault, Needed};
use kl_base::{KIT_TEXT_LIMIT, Listed, Name};
use std::alloc::Global;

/// The number of libraries of an index.
pub const LIBRARY_LIMIT: usize = 64;

/// A `library` line: a library that is linked anew.
#[derive(Clone, Copy, Debug)]
pub struct Library {
    /// The folder of its kit.
    pub dir: Name,
    /// The name of the image.
    pub output: Name,
    /// The number of the line.
    pub line: u32,
}

/// Libraries in the order of their lines.
pub type Index = Listed<Library>;

/// The index of a text of at most 4 MiB: its libraries, each with a folder below `/usr/share/relink/` and an output of its own.
///
/// # Errors
///
/// The first fault of the text, the first line's first, or want of memory.
pub fn read_index(alloc: Global, text: &[u8]) -> Result<Index, KitError>
    requires { length text.now ≤ KIT_TEXT_LIMIT }
    ensures index { IfOk result (λ index. index ≡ index_of text.now) }
    ensures sound { OnOk result (index_faults text.now ≡ []) }
    ensures form { IfOk result IsIndex }
    ensures says { IfOk result (IsIndexText text.now) }
    ensures reads { (index : List Library) → IsIndex index → IsIndexText text.now index → IfOk result (λ read. read ≡ index) }
    ensures accepts { (index : List Library) → IsIndex index → IsIndexText text.now index → IfErr result (λ e. e ≡ error.NoMemory) }
    ensures fault { IfErr result (IsFirst (index_faults text.now)) }
{
    let mut index = Listed::new(alloc);
    let mut number = 0;
    let mut rest = text;
    while !rest.is_empty() {
        let (line, more) = next_line(rest);
        number += 1;
        read_line(&mut index, number, line)?;
        rest = more;
    }
    whole(index)
}

/// Reads the next line. Where that fails, the index is of no more use.
fn read_line(index: &mut Index, number: u32, bytes: &[u8]) -> Result<(), KitError>
    ensures sound { (before : List KitLine) → index.old ≡ libraries before → OnOk result (bytes_faults index_line_faults before number bytes.now ≡ []) }
    ensures read { (before : List KitLine) → index.old ≡ libraries before → OnOk result (index.new ≡ libraries (before ++ option_to_list (line_of number (words bytes.now)))) }
    ensures fault { (before : List KitLine) → index.old ≡ libraries before → IfErr result (IsFirst (bytes_faults index_line_faults before number bytes.now)) }
{
    if !is_text(bytes) {
        return Err(KitFault::Byte { line: number }.into());
    }
    let Some(line) = Line::new(number, bytes) else {
        return Ok(());
    };
    let library = next_library(index.items(), &line)?;
    index.push(library)?;
    Ok(())
}

/// The index of all lines, or the fault that none of them says a library.
fn whole(index: Index) -> Result<Index, KitError>
    ensures same { IfOk result (λ whole. whole ≡ index) }
    ensures some { OnOk result (missing_library index ≡ []) }
    ensures fault { IfErr result (IsFirst (missing_library index)) }
{
    if index.items().is_empty() {
        let what = Needed::Library;
        return Err(KitFault::Missing { what }.into());
    }
    Ok(index)
}

/// The library that a line says, behind others.
fn next_library(before: &[Library], line: &Line<'_>) -> Result<Library, KitFault>
    ensures library { IfOk result (λ library. line_library (said_line line.now) ≡ Some library) }
    ensures fault { result_err result ≡ slice_get (library_line_faults before.now (said_line line.now)) 0 }
{
    if line.keyword != b"library".as_slice() {
        return Err(KitFault::Keyword { line: line.number });
    }
    if !line.has_words(2) {
        return Err(KitFault::Count { line: line.number });
    }
    match library_of(line) {
        Some(library) => checked(before, library),
        None => Err(KitFault::Value { line: line.number }),
    }
}

/// The folder and the output of a line, where both words are in their form.
fn library_of(line: &Line<'_>) -> Option<Library>
    ensures { result ≡ library_of line.now.number (words line.now.rest.now) }
{
    Some(Library {
        dir: dir_of(line.word(0))?,
        output: name_of(line.word(1))?,
        line: line.number,
    })
}

/// A library that may stand behind others, or the first fault: its output is reserved, a name comes again, or it is one too many.
fn checked(before: &[Library], library: Library) -> Result<Library, KitFault>
    ensures same { IfOk result (λ checked. checked ≡ library) }
    ensures fault { result_err result ≡ slice_get (library_faults before.now library) 0 }
{
    let line = library.line;
    if is_reserved(library.output.bytes()) {
        return Err(KitFault::Reserved { line });
    }
    if comes_again(before, &library) {
        return Err(KitFault::Twice { line });
    }
    if before.len() >= LIBRARY_LIMIT {
        return Err(KitFault::Limit { line });
    }
    Ok(library)
}

/// Whether the folder or the output is that of an earlier library.
fn comes_again(before: &[Library], library: &Library) -> bool
    ensures { result ≡ list_any (share_name library.now) before.now }
{
    before.iter().any(|other| share_name(library, other))
}

/// Whether two libraries have one folder, or one output.
fn share_name(library: &Library, other: &Library) -> bool
    ensures { result ≡ share_name library.now other.now }
{
    library.dir.bytes() == other.dir.bytes() || library.output.bytes() == other.output.bytes()
}
