// The message of a cause.
ghost use Rattle.kl_store.specs.Calls.{Stays};

use crate::archive::tell_archive;
use crate::link::{inputs_of, tell_fault};
use crate::record::{tell_mismatch, tell_record};
use crate::slot::{Unsound, read_entry, tell_foreign, tell_intent, tell_pending};
use crate::source::{
    InputName, KitText, Source, file_of, find_input, kit_order, read_kit_text, read_source,
};
use crate::usage::{is_of_system, tell_words};
use kl_ar::ArFault;
use kl_base::{INPUT_LIMIT, KIT_TEXT_LIMIT, Name, NoMemory};
use kl_explain::{Shown, tell_flaw, tell_kit_text};
use kl_intent::Entry;
use kl_jobs::{Cause, KERNEL_KIT, KitCause, ObjectCause};
use kl_model::KitInput;
use kl_rel::ReadFault;
use kl_store::Store;
use std::alloc::Global;
use std::fmt::Write;

/// A command that ended, and what the outside knows of it.
#[derive(Clone, Copy, Debug)]
pub struct Ended<'a> {
    /// The words behind the program's name; none where one of them isn't UTF-8.
    pub words: Option<&'a [Vec<u8>]>,
    /// How it ended.
    pub cause: &'a Cause,
    /// The folder below which names are taken, where it is known.
    pub folder: Option<&'a str>,
    /// The last call that the host refused: its path and why.
    pub failure: Option<&'a str>,
}

/// A kit as far as it can be read again, with the inputs that a message names.
#[derive(Drop)]
struct Again {
    text: KitText,
    sources: Vec<Source>,
    /// The name of the file whose line a cause names.
    file: Option<Name>,
}

/// The lines that are told of a command, each with `relink: ` before it: none where all was done. Files are read again, and no name
/// changes.
pub fn message<S: Store>(
    alloc: Global,
    ended: &Ended<'_>,
    store: &mut S,
) -> Result<String, NoMemory>
    ensures still { Stays (S.meaning store.old) (S.meaning store.new) }
{
    let mut text = String::new(alloc);
    if *ended.cause == Cause::Done {
        return Ok(text);
    }
    let again = read_again(alloc, ended, store)?;
    let entry = read_entry(alloc, ended.cause, store);
    write!(text, "relink: ")?;
    tell_cause(&mut text, ended, again.as_ref(), entry.as_ref())?;
    writeln!(text)?;
    tell_job(&mut text, ended)?;
    tell_folder(&mut text, ended)?;
    Ok(text)
}

/// Whether a cause speaks of what stands in a kit.
fn is_of_kit(cause: &Cause) -> bool {
    matches!(
        cause,
        Cause::Object { .. }
            | Cause::Link(_)
            | Cause::Kit(KitCause::Text(_) | KitCause::Kind | KitCause::Total { .. })
    )
}

/// Reads the kit again that a command linked, as far as it can be read.
fn read_again<S: Store>(
    alloc: Global,
    ended: &Ended<'_>,
    store: &mut S,
) -> Result<Option<Again>, NoMemory>
    ensures still { Stays (S.meaning store.old) (S.meaning store.new) }
{
    let Some(dir) = folder_of(ended) else {
        return Ok(None);
    };
    let Some(text) = read_kit_text(alloc, &dir, store) else {
        return Ok(None);
    };
    let mut sources = Vec::new(alloc);
    let mut file = None;
    if let Some(kit) = &text.kit {
        let lines = kit_order(alloc, kit)?;
        sources = read_sources(alloc, &dir, &lines, ended.cause, store)?;
        file = named_file(&dir, &lines, ended.cause);
    }
    Ok(Some(Again {
        text,
        sources,
        file,
    }))
}

/// The name of the file whose line a cause names.
fn named_file(dir: &Name, lines: &[&KitInput], cause: &Cause) -> Option<Name> {
    let Cause::Object { line, .. } = cause else {
        return None;
    };
    let named = lines.iter().find(|given| given.line == *line)?;
    file_of(dir, named)
}

/// Reads the inputs again that a cause speaks of, as far as they can be read. Its numbers are those of the inputs in kit order.
fn read_sources<S: Store>(
    alloc: Global,
    dir: &Name,
    lines: &[&KitInput],
    cause: &Cause,
    store: &mut S,
) -> Result<Vec<Source>, NoMemory>
    ensures still { Stays (S.meaning store.old) (S.meaning store.new) }
{
    let mut sources = Vec::new(alloc);
    match cause {
        Cause::Object {
            input,
            fault: ObjectCause::Elf(_),
            ..
        } => add_input(alloc, dir, lines, *input, store, &mut sources)?,
        Cause::Link(fault) => {
            let [first, second] = inputs_of(fault);
            add_named(alloc, dir, lines, first, store, &mut sources)?;
            add_named(alloc, dir, lines, second, store, &mut sources)?;
        }
        _ => {}
    }
    Ok(sources)
}

/// Adds the input of a number, where a cause names one.
fn add_named<S: Store>(
    alloc: Global,
    dir: &Name,
    lines: &[&KitInput],
    input: Option<u32>,
    store: &mut S,
    sources: &mut Vec<Source>,
) -> Result<(), NoMemory>
    ensures still { Stays (S.meaning store.old) (S.meaning store.new) }
{
    match input {
        Some(input) => add_input(alloc, dir, lines, input, store, sources),
        None => Ok(()),
    }
}

/// Adds the input of a number, where there is one and it can be read.
fn add_input<S: Store>(
    alloc: Global,
    dir: &Name,
    lines: &[&KitInput],
    input: u32,
    store: &mut S,
    sources: &mut Vec<Source>,
) -> Result<(), NoMemory>
    ensures still { Stays (S.meaning store.old) (S.meaning store.new) }
{
    let Some(place) = find_input(alloc, dir, lines, input, store) else {
        return Ok(());
    };
    if let Some(source) = read_source(alloc, dir, &place, input, store) {
        sources.push(source)?;
    }
    Ok(())
}

/// The folder of the kit whose files a cause speaks of: that of `link DIR`, or the kernel's.
fn folder_of(ended: &Ended<'_>) -> Option<Name> {
    if !is_of_kit(ended.cause) {
        return None;
    }
    match ended.words? {
        [command, folder, ..] if command.as_slice() == b"link".as_slice() => {
            Name::from_bytes(folder).ok()
        }
        [command, ..] if command.as_slice() == b"reorder_kernel".as_slice() => {
            Name::from_bytes(&KERNEL_KIT).ok()
        }
        _ => None,
    }
}

/// Tells a cause, from what was read again of the files that it speaks of.
fn tell_cause(
    text: &mut String,
    ended: &Ended<'_>,
    again: Option<&Again>,
    entry: Option<&Entry>,
) -> Result<(), NoMemory> {
    match ended.cause {
        Cause::Usage => tell_usage(text, ended.words),
        Cause::Store => tell_failure(text, ended.failure),
        Cause::Pending { slot } => tell_pending(text, *slot),
        Cause::Record(cause) => tell_record(text, cause),
        Cause::Mismatch { recorded, found } => tell_mismatch(text, recorded, found),
        Cause::Foreign {
            slot,
            entry: number,
            target,
            temp,
        } => {
            let unsound = Unsound {
                slot: *slot,
                number: *number,
                target: *target,
                temp: *temp,
            };
            tell_foreign(text, &unsound, entry)
        }
        Cause::Intent { slot, line } => tell_intent(text, *slot, *line),
        cause => tell_kit_cause(text, cause, again),
    }
}

/// Tells what is wrong with the words.
fn tell_usage(text: &mut String, words: Option<&[Vec<u8>]>) -> Result<(), NoMemory> {
    match words {
        Some(words) => tell_words(text, words),
        None => {
            write!(text, "a word isn't UTF-8")?;
            Ok(())
        }
    }
}

/// Tells the last call that the host refused.
fn tell_failure(text: &mut String, failure: Option<&str>) -> Result<(), NoMemory> {
    match failure {
        Some(failure) => {
            let words = without_number(failure);
            write!(text, "{words}")?;
        }
        None => write!(text, "a call on the disk failed")?,
    }
    Ok(())
}

/// Tells a cause of a kit, or one that no file explains.
fn tell_kit_cause(text: &mut String, cause: &Cause, again: Option<&Again>) -> Result<(), NoMemory> {
    match (cause, again) {
        (Cause::Kit(cause), _) => tell_kit(text, cause, again),
        (Cause::Object { input, line, fault }, Some(again)) => match fault {
            ObjectCause::Elf(fault) => tell_object(text, again, (*input, *line), fault),
            ObjectCause::Ar(fault) => tell_archive_of(text, again, *line, fault),
        },
        (Cause::Link(fault), Some(again)) => {
            tell_fault(text, &again.text, &again.sources, fault)
        }
        (cause, _) => {
            write!(text, "{cause}")?;
            Ok(())
        }
    }
}

/// The words of the host's error, without its number behind them.
fn without_number(failure: &str) -> &str {
    match failure.split_once(" (os error ") {
        Some((words, _)) => words,
        None => failure,
    }
}

/// Tells why a kit isn't read.
fn tell_kit(text: &mut String, cause: &KitCause, again: Option<&Again>) -> Result<(), NoMemory> {
    match cause {
        KitCause::Absent(name) => {
            let name = Shown(name.bytes());
            write!(text, "{name}: no such file")?;
        }
        KitCause::TooLong(name) => {
            let limit = if name.bytes().ends_with(b"/link.conf") {
                KIT_TEXT_LIMIT
            } else {
                INPUT_LIMIT
            };
            let name = Shown(name.bytes());
            write!(text, "{name}: it has more than {limit} bytes")?;
        }
        KitCause::Text(_) | KitCause::Kind | KitCause::Total { .. } => match again {
            Some(again) => return tell_of_text(text, cause, again),
            None => write!(text, "{cause}")?,
        },
    }
    Ok(())
}

/// Tells what is wrong with a kit by its text, behind the name of its file.
fn tell_of_text(text: &mut String, cause: &KitCause, again: &Again) -> Result<(), NoMemory> {
    let name = Shown(again.text.name.bytes());
    write!(text, "{name}: ")?;
    match cause {
        KitCause::Text(fault) => tell_kit_text(text, &again.text.text, fault)?,
        KitCause::Kind => write!(
            text,
            "it is a library's kit ('kind library'), and a kernel's is wanted ('kind kernel')"
        )?,
        _ => write!(text, "{cause}")?,
    }
    Ok(())
}

/// Tells the flaw of an input, by its number and its line in the kit text.
fn tell_object(
    text: &mut String,
    again: &Again,
    (input, line): (u32, u32),
    fault: &ReadFault,
) -> Result<(), NoMemory> {
    match again.sources.iter().find(|source| source.input == input) {
        Some(source) => {
            let name = InputName(source);
            write!(text, "{name}: ")?;
            tell_flaw(text, &source.bytes, fault)
        }
        None => {
            let name = Shown(again.text.name.bytes());
            write!(text, "{name}: line {line}: {fault}")?;
            Ok(())
        }
    }
}

/// Tells the fault of the archive of a line.
fn tell_archive_of(
    text: &mut String,
    again: &Again,
    line: u32,
    fault: &ArFault,
) -> Result<(), NoMemory> {
    match &again.file {
        Some(file) => {
            let name = Shown(file.bytes());
            write!(text, "{name}: ")?;
        }
        None => {
            let name = Shown(again.text.name.bytes());
            write!(text, "{name}: line {line}: ")?;
        }
    }
    tell_archive(text, fault)
}

/// Tells what comes next where a job on the files of the system was cut short, or was done and couldn't say so.
fn tell_job(text: &mut String, ended: &Ended<'_>) -> Result<(), NoMemory> {
    if !is_of_system_files(ended) {
        return Ok(());
    }
    match ended.cause {
        Cause::Store => writeln!(text, "relink: run 'relink recover' before anything else")?,
        Cause::Sink => writeln!(
            text,
            "relink: the job was done all the same, and needn't be run again"
        )?,
        _ => {}
    }
    Ok(())
}

/// Tells the folder below which names are taken, where a name may have been meant for another one.
fn tell_folder(text: &mut String, ended: &Ended<'_>) -> Result<(), NoMemory> {
    let Some(folder) = ended.folder else {
        return Ok(());
    };
    let shown = Shown(folder.as_bytes());
    if is_of_system_files(ended) {
        if folder != "/" && !is_of_outside(ended.cause) {
            writeln!(
                text,
                "relink: it works on the files below the folder in which it is started, {shown}: start it in /"
            )?;
        }
        return Ok(());
    }
    if let Cause::Kit(KitCause::Absent(_)) = ended.cause {
        writeln!(
            text,
            "relink: names are taken below the folder in which it is started: {shown}"
        )?;
    }
    Ok(())
}

/// Whether neither words nor what stands in files explain a cause, and another folder wouldn't help.
fn is_of_outside(cause: &Cause) -> bool {
    matches!(
        cause,
        Cause::NoMemory | Cause::Store | Cause::Entropy | Cause::Sink
    )
}

/// Whether the command works on the files of the system.
fn is_of_system_files(ended: &Ended<'_>) -> bool {
    match ended.words {
        Some([command, ..]) => is_of_system(command),
        _ => false,
    }
}
