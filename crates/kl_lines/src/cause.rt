// Why a command ended.
ghost use Rattle.std.specs.Prelude.{◌≡◌, ◌++◌, codes, decimal};
ghost use Rattle.kl_store.specs.Calls.{HasCause};
ghost use Rattle.kl_store.specs.Outside.{Writes};
ghost use Rattle.kl_lines.specs.Lines.{cause_line, digest_words, entry_line, entry_place, file_line, found_words, kit_fault_line, kit_fault_number, kit_fault_place, kit_line, link_fault_line, link_start, mismatch_line, named_line, numbered_line, object_line, record_fault_number, record_line, span_line};

use crate::escaped::write_escaped;
use crate::pieces::write_pieces;
use itoa::Buffer;
use kl_base::Name;
use kl_digest::RecordFault;
use kl_intent::slot_name;
use kl_jobs::{Cause, KitCause, RecordCause};
use kl_kit::KitFault;
use kl_model::{FieldAt, LinkFault};
use kl_store::{Failed, Sink};

/// The line for words that are no command.
const USAGE: &[u8] =
    b"usage: relink link DIR | reorder_kernel | reorder_libs | recover | generate N; --seed HEX may end all but recover\n";

/// Writes why a command ended, in a line that scripts read. Nothing is written where all was done, and of a recovery, whose lines
/// are those of its slots.
pub fn write_cause<K: Sink>(out: &mut K, cause: &Cause) -> Result<(), Failed>
    ensures writes { Writes (cause_line cause.now) (K.meaning out.old) (K.meaning out.new) result }
    ensures cause { HasCause (K.faults out.old) (K.faults out.new) result }
{
    match cause {
        Cause::Done | Cause::Sink | Cause::Foreign { .. } | Cause::Intent { .. } => Ok(()),
        Cause::Usage => out.write(USAGE),
        Cause::NoMemory => out.write(b"relink: out of memory\n"),
        Cause::Store => out.write(b"relink: store fault\n"),
        Cause::Entropy => out.write(b"relink: entropy fault\n"),
        Cause::Pending { slot } => write_file(out, b"relink: intent pending ", &slot_name(*slot)),
        Cause::Record(cause) => write_record(out, cause),
        Cause::Mismatch { recorded, found } => write_mismatch(out, recorded, found),
        Cause::Kit(cause) => write_kit(out, cause),
        Cause::Object { input, line, .. } => write_object(out, *input, *line),
        Cause::Link(fault) => write_link_fault(out, fault),
    }
}

/// Writes why the kernel's record isn't read.
fn write_record<K: Sink>(out: &mut K, cause: &RecordCause) -> Result<(), Failed>
    ensures writes { Writes (record_line cause.now) (K.meaning out.old) (K.meaning out.new) result }
    ensures cause { HasCause (K.faults out.old) (K.faults out.new) result }
{
    match cause {
        RecordCause::Absent => out.write(b"relink: record absent\n"),
        RecordCause::Flaw(fault) => {
            write_number(out, b"relink: record flaw ", record_fault_number(fault))
        }
    }
}

/// The number of a fault of a record.
fn record_fault_number(fault: &RecordFault) -> u32
    ensures { result ≡ record_fault_number fault.now }
{
    match fault {
        RecordFault::Length { .. } => 1,
        RecordFault::Text { .. } => 2,
        RecordFault::Digit { .. } => 3,
        RecordFault::End => 4,
    }
}

/// Writes that the kernel doesn't match its record, with both digests.
fn write_mismatch<K: Sink>(
    out: &mut K,
    recorded: &[u8; 32],
    found: &Option<[u8; 32]>,
) -> Result<(), Failed>
    ensures writes { Writes (mismatch_line recorded.now found.now) (K.meaning out.old) (K.meaning out.new) result }
    ensures cause { HasCause (K.faults out.old) (K.faults out.new) result }
{
    write_digest(
        out,
        b"relink: /bsd does not match: recorded ",
        recorded,
        b" found ",
    )?;
    write_found(out, found)
}

/// Writes the digest that was found, or that there is no file.
fn write_found<K: Sink>(out: &mut K, found: &Option<[u8; 32]>) -> Result<(), Failed>
    ensures writes { Writes (found_words found.now) (K.meaning out.old) (K.meaning out.new) result }
    ensures cause { HasCause (K.faults out.old) (K.faults out.new) result }
{
    match found {
        Some(digest) => write_digest(out, b"", digest, b"\n"),
        None => out.write(b"absent\n"),
    }
}

/// Writes the 64 lower-case digits of a digest, with words before and behind them.
fn write_digest<K: Sink>(
    out: &mut K,
    first: &[u8],
    digest: &[u8; 32],
    then: &[u8],
) -> Result<(), Failed>
    ensures writes { Writes (digest_words first.now digest.now then.now) (K.meaning out.old) (K.meaning out.new) result }
    ensures cause { HasCause (K.faults out.old) (K.faults out.new) result }
{
    let mut digits = [0; 64];
    hex::encode_to_slice(digest, &mut digits).unwrap();
    write_pieces(out, &[first, &digits, then])
}

/// The number of a fault of a kit text.
fn kit_fault_number(fault: &KitFault) -> u32
    ensures { result ≡ kit_fault_number fault.now }
{
    match fault {
        KitFault::Byte { .. } => 1,
        KitFault::Keyword { .. } => 2,
        KitFault::Misplaced { .. } => 3,
        KitFault::Count { .. } => 4,
        KitFault::Value { .. } => 5,
        KitFault::Reserved { .. } => 6,
        KitFault::Twice { .. } => 7,
        KitFault::Limit { .. } => 8,
        KitFault::Missing { .. } => 9,
    }
}

/// The line of a fault of a kit text, and 0 for what is missing.
fn kit_fault_place(fault: &KitFault) -> u32
    ensures { result ≡ kit_fault_place fault.now }
{
    match fault {
        KitFault::Byte { line }
        | KitFault::Keyword { line }
        | KitFault::Misplaced { line }
        | KitFault::Count { line }
        | KitFault::Value { line }
        | KitFault::Reserved { line }
        | KitFault::Twice { line }
        | KitFault::Limit { line } => *line,
        KitFault::Missing { .. } => 0,
    }
}

/// Writes why a kit isn't read.
fn write_kit<K: Sink>(out: &mut K, cause: &KitCause) -> Result<(), Failed>
    ensures writes { Writes (kit_line cause.now) (K.meaning out.old) (K.meaning out.new) result }
    ensures cause { HasCause (K.faults out.old) (K.faults out.new) result }
{
    match cause {
        KitCause::Text(fault) => write_kit_fault(out, fault),
        KitCause::Absent(name) => write_file(out, b"relink: absent ", name),
        KitCause::TooLong(name) => write_file(out, b"relink: too long ", name),
        KitCause::Kind => out.write(b"relink: wrong kind\n"),
        KitCause::Total { line, .. } => write_number(out, b"relink: over limit line ", *line),
    }
}

/// Writes the first fault of a kit text.
fn write_kit_fault<K: Sink>(out: &mut K, fault: &KitFault) -> Result<(), Failed>
    ensures writes { Writes (kit_fault_line fault.now) (K.meaning out.old) (K.meaning out.new) result }
    ensures cause { HasCause (K.faults out.old) (K.faults out.new) result }
{
    let mut number = Buffer::new();
    let mut place = Buffer::new();
    let line: [&[u8]; 5] = [
        b"relink: kit fault ",
        number.format(kit_fault_number(fault)).as_bytes(),
        b" line ",
        place.format(kit_fault_place(fault)).as_bytes(),
        b"\n",
    ];
    write_pieces(out, &line)
}

/// Writes some words and the name of a file.
fn write_file<K: Sink>(out: &mut K, words: &[u8], name: &Name) -> Result<(), Failed>
    ensures writes { Writes (file_line words.now name.now) (K.meaning out.old) (K.meaning out.new) result }
    ensures cause { HasCause (K.faults out.old) (K.faults out.new) result }
{
    write_pieces(out, &[words, name.bytes(), b"\n"])
}

/// Writes some words and a number.
fn write_number<K: Sink>(out: &mut K, words: &[u8], number: u32) -> Result<(), Failed>
    ensures writes { Writes (numbered_line words.now number) (K.meaning out.old) (K.meaning out.new) result }
    ensures cause { HasCause (K.faults out.old) (K.faults out.new) result }
{
    let mut digits = Buffer::new();
    write_pieces(out, &[words, digits.format(number).as_bytes(), b"\n"])
}

/// Writes that an object or an archive isn't read, by its number and its line in the kit text.
fn write_object<K: Sink>(out: &mut K, input: u32, line: u32) -> Result<(), Failed>
    ensures writes { Writes (object_line input line) (K.meaning out.old) (K.meaning out.new) result }
    ensures cause { HasCause (K.faults out.old) (K.faults out.new) result }
{
    let mut number = Buffer::new();
    let mut place = Buffer::new();
    write_pieces(
        out,
        &[
            b"relink: object ",
            number.format(input).as_bytes(),
            b" line ",
            place.format(line).as_bytes(),
            b"\n",
        ],
    )
}

/// Writes why a kit isn't linked.
fn write_link_fault<K: Sink>(out: &mut K, fault: &LinkFault) -> Result<(), Failed>
    ensures writes { Writes (link_fault_line fault.now) (K.meaning out.old) (K.meaning out.new) result }
    ensures cause { HasCause (K.faults out.old) (K.faults out.new) result }
{
    match fault {
        LinkFault::Undefined { name, .. } => write_named(out, 1, name.items()),
        LinkFault::Doubled { name, .. } => write_named(out, 2, name.items()),
        LinkFault::Kind { from, .. } => write_entry(out, 3, from),
        LinkFault::Range { from, .. } => write_entry(out, 4, from),
        LinkFault::NotFixed { from } => write_entry(out, 5, from),
        LinkFault::ReadOnlyField { from } => write_entry(out, 6, from),
        LinkFault::Removed { from } => write_entry(out, 7, from),
        LinkFault::NoEntry { name } => write_named(out, 8, name.items()),
        LinkFault::EdgeClash { name } => write_named(out, 9, name.items()),
        LinkFault::Span { found, .. } => write_span(out, *found),
        LinkFault::NoMemory => out.write(b"relink: out of memory\n"),
    }
}

/// Writes the span of an image, in bytes, that passes the limit.
fn write_span<K: Sink>(out: &mut K, found: u64) -> Result<(), Failed>
    ensures writes { Writes (span_line found) (K.meaning out.old) (K.meaning out.new) result }
    ensures cause { HasCause (K.faults out.old) (K.faults out.new) result }
{
    let mut span = Buffer::new();
    write_pieces(
        out,
        &[
            b"relink: link fault 10 found ",
            span.format(found).as_bytes(),
            b"\n",
        ],
    )
}

/// Writes the number of a fault of a link, with which its line begins.
fn write_start<K: Sink>(out: &mut K, number: u32) -> Result<(), Failed>
    ensures writes { Writes (link_start number) (K.meaning out.old) (K.meaning out.new) result }
    ensures cause { HasCause (K.faults out.old) (K.faults out.new) result }
{
    let mut digits = Buffer::new();
    write_pieces(
        out,
        &[
            b"relink: link fault ",
            digits.format(number).as_bytes(),
            b" ",
        ],
    )
}

/// Writes the number of a fault of a link and the name of a symbol.
fn write_named<K: Sink>(out: &mut K, number: u32, name: &[u8]) -> Result<(), Failed>
    ensures writes { Writes (named_line number name.now) (K.meaning out.old) (K.meaning out.new) result }
    ensures cause { HasCause (K.faults out.old) (K.faults out.new) result }
{
    write_start(out, number)?;
    write_escaped(out, name)?;
    out.write(b"\n")
}

/// Writes a relocation entry, by its input, its section there and its number there.
fn write_place<K: Sink>(out: &mut K, from: &FieldAt) -> Result<(), Failed>
    ensures writes { Writes (entry_place from.now) (K.meaning out.old) (K.meaning out.new) result }
    ensures cause { HasCause (K.faults out.old) (K.faults out.new) result }
{
    let mut input = Buffer::new();
    let mut section = Buffer::new();
    let mut index = Buffer::new();
    let place: [&[u8]; 7] = [
        b"input ",
        input.format(from.input).as_bytes(),
        b" section ",
        section.format(from.section).as_bytes(),
        b" entry ",
        index.format(from.index).as_bytes(),
        b"\n",
    ];
    write_pieces(out, &place)
}

/// Writes the number of a fault of a link and a relocation entry.
fn write_entry<K: Sink>(out: &mut K, number: u32, from: &FieldAt) -> Result<(), Failed>
    ensures writes { Writes (entry_line number from.now) (K.meaning out.old) (K.meaning out.new) result }
    ensures cause { HasCause (K.faults out.old) (K.faults out.new) result }
{
    write_start(out, number)?;
    write_place(out, from)
}
