// What was done.
ghost use Rattle.std.specs.Prelude.{◌≡◌};
ghost use Rattle.kl_store.specs.Calls.{HasCause};
ghost use Rattle.kl_store.specs.Outside.{Writes};
ghost use Rattle.kl_lines.specs.Lines.{generate_line, kernel_line, link_line, report_line};

use crate::pieces::write_pieces;
use itoa::Buffer;
use kl_base::Name;
use kl_link::Report;
use kl_store::{Failed, Sink};

/// Writes that the kit of a folder was linked there: `DIR linked pieces P fields F bytes B sha256 HEX`.
pub fn write_link<K: Sink>(out: &mut K, dir: &Name, report: &Report) -> Result<(), Failed>
    ensures writes { Writes (link_line dir.now report.now) (K.meaning out.old) (K.meaning out.new) result }
    ensures cause { HasCause (K.faults out.old) (K.faults out.new) result }
{
    write_report(out, dir.bytes(), b" linked", report)
}

/// Writes that the kernel was linked and installed: `/bsd relinked pieces P fields F bytes B sha256 HEX`.
pub fn write_kernel<K: Sink>(out: &mut K, report: &Report) -> Result<(), Failed>
    ensures writes { Writes (kernel_line report.now) (K.meaning out.old) (K.meaning out.new) result }
    ensures cause { HasCause (K.faults out.old) (K.faults out.new) result }
{
    write_report(out, b"/bsd", b" relinked", report)
}

/// Writes that a kit of `count` objects was made and linked: `generated N pieces P fields F bytes B sha256 HEX`.
pub fn write_generate<K: Sink>(out: &mut K, count: u32, report: &Report) -> Result<(), Failed>
    ensures writes { Writes (generate_line count report.now) (K.meaning out.old) (K.meaning out.new) result }
    ensures cause { HasCause (K.faults out.old) (K.faults out.new) result }
{
    let mut number = Buffer::new();
    write_report(out, b"generated ", number.format(count).as_bytes(), report)
}

/// Writes some words, and what is told of an image.
fn write_report<K: Sink>(
    out: &mut K,
    first: &[u8],
    then: &[u8],
    report: &Report,
) -> Result<(), Failed>
    ensures writes { Writes (report_line first.now then.now report.now) (K.meaning out.old) (K.meaning out.new) result }
    ensures cause { HasCause (K.faults out.old) (K.faults out.new) result }
{
    let mut pieces = Buffer::new();
    let mut fields = Buffer::new();
    let mut bytes = Buffer::new();
    let mut digest = [0; 64];
    hex::encode_to_slice(report.digest, &mut digest).unwrap();
    let line: [&[u8]; 11] = [
        first,
        then,
        b" pieces ",
        pieces.format(report.pieces).as_bytes(),
        b" fields ",
        fields.format(report.fields).as_bytes(),
        b" bytes ",
        bytes.format(report.bytes).as_bytes(),
        b" sha256 ",
        &digest,
        b"\n",
    ];
    write_pieces(out, &line)
}
