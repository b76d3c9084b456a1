// How a recovery ended.
ghost use Rattle.std.specs.Prelude.{◌≡◌};
ghost use Rattle.kl_store.specs.Calls.{HasCause};
ghost use Rattle.kl_store.specs.Outside.{Writes};
ghost use Rattle.kl_lines.specs.Lines.{slot_line, slot_lines, slot_number_line};

use crate::pieces::write_pieces;
use itoa::Buffer;
use kl_install::SlotEnd;
use kl_store::{Failed, Sink};

/// Writes how each slot ended, the kernel's first: `SLOT nothing pending`, `SLOT completed N` with the number of its files, `SLOT foreign
/// entry N` with the number of the entry from 0, or `SLOT bad intent line N`.
pub fn write_slots<K: Sink>(out: &mut K, kernel: &SlotEnd, libs: &SlotEnd) -> Result<(), Failed>
    ensures writes { Writes (slot_lines kernel.now libs.now) (K.meaning out.old) (K.meaning out.new) result }
    ensures cause { HasCause (K.faults out.old) (K.faults out.new) result }
{
    write_slot(out, b"kernel", kernel)?;
    write_slot(out, b"libs", libs)
}

/// Writes how a slot ended.
fn write_slot<K: Sink>(out: &mut K, slot: &[u8], end: &SlotEnd) -> Result<(), Failed>
    ensures writes { Writes (slot_line slot.now end.now) (K.meaning out.old) (K.meaning out.new) result }
    ensures cause { HasCause (K.faults out.old) (K.faults out.new) result }
{
    match end {
        SlotEnd::Nothing => write_pieces(out, &[slot, b" nothing pending\n"]),
        SlotEnd::Completed { files } => write_slot_number(out, slot, b" completed ", *files),
        SlotEnd::Foreign { entry, .. } => write_slot_number(out, slot, b" foreign entry ", *entry),
        SlotEnd::BadIntent { line } => write_slot_number(out, slot, b" bad intent line ", *line),
    }
}

/// Writes of a slot some words and a number.
fn write_slot_number<K: Sink>(
    out: &mut K,
    slot: &[u8],
    words: &[u8],
    number: u32,
) -> Result<(), Failed>
    ensures writes { Writes (slot_number_line slot.now words.now number) (K.meaning out.old) (K.meaning out.new) result }
    ensures cause { HasCause (K.faults out.old) (K.faults out.new) result }
{
    let mut digits = Buffer::new();
    write_pieces(out, &[slot, words, digits.format(number).as_bytes(), b"\n"])
}
