// The program headers of an image.
ghost use Rattle.std.specs.Prelude.{◌≡◌, ◌+◌, ◌*◌, ◌≤◌, ◌<◌, ◌^◌, [], length, IfOk, OnOk, IfErr};
ghost use Rattle.kl_elf.specs.Records.{phdrs_from};
ghost use Rattle.kl_model.specs.Memory.{segments};
ghost use Rattle.kl_image.specs.Headers.{is_damaged, segment_flaws};
ghost use Rattle.kl_image.specs.Flaws.{IsFirst};

use crate::header::passes_end;
use crate::memory::Memory;
use crate::{ImageFault, Phdrs};
use kl_base::NoMemory;
use kl_elf::{Ehdr, Phdr};
use std::alloc::Global;

/// Reads all program headers.
pub(crate) fn read_segments(alloc: Global, bytes: &[u8], head: &Ehdr) -> Result<Phdrs, NoMemory>
    requires { head.now.phoff + Phdr.SIZE * head.now.phnum ≤ length bytes.now }
    ensures { IfOk result (λ ss. ss ≡ phdrs_from bytes.now head.now.phoff head.now.phnum) }
{
    let mut segments = Phdrs::new(alloc);
    for number in 0..usize::from(head.phnum) {
        segments.push(Phdr::read(bytes, head.phoff as usize + Phdr::SIZE * number))?;
    }
    Ok(segments)
}

/// Checks the program headers, each behind those before it.
///
/// # Errors
///
/// The first that is wrong, or want of memory.
pub(crate) fn check_segments(
    alloc: Global,
    bytes: &[u8],
    headers: &[Phdr],
) -> Result<(), ImageFault>
    requires headers { headers.now ≡ segments bytes.now }
    requires few { length headers.now < 2 ^ 32 }
    ensures sound { OnOk result (segment_flaws bytes.now ≡ []) }
    ensures flaw { IfErr result (IsFirst (segment_flaws bytes.now)) }
{
    let mut memory = Memory::new(alloc);
    for (index, segment) in headers.iter().enumerate() {
        if is_damaged(bytes, segment) || memory.has_part_of(segment) {
            return Err(ImageFault::Segment {
                index: index as u32,
            });
        }
        memory.add(segment)?;
    }
    Ok(())
}

/// Whether a program header is wrong by itself.
fn is_damaged(bytes: &[u8], segment: &Phdr) -> bool
    ensures { result ≡ is_damaged bytes.now segment.now }
{
    segment.filesz != 0 && passes_end(bytes, segment.offset, segment.filesz)
        || segment.memsz < segment.filesz
        || !segment.align.is_power_of_two()
        || segment.vaddr % segment.align != segment.offset % segment.align
}
