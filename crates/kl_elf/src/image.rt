ghost use Rattle.std.specs.Prelude.{◌≡◌, ◌+◌, ◌*◌, ◌≤◌, length};
ghost use Rattle.kl_le.specs.Bytes.{ChangesWithin};
ghost use Rattle.kl_elf.specs.Records.{ehdr_at, phdrs_from};

use crate::{Ehdr, Phdr};

/// Writes the headers of an image, the file header at 0 and the program headers behind it, and leaves all
/// other bytes.
pub fn write_headers(image: &mut [u8], head: &Ehdr, segments: &[Phdr])
    requires { Ehdr.SIZE + Phdr.SIZE * length segments.now ≤ length image.old }
    ensures head { ehdr_at image.new 0 ≡ head.now }
    ensures segments { phdrs_from image.new Ehdr.SIZE (length segments.now) ≡ segments.now }
    ensures rest { ChangesWithin image.old image.new 0 (Ehdr.SIZE + Phdr.SIZE * length segments.now) }
{
    for (i, segment) in segments.iter().enumerate() {
        segment.write(image, Ehdr::SIZE + Phdr::SIZE * i);
    }
    head.write(image, 0);
}
