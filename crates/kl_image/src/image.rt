// What is read of an image: its headers, and its memory once it is loaded.
ghost use Rattle.std.specs.Prelude.{◌≡◌};
ghost use Rattle.std.specs.List.{list_all};
ghost use Rattle.kl_image.specs.Bases.{can_move, is_base};
ghost use Rattle.kl_image.specs.Placed.{IsPlaced};

use crate::placed::Placed;
use kl_base::Listed;
use kl_elf::abi::{ET_EXEC, PT_LOAD};
use kl_elf::{Ehdr, Phdr};
use std::collections::BTreeMap;

/// The end of the addresses: how many there are.
const ADDRESS_END: u128 = 1 << 64;

/// Program headers in order of number, from number 0 on.
pub type Phdrs = Listed<Phdr>;

/// The file header of an image and all its program headers.
#[derive(Debug, Drop)]
pub struct View {
    /// The file header.
    pub head: Ehdr,
    /// The program headers, those of other types than `PT_LOAD` too.
    pub segments: Phdrs,
}

impl View {
    /// Whether the image can be loaded at a base: at a multiple of each alignment, with no memory past the end of the addresses, and an
    /// executable only at 0 (gABI, "Program Loading").
    pub fn is_base(&self, base: u64) -> bool
        ensures { result ≡ is_base self.now.head self.now.segments base }
    {
        if self.head.kind == ET_EXEC && base != 0 {
            return false;
        }
        can_all_move(self.segments.items(), base)
    }
}

/// Whether the memory of each program header can be moved by a base.
fn can_all_move(headers: &[Phdr], base: u64) -> bool
    ensures { result ≡ list_all (can_move base) headers.now }
{
    headers.iter().all(|header| can_move(header, base))
}

/// Whether the memory of a program header can be moved by a base.
fn can_move(header: &Phdr, base: u64) -> bool
    ensures { result ≡ can_move base header.now }
{
    let end = u128::from(base) + (u128::from(header.vaddr) + u128::from(header.memsz));
    header.kind != PT_LOAD || base.is_multiple_of(header.align) && end <= ADDRESS_END
}

/// An image that is loaded: its memory at a base, with its relocation entries carried out.
#[derive(Drop)]
pub struct Loaded<'a> {
    pub(crate) image: Placed<'a>,
    /// By their addresses, the bytes that entries wrote.
    pub(crate) written: BTreeMap<u64, u8>,
    ghost placed: { IsPlaced image },
}
