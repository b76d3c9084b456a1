//! Reads a finished image as a loader does: its headers, or its first flaw; and its memory once it is loaded at a base.
#![tactic(auto)]

ghost use Rattle.std.specs.Prelude.{◌≡◌, [], IfOk, IfErr, OnOk};
ghost use Rattle.kl_elf.specs.Records.{ehdr_at};
ghost use Rattle.kl_model.specs.Memory.{segments};
ghost use Rattle.kl_image.specs.Flaws.{IsFirst, image_flaws};
ghost use Rattle.kl_image.specs.Loadable.{IsLoadable};

mod cover;
mod dynamic;
mod fault;
mod header;
mod image;
mod memory;
mod names;
mod placed;
mod process;
mod segment;
mod string;
mod symbol;

use dynamic::check_tables;
pub use fault::ImageFault;
use header::read_header;
pub use image::{Loaded, Phdrs, View};
use kl_elf::abi::ET_DYN;
pub use names::Resolver;
pub use process::load;
use segment::{check_segments, read_segments};
use std::alloc::Global;

/// Reads the headers of an image, as a loader does before it loads it (gABI, "ELF Header", "Program Header").
///
/// # Errors
///
/// The first flaw of the bytes, with its place, or want of memory.
pub fn view(alloc: Global, bytes: &[u8]) -> Result<View, ImageFault>
    ensures head { IfOk result (λ v. v.head ≡ ehdr_at bytes.now 0) }
    ensures segments { IfOk result (λ v. v.segments ≡ segments bytes.now) }
    ensures loadable { OnOk result (IsLoadable bytes.now) }
    ensures sound { OnOk result (image_flaws bytes.now ≡ []) }
    ensures flaw { IfErr result (IsFirst (image_flaws bytes.now)) }
{
    let head = read_header(bytes)?;
    let segments = read_segments(alloc, bytes, &head)?;
    check_segments(alloc, bytes, segments.items())?;
    if head.kind == ET_DYN {
        check_tables(alloc, bytes, segments.items())?;
    }
    Ok(View { head, segments })
}
