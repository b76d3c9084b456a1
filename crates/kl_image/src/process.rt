// Loading an image.
ghost use Rattle.std.specs.Prelude.{◌≡◌, [], IsTrue, IfOk};
ghost use Rattle.kl_elf.specs.Records.{ehdr_at};
ghost use Rattle.kl_model.specs.Memory.{segments};
ghost use Rattle.kl_image.specs.Bases.{is_base};
ghost use Rattle.kl_image.specs.Flaws.{image_flaws};
ghost use Rattle.kl_image.specs.LoadedImages.{IsLoaded, byte_of_loaded};
ghost use Rattle.kl_image.specs.Resolvers.{number_of};

use crate::cover::Cover;
use crate::dynamic::carry_out_entries;
use crate::placed::Placed;
use crate::{Loaded, Resolver, View};
use kl_base::NoMemory;
use kl_elf::abi::ET_DYN;
use std::alloc::Global;
use std::collections::BTreeMap;

impl<'a> Loaded<'a> {
    /// The byte at an address, or `None` where nothing is mapped.
    pub fn byte(&self, address: u64) -> Option<u8>
        ensures { result ≡ byte_of_loaded self.now address }
    {
        let byte = self.image.byte(address)?;
        match self.written.get(&address) {
            Some(written) => Some(*written),
            None => Some(byte),
        }
    }
}

/// Loads an image at a base, as a loader does that looks names up by `names` (gABI, "Program Loading", "Dynamic Linking"; psABI,
/// "Relocation Types").
///
/// # Errors
///
/// Want of memory.
pub fn load<'a, R: Resolver>(
    alloc: Global,
    bytes: &'a [u8],
    view: &View,
    base: u64,
    names: &R,
) -> Result<Loaded<'a>, NoMemory>
    requires sound { image_flaws bytes.now ≡ [] }
    requires head { view.now.head ≡ ehdr_at bytes.now 0 }
    requires segments { view.now.segments ≡ segments bytes.now }
    requires base { IsTrue (is_base view.now.head view.now.segments base) }
    ensures { IfOk result (IsLoaded bytes.now base (number_of (R.numbers names.now))) }
{
    let headers = view.segments.items();
    let image = Placed {
        bytes,
        cover: Cover::new(alloc, headers)?,
        base,
    };
    let mut written = BTreeMap::new(alloc);
    if view.head.kind == ET_DYN {
        carry_out_entries(alloc, headers, &image, names, &mut written)?;
    }
    Ok(Loaded { image, written })
}
