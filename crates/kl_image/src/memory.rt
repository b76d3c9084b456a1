// The memory that program headers take up.
ghost use Rattle.std.specs.Prelude.{◌≡◌, ◌<◌, ◌≤◌, ◌⊎◌, ◌∷◌, ◌++◌, [], ℕ, List, Some, false, OnOk};
ghost use Rattle.std.specs.List.{list_any};
ghost use Rattle.std.specs.Ordering.{nat_cmp};
ghost use Rattle.std.specs.BTreeMap.{get};
ghost use Rattle.kl_elf.specs.declared.records.Phdr.{Phdr};
ghost use Rattle.kl_image.specs.Headers.{share_memory};
ghost use Rattle.kl_image.specs.Occupied.{IsMemoryOf, memory_of};

use kl_base::NoMemory;
use kl_elf::Phdr;
use kl_elf::abi::PT_LOAD;
use std::alloc::Global;
use std::collections::BTreeMap;

/// The memory of `PT_LOAD` headers that share no byte.
#[derive(Drop)]
pub(crate) struct Memory {
    /// By the address of a header's first byte, that behind its last byte.
    ends: BTreeMap<u128, u128>,
}

impl Memory {
    /// No memory.
    pub(crate) fn new(alloc: Global) -> Self
        ensures { IsMemoryOf result.ends [] }
    {
        Memory {
            ends: BTreeMap::new(alloc),
        }
    }

    /// Whether a byte of a segment is among the memory: of the headers that begin before the segment's end, the last one reaches
    /// furthest.
    pub(crate) fn has_part_of(&self, segment: &Phdr) -> bool
        ensures { (before : List Phdr) → IsMemoryOf self.now.ends before → result ≡ list_any (share_memory segment.now) before }
    {
        match addresses(segment) {
            Some((start, end)) => self.end_before(end) > start,
            None => false,
        }
    }

    /// The end of the last header that begins before an address, and 0 where none does.
    fn end_before(&self, address: u128) -> u128
        ensures found { (result ≡ 0) ⊎ ((start : ℕ) × (start < address) × (get nat_cmp self.now.ends start ≡ Some result)) }
        ensures furthest { (before : List Phdr) → IsMemoryOf self.now.ends before
            → (start end : ℕ) → get nat_cmp self.now.ends start ≡ Some end → start < address → end ≤ result }
    {
        match self.ends.range(..address).next_back() {
            Some((_, end)) => *end,
            None => 0,
        }
    }

    /// Adds the memory of a segment that shares no byte with what is there. Where memory runs out, it is of no more use.
    pub(crate) fn add(&mut self, segment: &Phdr) -> Result<(), NoMemory>
        ensures { (before : List Phdr) → IsMemoryOf self.old.ends before → list_any (share_memory segment.now) before ≡ false
            → OnOk result (IsMemoryOf self.new.ends (before ++ segment.now ∷ [])) }
    {
        if let Some((start, end)) = addresses(segment) {
            self.ends.insert(start, end)?;
        }
        Ok(())
    }
}

/// The addresses that a `PT_LOAD` header takes up, from the first to that behind the last, if it takes up some.
fn addresses(segment: &Phdr) -> Option<(u128, u128)>
    ensures { result ≡ memory_of segment.now }
{
    if segment.kind != PT_LOAD || segment.memsz == 0 {
        return None;
    }
    let start = u128::from(segment.vaddr);
    Some((start, start + u128::from(segment.memsz)))
}
