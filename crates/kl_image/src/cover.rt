// The program headers by their addresses.
ghost use Rattle.std.specs.Prelude.{◌≡◌, AllPairs, List, IfOk, find};
ghost use Rattle.kl_elf.specs.declared.records.Phdr.{Phdr};
ghost use Rattle.kl_model.specs.Memory.{covers};
ghost use Rattle.kl_image.specs.Covers.{IsCoverOf, takes_memory};
ghost use Rattle.kl_image.specs.Loadable.{CoverNoByte};

use kl_base::NoMemory;
use kl_elf::Phdr;
use kl_elf::abi::PT_LOAD;
use std::alloc::Global;
use std::collections::BTreeMap;

/// `PT_LOAD` headers that take up memory, no two of which cover one byte.
#[derive(Drop)]
pub(crate) struct Cover {
    /// Each by the address of its first byte.
    starts: BTreeMap<u64, Phdr>,
}

impl Cover {
    /// Those among these program headers.
    pub(crate) fn new(alloc: Global, headers: &[Phdr]) -> Result<Self, NoMemory>
        requires { AllPairs CoverNoByte headers.now }
        ensures { IfOk result (λ c. IsCoverOf c.starts headers.now) }
    {
        let mut starts = BTreeMap::new(alloc);
        for header in headers {
            if !takes_memory(header) {
                continue;
            }
            starts.insert(header.vaddr, *header)?;
        }
        Ok(Cover { starts })
    }

    /// The header that covers an address: of those that begin there or before, the last is the only one that can.
    pub(crate) fn at(&self, address: u64) -> Option<Phdr>
        ensures { (ss : List Phdr) → IsCoverOf self.now.starts ss → result ≡ find (covers address) ss }
    {
        match self.starts.range(..=address).next_back() {
            Some((start, header)) => {
                if address - *start < header.memsz {
                    Some(*header)
                } else {
                    None
                }
            }
            None => None,
        }
    }
}

/// Whether a program header takes up memory.
fn takes_memory(header: &Phdr) -> bool
    ensures { result ≡ takes_memory header.now }
{
    header.kind == PT_LOAD && header.memsz != 0
}
