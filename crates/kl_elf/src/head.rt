ghost use Rattle.std.specs.Prelude.{◌≡◌, IfOk};
ghost use Rattle.std.specs.Result.{result_err};
ghost use Rattle.kl_elf.specs.Heads.{head_fault, magic_len};
ghost use Rattle.kl_elf.specs.Records.{ehdr_at};

use crate::abi::{
    EI_CLASS, EI_DATA, EI_VERSION, ELFCLASS64, ELFDATA2LSB, ELFMAG, EM_X86_64, ET_REL, EV_CURRENT,
};
use crate::{Ehdr, Shdr};

/// What is wrong with the header of an object, in the order in which it is told.
#[derive(Clone, Copy, PartialEq, Eq, Debug)]
pub enum HeadFault {
    /// Fewer than 64 bytes.
    Truncated,
    /// The first four bytes are not 7f and `ELF`.
    Magic,
    /// The class is not `ELFCLASS64`, 2.
    IdentClass,
    /// The byte order is not `ELFDATA2LSB`, 1.
    IdentOrder,
    /// The version of the ident is not `EV_CURRENT`, 1.
    IdentVersion,
    /// The type is not `ET_REL`, 1.
    FileType,
    /// The machine is not `EM_X86_64`, 62.
    Machine,
    /// The version of the file is not `EV_CURRENT`, 1.
    FileVersion,
    /// The header's size is not 64.
    HeadSize,
    /// The size of a section header is not 64.
    SectionSize,
}

/// How many of the first bytes of an ident are those of the magic: 4 where it is whole.
fn magic_len(ident: &[u8; 16]) -> usize
    ensures { result ≡ magic_len ident.now }
{
    for (i, byte) in ELFMAG.iter().enumerate() {
        if ident[i] != *byte {
            return i;
        }
    }
    ELFMAG.len()
}

/// Reads the header of an object.
///
/// # Errors
///
/// The first fault, with its place in the file: the file's length where it is cut short, the first byte of the
/// magic that differs, and otherwise the field's place.
pub fn read_ehdr(b: &[u8]) -> Result<Ehdr, (HeadFault, u64)>
    ensures head { IfOk result (λ head. head ≡ ehdr_at b.now 0) }
    ensures fault { result_err result ≡ head_fault b.now }
{
    if b.len() < Ehdr::SIZE {
        return Err((HeadFault::Truncated, b.len() as u64));
    }
    let head = Ehdr::read(b, 0);
    let same = magic_len(&head.ident);
    if same < ELFMAG.len() {
        return Err((HeadFault::Magic, same as u64));
    }
    if head.ident[EI_CLASS] != ELFCLASS64 {
        return Err((HeadFault::IdentClass, EI_CLASS as u64));
    }
    if head.ident[EI_DATA] != ELFDATA2LSB {
        return Err((HeadFault::IdentOrder, EI_DATA as u64));
    }
    if head.ident[EI_VERSION] != EV_CURRENT {
        return Err((HeadFault::IdentVersion, EI_VERSION as u64));
    }
    if head.kind != ET_REL {
        return Err((HeadFault::FileType, Ehdr::E_TYPE));
    }
    if head.machine != EM_X86_64 {
        return Err((HeadFault::Machine, Ehdr::E_MACHINE));
    }
    if head.version != u32::from(EV_CURRENT) {
        return Err((HeadFault::FileVersion, Ehdr::E_VERSION));
    }
    if usize::from(head.ehsize) != Ehdr::SIZE {
        return Err((HeadFault::HeadSize, Ehdr::E_EHSIZE));
    }
    if usize::from(head.shentsize) != Shdr::SIZE {
        return Err((HeadFault::SectionSize, Ehdr::E_SHENTSIZE));
    }
    Ok(head)
}
