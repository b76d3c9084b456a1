// The file header of an image.
ghost use Rattle.std.specs.Prelude.{◌≡◌, ◌+◌, ◌*◌, ◌≤◌, ◌⊎◌, length, nat_lt, slice_get, IfOk, OnOk};
ghost use Rattle.std.specs.Result.{result_err};
ghost use Rattle.kl_elf.specs.Records.{ehdr_at};
ghost use Rattle.kl_elf.specs.declared.abi.TheConstants.{EM_X86_64, ET_DYN, ET_EXEC};
ghost use Rattle.kl_image.specs.Headers.{head_flaws, field_flaws, has_ident};

use crate::ImageFault;
use kl_elf::abi::{EI_VERSION, EM_X86_64, ET_DYN, ET_EXEC, EV_CURRENT, IDENT};
use kl_elf::{Ehdr, Phdr};

/// The place of `e_phoff` in the file header.
pub(crate) const E_PHOFF: u64 = 32;

/// The place of `e_phentsize` in it.
pub(crate) const E_PHENTSIZE: u64 = 54;

/// Reads the file header.
///
/// # Errors
///
/// The first flaw of it.
pub(crate) fn read_header(bytes: &[u8]) -> Result<Ehdr, ImageFault>
    ensures head { IfOk result (λ head. head ≡ ehdr_at bytes.now 0) }
    ensures machine { IfOk result (λ head. head.machine ≡ EM_X86_64) }
    ensures kind { IfOk result (λ head. (head.kind ≡ ET_EXEC) ⊎ (head.kind ≡ ET_DYN)) }
    ensures lie { IfOk result (λ head. head.phoff + Phdr.SIZE * head.phnum ≤ length bytes.now) }
    ensures flaw { result_err result ≡ slice_get (head_flaws bytes.now) 0 }
{
    if bytes.len() < Ehdr::SIZE {
        return Err(ImageFault::Head {
            at: bytes.len() as u64,
        });
    }
    let head = Ehdr::read(bytes, 0);
    check_fields(bytes, &head)?;
    Ok(head)
}

/// Checks the fields of the file header.
#[tactic(auto, unfolding(crate::specs::Headers::field_flaws))]
fn check_fields(bytes: &[u8], head: &Ehdr) -> Result<(), ImageFault>
    ensures flaw { result_err result ≡ slice_get (field_flaws bytes.now head.now) 0 }
    ensures machine { OnOk result (head.now.machine ≡ EM_X86_64) }
    ensures kind { OnOk result ((head.now.kind ≡ ET_EXEC) ⊎ (head.now.kind ≡ ET_DYN)) }
    ensures lie { OnOk result (head.now.phoff + Phdr.SIZE * head.now.phnum ≤ length bytes.now) }
{
    if !has_ident(head) {
        return Err(ImageFault::Head { at: 0 });
    }
    if head.machine != EM_X86_64 {
        return Err(ImageFault::Head {
            at: Ehdr::E_MACHINE,
        });
    }
    if head.version != u32::from(EV_CURRENT) {
        return Err(ImageFault::Head {
            at: Ehdr::E_VERSION,
        });
    }
    if usize::from(head.ehsize) != Ehdr::SIZE {
        return Err(ImageFault::Head { at: Ehdr::E_EHSIZE });
    }
    if usize::from(head.phentsize) != Phdr::SIZE {
        return Err(ImageFault::Head { at: E_PHENTSIZE });
    }
    if head.kind != ET_EXEC && head.kind != ET_DYN {
        return Err(ImageFault::Head { at: Ehdr::E_TYPE });
    }
    if passes_end(bytes, head.phoff, Phdr::SIZE as u64 * u64::from(head.phnum)) {
        return Err(ImageFault::Head { at: E_PHOFF });
    }
    Ok(())
}

/// Whether the ident is that of a file of 64 bits for a machine with the low byte first; what stands behind its version says nothing.
fn has_ident(head: &Ehdr) -> bool
    ensures { result ≡ has_ident head.now }
{
    head.ident[..=EI_VERSION] == IDENT[..=EI_VERSION]
}

/// Whether `size` bytes from `offset` on pass the end of the file.
pub(crate) fn passes_end(bytes: &[u8], offset: u64, size: u64) -> bool
    ensures { result ≡ nat_lt (length bytes.now) (offset + size) }
{
    match offset.checked_add(size) {
        Some(end) => end > bytes.len() as u64,
        None => true,
    }
}
