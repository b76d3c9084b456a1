// The gap object of a kernel's kit.
ghost use Rattle.std.specs.Prelude.{◌≡◌, IfOk};
ghost use Rattle.kl_draw.specs.GapFile.{gap_file, gap_sections};
ghost use Rattle.kl_model.specs.Fit.{AreGaps};

use crate::record::{
    NULL_SECTION, bytes_section, head_bytes, push_bytes, push_sections, relocatable_head,
};
use kl_base::NoMemory;
use kl_elf::abi::{SHF_ALLOC, SHF_EXECINSTR, SHF_WRITE, SHT_NOBITS, SHT_PROGBITS, SHT_STRTAB};
use kl_elf::{Ehdr, Shdr};
use kl_model::Gaps;
use kl_model::area::INT3;
use std::alloc::Global;

/// How many section headers the gap object has.
const SECTION_COUNT: u16 = 6;

/// The number of the string table of their names.
const NAMES_NUMBER: u16 = 5;

/// The names, and zero bytes up to a multiple of 8.
const NAMES: [u8; 40] = *b"\0.text\0.rodata\0.data\0.bss\0.shstrtab\0\0\0\0\0";

/// How many bytes the names have.
const NAMES_SIZE: u64 = 36;

/// The section headers of the gap object.
fn sections(gaps: &Gaps) -> [Shdr; 6]
    requires { AreGaps gaps.now }
    ensures { result ≡ gap_sections gaps.now }
{
    let rodata = Ehdr::SIZE as u64 + gaps.text;
    let rwdata = rodata + gaps.rodata;
    let names = rwdata + gaps.rwdata;
    let executable = SHF_ALLOC | SHF_EXECINSTR;
    let writable = SHF_ALLOC | SHF_WRITE;
    [
        NULL_SECTION,
        bytes_section(
            1,
            SHT_PROGBITS,
            executable,
            Ehdr::SIZE as u64,
            gaps.text,
            16,
        ),
        bytes_section(7, SHT_PROGBITS, SHF_ALLOC, rodata, gaps.rodata, 16),
        bytes_section(15, SHT_PROGBITS, writable, rwdata, gaps.rwdata, 16),
        bytes_section(21, SHT_NOBITS, writable, names, gaps.bss, 16),
        bytes_section(26, SHT_STRTAB, 0, names, NAMES_SIZE, 1),
    ]
}

/// The gap object of a kernel's kit: a relocatable object (gABI, `ET_REL`) whose sections `.text`, `.rodata`, `.data` and `.bss` are the
/// gaps, each of the size that `gaps` gives in bytes. The bytes of `.text` are the instruction `int3`, those of `.rodata` and `.data` are
/// zero. It defines no symbol. The only error is want of memory.
pub fn gap_object(alloc: Global, gaps: &Gaps) -> Result<Vec<u8>, NoMemory>
    requires { AreGaps gaps.now }
    ensures file { IfOk result (λ b. b.items ≡ gap_file gaps.now) }
{
    let sections = sections(gaps);
    let headers = sections[5].offset + NAMES.len() as u64;
    let mut file = Vec::with_capacity(alloc, headers as usize + Shdr::SIZE * sections.len())?;
    let head = relocatable_head(headers, SECTION_COUNT, NAMES_NUMBER);
    file.extend_from_slice(&head_bytes(&head))?;
    push_bytes(&mut file, gaps.text, INT3)?;
    push_bytes(&mut file, gaps.rodata + gaps.rwdata, 0)?;
    file.extend_from_slice(&NAMES)?;
    push_sections(&mut file, &sections)?;
    Ok(file)
}
