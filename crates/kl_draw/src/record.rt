// Records of an ELF file as bytes.
ghost use Rattle.std.specs.Prelude.{◌≡◌, ◌≤◌, ◌++◌, flat_map, length, replicate, OnOk};
ghost use Rattle.kl_base.specs.declared.limits.TheConstants.{SIZE_LIMIT};
ghost use Rattle.kl_draw.specs.GapFile.{bytes_section, relocatable_head};
ghost use Rattle.kl_model.specs.Written.{ehdr_bytes, shdr_bytes};

use kl_base::NoMemory;
use kl_elf::abi::{EM_X86_64, ET_REL, EV_CURRENT, IDENT, SHT_NULL};
use kl_elf::{Ehdr, Shdr};

/// The section header that says nothing, with which the section headers of a file begin.
pub const NULL_SECTION: Shdr = Shdr {
    name: 0,
    kind: SHT_NULL,
    flags: 0,
    addr: 0,
    offset: 0,
    size: 0,
    link: 0,
    info: 0,
    addralign: 0,
    entsize: 0,
};

/// The header of a section (gABI, `Elf64_Shdr`): the place of its name, its type, its flags, its place, its size and its alignment, in
/// bytes.
pub fn bytes_section(
    name: u32,
    kind: u32,
    flags: u64,
    offset: u64,
    size: u64,
    addralign: u64,
) -> Shdr
    ensures { result ≡ bytes_section name kind flags offset size addralign }
{
    Shdr {
        name,
        kind,
        flags,
        offset,
        size,
        addralign,
        ..NULL_SECTION
    }
}

/// The file header of a relocatable object (gABI, `ET_REL`) for x86-64: its section headers stand at `headers`, there are `count` of them,
/// and that of number `names` is the string table of their names.
pub fn relocatable_head(headers: u64, count: u16, names: u16) -> Ehdr
    ensures { result ≡ relocatable_head headers count names }
{
    Ehdr {
        ident: IDENT,
        kind: ET_REL,
        machine: EM_X86_64,
        version: u32::from(EV_CURRENT),
        entry: 0,
        phoff: 0,
        shoff: headers,
        flags: 0,
        ehsize: Ehdr::SIZE as u16,
        phentsize: 0,
        phnum: 0,
        shentsize: Shdr::SIZE as u16,
        shnum: count,
        shstrndx: names,
    }
}

/// Writes a file header over all bytes.
fn put_head(bytes: &mut [u8], head: &Ehdr)
    requires room { length bytes.old ≡ Ehdr.SIZE }
    ensures { bytes.new ≡ ehdr_bytes head.now }
{
    head.write(bytes, 0);
}

/// The bytes of a file header.
pub fn head_bytes(head: &Ehdr) -> [u8; Ehdr::SIZE]
    ensures { result ≡ ehdr_bytes head.now }
{
    let mut bytes = [0; Ehdr::SIZE];
    put_head(&mut bytes, head);
    bytes
}

/// Writes a section header over all bytes.
fn put_section(bytes: &mut [u8], section: &Shdr)
    requires room { length bytes.old ≡ Shdr.SIZE }
    ensures { bytes.new ≡ shdr_bytes section.now }
{
    section.write(bytes, 0);
}

/// The bytes of a section header.
pub fn section_bytes(section: &Shdr) -> [u8; Shdr::SIZE]
    ensures { result ≡ shdr_bytes section.now }
{
    let mut bytes = [0; Shdr::SIZE];
    put_section(&mut bytes, section);
    bytes
}

/// Pushes `count` bytes of one value, `SIZE_LIMIT` at most.
pub fn push_bytes(file: &mut Vec<u8>, count: u64, byte: u8) -> Result<(), NoMemory>
    requires { count ≤ SIZE_LIMIT }
    ensures { OnOk result (file.new.items ≡ file.old.items ++ replicate count byte) }
{
    file.resize(file.len() + count as usize, byte)?;
    Ok(())
}

/// Pushes section headers, each of 64 bytes.
pub fn push_sections(file: &mut Vec<u8>, sections: &[Shdr]) -> Result<(), NoMemory>
    ensures { OnOk result (file.new.items ≡ file.old.items ++ flat_map shdr_bytes sections.now) }
{
    for section in sections {
        file.extend_from_slice(&section_bytes(section))?;
    }
    Ok(())
}
