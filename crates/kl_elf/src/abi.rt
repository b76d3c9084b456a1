//! The numbers of the System V gABI and of the x86-64 psABI, under their standard names.

/// The bytes with which an ELF file begins.
pub const ELFMAG: [u8; 4] = *b"\x7fELF";

/// The place of the class in the ident.
pub const EI_CLASS: usize = 4;

/// The place of the byte order in the ident.
pub const EI_DATA: usize = 5;

/// The place of the version in the ident.
pub const EI_VERSION: usize = 6;

/// The class of files of 64 bits.
pub const ELFCLASS64: u8 = 2;

/// The byte order: the low byte first.
pub const ELFDATA2LSB: u8 = 1;

/// The version of the ident and of the file.
pub const EV_CURRENT: u8 = 1;

/// The ident of a file of 64 bits for a machine with the low byte first.
pub const IDENT: [u8; 16] = [
    ELFMAG[0],
    ELFMAG[1],
    ELFMAG[2],
    ELFMAG[3],
    ELFCLASS64,
    ELFDATA2LSB,
    EV_CURRENT,
    0,
    0,
    0,
    0,
    0,
    0,
    0,
    0,
    0,
];

/// A relocatable file.
pub const ET_REL: u16 = 1;

/// An executable file.
pub const ET_EXEC: u16 = 2;

/// A shared object.
pub const ET_DYN: u16 = 3;

/// The machine x86-64.
pub const EM_X86_64: u16 = 62;

/// A section header that says nothing.
pub const SHT_NULL: u32 = 0;

/// A section of a program: code or data.
pub const SHT_PROGBITS: u32 = 1;

/// The symbol table of an object.
pub const SHT_SYMTAB: u32 = 2;

/// A string table.
pub const SHT_STRTAB: u32 = 3;

/// Relocation entries with addends.
pub const SHT_RELA: u32 = 4;

/// A hash table of symbols.
pub const SHT_HASH: u32 = 5;

/// The entries of a dynamic section.
pub const SHT_DYNAMIC: u32 = 6;

/// Notes.
pub const SHT_NOTE: u32 = 7;

/// A section without bytes in the file, which are zero in memory.
pub const SHT_NOBITS: u32 = 8;

/// Relocation entries without addends.
pub const SHT_REL: u32 = 9;

/// The dynamic symbol table.
pub const SHT_DYNSYM: u32 = 11;

/// Addresses of functions that run at the start.
pub const SHT_INIT_ARRAY: u32 = 14;

/// Addresses of functions that run at the end.
pub const SHT_FINI_ARRAY: u32 = 15;

/// A section group.
pub const SHT_GROUP: u32 = 17;

/// Section numbers of symbols that have no room for them.
pub const SHT_SYMTAB_SHNDX: u32 = 18;

/// Unwind tables (psABI).
pub const SHT_X86_64_UNWIND: u32 = 0x7000_0001;

/// Writable in memory.
pub const SHF_WRITE: u64 = 1;

/// In memory when the program runs.
pub const SHF_ALLOC: u64 = 2;

/// Executable.
pub const SHF_EXECINSTR: u64 = 4;

/// Equal entries may be merged.
pub const SHF_MERGE: u64 = 0x10;

/// The entries are texts that end with a zero byte.
pub const SHF_STRINGS: u64 = 0x20;

/// `sh_info` is a section number.
pub const SHF_INFO_LINK: u64 = 0x40;

/// A member of a section group.
pub const SHF_GROUP: u64 = 0x200;

/// Storage of threads.
pub const SHF_TLS: u64 = 0x400;

/// Compressed in the file.
pub const SHF_COMPRESSED: u64 = 0x800;

/// Left out of a linked image.
pub const SHF_EXCLUDE: u64 = 0x8000_0000;

/// No section: a symbol that is undefined.
pub const SHN_UNDEF: u16 = 0;

/// The first section number that is reserved.
pub const SHN_LORESERVE: u16 = 0xff00;

/// No section: a symbol whose value is a number.
pub const SHN_ABS: u16 = 0xfff1;

/// No section: a common symbol, whose value is its alignment.
pub const SHN_COMMON: u16 = 0xfff2;

/// The section number stands elsewhere.
pub const SHN_XINDEX: u16 = 0xffff;

/// The flag of a COMDAT group.
pub const GRP_COMDAT: u32 = 1;

/// Seen in its own object alone.
pub const STB_LOCAL: u8 = 0;

/// Seen in all objects.
pub const STB_GLOBAL: u8 = 1;

/// Seen in all objects, and yields to a GLOBAL definition.
pub const STB_WEAK: u8 = 2;

/// A symbol of no type.
pub const STT_NOTYPE: u8 = 0;

/// A variable.
pub const STT_OBJECT: u8 = 1;

/// A function.
pub const STT_FUNC: u8 = 2;

/// A section.
pub const STT_SECTION: u8 = 3;

/// The name of a source file.
pub const STT_FILE: u8 = 4;

/// A common variable.
pub const STT_COMMON: u8 = 5;

/// A variable of each thread.
pub const STT_TLS: u8 = 6;

/// A function that gives the address of a function.
pub const STT_GNU_IFUNC: u8 = 10;

/// Visible as its binding says.
pub const STV_DEFAULT: u8 = 0;

/// Hidden, by a rule of the processor's.
pub const STV_INTERNAL: u8 = 1;

/// Not visible to other images.
pub const STV_HIDDEN: u8 = 2;

/// Visible to other images, and not replaced by them.
pub const STV_PROTECTED: u8 = 3;

/// A program header of bytes that are loaded.
pub const PT_LOAD: u32 = 1;

/// A program header of the dynamic section.
pub const PT_DYNAMIC: u32 = 2;

/// A program header of the interpreter's name.
pub const PT_INTERP: u32 = 3;

/// May be executed.
pub const PF_X: u32 = 1;

/// May be written.
pub const PF_W: u32 = 2;

/// May be read.
pub const PF_R: u32 = 4;

/// The end of a dynamic section.
pub const DT_NULL: u64 = 0;

/// The name of a library that is needed.
pub const DT_NEEDED: u64 = 1;

/// The size of the relocation entries of stubs.
pub const DT_PLTRELSZ: u64 = 2;

/// The address of the global offset table.
pub const DT_PLTGOT: u64 = 3;

/// The address of the hash table.
pub const DT_HASH: u64 = 4;

/// The address of the string table.
pub const DT_STRTAB: u64 = 5;

/// The address of the symbol table.
pub const DT_SYMTAB: u64 = 6;

/// The address of the relocation entries.
pub const DT_RELA: u64 = 7;

/// Their size in bytes.
pub const DT_RELASZ: u64 = 8;

/// The size of one of them.
pub const DT_RELAENT: u64 = 9;

/// The size of the string table in bytes.
pub const DT_STRSZ: u64 = 10;

/// The size of a symbol.
pub const DT_SYMENT: u64 = 11;

/// The address of the function that runs at the start.
pub const DT_INIT: u64 = 12;

/// The address of the function that runs at the end.
pub const DT_FINI: u64 = 13;

/// The library's own name.
pub const DT_SONAME: u64 = 14;

/// The form of the relocation entries of stubs: `DT_RELA`.
pub const DT_PLTREL: u64 = 20;

/// The address of the relocation entries of stubs.
pub const DT_JMPREL: u64 = 23;

/// The address of the list of functions that run at the start.
pub const DT_INIT_ARRAY: u64 = 25;

/// The address of the list of functions that run at the end.
pub const DT_FINI_ARRAY: u64 = 26;

/// The size of the first list in bytes.
pub const DT_INIT_ARRAYSZ: u64 = 27;

/// The size of the second list in bytes.
pub const DT_FINI_ARRAYSZ: u64 = 28;

/// Flags of the image.
pub const DT_FLAGS: u64 = 30;

/// All names are bound when the image is loaded, in `DT_FLAGS`.
pub const DF_BIND_NOW: u64 = 8;

/// No relocation.
pub const R_X86_64_NONE: u32 = 0;

/// S + A in 8 bytes.
pub const R_X86_64_64: u32 = 1;

/// S + A - P in 4 bytes.
pub const R_X86_64_PC32: u32 = 2;

/// L + A - P in 4 bytes.
pub const R_X86_64_PLT32: u32 = 4;

/// S in 8 bytes, by the loader.
pub const R_X86_64_GLOB_DAT: u32 = 6;

/// S in 8 bytes of a stub's slot, by the loader.
pub const R_X86_64_JUMP_SLOT: u32 = 7;

/// B + A in 8 bytes, by the loader.
pub const R_X86_64_RELATIVE: u32 = 8;

/// G + GOT + A - P in 4 bytes.
pub const R_X86_64_GOTPCREL: u32 = 9;

/// S + A in 4 bytes, without a sign.
pub const R_X86_64_32: u32 = 10;

/// S + A in 4 bytes, with a sign.
pub const R_X86_64_32S: u32 = 11;

/// S + A in 2 bytes.
pub const R_X86_64_16: u32 = 12;

/// S + A - P in 2 bytes.
pub const R_X86_64_PC16: u32 = 13;

/// S + A in 1 byte.
pub const R_X86_64_8: u32 = 14;

/// S + A - P in 1 byte.
pub const R_X86_64_PC8: u32 = 15;

/// S + A - P in 8 bytes.
pub const R_X86_64_PC64: u32 = 24;

/// As `R_X86_64_GOTPCREL`, of an instruction that could be relaxed.
pub const R_X86_64_GOTPCRELX: u32 = 41;

/// As `R_X86_64_GOTPCREL`, of an instruction with a REX prefix that could be relaxed.
pub const R_X86_64_REX_GOTPCRELX: u32 = 42;
