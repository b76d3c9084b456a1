ghost use Rattle.std.specs.Prelude.{◌≡◌, ◌+◌, ◌≤◌, length};
ghost use Rattle.kl_le.specs.Bytes.{ChangesWithin};

use kl_le::{Fixed, get, put, put_bytes};

/// Reads the fields of a table from `b`, where the record stands at `at`.
macro_rules! read_fields {
    ($record:ident, $b:ident, $at:ident; $($field:ident $place:literal ($width:literal) $kind:tt),*) => {
        $record { $($field: read_field!($b, $at + $place, $width, $kind)),* }
    };
}

/// Reads one field, by its width and its type.
macro_rules! read_field {
    ($b:ident, $at:expr, $width:literal, [u8; 16]) => { Fixed::<$width>::at($b, $at).to_array() };
    ($b:ident, $at:expr, $width:literal, u64) => { get::<$width>($b, $at) };
    ($b:ident, $at:expr, $width:literal, i64) => { get::<$width>($b, $at).cast_signed() };
    ($b:ident, $at:expr, $width:literal, $kind:ident) => { get::<$width>($b, $at) as $kind };
}

/// The record of a table that holds in each field the field's own place.
macro_rules! place_fields {
    ($record:ident; $($field:ident $place:literal ($width:literal) $kind:tt),*) => {
        $record { $($field: place_field!($place, $kind)),* }
    };
}

/// The place of one field, by its type.
macro_rules! place_field {
    ($place:literal, [u8; 16]) => { [$place; 16] };
    ($place:literal, $kind:ident) => { $place };
}

/// Writes the fields of a table into `b`, where the record stands at `at`.
macro_rules! write_fields {
    ($record:expr, $b:ident, $at:ident; $($field:ident $place:literal ($width:literal) $kind:tt),*) => {
        $(write_field!($b, $at + $place, $width, $kind, $record.$field);)*
    };
}

/// Writes one field, by its width and its type.
macro_rules! write_field {
    ($b:ident, $at:expr, $width:literal, [u8; 16], $value:expr) => { put_bytes($b, $at, &$value) };
    ($b:ident, $at:expr, $width:literal, u64, $value:expr) => { put::<$width>($b, $at, $value) };
    ($b:ident, $at:expr, $width:literal, i64, $value:expr) => { put::<$width>($b, $at, $value.cast_unsigned()) };
    ($b:ident, $at:expr, $width:literal, $kind:ident, $value:expr) => { put::<$width>($b, $at, u64::from($value)) };
}

// Each table below names the fields of one record: name, place, width in bytes and type.

macro_rules! ehdr_fields {
    ($with:ident!($($args:tt)*)) => {
        $with!($($args)*;
            ident 0 (16) [u8; 16],
            kind 16 (2) u16,
            machine 18 (2) u16,
            version 20 (4) u32,
            entry 24 (8) u64,
            phoff 32 (8) u64,
            shoff 40 (8) u64,
            flags 48 (4) u32,
            ehsize 52 (2) u16,
            phentsize 54 (2) u16,
            phnum 56 (2) u16,
            shentsize 58 (2) u16,
            shnum 60 (2) u16,
            shstrndx 62 (2) u16
        )
    };
}

macro_rules! shdr_fields {
    ($with:ident!($($args:tt)*)) => {
        $with!($($args)*;
            name 0 (4) u32,
            kind 4 (4) u32,
            flags 8 (8) u64,
            addr 16 (8) u64,
            offset 24 (8) u64,
            size 32 (8) u64,
            link 40 (4) u32,
            info 44 (4) u32,
            addralign 48 (8) u64,
            entsize 56 (8) u64
        )
    };
}

macro_rules! sym_fields {
    ($with:ident!($($args:tt)*)) => {
        $with!($($args)*;
            name 0 (4) u32,
            info 4 (1) u8,
            other 5 (1) u8,
            shndx 6 (2) u16,
            value 8 (8) u64,
            size 16 (8) u64
        )
    };
}

macro_rules! rela_fields {
    ($with:ident!($($args:tt)*)) => {
        $with!($($args)*;
            offset 0 (8) u64,
            info 8 (8) u64,
            addend 16 (8) i64
        )
    };
}

macro_rules! phdr_fields {
    ($with:ident!($($args:tt)*)) => {
        $with!($($args)*;
            kind 0 (4) u32,
            flags 4 (4) u32,
            offset 8 (8) u64,
            vaddr 16 (8) u64,
            paddr 24 (8) u64,
            filesz 32 (8) u64,
            memsz 40 (8) u64,
            align 48 (8) u64
        )
    };
}

macro_rules! dyn_fields {
    ($with:ident!($($args:tt)*)) => {
        $with!($($args)*;
            tag 0 (8) u64,
            value 8 (8) u64
        )
    };
}

/// The file header, the gABI's `Elf64_Ehdr`: 64 bytes at the start of a file.
#[derive(Clone, Copy, PartialEq, Eq, Debug)]
pub struct Ehdr {
    /// `e_ident`: the magic, the class, the byte order and the version.
    pub ident: [u8; 16],
    /// `e_type`: relocatable 1, executable 2, shared 3.
    pub kind: u16,
    /// `e_machine`: 62 for x86-64.
    pub machine: u16,
    /// `e_version`: 1.
    pub version: u32,
    /// `e_entry`: the address at which a program starts.
    pub entry: u64,
    /// `e_phoff`: the place of the program headers.
    pub phoff: u64,
    /// `e_shoff`: the place of the section headers.
    pub shoff: u64,
    /// `e_flags`: of the processor.
    pub flags: u32,
    /// `e_ehsize`: this header's bytes, 64.
    pub ehsize: u16,
    /// `e_phentsize`: a program header's bytes, 56.
    pub phentsize: u16,
    /// `e_phnum`: the number of program headers.
    pub phnum: u16,
    /// `e_shentsize`: a section header's bytes, 64.
    pub shentsize: u16,
    /// `e_shnum`: the number of section headers.
    pub shnum: u16,
    /// `e_shstrndx`: the section that holds the sections' names.
    pub shstrndx: u16,
}

impl Ehdr {
    ghost use Rattle.kl_elf.specs.Records.{ehdr_at};

    /// Its size in bytes.
    pub const SIZE: usize = 64;

    /// The record whose fields are their own places.
    const PLACES: Ehdr = ehdr_fields!(place_fields!(Ehdr));

    /// The place of `e_type` in it.
    pub const E_TYPE: u64 = Ehdr::PLACES.kind as u64;

    /// The place of `e_machine` in it.
    pub const E_MACHINE: u64 = Ehdr::PLACES.machine as u64;

    /// The place of `e_version` in it.
    pub const E_VERSION: u64 = Ehdr::PLACES.version as u64;

    /// The place of `e_shoff` in it.
    pub const E_SHOFF: u64 = Ehdr::PLACES.shoff as u64;

    /// The place of `e_ehsize` in it.
    pub const E_EHSIZE: u64 = Ehdr::PLACES.ehsize as u64;

    /// The place of `e_shentsize` in it.
    pub const E_SHENTSIZE: u64 = Ehdr::PLACES.shentsize as u64;

    /// The place of `e_shnum` in it.
    pub const E_SHNUM: u64 = Ehdr::PLACES.shnum as u64;

    /// The place of `e_shstrndx` in it.
    pub const E_SHSTRNDX: u64 = Ehdr::PLACES.shstrndx as u64;

    /// The file header in the 64 bytes of `b` from `at` on.
    pub fn read(b: &[u8], at: usize) -> Self
        requires { at + Ehdr.SIZE ≤ length b.now }
        ensures { result ≡ ehdr_at b.now at }
    {
        ehdr_fields!(read_fields!(Ehdr, b, at))
    }

    /// Writes the 64 bytes of `b` from `at` on, and leaves all other bytes.
    pub fn write(&self, b: &mut [u8], at: usize)
        requires { at + Ehdr.SIZE ≤ length b.old }
        ensures reads { ehdr_at b.new at ≡ self.now }
        ensures rest { ChangesWithin b.old b.new at Ehdr.SIZE }
    {
        ehdr_fields!(write_fields!(self, b, at));
    }
}

/// A section header, the gABI's `Elf64_Shdr`: 64 bytes.
#[derive(Clone, Copy, PartialEq, Eq, Debug)]
pub struct Shdr {
    /// `sh_name`: the place of its name in the string table.
    pub name: u32,
    /// `sh_type`.
    pub kind: u32,
    /// `sh_flags`.
    pub flags: u64,
    /// `sh_addr`: its address, 0 in a relocatable file.
    pub addr: u64,
    /// `sh_offset`: the place of its bytes in the file.
    pub offset: u64,
    /// `sh_size`, in bytes.
    pub size: u64,
    /// `sh_link`: another section, by `kind`.
    pub link: u32,
    /// `sh_info`: by `kind`.
    pub info: u32,
    /// `sh_addralign`, in bytes.
    pub addralign: u64,
    /// `sh_entsize`: the bytes of an entry, where it is a table.
    pub entsize: u64,
}

impl Shdr {
    ghost use Rattle.kl_elf.specs.Records.{shdr_at};

    /// Its size in bytes.
    pub const SIZE: usize = 64;

    /// The record whose fields are their own places.
    const PLACES: Shdr = shdr_fields!(place_fields!(Shdr));

    /// The place of `sh_type` in it.
    pub const SH_TYPE: u64 = Shdr::PLACES.kind as u64;

    /// The place of `sh_flags` in it.
    pub const SH_FLAGS: u64 = Shdr::PLACES.flags as u64;

    /// The place of `sh_offset` in it.
    pub const SH_OFFSET: u64 = Shdr::PLACES.offset as u64;

    /// The place of `sh_size` in it.
    pub const SH_SIZE: u64 = Shdr::PLACES.size as u64;

    /// The place of `sh_link` in it.
    pub const SH_LINK: u64 = Shdr::PLACES.link as u64;

    /// The place of `sh_info` in it.
    pub const SH_INFO: u64 = Shdr::PLACES.info as u64;

    /// The place of `sh_addralign` in it.
    pub const SH_ADDRALIGN: u64 = Shdr::PLACES.addralign as u64;

    /// The place of `sh_entsize` in it.
    pub const SH_ENTSIZE: u64 = Shdr::PLACES.entsize as u64;

    /// The section header in the 64 bytes of `b` from `at` on.
    pub fn read(b: &[u8], at: usize) -> Self
        requires { at + Shdr.SIZE ≤ length b.now }
        ensures { result ≡ shdr_at b.now at }
    {
        shdr_fields!(read_fields!(Shdr, b, at))
    }

    /// Writes the 64 bytes of `b` from `at` on, and leaves all other bytes.
    pub fn write(&self, b: &mut [u8], at: usize)
        requires { at + Shdr.SIZE ≤ length b.old }
        ensures reads { shdr_at b.new at ≡ self.now }
        ensures rest { ChangesWithin b.old b.new at Shdr.SIZE }
    {
        shdr_fields!(write_fields!(self, b, at));
    }
}

/// A symbol, the gABI's `Elf64_Sym`: 24 bytes.
#[derive(Clone, Copy, PartialEq, Eq, Debug)]
pub struct Sym {
    /// `st_name`: the place of its name in the string table.
    pub name: u32,
    /// `st_info`: the binding, times 16, and the kind.
    pub info: u8,
    /// `st_other`: the visibility, modulo 4.
    pub other: u8,
    /// `st_shndx`: its section.
    pub shndx: u16,
    /// `st_value`: its place in the section, or its address.
    pub value: u64,
    /// `st_size`, in bytes.
    pub size: u64,
}

impl Sym {
    ghost use Rattle.kl_elf.specs.Records.{sym_at};

    /// Its size in bytes.
    pub const SIZE: usize = 24;

    /// The record whose fields are their own places.
    const PLACES: Sym = sym_fields!(place_fields!(Sym));

    /// The place of `st_info` in it.
    pub const ST_INFO: u64 = Sym::PLACES.info as u64;

    /// The place of `st_shndx` in it.
    pub const ST_SHNDX: u64 = Sym::PLACES.shndx as u64;

    /// The place of `st_value` in it.
    pub const ST_VALUE: u64 = Sym::PLACES.value as u64;

    /// The place of `st_size` in it.
    pub const ST_SIZE: u64 = Sym::PLACES.size as u64;

    /// The symbol in the 24 bytes of `b` from `at` on.
    pub fn read(b: &[u8], at: usize) -> Self
        requires { at + Sym.SIZE ≤ length b.now }
        ensures { result ≡ sym_at b.now at }
    {
        sym_fields!(read_fields!(Sym, b, at))
    }

    /// Writes the 24 bytes of `b` from `at` on, and leaves all other bytes.
    pub fn write(&self, b: &mut [u8], at: usize)
        requires { at + Sym.SIZE ≤ length b.old }
        ensures reads { sym_at b.new at ≡ self.now }
        ensures rest { ChangesWithin b.old b.new at Sym.SIZE }
    {
        sym_fields!(write_fields!(self, b, at));
    }
}

/// A relocation entry, the gABI's `Elf64_Rela`: 24 bytes.
#[derive(Clone, Copy, PartialEq, Eq, Debug)]
pub struct Rela {
    /// `r_offset`: the place of the field.
    pub offset: u64,
    /// `r_info`: the symbol's number, times 2^32, and the kind.
    pub info: u64,
    /// `r_addend`.
    pub addend: i64,
}

impl Rela {
    ghost use Rattle.kl_elf.specs.Records.{rela_at};

    /// Its size in bytes.
    pub const SIZE: usize = 24;

    /// The record whose fields are their own places.
    const PLACES: Rela = rela_fields!(place_fields!(Rela));

    /// The place of `r_info` in it.
    pub const R_INFO: u64 = Rela::PLACES.info as u64;

    /// The relocation entry in the 24 bytes of `b` from `at` on.
    pub fn read(b: &[u8], at: usize) -> Self
        requires { at + Rela.SIZE ≤ length b.now }
        ensures { result ≡ rela_at b.now at }
    {
        rela_fields!(read_fields!(Rela, b, at))
    }

    /// Writes the 24 bytes of `b` from `at` on, and leaves all other bytes.
    pub fn write(&self, b: &mut [u8], at: usize)
        requires { at + Rela.SIZE ≤ length b.old }
        ensures reads { rela_at b.new at ≡ self.now }
        ensures rest { ChangesWithin b.old b.new at Rela.SIZE }
    {
        rela_fields!(write_fields!(self, b, at));
    }
}

/// A program header, the gABI's `Elf64_Phdr`: 56 bytes.
#[derive(Clone, Copy, PartialEq, Eq, Debug)]
pub struct Phdr {
    /// `p_type`.
    pub kind: u32,
    /// `p_flags`: execute 1, write 2, read 4.
    pub flags: u32,
    /// `p_offset`: the place of its bytes in the file.
    pub offset: u64,
    /// `p_vaddr`: its address in memory.
    pub vaddr: u64,
    /// `p_paddr`: its physical address.
    pub paddr: u64,
    /// `p_filesz`: its bytes in the file.
    pub filesz: u64,
    /// `p_memsz`: its bytes in memory.
    pub memsz: u64,
    /// `p_align`, in bytes.
    pub align: u64,
}

impl Phdr {
    ghost use Rattle.kl_elf.specs.Records.{phdr_at};

    /// Its size in bytes.
    pub const SIZE: usize = 56;

    /// The program header in the 56 bytes of `b` from `at` on.
    pub fn read(b: &[u8], at: usize) -> Self
        requires { at + Phdr.SIZE ≤ length b.now }
        ensures { result ≡ phdr_at b.now at }
    {
        phdr_fields!(read_fields!(Phdr, b, at))
    }

    /// Writes the 56 bytes of `b` from `at` on, and leaves all other bytes.
    pub fn write(&self, b: &mut [u8], at: usize)
        requires { at + Phdr.SIZE ≤ length b.old }
        ensures reads { phdr_at b.new at ≡ self.now }
        ensures rest { ChangesWithin b.old b.new at Phdr.SIZE }
    {
        phdr_fields!(write_fields!(self, b, at));
    }
}

/// An entry of the dynamic section, the gABI's `Elf64_Dyn`: 16 bytes.
#[derive(Clone, Copy, PartialEq, Eq, Debug)]
pub struct Dyn {
    /// `d_tag`.
    pub tag: u64,
    /// `d_val` or `d_ptr`.
    pub value: u64,
}

impl Dyn {
    ghost use Rattle.kl_elf.specs.Records.{dyn_at};

    /// Its size in bytes.
    pub const SIZE: usize = 16;

    /// The dynamic entry in the 16 bytes of `b` from `at` on.
    pub fn read(b: &[u8], at: usize) -> Self
        requires { at + Dyn.SIZE ≤ length b.now }
        ensures { result ≡ dyn_at b.now at }
    {
        dyn_fields!(read_fields!(Dyn, b, at))
    }

    /// Writes the 16 bytes of `b` from `at` on, and leaves all other bytes.
    pub fn write(&self, b: &mut [u8], at: usize)
        requires { at + Dyn.SIZE ≤ length b.old }
        ensures reads { dyn_at b.new at ≡ self.now }
        ensures rest { ChangesWithin b.old b.new at Dyn.SIZE }
    {
        dyn_fields!(write_fields!(self, b, at));
    }
}
