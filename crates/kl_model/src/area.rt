//! The areas of an image, by number. The `run` lines of a kit are numbered behind them.
ghost use Rattle.std.specs.Prelude.{◌≡◌, ◌==◌, ◌&&◌, not, find, length};
ghost use Rattle.std.specs.Option.{option_copied, option_map};
ghost use Rattle.std.specs.Str.{bytes_eq};
ghost use Rattle.kl_model.specs.Areas.{class_number, is_made, may_have_edge, map_name, named_area, same_class, typed_area};

use kl_base::Class;
use kl_elf::abi::{SHT_FINI_ARRAY, SHT_INIT_ARRAY, SHT_NULL};

/// The number of the class text, as that of the area of its ordinary pieces.
pub const TEXT: u32 = 0;

/// The number of the class rodata.
pub const RODATA: u32 = 1;

/// The number of the class data.
pub const RWDATA: u32 = 2;

/// The number of the class bss.
pub const BSS: u32 = 3;

/// The number of the area `init`.
pub const INIT: u32 = 4;

/// The number of the area `fini`.
pub const FINI: u32 = 5;

/// The number of the area of stubs.
pub const STUBS: u32 = 6;

/// The number of the area `eh_frame`.
pub const EH_FRAME: u32 = 7;

/// The number of the area of a library's tables.
pub const TABLES: u32 = 8;

/// The number of the area `ctors`.
pub const CTORS: u32 = 9;

/// The number of the area `dtors`.
pub const DTORS: u32 = 10;

/// The number of the area `init_array`.
pub const INIT_ARRAY: u32 = 11;

/// The number of the area `fini_array`.
pub const FINI_ARRAY: u32 = 12;

/// The number of the global offset table.
pub const GOT: u32 = 13;

/// The number of the area of a library's dynamic entries.
pub const DYNAMIC: u32 = 14;

/// The number of the area of the first `run` line.
pub const FIRST_RUN: u32 = 15;

/// The instruction `int3`, by which text is padded.
pub const INT3: u8 = 0xcc;

/// The instruction `nop`, by which the areas `init` and `fini` are padded.
pub const NOP: u8 = 0x90;

/// The instruction `jmp` through the eight bytes at a distance of four bytes from its end, as its first two bytes.
pub const JUMP: u16 = 0x25ff;

/// An area that each image has.
#[derive(Clone, Copy, Debug, PartialEq, Eq)]
pub struct AreaForm {
    /// Its number.
    pub number: u32,
    /// Its name in the map.
    pub name: &'static [u8],
    /// The name of the sections whose pieces stand in it, or nothing.
    pub section: &'static [u8],
    /// The type of the sections whose pieces stand in it, or `SHT_NULL`.
    pub section_type: u32,
    /// The class in which it stands, the global offset table in a kernel.
    pub class: Class,
    /// Whether an `edge` line may name it.
    pub edge: bool,
    /// Whether the linker makes its bytes.
    pub made: bool,
}

/// The rows of a table: number, name in the map, section name, section type, class, whether an edge may name it, and whether the
/// linker makes it.
macro_rules! areas {
    ($($number:ident $name:literal $section:literal $kind:ident $class:ident $edge:literal $made:literal),*) => {
        [$(AreaForm {
            number: $number,
            name: $name,
            section: $section,
            section_type: $kind,
            class: Class::$class,
            edge: $edge,
            made: $made,
        }),*]
    };
}

/// All areas but the runs, by number.
pub const AREAS: [AreaForm; 15] = areas![
    TEXT b"text" b"" SHT_NULL Text true false,
    RODATA b"rodata" b"" SHT_NULL Rodata true false,
    RWDATA b"data" b"" SHT_NULL Rwdata true false,
    BSS b"bss" b"" SHT_NULL Bss true false,
    INIT b"init" b".init" SHT_NULL Text true false,
    FINI b"fini" b".fini" SHT_NULL Text true false,
    STUBS b"stubs" b"" SHT_NULL Text false true,
    EH_FRAME b"eh_frame" b".eh_frame" SHT_NULL Rodata true false,
    TABLES b"tables" b"" SHT_NULL Rodata false true,
    CTORS b"ctors" b".ctors" SHT_NULL Rwdata true false,
    DTORS b"dtors" b".dtors" SHT_NULL Rwdata true false,
    INIT_ARRAY b"init_array" b".init_array" SHT_INIT_ARRAY Rwdata true false,
    FINI_ARRAY b"fini_array" b".fini_array" SHT_FINI_ARRAY Rwdata true false,
    GOT b"got" b"" SHT_NULL Rodata true true,
    DYNAMIC b"dynamic" b"" SHT_NULL Rwdata true true
];

/// The name in the map of the area of a number; `None` for a run.
pub fn map_name(number: usize) -> Option<&'static [u8]>
    ensures { option_map (λ n. n.now) result ≡ map_name number }
{
    AREAS.get(number).map(|area| area.name)
}

/// The number of the area in which the sections of a class and a name stand; `None` where the name gives none.
pub fn named_area(class: Class, name: &[u8]) -> Option<u32>
    ensures { result ≡ named_area class name.now }
{
    match named_row(&AREAS, class, name) {
        Some(row) => Some(row.number),
        None => None,
    }
}

/// The row of a class and a section name.
fn named_row<'a>(rows: &'a [AreaForm], class: Class, name: &[u8]) -> Option<&'a AreaForm>
    ensures { option_copied result ≡ find (λ row. same_class row.class class && (not (length row.section.now == 0) && bytes_eq name.now row.section.now)) rows.now }
{
    rows.iter().find(|row| {
        class_number(row.class) == class_number(class)
            && !row.section.is_empty()
            && name == row.section
    })
}

/// The number of the area in which the sections of a class and a type (`SHT_*`) stand; `None` where the type gives none.
pub fn typed_area(class: Class, kind: u32) -> Option<u32>
    ensures { result ≡ typed_area class kind }
{
    match typed_row(&AREAS, class, kind) {
        Some(row) => Some(row.number),
        None => None,
    }
}

/// The row of a class and a section type.
fn typed_row(rows: &[AreaForm], class: Class, kind: u32) -> Option<&AreaForm>
    ensures { option_copied result ≡ find (λ row. same_class row.class class && (not (row.section_type == SHT_NULL) && (row.section_type == kind))) rows.now }
{
    rows.iter().find(|row| {
        class_number(row.class) == class_number(class)
            && row.section_type != SHT_NULL
            && row.section_type == kind
    })
}

/// Whether an `edge` line may name the area of a number.
pub fn may_have_edge(number: usize) -> bool
    ensures { result ≡ may_have_edge number }
{
    AREAS.get(number).is_some_and(|area| area.edge)
}

/// Whether the linker makes the bytes of the area of a number.
pub fn is_made(number: usize) -> bool
    ensures { result ≡ is_made number }
{
    AREAS.get(number).is_some_and(|area| area.made)
}

/// The number of a class, which is that of the area of its ordinary pieces.
pub fn class_number(class: Class) -> u32
    ensures { result ≡ class_number class }
{
    match class {
        Class::Text => TEXT,
        Class::Rodata => RODATA,
        Class::Rwdata => RWDATA,
        Class::Bss => BSS,
    }
}
