// The relocation types that are linked.
ghost use Rattle.std.specs.Prelude.{◌≡◌, ◌==◌, find};
ghost use Rattle.std.specs.Option.{option_copied};
ghost use Rattle.kl_model.specs.Relocations.{is_kind, relocation_type, width};

use kl_elf::abi::{
    R_X86_64_8, R_X86_64_16, R_X86_64_32, R_X86_64_32S, R_X86_64_64, R_X86_64_GOTPCREL,
    R_X86_64_GOTPCRELX, R_X86_64_NONE, R_X86_64_PC8, R_X86_64_PC16, R_X86_64_PC32, R_X86_64_PC64,
    R_X86_64_PLT32, R_X86_64_REX_GOTPCRELX,
};

/// Which numbers modulo 2^64 a field can hold.
#[derive(Clone, Copy, Debug, PartialEq, Eq)]
pub enum ValueRange {
    /// Any.
    Any,
    /// Those of its width without a sign.
    Unsigned,
    /// Those of its width with a sign.
    Signed,
    /// Those of its width with or without a sign.
    Either,
}

/// A relocation type (psABI, "Relocation Types").
#[derive(Clone, Copy, Debug, PartialEq, Eq)]
pub struct RelocationType {
    /// Its number, one of `R_X86_64_*`.
    pub number: u32,
    /// The width of its field, in bytes.
    pub width: u64,
    /// Whether the field's own address is subtracted (psABI, P).
    pub relative: bool,
    /// The values that the field can hold.
    pub range: ValueRange,
    /// Whether it leads to the target's slot in the global offset table (psABI, G + GOT).
    pub slot: bool,
}

/// The rows of a table: number, width, whether relative, range, and whether by a slot.
macro_rules! relocation_types {
    ($($number:ident $width:literal $relative:literal $range:ident $slot:literal),*) => {
        [$(RelocationType {
            number: $number,
            width: $width,
            relative: $relative,
            range: ValueRange::$range,
            slot: $slot,
        }),*]
    };
}

/// All relocation types that are linked. The range of `R_X86_64_16` and `R_X86_64_8` is this project's own; all others are the
/// psABI's. The types of a slot are never relaxed.
pub const RELOCATION_TYPES: [RelocationType; 14] = relocation_types![
    R_X86_64_NONE 0 false Any false,
    R_X86_64_64 8 false Any false,
    R_X86_64_PC32 4 true Signed false,
    R_X86_64_PLT32 4 true Signed false,
    R_X86_64_GOTPCREL 4 true Signed true,
    R_X86_64_32 4 false Unsigned false,
    R_X86_64_32S 4 false Signed false,
    R_X86_64_16 2 false Either false,
    R_X86_64_PC16 2 true Signed false,
    R_X86_64_8 1 false Either false,
    R_X86_64_PC8 1 true Signed false,
    R_X86_64_PC64 8 true Any false,
    R_X86_64_GOTPCRELX 4 true Signed true,
    R_X86_64_REX_GOTPCRELX 4 true Signed true
];

/// The relocation type of this number, where it is one that is linked.
pub fn relocation_type(number: u32) -> Option<RelocationType>
    ensures { result ≡ relocation_type number }
{
    row_of(&RELOCATION_TYPES, number).copied()
}

/// The row of a number.
fn row_of(rows: &[RelocationType], number: u32) -> Option<&RelocationType>
    ensures { option_copied result ≡ find (λ row. row.number == number) rows.now }
{
    rows.iter().find(|row| row.number == number)
}

/// Whether the relocation type of this number is linked.
pub fn is_linked(number: u32) -> bool
    ensures { result ≡ is_kind number }
{
    relocation_type(number).is_some()
}

/// The width of a field of the relocation type of this number, in bytes: 0 where it isn't linked.
pub fn width(number: u32) -> u64
    ensures { result ≡ width number }
{
    match relocation_type(number) {
        Some(row) => row.width,
        None => 0,
    }
}
