// What stands in a field, and writing it.
ghost use Rattle.std.specs.Prelude.{◌≡◌, ◌+◌, ◌≤◌, ◌%◌, ◌^◌, Some, IfOk, IsTrue, OnErr, OnOk, false, length};
ghost use Rattle.kl_le.specs.Bytes.{ChangesWithin, num};
ghost use Rattle.kl_model.specs.Reaches.{value};
ghost use Rattle.kl_model.specs.Relocations.{in_range, is_kind, relocation_type, width};
ghost use Rattle.kl_reloc.specs.Rows.{is_field_width};

use crate::range::fits;
use kl_elf::abi::R_X86_64_NONE;
use kl_le::put;
use kl_model::{RelocationType, relocation_type};

/// What stands in a field: the low bytes of a number.
#[derive(Clone, Copy, Debug, PartialEq, Eq)]
pub struct Patch {
    /// The number, modulo 2^64.
    pub value: u64,
    /// How many bytes of it stand in the field: 0, 1, 2, 4 or 8.
    pub width: u8,
}

/// A value is out of the range of its relocation type.
#[derive(Clone, Copy, Debug, PartialEq, Eq)]
pub struct RangeFault;

/// The row of a relocation type.
fn row_of(kind: u8) -> RelocationType
    requires { IsTrue (is_kind kind) }
    ensures { relocation_type kind ≡ Some result }
{
    let Some(row) = relocation_type(u32::from(kind)) else {
        unreachable!();
    };
    row
}

/// The value of a relocation type's formula: S + A, or S + A - P, modulo 2^64.
fn formula(kind: u8, row: RelocationType, s: u64, a: i64, p: u64) -> u64
    requires { relocation_type kind ≡ Some row }
    ensures { result ≡ value kind s a p }
{
    let sum = s.wrapping_add(a.cast_unsigned());
    if u32::from(kind) == R_X86_64_NONE {
        0
    } else if row.relative {
        sum.wrapping_sub(p)
    } else {
        sum
    }
}

/// What stands in a field of the relocation type `kind` (`R_X86_64_*`), with the psABI's S, A and P, modulo 2^64. S is the address of
/// the target; for `PLT32` it is L, the address of the stub if there is one, and for the types of a slot that of the slot. The types
/// `GOTPCRELX` and `REX_GOTPCRELX` are never relaxed.
///
/// # Errors
///
/// `RangeFault` where the value is out of the type's range.
pub fn value_of(kind: u8, s: u64, a: i64, p: u64) -> Result<Patch, RangeFault>
    requires { IsTrue (is_kind kind) }
    ensures value { IfOk result (λ t. t.value ≡ value kind s a p) }
    ensures width { IfOk result (λ t. t.width ≡ width kind) }
    ensures room { IfOk result (λ t. IsTrue (is_field_width t.width)) }
    ensures in_range { OnOk result (IsTrue (in_range kind (value kind s a p))) }
    ensures out_of_range { OnErr result (in_range kind (value kind s a p) ≡ false) }
{
    let row = row_of(kind);
    let value = formula(kind, row, s, a, p);
    if fits(row.range, value, row.width) {
        Ok(Patch {
            value,
            width: row.width as u8,
        })
    } else {
        Err(RangeFault)
    }
}

/// Writes the low bytes of a patch's value into its `width` bytes from `offset` on, little-endian, and leaves all other bytes.
pub fn apply(bytes: &mut [u8], offset: usize, patch: &Patch)
    requires width { IsTrue (is_field_width patch.now.width) }
    requires room { offset + patch.now.width ≤ length bytes.old }
    ensures number { num bytes.new offset patch.now.width ≡ patch.now.value % 256 ^ patch.now.width }
    ensures rest { ChangesWithin bytes.old bytes.new offset patch.now.width }
{
    match patch.width {
        0 => {}
        1 => put::<1>(bytes, offset, patch.value & u64::from(u8::MAX)),
        2 => put::<2>(bytes, offset, patch.value & u64::from(u16::MAX)),
        4 => put::<4>(bytes, offset, patch.value & u64::from(u32::MAX)),
        _ => put::<8>(bytes, offset, patch.value),
    }
}
