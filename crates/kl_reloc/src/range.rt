// The numbers that fields can hold.
ghost use Rattle.std.specs.Prelude.{◌≡◌, ◌*◌, ◌<◌, ◌≤◌};
ghost use Rattle.kl_model.specs.Relocations.{is_in, is_signed, is_unsigned};
ghost use Rattle.kl_reloc.specs.Rows.{IsNarrow};

use kl_model::ValueRange;

/// Whether a number modulo 2^64 is one of `bits` bits without a sign.
fn is_unsigned(value: u64, bits: u64) -> bool
    requires { bits < 64 }
    ensures { result ≡ is_unsigned value bits }
{
    value < 1 << bits
}

/// Whether a number modulo 2^64 is one of `bits` bits with a sign.
fn is_signed(value: u64, bits: u64) -> bool
    requires low { 1 ≤ bits }
    requires high { bits ≤ 64 }
    ensures { result ≡ is_signed value bits }
{
    let half = 1 << (bits - 1);
    value < half || value >= u64::MAX - half + 1
}

/// Whether a field of `width` bytes with this range can hold a number modulo 2^64.
pub fn fits(range: ValueRange, value: u64, width: u64) -> bool
    requires { IsNarrow range width }
    ensures { result ≡ is_in range value (8 * width) }
{
    match range {
        ValueRange::Any => true,
        ValueRange::Unsigned => is_unsigned(value, 8 * width),
        ValueRange::Signed => is_signed(value, 8 * width),
        ValueRange::Either => is_unsigned(value, 8 * width) || is_signed(value, 8 * width),
    }
}
