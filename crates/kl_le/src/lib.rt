//! Little-endian numbers in bytes, as the records of an ELF file hold them.
#![tactic(auto)]

ghost use Rattle.std.specs.Prelude.{◌≡◌, ◌+◌, ◌≤◌, ◌<◌, ◌^◌, length, take, drop, IsTrue};
ghost use Rattle.kl_le.specs.Bytes.{num, is_width, ChangesWithin};

use byteorder::{ByteOrder, LittleEndian};

/// The number in the `W` bytes of `b` from `at` on.
pub fn get<const W: usize>(b: &[u8], at: usize) -> u64
    requires width { IsTrue (is_width W) }
    requires room { at + W ≤ length b.now }
    ensures number { result ≡ num b.now at W }
    ensures fits { result < 256 ^ W }
{
    let field = &b[at..at + W];
    match W {
        1 => u64::from(field[0]),
        2 => u64::from(LittleEndian::read_u16(field)),
        4 => u64::from(LittleEndian::read_u32(field)),
        _ => LittleEndian::read_u64(field),
    }
}

/// Writes `v` into the `W` bytes of `b` from `at` on, and leaves all other bytes.
pub fn put<const W: usize>(b: &mut [u8], at: usize, v: u64)
    requires width { IsTrue (is_width W) }
    requires room { at + W ≤ length b.old }
    requires fits { v < 256 ^ W }
    ensures number { num b.new at W ≡ v }
    ensures rest { ChangesWithin b.old b.new at W }
{
    let field = &mut b[at..at + W];
    match W {
        1 => field[0] = v as u8,
        2 => LittleEndian::write_u16(field, v as u16),
        4 => LittleEndian::write_u32(field, v as u32),
        _ => LittleEndian::write_u64(field, v),
    }
}

/// Writes `bytes` into `b` from `at` on, and leaves all other bytes.
pub fn put_bytes(b: &mut [u8], at: usize, bytes: &[u8])
    requires { at + length bytes.now ≤ length b.old }
    ensures written { take (length bytes.now) (drop at b.new) ≡ bytes.now }
    ensures rest { ChangesWithin b.old b.new at (length bytes.now) }
{
    b[at..at + bytes.len()].copy_from_slice(bytes);
}

/// A view of `N` bytes.
#[derive(Clone, Copy, Debug)]
pub struct Fixed<'a, const N: usize> {
    pub bytes: &'a [u8],
    ghost len: { length bytes.now ≡ N },
}

impl<'a, const N: usize> Fixed<'a, N> {
    /// The `N` bytes of `b` from `place` on.
    pub fn at(b: &'a [u8], place: usize) -> Fixed<'a, N>
        requires { place + N ≤ length b.now }
        ensures { result.bytes.now ≡ take N (drop place b.now) }
    {
        Fixed {
            bytes: &b[place..place + N],
        }
    }

    /// A copy of the bytes.
    pub fn to_array(&self) -> [u8; N]
        ensures { result ≡ self.now.bytes.now }
    {
        let mut bytes = [0; N];
        bytes.copy_from_slice(self.bytes);
        bytes
    }
}
