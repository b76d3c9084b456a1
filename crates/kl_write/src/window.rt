// Parts of a file, written into a window of it.
ghost use Rattle.std.specs.Prelude.{◌+◌, ℕ, ◌≡◌, ◌<◌, ◌≤◌, ◌^◌, ◌∷◌, [], length, slice_index};
ghost use Rattle.kl_le.specs.Bytes.{ChangesWithin, Within};
ghost use Rattle.kl_write.specs.Windows.{Shows, number_from, padded_from, same_from, text_from};

use kl_le::put_bytes;

/// Writes those bytes of a part of the file that lie in the window `out`. The part stands from `place` on in the file, the
/// window from `at` on. All other bytes of the window stay.
pub fn put_window(out: &mut [u8], at: usize, place: usize, bytes: &[u8])
    requires part { place + length bytes.now < 2 ^ 63 }
    requires window { at + length out.old < 2 ^ 63 }
    ensures { Shows out.old out.new at (text_from place bytes.now ∷ []) }
{
    let from = place.max(at);
    let to = (place + bytes.len()).min(at + out.len());
    if from < to {
        put_bytes(out, from - at, &bytes[from - place..to - place]);
    }
}

/// Writes one byte `count` times from a place on, and leaves all other bytes.
fn fill_range(out: &mut [u8], from: usize, count: usize, byte: u8)
    requires room { from + count ≤ length out.old }
    ensures long { length out.new ≡ length out.old }
    ensures inside { (k : ℕ) → Within from count k → slice_index out.new k ≡ byte }
    ensures rest { ChangesWithin out.old out.new from count }
{
    out[from..from + count].fill(byte);
}

/// The same of `count` equal bytes.
pub fn fill_window(out: &mut [u8], at: usize, place: usize, count: usize, byte: u8)
    requires part { place + count < 2 ^ 63 }
    requires window { at + length out.old < 2 ^ 63 }
    ensures { Shows out.old out.new at (same_from place count byte ∷ []) }
{
    let from = place.max(at);
    let to = (place + count).min(at + out.len());
    if from < to {
        fill_range(out, from - at, to - from, byte);
    }
}

/// The same of a text with zeros behind it, `count` bytes in all.
pub fn put_padded(out: &mut [u8], at: usize, place: usize, count: usize, bytes: &[u8])
    requires room { length bytes.now ≤ count }
    requires part { place + count < 2 ^ 63 }
    requires window { at + length out.old < 2 ^ 63 }
    ensures { Shows out.old out.new at (padded_from place count bytes.now ∷ []) }
{
    put_window(out, at, place, bytes);
    fill_window(out, at, place + bytes.len(), count - bytes.len(), 0);
}

/// The same of the low bytes of a number, the lowest first.
pub fn put_number(out: &mut [u8], at: usize, place: usize, width: usize, value: u64)
    requires width { width ≤ 8 }
    requires part { place + width < 2 ^ 63 }
    requires window { at + length out.old < 2 ^ 63 }
    ensures { Shows out.old out.new at (number_from place width value ∷ []) }
{
    put_window(out, at, place, &value.to_le_bytes()[..width]);
}
