// The record of the kernel's digest.
ghost use Rattle.std.specs.Prelude.{◌≡◌, ◌≤◌, ◌+◌, ◌==◌, ◌||◌, ℕ, List, length, take, drop, true, false, None, Some, Ok, IfOk, IfErr, OnOk, OnErr};
ghost use Rattle.hex.specs.Hex.{is_hex_digit, decode_of};
ghost use Rattle.kl_digest.specs.Records.{record_prefix, record_of, IsRecord, record_fault, text_place, digit_place, is_end, content_fault};
ghost use Rattle.kl_digest.specs.RecordFaults.{IsFirstFault};

/// Why bytes are no record. Of several the first of these is answered.
#[derive(Clone, Copy, Debug, PartialEq, Eq)]
pub enum RecordFault {
    /// There are neither 80 nor 81 bytes, but `found`.
    Length { found: u64 },
    /// The byte at `place` is the first of the first 16 that differs from `SHA256 (/bsd) = `.
    Text { place: u32 },
    /// The byte at `place` is the first of the 64 behind them that is no hexadecimal digit.
    Digit { place: u32 },
    /// The last of 81 bytes isn't a newline.
    End,
}

// What stands before the digits.
const PREFIX: &[u8; 16] = b"SHA256 (/bsd) = ";

/// The record of the digest: `SHA256 (/bsd) = `, 64 lower-case digits and a newline.
pub fn record_text(digest: &[u8; 32]) -> [u8; 81]
    ensures { result ≡ record_of digest.now }
{
    let mut text = [b'\n'; 81];
    text[..16].copy_from_slice(PREFIX);
    hex::encode_to_slice(digest, &mut text[16..80]).unwrap();
    text
}

/// The digest of a record, whose digits may be of either case, and which may lack the newline.
pub fn read_record(bytes: &[u8]) -> Result<[u8; 32], RecordFault>
    ensures ok { IfOk result (λ digest. IsRecord digest bytes.now) }
    ensures none { OnOk result (record_fault bytes.now ≡ None) }
    ensures fault { IfErr result (λ f. record_fault bytes.now ≡ Some f) }

    // What stands before the fault is right.
    ensures first { IfErr result (IsFirstFault bytes.now) }

    // No record is refused, and each has one digest.
    ensures refused { OnErr result ((digest : List ℕ) → ¬ IsRecord digest bytes.now) }
    ensures only { IfOk result (λ digest. (other : List ℕ) → IsRecord other bytes.now → digest ≡ other) }
{
    match fault_of(bytes) {
        Some(fault) => Err(fault),
        None => Ok(digest_of(&bytes[16..80])),
    }
}

// The first fault that stands in the bytes.
fn fault_of(bytes: &[u8]) -> Option<RecordFault>
    ensures { result ≡ record_fault bytes.now }
{
    if !has_size(bytes.len()) {
        return Some(RecordFault::Length {
            found: bytes.len() as u64,
        });
    }
    content_fault_of(bytes)
}

// Whether a record has so many bytes.
fn has_size(count: usize) -> bool
    ensures { result ≡ (count == 80 || count == 81) }
{
    count == 80 || count == 81
}

// The first fault that stands behind the number of bytes.
fn content_fault_of(bytes: &[u8]) -> Option<RecordFault>
    requires { 80 ≤ length bytes.now }
    ensures { result ≡ content_fault bytes.now }
{
    if let Some(place) = wrong_text(bytes) {
        return Some(RecordFault::Text { place });
    }
    if let Some(place) = wrong_digit(&bytes[16..80]) {
        return Some(RecordFault::Digit { place });
    }
    if !ends_well(&bytes[80..]) {
        return Some(RecordFault::End);
    }
    None
}

// Whether what follows the digits is nothing or a newline.
fn ends_well(rest: &[u8]) -> bool
    ensures { result ≡ is_end rest.now }
{
    match rest {
        [] => true,
        [byte, ..] => *byte == b'\n',
    }
}

// The first place where the bytes don't begin as a record does.
fn wrong_text(bytes: &[u8]) -> Option<u32>
    requires { 16 ≤ length bytes.now }
    ensures { result ≡ text_place record_prefix bytes.now 0 }
{
    for place in 0..16 {
        if PREFIX[place] != bytes[place] {
            return Some(place as u32);
        }
    }
    None
}

// The first of the 64 digits that is none, by its place in the record.
fn wrong_digit(digits: &[u8]) -> Option<u32>
    requires { length digits.now ≡ 64 }
    ensures { result ≡ digit_place digits.now 16 }
{
    for place in 0..64 {
        if !digits[place].is_ascii_hexdigit() {
            return Some(place as u32 + 16);
        }
    }
    None
}

// The value of 64 digits.
fn digest_of(digits: &[u8]) -> [u8; 32]
    requires count { length digits.now ≡ 64 }
    requires each { digit_place digits.now 16 ≡ None }
    ensures { decode_of digits.now ≡ Ok result }
{
    let mut digest = [0; 32];
    hex::decode_to_slice(digits, &mut digest).unwrap();
    digest
}
