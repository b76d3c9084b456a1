// The bytes of a stub.
ghost use Rattle.std.specs.Prelude.{◌≡◌, ◌+◌, ◌<◌};
ghost use Rattle.kl_le.specs.Bytes.{num};
ghost use Rattle.kl_model.specs.Reaches.{plus, signed_4};
ghost use Rattle.kl_model.specs.Tables.{stub_code};

use kl_base::SIZE_LIMIT;
use kl_model::area::{INT3, JUMP};

/// How many bytes the jump of a stub has, up to the place from which its distance is counted.
pub const JUMP_SIZE: u64 = 6;

/// The bytes of the stub at the address `stub`: a jump through the slot at the address `slot`, and padding (psABI, "Procedure Linkage
/// Table").
pub fn stub_bytes(stub: u64, slot: u64) -> [u8; 16]
    requires above { slot < stub + SIZE_LIMIT }
    requires below { stub < slot + SIZE_LIMIT }
    ensures code { result ≡ stub_code stub slot }
    ensures leads { plus (plus stub JUMP_SIZE) (signed_4 (num result 2 4)) ≡ slot }
{
    let [first, second] = JUMP.to_le_bytes();
    let [d0, d1, d2, d3, ..] = slot
        .wrapping_sub(stub)
        .wrapping_sub(JUMP_SIZE)
        .to_le_bytes();
    let mut bytes = [INT3; 16];
    bytes[0] = first;
    bytes[1] = second;
    bytes[2] = d0;
    bytes[3] = d1;
    bytes[4] = d2;
    bytes[5] = d3;
    bytes
}
