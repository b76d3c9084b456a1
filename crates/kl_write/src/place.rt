// Where addresses stand in the file of an image.
ghost use Rattle.std.specs.Prelude.{◌≡◌, ◌≤◌, ◌+◌};
ghost use Rattle.kl_base.specs.declared.limits.TheConstants.{SPAN_LIMIT};
ghost use Rattle.kl_model.specs.Laid.{unwrapped};
ghost use Rattle.kl_write.specs.Writes.{file_place as place_in_file, origin as origin_of};

use kl_base::PAGE;
use kl_model::{KitKind, Placement};

/// Where the base stands in the file: a `PAGE` from its start in a kernel, at its start in a library, whose headers are loaded.
fn origin(kind: KitKind) -> u64
    ensures { result ≡ origin_of kind }
{
    match kind {
        KitKind::Kernel => PAGE,
        KitKind::Library => 0,
    }
}

/// The place in the file of an address.
pub fn file_place(kind: KitKind, placement: &Placement, address: u64) -> usize
    requires { unwrapped placement.now address ≤ placement.now.base + SPAN_LIMIT }
    ensures { result ≡ place_in_file kind placement.now (unwrapped placement.now address) }
{
    (origin(kind) + address.wrapping_sub(placement.base)) as usize
}
