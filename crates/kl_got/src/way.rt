// How fields lead to their targets.
ghost use Rattle.std.specs.Prelude.{◌≡◌};
ghost use Rattle.kl_model.specs.Relocations.{is_slot_kind};
ghost use Rattle.kl_model.specs.Slots.{takes_slot, way_of};
ghost use Rattle.kl_got.specs.Made.{stub_name};

use kl_elf::abi::R_X86_64_PLT32;
use kl_model::{Field, Target, relocation_type};

/// Whether a relocation type leads to its target's slot.
fn is_slot_kind(kind: u8) -> bool
    ensures { result ≡ is_slot_kind kind }
{
    match relocation_type(u32::from(kind)) {
        Some(row) => row.slot,
        None => false,
    }
}

/// The dynamic name whose stub a field takes, if it takes one.
pub fn stub_name(field: &Field) -> Option<u32>
    ensures { result ≡ stub_name field.now }
{
    match field.target {
        Target::Name(name) if u32::from(field.kind) == R_X86_64_PLT32 => Some(name),
        _ => None,
    }
}

/// Whether a field takes its target's slot, by itself or by a stub.
pub fn takes_slot(field: &Field) -> bool
    ensures { result ≡ takes_slot (way_of field.now) }
{
    match field.target {
        Target::Gone => false,
        Target::Name(_) if u32::from(field.kind) == R_X86_64_PLT32 => true,
        _ => is_slot_kind(field.kind),
    }
}
