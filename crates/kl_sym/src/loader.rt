// The faults of a field of a library, whose base the loader chooses.
ghost use Rattle.std.specs.Prelude.{◌≡◌, Some, Ok, [], slice_get, MatchOption};
ghost use Rattle.kl_model.specs.Faults.{loader_faults};
ghost use Rattle.kl_model.specs.Relocations.{relocation_type};
ghost use Rattle.kl_model.specs.Slots.{is_moving, is_name, is_number};
ghost use Rattle.kl_model.specs.Slots.{is_not_fixed as is_not_fixed_of};
ghost use Rattle.kl_model.specs.Slots.{is_read_only as is_read_only_of};

use kl_base::Class;
use kl_elf::abi::{R_X86_64_64, R_X86_64_PLT32};
use kl_model::{FieldAt, KitKind, LinkFault, RelocationType, Target};

/// Whether a target moves with the base.
fn is_moving(target: Target) -> bool
    ensures { result ≡ is_moving target }
{
    matches!(target, Target::Place { .. } | Target::Edge { .. })
}

/// Whether a target is a dynamic name.
fn is_name(target: Target) -> bool
    ensures { result ≡ is_name target }
{
    matches!(target, Target::Name(_))
}

/// Whether a target is a number.
fn is_number(target: Target) -> bool
    ensures { result ≡ is_number target }
{
    matches!(target, Target::Abs(_) | Target::Zero)
}

/// Whether the value of a field of this type depends on the base, and no entry for the loader fits it.
fn is_not_fixed(kind: &RelocationType, target: Target) -> bool
    requires { relocation_type kind.now.number ≡ Some kind.now }
    ensures { result ≡ is_not_fixed_of kind.now.number target }
{
    if kind.slot {
        false
    } else if kind.relative {
        is_number(target) || is_name(target) && kind.number != R_X86_64_PLT32
    } else {
        kind.width != 8 && kind.width != 0 && (is_moving(target) || is_name(target))
    }
}

/// Whether the loader would have to write a field of this type outside data.
fn is_read_only(class: Class, kind: &RelocationType, target: Target) -> bool
    ensures { result ≡ is_read_only_of class kind.now.number target }
{
    kind.number == R_X86_64_64 && (is_moving(target) || is_name(target)) && class != Class::Rwdata
}

/// The first fault of a field in a section of this class, which leads to this target: in a library `NotFixed`, then `ReadOnlyField`.
pub fn loader_fault(
    kit: KitKind,
    from: FieldAt,
    class: Class,
    kind: &RelocationType,
    target: Target,
) -> Option<LinkFault>
    requires { relocation_type kind.now.number ≡ Some kind.now }
    ensures { MatchOption result (loader_faults kit from class kind.now.number (Ok target) ≡ []) (λ e. slice_get (loader_faults kit from class kind.now.number (Ok target)) 0 ≡ Some e) }
{
    if kit == KitKind::Kernel {
        None
    } else if is_not_fixed(kind, target) {
        Some(LinkFault::NotFixed { from })
    } else if is_read_only(class, kind, target) {
        Some(LinkFault::ReadOnlyField { from })
    } else {
        None
    }
}
