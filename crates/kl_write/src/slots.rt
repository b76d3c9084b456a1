// The bytes of the global offset table.
ghost use Rattle.std.specs.Prelude.{ℕ, List, Option, ◌≡◌, ◌+◌, ◌*◌, ◌<◌, ◌≤◌, ◌^◌, ◌++◌, length, All, IfOk, OnOk};
ghost use Rattle.kl_model.specs.Slots.{is_moving as moves, slots as slots_of};
ghost use Rattle.kl_model.specs.Tables.{made_bytes, slot_value as value_of_slot};
ghost use Rattle.kl_model.specs.Written.{bytes_of};
ghost use Rattle.kl_model.specs.declared.area.TheConstants as area;
ghost use Rattle.kl_model.specs.declared.object.Input.{Input};
ghost use Rattle.kl_model.specs.declared.place.Gaps.{Gaps};
ghost use Rattle.kl_write.specs.LaidKits.{HasAreaAddresses, IsLaidKit};
ghost use Rattle.kl_write.specs.Slots.{values_bytes};
ghost use Rattle.kl_write.specs.Targets.{IsPlacedTarget};

use crate::address::address_of;
use kl_base::NoMemory;
use kl_model::{Graph, Kit, KitKind, Placement, Target};
use std::alloc::Global;

/// The size of a slot of the global offset table, in bytes (psABI).
pub const SLOT_SIZE: usize = 8;

/// Whether a target moves with the base.
fn is_moving(target: Target) -> bool
    ensures { result ≡ moves target }
{
    matches!(target, Target::Place { .. } | Target::Edge { .. })
}

/// What a slot holds in the file: the address of its target, or zero where a loader writes it.
fn slot_value(kit: &Kit, graph: &Graph, placement: &Placement, target: Target) -> u64
    requires { IsPlacedTarget graph.now placement.now target }
    ensures { result ≡ value_of_slot kit.now placement.now graph.now target }
{
    if kit.kind == KitKind::Library && is_moving(target) {
        0
    } else {
        address_of(graph, placement, target)
    }
}

/// Pushes the bytes of a slot.
fn push_slot(bytes: &mut Vec<u8>, value: u64) -> Result<(), NoMemory>
    ensures { OnOk result (bytes.new.items ≡ bytes.old.items ++ bytes_of SLOT_SIZE value) }
{
    bytes.extend_from_slice(&value.to_le_bytes())?;
    Ok(())
}

/// The bytes of the slots of some targets.
fn bytes_of_slots(
    alloc: Global,
    kit: &Kit,
    graph: &Graph,
    placement: &Placement,
    targets: &[Target],
) -> Result<Vec<u8>, NoMemory>
    requires placed { All (IsPlacedTarget graph.now placement.now) targets.now }
    requires few { length targets.now < 2 ^ 32 }
    ensures { IfOk result (λ v. v.items ≡ values_bytes (value_of_slot kit.now placement.now graph.now) targets.now) }
{
    let mut bytes = Vec::with_capacity(alloc, SLOT_SIZE * targets.len())?;
    for &target in targets {
        push_slot(&mut bytes, slot_value(kit, graph, placement, target))?;
    }
    Ok(bytes)
}

/// The bytes of the global offset table in the file. `slots` has the targets that need a slot, by number.
pub fn slot_bytes(
    alloc: Global,
    kit: &Kit,
    graph: &Graph,
    placement: &Placement,
    slots: &[Target],
) -> Result<Vec<u8>, NoMemory>
    requires laid { (gaps : Option Gaps) × (order : List ℕ) × IsLaidKit kit.now graph.now gaps order placement.now }
    requires addresses { HasAreaAddresses placement.now }
    requires slots { slots.now ≡ slots_of graph.now }
    ensures { IfOk result (λ v. (inputs : List Input) → v.items ≡ made_bytes kit.now inputs graph.now placement.now area.GOT) }
{
    bytes_of_slots(alloc, kit, graph, placement, slots)
}
