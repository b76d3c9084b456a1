// The stubs of a library.
ghost use Rattle.std.specs.Prelude.{ℕ, List, Option, ◌≡◌, ◌+◌, ◌*◌, ◌<◌, ◌≤◌, ◌^◌, ◌++◌, length, None, All, IfOk, OnOk};
ghost use Rattle.kl_base.specs.declared.limits.TheConstants.{SIZE_LIMIT, SPAN_LIMIT};
ghost use Rattle.kl_model.specs.Lists.{each};
ghost use Rattle.kl_model.specs.Slots.{slots as slots_of, stubs as stubs_of};
ghost use Rattle.kl_model.specs.Tables.{stub_code, stubs_bytes};
ghost use Rattle.kl_model.specs.declared.kit.Kit.{Kit};
ghost use Rattle.kl_model.specs.declared.kit.KitKind.TheVariants.{Library};
ghost use Rattle.kl_write.specs.LaidKits.{HasAreaAddresses, IsLaidKit};
ghost use Rattle.kl_shared.specs.Stubs.{HasSlot, nth_stub, slot_from};

use kl_base::NoMemory;
use kl_got::{SlotIndex, stub_bytes};
use kl_model::area::{GOT, STUBS};
use kl_model::{Graph, Needs, Placement, Target};
use kl_write::{SLOT_SIZE, STUB_SIZE};
use std::alloc::Global;

/// Pushes the bytes of the stub at an address, whose slot stands at another.
fn push_stub(bytes: &mut Vec<u8>, stub: u64, slot: u64) -> Result<(), NoMemory>
    requires above { slot < stub + SIZE_LIMIT }
    requires below { stub < slot + SIZE_LIMIT }
    ensures { OnOk result (bytes.new.items ≡ bytes.old.items ++ stub_code stub slot) }
{
    bytes.extend_from_slice(&stub_bytes(stub, slot))?;
    Ok(())
}

/// The address of the slot of a name, from the start of the table on.
fn slot_of(start: u64, slots: &SlotIndex, name: u32) -> u64
    requires few { length slots.now < 2 ^ 32 }
    requires small { start + SLOT_SIZE * length slots.now ≤ SPAN_LIMIT }
    requires known { HasSlot slots.now name }
    ensures { result ≡ slot_from start slots.now name }
{
    let number = slots.find(Target::Name(name)).unwrap_or(0);
    start + SLOT_SIZE as u64 * u64::from(number)
}

/// The bytes of the stubs of some names, in an area from `stubs` on, whose slots stand in a table from `got` on.
fn bytes_of_stubs(
    alloc: Global,
    stubs: u64,
    got: u64,
    slots: &SlotIndex,
    names: &[u32],
) -> Result<Vec<u8>, NoMemory>
    requires few { length slots.now < 2 ^ 32 }
    requires stubs { stubs + STUB_SIZE * length names.now ≤ SPAN_LIMIT }
    requires slots { got + SLOT_SIZE * length slots.now ≤ SPAN_LIMIT }
    requires known { All (HasSlot slots.now) names.now }
    ensures { IfOk result (λ v. v.items ≡ each names.now (nth_stub stubs got slots.now)) }
{
    let mut bytes = Vec::with_capacity(alloc, STUB_SIZE * names.len())?;
    for number in 0..names.len() {
        let stub = stubs + (STUB_SIZE * number) as u64;
        push_stub(&mut bytes, stub, slot_of(got, slots, names[number]))?;
    }
    Ok(bytes)
}

/// The bytes of the stubs of a library (psABI, "Procedure Linkage Table"). `needs` has what the graph needs.
pub fn stub_area(
    alloc: Global,
    graph: &Graph,
    placement: &Placement,
    needs: &Needs,
) -> Result<Vec<u8>, NoMemory>
    requires laid { (kit : Kit) × (order : List ℕ) × (kit.kind ≡ Library) × IsLaidKit kit graph.now None order placement.now }
    requires addresses { HasAreaAddresses placement.now }
    requires slots { needs.now.slots ≡ slots_of graph.now }
    requires stubs { needs.now.stubs ≡ stubs_of graph.now }
    ensures { IfOk result (λ v. v.items ≡ stubs_bytes graph.now placement.now) }
{
    let slots = SlotIndex::of(alloc, needs.slots.items())?;
    let areas = placement.areas.items();
    let stubs = areas[STUBS as usize].start;
    let got = areas[GOT as usize].start;
    bytes_of_stubs(alloc, stubs, got, &slots, needs.stubs.items())
}
