// The values of relocated fields (psABI, "Relocation Types").
ghost use Rattle.std.specs.Prelude.{ℕ, List, Option, ◌≡◌, ◌⊎◌, ◌<◌, ◌^◌, [], map, true, false, length, slice_get, All, AllPairs, IfErr, IfOk, OnErr, OnOk, Some};
ghost use Rattle.kl_model.specs.Faults.{does_fit, range_faults};
ghost use Rattle.kl_model.specs.Leads.{field_address as address_of_field, field_value as value_of_field, filed_value, value_target as target_of_value};
ghost use Rattle.kl_model.specs.Relocations.{in_range};
ghost use Rattle.kl_model.specs.Slots.{is_loaded as loaded, same_target, slots as slots_of, stubs as stubs_of};
ghost use Rattle.kl_model.specs.declared.area.TheConstants as area;
ghost use Rattle.kl_model.specs.declared.graph.Target.TheVariants.{Name};
ghost use Rattle.kl_model.specs.declared.place.Gaps.{Gaps};
ghost use Rattle.kl_write.specs.LaidKits.{HasAreaAddresses, IsLaidKit};
ghost use Rattle.kl_write.specs.Values.{IsPlacedField, range_fault, slot_address, stub_address};

use crate::address::address_of;
use crate::slots::SLOT_SIZE;
use kl_base::NoMemory;
use kl_elf::abi::R_X86_64_64;
use kl_got::{SlotIndex, stub_name, takes_slot};
use kl_model::area::{GOT, STUBS};
use kl_model::{Field, Graph, Kit, KitKind, LinkFault, Needs, Placement, Target};
use kl_reloc::value_of;
use std::alloc::Global;

/// The size of a stub, in bytes.
pub const STUB_SIZE: usize = 16;

/// What is made for fields, by number: the targets of slots, and those of stubs, which are names.
#[derive(Drop)]
struct Made {
    slots: SlotIndex,
    stubs: SlotIndex,
}

/// The address of the slot of a target, modulo 2^64.
fn slot_of(placement: &Placement, slots: &SlotIndex, target: Target) -> u64
    requires { area.GOT < length placement.now.areas }
    ensures { result ≡ slot_address placement.now slots.now target }
{
    let number = slots.find(target).unwrap_or(0);
    let start = placement.areas.items()[GOT as usize].start;
    start.wrapping_add(SLOT_SIZE as u64 * u64::from(number))
}

/// The address of the stub of a target, modulo 2^64.
fn stub_of(placement: &Placement, stubs: &SlotIndex, target: Target) -> u64
    requires { area.STUBS < length placement.now.areas }
    ensures { result ≡ stub_address placement.now stubs.now target }
{
    let number = stubs.find(target).unwrap_or(0);
    let start = placement.areas.items()[STUBS as usize].start;
    start.wrapping_add(STUB_SIZE as u64 * u64::from(number))
}

/// What the value of a field leads to: its target (psABI, S), the target's slot, or its stub (L).
fn value_target(graph: &Graph, placement: &Placement, made: &Made, field: &Field) -> u64
    requires field { IsPlacedField graph.now placement.now field.now }
    requires slots { made.now.slots ≡ slots_of graph.now }
    requires stubs { made.now.stubs ≡ map Name (stubs_of graph.now) }
    ensures { result ≡ target_of_value placement.now graph.now field.now }
{
    if stub_name(field).is_some() {
        stub_of(placement, &made.stubs, field.target)
    } else if takes_slot(field) {
        slot_of(placement, &made.slots, field.target)
    } else {
        address_of(graph, placement, field.target)
    }
}

/// The address of a field (psABI, P), modulo 2^64.
fn field_address(graph: &Graph, placement: &Placement, field: &Field) -> u64
    requires { field.now.piece < length placement.now.pieces }
    ensures { result ≡ address_of_field placement.now graph.now field.now }
{
    placement.pieces.items()[field.piece as usize]
        .address
        .wrapping_add(field.offset)
}

/// The value of a field, modulo 2^64.
///
/// # Errors
///
/// `Range` where the value is out of the range of the field's type.
fn whole_value(
    graph: &Graph,
    placement: &Placement,
    made: &Made,
    field: &Field,
) -> Result<u64, LinkFault>
    requires field { IsPlacedField graph.now placement.now field.now }
    requires slots { made.now.slots ≡ slots_of graph.now }
    requires stubs { made.now.stubs ≡ map Name (stubs_of graph.now) }
    ensures value { IfOk result (λ v. v ≡ value_of_field placement.now graph.now field.now) }
    ensures fits { OnOk result (in_range field.now.kind (value_of_field placement.now graph.now field.now) ≡ true) }
    ensures misfit { OnErr result (in_range field.now.kind (value_of_field placement.now graph.now field.now) ≡ false) }
    ensures err { IfErr result (λ e. e ≡ range_fault placement.now graph.now field.now) }
{
    let s = value_target(graph, placement, made, field);
    let p = field_address(graph, placement, field);
    match value_of(field.kind, s, field.addend, p) {
        Ok(patch) => Ok(patch.value),
        Err(_) => Err(LinkFault::Range {
            from: field.from,
            s,
            a: field.addend,
            p,
        }),
    }
}

/// Whether a loader writes a field of a library.
fn is_loaded(field: &Field) -> bool
    ensures { result ≡ loaded field.now.kind field.now.target }
{
    u32::from(field.kind) == R_X86_64_64
        && matches!(
            field.target,
            Target::Place { .. } | Target::Edge { .. } | Target::Name(_)
        )
}

/// What a field holds in the file, modulo 2^64: its value, or 0 where it leads nowhere, or where a loader writes it.
///
/// # Errors
///
/// `Range` where the value is out of the range of the field's type.
fn field_value(
    kit: &Kit,
    graph: &Graph,
    placement: &Placement,
    made: &Made,
    field: &Field,
) -> Result<u64, LinkFault>
    requires field { IsPlacedField graph.now placement.now field.now }
    requires slots { made.now.slots ≡ slots_of graph.now }
    requires stubs { made.now.stubs ≡ map Name (stubs_of graph.now) }
    ensures value { IfOk result (λ v. v ≡ filed_value kit.now placement.now graph.now field.now) }
    ensures fits { OnOk result (does_fit placement.now graph.now field.now ≡ true) }
    ensures misfit { OnErr result (does_fit placement.now graph.now field.now ≡ false) }
    ensures err { IfErr result (λ e. e ≡ range_fault placement.now graph.now field.now) }
{
    if field.target == Target::Gone {
        return Ok(0);
    }
    let value = whole_value(graph, placement, made, field)?;
    if kit.kind == KitKind::Library && is_loaded(field) {
        return Ok(0);
    }
    Ok(value)
}

/// What all fields hold in the file.
fn values_of(
    alloc: Global,
    kit: &Kit,
    graph: &Graph,
    placement: &Placement,
    made: &Made,
) -> Result<Vec<u64>, LinkFault>
    requires fields { All (IsPlacedField graph.now placement.now) graph.now.fields }
    requires slots { made.now.slots ≡ slots_of graph.now }
    requires stubs { made.now.stubs ≡ map Name (stubs_of graph.now) }
    ensures values { IfOk result (λ v. v.items ≡ map (filed_value kit.now placement.now graph.now) graph.now.fields) }
    ensures sound { OnOk result (range_faults placement.now graph.now ≡ []) }
    ensures err { IfErr result (λ e. (e ≡ LinkFault.NoMemory) ⊎ (slice_get (range_faults placement.now graph.now) 0 ≡ Some e)) }
{
    let mut values = Vec::with_capacity(alloc, graph.fields.items().len())?;
    for field in graph.fields.items() {
        values.push(field_value(kit, graph, placement, made, field)?)?;
    }
    Ok(values)
}

/// The targets of stubs, by number.
fn name_targets(alloc: Global, names: &[u32]) -> Result<Vec<Target>, NoMemory>
    ensures { IfOk result (λ v. v.items ≡ map Name names.now) }
{
    let mut targets = Vec::with_capacity(alloc, names.len())?;
    for &name in names {
        targets.push(Target::Name(name))?;
    }
    Ok(targets)
}

/// The index of what is made for fields.
fn made_index(alloc: Global, needs: &Needs) -> Result<Made, NoMemory>
    requires slots { AllPairs (λ x y. same_target x y ≡ false) needs.now.slots }
    requires stubs { AllPairs (λ x y. same_target (Name x) (Name y) ≡ false) needs.now.stubs }
    requires few_slots { length needs.now.slots < 2 ^ 32 }
    requires few_stubs { length needs.now.stubs < 2 ^ 32 }
    ensures slots { IfOk result (λ m. m.slots ≡ needs.now.slots) }
    ensures stubs { IfOk result (λ m. m.stubs ≡ map Name needs.now.stubs) }
{
    let names = name_targets(alloc, needs.stubs.items())?;
    Ok(Made {
        slots: SlotIndex::of(alloc, needs.slots.items())?,
        stubs: SlotIndex::of(alloc, &names)?,
    })
}

/// What each field of an image holds in the file, modulo 2^64: its value (psABI, "Relocation Types"), or 0 where it leads nowhere, or
/// where a loader writes it. `needs` has what the graph needs.
///
/// # Errors
///
/// `Range` of the first field whose value is out of the range of its type.
pub fn field_values(
    alloc: Global,
    kit: &Kit,
    graph: &Graph,
    placement: &Placement,
    needs: &Needs,
) -> Result<Vec<u64>, LinkFault>
    requires laid { (gaps : Option Gaps) × (order : List ℕ) × IsLaidKit kit.now graph.now gaps order placement.now }
    requires addresses { HasAreaAddresses placement.now }
    requires slots { needs.now.slots ≡ slots_of graph.now }
    requires stubs { needs.now.stubs ≡ stubs_of graph.now }
    ensures values { IfOk result (λ v. v.items ≡ map (filed_value kit.now placement.now graph.now) graph.now.fields) }
    ensures sound { OnOk result (range_faults placement.now graph.now ≡ []) }
    ensures err { IfErr result (λ e. (e ≡ LinkFault.NoMemory) ⊎ (slice_get (range_faults placement.now graph.now) 0 ≡ Some e)) }
{
    let made = made_index(alloc, needs)?;
    values_of(alloc, kit, graph, placement, &made)
}
