// The relocation entries of a library.
ghost use Rattle.std.specs.Prelude.{ℕ, List, ◌≡◌, ◌+◌, ◌*◌, ◌%◌, ◌<◌, ◌^◌, ◌||◌, ◌++◌, suc, true, length, flat_map, nat_lt, All, None, IfOk, OnOk};
ghost use Rattle.std.specs.Int.{cast_signed, w64};
ghost use Rattle.kl_model.specs.Leads.{slot_place};
ghost use Rattle.kl_model.specs.Lists.{each, in_order};
ghost use Rattle.kl_model.specs.Slots.{field_entry, is_moving, is_name, jump_entries, rela_entries, slots, stubs};
ghost use Rattle.kl_model.specs.Tables.{rela_of, relas_of};
ghost use Rattle.kl_model.specs.Written.{rela_bytes};
ghost use Rattle.kl_model.specs.declared.area.TheConstants as area;
ghost use Rattle.kl_model.specs.declared.kit.Kit.{Kit};
ghost use Rattle.kl_model.specs.declared.kit.KitKind.TheVariants.{Library};
ghost use Rattle.kl_write.specs.LaidKits.{HasAreaAddresses, IsLaidKit};
ghost use Rattle.kl_dyn.specs.Entries.{AreStubbed, IsKnownField, IsKnownTarget, field_relas, slot_jumps, slot_relas};

use crate::bytes::push_rela;
use crate::count::{entry_counts, is_loaded};
use kl_base::NoMemory;
use kl_elf::Rela;
use kl_elf::abi::{R_X86_64_64, R_X86_64_GLOB_DAT, R_X86_64_JUMP_SLOT, R_X86_64_RELATIVE};
use kl_model::area::GOT;
use kl_model::{Field, Graph, Needs, Placement, Target};
use kl_write::{SLOT_SIZE, address_of};
use std::alloc::Global;

/// The entries that the loader has for a library, as they stand in its tables: by ascending offset.
#[derive(Debug, Drop)]
pub struct Entries {
    /// Those of the types `R_X86_64_RELATIVE`, `R_X86_64_64` and `R_X86_64_GLOB_DAT`.
    pub relas: Vec<Rela>,
    /// Those of the type `R_X86_64_JUMP_SLOT`.
    pub jumps: Vec<Rela>,
}

/// The entry of a place that holds an address, which moves with the base.
fn relative(offset: u64, address: u64) -> Rela
    ensures offset { result.offset ≡ offset }
    ensures info { result.info ≡ R_X86_64_RELATIVE }
    ensures addend { result.addend ≡ cast_signed w64 address }
{
    Rela {
        offset,
        info: u64::from(R_X86_64_RELATIVE),
        addend: address.cast_signed(),
    }
}

/// The entry of a place that leads to a dynamic name, whose symbol has the name's number and one (gABI, `ELF64_R_INFO`).
fn symbolic(offset: u64, kind: u32, name: u32, addend: i64) -> Rela
    requires { suc name < 2 ^ 32 }
    ensures offset { result.offset ≡ offset }
    ensures info { result.info ≡ suc name * 2 ^ 32 + kind }
    ensures addend { result.addend ≡ addend }
{
    let symbol = 1 + u64::from(name);
    Rela {
        offset,
        info: symbol * (1 << 32) + u64::from(kind),
        addend,
    }
}

/// The entry of a field that the loader writes.
fn field_rela(graph: &Graph, placement: &Placement, field: &Field) -> Rela
    requires names { length graph.now.names < 2 ^ 32 }
    requires field { IsKnownField graph.now placement.now field.now }
    requires late { (is_moving field.now.target || is_name field.now.target) ≡ true }
    ensures { result ≡ rela_of placement.now graph.now (field_entry field.now field.now.target) }
{
    let place = Target::Place {
        piece: field.piece,
        offset: field.offset,
    };
    let offset = address_of(graph, placement, place);
    match field.target {
        Target::Name(name) => symbolic(offset, R_X86_64_64, name, field.addend),
        target => {
            let address = address_of(graph, placement, target);
            relative(offset, address.wrapping_add(field.addend.cast_unsigned()))
        }
    }
}

/// Pushes the entries of fields, by number.
fn push_fields(relas: &mut Vec<Rela>, graph: &Graph, placement: &Placement) -> Result<(), NoMemory>
    requires names { length graph.now.names < 2 ^ 32 }
    requires fields { All (IsKnownField graph.now placement.now) graph.now.fields }
    ensures { OnOk result (relas.new.items ≡ relas.old.items ++ field_relas placement.now graph.now graph.now.fields) }
{
    for field in graph.fields.items() {
        if is_loaded(field) {
            relas.push(field_rela(graph, placement, field))?;
        }
    }
    Ok(())
}

/// The address of a slot by its number, modulo 2^64.
fn slot_address(placement: &Placement, number: usize) -> u64
    requires known { area.GOT < length placement.now.areas }
    requires small { number < 2 ^ 32 }
    ensures { result ≡ slot_place placement.now number % 2 ^ 64 }
{
    let start = placement.areas.items()[GOT as usize].start;
    start.wrapping_add((SLOT_SIZE * number) as u64)
}

/// Pushes the entry of a slot by its number, if the loader writes it. `stubbed` has the names that have a stub.
fn push_slot(
    entries: &mut Entries,
    graph: &Graph,
    placement: &Placement,
    stubbed: &[bool],
    number: usize,
    target: Target,
) -> Result<(), NoMemory>
    requires names { length graph.now.names < 2 ^ 32 }
    requires known { area.GOT < length placement.now.areas }
    requires stubbed { AreStubbed graph.now stubbed.now }
    requires small { number < 2 ^ 32 }
    requires target { IsKnownTarget graph.now placement.now target }
    ensures relas { OnOk result (entries.new.relas.items ≡ entries.old.relas.items ++ slot_relas placement.now graph.now number target) }
    ensures jumps { OnOk result (entries.new.jumps.items ≡ entries.old.jumps.items ++ slot_jumps placement.now graph.now number target) }
{
    let offset = slot_address(placement, number);
    match target {
        Target::Name(name) if stubbed[name as usize] => entries
            .jumps
            .push(symbolic(offset, R_X86_64_JUMP_SLOT, name, 0))?,
        Target::Name(name) => entries
            .relas
            .push(symbolic(offset, R_X86_64_GLOB_DAT, name, 0))?,
        Target::Place { .. } | Target::Edge { .. } => entries
            .relas
            .push(relative(offset, address_of(graph, placement, target)))?,
        Target::Abs(_) | Target::Zero | Target::Gone => {}
    }
    Ok(())
}

/// Pushes the entries of slots, by number. `stubbed` has the names that have a stub.
fn push_slots(
    entries: &mut Entries,
    graph: &Graph,
    placement: &Placement,
    stubbed: &[bool],
    targets: &[Target],
) -> Result<(), NoMemory>
    requires names { length graph.now.names < 2 ^ 32 }
    requires known { area.GOT < length placement.now.areas }
    requires stubbed { AreStubbed graph.now stubbed.now }
    requires few { length targets.now < 2 ^ 32 }
    requires targets { All (IsKnownTarget graph.now placement.now) targets.now }
    ensures relas { OnOk result (entries.new.relas.items ≡ entries.old.relas.items ++ each targets.now (slot_relas placement.now graph.now)) }
    ensures jumps { OnOk result (entries.new.jumps.items ≡ entries.old.jumps.items ++ each targets.now (slot_jumps placement.now graph.now)) }
{
    for (number, target) in targets.iter().enumerate() {
        push_slot(entries, graph, placement, stubbed, number, *target)?;
    }
    Ok(())
}

/// Which names have a stub, by number.
fn stubbed_names(alloc: Global, graph: &Graph, names: &[u32]) -> Result<Vec<bool>, NoMemory>
    requires stubs { names.now ≡ stubs graph.now }
    requires known { All (λ n. n < length graph.now.names) names.now }
    ensures { IfOk result (λ v. AreStubbed graph.now v.items) }
{
    let mut stubbed = vec![in alloc; false; graph.names.items().len()]?;
    for name in names {
        stubbed[*name as usize] = true;
    }
    Ok(stubbed)
}

/// Sorts entries as they stand in a table: by ascending offset.
fn sort_by_offset(relas: &mut Vec<Rela>) -> Result<(), NoMemory>
    ensures { OnOk result (relas.new.items ≡ in_order (λ r x. nat_lt r.offset x.offset) relas.old.items) }
{
    relas.sort_by_key(|rela| rela.offset)?;
    Ok(())
}

/// The relocation entries of a library (psABI, "Relocation"), in the order of its tables. `needs` has what the graph needs. The only
/// error is want of memory.
pub fn relocation_entries(
    alloc: Global,
    graph: &Graph,
    placement: &Placement,
    needs: &Needs,
) -> Result<Entries, NoMemory>
    requires laid { (kit : Kit) × (order : List ℕ) × (kit.kind ≡ Library) × IsLaidKit kit graph.now None order placement.now }
    requires addresses { HasAreaAddresses placement.now }
    requires slots { needs.now.slots ≡ slots graph.now }
    requires stubs { needs.now.stubs ≡ stubs graph.now }
    ensures relas { IfOk result (λ e. e.relas.items ≡ relas_of placement.now graph.now (rela_entries graph.now)) }
    ensures jumps { IfOk result (λ e. e.jumps.items ≡ relas_of placement.now graph.now (jump_entries graph.now)) }
{
    let stubbed = stubbed_names(alloc, graph, needs.stubs.items())?;
    let counts = entry_counts(graph, needs);
    let mut entries = Entries {
        relas: Vec::with_capacity(alloc, counts.relas)?,
        jumps: Vec::with_capacity(alloc, counts.jumps)?,
    };
    push_fields(&mut entries.relas, graph, placement)?;
    push_slots(
        &mut entries,
        graph,
        placement,
        &stubbed,
        needs.slots.items(),
    )?;
    sort_by_offset(&mut entries.relas)?;
    sort_by_offset(&mut entries.jumps)?;
    Ok(entries)
}

/// Pushes the bytes of entries.
pub fn push_relas(bytes: &mut Vec<u8>, relas: &[Rela]) -> Result<(), NoMemory>
    ensures { OnOk result (bytes.new.items ≡ bytes.old.items ++ flat_map rela_bytes relas.now) }
{
    for rela in relas {
        push_rela(bytes, rela)?;
    }
    Ok(())
}
