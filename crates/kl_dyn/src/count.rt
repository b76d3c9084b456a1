// How many entries the loader has for a library.
ghost use Rattle.std.specs.Prelude.{◌≡◌, ◌+◌, ◌*◌, ◌||◌, ◌≤◌, length};
ghost use Rattle.kl_base.specs.declared.limits.TheConstants.{FIELD_COUNT_LIMIT};
ghost use Rattle.kl_model.specs.Slots.{is_loaded, is_moving, is_name, jump_entries, rela_entries, slots, stubs};
ghost use Rattle.kl_model.specs.Sound.{IsSoundGraph};
ghost use Rattle.kl_model.specs.declared.kit.Kit.{Kit};
ghost use Rattle.kl_dyn.specs.Entries.{field_entries, slot_entries};

use kl_elf::abi::R_X86_64_64;
use kl_model::{Field, Graph, Needs, Target};

/// How many entries the tables of a library have.
#[derive(Clone, Copy, Debug)]
pub struct EntryCounts {
    /// Those of the types `R_X86_64_RELATIVE`, `R_X86_64_64` and `R_X86_64_GLOB_DAT`.
    pub relas: usize,
    /// Those of the type `R_X86_64_JUMP_SLOT`.
    pub jumps: usize,
}

/// Whether a target isn't known before the library is loaded: it moves with the base, or it is a dynamic name.
pub fn is_late(target: Target) -> bool
    ensures { result ≡ (is_moving target || is_name target) }
{
    match target {
        Target::Place { .. } | Target::Edge { .. } | Target::Name(_) => true,
        Target::Abs(_) | Target::Zero | Target::Gone => false,
    }
}

/// Whether the loader writes a field.
pub fn is_loaded(field: &Field) -> bool
    ensures { result ≡ is_loaded field.now.kind field.now.target }
{
    u32::from(field.kind) == R_X86_64_64 && is_late(field.target)
}

/// How many fields the loader writes.
fn count_fields(fields: &[Field]) -> usize
    ensures count { result ≡ length (field_entries fields.now) }
    ensures few { result ≤ length fields.now }
{
    fields.iter().filter(|field| is_loaded(field)).count()
}

/// How many slots the loader writes.
fn count_slots(slots: &[Target]) -> usize
    ensures count { (g : Graph) → result ≡ length (slot_entries g slots.now) }
    ensures few { result ≤ length slots.now }
{
    slots.iter().filter(|target| is_late(**target)).count()
}

/// How many entries the tables of a library have. Each stub has its slot, and that slot its entry.
pub fn entry_counts(graph: &Graph, needs: &Needs) -> EntryCounts
    requires sound { (kit : Kit) × IsSoundGraph kit graph.now }
    requires slots { needs.now.slots ≡ slots graph.now }
    requires stubs { needs.now.stubs ≡ stubs graph.now }
    ensures relas { result.relas ≡ length (rela_entries graph.now) }
    ensures jumps { result.jumps ≡ length (jump_entries graph.now) }
    ensures few { result.relas + result.jumps ≤ 2 * FIELD_COUNT_LIMIT }
{
    let jumps = needs.stubs.items().len();
    let entries = count_fields(graph.fields.items()) + count_slots(needs.slots.items());
    EntryCounts {
        relas: entries - jumps,
        jumps,
    }
}
