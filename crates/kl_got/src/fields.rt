// The slots and stubs of a graph.
ghost use Rattle.std.specs.Prelude.{◌≡◌, ◌<◌, ◌^◌, [], length, IfOk, OnOk};
ghost use Rattle.std.specs.Option.{ForSome};
ghost use Rattle.kl_model.specs.declared.kit.KitKind.TheVariants.{Kernel};
ghost use Rattle.kl_model.specs.Slots.{slots, stubs};
ghost use Rattle.kl_model.specs.Sound.{IsSoundGraph};
ghost use Rattle.kl_got.specs.Made.{AreMarked, slots_of, stub_name, with_name, with_slot, with_stub};

use crate::index::SlotIndex;
use crate::way::{stub_name, takes_slot};
use kl_base::NoMemory;
use kl_model::{Field, Graph, Kit, NameNumbers, Needs};
use std::alloc::Global;

/// The names that have a stub, by number of the stub, and a mark at each of them among all dynamic names.
#[derive(Drop)]
struct Stubs {
    names: NameNumbers,
    marks: Vec<bool>,
}

/// Adds the slot of a field that takes one.
fn add_slot(slots: &mut SlotIndex, field: &Field) -> Result<(), NoMemory>
    requires { length slots.old < 2 ^ 32 }
    ensures { OnOk result (slots.new ≡ with_slot slots.old field.now) }
{
    if takes_slot(field) {
        slots.number(field.target)?;
    }
    Ok(())
}

/// Adds the stub of a name, unless it has one.
fn add_name(stubs: &mut Stubs, name: u32) -> Result<(), NoMemory>
    requires name { name < length stubs.old.marks.items }
    requires marked { AreMarked (length stubs.old.marks.items) stubs.old.names stubs.old.marks.items }
    ensures names { OnOk result (stubs.new.names ≡ with_name stubs.old.names name) }
    ensures marked { OnOk result (AreMarked (length stubs.old.marks.items) stubs.new.names stubs.new.marks.items) }
{
    if !stubs.marks[name as usize] {
        stubs.names.push(name)?;
        stubs.marks[name as usize] = true;
    }
    Ok(())
}

/// Adds the stub of a field that takes one.
fn add_stub(stubs: &mut Stubs, field: &Field) -> Result<(), NoMemory>
    requires name { ForSome (stub_name field.now) (λ n. n < length stubs.old.marks.items) }
    requires marked { AreMarked (length stubs.old.marks.items) stubs.old.names stubs.old.marks.items }
    ensures names { OnOk result (stubs.new.names ≡ with_stub stubs.old.names field.now) }
    ensures marked { OnOk result (AreMarked (length stubs.old.marks.items) stubs.new.names stubs.new.marks.items) }
{
    match stub_name(field) {
        Some(name) => add_name(stubs, name),
        None => Ok(()),
    }
}

/// The targets that need a slot of the global offset table, and the dynamic names that need a stub, each once, in the order of the
/// first field that needs it. The only error is want of memory.
pub fn needs(alloc: Global, kit: &Kit, graph: &Graph) -> Result<Needs, NoMemory>
    requires { IsSoundGraph kit.now graph.now }
    ensures slots { IfOk result (λ n. n.slots ≡ slots graph.now) }
    ensures stubs { IfOk result (λ n. n.stubs ≡ stubs graph.now) }
    ensures kernel { kit.now.kind ≡ Kernel → IfOk result (λ n. n.stubs ≡ []) }
{
    let mut slots = SlotIndex::new(alloc);
    let mut stubs = Stubs {
        names: NameNumbers::new(alloc),
        marks: vec![in alloc; false; graph.names.items().len()]?,
    };
    for field in graph.fields.items() {
        add_slot(&mut slots, field)?;
        add_stub(&mut stubs, field)?;
    }
    Ok(Needs {
        slots: slots.into_targets(),
        stubs: stubs.names,
    })
}
