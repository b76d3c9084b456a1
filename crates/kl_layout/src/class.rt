// Lays the spreads of a class.
ghost use Rattle.std.specs.Prelude.{ℕ, ◌≡◌, ◌+◌, ◌++◌, ◌<◌, ◌≤◌, ◌^◌, ◌==◌, false, length, slice_get, Some, IfOk, OnOk, All};
ghost use Rattle.kl_model.specs.Areas.{class_number};
ghost use Rattle.kl_model.specs.Laid.{reach};
ghost use Rattle.kl_model.specs.Placed.{extent};
ghost use Rattle.kl_model.specs.declared.area.TheConstants as area;
ghost use Rattle.kl_layout.specs.Once.{AreOnce};
ghost use Rattle.kl_layout.specs.Spreads.{last_numbers, spread_numbers};
ghost use Rattle.kl_layout.specs.Stops.{HasStops, IsPart, area_or, listed, listed_line, room};

use crate::stops::{lay_spreads, line_start};
use kl_base::{Class, Listed, NoMemory};
use kl_model::{AreaAt, Kit, KitKind, LinePart, area};
use std::alloc::Global;

/// Adds the numbers of areas.
fn push_areas(numbers: &mut Vec<usize>, areas: &[u32]) -> Result<(), NoMemory>
    ensures { OnOk result (numbers.new.items ≡ numbers.old.items ++ areas.now) }
{
    for number in areas {
        numbers.push(*number as usize)?;
    }
    Ok(())
}

/// Adds the numbers of the spreads that follow the ordinary pieces and the runs of a class.
fn push_last(numbers: &mut Vec<usize>, kit: &Kit, class: Class) -> Result<(), NoMemory>
    ensures { OnOk result (numbers.new.items ≡ numbers.old.items ++ last_numbers kit.now class) }
{
    match class {
        Class::Text => push_areas(numbers, &[area::INIT, area::FINI, area::STUBS]),
        Class::Rodata => match kit.kind {
            KitKind::Kernel => push_areas(numbers, &[area::EH_FRAME, area::TABLES, area::GOT]),
            KitKind::Library => push_areas(numbers, &[area::EH_FRAME, area::TABLES]),
        },
        Class::Rwdata => {
            push_areas(
                numbers,
                &[area::CTORS, area::DTORS, area::INIT_ARRAY, area::FINI_ARRAY],
            )?;
            match kit.kind {
                KitKind::Kernel => push_areas(numbers, &[area::DYNAMIC]),
                KitKind::Library => push_areas(numbers, &[area::GOT, area::DYNAMIC]),
            }
        }
        Class::Bss => {
            numbers.push(area::FIRST_RUN as usize + kit.runs.items().len())?;
            Ok(())
        }
    }
}

/// The numbers of the spreads of a class, in the order in which they stand.
fn spread_numbers(alloc: Global, kit: &Kit, class: Class) -> Result<Vec<usize>, NoMemory>
    ensures { IfOk result (λ v. v.items ≡ spread_numbers kit.now class) }
{
    let mut numbers = vec![in alloc; area::class_number(class) as usize]?;
    for (number, run) in kit.runs.items().iter().enumerate() {
        if run.class == class {
            numbers.push(area::FIRST_RUN as usize + number)?;
        }
    }
    push_last(&mut numbers, kit, class)?;
    Ok(numbers)
}

/// Lays the spreads of a class from a place on, in bytes from the base. Writes the address of each part, and where each area and the
/// class start and end. Gives the place at which the class ends.
pub(crate) fn lay_class(
    alloc: Global,
    kit: &Kit,
    lists: &[Listed<LinePart>],
    class: Class,
    from: u64,
    addresses: &mut [u64],
    areas: &mut [AreaAt],
) -> Result<u64, NoMemory>
    requires parts { All (IsPart (length addresses.old)) (listed_line kit.now lists.now class) }
    requires once { AreOnce (listed_line kit.now lists.now class) }
    requires room { from + room (listed_line kit.now lists.now class) < 2 ^ 63 }
    requires lists { length lists.now ≡ area.FIRST_RUN + (length kit.now.runs + 1) }
    requires areas { length areas.old ≡ length lists.now }
    ensures addresses_count { length addresses.new ≡ length addresses.old }
    ensures areas_count { length areas.new ≡ length areas.old }
    ensures reach { IfOk result (λ n. kit.now.base + n ≡ reach (kit.now.base + from) (listed_line kit.now lists.now class)) }
    ensures room { IfOk result (λ n. n ≤ from + room (listed_line kit.now lists.now class)) }
    ensures stops { OnOk result (HasStops (kit.now.base + from) (listed_line kit.now lists.now class) addresses.old addresses.new) }
    ensures areas { OnOk result ((n : ℕ) → n < length areas.old → (class_number class == n) ≡ false
        → slice_get areas.new n ≡ area_or n (kit.now.base + from) (listed lists.now (spread_numbers kit.now class)) (slice_get areas.old n)) }
    ensures class { OnOk result (slice_get areas.new (class_number class) ≡ Some (extent (kit.now.base + from) (listed_line kit.now lists.now class))) }
{
    let numbers = spread_numbers(alloc, kit, class)?;
    let start = line_start(kit.base, from, lists, &numbers);
    let place = lay_spreads(kit.base, from, lists, &numbers, addresses, areas);
    areas[area::class_number(class) as usize] = AreaAt {
        start,
        end: kit.base.wrapping_add(place),
    };
    Ok(place)
}
