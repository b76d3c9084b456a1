// The reader of maps.
ghost use Rattle.std.specs.Prelude.{◌≡◌, ◌≤◌, ◌++◌, IfOk, IfErr, OnOk, length, if◌then◌else◌, Some, None};
ghost use Rattle.kl_map.specs.MapForm.{IsMapForm};
ghost use Rattle.kl_map.specs.MapText.{head_lines, map_text};
ghost use Rattle.kl_map.specs.Outside.{IsNoMap, TellsLine};
ghost use Rattle.kl_map.specs.Reading.{IsHead, next_area, next_placed, with_line};
ghost use Rattle.kl_map.specs.Spelling.{IsMap};
ghost use Rattle.kl_map.specs.declared.map.Map.{Map};

use crate::line::{area_of, base_line, output_line, placed_of, seed_line};
use crate::order::{is_ended, last_id, may_follow};
use crate::{Map, MapError};
use kl_base::NoMemory;
use kl_model::{AREAS, AreaAt, Areas, Placed, PlacedList, Placement};
use kl_text::first_line;
use std::alloc::Global;

/// The length of a map's text that is read, in bytes: 512 MiB.
pub const MAP_LIMIT: usize = 512 << 20;

/// Reads a map: accepts exactly the form in which maps are printed, with at least the areas 0 to 14, pieces that ascend strictly
/// by input, then section, commons numbered from 0, and no gaps or all four in the order of classes. Any other text has a first
/// line outside this form, and that is told; a missing line has the number that it would have.
pub fn read_map(alloc: Global, text: &[u8]) -> Result<Map, MapError>
    requires { length text.now ≤ MAP_LIMIT }
    ensures text { IfOk result (λ map. text.now ≡ map_text map) }
    ensures form { IfOk result (λ map. IsMapForm map) }

    // What was printed is given back, and a map in the form is always read.
    ensures back { IfOk result (λ map. (m : Map) → IsMap m → text.now ≡ map_text m → map ≡ m) }
    ensures refused { IfErr result (λ e. IsNoMap text.now e) }
    ensures line { IfErr result (λ e. TellsLine text.now e) }
{
    let (mut map, rest) = read_head(alloc, text)?;
    read_body(&mut map, rest)?;
    Ok(map)
}

/// The map of the first four lines, and what follows them.
fn read_head(alloc: Global, text: &[u8]) -> Result<(Map, &[u8]), MapError>
    ensures text { IfOk result (λ x. text.now ≡ head_lines x.0 ++ x.1.now) }
    ensures head { IfOk result (λ x. IsHead x.0) }
    ensures refused { IfErr result (λ e. IsNoMap text.now e) }
    ensures line { IfErr result (λ e. TellsLine text.now e) }
{
    let Some(rest) = text.strip_prefix(b"relink map 1\n") else {
        return Err(MapError::Line { line: 1 });
    };
    let Some(named) = output_line(rest) else {
        return Err(MapError::Line { line: 2 });
    };
    let (output, rest) = named;
    let Some(seeded) = seed_line(rest) else {
        return Err(MapError::Line { line: 3 });
    };
    let (seed, rest) = seeded;
    let Some((base, rest)) = base_line(rest) else {
        return Err(MapError::Line { line: 4 });
    };
    let placement = Placement {
        base,
        areas: Areas::new(alloc),
        pieces: PlacedList::new(alloc),
    };
    Ok((
        Map {
            output,
            seed,
            placement,
        },
        rest,
    ))
}

/// Adds what the lines behind the first four tell, up to the last.
fn read_body(map: &mut Map, text: &[u8]) -> Result<(), MapError>
    requires head { IsHead map.old }
    requires size { length text.now ≤ MAP_LIMIT }
    ensures text { OnOk result (head_lines map.old ++ text.now ≡ map_text map.new) }
    ensures form { OnOk result (IsMapForm map.new) }
    ensures refused { IfErr result (λ e. IsNoMap (head_lines map.old ++ text.now) e) }
    ensures line { IfErr result (λ e. TellsLine (head_lines map.old ++ text.now) e) }
{
    let mut number = 5;
    let mut rest = text;
    while let Some((line, more)) = first_line(rest) {
        if line == b"end".as_slice() && is_ended(&map.placement) {
            if more.is_empty() {
                return Ok(());
            }
            return Err(MapError::Line { line: number + 1 });
        }
        if !push_line(&mut map.placement, line)? {
            break;
        }
        number += 1;
        rest = more;
    }
    Err(MapError::Line { line: number })
}

/// Adds what the line tells. `false` where it may not stand here.
fn push_line(placement: &mut Placement, line: &[u8]) -> Result<bool, NoMemory>
    ensures { IfOk result (λ taken. with_line placement.old line.now ≡ (if taken then Some placement.new else None)) }
{
    if let Some(area) = next_area(placement, line) {
        placement.areas.push(area)?;
        Ok(true)
    } else if let Some(placed) = next_placed(placement, line) {
        placement.pieces.push(placed)?;
        Ok(true)
    } else {
        Ok(false)
    }
}

/// The area of the line, where it is the next one.
fn next_area(placement: &Placement, line: &[u8]) -> Option<AreaAt>
    ensures { result ≡ next_area placement.now line.now }
{
    if placement.pieces.items().is_empty() {
        area_of(placement.areas.items().len(), line)
    } else {
        None
    }
}

/// The piece, common or gap of the line, where it may come next.
fn next_placed(placement: &Placement, line: &[u8]) -> Option<Placed>
    ensures { result ≡ next_placed placement.now line.now }
{
    if placement.areas.items().len() < AREAS.len() {
        return None;
    }
    let placed = placed_of(line)?;
    if may_follow(last_id(placement.pieces.items()), placed.id) {
        Some(placed)
    } else {
        None
    }
}
