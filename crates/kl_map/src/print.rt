// The lines of a map, each appended to the text.
ghost use Rattle.std.specs.Prelude.{◌≡◌, ◌++◌, ◌∷◌, ◌<◌, ◌^◌, decimal, None, IfOk, OnOk, All};
ghost use Rattle.std.specs.List.{flat_map};
ghost use Rattle.hex.specs.Hex.{IsBytes};
ghost use Rattle.kl_base.specs.Names.{name_fault};
ghost use Rattle.kl_model.specs.Lists.{each};
ghost use Rattle.kl_map.specs.MapText.{hexadecimal, area_name, class_name, output_line, seed_line, base_line, head_lines, area_line, placed_line, map_text};
ghost use Rattle.kl_map.specs.Spelling.{AreaFits, PlacedFits, IsMap};

use crate::Map;
use itoa::Buffer;
use kl_base::{Class, Name, NoMemory};
use kl_model::area::map_name;
use kl_model::{AREAS, AreaAt, PieceId, Placed};
use std::alloc::Global;

/// The text of a map: its head, a line for each area by number, one for each piece, common and gap in the placement's order,
/// and `end`. The map keeps what `one_spelling` asks of it. The only error is want of memory.
#[tactic(auto, unfolding(crate::specs::MapText::map_text))]
pub fn print_map(alloc: Global, map: &Map) -> Result<Vec<u8>, NoMemory>
    ensures text { IfOk result (λ text. text.items ≡ map_text map.now) }

    // so no other map has this text
    ensures map { OnOk result (IsMap map.now) }
{
    let mut text = Vec::new(alloc);
    push_head(&mut text, map)?;
    push_areas(&mut text, map.placement.areas.items())?;
    push_pieces(&mut text, map.placement.pieces.items())?;
    text.extend_from_slice(b"end\n")?;
    Ok(text)
}

fn push_head(text: &mut Vec<u8>, map: &Map) -> Result<(), NoMemory>
    ensures text { OnOk result (text.new.items ≡ text.old.items ++ head_lines map.now) }
    ensures output { OnOk result (name_fault map.now.output ≡ None) }
    ensures seed { OnOk result (IsBytes map.now.seed) }
    ensures base { OnOk result (map.now.placement.base < 2 ^ 64) }
{
    text.extend_from_slice(b"relink map 1\n")?;
    push_output(text, &map.output)?;
    push_seed(text, &map.seed)?;
    push_base(text, map.placement.base)
}

fn push_output(text: &mut Vec<u8>, output: &Name) -> Result<(), NoMemory>
    ensures text { OnOk result (text.new.items ≡ text.old.items ++ output_line output.now) }
    ensures name { OnOk result (name_fault output.now ≡ None) }
{
    text.extend_from_slice(b"output ")?;
    text.extend_from_slice(output.bytes())?;
    text.push(b'\n')?;
    Ok(())
}

fn push_seed(text: &mut Vec<u8>, seed: &[u8; 32]) -> Result<(), NoMemory>
    ensures text { OnOk result (text.new.items ≡ text.old.items ++ seed_line seed.now) }
    ensures fits { OnOk result (IsBytes seed.now) }
{
    let mut digits = [0; 64];
    hex::encode_to_slice(seed, &mut digits).unwrap();
    text.extend_from_slice(b"seed ")?;
    text.extend_from_slice(&digits)?;
    text.push(b'\n')?;
    Ok(())
}

fn push_base(text: &mut Vec<u8>, base: u64) -> Result<(), NoMemory>
    ensures text { OnOk result (text.new.items ≡ text.old.items ++ base_line base) }
    ensures fits { OnOk result (base < 2 ^ 64) }
{
    text.extend_from_slice(b"base")?;
    push_address(text, base)?;
    text.push(b'\n')?;
    Ok(())
}

fn push_areas(text: &mut Vec<u8>, areas: &[AreaAt]) -> Result<(), NoMemory>
    ensures text { OnOk result (text.new.items ≡ text.old.items ++ each areas.now area_line) }
    ensures fits { OnOk result (All AreaFits areas.now) }
{
    for (number, area) in areas.iter().enumerate() {
        push_area(text, number, area)?;
    }
    Ok(())
}

fn push_pieces(text: &mut Vec<u8>, pieces: &[Placed]) -> Result<(), NoMemory>
    ensures text { OnOk result (text.new.items ≡ text.old.items ++ flat_map placed_line pieces.now) }
    ensures fits { OnOk result (All PlacedFits pieces.now) }
{
    for placed in pieces {
        push_placed(text, placed)?;
    }
    Ok(())
}

#[tactic(auto, unfolding(crate::specs::MapText::area_line))]
fn push_area(text: &mut Vec<u8>, number: usize, area: &AreaAt) -> Result<(), NoMemory>
    ensures text { OnOk result (text.new.items ≡ text.old.items ++ area_line number area.now) }
    ensures fits { OnOk result (AreaFits area.now) }
{
    text.extend_from_slice(b"area ")?;
    push_area_name(text, number)?;
    push_address(text, area.start)?;
    push_address(text, area.end)?;
    text.push(b'\n')?;
    Ok(())
}

#[tactic(auto, unfolding(crate::specs::MapText::area_name))]
fn push_area_name(text: &mut Vec<u8>, number: usize) -> Result<(), NoMemory>
    ensures { OnOk result (text.new.items ≡ text.old.items ++ area_name number) }
{
    match map_name(number) {
        Some(name) => text.extend_from_slice(name)?,
        None => {
            text.extend_from_slice(b"run")?;
            text.extend_from_slice(Buffer::new().format(number - AREAS.len()).as_bytes())?;
        }
    }
    Ok(())
}

#[tactic(auto, unfolding(crate::specs::MapText::placed_line))]
fn push_placed(text: &mut Vec<u8>, placed: &Placed) -> Result<(), NoMemory>
    ensures text { OnOk result (text.new.items ≡ text.old.items ++ placed_line placed.now) }
    ensures fits { OnOk result (PlacedFits placed.now) }
{
    match placed.id {
        PieceId::Section { input, section } => {
            text.extend_from_slice(b"piece")?;
            push_number(text, input)?;
            push_number(text, section)?;
        }
        PieceId::Common(number) => {
            text.extend_from_slice(b"common")?;
            push_number(text, number)?;
        }
        PieceId::Gap(class) => {
            text.extend_from_slice(b"gap ")?;
            text.extend_from_slice(class_name(class))?;
        }
    }
    push_address(text, placed.address)?;
    push_address(text, placed.size)?;
    text.push(b'\n')?;
    Ok(())
}

fn class_name(class: Class) -> &'static [u8]
    ensures { result.now ≡ class_name class }
{
    match class {
        Class::Text => b"text",
        Class::Rodata => b"rodata",
        Class::Rwdata => b"data",
        Class::Bss => b"bss",
    }
}

// a space and the number
fn push_number(text: &mut Vec<u8>, number: u32) -> Result<(), NoMemory>
    ensures { OnOk result (text.new.items ≡ text.old.items ++ 32 ∷ decimal number) }
{
    text.push(b' ')?;
    text.extend_from_slice(Buffer::new().format(number).as_bytes())?;
    Ok(())
}

// a space and the address or size
#[tactic(auto, unfolding(crate::specs::MapText::hexadecimal))]
fn push_address(text: &mut Vec<u8>, address: u64) -> Result<(), NoMemory>
    ensures { OnOk result (text.new.items ≡ text.old.items ++ 32 ∷ hexadecimal address) }
{
    let mut digits = [0; 16];
    hex::encode_to_slice(address.to_be_bytes(), &mut digits).unwrap();
    text.extend_from_slice(b" 0x")?;
    text.extend_from_slice(&digits)?;
    Ok(())
}
