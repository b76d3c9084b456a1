// Which sections are kept, and their pieces.
ghost use Rattle.std.specs.Prelude.{◌≡◌, ◌&&◌, not, ◌+◌, ◌<◌, ◌≤◌, ◌++◌, true, length, take, unwrap_or, IfOk, OnOk};
ghost use Rattle.kl_model.specs.Lists.{each};
ghost use Rattle.kl_model.specs.Texts.{has, text_at};
ghost use Rattle.kl_model.specs.Kept.{class_of as class_of_section};
ghost use Rattle.kl_model.specs.Areas.{class_number, named_area, typed_area};
ghost use Rattle.kl_model.specs.Graphs.{piece_of, input_pieces};
ghost use Rattle.kl_model.specs.Graphs.{section_pieces as pieces_of_sections};
ghost use Rattle.kl_model.specs.declared.kit.Kit.{Kit};
ghost use Rattle.kl_model.specs.declared.object.Input.{Input};
ghost use Rattle.kl_model.specs.Fit.{AreFit};
ghost use Rattle.kl_model.specs.Lists.{among};
ghost use Rattle.kl_model.specs.Kept.{run_area};
ghost use Rattle.kl_names.specs.Removed.{repeated_table};
ghost use Rattle.kl_sym.specs.SectionLines.{AreLines};
ghost use Rattle.kl_names.specs.Tables.{piece_table, piece_tables};

use crate::lines::SectionLines;
use kl_base::{Class, KIT_TEXT_LIMIT, NoMemory, Range};
use kl_elf::abi::{SHF_ALLOC, SHF_EXCLUDE, SHF_EXECINSTR, SHF_WRITE, SHT_NOBITS};
use kl_model::area::{class_number, named_area, typed_area};
use kl_model::{Input, Kit, Piece, PieceId, Section};
use kl_names::{PieceTable, RemovedTable, removed_sections};
use std::alloc::Global;

/// The pieces of a kit, and the table of each input.
#[derive(Drop)]
pub struct Pieced {
    pub pieces: Vec<Piece>,
    pub tables: Vec<PieceTable>,
}

/// Whether a section of this name is kept; `removed` says whether it is left out with its group.
fn is_kept(lines: &SectionLines<'_>, section: &Section, name: &[u8], removed: bool) -> bool
    ensures { (kit : Kit) → AreLines kit lines.now → result ≡ (has section.now.flags SHF_ALLOC && (not (has section.now.flags SHF_EXCLUDE) && (not (among kit.drops name.now) && not removed))) }
{
    section.flags & SHF_ALLOC != 0
        && section.flags & SHF_EXCLUDE == 0
        && !lines.is_dropped(name)
        && !removed
}

/// The class of a section.
pub(crate) fn class_of(section: &Section) -> Class
    ensures { result ≡ class_of_section section.now }
{
    if section.flags & SHF_EXECINSTR != 0 {
        Class::Text
    } else if section.flags & SHF_WRITE == 0 {
        Class::Rodata
    } else if section.kind == SHT_NOBITS {
        Class::Bss
    } else {
        Class::Rwdata
    }
}

/// The area of the sections of a class, a name and a type: that of the name, or else of the type, or else of a run, or else that of
/// the ordinary pieces of the class.
fn area_of(lines: &SectionLines<'_>, class: Class, name: &[u8], kind: u32) -> u32
    ensures { (kit : Kit) → AreLines kit lines.now → result ≡ unwrap_or (named_area class name.now) (unwrap_or (typed_area class kind) (unwrap_or (run_area kit class name.now) (class_number class))) }
{
    if let Some(area) = named_area(class, name) {
        return area;
    }
    if let Some(area) = typed_area(class, kind) {
        return area;
    }
    match lines.run_area(class, name) {
        Some(area) => area,
        None => class_number(class),
    }
}

/// The piece of section `number` of input `i`, which has this name.
fn section_piece(
    lines: &SectionLines<'_>,
    i: u32,
    number: u32,
    section: &Section,
    name: &[u8],
) -> Piece
    ensures { (kit : Kit) (x : Input) → AreLines kit lines.now → name.now ≡ text_at x.bytes section.now.name → result ≡ piece_of kit i x number section.now }
{
    let class = class_of(section);
    Piece {
        id: PieceId::Section {
            input: i,
            section: number,
        },
        class,
        area: area_of(lines, class, name, section.kind),
        size: section.size,
        align: section.align.max(1),
        bytes: Range {
            at: section.at,
            len: if section.kind == SHT_NOBITS {
                0
            } else {
                section.size
            },
        },
    }
}

/// Adds the pieces of input `i`, and gives their table. The pieces of the inputs before it are there.
fn push_pieces(
    alloc: Global,
    pieces: &mut Vec<Piece>,
    kit: &Kit,
    inputs: &[Input],
    lines: &SectionLines<'_>,
    removed: &RemovedTable,
    i: usize,
) -> Result<PieceTable, NoMemory>
    requires inputs { AreFit inputs.now }
    requires lines { AreLines kit.now lines.now }
    requires removed { removed.now ≡ repeated_table inputs.now i }
    requires input { i < length inputs.now }
    requires before { pieces.old.items ≡ each (take i inputs.now) (input_pieces kit.now inputs.now) }
    ensures pieces { OnOk result (pieces.new.items ≡ each (take (i + 1) inputs.now) (input_pieces kit.now inputs.now)) }
    ensures table { IfOk result (λ t. t ≡ piece_table kit.now inputs.now i) }
{
    let input = &inputs[i];
    let mut table = PieceTable::new(alloc);
    table.push(None)?;
    for (k, section) in input.object.sections.items().iter().enumerate() {
        let name = input.text(section.name);
        if is_kept(lines, section, name, removed.items()[k + 1]) {
            table.push(Some(pieces.len() as u32))?;
            pieces.push(section_piece(lines, i as u32, k as u32 + 1, section, name))?;
        } else {
            table.push(None)?;
        }
    }
    Ok(table)
}

/// The pieces of all kept sections, by input and section number, and the table of each input.
pub fn section_pieces(alloc: Global, kit: &Kit, inputs: &[Input]) -> Result<Pieced, NoMemory>
    requires inputs { AreFit inputs.now }
    requires drops { length kit.now.drops < KIT_TEXT_LIMIT }
    requires runs { length kit.now.runs < KIT_TEXT_LIMIT }
    ensures pieces { IfOk result (λ p. p.pieces.items ≡ pieces_of_sections kit.now inputs.now) }
    ensures tables { IfOk result (λ p. p.tables.items ≡ piece_tables kit.now inputs.now) }
{
    let lines = SectionLines::new(alloc, kit)?;
    let removed = removed_sections(alloc, inputs)?;
    let mut pieces = Vec::new(alloc);
    let mut tables = Vec::new(alloc);
    for i in 0..inputs.len() {
        let table = push_pieces(alloc, &mut pieces, kit, inputs, &lines, &removed[i], i)?;
        tables.push(table)?;
    }
    Ok(Pieced { pieces, tables })
}
