// An image that is made window by window.
ghost use Rattle.std.specs.Prelude.{ℕ, List, ◌≡◌, ◌+◌, ◌<◌, ◌^◌, ◌∷◌, [], length, map, slice_index};
ghost use Rattle.kl_model.specs.Areas.{class_number};
ghost use Rattle.kl_model.specs.Image.{image_byte};
ghost use Rattle.kl_model.specs.Leads.{filed_value};
ghost use Rattle.kl_model.specs.Tables.{made_bytes};
ghost use Rattle.kl_model.specs.declared.area.TheConstants as area;
ghost use Rattle.kl_write.specs.InSpan.{HasAreaRoom};
ghost use Rattle.kl_write.specs.LaidKits.{HasAreaAddresses, HasMadeBytes, HaveSources, IsLaidKit, image_headers};
ghost use Rattle.kl_write.specs.Windows.{Shows};
ghost use Rattle.kl_write.specs.Writes.{made_write};

use crate::numbers::write_fields;
use crate::padding::{pad, pad_gaps};
use crate::pieces::write_pieces;
use crate::place::file_place;
use crate::window::put_window;
use kl_model::area::{DYNAMIC, GOT, STUBS, TABLES};
use kl_model::{Gaps, Graph, Input, Kit, KitKind, Placement};

/// The bytes of the areas that the linker makes. In a kernel only `got` has some.
#[derive(Debug, Drop)]
pub struct MadeBytes {
    /// The stubs.
    pub stubs: Vec<u8>,
    /// The dynamic tables.
    pub tables: Vec<u8>,
    /// The global offset table.
    pub got: Vec<u8>,
    /// The dynamic section.
    pub dynamic: Vec<u8>,
}

/// What the bytes of an image are made of, beside those of its inputs.
#[derive(Debug, Drop)]
pub struct Plan<'a> {
    /// The kit.
    pub kit: &'a Kit,
    /// Its link graph.
    pub graph: &'a Graph,
    /// The gaps, if there are some.
    pub gaps: Option<Gaps>,
    /// Where everything stands.
    pub placement: &'a Placement,
    /// The bytes of the headers.
    pub head: Vec<u8>,
    /// The bytes of the areas that the linker makes.
    pub made: MadeBytes,
    /// What each field holds in the file, modulo 2^64.
    pub values: Vec<u64>,
}

/// Writes the bytes of an area that the linker makes.
fn write_area(
    out: &mut [u8],
    at: usize,
    kind: KitKind,
    placement: &Placement,
    number: u32,
    bytes: &[u8],
)
    requires area { HasAreaRoom placement.now number (length bytes.now) }
    requires window { at + length out.old < 2 ^ 63 }
    ensures { Shows out.old out.new at (made_write kind placement.now number bytes.now ∷ []) }
{
    let start = placement.areas.items()[number as usize].start;
    put_window(out, at, file_place(kind, placement, start), bytes);
}

/// Writes the areas that the linker makes.
fn write_made(out: &mut [u8], at: usize, kind: KitKind, placement: &Placement, made: &MadeBytes)
    requires stubs { HasAreaRoom placement.now area.STUBS (length made.now.stubs.items) }
    requires tables { HasAreaRoom placement.now area.TABLES (length made.now.tables.items) }
    requires got { HasAreaRoom placement.now area.GOT (length made.now.got.items) }
    requires dynamic { HasAreaRoom placement.now area.DYNAMIC (length made.now.dynamic.items) }
    requires window { at + length out.old < 2 ^ 63 }
    ensures { Shows out.old out.new at (made_write kind placement.now area.STUBS made.now.stubs.items ∷ made_write kind placement.now area.TABLES made.now.tables.items ∷ made_write kind placement.now area.GOT made.now.got.items ∷ made_write kind placement.now area.DYNAMIC made.now.dynamic.items ∷ []) }
{
    write_area(out, at, kind, placement, STUBS, &made.stubs);
    write_area(out, at, kind, placement, TABLES, &made.tables);
    write_area(out, at, kind, placement, GOT, &made.got);
    write_area(out, at, kind, placement, DYNAMIC, &made.dynamic);
}

/// Fills the window `out`, which stands from byte `at` of the file on, with the bytes of an image, and with zeros behind the image's
/// end. What stood in the window before shows nowhere.
pub fn fill(out: &mut [u8], at: u64, inputs: &[Input], plan: &Plan)
    requires laid { (order : List ℕ) × IsLaidKit plan.now.kit.now plan.now.graph.now plan.now.gaps order plan.now.placement.now }
    requires addresses { HasAreaAddresses plan.now.placement.now }
    requires sources { HaveSources inputs.now plan.now.graph.now }
    requires head { plan.now.head.items ≡ image_headers plan.now.kit.now plan.now.placement.now plan.now.graph.now }
    requires sizes { HasMadeBytes plan.now.kit.now inputs.now plan.now.graph.now plan.now.placement.now }
    requires stubs { plan.now.made.stubs.items ≡ made_bytes plan.now.kit.now inputs.now plan.now.graph.now plan.now.placement.now area.STUBS }
    requires tables { plan.now.made.tables.items ≡ made_bytes plan.now.kit.now inputs.now plan.now.graph.now plan.now.placement.now area.TABLES }
    requires got { plan.now.made.got.items ≡ made_bytes plan.now.kit.now inputs.now plan.now.graph.now plan.now.placement.now area.GOT }
    requires dynamic { plan.now.made.dynamic.items ≡ made_bytes plan.now.kit.now inputs.now plan.now.graph.now plan.now.placement.now area.DYNAMIC }
    requires values { plan.now.values.items ≡ map (filed_value plan.now.kit.now plan.now.placement.now plan.now.graph.now) plan.now.graph.now.fields }
    requires window { at + length out.old < 2 ^ 63 }
    ensures long { length out.new ≡ length out.old }
    ensures bytes { (k : ℕ) → k < length out.new → slice_index out.new k ≡ image_byte plan.now.kit.now inputs.now plan.now.graph.now plan.now.gaps plan.now.placement.now (at + k) }
{
    let at = at as usize;
    let kind = plan.kit.kind;
    pad(out, at, kind, plan.placement);
    write_pieces(out, at, inputs, plan.graph, kind, plan.placement);
    pad_gaps(out, at, plan.graph, plan.gaps, kind, plan.placement);
    write_made(out, at, kind, plan.placement, &plan.made);
    write_fields(out, at, plan.graph, kind, plan.placement, &plan.values);
    put_window(out, at, 0, &plan.head);
}
