// The headers of an image.
ghost use Rattle.std.specs.Prelude.{ℕ, List, Option, ◌≡◌, ◌+◌, ◌*◌, ◌<◌, ◌≤◌, ◌^◌, ◌++◌, ◌==◌, if◌then◌else◌, flat_map, not, length, IfOk, IfSome, OnOk};
ghost use Rattle.kl_base.specs.declared.class.Class.{Class};
ghost use Rattle.kl_base.specs.declared.limits.TheConstants.{BASE_LIMIT};
ghost use Rattle.kl_model.specs.Areas.{class_number};
ghost use Rattle.kl_model.specs.Carries.{class_size, dynamic_segment as segment_of_dynamic, head_for, is_in_file, headers_segment as segment_of_headers, library_segments as segments_of_library, permission, segments_for};
ghost use Rattle.kl_model.specs.Leads.{address_of as address_of_target};
ghost use Rattle.kl_model.specs.Lists.{only_if};
ghost use Rattle.kl_model.specs.Sizes.{page_of};
ghost use Rattle.std.specs.Option.{option_map_or};
ghost use Rattle.kl_model.specs.Written.{ehdr_bytes, phdr_bytes};
ghost use Rattle.kl_model.specs.declared.area.TheConstants as area;
ghost use Rattle.kl_model.specs.declared.kit.KitKind.TheVariants.{Kernel, Library};
ghost use Rattle.kl_model.specs.declared.place.Gaps.{Gaps};
ghost use Rattle.kl_write.specs.InSpan.{IsAreaInSpan};
ghost use Rattle.kl_write.specs.LaidKits.{HasAreaAddresses, IsLaidKit, image_headers};
ghost use Rattle.kl_write.specs.Segments.{IsPageOf, segment_by, segments_by};
ghost use Rattle.kl_write.specs.Targets.{IsPlacedTarget};

use crate::address::address_of;
use crate::place::file_place;
use kl_base::{Class, NoMemory};
use kl_elf::abi::{
    EM_X86_64, ET_DYN, ET_EXEC, EV_CURRENT, IDENT, PF_R, PF_W, PF_X, PT_DYNAMIC, PT_LOAD,
};
use kl_elf::{Ehdr, Phdr, write_headers};
use kl_model::area::{DYNAMIC, class_number as number_of};
use kl_model::{Graph, Kit, KitKind, Placement};
use std::alloc::Global;

/// How many classes there are.
const CLASS_COUNT: usize = 4;

/// How many program headers a library has beside those of its classes: that of the headers, and `PT_DYNAMIC`.
const LIBRARY_COUNT: usize = 2;

/// The alignment of `PT_DYNAMIC`, in bytes: that of an entry's numbers.
const DYNAMIC_ALIGN: u64 = 8;

/// The permission of a class, of `PF_X`, `PF_W` and `PF_R`.
fn flags_of(class: Class) -> u32
    ensures { result ≡ permission class }
{
    match class {
        Class::Text => PF_R | PF_X,
        Class::Rodata => PF_R,
        Class::Rwdata | Class::Bss => PF_R | PF_W,
    }
}

/// How many bytes a class has.
fn size_of(placement: &Placement, class: Class) -> u64
    requires area { IsAreaInSpan placement.now (class_number class) }
    ensures { result ≡ class_size placement.now class }
{
    let area = placement.areas.items()[number_of(class) as usize];
    area.end.wrapping_sub(area.start)
}

/// How many bytes of a class of `size` bytes stand in the file: none of bss.
fn file_size(class: Class, size: u64) -> u64
    ensures { result ≡ (if is_in_file class then size else 0) }
{
    match class {
        Class::Bss => 0,
        Class::Text | Class::Rodata | Class::Rwdata => size,
    }
}

/// The program header of a class of `size` bytes (gABI, `Elf64_Phdr`). `page` is its alignment.
fn segment(kind: KitKind, placement: &Placement, class: Class, size: u64, page: u64) -> Phdr
    requires area { IsAreaInSpan placement.now (class_number class) }
    requires base { placement.now.base ≤ BASE_LIMIT }
    requires zero { kind ≡ Library → placement.now.base ≡ 0 }
    requires page { IsPageOf kind page }
    requires size { size ≡ class_size placement.now class }
    requires some { 0 < size }
    ensures { result ≡ segment_by kind page placement.now class }
{
    let start = placement.areas.items()[number_of(class) as usize].start;
    Phdr {
        kind: PT_LOAD,
        flags: flags_of(class),
        offset: file_place(kind, placement, start) as u64,
        vaddr: start,
        paddr: start,
        filesz: file_size(class, size),
        memsz: size,
        align: page,
    }
}

/// Pushes the program header of a class, if the class has a byte.
fn push_segment(
    segments: &mut Vec<Phdr>,
    kind: KitKind,
    placement: &Placement,
    class: Class,
    page: u64,
) -> Result<(), NoMemory>
    requires area { IsAreaInSpan placement.now (class_number class) }
    requires base { placement.now.base ≤ BASE_LIMIT }
    requires zero { kind ≡ Library → placement.now.base ≡ 0 }
    requires page { IsPageOf kind page }
    ensures { OnOk result (segments.new.items ≡ segments.old.items ++ only_if (not (class_size placement.now class == 0)) (segment_by kind page placement.now class)) }
{
    let size = size_of(placement, class);
    if size != 0 {
        segments.push(segment(kind, placement, class, size, page))?;
    }
    Ok(())
}

/// The program headers of the classes: one for each that has a byte.
fn class_segments(
    alloc: Global,
    kind: KitKind,
    placement: &Placement,
    page: u64,
) -> Result<Vec<Phdr>, NoMemory>
    requires areas { (c : Class) → IsAreaInSpan placement.now (class_number c) }
    requires base { placement.now.base ≤ BASE_LIMIT }
    requires zero { kind ≡ Library → placement.now.base ≡ 0 }
    requires page { IsPageOf kind page }
    ensures { IfOk result (λ v. v.items ≡ segments_by kind page placement.now) }
{
    let mut segments = Vec::with_capacity(alloc, CLASS_COUNT)?;
    push_segment(&mut segments, kind, placement, Class::Text, page)?;
    push_segment(&mut segments, kind, placement, Class::Rodata, page)?;
    push_segment(&mut segments, kind, placement, Class::Rwdata, page)?;
    push_segment(&mut segments, kind, placement, Class::Bss, page)?;
    Ok(segments)
}

/// The program header over the headers themselves, which a library has in memory from its address 0 on.
fn headers_segment(page: u64, size: u64) -> Phdr
    ensures { result ≡ segment_of_headers page size }
{
    Phdr {
        kind: PT_LOAD,
        flags: PF_R,
        offset: 0,
        vaddr: 0,
        paddr: 0,
        filesz: size,
        memsz: size,
        align: page,
    }
}

/// The program header over the dynamic section (gABI, `PT_DYNAMIC`).
fn dynamic_segment(placement: &Placement) -> Phdr
    requires area { IsAreaInSpan placement.now area.DYNAMIC }
    requires zero { placement.now.base ≡ 0 }
    ensures { result ≡ segment_of_dynamic placement.now }
{
    let dynamic = placement.areas.items()[DYNAMIC as usize];
    let size = dynamic.end.wrapping_sub(dynamic.start);
    Phdr {
        kind: PT_DYNAMIC,
        flags: flags_of(Class::Rwdata),
        offset: dynamic.start,
        vaddr: dynamic.start,
        paddr: dynamic.start,
        filesz: size,
        memsz: size,
        align: DYNAMIC_ALIGN,
    }
}

/// The program headers of a library: that of the headers, those of its classes, which are given, and `PT_DYNAMIC`.
fn library_segments(
    alloc: Global,
    placement: &Placement,
    page: u64,
    between: &[Phdr],
) -> Result<Vec<Phdr>, NoMemory>
    requires dynamic { IsAreaInSpan placement.now area.DYNAMIC }
    requires zero { placement.now.base ≡ 0 }
    requires between { between.now ≡ segments_by Library page placement.now }
    ensures { IfOk result (λ v. v.items ≡ segments_of_library page placement.now) }
{
    let count = LIBRARY_COUNT + between.len();
    let mut segments = Vec::with_capacity(alloc, count)?;
    let size = (Ehdr::SIZE + Phdr::SIZE * count) as u64;
    segments.push(headers_segment(page, size))?;
    segments.extend_from_slice(between)?;
    segments.push(dynamic_segment(placement))?;
    Ok(segments)
}

/// All program headers.
fn segments(
    alloc: Global,
    kind: KitKind,
    placement: &Placement,
    page: u64,
) -> Result<Vec<Phdr>, NoMemory>
    requires areas { (c : Class) → IsAreaInSpan placement.now (class_number c) }
    requires dynamic { kind ≡ Library → IsAreaInSpan placement.now area.DYNAMIC }
    requires base { placement.now.base ≤ BASE_LIMIT }
    requires zero { kind ≡ Library → placement.now.base ≡ 0 }
    requires page { IsPageOf kind page }
    ensures { IfOk result (λ v. v.items ≡ segments_for kind page placement.now) }
{
    let classes = class_segments(alloc, kind, placement, page)?;
    match kind {
        KitKind::Kernel => Ok(classes),
        KitKind::Library => library_segments(alloc, placement, page, &classes),
    }
}

/// The address of the entry, or 0 where there is none.
fn entry_of(graph: &Graph, placement: &Placement) -> u64
    requires entry { IfSome graph.now.entry (IsPlacedTarget graph.now placement.now) }
    ensures { result ≡ option_map_or (address_of_target placement.now graph.now) graph.now.entry 0 }
{
    match graph.entry {
        Some(target) => address_of(graph, placement, target),
        None => 0,
    }
}

/// The header of an image with this number of program headers (gABI, `Elf64_Ehdr`), which has no section headers.
fn file_head(kind: KitKind, graph: &Graph, placement: &Placement, page: u64, segments: u16) -> Ehdr
    requires entry { IfSome graph.now.entry (IsPlacedTarget graph.now placement.now) }
    requires segments { length (segments_for kind page placement.now) ≡ segments }
    ensures { result ≡ head_for kind (segments_for kind page placement.now) placement.now graph.now }
{
    Ehdr {
        ident: IDENT,
        kind: match kind {
            KitKind::Kernel => ET_EXEC,
            KitKind::Library => ET_DYN,
        },
        machine: EM_X86_64,
        version: u32::from(EV_CURRENT),
        entry: entry_of(graph, placement),
        phoff: if segments == 0 { 0 } else { Ehdr::SIZE as u64 },
        shoff: 0,
        flags: 0,
        ehsize: Ehdr::SIZE as u16,
        phentsize: Phdr::SIZE as u16,
        phnum: segments,
        shentsize: 0,
        shnum: 0,
        shstrndx: 0,
    }
}

/// Writes the headers of an image over all bytes.
fn put_headers(bytes: &mut [u8], head: &Ehdr, segments: &[Phdr])
    requires room { length bytes.old ≡ Ehdr.SIZE + Phdr.SIZE * length segments.now }
    ensures { bytes.new ≡ ehdr_bytes head.now ++ flat_map phdr_bytes segments.now }
{
    write_headers(bytes, head, segments);
}

/// The bytes of a file header with its program headers.
fn bytes_of_headers(alloc: Global, head: &Ehdr, segments: &[Phdr]) -> Result<Vec<u8>, NoMemory>
    requires few { length segments.now < 2 ^ 16 }
    ensures { IfOk result (λ v. v.items ≡ ehdr_bytes head.now ++ flat_map phdr_bytes segments.now) }
{
    let mut bytes = vec![in alloc; 0; Ehdr::SIZE + Phdr::SIZE * segments.len()]?;
    put_headers(&mut bytes, head, segments);
    Ok(bytes)
}

/// The bytes of the headers, where the classes stand in the span.
fn header_bytes(
    alloc: Global,
    kind: KitKind,
    graph: &Graph,
    placement: &Placement,
    page: u64,
) -> Result<Vec<u8>, NoMemory>
    requires areas { (c : Class) → IsAreaInSpan placement.now (class_number c) }
    requires dynamic { kind ≡ Library → IsAreaInSpan placement.now area.DYNAMIC }
    requires base { placement.now.base ≤ BASE_LIMIT }
    requires zero { kind ≡ Library → placement.now.base ≡ 0 }
    requires page { IsPageOf kind page }
    requires entry { IfSome graph.now.entry (IsPlacedTarget graph.now placement.now) }
    requires few { length (segments_for kind page placement.now) < 2 ^ 16 }
    ensures { IfOk result (λ v. v.items ≡ ehdr_bytes (head_for kind (segments_for kind page placement.now) placement.now graph.now) ++ flat_map phdr_bytes (segments_for kind page placement.now)) }
{
    let segments = segments(alloc, kind, placement, page)?;
    let head = file_head(kind, graph, placement, page, segments.len() as u16);
    bytes_of_headers(alloc, &head, &segments)
}

/// The bytes of an image's headers: the file header and the program headers, one for each class that has a byte, in a library one for
/// the headers and one for the dynamic section too. `page` is the page of the kit, in bytes.
pub fn headers(
    alloc: Global,
    kit: &Kit,
    graph: &Graph,
    placement: &Placement,
    page: u64,
) -> Result<Vec<u8>, NoMemory>
    requires laid { (gaps : Option Gaps) × (order : List ℕ) × IsLaidKit kit.now graph.now gaps order placement.now }
    requires addresses { HasAreaAddresses placement.now }
    requires page { page ≡ page_of kit.now graph.now }
    ensures { IfOk result (λ v. v.items ≡ image_headers kit.now placement.now graph.now) }
{
    header_bytes(alloc, kit.kind, graph, placement, page)
}
