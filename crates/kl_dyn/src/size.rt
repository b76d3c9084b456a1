// How large the areas are that the linker makes for a library.
ghost use Rattle.std.specs.Prelude.{◌≡◌, ◌+◌, ◌*◌, ◌<◌, ◌≤◌, ◌^◌, false, true, length, sum_by};
ghost use Rattle.kl_base.specs.declared.limits.TheConstants.{FIELD_COUNT_LIMIT, KIT_TEXT_LIMIT, SIZE_LIMIT};
ghost use Rattle.kl_model.specs.Fit.{IsKit};
ghost use Rattle.kl_model.specs.Lists.{up};
ghost use Rattle.kl_model.specs.Sizes.{bucket_count, ended_size, has_bytes, made_of, names_size, soname_size, strings_size, symbol_count, tables_of, tags};
ghost use Rattle.kl_model.specs.Slots.{jump_entries, rela_entries, slots, stubs};
ghost use Rattle.kl_model.specs.Sound.{IsSoundGraph};
ghost use Rattle.kl_model.specs.declared.kit.KitKind.TheVariants.{Library};
ghost use Rattle.kl_dyn.specs.Parts.{AreParts};

use crate::count::{EntryCounts, entry_counts};
use kl_elf::{Dyn, Rela, Sym};
use kl_model::area::{FINI, FINI_ARRAY, INIT, INIT_ARRAY};
use kl_model::{Graph, Kit, Made, Needs, Word};

/// The size of a slot of the global offset table, in bytes (psABI).
const SLOT_SIZE: u64 = 8;

/// The size of a stub, in bytes.
const STUB_SIZE: u64 = 16;

/// The size of a word of the hash table, in bytes (gABI, "Hash Table").
const WORD_SIZE: u64 = 4;

/// The alignment of each part of the tables, in bytes.
const PART_ALIGN: u64 = 8;

/// Where the parts of the tables stand in them, in bytes; the hash table stands first.
#[derive(Clone, Copy, Debug)]
pub struct Parts {
    /// The symbols.
    pub symbols: u64,
    /// The strings.
    pub strings: u64,
    /// The entries of the types `R_X86_64_RELATIVE`, `R_X86_64_64` and `R_X86_64_GLOB_DAT`.
    pub relas: u64,
    /// The entries of the type `R_X86_64_JUMP_SLOT`.
    pub jumps: u64,
    /// Where those end.
    pub stop: u64,
}

/// The next multiple of 8 from a number on.
fn aligned(size: u64) -> u64
    requires { size < 2 ^ 60 }
    ensures { result ≡ up size 8 }
{
    size.next_multiple_of(PART_ALIGN)
}

/// How many symbols the symbol table has, symbol 0 among them.
pub fn symbol_count(graph: &Graph) -> u64
    requires { length graph.now.names < 2 ^ 32 }
    ensures { result ≡ symbol_count graph.now }
{
    1 + graph.names.items().len() as u64
}

/// How many buckets its hash table has.
pub fn bucket_count(graph: &Graph) -> u64
    requires { length graph.now.names < 2 ^ 32 }
    ensures { result ≡ bucket_count graph.now }
{
    symbol_count(graph) / 2 + 1
}

/// How many bytes of the strings the names take, with the zero byte before them.
pub fn names_size(kit: &Kit, graph: &Graph) -> u64
    requires { IsSoundGraph kit.now graph.now }
    ensures size { result ≡ names_size graph.now }
    ensures small { result ≤ 2 ^ 52 }
{
    let mut size = 1;
    for name in graph.names.items() {
        size += 1 + name.name.len;
    }
    size
}

/// How many bytes words take, each with a zero byte behind it.
fn words_size(words: &[Word]) -> u64
    requires { length words.now < KIT_TEXT_LIMIT }
    ensures size { result ≡ sum_by ended_size words.now }
    ensures small { result ≤ SIZE_LIMIT }
{
    let mut size = 0;
    for word in words {
        size += 1 + word.items().len() as u64;
    }
    size
}

/// How many bytes the soname takes.
pub fn soname_size(kit: &Kit) -> u64
    ensures size { result ≡ soname_size kit.now }
    ensures small { result ≤ 2 ^ 8 }
{
    match &kit.soname {
        Some(soname) => 1 + soname.items().len() as u64,
        None => 0,
    }
}

/// How many bytes the strings take.
pub fn strings_size(kit: &Kit, graph: &Graph) -> u64
    requires kit { IsKit kit.now }
    requires sound { IsSoundGraph kit.now graph.now }
    ensures size { result ≡ strings_size kit.now graph.now }
    ensures small { result ≤ 2 ^ 53 }
{
    names_size(kit, graph) + (soname_size(kit) + words_size(kit.needed.items()))
}

/// Where the parts of the tables stand.
pub fn table_parts(kit: &Kit, graph: &Graph, counts: EntryCounts) -> Parts
    requires kit { IsKit kit.now }
    requires sound { IsSoundGraph kit.now graph.now }
    requires relas { counts.relas ≡ length (rela_entries graph.now) }
    requires jumps { counts.jumps ≡ length (jump_entries graph.now) }
    requires few { counts.relas + counts.jumps ≤ 2 * FIELD_COUNT_LIMIT }
    ensures parts { AreParts (tables_of kit.now graph.now) result }
    ensures small { result.stop ≤ 2 ^ 56 }
{
    let symbol_count = symbol_count(graph);
    let words = bucket_count(graph) + symbol_count;
    let symbols = aligned(2 * WORD_SIZE + WORD_SIZE * words);
    let strings = symbols + Sym::SIZE as u64 * symbol_count;
    let relas = aligned(strings + strings_size(kit, graph));
    let jumps = relas + Rela::SIZE as u64 * counts.relas as u64;
    Parts {
        symbols,
        strings,
        relas,
        jumps,
        stop: jumps + Rela::SIZE as u64 * counts.jumps as u64,
    }
}

/// Whether a piece of an area has a byte.
pub fn has_bytes(graph: &Graph, area: u32) -> bool
    ensures { result ≡ has_bytes graph.now area }
{
    graph
        .pieces
        .items()
        .iter()
        .any(|piece| piece.area == area && piece.size != 0)
}

/// How many of a number of things there are, where there are some.
fn where_some(some: bool, count: u64) -> u64
    requires { count ≤ 8 }
    ensures some { some ≡ true → result ≡ count }
    ensures none { some ≡ false → result ≡ 0 }
{
    if some { count } else { 0 }
}

/// How many tags the dynamic section has behind its `DT_NEEDED` entries.
pub fn tag_count(kit: &Kit, graph: &Graph, counts: EntryCounts) -> u64
    requires relas { counts.relas ≡ length (rela_entries graph.now) }
    requires jumps { counts.jumps ≡ length (jump_entries graph.now) }
    ensures count { result ≡ length (tags kit.now graph.now) }
    ensures small { result ≤ 32 }
{
    where_some(kit.soname.is_some(), 1)
        + where_some(has_bytes(graph, INIT), 1)
        + where_some(has_bytes(graph, FINI), 1)
        + where_some(has_bytes(graph, INIT_ARRAY), 2)
        + where_some(has_bytes(graph, FINI_ARRAY), 2)
        + 5
        + where_some(counts.relas != 0, 3)
        + where_some(counts.jumps != 0, 4)
        + 2
}

/// The sizes in bytes of the areas that the linker makes for a library, whose graph needs these slots and stubs: each at most 2^56.
pub fn table_sizes(kit: &Kit, graph: &Graph, needs: &Needs) -> Made
    requires kit { IsKit kit.now }
    requires library { kit.now.kind ≡ Library }
    requires sound { IsSoundGraph kit.now graph.now }
    requires slots { needs.now.slots ≡ slots graph.now }
    requires stubs { needs.now.stubs ≡ stubs graph.now }
    ensures sizes { result ≡ made_of kit.now graph.now }
    ensures small_stubs { result.stubs ≤ 2 ^ 56 }
    ensures small_tables { result.tables ≤ 2 ^ 56 }
    ensures small_got { result.got ≤ 2 ^ 56 }
    ensures small_dynamic { result.dynamic ≤ 2 ^ 56 }
{
    let counts = entry_counts(graph, needs);
    Made {
        stubs: STUB_SIZE * needs.stubs.items().len() as u64,
        tables: table_parts(kit, graph, counts).stop,
        got: SLOT_SIZE * needs.slots.items().len() as u64,
        dynamic: Dyn::SIZE as u64
            * (kit.needed.items().len() as u64 + tag_count(kit, graph, counts)),
    }
}
