// The printer of kit texts.
ghost use Rattle.std.specs.Prelude.{◌≡◌, ◌++◌, ◌∷◌, [], if◌then◌else◌, codes, IfOk, OnOk};
ghost use Rattle.std.specs.List.{flat_map};
ghost use Rattle.std.specs.Option.{option_map_or};
ghost use Rattle.kl_text.specs.Lines.{words_line};
ghost use Rattle.kl_model.specs.declared.kit.KitKind.TheVariants.{Library};
ghost use Rattle.kl_kit.specs.declared.keyword.Keyword.TheVariants as keyword;
ghost use Rattle.kl_kit.specs.KitPrints.{area_word, base_line, base_word, class_word, edge_line, end_word, head_lines, input_line, kind_word, kit_text, library_lines, part_keyword, run_line, word_line};
ghost use Rattle.kl_kit.specs.KitTexts.{kit_faults, kit_of};
ghost use Rattle.kl_kit.specs.ReadableKits.{IsReadable, SameKit};

use crate::keyword::Keyword;
use kl_base::{Class, NoMemory};
use kl_model::area::map_name;
use kl_model::{EdgeLine, Kit, KitInput, KitKind, Part, Run, Word};
use std::alloc::Global;

/// The text of a kit. Where each of its words is in its form and nothing comes twice that may not, as in each kit that was read, the
/// text reads as that kit, the numbers of lines aside. Texts of more than 4 MiB aren't read. The only error is want of memory.
pub fn print_kit(alloc: Global, kit: &Kit) -> Result<Vec<u8>, NoMemory>
    ensures text { IfOk result (λ text. text.items ≡ kit_text kit.now) }
    ensures sound { IsReadable kit.now → IfOk result (λ text. kit_faults text.items ≡ []) }
    ensures same { IsReadable kit.now → IfOk result (λ text. SameKit (kit_of text.items) kit.now) }
{
    let mut text = Vec::new(alloc);
    push_head(&mut text, kit)?;
    push_inputs(&mut text, kit.inputs.items())?;
    push_runs(&mut text, kit.runs.items())?;
    push_edges(&mut text, kit.edges.items())?;
    push_words(&mut text, Keyword::Drop, kit.drops.items())?;
    if kit.kind == KitKind::Library {
        push_library(&mut text, kit)?;
    }
    Ok(text)
}

fn push_head(text: &mut Vec<u8>, kit: &Kit) -> Result<(), NoMemory>
    ensures { OnOk result (text.new.items ≡ text.old.items ++ head_lines kit.now) }
{
    push_word(text, Keyword::Kind, kind_word(kit.kind))?;
    push_word(text, Keyword::Output, kit.output.bytes())?;
    push_base(text, kit.kind, kit.base)?;
    push_some(text, Keyword::Entry, &kit.entry)
}

fn push_library(text: &mut Vec<u8>, kit: &Kit) -> Result<(), NoMemory>
    ensures { OnOk result (text.new.items ≡ text.old.items ++ library_lines Library kit.now) }
{
    push_some(text, Keyword::Soname, &kit.soname)?;
    push_words(text, Keyword::Needed, kit.needed.items())?;
    push_words(text, Keyword::Export, kit.exports.items())?;
    push_symbolic(text, kit.symbolic)?;
    push_refuse(text, kit.refuse)
}

fn push_symbolic(text: &mut Vec<u8>, symbolic: bool) -> Result<(), NoMemory>
    ensures { OnOk result (text.new.items ≡ text.old.items ++ (if symbolic then words_line (codes "symbolic" ∷ []) else [])) }
{
    if symbolic {
        text.extend_from_slice(b"symbolic\n")?;
    }
    Ok(())
}

fn push_refuse(text: &mut Vec<u8>, refuse: bool) -> Result<(), NoMemory>
    ensures { OnOk result (text.new.items ≡ text.old.items ++ (if refuse then word_line keyword.Undefined (codes "refuse") else [])) }
{
    if refuse {
        push_word(text, Keyword::Undefined, b"refuse")?;
    }
    Ok(())
}

/// The line of a keyword and one word.
fn push_word(text: &mut Vec<u8>, keyword: Keyword, word: &[u8]) -> Result<(), NoMemory>
    ensures { OnOk result (text.new.items ≡ text.old.items ++ word_line keyword word.now) }
{
    text.extend_from_slice(keyword.word())?;
    text.push(b' ')?;
    text.extend_from_slice(word)?;
    text.push(b'\n')?;
    Ok(())
}

fn push_some(text: &mut Vec<u8>, keyword: Keyword, word: &Option<Word>) -> Result<(), NoMemory>
    ensures { OnOk result (text.new.items ≡ text.old.items ++ option_map_or (word_line keyword) word.now []) }
{
    match word {
        Some(word) => push_word(text, keyword, word.items()),
        None => Ok(()),
    }
}

fn push_words(text: &mut Vec<u8>, keyword: Keyword, words: &[Word]) -> Result<(), NoMemory>
    ensures { OnOk result (text.new.items ≡ text.old.items ++ flat_map (word_line keyword) words.now) }
{
    for word in words {
        push_word(text, keyword, word.items())?;
    }
    Ok(())
}

fn push_inputs(text: &mut Vec<u8>, inputs: &[KitInput]) -> Result<(), NoMemory>
    ensures { OnOk result (text.new.items ≡ text.old.items ++ flat_map input_line inputs.now) }
{
    for input in inputs {
        push_word(text, part_keyword(input.place), input.file.items())?;
    }
    Ok(())
}

fn push_runs(text: &mut Vec<u8>, runs: &[Run]) -> Result<(), NoMemory>
    ensures { OnOk result (text.new.items ≡ text.old.items ++ flat_map run_line runs.now) }
{
    for run in runs {
        push_run(text, run)?;
    }
    Ok(())
}

fn push_run(text: &mut Vec<u8>, run: &Run) -> Result<(), NoMemory>
    ensures { OnOk result (text.new.items ≡ text.old.items ++ run_line run.now) }
{
    text.extend_from_slice(b"run")?;
    push_blank_word(text, run.section.items())?;
    push_blank_word(text, class_word(run.class))?;
    push_blank_word(text, run.start.items())?;
    push_blank_word(text, run.end.items())?;
    text.push(b'\n')?;
    Ok(())
}

/// A space and the word.
fn push_blank_word(text: &mut Vec<u8>, word: &[u8]) -> Result<(), NoMemory>
    ensures { OnOk result (text.new.items ≡ text.old.items ++ 32 ∷ word.now) }
{
    text.push(b' ')?;
    text.extend_from_slice(word)?;
    Ok(())
}

fn push_edges(text: &mut Vec<u8>, edges: &[EdgeLine]) -> Result<(), NoMemory>
    ensures { OnOk result (text.new.items ≡ text.old.items ++ flat_map edge_line edges.now) }
{
    for edge in edges {
        push_edge(text, edge)?;
    }
    Ok(())
}

fn push_edge(text: &mut Vec<u8>, edge: &EdgeLine) -> Result<(), NoMemory>
    ensures { OnOk result (text.new.items ≡ text.old.items ++ edge_line edge.now) }
{
    text.extend_from_slice(b"edge")?;
    push_blank_word(text, edge.symbol.items())?;
    push_blank_word(text, area_word(edge.area))?;
    push_blank_word(text, end_word(edge.end))?;
    text.push(b'\n')?;
    Ok(())
}

/// The line of a base, in the text of a kernel.
fn push_base(text: &mut Vec<u8>, kind: KitKind, base: u64) -> Result<(), NoMemory>
    ensures { OnOk result (text.new.items ≡ text.old.items ++ base_line kind base) }
{
    match kind {
        KitKind::Kernel => push_address(text, base),
        KitKind::Library => Ok(()),
    }
}

fn push_address(text: &mut Vec<u8>, base: u64) -> Result<(), NoMemory>
    ensures { OnOk result (text.new.items ≡ text.old.items ++ word_line keyword.Base (base_word base)) }
{
    let mut digits = [0; 16];
    hex::encode_to_slice(base.to_be_bytes(), &mut digits).unwrap();
    text.extend_from_slice(b"base 0x")?;
    text.extend_from_slice(&digits)?;
    text.push(b'\n')?;
    Ok(())
}

fn kind_word(kind: KitKind) -> &'static [u8]
    ensures { result.now ≡ kind_word kind }
{
    match kind {
        KitKind::Kernel => b"kernel",
        KitKind::Library => b"library",
    }
}

fn class_word(class: Class) -> &'static [u8]
    ensures { result.now ≡ class_word class }
{
    match class {
        Class::Text => b"text",
        Class::Rodata => b"rodata",
        Class::Rwdata => b"data",
        Class::Bss => b"bss",
    }
}

fn part_keyword(part: Part) -> Keyword
    ensures { result ≡ part_keyword part }
{
    match part {
        Part::Head => Keyword::Head,
        Part::Drawn => Keyword::Object,
        Part::Tail => Keyword::Tail,
    }
}

fn area_word(area: u32) -> &'static [u8]
    ensures { result.now ≡ area_word area }
{
    map_name(area as usize).unwrap_or(b"")
}

fn end_word(end: bool) -> &'static [u8]
    ensures { result.now ≡ end_word end }
{
    if end { b"end" } else { b"start" }
}
