// The fault of a link, by the names of files, sections and symbols.
use crate::source::{InputName, KitText, Source, name_of_section, text_at};
use kl_base::NoMemory;
use kl_elf::abi::STT_SECTION;
use kl_explain::{SectionName, Shown, TypeName};
use kl_model::{FieldAt, Kit, LinkFault, RawField, ValueRange, relocation_type};
use std::fmt::Write;

/// The numbers of the inputs that a fault names.
pub fn inputs_of(fault: &LinkFault) -> [Option<u32>; 2] {
    match fault {
        LinkFault::Undefined { from, .. }
        | LinkFault::Kind { from, .. }
        | LinkFault::Range { from, .. }
        | LinkFault::NotFixed { from }
        | LinkFault::ReadOnlyField { from }
        | LinkFault::Removed { from } => [Some(from.input), None],
        LinkFault::Doubled { first, second, .. } => [Some(first.0), Some(second.0)],
        _ => [None, None],
    }
}

/// Tells the fault of a link, from those of its inputs that could be read again.
pub fn tell_fault(
    text: &mut String,
    kit: &KitText,
    sources: &[Source],
    fault: &LinkFault,
) -> Result<(), NoMemory> {
    match fault {
        LinkFault::Undefined { name, from } => {
            let name = Shown(name.items());
            write!(text, "undefined symbol '{name}', referenced by ")?;
            tell_place(text, sources, from)?;
        }
        LinkFault::Doubled {
            name,
            first,
            second,
        } => {
            let name = Shown(name.items());
            write!(text, "'{name}' is defined twice: by ")?;
            tell_symbol(text, sources, *first)?;
            write!(text, " and by ")?;
            tell_symbol(text, sources, *second)?;
        }
        LinkFault::NoEntry { .. } | LinkFault::EdgeClash { .. } | LinkFault::Span { .. } => {
            return tell_kit_fault(text, kit, fault);
        }
        LinkFault::NoMemory => write!(text, "out of memory")?,
        _ => return tell_field_fault(text, sources, fault),
    }
    Ok(())
}

/// Tells a fault of the kit as a whole, behind the name of its text.
fn tell_kit_fault(text: &mut String, kit: &KitText, fault: &LinkFault) -> Result<(), NoMemory> {
    let file = Shown(kit.name.bytes());
    write!(text, "{file}: ")?;
    match fault {
        LinkFault::NoEntry { name } => {
            let name = Shown(name.items());
            write!(
                text,
                "no object of the kit defines the entry '{name}' as a GLOBAL or WEAK symbol"
            )?;
        }
        LinkFault::EdgeClash { name } => tell_clash(text, kit, name.items())?,
        LinkFault::Span { found, limit } => {
            write!(
                text,
                "the image would span {found} bytes of memory, and at most {limit} are linked"
            )?;
        }
        _ => write!(text, "{fault}")?,
    }
    Ok(())
}

/// Tells the symbol of an edge that an object defines too, and its line.
fn tell_clash(text: &mut String, kit: &KitText, name: &[u8]) -> Result<(), NoMemory> {
    let shown = Shown(name);
    let line = match &kit.kit {
        Some(kit) => line_of_edge(kit, name),
        None => None,
    };
    if let Some(line) = line {
        write!(text, "line {line}: ")?;
    }
    write!(
        text,
        "'{shown}' is the symbol of an edge, and an object of the kit defines it too"
    )?;
    Ok(())
}

/// The line that gives a symbol to an edge.
fn line_of_edge(kit: &Kit, name: &[u8]) -> Option<u32> {
    let edge = kit
        .edges
        .items()
        .iter()
        .find(|edge| edge.symbol.items() == name);
    if let Some(edge) = edge {
        return Some(edge.line);
    }
    let run = kit
        .runs
        .items()
        .iter()
        .find(|run| run.start.items() == name || run.end.items() == name)?;
    Some(run.line)
}

/// Tells the fault of a field.
fn tell_field_fault(
    text: &mut String,
    sources: &[Source],
    fault: &LinkFault,
) -> Result<(), NoMemory> {
    match fault {
        LinkFault::Kind { from, .. } => {
            tell_field(text, sources, from)?;
            write!(text, " isn't of a type that is linked")?;
        }
        LinkFault::Range { from, s, a, p } => tell_range(text, sources, from, (*s, *a, *p))?,
        LinkFault::NotFixed { from } => {
            tell_field(text, sources, from)?;
            write!(
                text,
                " depends on where the library is loaded: compile it with -fPIC"
            )?;
        }
        LinkFault::ReadOnlyField { from } => {
            tell_field(text, sources, from)?;
            write!(
                text,
                " has to be written by the loader, in memory that is only read: compile it with -fPIC"
            )?;
        }
        LinkFault::Removed { from } => {
            tell_field(text, sources, from)?;
            write!(text, " leads to a section that isn't linked")?;
        }
        _ => write!(text, "{fault}")?,
    }
    Ok(())
}

/// The input of a number, where it could be read again.
fn source_of(sources: &[Source], input: u32) -> Option<&Source> {
    sources.iter().find(|source| source.input == input)
}

/// The relocation entry of a field.
fn raw_field(source: &Source, from: &FieldAt) -> Option<RawField> {
    let object = source.object.as_ref()?;
    let (rela, index) = (from.section, from.index);
    object
        .fields
        .items()
        .iter()
        .find(|field| field.rela == rela && field.index == index)
        .copied()
}

/// Tells the file, the section and the offset of a field.
fn tell_place(text: &mut String, sources: &[Source], from: &FieldAt) -> Result<(), NoMemory> {
    let Some(source) = source_of(sources, from.input) else {
        write!(text, "{from}")?;
        return Ok(());
    };
    let file = InputName(source);
    let (Some(field), Some(object)) = (raw_field(source, from), &source.object) else {
        write!(text, "{file}, {from}")?;
        return Ok(());
    };
    let name = SectionName(name_of_section(&source.bytes, object, field.section));
    let offset = field.offset;
    write!(text, "{file}, section {name}, offset {offset:#x}")?;
    Ok(())
}

/// Tells the file, the section, the type, the offset and the symbol of a field.
fn tell_field(text: &mut String, sources: &[Source], from: &FieldAt) -> Result<(), NoMemory> {
    let Some(source) = source_of(sources, from.input) else {
        write!(text, "{from}")?;
        return Ok(());
    };
    let file = InputName(source);
    let (Some(field), Some(object)) = (raw_field(source, from), &source.object) else {
        write!(text, "{file}: {from}")?;
        return Ok(());
    };
    let name = SectionName(name_of_section(&source.bytes, object, field.section));
    let (kind, offset) = (TypeName(field.kind), field.offset);
    let symbol = Shown(name_of_symbol(source, field.symbol));
    write!(
        text,
        "{file}: section {name}: {kind} at {offset:#x} against '{symbol}'"
    )?;
    Ok(())
}

/// The name of a symbol of an input; that of its section for a symbol of type SECTION.
fn name_of_symbol(source: &Source, number: u32) -> &[u8] {
    let Some(object) = &source.object else {
        return b"";
    };
    match object.symbols.items().get(number as usize) {
        Some(symbol) if symbol.kind == STT_SECTION => name_of_section(
            &source.bytes,
            object,
            symbol.section,
        ),
        Some(symbol) => text_at(&source.bytes, symbol.name),
        None => b"",
    }
}

/// Tells the file and the section of a symbol.
fn tell_symbol(
    text: &mut String,
    sources: &[Source],
    (input, number): (u32, u32),
) -> Result<(), NoMemory> {
    let Some(source) = source_of(sources, input) else {
        write!(text, "symbol {number} of input {input}")?;
        return Ok(());
    };
    let file = InputName(source);
    let Some(object) = &source.object else {
        write!(text, "{file}, symbol {number}")?;
        return Ok(());
    };
    let Some(symbol) = object.symbols.items().get(number as usize) else {
        write!(text, "{file}, symbol {number}")?;
        return Ok(());
    };
    let (name, value) = (
        SectionName(name_of_section(&source.bytes, object, symbol.section)),
        symbol.value,
    );
    write!(
        text,
        "{file}, section {name}, offset {value:#x} (symbol {number})"
    )?;
    Ok(())
}

/// Tells a value that is out of its type's range, with the psABI's S, A and P.
fn tell_range(
    text: &mut String,
    sources: &[Source],
    from: &FieldAt,
    (s, a, p): (u64, i64, u64),
) -> Result<(), NoMemory> {
    tell_field(text, sources, from)?;
    let field = match source_of(sources, from.input) {
        Some(source) => raw_field(source, from),
        None => None,
    };
    let row = match field {
        Some(field) => relocation_type(field.kind),
        None => None,
    };
    let Some(row) = row else {
        write!(text, " is out of range (S {s:#x}, A {a}, P {p:#x})")?;
        return Ok(());
    };
    let sum = s.wrapping_add(a.cast_unsigned());
    let bits = row.width.saturating_mul(8);
    let range = words_of_range(row.range);
    if row.relative {
        let value = sum.wrapping_sub(p);
        write!(
            text,
            " is out of range: S + A - P, {value:#x} with S {s:#x}, A {a}, P {p:#x}, is no number of {bits} bits {range}"
        )?;
    } else {
        write!(
            text,
            " is out of range: S + A, {sum:#x} with S {s:#x}, A {a}, is no number of {bits} bits {range}"
        )?;
    }
    Ok(())
}

fn words_of_range(range: ValueRange) -> &'static str {
    match range {
        ValueRange::Signed => "with a sign",
        ValueRange::Unsigned => "without a sign",
        _ => "with a sign or without",
    }
}
