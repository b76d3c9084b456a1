// The flaw of an object, by the names of its sections and symbols.
use crate::records::{
    Spot, entry, file_header, section_header, section_name, spot_of, symbol, symbol_name,
};
use crate::relocation::TypeName;
use crate::shown::{SectionName, Shown};
use kl_base::NoMemory;
use kl_elf::abi::{ET_DYN, ET_EXEC};
use kl_elf::{Ehdr, HeadFault, Shdr, Sym};
use kl_rel::{Feature, ReadFault, ReadKind};
use std::fmt::Write;

/// Tells the flaw of an object, behind the name of its file.
pub fn tell_flaw(text: &mut String, bytes: &[u8], fault: &ReadFault) -> Result<(), NoMemory> {
    if let ReadKind::Head(head) = fault.kind {
        return tell_head(text, bytes, head);
    }
    let spot = spot_of(bytes, fault.at);
    tell_spot(text, bytes, spot)?;
    tell_kind(text, fault.kind, spot, fault.at)?;
    tell_found(text, bytes, spot, fault.at)
}

/// Tells what is wrong with the file header, and what was found.
fn tell_head(text: &mut String, bytes: &[u8], fault: HeadFault) -> Result<(), NoMemory> {
    let Some(head) = file_header(bytes) else {
        let (count, size) = (bytes.len(), Ehdr::SIZE);
        write!(
            text,
            "no object: it has {count} bytes, and an ELF header alone has {size}"
        )?;
        return Ok(());
    };
    let (kind, machine) = (head.kind, head.machine);
    write!(text, "{fault}")?;
    match fault {
        HeadFault::Magic if bytes.starts_with(b"BC\xc0\xde") => write!(
            text,
            ", but LLVM bitcode: compile it without -flto"
        )?,
        HeadFault::IdentClass => write!(text, ": was it made with -m32?")?,
        HeadFault::FileType if kind == ET_EXEC => write!(
            text,
            ", but a program, which is linked already"
        )?,
        HeadFault::FileType if kind == ET_DYN => write!(
            text,
            ", but a library or a program, which is linked already"
        )?,
        HeadFault::FileType => write!(text, " (type {kind})")?,
        HeadFault::Machine => write!(text, " (machine {machine})")?,
        _ => {}
    }
    Ok(())
}

/// Tells what stands at the place of a flaw.
fn tell_spot(text: &mut String, bytes: &[u8], spot: Spot) -> Result<(), NoMemory> {
    match spot {
        Spot::Header => {}
        Spot::Section { number, .. } => {
            let name = SectionName(section_name(bytes, number));
            write!(text, "section {number} {name}: ")?;
        }
        Spot::Symbol { table, number, .. } => {
            let name = Shown(symbol_name(bytes, table, number));
            write!(text, "symbol {number} '{name}': ")?;
        }
        Spot::Entry { table, number, .. } => {
            let name = SectionName(section_name(bytes, table));
            write!(text, "section {table} {name}, entry {number}: ")?;
        }
        Spot::Group { table } => write!(text, "section {table}, a section group: ")?,
        Spot::Elsewhere => {}
    }
    Ok(())
}

/// Tells what is wrong at a spot.
fn tell_kind(text: &mut String, kind: ReadKind, spot: Spot, at: u64) -> Result<(), NoMemory> {
    match spot {
        Spot::Header => match words_of_header(kind, at) {
            Some(words) => write!(text, "{words}")?,
            None => write!(text, "{kind}")?,
        },
        Spot::Section { field, .. } => match words_of_section(kind, field) {
            Some(words) => write!(text, "{words}")?,
            None => write!(text, "{kind}")?,
        },
        Spot::Symbol { field, .. } => match words_of_symbol(kind, field) {
            Some(words) => write!(text, "{words}")?,
            None => write!(text, "{kind}")?,
        },
        Spot::Entry { .. } if kind == ReadKind::RelaLink => write!(
            text,
            "its symbol is none of the table"
        )?,
        _ => write!(text, "{kind}")?,
    }
    if kind == ReadKind::Unsupported(Feature::Binding) {
        write!(text, "; g++ -fno-gnu-unique writes no GNU_UNIQUE")?;
    }
    Ok(())
}

/// What is wrong with the file header behind its first fields, where it has words of its own.
fn words_of_header(kind: ReadKind, at: u64) -> Option<&'static str> {
    match kind {
        ReadKind::SectionTable if at == Ehdr::E_SHOFF => Some(
            "its section headers pass the end of the file, which may be cut short",
        ),
        ReadKind::SectionTable if at == Ehdr::E_SHNUM => Some("it has no section headers"),
        ReadKind::SectionTable => Some("it has no string table of section names"),
        _ => None,
    }
}

/// What is wrong with a field of a section's header, where it has words of its own.
fn words_of_section(kind: ReadKind, field: u64) -> Option<&'static str> {
    match kind {
        ReadKind::SectionRange if field == Shdr::SH_OFFSET => Some(
            "its bytes pass the end of the file, which may be cut short",
        ),
        ReadKind::SectionRange => Some("it has more than 2^30 bytes"),
        ReadKind::NameRange => Some("its name isn't ended in the string table"),
        ReadKind::Align => Some("its alignment is no power of two up to 2^21"),
        ReadKind::SymbolTable if field == Shdr::SH_TYPE => Some("it is a second symbol table"),
        ReadKind::SymbolTable if field == Shdr::SH_SIZE => Some(
            "its size is 0 or no multiple of 24",
        ),
        ReadKind::SymbolTable if field == Shdr::SH_ENTSIZE => Some(
            "its entries aren't of 24 bytes",
        ),
        ReadKind::SymbolTable if field == Shdr::SH_LINK => Some("it has no string table"),
        ReadKind::SymbolTable => Some("its first symbol that isn't LOCAL is none of it"),
        ReadKind::RelaLink if field == Shdr::SH_INFO => Some(
            "the section that it relocates is none, or has no bytes",
        ),
        ReadKind::RelaLink if field == Shdr::SH_LINK => Some("it isn't linked to the symbol table"),
        ReadKind::RelaLink if field == Shdr::SH_ENTSIZE => Some("its entries aren't of 24 bytes"),
        ReadKind::RelaLink => Some("its size is no multiple of 24"),
        ReadKind::GroupForm if field == Shdr::SH_SIZE => Some(
            "a section group of no whole number of words",
        ),
        ReadKind::GroupForm if field == Shdr::SH_LINK => Some(
            "a section group that isn't linked to the symbol table",
        ),
        ReadKind::GroupForm => Some("a section group whose signature is no symbol"),
        _ => None,
    }
}

/// What is wrong with a field of a symbol, where it has words of its own.
fn words_of_symbol(kind: ReadKind, field: u64) -> Option<&'static str> {
    match kind {
        ReadKind::NameRange => Some("its name is empty, or isn't ended in the string table"),
        ReadKind::SymbolTable => Some(
            "it is LOCAL behind one that isn't, or stands among the LOCAL ones and isn't",
        ),
        ReadKind::SymbolSection if field == Sym::ST_VALUE => Some("its value is above 2^30"),
        ReadKind::SymbolSection if field == Sym::ST_SIZE => Some("its size is above 2^30"),
        ReadKind::SymbolSection => Some(
            "its section is none of the file, or it is LOCAL and has none",
        ),
        ReadKind::Align => Some("the alignment of a common symbol is no power of two up to 2^21"),
        _ => None,
    }
}

/// Tells the number that was found at a place.
fn tell_found(text: &mut String, bytes: &[u8], spot: Spot, at: u64) -> Result<(), NoMemory> {
    match spot {
        Spot::Header => {
            match header_field(bytes, at) {
                Some((name, value)) => write!(text, " ({name} {value})")?,
                None => write!(text, " (byte {at:#x} of the file)")?,
            }
        }
        Spot::Section { number, field } => {
            if let Some((name, value)) = section_field(bytes, number, field) {
                write!(text, " ({name} {value:#x})")?;
            }
        }
        Spot::Symbol {
            table,
            number,
            field,
        } => {
            if let Some((name, value)) = symbol_field(bytes, table, number, field) {
                write!(text, " ({name} {value:#x})")?;
            }
        }
        Spot::Entry { table, number, .. } => tell_entry(text, bytes, table, number)?,
        Spot::Group { .. } | Spot::Elsewhere => write!(text, " (byte {at:#x} of the file)")?,
    }
    Ok(())
}

/// Tells the type and the place of a relocation entry.
fn tell_entry(text: &mut String, bytes: &[u8], table: u64, number: u64) -> Result<(), NoMemory> {
    let (Some(header), Some(entry)) = (section_header(bytes, table), entry(bytes, table, number))
    else {
        return Ok(());
    };
    let kind = TypeName((entry.info & u64::from(u32::MAX)) as u32);
    let offset = entry.offset;
    let name = SectionName(section_name(bytes, u64::from(header.info)));
    write!(text, " ({kind} at {offset:#x} of section {name})")?;
    Ok(())
}

fn header_field(bytes: &[u8], at: u64) -> Option<(&'static str, u64)> {
    let head = file_header(bytes)?;
    if at == Ehdr::E_SHOFF {
        Some(("e_shoff", head.shoff))
    } else if at == Ehdr::E_SHNUM {
        Some(("e_shnum", u64::from(head.shnum)))
    } else if at == Ehdr::E_SHSTRNDX {
        Some(("e_shstrndx", u64::from(head.shstrndx)))
    } else {
        None
    }
}

fn section_field(bytes: &[u8], number: u64, field: u64) -> Option<(&'static str, u64)> {
    let header = section_header(bytes, number)?;
    if field == Shdr::SH_TYPE {
        Some(("sh_type", u64::from(header.kind)))
    } else if field == Shdr::SH_FLAGS {
        Some(("sh_flags", header.flags))
    } else if field == Shdr::SH_OFFSET {
        Some(("sh_offset", header.offset))
    } else if field == Shdr::SH_SIZE {
        Some(("sh_size", header.size))
    } else if field == Shdr::SH_LINK {
        Some(("sh_link", u64::from(header.link)))
    } else if field == Shdr::SH_INFO {
        Some(("sh_info", u64::from(header.info)))
    } else if field == Shdr::SH_ADDRALIGN {
        Some(("sh_addralign", header.addralign))
    } else if field == Shdr::SH_ENTSIZE {
        Some(("sh_entsize", header.entsize))
    } else {
        None
    }
}

fn symbol_field(bytes: &[u8], table: u64, number: u64, field: u64) -> Option<(&'static str, u64)> {
    let symbol = symbol(bytes, table, number)?;
    if field == Sym::ST_INFO {
        Some(("st_info", u64::from(symbol.info)))
    } else if field == Sym::ST_SHNDX {
        Some(("st_shndx", u64::from(symbol.shndx)))
    } else if field == Sym::ST_VALUE {
        Some(("st_value", symbol.value))
    } else if field == Sym::ST_SIZE {
        Some(("st_size", symbol.size))
    } else {
        None
    }
}
