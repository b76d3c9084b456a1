// The objects of a kit that is made.
ghost use Rattle.std.specs.Prelude.{◌≡◌, ◌+◌, ◌<◌, ◌≤◌, ◌++◌, ◌∷◌, [], length, vec_len, IfOk, OnOk};
ghost use Rattle.kl_draw.specs.GapFile.{null_section};
ghost use Rattle.kl_generate.specs.Made.{callee, made_name, text_size};
ghost use Rattle.kl_generate.specs.MadeFile.{callee_name, contents, entry_section, headers_place, made_file, own_symbol, sections_from_one, symbol_section, symbols_bytes, text, undefined_symbol};
ghost use Rattle.kl_generate.specs.declared.limits.TheConstants.{MADE_LIMIT};

use crate::record::{entry_bytes, symbol_bytes};
use itoa::Buffer;
use kl_base::NoMemory;
use kl_draw::record::{
    NULL_SECTION, bytes_section, head_bytes, push_bytes, push_sections, relocatable_head,
};
use kl_elf::abi::{
    R_X86_64_64, R_X86_64_PLT32, SHF_ALLOC, SHF_EXECINSTR, SHF_INFO_LINK, SHF_WRITE, SHN_UNDEF,
    SHT_PROGBITS, SHT_RELA, SHT_STRTAB, SHT_SYMTAB, STB_GLOBAL, STT_FUNC, STT_NOTYPE, STV_DEFAULT,
};
use kl_elf::{Ehdr, Rela, Shdr, Sym};
use kl_model::area::NOP;
use std::alloc::Global;

/// The instruction `call`, by a distance of four bytes.
pub const CALL: u8 = 0xe8;

/// The instruction `ret`.
pub const RETURN: u8 = 0xc3;

/// The size of the data, in bytes.
const DATA_SIZE: u64 = 8;

/// The size of a relocation entry, in bytes.
const ENTRY_SIZE: u64 = Rela::SIZE as u64;

/// How many symbols there are: the null symbol, the object's own and the callee's.
const SYMBOL_COUNT: u64 = 3;

/// How many section headers there are.
const SECTION_COUNT: u16 = 8;

/// The number of the symbol table.
const SYMBOLS_NUMBER: u32 = 5;

/// The number of the string table of the symbols' names.
const STRINGS_NUMBER: u32 = 6;

/// The number of the string table of the sections' names.
const NAMES_NUMBER: u16 = 7;

/// The names of the sections, and zero bytes up to 64.
const NAMES: [u8; 64] =
    *b"\0.text\0.data\0.rela.text\0.rela.data\0.symtab\0.strtab\0.shstrtab\0\0\0\0";

/// How many bytes the names have.
const NAMES_SIZE: u64 = 61;

/// The field of the call: the distance of symbol 2 from the end of the call.
const TEXT_ENTRY: Rela = Rela {
    offset: 1,
    info: 2 << 32 | R_X86_64_PLT32 as u64,
    addend: -4,
};

/// The field of the data: the address of symbol 1.
const DATA_ENTRY: Rela = Rela {
    offset: 0,
    info: 1 << 32 | R_X86_64_64 as u64,
    addend: 0,
};

/// The size of the text of an object, in bytes.
fn text_size(number: u32) -> u64
    ensures size { result ≡ text_size number }
    ensures long { 16 ≤ result }
    ensures short { result ≤ 64 }
{
    16 + 16 * u64::from(number % 4)
}

/// The number of the object that an object calls.
fn callee(count: u32, number: u32) -> u32
    requires few { count ≤ MADE_LIMIT }
    requires number { number < count }
    ensures { result ≡ callee count number }
{
    (7 * number + 1) % count
}

/// Pushes the name of an object's function and a zero byte.
fn push_name(strings: &mut Vec<u8>, number: u32) -> Result<(), NoMemory>
    ensures name { OnOk result (strings.new.items ≡ strings.old.items ++ (made_name number ++ 0 ∷ [])) }
    ensures short { OnOk result (length strings.new.items ≤ length strings.old.items + 42) }
{
    strings.push(b'f')?;
    strings.extend_from_slice(Buffer::new().format(number).as_bytes())?;
    strings.push(0)?;
    Ok(())
}

/// The empty name and the name of an object's function, each ended by a zero byte.
fn own_name(alloc: Global, number: u32) -> Result<Vec<u8>, NoMemory>
    ensures names { IfOk result (λ v. v.items ≡ 0 ∷ made_name number ++ 0 ∷ []) }
    ensures short { IfOk result (λ v. vec_len v ≤ 43) }
{
    let mut strings = Vec::new(alloc);
    strings.push(0)?;
    push_name(&mut strings, number)?;
    Ok(strings)
}

/// The place of the section headers of an object, in bytes.
fn headers_place(number: u32) -> u64
    ensures place { result ≡ headers_place number }
    ensures short { result ≤ 320 }
{
    let symbols = SYMBOL_COUNT * Sym::SIZE as u64;
    Ehdr::SIZE as u64
        + text_size(number)
        + DATA_SIZE
        + 2 * ENTRY_SIZE
        + symbols
        + NAMES.len() as u64
}

/// The header of a section of one relocation entry, which changes another section: the place of its name, its place and the number of
/// the other.
fn entry_section(name: u32, offset: u64, changes: u32) -> Shdr
    ensures { result ≡ entry_section name offset changes }
{
    Shdr {
        link: SYMBOLS_NUMBER,
        info: changes,
        entsize: ENTRY_SIZE,
        ..bytes_section(name, SHT_RELA, SHF_INFO_LINK, offset, ENTRY_SIZE, 8)
    }
}

/// The header of the symbol table, by its place.
fn symbols_section(offset: u64) -> Shdr
    ensures { result ≡ symbol_section offset }
{
    let size = Sym::SIZE as u64;
    Shdr {
        link: STRINGS_NUMBER,
        info: 1,
        entsize: size,
        ..bytes_section(35, SHT_SYMTAB, 0, offset, SYMBOL_COUNT * size, 8)
    }
}

/// The section headers of an object, by its number and the names of its symbols.
fn sections(number: u32, strings: &[u8]) -> [Shdr; 8]
    ensures { result ≡ null_section ∷ sections_from_one (length strings.now) number }
{
    let text = Ehdr::SIZE as u64;
    let size = text_size(number);
    let data = text + size;
    let text_entries = data + DATA_SIZE;
    let data_entries = text_entries + ENTRY_SIZE;
    let symbols = data_entries + ENTRY_SIZE;
    let names = symbols + SYMBOL_COUNT * Sym::SIZE as u64;
    let headers = names + NAMES.len() as u64;
    let behind = headers + Shdr::SIZE as u64 * u64::from(SECTION_COUNT);
    [
        NULL_SECTION,
        bytes_section(1, SHT_PROGBITS, SHF_ALLOC | SHF_EXECINSTR, text, size, 16),
        bytes_section(7, SHT_PROGBITS, SHF_ALLOC | SHF_WRITE, data, DATA_SIZE, 8),
        entry_section(13, text_entries, 1),
        entry_section(24, data_entries, 2),
        symbols_section(symbols),
        bytes_section(43, SHT_STRTAB, 0, behind, strings.len() as u64, 1),
        bytes_section(51, SHT_STRTAB, 0, names, NAMES_SIZE, 1),
    ]
}

/// The symbol of the function of an object, which stands at the start of section 1.
fn own_symbol(number: u32) -> Sym
    ensures { result ≡ own_symbol number }
{
    Sym {
        name: 1,
        info: STB_GLOBAL << 4 | STT_FUNC,
        other: STV_DEFAULT,
        shndx: 1,
        value: 0,
        size: text_size(number),
    }
}

/// The undefined symbol of a function whose name stands at a place of the string table.
fn callee_symbol(name: u32) -> Sym
    ensures { result ≡ undefined_symbol name }
{
    Sym {
        name,
        info: STB_GLOBAL << 4 | STT_NOTYPE,
        other: STV_DEFAULT,
        shndx: SHN_UNDEF,
        value: 0,
        size: 0,
    }
}

/// Pushes the text of an object.
fn push_text(file: &mut Vec<u8>, number: u32) -> Result<(), NoMemory>
    ensures { OnOk result (file.new.items ≡ file.old.items ++ text number) }
{
    file.push(CALL)?;
    push_bytes(file, 4, 0)?;
    push_bytes(file, text_size(number) - 6, NOP)?;
    file.push(RETURN)?;
    Ok(())
}

/// Pushes the symbols of an object, whose callee's name stands at a place of the string table.
fn push_symbols(file: &mut Vec<u8>, number: u32, name: u32) -> Result<(), NoMemory>
    ensures { OnOk result (file.new.items ≡ file.old.items ++ symbols_bytes number name) }
{
    push_bytes(file, Sym::SIZE as u64, 0)?;
    file.extend_from_slice(&symbol_bytes(&own_symbol(number)))?;
    file.extend_from_slice(&symbol_bytes(&callee_symbol(name)))?;
    Ok(())
}

/// Pushes what stands between the header and the section headers of an object, whose callee's name stands at a place of the string
/// table.
fn push_contents(file: &mut Vec<u8>, number: u32, name: u32) -> Result<(), NoMemory>
    requires name { name ≡ callee_name number }
    ensures { OnOk result (file.new.items ≡ file.old.items ++ contents number) }
{
    push_text(file, number)?;
    push_bytes(file, DATA_SIZE, 0)?;
    file.extend_from_slice(&entry_bytes(&TEXT_ENTRY))?;
    file.extend_from_slice(&entry_bytes(&DATA_ENTRY))?;
    push_symbols(file, number, name)?;
    file.extend_from_slice(&NAMES)?;
    Ok(())
}

/// Object `number` of the kit that is made of `count` objects, numbered from 0: a relocatable object (gABI, `ET_REL`) with a text of 16
/// to 64 bytes, which calls the function of another object, and a data word that holds the address of its own function. Its function is
/// named `f` and its number. The only error is want of memory.
pub fn made_object(alloc: Global, count: u32, number: u32) -> Result<Vec<u8>, NoMemory>
    requires few { count ≤ MADE_LIMIT }
    requires number { number < count }
    ensures file { IfOk result (λ b. b.items ≡ made_file count number) }
{
    let mut strings = own_name(alloc, number)?;
    let name = strings.len() as u32;
    push_name(&mut strings, callee(count, number))?;
    let headers = headers_place(number);
    let sections = sections(number, &strings);
    let size = headers as usize + Shdr::SIZE * sections.len() + strings.len();
    let mut file = Vec::with_capacity(alloc, size)?;
    let head = relocatable_head(headers, SECTION_COUNT, NAMES_NUMBER);
    file.extend_from_slice(&head_bytes(&head))?;
    push_contents(&mut file, number, name)?;
    push_sections(&mut file, &sections)?;
    file.extend_from_slice(&strings)?;
    Ok(file)
}
