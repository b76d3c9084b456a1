// Numbers and records at the end of some bytes.
ghost use Rattle.std.specs.Prelude.{[], ◌∷◌, ◌++◌, ◌≡◌, ◌≤◌, OnOk};
ghost use Rattle.kl_model.specs.Tables.{padded_to};
ghost use Rattle.kl_model.specs.Written.{bytes_of, dyn_bytes, rela_bytes, sym_bytes};

use kl_base::NoMemory;
use kl_elf::{Dyn, Rela, Sym};

/// Pushes a number of one byte.
fn push_byte(bytes: &mut Vec<u8>, value: u8) -> Result<(), NoMemory>
    ensures { OnOk result (bytes.new.items ≡ bytes.old.items ++ bytes_of 1 value) }
{
    bytes.push(value)?;
    Ok(())
}

/// Pushes a number of two bytes.
fn push_half(bytes: &mut Vec<u8>, value: u16) -> Result<(), NoMemory>
    ensures { OnOk result (bytes.new.items ≡ bytes.old.items ++ bytes_of 2 value) }
{
    bytes.extend_from_slice(&value.to_le_bytes())?;
    Ok(())
}

/// Pushes a number of four bytes.
pub fn push_word(bytes: &mut Vec<u8>, value: u32) -> Result<(), NoMemory>
    ensures { OnOk result (bytes.new.items ≡ bytes.old.items ++ bytes_of 4 value) }
{
    bytes.extend_from_slice(&value.to_le_bytes())?;
    Ok(())
}

/// Pushes a number of eight bytes.
fn push_xword(bytes: &mut Vec<u8>, value: u64) -> Result<(), NoMemory>
    ensures { OnOk result (bytes.new.items ≡ bytes.old.items ++ bytes_of 8 value) }
{
    bytes.extend_from_slice(&value.to_le_bytes())?;
    Ok(())
}

/// Pushes a symbol.
pub fn push_sym(bytes: &mut Vec<u8>, sym: &Sym) -> Result<(), NoMemory>
    ensures { OnOk result (bytes.new.items ≡ bytes.old.items ++ sym_bytes sym.now) }
{
    push_word(bytes, sym.name)?;
    push_byte(bytes, sym.info)?;
    push_byte(bytes, sym.other)?;
    push_half(bytes, sym.shndx)?;
    push_xword(bytes, sym.value)?;
    push_xword(bytes, sym.size)
}

/// Pushes a relocation entry.
pub fn push_rela(bytes: &mut Vec<u8>, rela: &Rela) -> Result<(), NoMemory>
    ensures { OnOk result (bytes.new.items ≡ bytes.old.items ++ rela_bytes rela.now) }
{
    push_xword(bytes, rela.offset)?;
    push_xword(bytes, rela.info)?;
    push_xword(bytes, rela.addend.cast_unsigned())
}

/// Pushes an entry of the dynamic section.
pub fn push_dyn(bytes: &mut Vec<u8>, entry: &Dyn) -> Result<(), NoMemory>
    ensures { OnOk result (bytes.new.items ≡ bytes.old.items ++ dyn_bytes entry.now) }
{
    push_xword(bytes, entry.tag)?;
    push_xword(bytes, entry.value)
}

/// Pushes zero bytes up to a length.
pub fn pad_to(bytes: &mut Vec<u8>, len: usize) -> Result<(), NoMemory>
    ensures { OnOk result (bytes.new.items ≡ padded_to len bytes.old.items) }
{
    if bytes.len() < len {
        bytes.resize(len, 0)?;
    }
    Ok(())
}
